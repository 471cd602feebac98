// Whether work is held.
ghost use Rattle.std.specs.Prelude.{◌≡◌};
ghost use Rattle.yw_breaks.specs.Finds.{ByHeld};

use yw_base::Ident;
use yw_tree::Forest;

/// Work at this identity is held. It takes no memory.
pub fn is_held(forest: &Forest, at: &Ident) -> bool
    ensures { ByHeld forest.now at.now (λ held. result ≡ held) }
{
    forest.is_held(at)
}
