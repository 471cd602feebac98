// Whether work is held.
ghost use Rattle.std.specs.Prelude.{◌≡◌};
ghost use Rattle.yw_cases.specs.State.{MayStand};
ghost use Rattle.yw_standing.specs.State.{state_of};
ghost use Rattle.yw_state.specs.Words.{held};

use yw_base::Ident;
use yw_standing::Standing;

/// What stands at an identity is suspended, or something above it. It takes no memory.
pub fn is_held(standing: &Standing, at: &Ident) -> bool
    requires { MayStand standing.now }
    ensures { result ≡ held (state_of standing.now) at.now }
{
    standing.forest.is_held(at)
}
