// What is known of what stands at an identity, so that the forest may change.
ghost use Rattle.std.specs.Option.{option_copied};
ghost use Rattle.std.specs.Prelude.{◌≡◌, option_map};
ghost use Rattle.yw_deeds.specs.Runs.{its_net, its_task};
ghost use Rattle.yw_library.specs.Held.{IsHeld};
ghost use Rattle.yw_state.specs.Identity.{case_ident};
ghost use Rattle.yw_state.specs.State.{State, item_at, net_at};

use yw_base::Ident;
use yw_known::Known;
use yw_spec::{Net, Task};
use yw_tree::Forest;

/// The task of the item at an identity, found by one way down; `None` exactly where no item stands there. It takes no
/// memory.
pub fn known_task<'a>(known: &'a Known, forest: &Forest, j: &Ident) -> Option<&'a Task>
    ensures { (s : State) → IsHeld known.now forest.now s
        → option_copied result ≡ option_map its_task (item_at s j.now) }
{
    // No work is done here: these say that it is an identity, and that names lead to specifications.
    let _ = j.numbers();
    known.are_named();
    let (item, outer) = forest.item_with_net(j)?;
    let found = known.net(outer.spec, outer.net)?;
    found.net.tasks.get(item.task)
}

/// The net of a case, by its number; `None` exactly where no such case stands. It takes no memory.
pub fn net_of_case<'a>(known: &'a Known, forest: &Forest, n: u64) -> Option<&'a Net>
    ensures { (s : State) → IsHeld known.now forest.now s
        → option_copied result ≡ option_map its_net (net_at s (case_ident n)) }
{
    known.are_named();
    let case = forest.case(n)?;
    let found = known.net(case.net.spec, case.net.net)?;
    Some(found.net)
}
