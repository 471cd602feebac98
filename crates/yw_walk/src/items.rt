// What comes of itself of a case and of an item.
ghost use Rattle.std.specs.Prelude.{◌≡◌, IfOk};
ghost use Rattle.yw_enabled.specs.Items.{event_of};
ghost use Rattle.yw_library.specs.Holdings.{Holdings};
ghost use Rattle.yw_tree.specs.declared.Forest as forests;
ghost use Rattle.yw_walk.specs.Finds.{FindsFinish, FindsStep, IsItemAt};

use crate::Found;
use std::alloc::{AllocError, Global};
use yw_base::Ident;
use yw_enabled::{ItemStep, item_step};
use yw_known::ItemHere;
use yw_state::Event;
use yw_tree::Forest;

/// The end of the case at an identity, where `ends` says that its net is at its end. `None` of other identities, where it isn't, and where a run
/// hangs at the case.
pub fn finish_of(forest: &Forest, id: &Ident, ends: bool) -> Option<Found>
    ensures { (known : Holdings) → FindsFinish known forest.now id.now ends result }
{
    match id.numbers() {
        [number] if ends && !forest.is_busy(id) => {
            Some(Found::plainly(Event::Finish { case: *number }))
        }
        _ => None,
    }
}

/// The event of a step of the item at an identity.
fn event_of(step: ItemStep, item: Ident) -> Event
    ensures { result ≡ event_of step item }
{
    match step {
        ItemStep::StartSub => Event::StartSub { item },
        ItemStep::CompleteSub => Event::CompleteSub { item },
        ItemStep::CompleteEmpty => Event::CompleteEmpty { item },
        ItemStep::CompleteWorklet => Event::CompleteWorklet { item },
    }
}

/// How the item that stands at an identity goes on, where `ends` says whether a net stands there that is at its end. `None` where no item
/// stands there, and where it doesn't go on. An `Err` says that no memory was left.
pub fn step_of(
    alloc: Global,
    item: &Option<ItemHere<'_>>,
    id: &Ident,
    ends: bool,
) -> Result<Option<Found>, AllocError>
    ensures { (known : Holdings) (f : forests.Forest) → IsItemAt known f id.now item.now → IfOk result (FindsStep known f id.now ends) }
{
    let Some(here) = item else {
        return Ok(None);
    };
    let Some(step) = item_step(here.item, here.task, ends) else {
        return Ok(None);
    };
    Ok(Some(Found::plainly(event_of(step, id.copy(alloc)?))))
}
