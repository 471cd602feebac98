// What an event says of where it is done.
ghost use Rattle.std.specs.Prelude.{◌≡◌, None, option_copied};
ghost use Rattle.yw_idle.specs.Warms.{is_rule};
ghost use Rattle.yw_loose.specs.Moved.{MovesWithin, begun_or_over, done_at, exlet_at};

use yw_base::Ident;
use yw_state::Event;

/// The net or the item at which an event is done, or what it suspends; `None` for one of a whole case, of no case, and for each other of an exlet.
pub(crate) fn done_at(event: &Event) -> Option<&Ident>
    ensures { option_copied result ≡ done_at event.now }
{
    match event {
        Event::Enter { net, .. } | Event::Exit { net, .. } | Event::Add { net, .. } => Some(net),
        Event::Start { item, .. }
        | Event::Complete { item, .. }
        | Event::StartSub { item }
        | Event::CompleteSub { item }
        | Event::CompleteEmpty { item } => Some(item),
        Event::Suspend { at } => Some(at),
        _ => None,
    }
}

/// The case, the item or the run at which an event of an exlet is done.
pub(crate) fn exlet_at(event: &Event) -> Option<&Ident>
    ensures { option_copied result ≡ exlet_at event.now }
{
    match event {
        Event::Pass { at, .. }
        | Event::Except { at, .. }
        | Event::Raise { at, .. }
        | Event::Suspend { at }
        | Event::Continue { at } => Some(at),
        Event::Substitute { item, .. } | Event::CompleteWorklet { item } => Some(item),
        Event::Prim { run, .. } | Event::Compensated { run } => Some(run),
        _ => None,
    }
}

/// The case that begins or is over by an event.
fn begun_or_over(event: &Event) -> Option<u64>
    ensures { result ≡ begun_or_over event.now }
{
    match event {
        Event::Launch { case, .. } | Event::Finish { case } | Event::Cancel { case } => Some(*case),
        _ => None,
    }
}

/// An event that is done at no net and no item, and suspends nothing, may set something moving in this case alone; `None` where it does so nowhere.
pub(crate) fn moved_case(event: &Event) -> Option<u64>
    ensures { done_at event.now ≡ None → MovesWithin event.now result }
{
    match exlet_at(event) {
        Some(at) => {
            // No work is done here: it says that it is an identity.
            let _ = at.numbers();
            Some(at.case_number())
        }
        None => begun_or_over(event),
    }
}

/// It adds a rule.
pub(crate) fn is_rule(event: &Event) -> bool
    ensures { result ≡ is_rule event.now }
{
    matches!(event, Event::AddRule { .. })
}
