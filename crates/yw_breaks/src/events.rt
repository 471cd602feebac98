// The event that a command asks for.
ghost use Rattle.std.specs.Prelude.{◌≡◌, IfOk, None};
ghost use Rattle.yw_breaks.specs.Events.{CompleteMakes, LaunchAsks};
ghost use Rattle.yw_breaks.specs.Launch.{SaysSpec};
ghost use Rattle.yw_known.specs.Here.{SaysItem};
ghost use Rattle.yw_library.specs.Holdings.{Holdings};
ghost use Rattle.yw_texts.specs.Texts.{reader};
ghost use Rattle.yw_state.specs.Given.{misfit};
ghost use Rattle.yw_state.specs.Identity as ids;
ghost use Rattle.yw_base.specs.Identity.{case_number};
ghost use Rattle.yw_state.specs.Legal.{IsAsked};
ghost use Rattle.yw_state.specs.State.{State};
ghost use Rattle.yw_state.specs.declared.command.Command.TheVariants as commands;
ghost use Rattle.yw_tree.specs.declared.Forest.{Forest};
ghost use Rattle.yw_within.specs.Within.{IsWithin};

use std::alloc::{AllocError, Global};
use yw_base::{Ident, Name, Row};
use yw_given::{launch_values, made_values};
use yw_known::ItemHere;
use yw_spec::Spec;
use yw_state::{Event, GivenList};

/// The event that a start asks for. It takes no memory.
pub fn start_event(who: Name, item: Ident) -> Event
    ensures { (s : State) → IsAsked reader s (commands.Start who item) result }
{
    Event::Start { item, who }
}

/// The event that a cancel asks for. It takes no memory.
pub fn cancel_event(case: &Ident) -> Event
    ensures { (s : State) → IsAsked reader s (commands.Cancel case.now) result }
{
    Event::Cancel {
        case: case.case_number(),
    }
}

/// The event that an advance asks for. It takes no memory.
pub fn advance_event(case: &Ident) -> Event
    ensures { (s : State) → IsAsked reader s (commands.Advance case.now) result }
{
    Event::Advance {
        case: case.case_number(),
    }
}

/// The event that a launch of this specification asks for, which has this name, where `next` is drawn next. An `Err` says that no memory was left.
pub fn launch_event(
    alloc: Global,
    found: &Spec,
    next: u64,
    name: &Name,
    given: &GivenList,
) -> Result<Event, AllocError>
    requires { IsWithin found.now }
    ensures { (known : Holdings) → SaysSpec known name.now found.now
        → IfOk result (LaunchAsks known next name.now given.now) }
{
    let Some(net) = found.nets.get(found.top) else {
        unreachable!();
    };
    let spec = name.copy()?;
    let values = launch_values(alloc, &net.vars, given)?;
    Ok(Event::Launch {
        case: next,
        spec,
        values,
    })
}

/// The values of the event that a completion of this item asks for, where those that are given are the ones that its task makes. An `Err` says
/// that no memory was left.
pub fn complete_values(
    alloc: Global,
    here: &ItemHere<'_>,
    given: &GivenList,
) -> Result<Row, AllocError>
    requires { misfit here.now.task.now.outs given.now ≡ None }
    ensures { (known : Holdings) (f : Forest) (j : ids.Ident) → SaysItem known f j here.now
        → IfOk result (CompleteMakes known f j given.now) }
{
    made_values(alloc, &here.task.outs, given)
}
