// A case is launched.
ghost use Rattle.yw_cases.specs.State.{MayStand};
ghost use Rattle.yw_engine.specs.Decides.{Decides, MakesNumbered};
ghost use Rattle.yw_library.specs.Holdings.{IsKept};
ghost use Rattle.yw_state.specs.declared.command.Command.TheVariants as commands;

use crate::begin::{Numbered, begin_numbered};
use crate::front::placeless;
use crate::work::Work;
use crate::{Decided, EngineFault};
use yw_base::Name;
use yw_breaks::{SpecAsked, launch_event, launch_front, launch_rest};
use yw_state::GivenList;

/// The event of a launch of this specification, which has this name, with its number, where the launch breaks no rule; else the first that it breaks.
fn launch_here(
    work: &Work,
    asked: &SpecAsked<'_>,
    name: &Name,
    given: &GivenList,
) -> Result<Numbered, EngineFault>
    requires stands { MayStand work.now.standing }
    requires kept { IsKept work.now.standing.known name.now asked.now.spec.now asked.now.number }
    ensures { MakesNumbered work.now.standing (commands.Launch name.now given.now) result }
{
    let (found, next) = (asked.spec, work.standing.next());
    if let Some(refusal) = launch_rest(work.alloc, found, next, given)? {
        return Err(EngineFault::Refused(refusal));
    }
    let event = launch_event(work.alloc, found, next, name, given)?;
    Ok(Numbered {
        event,
        number: asked.number,
    })
}

/// The event of a launch, with the number of its specification, where it breaks no rule; else the first that it breaks.
fn launch_made(work: &Work, spec: &Name, given: &GivenList) -> Result<Numbered, EngineFault>
    requires { MayStand work.now.standing }
    ensures { MakesNumbered work.now.standing (commands.Launch spec.now given.now) result }
{
    match launch_front(work.standing.known(), spec) {
        Ok(asked) => launch_here(work, &asked, spec, given),
        Err(rule) => Err(EngineFault::Refused(placeless(work.alloc, rule))),
    }
}

/// A case of a specification begins, with the values that are given, under the number that is drawn next.
pub fn decide_launch(
    work: &mut Work,
    spec: &Name,
    given: &GivenList,
) -> Result<Decided, EngineFault>
    requires { MayStand work.old.standing }
    ensures { Decides work.old.standing (commands.Launch spec.now given.now) result work.new.standing }
{
    let next = work.standing.next();
    let asked = launch_made(work, spec, given)?;
    Ok(begin_numbered(work, asked, Some(next))?)
}
