// A case is launched.
ghost use Rattle.std.specs.Prelude.{◌≡◌, ℕ, IfOk, List};
ghost use Rattle.yw_breaks.specs.Finds.{BreaksNext, FindsSpec};
ghost use Rattle.yw_breaks.specs.Launch.{SaysSpec, launch_fault, unwanted_at};
ghost use Rattle.yw_library.specs.Holdings.{Holdings};
ghost use Rattle.yw_state.specs.declared.command.Command.TheVariants as commands;
ghost use Rattle.yw_within.specs.Within.{IsWithin};

use crate::asked::SpecAsked;
use crate::refusals::{number_rule, refusal};
use std::alloc::{AllocError, Global};
use yw_base::{Name, Text};
use yw_given::unwanted;
use yw_known::Known;
use yw_spec::Spec;
use yw_state::{GivenList, Refusal, Rule};

/// The first name of a value that the top net of a specification doesn't want.
fn unwanted_at(alloc: Global, spec: &Spec, given: &GivenList) -> Result<Option<Text>, AllocError>
    requires { IsWithin spec.now }
    ensures { IfOk result (λ at. at ≡ unwanted_at spec.now given.now) }
{
    match spec.nets.get(spec.top) {
        Some(net) => unwanted(alloc, &net.vars, given),
        None => Ok(None),
    }
}

/// What a launch of a specification breaks.
fn launch_fault(
    alloc: Global,
    spec: &Spec,
    next: u64,
    given: &GivenList,
) -> Result<Option<Refusal>, AllocError>
    requires { IsWithin spec.now }
    ensures { IfOk result (λ found. found ≡ launch_fault spec.now next given.now) }
{
    match unwanted_at(alloc, spec, given)? {
        Some(at) => Ok(Some(Refusal {
            rule: Rule::BadData,
            at,
        })),
        None => Ok(refusal(alloc, number_rule(next))),
    }
}

/// The specification that a launch names, with its number. An `Err` has the first rule that it breaks: `UnknownSpec` where none of this name is
/// loaded. It takes no memory.
pub fn launch_front<'a>(known: &'a Known, name: &Name) -> Result<SpecAsked<'a>, Rule>
    ensures { FindsSpec known.now name.now result }
{
    match known.spec_named(name) {
        Some((spec, number)) => Ok(SpecAsked { spec, number }),
        None => Err(Rule::UnknownSpec),
    }
}

/// The first rule that a launch of this specification breaks: `BadData` where a value is given that no variable of the top net takes, at the first
/// such name in byte order; `Numbers` where no number is left, of which `next` is drawn next; `None` where it breaks none. An `Err` says that no
/// memory was left.
pub fn launch_rest(
    alloc: Global,
    spec: &Spec,
    next: u64,
    given: &GivenList,
) -> Result<Option<Refusal>, AllocError>
    requires { IsWithin spec.now }
    ensures { (known : Holdings) (name : List ℕ) → SaysSpec known name spec.now
        → IfOk result (BreaksNext known next (commands.Launch name given.now)) }
{
    launch_fault(alloc, spec, next, given)
}
