// A person completes an item.
ghost use Rattle.std.specs.Prelude.{◌≡◌, IfOk, None};
ghost use Rattle.yw_breaks.specs.Complete.{FindsMost, is_by_itself};
ghost use Rattle.yw_breaks.specs.Finds.{Finds};
ghost use Rattle.yw_breaks.specs.Tables.{complete_most};
ghost use Rattle.yw_known.specs.Here.{SaysItem};
ghost use Rattle.yw_library.specs.Holdings.{Holdings};
ghost use Rattle.yw_state.specs.Identity.{Ident};
ghost use Rattle.yw_task.specs.Asked.{complete_fault};

use crate::hold::is_held;
use crate::persons::is_atomic;
use crate::refusals::placeless;
use std::alloc::{AllocError, Global};
use yw_base::Name;
use yw_given::misfit;
use yw_known::ItemHere;
use yw_state::{GivenList, Refusal, Rule};
use yw_task::ask_complete;
use yw_tree::Forest;

/// Persons don't do the item, or a net stands for it.
fn is_by_itself(here: &ItemHere<'_>) -> bool
    ensures { result ≡ is_by_itself here.now }
{
    !is_atomic(here.task) || here.item.net.is_some()
}

/// What a completion of this item breaks.
fn most_broken(
    alloc: Global,
    forest: &Forest,
    here: &ItemHere<'_>,
    who: &Name,
    given: &GivenList,
) -> Result<Option<Refusal>, AllocError>
    ensures finds { IfOk result (FindsMost forest.now who.now given.now here.now) }
    ensures shown { IfOk result (λ found. found ≡ None → complete_fault here.now.item.now who.now ≡ None) }
{
    if is_by_itself(here) {
        return Ok(Some(placeless(alloc, Rule::ByItself)));
    }
    if is_held(forest, &here.item.id) {
        return Ok(Some(placeless(alloc, Rule::Held)));
    }
    if let Some(rule) = ask_complete(here.item, who) {
        return Ok(Some(placeless(alloc, rule)));
    }
    match misfit(alloc, &here.task.outs, given)? {
        Some(at) => Ok(Some(Refusal {
            rule: Rule::Output,
            at,
        })),
        None => Ok(None),
    }
}

/// The first rule that a completion of this item breaks, of those that are tried behind but for the last: `ByItself` where its task isn't
/// atomic, or a net stands for the item; `Held` where work at the item is held; `Stage` where it isn't executing; `NotYours` where another person
/// started it; `Busy` where an exlet is at work on it; `Output` where the values aren't those that it makes, at the name of the first parameter
/// that lacks one of its sort, else the first name in byte order that no parameter has; `None` where it breaks none of these. The last, `Mapping`,
/// is found by yw_steps, which needn't ask again what the item itself shows (`shown`). An `Err` says that no memory was left.
pub fn complete_most(
    alloc: Global,
    forest: &Forest,
    here: &ItemHere<'_>,
    who: &Name,
    given: &GivenList,
) -> Result<Option<Refusal>, AllocError>
    ensures finds { (known : Holdings) (j : Ident) → SaysItem known forest.now j here.now
        → IfOk result (Finds known forest.now (λ s. complete_most s who.now j given.now)) }
    ensures shown { IfOk result (λ found. found ≡ None → complete_fault here.now.item.now who.now ≡ None) }
{
    most_broken(alloc, forest, here, who, given)
}
