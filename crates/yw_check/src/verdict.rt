// The twelve checks in order, and what they accept.
ghost use Rattle.std.specs.Prelude.{◌≡◌, ◌⊎◌, Option, Some, None, IfOk};
ghost use Rattle.yw_accept.specs.declared.broken.Broken.{Broken};
ghost use Rattle.yw_accept.specs.Verdict.{IsVerdict};
ghost use Rattle.yw_check.specs.Judged.{Answers, Judges, fault_of};

use crate::CheckFault;
use std::alloc::{AllocError, Global};
use yw_accept::Broken;
use yw_build::spec_of;
use yw_check_graph::{children_fit, levels_fit, or_joins_fit, paths_fit};
use yw_check_names::{flows_fit, names_fit, removals_fit};
use yw_check_sorts::{parameters_agree, sorts_fit};
use yw_check_tasks::{items_fit, sizes_fit, splits_fit};
use yw_read::RawSpec;
use yw_spec::Spec;

/// The first of the twelve checks that fails, or `None` where none does. Each check may rest on those before it.
#[tactic(auto, unfolding(yw_accept::specs::Verdict::IsVerdict))]
fn verdict(alloc: Global, raw: &RawSpec) -> Result<Option<Broken>, AllocError>
    ensures { IfOk result (IsVerdict raw.now) }
{
    if let Some(broken) = names_fit(alloc, raw)? {
        return Ok(Some(broken));
    }
    if let Some(broken) = flows_fit(alloc, raw)? {
        return Ok(Some(broken));
    }
    if let Some(broken) = paths_fit(alloc, raw)? {
        return Ok(Some(broken));
    }
    if let Some(broken) = removals_fit(alloc, raw)? {
        return Ok(Some(broken));
    }
    if let Some(broken) = items_fit(alloc, raw)? {
        return Ok(Some(broken));
    }
    if let Some(broken) = children_fit(alloc, raw)? {
        return Ok(Some(broken));
    }
    if let Some(broken) = levels_fit(alloc, raw)? {
        return Ok(Some(broken));
    }
    if let Some(broken) = or_joins_fit(alloc, raw)? {
        return Ok(Some(broken));
    }
    if let Some(broken) = sorts_fit(alloc, raw)? {
        return Ok(Some(broken));
    }
    if let Some(broken) = splits_fit(alloc, raw)? {
        return Ok(Some(broken));
    }
    if let Some(broken) = parameters_agree(alloc, raw)? {
        return Ok(Some(broken));
    }
    let last = sizes_fit(alloc, raw)?;
    Ok(last)
}

/// The fault of a check that fails.
fn fault(alloc: Global, broken: &Broken) -> CheckFault
    ensures { (result ≡ CheckFault.Memory) ⊎ (result ≡ fault_of broken.now) }
{
    match broken.text(alloc) {
        Ok(text) => CheckFault::Broken(broken.number, text),
        Err(AllocError) => CheckFault::Memory,
    }
}

/// The specification that a document says, where all twelve checks pass: names by numbers, each index in
/// range, each expression parsed in its scope. Else the first check that fails, with what it names. The
/// checks and their order are our own.
pub fn check(alloc: Global, raw: RawSpec) -> Result<Spec, CheckFault>
    // What is answered is what the checks find, and the specification is the one that the document says.
    ensures judges { Judges raw result }

    // What the checks find is what is answered, unless memory runs out: nothing else is found.
    ensures only { (found : Option Broken) → IsVerdict raw found → Answers result found }
{
    match verdict(alloc, &raw)? {
        Some(broken) => Err(fault(alloc, &broken)),
        None => {
            let spec = spec_of(alloc, &raw)?;
            Ok(spec)
        }
    }
}
