//! The building of a specification from a document that passed the checks: names by their numbers, flows by their
//! places, texts by their expressions.
#![tactic(auto)]

ghost use Rattle.std.specs.Prelude.{None, IfOk};
ghost use Rattle.yw_accept.specs.Built.{IsSpec};
ghost use Rattle.yw_accept.specs.Verdict.{IsVerdict};

mod branches;
mod expressions;
mod kinds;
mod many;
mod nets;
mod numbers;
mod parameters;
mod places;
mod removals;
mod rows;
mod tasks;
mod values;
mod words;

use std::alloc::{AllocError, Global};
use yw_read::RawSpec;
use yw_spec::Spec;

/// The specification that a document says in which no check found a fault: names by their numbers, flows by
/// their places, texts by their expressions. An `Err` says that no memory was left, and comes for nothing
/// else. The time that it takes grows with the document's length n as n log n.
pub fn spec_of(alloc: Global, raw: &RawSpec) -> Result<Spec, AllocError>
    requires { IsVerdict raw.now None }
    ensures { IfOk result (IsSpec raw.now) }
{
    let spec = nets::spec_of_ready(alloc, raw)?;
    Ok(spec)
}
