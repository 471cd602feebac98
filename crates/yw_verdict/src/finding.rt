// What is found of a text.
ghost use Rattle.std.specs.Prelude.{◌≡◌, IfOk};
ghost use Rattle.yw_texts.specs.Accepted.{document_in};
ghost use Rattle.yw_verdict.specs.Found.{FindsSaid, IsFound, finding_of};

use crate::text::{accepted, placeless};
use std::alloc::{AllocError, Global};
use yw_base::Name;
use yw_spec::Spec;
use yw_state::{Refusal, Rule};
use yw_wire::LINE_LIMIT;

/// What is found of a text.
#[derive(Debug, Drop)]
pub enum Finding {
    /// It is accepted, and its specification has this name.
    Accepted(Name),
    /// It isn't, by this rule and at this place.
    Refused(Refusal),
}

/// The most bytes of a text that is judged.
pub const TEXT_LIMIT: usize = LINE_LIMIT;

/// What is found where this is said.
fn finding_of(said: Result<Spec, Refusal>) -> Finding
    ensures { result ≡ finding_of said }
{
    match said {
        Ok(spec) => Finding::Accepted(spec.name),
        Err(refusal) => Finding::Refused(refusal),
    }
}

/// What is found of bytes that aren't too many.
fn judge_bytes(alloc: Global, bytes: &[u8]) -> Result<Finding, AllocError>
    ensures { IfOk result (FindsSaid (document_in bytes.now)) }
{
    match str::from_utf8(bytes) {
        Ok(text) => Ok(finding_of(accepted(alloc, text)?)),
        Err(_) => Ok(Finding::Refused(placeless(alloc, Rule::SpecText))),
    }
}

/// What is found of a text, of which so much is given that it shows whether it is too long. An `Err` says that
/// no memory was left.
#[tactic(auto, unfolding(crate::specs::Found::text_limit))]
pub fn judge(alloc: Global, bytes: &[u8]) -> Result<Finding, AllocError>
    ensures { IfOk result (IsFound bytes.now) }
{
    if bytes.len() > TEXT_LIMIT {
        return Ok(Finding::Refused(placeless(alloc, Rule::LineTooLong)));
    }
    judge_bytes(alloc, bytes)
}
