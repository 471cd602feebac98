// From a text to the specification that it says, or to what is first wrong with it.
ghost use Rattle.std.specs.Prelude.{◌≡◌, Ok, IfOk};
ghost use Rattle.yw_texts.specs.Texts.{ReadsSpec};
ghost use Rattle.yw_read.specs.Reading.{spec_in};
ghost use Rattle.yw_state.specs.Broken.{placeless};
ghost use Rattle.yw_verdict.specs.Found.{SaysSpec};

use std::alloc::{AllocError, Global};
use yw_base::Text;
use yw_check::{CheckFault, check};
use yw_read::{RawSpec, ReadFault, read_spec};
use yw_spec::Spec;
use yw_state::{Refusal, Rule};

/// A refusal by a rule without a place. It takes no memory.
pub fn placeless(alloc: Global, rule: Rule) -> Refusal
    ensures { result ≡ placeless rule }
{
    let at = Text::new(alloc);
    Refusal { rule, at }
}

/// The specification of a document, or the first check that fails.
fn checked(alloc: Global, raw: RawSpec) -> Result<Result<Spec, Refusal>, AllocError>
    ensures { IfOk result (SaysSpec (Ok raw)) }
{
    match check(alloc, raw) {
        Ok(spec) => Ok(Ok(spec)),
        Err(CheckFault::Broken(_, at)) => {
            let rule = Rule::SpecCheck;
            Ok(Err(Refusal { rule, at }))
        }
        Err(CheckFault::Memory) => Err(AllocError),
    }
}

/// The same of a text.
fn said(alloc: Global, text: &str) -> Result<Result<Spec, Refusal>, AllocError>
    ensures { IfOk result (SaysSpec (spec_in text.now)) }
{
    match read_spec(alloc, text) {
        Ok(raw) => checked(alloc, raw),
        Err(ReadFault::NotToml) => Ok(Err(placeless(alloc, Rule::SpecText))),
        Err(ReadFault::Shape(at)) => {
            let rule = Rule::SpecShape;
            Ok(Err(Refusal { rule, at }))
        }
        Err(ReadFault::Memory) => Err(AllocError),
    }
}

/// The specification that a text says, where it is accepted. Else what is first wrong with it, by `SpecText`, `SpecShape` or `SpecCheck`, as
/// `yw_texts` defines it. The outer `Err` says that no memory was left.
pub fn accepted(alloc: Global, text: &str) -> Result<Result<Spec, Refusal>, AllocError>
    ensures { IfOk result (ReadsSpec text.now) }
{
    said(alloc, text)
}
