// From a text to the specification that it says, or to what it breaks whatever is loaded.
ghost use Rattle.std.specs.Prelude.{◌≡◌, IfOk};
ghost use Rattle.yw_state.specs.Broken.{placeless};
ghost use Rattle.yw_texts.specs.Texts.{IsAccepted, IsUnfit};
ghost use Rattle.yw_library.specs.Accepts.{IfRefused, unchecked, unread};

use crate::LibraryFault;
use std::alloc::Global;
use yw_base::Text;
use yw_check::{CheckFault, check};
use yw_read::{ReadFault, read_spec};
use yw_spec::Spec;
use yw_state::{Refusal, Rule};

/// A refusal by a rule that has no place. It takes no memory.
pub fn placeless(alloc: Global, rule: Rule) -> Refusal
    ensures { result ≡ placeless rule }
{
    Refusal {
        rule,
        at: Text::new(alloc),
    }
}

/// The answer to a text that isn't read. It takes no memory.
fn unread(alloc: Global, fault: ReadFault) -> LibraryFault
    ensures { result ≡ unread fault }
{
    match fault {
        ReadFault::NotToml => LibraryFault::Refused(placeless(alloc, Rule::SpecText)),
        ReadFault::Shape(path) => LibraryFault::Refused(Refusal {
            rule: Rule::SpecShape,
            at: path,
        }),
        ReadFault::Memory => LibraryFault::Memory,
    }
}

/// The answer to a document that isn't accepted.
fn unchecked(fault: CheckFault) -> LibraryFault
    ensures { result ≡ unchecked fault }
{
    match fault {
        CheckFault::Broken(_number, at) => LibraryFault::Refused(Refusal {
            rule: Rule::SpecCheck,
            at,
        }),
        CheckFault::Memory => LibraryFault::Memory,
    }
}

/// The specification that a text says, where it is accepted. Else the first rule that it breaks: `SpecText`, `SpecShape` or `SpecCheck`.
pub fn accepted(alloc: Global, text: &str) -> Result<Spec, LibraryFault>
    ensures ok { IfOk result (IsAccepted text.now) }
    ensures refused { IfRefused result (IsUnfit text.now) }
{
    let raw = match read_spec(alloc, text) {
        Ok(raw) => raw,
        Err(fault) => return Err(unread(alloc, fault)),
    };
    match check(alloc, raw) {
        Ok(spec) => Ok(spec),
        Err(fault) => Err(unchecked(fault)),
    }
}
