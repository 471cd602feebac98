// The first demand that a specification doesn't meet.
ghost use Rattle.std.specs.Prelude.{◌≡◌, IfOk, codes};
ghost use Rattle.yw_accept.specs.Faults.{broken_text, in_net, of_net, of_spec, name_or_mark};

use std::alloc::{AllocError, Global};
use yw_base::{Name, NameFault, Text};

/// The first of the twelve checks that fails, and what it names. The checks and their order are our own.
#[derive(Debug, Drop)]
pub struct Broken {
    /// The check's number, 1 to 12.
    pub number: u32,
    /// The name of the net, `?` where that isn't a name, or `-` for the specification.
    pub net: Text,
    /// The name that is at fault, or `?` where that isn't a name.
    pub offender: Text,
}

/// A text as a fault shows it.
fn name_or_mark(alloc: Global, name: &Text) -> Result<Text, AllocError>
    ensures { IfOk result (λ t. t ≡ name_or_mark name.now) }
{
    match Name::read(alloc, name.as_str()) {
        Ok(name) => Ok(Text::from_string(name.into_string())),
        Err(NameFault::Shape) => Text::copy_of(alloc, "?"),
        Err(NameFault::Memory) => Err(AllocError),
    }
}

impl Broken {
    /// The fault of something in a net. An `Err` says that no memory was left.
    pub fn in_net(
        alloc: Global,
        number: u32,
        net: &Text,
        offender: &Text,
    ) -> Result<Broken, AllocError>
        ensures { IfOk result (λ b. b ≡ in_net number net.now offender.now) }
    {
        let net = name_or_mark(alloc, net)?;
        let offender = name_or_mark(alloc, offender)?;
        Ok(Broken {
            number,
            net,
            offender,
        })
    }

    /// The fault of a net. An `Err` says that no memory was left.
    pub fn of_net(alloc: Global, number: u32, net: &Text) -> Result<Broken, AllocError>
        ensures { IfOk result (λ b. b ≡ of_net number net.now) }
    {
        Broken::in_net(alloc, number, net, net)
    }

    /// The fault of the specification. An `Err` says that no memory was left.
    pub fn of_spec(alloc: Global, number: u32, offender: &Text) -> Result<Broken, AllocError>
        ensures { IfOk result (λ b. b ≡ of_spec number offender.now) }
    {
        let net = Text::copy_of(alloc, "-")?;
        let offender = name_or_mark(alloc, offender)?;
        Ok(Broken {
            number,
            net,
            offender,
        })
    }

    /// The fault as it is told: `V`, the check's number, the net and the offender, with a space between each
    /// two. An `Err` says that no memory was left.
    pub fn text(&self, alloc: Global) -> Result<Text, AllocError>
        ensures { IfOk result (λ t. t ≡ broken_text self.now) }
    {
        let text = format!(in alloc;
            "V{} {} {}",
            self.number,
            self.net.as_str(),
            self.offender.as_str()
        )?;
        Ok(Text::from_string(text))
    }
}
