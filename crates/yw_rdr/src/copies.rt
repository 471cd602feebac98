// Copies of what rules conclude.
ghost use Rattle.std.specs.Prelude.{◌≡◌, IfOk};

use std::alloc::{AllocError, Global};
use yw_base::{Items, Text};
use yw_state::{Primitive, PrimitiveList};

/// A copy of a primitive. An `Err` says that no memory was left.
fn copy_of_primitive(alloc: Global, primitive: &Primitive) -> Result<Primitive, AllocError>
    ensures { IfOk result (λ copy. copy ≡ primitive.now) }
{
    Ok(match primitive {
        Primitive::SuspendItem => Primitive::SuspendItem,
        Primitive::ContinueItem => Primitive::ContinueItem,
        Primitive::RestartItem => Primitive::RestartItem,
        Primitive::CompleteItem => Primitive::CompleteItem,
        Primitive::RemoveItem => Primitive::RemoveItem,
        Primitive::SuspendCase => Primitive::SuspendCase,
        Primitive::ContinueCase => Primitive::ContinueCase,
        Primitive::RemoveCase => Primitive::RemoveCase,
        Primitive::Compensate(name) => Primitive::Compensate(name.copy()?),
        Primitive::Unknown(text) => Primitive::Unknown(Text::copy_of(alloc, text.as_str())?),
    })
}

/// A copy of primitives, in their order. An `Err` says that no memory was left.
pub fn copy_of_primitives(
    alloc: Global,
    primitives: &[Primitive],
) -> Result<PrimitiveList, AllocError>
    ensures { IfOk result (λ copy. copy ≡ primitives.now) }
{
    let mut copy = Items::new(alloc);
    for primitive in primitives {
        copy.push(copy_of_primitive(alloc, primitive)?)?;
    }
    Ok(copy)
}
