// Names and values.
ghost use Rattle.std.specs.Prelude.{◌≡◌, true, IfOk, All, option_to_list};
ghost use Rattle.std.specs.Option.{option_copied};
ghost use Rattle.yw_base.specs.Values.{zero_of};
ghost use Rattle.yw_accept.specs.Names.{is_usable};

use std::alloc::{AllocError, Global};
use yw_base::{Items, Name, NameFault, Sort, Text, Value};

/// The name that a text is, which may be used.
pub fn name_of(alloc: Global, text: &Text) -> Result<Name, AllocError>
    requires { is_usable text.now ≡ true }
    ensures { IfOk result (λ name. name ≡ text.now) }
{
    match Name::read(alloc, text.as_str()) {
        Ok(name) => Ok(name),
        Err(NameFault::Memory) => Err(AllocError),
        Err(NameFault::Shape) => unreachable!(),
    }
}

/// The name that a text is, where there is one.
pub fn maybe_name(alloc: Global, text: Option<&Text>) -> Result<Option<Name>, AllocError>
    requires { All (λ name. is_usable name ≡ true) (option_to_list (option_copied text)) }
    ensures { IfOk result (λ name. name ≡ option_copied text.entry) }
{
    match text {
        Some(text) => Ok(Some(name_of(alloc, text)?)),
        None => Ok(None),
    }
}

/// The value of a sort where none is said. It takes no memory.
pub fn zero_of(alloc: Global, sort: Sort) -> Value
    ensures { result ≡ zero_of sort }
{
    match sort {
        Sort::Bool => Value::Bool(false),
        Sort::Int => Value::Int(0),
        Sort::Text => Value::Text(Text::new(alloc)),
        Sort::Ints => Value::Ints(Items::new(alloc)),
        Sort::Texts => Value::Texts(Items::new(alloc)),
    }
}
