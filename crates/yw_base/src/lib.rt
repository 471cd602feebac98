//! Names, identities, texts, lists, values, and the words for gates and usages: what every other crate speaks of.
#![tactic(auto)]

mod gate;
mod ident;
mod list;
mod name;
mod text;
mod usage;
mod value;

pub use gate::Gate;
pub use ident::{Ident, IdentFault, NUMBER_END};
pub use list::{Bytes, Items, NameList};
pub use name::{MOST_NAME_BYTES, Name, NameFault};
pub use text::Text;
pub use usage::Usage;
pub use value::{IntList, MOST_ELEMENTS, MOST_TEXT_BYTES, Row, Sort, TextList, Val, Value};
