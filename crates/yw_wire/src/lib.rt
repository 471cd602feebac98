//! Lines of JSON in, reply lines out.
#![tactic(auto)]

mod answers;
mod conclusions;
mod fault;
mod fields;
mod kinds;
mod read;
mod reply;
mod rows;
mod sent;
mod shapes;
mod steps;
mod values;

pub use answers::{reply_names, reply_rows, reply_shown, reply_text};
pub use fault::WireFault;
pub use kinds::LINE_LIMIT;
pub use read::read_command;
pub use reply::{reply_done, reply_refused, value_line};
