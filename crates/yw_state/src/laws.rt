//! Laws of the definitions. Each is the contract of a function that does nothing: it holds of all states and events.

pub mod apart;
pub mod gone;
pub mod reads;
pub mod well;
