// Specifications as the server keeps them.
use yw_base::{Items, Text};
use yw_spec::Spec;

/// A specification that is loaded.
#[derive(Debug, Drop)]
pub struct Loaded {
    /// The text that was accepted.
    pub text: Text,
    /// The specification that the text says.
    pub spec: Spec,
}

/// Specifications in the order in which they were loaded.
pub type LoadedList = Items<Loaded>;
