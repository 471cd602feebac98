//! Tests of the server by its one call, over a desk and a source in memory. They stand in a crate of their own, since a crate with tests
//! is proved twice.
#![tactic(auto)]

#[cfg(test)]
mod tests;
