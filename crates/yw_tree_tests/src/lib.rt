//! Tests of yw_tree by its public calls: what no clause says. They stand in a crate of their own, since a crate with tests is proved
//! twice.
#![tactic(auto)]

#[cfg(test)]
mod changes;
#[cfg(test)]
mod grown;
