//! Tests of what is known of loaded specifications and of the verdict on a text, by their public calls: what no clause says, and no line of the
//! program shows. They stand in a crate of their own, since a crate with tests is proved twice.
#![tactic(auto)]

#[cfg(test)]
mod library;
#[cfg(test)]
mod verdict;
