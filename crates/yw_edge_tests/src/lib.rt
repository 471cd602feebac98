//! Tests of the server's outside by its public calls: sources, desks, journals and files, and what no clause says of them.
//! They stand in a crate of their own, since a crate with tests is proved twice.
#![tactic(auto)]

#[cfg(test)]
mod edge;
#[cfg(test)]
mod folders;
#[cfg(test)]
mod journal;
#[cfg(test)]
mod memory;
#[cfg(test)]
mod script;
#[cfg(test)]
mod steps;
