//! Tests of what no line of the program reaches: an engine that is made of parts, what it tells of itself, that cases know of their rest, and a completion by
//! one call. They stand in a crate of their own, since a crate with tests is proved twice.
#![tactic(auto)]

#[cfg(test)]
mod completions;
#[cfg(test)]
mod engines;
#[cfg(test)]
mod events;
#[cfg(test)]
mod rest;
