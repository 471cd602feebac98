//! Laws of the map of all that stands, for the crates that keep cases in boxes: entries in any order as a map, one part of it
//! in place of another, and all under some identities gone. The lemmas stand in `proofs/`.
#![tactic(auto)]

pub mod laws;
