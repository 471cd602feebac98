//! Proper completion by a certificate: weights for the places and tasks of a net, by which nothing that happens makes the net heavier.
//! `prove` tries a certificate in one pass, without memory. What its yes means for every state that is ever reached, whatever removal
//! sets, worklets and exlets do, is a clause of `prove`, and by itself the law `accepted_is_bounded`, the contract of a function that does
//! nothing.
#![tactic(auto)]

mod certificate;
mod laws;

pub use certificate::{MOST_WEIGHT, ProofFault, WeightList, are_weights_of, prove};
pub use laws::{accepted_is_bounded, certified_is_bounded};
