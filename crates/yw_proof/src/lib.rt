//! The words `prove` of the program: what is found of a text that gives a net and weights for its places and tasks, and the line that says
//! it. A text is read to its end, judged so, and the line said by `judge_input` of `yw_judge`.
#![tactic(auto)]

mod finding;
mod laws;
mod line;
mod prove;
mod rule;
mod shape;
mod weights;

pub use finding::ProofFinding;
pub use laws::proved_is_bounded;
pub use rule::ProofRule;
