//! Words that judge one text: it is read to its end and judged, and one line says what was found. What may be found of a text, and how a
//! line says it, is the caller's (`Judgement`).
#![tactic(auto)]

mod input;
mod judgement;
mod verdict;

pub use judgement::Judgement;
pub use verdict::{Verdict, judge_input};
