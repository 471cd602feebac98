//! The words `check` of the program: what is found of a text that may be a specification, and the line that says it. A text is read to its
//! end, judged so, and the line said by `judge_input` of `yw_judge`.
#![tactic(auto)]

mod check;
mod finding;
mod line;
mod text;

pub use finding::Finding;
pub use text::accepted;
