//! What the laws of states suppose of specifications, whatever is kept (`IsSound`), and what expressions of such ones give. That accepted
//! specifications are sound stands in `yw_accepted`. Definitions and lemmas alone.
#![tactic(auto)]
