//! When a case is quiet. Each identity that stands in a case is looked at by itself (`IsStill`): by what stands there and directly below it, by
//! whether its case is held or urgent, and by the number that is drawn next. Where each is still, nothing comes of itself; where one isn't, something does.
//! So what comes of itself is found among finitely many identities and tasks. Each law is the contract of a function that does nothing.
#![tactic(auto)]

mod comes;
mod joins;
mod stays;

pub use comes::{
    case_end_comes, check_comes, compensation_end_comes, entry_comes, exit_comes, item_comes,
    primitive_comes, urgent_moves,
};
pub use joins::tokens_are_taken;
pub use stays::{still_elsewhere, still_is_quiet, still_stays};
