//! Tokens of one net: from which places a join may take them, how many there are after one is taken or put, and which places a
//! split chooses. The joins and splits are those of van der Aalst and ter Hofstede's paper. No call but `split_places` takes memory.
#![tactic(auto)]

mod join;
mod split;
mod token;

pub use join::{Taken, is_any_marked, join_choice, take};
pub use split::split_places;
pub use token::{MOST_TOKENS, TokenLimit, count_on, is_among, is_marked, put};
