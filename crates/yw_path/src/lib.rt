//! Paths of one net, kept so that it is quickly said whether a token may still come to a place. The net is that of van der Aalst and ter
//! Hofstede's paper; that an OR-join waits by paths is our own.
#![tactic(auto)]

mod bits;
mod closure;
mod direct;
pub mod law;
mod places;
mod upstream;
mod within;

pub use upstream::Upstream;
pub use within::has_its_places;
