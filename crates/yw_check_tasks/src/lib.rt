//! The checks of what stands at a task: bounds of several items, branches of a split, and sizes.
#![tactic(auto)]

mod items;
mod sizes;
mod splits;

pub use items::items_fit;
pub use sizes::sizes_fit;
pub use splits::splits_fit;
