//! Searches with a compiled pattern that may take so many steps, and no more.
#![tactic(auto)]

mod ascii;
mod bounded;
mod matches;
mod replacing;
mod slots;
mod splitting;
mod units;

pub use bounded::Bounded;
pub use matches::BoundedMatches;
pub use splitting::{BoundedSplit, BoundedSplitN};
