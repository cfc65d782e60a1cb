//! Patterns that are given in 16-bit units, as script interpreters have them.
#![tactic(auto)]

mod units;

pub use units::pattern_points;
