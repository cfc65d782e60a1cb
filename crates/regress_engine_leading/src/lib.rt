//! What is known of a place without a run, by what a program begins with.
#![tactic(auto)]

mod failing;
mod leading;
mod repeated;
mod ways;

pub use leading::{Beginning, known_at};
