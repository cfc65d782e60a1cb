//! Tables that tell of a linear program and a text from where runs have answers.
#![tactic(auto)]

mod answers;
mod ends;
mod filling;
mod rows;
mod ways;

pub use answers::{Answering, Answers};
pub use ways::station_at;
