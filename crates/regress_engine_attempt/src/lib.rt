//! One run of a program from one offset of a text: it tries the paths through the program one after another, on one state and one
//! stack of records, and remembers what fails.
#![tactic(auto)]

mod attempt;
mod back;
mod counts;
mod exits;
mod remembered;
mod run;
mod singles;
mod step;
mod turns;
mod ways;

pub use attempt::Attempt;
pub use remembered::{MOST_REMEMBERED, Remembered};
