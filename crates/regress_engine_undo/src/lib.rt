//! What the executor that undoes holds, and the steps that change it: loops, groups, and one stack of records.
#![tactic(auto)]

mod leave;
mod memory;
mod steps;
mod undo;

pub use memory::Memory;
pub use steps::{begun, ended};
pub use undo::{Frame, Spot, Undo, is_ahead};
