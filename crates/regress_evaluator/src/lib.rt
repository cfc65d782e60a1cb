//! An evaluator that runs the definitions: it goes down the tree with lists of states, as they say it.
//!
//! Its searches stand beside those of faster executors, as a second road to the same matches.
#![tactic(auto)]

mod assertions;
mod evaluator;
mod found;
mod search;
mod singles;
mod state;
mod steps;
mod tasks;
mod text;
mod utf8;

pub use search::{CompiledPattern, Search};
