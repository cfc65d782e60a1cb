//! The copying executor: it tries the paths through a program one after another, on a stack of whole states.
#![tactic(auto)]

mod attempt;
mod executor;
mod leave;
mod plain;
mod producer;
mod repeat;
mod search;
mod stack;
mod state;
mod step;

pub use regress_engine_search::{ExecutorInput, Shown};
pub use search::PikeVMExecutor;
