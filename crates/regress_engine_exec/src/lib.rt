//! The executor that undoes: it tries the paths through a program one after another, on one state and one stack of records.
#![tactic(auto)]

mod budget;
mod error;
mod executor;
mod finding;
mod producer;
mod scratch;
mod search;
mod stepping;
mod tables;
mod turning;

pub use budget::SearchBudget;
pub use error::SearchError;
pub use regress_engine_attempt::MOST_REMEMBERED;
pub use regress_engine_search::{ExecutorInput, Shown};
pub use scratch::Scratch;
pub use search::{BacktrackExecutor, Backtracker, BoundedExecutor};
pub use turning::{LINEAR_STEPS, MOST_KEPT, MOST_TOLD, linear_steps};
