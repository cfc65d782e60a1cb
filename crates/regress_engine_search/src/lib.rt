//! What a search is of, where it looks, and what it may skip: what executors share beside their
//! steps. The definitions stand in `specs/`, and their laws are functions whose contract is the law.
#![tactic(auto)]

mod budget;
mod captured;
mod context;
mod executor;
mod laws;
mod prefilter;
mod shown;
mod submatch;

pub use budget::{Budget, Ended, StepsLeft, Unbounded};
pub use captured::fill_slots;
pub use context::SearchContext;
pub use executor::{AnyText, AsciiText, Executor, TextKind};
pub use laws::{
    executors_agree, executors_list_matches, executors_match_as_trees, start_predicates_may_skip,
};
pub use prefilter::Prefilter;
pub use shown::{ExecutorInput, Shown};
pub use submatch::Submatch;
