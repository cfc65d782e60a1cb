//! The programs of a pattern, and what searches with one find in an input: one, told by the program's trees, or one after another.
#![tactic(auto)]

mod ascii;
mod compiled;
mod laws;
mod matches;
mod searcher;
mod searching;
mod slots;
mod units;

pub use ascii::AsciiMatches;
pub use compiled::Compiled;
pub use laws::programs_of_trees_are_of_patterns;
pub use matches::Matches;
pub use regress_engine_exec::{
    BacktrackExecutor, LINEAR_STEPS, MOST_KEPT, MOST_REMEMBERED, MOST_TOLD, Scratch, SearchError,
};
pub use regress_engine_linear::{MOST_ADDRESSES, MOST_REPEATS};
pub use searcher::Searcher;
pub use searching::first_within;
pub use slots::{Anchored, find_into, find_into_within, next_into};
pub use units::{Ucs2Matches, Utf16Matches};
