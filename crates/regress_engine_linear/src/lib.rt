//! Programs of which a table, a bit for each address at each offset of a text, tells whether runs have an answer.
#![tactic(auto)]

mod contents;
mod laws;
mod levels;
mod making;
mod ranks;
mod testing;
mod visits;

pub use laws::{
    answers_are_told_by_those_ahead, running_failures_forget, running_states_lead_on,
    running_states_run_alike, runs_go_beyond,
};
pub use levels::Level;
pub use ranks::RankTable;
pub use testing::{LinearTable, MOST_ADDRESSES, MOST_REPEATS};
