//! What a program does, and that it does what its tree means. The definitions stand in `specs/`. Nothing here runs: each
//! function is a law of theirs, stated by its contract.
#![tactic(auto)]

mod laws;

pub use laws::{
    counts_are_bounded, inputs_move_on, layouts_are_closed, layouts_have_progress,
    layouts_list_matches, layouts_read_at_places, layouts_run_as_trees, runs_are_determined,
    searches_find_matches, searches_may_skip, spreads_bound_counts,
};
