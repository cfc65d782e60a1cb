//! Searches of a linear program in a text along what the table of the text tells.
#![tactic(auto)]

mod places;
mod searching;
mod walker;
mod walking;

pub use places::next_place;
pub use searching::TextTable;
