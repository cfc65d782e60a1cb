//! Texts made of the matches in a text, whatever gives these: with others in their place, and the parts between them.
#![tactic(auto)]

mod matches;
mod replacing;
mod splitting;

pub use matches::TextMatches;
pub use replacing::{replace_all_with, replace_each, replace_first, replace_with};
pub use splitting::{Split, SplitN};
