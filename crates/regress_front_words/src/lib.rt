//! Words that share what they begin with: a choice between literals as a tree of them.
#![tactic(auto)]

mod grouping;
mod sharing;

pub use sharing::shared_words;
