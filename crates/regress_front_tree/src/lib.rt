//! From a pattern's text to the tree that the engine rewrites and emits.
#![tactic(auto)]

mod alike;
mod arms;
mod brackets;
mod cheap;
mod lawful;
mod lowering;
mod parse;
mod wholes;

pub use parse::{try_parse, try_parse_whole_text, try_parse_whole_text_within, try_parse_within};
