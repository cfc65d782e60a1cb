//! Where the matches of a tree may begin, told by the bytes there.
#![tactic(auto)]

mod first_bytes;
mod joining;
mod prefix;
mod reach;
mod start;
mod words;

pub use first_bytes::{first_of_ascii, first_of_bracket, first_of_chars, first_of_intervals};
pub use regress_engine_scanning::{BytePair, Landmark, NibbleSet, WordStart};
pub use start::{StartPredicate, predicate_for_re, predicate_for_units};
