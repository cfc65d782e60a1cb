//! From the text of a class, in brackets, to its value.
#![tactic(auto)]

mod class;
mod class_ranges;

pub use class::bracketed_class;
