//! The sets of code points and strings that classes stand for.
#![tactic(auto)]

mod value;

pub use value::{ClassValue, class_value};
