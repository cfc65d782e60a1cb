//! From a pattern's text to its syntax tree: the parser.
#![tactic(auto)]

mod apart;
mod group;
mod parser;
mod whole;

pub use regress_front_tokens::{Class, Modifiers, Quantifier, Syntax, Term};
pub use whole::{Refused, parse, parse_telling_place};
