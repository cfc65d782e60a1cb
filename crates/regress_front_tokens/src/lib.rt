//! What stands at the front of a pattern's text: numbers, names, escapes and groups, and the syntax tree's values.
#![tactic(auto)]

mod cursor;
mod escape;
mod groups;
mod mode;
mod names;
mod numbers;
mod scan;
mod syntax;

pub use cursor::{Cursor, is_one_of};
pub use escape::{Escape, INVALID_ESCAPE};
pub use mode::Mode;
pub use regress_front_tables::Quantifier;
pub use scan::mode_of;
pub use syntax::{Class, Modifiers, Syntax, Term};
