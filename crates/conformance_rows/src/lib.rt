//! Rows of patterns, texts and what is expected of them, read from lines.
#![tactic(auto)]

mod fault;
mod list;
mod points;
mod row;

pub use fault::RowError;
pub use list::{Item, Span, push_span, tail, told, told_in_units, units_before};
pub use points::{points_of, text_of, units_of};
pub use row::{Expected, Pattern, Replacing, Row, Work, read_row};
