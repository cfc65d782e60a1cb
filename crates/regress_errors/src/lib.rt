//! What goes wrong with patterns: one error for all of it, where a text is no pattern, and how that is shown; texts as code points.
#![tactic(auto)]

mod errors;
mod pointing;
mod refusing;
mod text;

pub use errors::CompileError;
pub use pointing::SyntaxErrorDisplay;
pub use refusing::{SyntaxError, syntax_error, syntax_error_in_points, syntax_error_in_units};
pub use text::{code_points, text_of};
