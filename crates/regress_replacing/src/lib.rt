//! What a replacement text stands for at a match, in this library's language or as a template of the standard, what a text is
//! with other texts in the place of its matches, and patterns that stand for a text as it is written.
#![tactic(auto)]

mod digits;
mod escaping;
mod names;
mod reading;
mod replacement;
mod syntax;
mod template;

pub use escaping::escape;
pub use reading::{AnyReplacement, expand};
pub use replacement::Replacement;
pub use syntax::ReplacementSyntax;
pub use template::Template;
