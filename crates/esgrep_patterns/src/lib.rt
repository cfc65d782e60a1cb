//! Patterns as what `esgrep` searches lines for.
#![tactic(auto)]

mod parts;
mod patterns;
mod prefiltered;

pub use parts::parts_of;
pub use patterns::Patterns;
