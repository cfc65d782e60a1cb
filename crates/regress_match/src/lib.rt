//! Matches: what a search answers, and how matches come one after another from whatever finds them.
#![tactic(auto)]

mod found;
mod groups;
mod matches;
mod named;

pub use found::{Match, Range};
pub use groups::Groups;
pub use matches::{MatchProducer, Matches};
pub use named::NamedGroups;
