//! What is known of a program without running it, worked out once for each address.
#![tactic(auto)]

mod apart;
mod facts;
mod first_bytes;
mod plan;
mod sets;
mod shared;
mod shortcuts;
mod submatches;
mod ways;

pub use facts::{Facts, Known, Turn};
pub use plan::Plan;
pub use shortcuts::is_class;
