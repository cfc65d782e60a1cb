//! What a pattern costs, told of its syntax tree before there is a tree of nodes, and the refusal of one that costs more than a
//! limit.
#![tactic(auto)]

mod costs;
mod limit;

pub use costs::is_within;
pub use limit::LimitError;
