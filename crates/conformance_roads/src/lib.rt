//! Rows of patterns and texts, tried by every road to their answers.
#![tactic(auto)]

mod calls;
mod report;
mod running;
mod told;
mod trying;
mod works;

pub use regress::Tables;
pub use report::Report;
pub use running::run;
pub use trying::try_rows;
