//! What every layer of the engine shares: flags, errors, limits, quantifiers, and the data of loops and groups.
#![tactic(auto)]

mod error;
mod flags;
mod limits;
mod quantifier;
mod script_flags;
mod state;

pub use error::Error;
pub use flags::{Flags, flags_are_read_back};
pub use limits::{
    CaptureGroupID, CaptureGroupName, IP, LoopID, MAX_CAPTURE_GROUPS, MAX_CHAR_SET_LENGTH,
    MAX_LOOPS, MAX_NESTING_DEPTH, limits_are_those_of_the_definitions,
};
pub use quantifier::Quantifier;
pub use script_flags::{FlagError, ScriptFlags};
pub use state::{GroupData, LoopData};
