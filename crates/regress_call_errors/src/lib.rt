//! Why a call of the library for C is refused: the errors of the header, with their numbers and their texts.
#![tactic(auto)]

mod call_error;

pub use call_error::{CallError, text_of_code};
