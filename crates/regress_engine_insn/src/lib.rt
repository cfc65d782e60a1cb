//! The instructions of programs, how a tree lies in one, and how many instructions it has.
#![tactic(auto)]

mod insn;
mod laws;

pub use insn::{Insn, LoopFields, MAX_BYTE_SEQ_LENGTH, bytes_of};
pub use laws::layouts_are_counted;
