//! Programs as they are handed out, and how a tree becomes one.
#![tactic(auto)]

mod brackets;
mod code;
mod compiled;
mod emission;
mod emitter;
mod leaves;
mod strings;

pub use compiled::CompiledRegex;
pub use emission::{emit, emit_units};
pub use regress_engine_prefix::{BytePair, Landmark, NibbleSet, StartPredicate, WordStart};
