//! What a run that is tried is, with what is held and what is remembered of failures: each kind of step of it, and how many are
//! counted. The definitions stand in `specs/`, their lemmas in `proofs/`.
#![tactic(auto)]

mod exhausted;
mod exit;

pub use exhausted::exhaust;
pub use exit::Exit;
