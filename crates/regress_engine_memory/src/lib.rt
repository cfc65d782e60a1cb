//! What an executor may remember of failures: where a run from an address and an offset has no answer, none has there, whatever
//! groups and loops are held. The definitions stand in `specs/`, and their laws are functions whose contract is the law.
#![tactic(auto)]

mod bits;
mod classes;
mod failures;
mod flow;
mod laws;
mod making;
mod needs;

pub use bits::Bits;
pub use failures::{Failures, Plane};
pub use flow::{Bounds, FlowTable};
pub use laws::{
    agreeing_states_run_alike, exits_are_learned, failures_are_kept, failures_are_learned,
    failures_forget, known_failures_are_dropped, short_states_are_dropped,
    states_under_failures_fail, tables_are_tested, tried_states_are_recorded,
};
pub use needs::taken_by;
