//! The engine by one name: texts as inputs, programs and what makes them, searches, and both executors. Who wants all of it names
//! this crate and `regress_front` alone.
//!
//! ```rust
//! use regress_engine::{BacktrackExecutor, emit};
//! use regress_front::{Error, ir};
//!
//! fn first(alloc: Global, tree: &ir::Regex<'_>, text: &str) -> Result<Option<Match>, Error> {
//!     let program = emit(alloc, tree)?;
//!     let mut executor = BacktrackExecutor::new(alloc, &program, text);
//!     Ok(executor.find_from(0)?)
//! }
//! ```
#![tactic(auto)]

pub use regress_engine_analysis::{Known, Turn};
pub use regress_engine_code::{CompiledRegex, emit, emit_units};
pub use regress_engine_copying::PikeVMExecutor;
pub use regress_engine_exec::{
    BacktrackExecutor, Backtracker, BoundedExecutor, Scratch, SearchBudget, SearchError,
};
pub use regress_engine_input::{
    Backward, CodeUnit, Direction, ElementType, Forward, InputIndexer, PositionType,
    ascii_tests_see_bytes, cursor, inputs_go_back, inputs_tell_bytes, inputs_tell_texts,
    references_go_by_code_points, references_go_by_units, texts_end_with_units,
};
pub use regress_engine_inputs::{
    AsciiInput, DefPosition, IndexPosition, Ucs2Input, Utf8Input, Utf16Input, is_unit_start,
    is_well_formed_utf16,
};
pub use regress_engine_insn::{
    Insn, LoopFields, MAX_BYTE_SEQ_LENGTH, bytes_of, layouts_are_counted,
};
pub use regress_engine_matchers::{
    ASCIICharProperties, CharInput, CharProperties, UTF8CharProperties, Utf16CharProperties,
    matchers, reads_stay_in_texts,
};
pub use regress_engine_prefix::{
    BytePair, Landmark, NibbleSet, StartPredicate, WordStart, predicate_for_re,
};
pub use regress_engine_runs::{
    counts_are_bounded, inputs_move_on, layouts_are_closed, layouts_have_progress,
    layouts_list_matches, layouts_read_at_places, layouts_run_as_trees, runs_are_determined,
    searches_find_matches, searches_may_skip,
};
pub use regress_engine_search::{
    AnyText, AsciiText, Executor, ExecutorInput, Prefilter, SearchContext, Shown, StepsLeft,
    TextKind, Unbounded, executors_agree, executors_list_matches, executors_match_as_trees,
    fill_slots, start_predicates_may_skip,
};
