//! Regular expressions of ECMAScript (ECMA-262, 16th edition, 2025), in the names of the Rust crate `regress`.
//!
//! What a pattern matches is said by the definitions of `regress_meaning`, and each contract here cites those.
#![tactic(auto)]

mod api;
mod ascii;
mod asking;
pub mod backends;
mod laws;
mod limited;
mod programs;
mod replacing;
mod slots;
mod splitting;
mod sticky;
mod units;
mod whole;
mod within;

pub use api::{Regex, is_start};
pub use ascii::is_ascii_text;
pub use laws::{
    escaped_texts_are_replaced_where_they_occur, no_opt_changes_no_match,
    parts_stand_between_the_matches, whole_matches_give_the_text_back,
};
pub use limited::DEFAULT_LIMIT;
pub use regress_bounded::{Bounded, BoundedMatches, BoundedSplit, BoundedSplitN};
pub use regress_engine_code::CompiledRegex;
pub use regress_engine_inputs::{is_unit_start, is_well_formed_utf16};
pub use regress_errors::{
    CompileError, SyntaxError, SyntaxErrorDisplay, syntax_error, syntax_error_in_points,
    syntax_error_in_units,
};
pub use regress_front::{
    CaptureGroupName, CodePoint, Error, FlagError, Flags, Interval, ScriptFlags, TableError,
    TableLaw, TableParts, Tables, are_code_points, flags_are_read_back,
};
pub use regress_match::{Groups, Match, NamedGroups, Range};
pub use regress_programs::{
    AsciiMatches, Compiled, LINEAR_STEPS, MOST_ADDRESSES, MOST_KEPT, MOST_REMEMBERED, MOST_REPEATS,
    MOST_TOLD, Matches, Scratch, SearchError, Searcher, Ucs2Matches, Utf16Matches,
    programs_of_trees_are_of_patterns,
};
pub use regress_replacing::{ReplacementSyntax, escape, expand};
pub use splitting::{Split, SplitN};
