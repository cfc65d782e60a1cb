//! Tables of case and properties, and folding. What `regress_front_sets` has is handed on.
#![tactic(auto)]

mod folding;
mod tables;

pub use folding::{
    add_icase_code_points, closure, expand_code_point, fold, fold_is_idempotent, try_closure,
    try_expand_code_point, unfold_char,
};
pub use regress_front_sets::{
    AsciiBitmap, ByteArraySet, ByteBitmap, ByteSearcher, ByteSet, CODE_POINT_MAX, CaptureGroupID,
    CaptureGroupName, CharacterClassType, CodePoint, CodePointRange, CodePointSet,
    CountedIntervals, DIGITS, EmptyString, Error, Flags, FoldRange, GroupData, IP, Interval,
    LINE_TERMINATOR, LoopData, LoopID, MAX_CAPTURE_GROUPS, MAX_CHAR_SET_LENGTH, MAX_LOOPS,
    MAX_NESTING_DEPTH, Probes, Quantifier, SmallArraySet, WHITESPACE, WORD_CHARS,
    add_utf8_first_bytes_to_bitmap, are_code_points, bracket_index, charset_contains, digits,
    equal_members_equal_intervals, equal_range_by, flags_are_read_back, inverted_twice_is_the_same,
    is_ascii_word, is_utf8_continuation, limits_are_those_of_the_definitions, line_terminator,
    to_char_sat, utf8_first_byte, utf8_w2, utf8_w3, utf8_w4, whitespace, word_chars,
};
pub use tables::Tables;
pub use tables::law::{TableError, TableLaw, lawful_parts_break_no_law};
pub use tables::parts::TableParts;
