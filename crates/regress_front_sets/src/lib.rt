//! Sets of code points. What `regress_front_core` and `regress_front_bytes` have is handed on.
#![tactic(auto)]

mod ascii;
mod character_classes;
mod code_point_set;
mod first_bytes;
mod halving;
mod interval;

pub use character_classes::{
    CharacterClassType, DIGITS, LINE_TERMINATOR, WHITESPACE, WORD_CHARS, digits, is_ascii_word,
    line_terminator, whitespace, word_chars,
};
pub use code_point_set::{CodePointSet, equal_members_equal_intervals, inverted_twice_is_the_same};
pub use first_bytes::{add_row, add_utf8_first_bytes_to_bitmap};
pub use halving::{CountedIntervals, Probes, bracket_index};
pub use interval::{CODE_POINT_MAX, CodePoint, Interval};
pub use regress_front_bytes::{
    AsciiBitmap, ByteArraySet, ByteBitmap, ByteSearcher, ByteSet, CodePointRange, EmptyString,
    FoldRange, MAX_CHAR_SET_LENGTH, SmallArraySet, are_code_points, charset_contains,
    equal_range_by, is_utf8_continuation, to_char_sat, utf8_first_byte, utf8_w2, utf8_w3, utf8_w4,
};
pub use regress_front_core::{
    CaptureGroupID, CaptureGroupName, Error, Flags, GroupData, IP, LoopData, LoopID,
    MAX_CAPTURE_GROUPS, MAX_LOOPS, MAX_NESTING_DEPTH, Quantifier, flags_are_read_back,
    limits_are_those_of_the_definitions,
};
