//! Sets of bytes, searches for them, and small helpers on UTF-8 and on ranges.
#![tactic(auto)]

mod bitmaps;
mod byte_search;
mod equal_range;
mod ranges;
mod utf8;

pub use bitmaps::{AsciiBitmap, ByteBitmap, ascii_bitmap_holds_ascii};
pub use byte_search::{
    ByteArraySet, ByteSearcher, ByteSet, EmptyString, SmallArraySet, charset_contains,
};
pub use equal_range::equal_range_by;
pub use ranges::{CodePointRange, FoldRange};
pub use regress_front_core::MAX_CHAR_SET_LENGTH;
pub use utf8::{
    are_code_points, is_utf8_continuation, to_char_sat, utf8_first_byte, utf8_w2, utf8_w3, utf8_w4,
};
