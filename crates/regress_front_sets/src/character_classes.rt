//! The code points that class escapes hold.
ghost use Rattle.std.specs.Prelude.{◌≡◌, ℕ};
ghost use Rattle.regress_meaning.specs.TableParts.{IntervalsRise, in_intervals};
ghost use Rattle.regress_meaning.specs.Class.{is_ascii_word, is_digit, is_space};
ghost use Rattle.regress_meaning.specs.Meaning.{is_line_end};
ghost use Rattle.regress_front_sets.specs.Intervals.{ends_of};

use crate::interval::{CodePoint, Interval};

/// What a class escape holds, or what it does not hold where its letter is a capital ("CharacterClassEscape").
#[derive(Debug, Clone, Copy)]
pub enum CharacterClassType {
    /// `\d`.
    Digits,
    /// `\s`.
    Spaces,
    /// `\w`.
    Words,
}

/// What `\w` holds where case is not ignored: ASCII letters, digits and `_` ("WordCharacters").
pub const WORD_CHARS: [Interval; 4] = [
    Interval {
        first: 0x30,
        last: 0x39,
    },
    Interval {
        first: 0x41,
        last: 0x5A,
    },
    Interval {
        first: 0x5F,
        last: 0x5F,
    },
    Interval {
        first: 0x61,
        last: 0x7A,
    },
];

/// A bit for each code point of ASCII that is one of a word, in rows of 64.
const WORD_ROWS: [u64; 2] = [0x03FF_0000_0000_0000, 0x07FF_FFFE_87FF_FFFE];

/// What `\d` holds: ASCII digits.
pub const DIGITS: [Interval; 1] = [Interval {
    first: 0x30,
    last: 0x39,
}];

/// What `\s` holds: white space and line terminators ("WhiteSpace", "LineTerminator").
pub const WHITESPACE: [Interval; 10] = [
    Interval {
        first: 0x9,
        last: 0xD,
    },
    Interval {
        first: 0x20,
        last: 0x20,
    },
    Interval {
        first: 0xA0,
        last: 0xA0,
    },
    Interval {
        first: 0x1680,
        last: 0x1680,
    },
    Interval {
        first: 0x2000,
        last: 0x200A,
    },
    Interval {
        first: 0x2028,
        last: 0x2029,
    },
    Interval {
        first: 0x202F,
        last: 0x202F,
    },
    Interval {
        first: 0x205F,
        last: 0x205F,
    },
    Interval {
        first: 0x3000,
        last: 0x3000,
    },
    Interval {
        first: 0xFEFF,
        last: 0xFEFF,
    },
];

/// The line terminators ("LineTerminator").
pub const LINE_TERMINATOR: [Interval; 3] = [
    Interval {
        first: 0xA,
        last: 0xA,
    },
    Interval {
        first: 0xD,
        last: 0xD,
    },
    Interval {
        first: 0x2028,
        last: 0x2029,
    },
];

/// `WORD_CHARS`, with a contract that tells its members, since a clause cannot name a constant of intervals:
/// `word_chars()[2]` holds `_` alone.
pub const fn word_chars() -> [Interval; 4]
    ensures members { (c : ℕ) → in_intervals (ends_of result) c ≡ is_ascii_word c }
    ensures rise { IntervalsRise (ends_of result) }
{
    WORD_CHARS
}

/// `DIGITS`, with a contract that tells its members: `digits()[0].contains(0x39)` is true.
pub const fn digits() -> [Interval; 1]
    ensures members { (c : ℕ) → in_intervals (ends_of result) c ≡ is_digit c }
    ensures rise { IntervalsRise (ends_of result) }
{
    DIGITS
}

/// `WHITESPACE`, with a contract that tells its members: `whitespace()[1]` holds the space alone.
pub const fn whitespace() -> [Interval; 10]
    ensures members { (c : ℕ) → in_intervals (ends_of result) c ≡ is_space c }
    ensures rise { IntervalsRise (ends_of result) }
{
    WHITESPACE
}

/// `LINE_TERMINATOR`, with a contract that tells its members: `line_terminator()[0]` holds the line feed alone.
pub const fn line_terminator() -> [Interval; 3]
    ensures members { (c : ℕ) → in_intervals (ends_of result) c ≡ is_line_end c }
    ensures rise { IntervalsRise (ends_of result) }
{
    LINE_TERMINATOR
}

/// Whether the code point is an ASCII letter, a digit or `_`: what `\w` holds where case is not ignored ("WordCharacters").
/// `is_ascii_word(0x5F)` is true, `is_ascii_word(0x17F)` is not.
pub fn is_ascii_word(point: CodePoint) -> bool
    ensures { result ≡ is_ascii_word point }
{
    point < 128 && WORD_ROWS[(point / 64) as usize] >> (point % 64) & 1 == 1
}
