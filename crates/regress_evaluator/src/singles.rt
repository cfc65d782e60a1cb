//! What matches exactly one character.
ghost use Rattle.std.specs.Prelude.{◌≡◌};
ghost use Rattle.regress_meaning.specs.Meaning.{is_line_end};
ghost use Rattle.regress_evaluator.specs.Singles.{passes};

use regress_front_nodes::BracketContents;
use regress_front_tables::CodePoint;

/// A test on one character.
#[derive(Drop)]
pub(crate) enum Single<'n> {
    /// It is this one.
    Char(CodePoint),
    /// It is one of these ASCII characters.
    ByteSet(&'n [u8]),
    /// It is one of these.
    CharSet(&'n [CodePoint]),
    /// It may be any.
    Any,
    /// It is no line terminator.
    AnyInLine,
    /// It is in a class.
    Bracket(&'n BracketContents),
}

/// Whether the code point is a line terminator ("LineTerminator").
pub(crate) fn is_line_end(c: CodePoint) -> bool
    ensures { result ≡ is_line_end c }
{
    matches!(c, 0xA | 0xD | 0x2028 | 0x2029)
}

impl Single<'_> {
    /// Whether the code point passes.
    pub(crate) fn matches(&self, c: CodePoint) -> bool
        ensures { result ≡ passes self.now c }
    {
        match self {
            Single::Char(wanted) => *wanted == c,
            Single::ByteSet(bytes) => bytes.iter().any(|b| u32::from(*b) == c),
            Single::CharSet(points) => points.iter().any(|d| *d == c),
            Single::Any => true,
            Single::AnyInLine => !is_line_end(c),
            Single::Bracket(contents) => contents.cps.contains(c) != contents.invert,
        }
    }
}
