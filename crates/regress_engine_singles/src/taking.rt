//! What an instruction takes.
ghost use Rattle.std.specs.Prelude.{◌≡◌, ℕ, true, List, ◌∷◌, slice_get, IfSome};
ghost use Rattle.regress_engine_insn.specs.Instructions.{byte_seq, bytes_in};
ghost use Rattle.regress_engine_insn.specs.InsnViews.{instruction};
ghost use Rattle.regress_engine_analysis.specs.Planned.{is_class};
ghost use Rattle.regress_engine_singles.specs.Taking.{IsFirstAlone, is_assertion, is_taking, takes_one, takes_some};

use regress_engine_analysis::is_class;
use regress_engine_insn::{Insn, bytes_of};

/// The first of some bytes, where there is one.
#[inline]
fn first_of(bytes: &[u8]) -> Option<u8>
    ensures value { result ≡ slice_get bytes.now 0 }
    ensures some { IfSome result (λ b. (rest : List ℕ) × (bytes.now ≡ b ∷ rest)) }
{
    bytes.first().copied()
}

/// The first of the bytes that an instruction takes, where it takes bytes.
///
/// ```rust
/// let first = first_byte(&Insn::ByteSeq2(*b"ab")); // Some(b'a')
/// ```
#[inline]
pub fn first_byte(insn: &Insn) -> Option<u8>
    ensures value { result ≡ slice_get (bytes_in (instruction insn.now)) 0 }
    ensures some { IfSome result (λ b. (rest : List ℕ) × (instruction insn.now ≡ byte_seq (b ∷ rest))) }
{
    first_of(bytes_of(insn))
}

/// The character of ASCII, or byte, with which all begins that an instruction takes, where that is known: the first of its bytes, or
/// its one character.
///
/// ```rust
/// let first = first_alone(&Insn::Char(0x61)); // Some(b'a')
/// ```
#[inline]
pub fn first_alone(insn: &Insn) -> Option<u8>
    ensures { IfSome result (IsFirstAlone (instruction insn.now)) }
{
    match insn {
        Insn::Char(c) if *c < 0x80 => Some(*c as u8),
        _ => first_byte(insn),
    }
}

/// Whether an instruction asks what stands beside an offset, and takes nothing, as `^` does.
///
/// ```rust
/// let edge = is_assertion(&Insn::WordBoundary { invert: false }); // true
/// ```
#[inline]
pub fn is_assertion(insn: &Insn) -> bool
    ensures { result ≡ is_assertion (instruction insn.now) }
{
    matches!(
        insn,
        Insn::StartOfLine { .. }
            | Insn::EndOfLine { .. }
            | Insn::WordBoundary { .. }
            | Insn::WordBoundaryUnicodeICase { .. }
    )
}

/// Whether an instruction takes a character, one of some at the most, or bytes. One that takes any character is not told.
///
/// ```rust
/// let taking = takes_some(&Insn::Char(0x61)); // true
/// ```
#[inline]
pub fn takes_some(insn: &Insn) -> bool
    ensures value { result ≡ takes_some (instruction insn.now) }
    ensures taking { result ≡ true → is_taking (instruction insn.now) ≡ true }
{
    !bytes_of(insn).is_empty()
        || matches!(
            insn,
            Insn::Char(_)
                | Insn::CharSet(_)
                | Insn::ByteSet2(_)
                | Insn::ByteSet3(_)
                | Insn::ByteSet4(_)
                | Insn::AsciiBracket(_)
                | Insn::Bracket(_)
        )
}

/// Whether an instruction takes one character where that is in a set or in a class.
///
/// ```rust
/// let one = takes_one(&Insn::ByteSet2(ByteArraySet(*b"ab"))); // true
/// ```
#[inline]
pub fn takes_one(insn: &Insn) -> bool
    ensures { result ≡ takes_one (instruction insn.now) }
{
    is_class(insn)
        || matches!(
            insn,
            Insn::CharSet(_) | Insn::ByteSet2(_) | Insn::ByteSet3(_) | Insn::ByteSet4(_)
        )
}
