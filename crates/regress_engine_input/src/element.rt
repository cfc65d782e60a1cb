//! The characters that inputs read, and the units that hold them.
ghost use Rattle.std.specs.Prelude.{Bool, true, false, ◌≡◌, ◌==◌, ◌<◌, ◌^◌, ◌↔◌, ℕ, IfSome, IsSome};
ghost use Rattle.std.specs.Char.{IsScalar};
ghost use Rattle.std.proofs.Common.{rules};

use std::fmt::Debug;

/// A character as an input reads it: a `char` of UTF-8, a byte of ASCII, a number over units.
pub trait ElementType: Debug + Copy + Ord + Into<u32> + TryFrom<u32> {
    // the number of the character
    ghost code: { Self → ℕ };

    // the numbers that fit
    ghost Fits: { ℕ → Type 0 };

    /// The character with a number, or `None` where there is none of this type: `<u8 as ElementType>::try_from(0x100)` is
    /// `None`.
    fn try_from(number: u32) -> Option<Self>
        ensures same { IfSome result (λ e. code e ≡ number) }
        ensures fits { IsSome result ↔ Fits number };

    /// The number of the character: `'a'.as_u32()` is `0x61`.
    fn as_u32(self) -> u32
        ensures { result ≡ code self };

    // characters are equal where their numbers are
    ghost eq_by_code: { (a b : Self) → Self.eq a b ≡ (code a == code b) };
}

/// What holds a text: a byte or a 16-bit unit.
pub trait CodeUnit: Copy {
    // it is a byte
    ghost IS_BYTE: { Bool };

    /// Whether it is a byte.
    const IS_BYTE: bool;
}

impl CodeUnit for u8 {
    ghost IS_BYTE = { true };

    const IS_BYTE: bool = true;
}

impl CodeUnit for u16 {
    ghost IS_BYTE = { false };

    const IS_BYTE: bool = false;
}

impl ElementType for char {
    ghost code = { λ c. c };

    ghost Fits = { IsScalar };

    #[inline]
    fn try_from(number: u32) -> Option<char> {
        char::from_u32(number)
    }

    #[inline]
    fn as_u32(self) -> u32 {
        u32::from(self)
    }

    ghost eq_by_code = { Prim.search rules };
}

impl ElementType for u8 {
    ghost code = { λ c. c };

    ghost Fits = { λ c. c < 2 ^ 8 };

    #[inline]
    fn try_from(number: u32) -> Option<u8> {
        <u8 as TryFrom<u32>>::try_from(number).ok()
    }

    #[inline]
    fn as_u32(self) -> u32 {
        u32::from(self)
    }

    ghost eq_by_code = { Prim.search rules };
}

impl ElementType for u32 {
    ghost code = { λ c. c };

    ghost Fits = { λ c. c < 2 ^ 32 };

    #[inline]
    fn try_from(number: u32) -> Option<u32> {
        Some(number)
    }

    #[inline]
    fn as_u32(self) -> u32 {
        self
    }

    ghost eq_by_code = { Prim.search rules };
}
