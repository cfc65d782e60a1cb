//! A unit of a text, a byte or 16 bits.
ghost use Rattle.std.specs.Prelude.{◌≡◌, ◌+◌, ◌<◌, ◌≤◌, ℕ, Bool, ⊤, Some, length, map, slice_get, IfSome};
ghost use Rattle.std.specs.Simd.Lanes.{chunk};
ghost use Rattle.regress_engine_scanning.specs.Least.{IsLeast};
ghost use Rattle.regress_engine_scanning.specs.Units.{AreAscii};

use crate::units::find_member;
use memchr::memchr;
use std::simd::prelude::*;

/// A unit of a text, a byte or 16 bits. Each byte is the unit of the same number.
pub(crate) trait Unit: Copy {
    // the number of a unit
    ghost number: { Self → ℕ };

    // what a set of bytes must meet, so that units can be looked up in it
    ghost Fits: { (ℕ → Bool) → Type 0 };

    /// Where a byte first stands from an index on.
    fn next(byte: u8, units: &[Self], from: usize) -> Option<usize>
        requires { from ≤ length units.now }
        ensures least { IsLeast (λ k. slice_get (map number units.now) k ≡ Some byte) from result }
        ensures inside { IfSome result (λ k. k < length units.now) };

    /// The byte that is in the same sets: that of the same number, and of a unit that is none 0xFF.
    fn narrowed(self) -> u8
        ensures { (set : ℕ → Bool) → Fits set → set result ≡ set (number self) };

    /// The bytes that are in the same sets as sixteen units from an index on.
    fn narrowed_from(units: &[Self], from: usize) -> u8x16
        requires { from + 16 ≤ length units.now }
        ensures { (set : ℕ → Bool) → Fits set → map set result ≡ map set (chunk from 16 (map number units.now)) };
}

impl Unit for u8 {
    ghost number = { λ unit. unit };

    ghost Fits = { λ _. ⊤ };

    fn next(byte: u8, units: &[u8], from: usize) -> Option<usize> {
        let index = memchr(byte, &units[from..])?;
        Some(from + index)
    }

    #[inline(always)]
    fn narrowed(self) -> u8 {
        self
    }

    #[inline(always)]
    fn narrowed_from(units: &[u8], from: usize) -> u8x16 {
        u8x16::from_slice(&units[from..])
    }
}

impl Unit for u16 {
    ghost number = { λ unit. unit };

    ghost Fits = { AreAscii };

    #[inline(always)]
    fn next(byte: u8, units: &[u16], from: usize) -> Option<usize> {
        find_member(&[byte], units, from)
    }

    #[inline(always)]
    fn narrowed(self) -> u8 {
        self.min(0xFF) as u8
    }

    #[inline(always)]
    fn narrowed_from(units: &[u16], from: usize) -> u8x16 {
        u16x16::from_slice(&units[from..])
            .simd_min(u16x16::splat(0xFF))
            .cast::<u8>()
    }
}
