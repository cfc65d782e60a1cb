//! Positions in an input.
ghost use Rattle.std.specs.Prelude.{◌≡◌, ◌==◌, ℕ};

use std::fmt::Debug;
use std::ops::{Add, AddAssign, Sub, SubAssign};

/// A position in an input, which stands for an offset in its bytes or units.
pub trait PositionType: Debug
    + Copy
    + Ord
    + Add<usize, Output = Self>
    + Sub<usize, Output = Self>
    + Sub<Self, Output = usize>
    + AddAssign<usize>
    + SubAssign<usize> {
    // the offset that it stands for
    ghost offset: { Self → ℕ };

    /// The position at an offset: `new(3)` is the position at offset 3.
    fn new(units: usize) -> Self
        ensures { offset result ≡ units };

    // positions are equal where their offsets are
    ghost eq_by_offset: { (p q : Self) → Self.eq p q ≡ (offset p == offset q) };
}
