//! Positions that are offsets.
ghost use Rattle.std.specs.Prelude.{◌≡◌, ◌+◌, ◌-◌, ◌^◌, ◌<◌, ◌≤◌};
ghost use Rattle.regress_meaning.specs.Steps.{only_if};
ghost use Rattle.std.proofs.Common.{rules};

use regress_engine_input::PositionType;
use std::ops::{Add, AddAssign, Sub, SubAssign};

/// A position that holds its offset.
#[derive(Debug, Clone, Copy, PartialEq, Eq, PartialOrd, Ord)]
pub struct IndexPosition {
    offset: usize,
}

/// The position that inputs have.
pub type DefPosition = IndexPosition;

impl IndexPosition {
    /// Does nothing: no size is asked of a position that is a number.
    pub fn check_size() {}

    /// The offset that the position stands for.
    #[inline]
    pub(crate) fn offset(self) -> usize
        ensures { result ≡ self.offset }
    {
        self.offset
    }

    /// Moves the position to an offset, if there is one, and answers whether there is.
    #[inline]
    pub(crate) fn move_to(&mut self, found: Option<usize>) -> bool
        ensures { only_if result self.new.offset ≡ found }
    {
        match found {
            Some(offset) => {
                self.offset = offset;
                true
            }
            None => false,
        }
    }
}

impl PositionType for IndexPosition {
    ghost offset = { λ p. p.offset };

    #[inline]
    fn new(units: usize) -> Self {
        IndexPosition { offset: units }
    }

    ghost eq_by_offset = { Prim.search rules };
}

impl Add<usize> for IndexPosition {
    type Output = IndexPosition;

    ghost can_add = { λ p n. p.offset + n < 2 ^ 64 };

    ghost add_gives = { λ p n q. q.offset ≡ p.offset + n };

    /// The position `rhs` bytes or units to the right.
    #[inline]
    fn add(self, rhs: usize) -> IndexPosition {
        IndexPosition {
            offset: self.offset + rhs,
        }
    }
}

impl Sub<usize> for IndexPosition {
    type Output = IndexPosition;

    ghost can_sub = { λ p n. n ≤ p.offset };

    ghost sub_gives = { λ p n q. q.offset ≡ p.offset - n };

    /// The position `rhs` bytes or units to the left.
    #[inline]
    fn sub(self, rhs: usize) -> IndexPosition {
        IndexPosition {
            offset: self.offset - rhs,
        }
    }
}

impl Sub<IndexPosition> for IndexPosition {
    type Output = usize;

    ghost can_sub = { λ p q. q.offset ≤ p.offset };

    ghost sub_gives = { λ p q n. n ≡ p.offset - q.offset };

    /// How many bytes or units lie between the two positions.
    #[inline]
    fn sub(self, rhs: IndexPosition) -> usize {
        self.offset - rhs.offset
    }
}

impl AddAssign<usize> for IndexPosition {
    ghost can_add_assign = { λ p n. p.offset + n < 2 ^ 64 };

    ghost add_assign_gives = { λ p n q. q.offset ≡ p.offset + n };

    /// Moves the position to the right by `rhs` bytes or units.
    #[inline]
    fn add_assign(&mut self, rhs: usize) {
        self.offset += rhs;
    }
}

impl SubAssign<usize> for IndexPosition {
    ghost can_sub_assign = { λ p n. n ≤ p.offset };

    ghost sub_assign_gives = { λ p n q. q.offset ≡ p.offset - n };

    /// Moves the position to the left by `rhs` bytes or units.
    #[inline]
    fn sub_assign(&mut self, rhs: usize) {
        self.offset -= rhs;
    }
}
