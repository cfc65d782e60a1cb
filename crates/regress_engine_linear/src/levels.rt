//! The levels of a linear program, one behind another.
ghost use Rattle.std.specs.Prelude.{◌≡◌, ◌<◌, length, nat_lt};
ghost use Rattle.regress_engine_linear.specs.Levels.{IsCut, IsLevel, IsRun};
ghost use Rattle.regress_engine_linear.specs.RankTables.{ArePlaced, address_at, heights_of, level_at, outside_at};

use crate::testing::LinearTable;

/// A level of a program: where its addresses stand in the order in which they are worked out.
#[derive(Debug, Clone, Copy)]
pub struct Level {
    /// The index of the first.
    pub from: usize,
    /// The index behind the last.
    pub to: usize,
    /// Whether they are read forward.
    pub forward: bool,
}

impl LinearTable {
    /// How many addresses the program has.
    ///
    /// ```rust
    /// let count = table.count();
    /// ```
    pub fn count(&self) -> usize
        ensures { result ≡ length (heights_of self.now.ranks).order }
    {
        self.ranks.order.len()
    }

    /// The address at an index of the order in which they are worked out.
    ///
    /// Asks that the index is that of an address.
    ///
    /// ```rust
    /// let first = table.address(0);
    /// ```
    pub fn address(&self, index: usize) -> usize
        requires { index < length (heights_of self.now.ranks).order }
        ensures { result ≡ address_at (heights_of self.now.ranks) index }
    {
        self.ranks.address(index)
    }

    /// How many addresses are inside of the contents of atomic groups.
    ///
    /// ```rust
    /// let inside = table.inside();
    /// ```
    pub fn inside(&self) -> usize
        ensures { result ≡ self.now.inside }
    {
        self.inside
    }

    /// Whether an address is inside of the contents of an atomic group.
    ///
    /// ```rust
    /// let inside = table.is_inside(3);
    /// ```
    pub fn is_inside(&self, at: usize) -> bool
        ensures { result ≡ nat_lt (outside_at (heights_of self.now.ranks) at) (length (heights_of self.now.ranks).ranks) }
    {
        self.ranks.outside(at) < self.ranks.ranks.len()
    }

    /// The level whose first address stands at an index of the order.
    ///
    /// Asks that the addresses are placed, and those before the index of deeper levels.
    ///
    /// ```rust
    /// let deepest = table.level(0);
    /// ```
    pub fn level(&self, index: usize) -> Level
        requires within { index < length (heights_of self.now.ranks).order }
        requires placed { ArePlaced (heights_of self.now.ranks) (length (heights_of self.now.ranks).ranks) }
        requires cut { IsCut (heights_of self.now.ranks) index }
        ensures from { result.from ≡ index }
        ensures level { IsLevel (heights_of self.now.ranks) result }
        ensures next { IsCut (heights_of self.now.ranks) result.to }
    {
        let first = self.address(index);
        Level {
            from: index,
            to: self.level_end(index),
            forward: self.ranks.is_forward(first),
        }
    }

    /// The index behind an address in the order and all behind it that are of its level.
    fn level_end(&self, index: usize) -> usize
        requires { index < length (heights_of self.now.ranks).order }
        ensures run { IsRun (heights_of self.now.ranks) index result }
        ensures end { result < length (heights_of self.now.ranks).order
            → level_at (heights_of self.now.ranks) (address_at (heights_of self.now.ranks) result) ≡ level_at (heights_of self.now.ranks) (address_at (heights_of self.now.ranks) index) → ⊥ }
    {
        let first = self.address(index);
        let level = self.ranks.level(first);
        for end in index + 1..self.count() {
            let next = self.address(end);
            if self.ranks.level(next) != level {
                return end;
            }
        }
        self.count()
    }
}
