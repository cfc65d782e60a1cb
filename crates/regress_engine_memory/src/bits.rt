//! Sets of numbers with a bit for each, up to the greatest of them.
ghost use Rattle.std.specs.Prelude.{◌≡◌, ◌==◌, ◌||◌, ◌<◌, ◌/◌, ℕ, OnErr, OnOk, false, length};
ghost use Rattle.regress_engine_memory.specs.BitViews.{has};

use regress_front_bytes::ByteBitmap;
use std::alloc::{AllocError, Global};

/// A set of numbers, in blocks of 256 bits each.
#[derive(Debug, Drop)]
pub struct Bits {
    pub(crate) blocks: Vec<ByteBitmap>,
}

impl Bits {
    /// The empty set, which takes no memory.
    ///
    /// ```rust
    /// let mut bits = Bits::new(alloc);
    /// ```
    pub fn new(alloc: Global) -> Bits
        ensures { (n : ℕ) → has result n ≡ false }
    {
        Bits {
            blocks: Vec::new(alloc),
        }
    }

    /// Whether a number is in the set.
    ///
    /// ```rust
    /// let there = bits.contains(3);
    /// ```
    #[inline]
    pub fn contains(&self, number: usize) -> bool
        ensures { result ≡ has self.now number }
    {
        let block = number / 256;
        block < self.blocks.len() && self.blocks[block].contains((number % 256) as u8)
    }

    /// How many blocks more a number needs.
    pub(crate) fn missing(&self, number: usize) -> usize {
        (number / 256 + 1).saturating_sub(self.blocks.len())
    }

    /// Makes room for a number. It errs where memory is refused; the set is the same in each case.
    fn grow(&mut self, number: usize) -> Result<(), AllocError>
        ensures same { (n : ℕ) → has self.new n ≡ has self.old n }
        ensures room { OnOk result (number / 256 < length self.new.blocks.items) }
    {
        while self.blocks.len() <= number / 256 {
            self.blocks.push(ByteBitmap::default())?;
        }
        Ok(())
    }

    /// Adds a number. It errs where memory is refused, and then the set stays as it is.
    ///
    /// ```rust
    /// bits.insert(3)?;
    /// ```
    pub fn insert(&mut self, number: usize) -> Result<(), AllocError>
        ensures ok { OnOk result ((n : ℕ) → has self.new n ≡ (has self.old n || number == n)) }
        ensures err { OnErr result ((n : ℕ) → has self.new n ≡ has self.old n) }
    {
        self.grow(number)?;
        self.blocks[number / 256].set((number % 256) as u8);
        Ok(())
    }
}
