//! What is counted while runs go on.
ghost use Rattle.std.specs.Prelude.{◌≡◌, ◌+◌, ◌/◌, ◌≤◌, ℕ};

/// What is counted while runs go on.
#[derive(Debug, Clone, Copy)]
pub(crate) struct Counts {
    /// How much may still be undone or passed over before failures are kept: a place counts one, a record four.
    pub(crate) spare: usize,
    /// How many steps more are to be counted, for places that were passed over or compared at once: one for each 64 units.
    pub(crate) more: usize,
}

impl Counts {
    /// Counts that all places from one offset up to another were passed over.
    #[inline(always)]
    pub(crate) fn pass(&mut self, from: usize, to: usize)
        ensures most { (size : ℕ) → from ≤ size → to ≤ size → self.new.more ≤ self.old.more + size / 64 }
        ensures none { from ≡ to → self.new.more ≤ self.old.more }
    {
        self.more = self.more.saturating_add(from.abs_diff(to) / 64);
    }
}
