//! Offsets that are kept in rows.
ghost use Rattle.std.specs.Prelude.{◌≡◌, ◌+◌, ◌^◌, ◌<◌, ◌==◌, ◌&&◌, ℕ, None, IfOk, OnOk, if◌then◌else◌, length};
ghost use Rattle.regress_engine_answers.specs.AnswerTables.{kept_in};

use std::alloc::{AllocError, Global};

/// As many rows as a program has addresses, in each of which an offset may be kept for each offset of a text.
#[derive(Debug, Drop)]
pub(crate) struct Rows {
    pub(crate) rows: Vec<Vec<Option<usize>>>,
}

impl Rows {
    /// So many rows in which nothing is kept yet.
    pub(crate) fn empty(alloc: Global, count: usize) -> Result<Rows, AllocError>
        ensures count { IfOk result (λ made. length made.rows.items ≡ count) }
    {
        let mut rows: Vec<Vec<Option<usize>>> = Vec::new(alloc);
        for _ in 0..count {
            rows.push(Vec::new(alloc))?;
        }
        Ok(Rows { rows })
    }

    /// No rows.
    pub(crate) fn none(alloc: Global) -> Rows {
        Rows {
            rows: Vec::new(alloc),
        }
    }

    /// What is kept at an index of a row.
    pub(crate) fn kept(&self, row: usize, index: usize) -> Option<usize>
        ensures { result ≡ kept_in self.now row index }
    {
        if row < self.rows.len() && index < self.rows[row].len() {
            self.rows[row][index]
        } else {
            None
        }
    }

    /// Keeps an offset at an index of a row, or that there is none. It errs where memory is refused.
    pub(crate) fn keep(
        &mut self,
        row: usize,
        index: usize,
        offset: Option<usize>,
    ) -> Result<(), AllocError>
        requires row { row < length self.old.rows.items }
        requires index { index + 1 < 2 ^ 64 }
        ensures count { length self.new.rows.items ≡ length self.old.rows.items }
        ensures kept { OnOk result ((k n : ℕ) → kept_in self.new k n ≡ (if (k == row) && (n == index) then offset else kept_in self.old k n)) }
    {
        let kept = &mut self.rows[row];
        if kept.len() <= index {
            kept.resize(index + 1, None)?;
        }
        kept[index] = offset;
        Ok(())
    }
}
