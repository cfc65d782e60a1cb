//! Which lines near a selected one are put out.
ghost use Rattle.std.specs.Prelude.{◌≡◌, ◌≤◌, vec_len, OnOk};

use crate::line::Line;
use std::alloc::{AllocError, Global};

/// How far the rows of a text are.
#[derive(Drop)]
pub struct Progress<'t> {
    /// How many lines behind a selected one are still to be put out.
    pub behind: usize,
    /// The lines that may stand before the next selected one.
    pub held: Vec<Line<'t>>,
    /// Whether a line was put out.
    pub is_begun: bool,
    /// Whether lines were left out since.
    pub has_gap: bool,
}

impl<'t> Progress<'t> {
    ghost use Rattle.esgrep_rows.specs.Rows.{beginning, following, held_back, left_out};
    ghost use Rattle.esgrep_rows.specs.Values.{progress_of, line_of};

    /// Before the first line.
    ///
    /// ```rust
    /// let mut progress = Progress::new(alloc);
    /// ```
    pub fn new(alloc: Global) -> Progress<'t>
        ensures value { progress_of result ≡ beginning }
        ensures none { vec_len result.held ≡ 0 }
    {
        Progress {
            behind: 0,
            held: Vec::new(alloc),
            is_begun: false,
            has_gap: false,
        }
    }

    /// A line was put out, and so many behind it are to be.
    ///
    /// ```rust
    /// progress.follow(2);
    /// ```
    pub fn follow(&mut self, behind: usize)
        ensures value { progress_of self.new ≡ following behind }
        ensures none { vec_len self.new.held ≡ 0 }
    {
        self.behind = behind;
        self.held.clear();
        self.is_begun = true;
        self.has_gap = false;
    }

    /// Holds a line back. Of those that are, the last `before` stay.
    ///
    /// Asks that no more than these are held, and that no line is to be put out. Errs where memory is refused alone.
    ///
    /// ```rust
    /// progress.hold(line, 2)?;
    /// ```
    pub fn hold(&mut self, line: Line<'t>, before: usize) -> Result<(), AllocError>
        requires few { vec_len self.old.held ≤ before }
        requires behind { self.old.behind ≡ 0 }
        ensures few { OnOk result (vec_len self.new.held ≤ before) }
        ensures value { OnOk result (progress_of self.new ≡ held_back before (progress_of self.old) (line_of line.entry)) }
    {
        self.held.push(line)?;
        if self.held.len() > before {
            self.held.remove(0);
            self.has_gap = true;
        }
        Ok(())
    }

    /// Lines are left out. Asks that none is held back, and that none is to be put out.
    ///
    /// ```rust
    /// progress.leave_out();
    /// ```
    pub fn leave_out(&mut self)
        requires none { vec_len self.old.held ≡ 0 }
        requires behind { self.old.behind ≡ 0 }
        ensures none { vec_len self.new.held ≡ 0 }
        ensures value { progress_of self.new ≡ left_out (progress_of self.old) }
    {
        self.has_gap = true;
    }
}
