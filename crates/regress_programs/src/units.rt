//! The matches of a compiled pattern in 16-bit units.
ghost use Rattle.std.specs.Prelude.{ℕ};
ghost use Rattle.std.specs.Iterator.{at_most};
ghost use Rattle.regress_meaning.specs.Offsets.{of_utf16, of_ucs2, Begins};
ghost use Rattle.regress_engine_inputs.specs.InputViews.{utf16_view, ucs2_view};
ghost use Rattle.regress_engine_search.specs.Search.{StartsAt, IsMatchOf};
ghost use Rattle.regress_match.specs.Iterating.{GivesMatch};
ghost use Rattle.regress_programs.specs.Positions.{IsPlaced, IsPlaced-prop};

use crate::compiled::Compiled;
use regress_engine_exec::BacktrackExecutor;
use regress_engine_inputs::{Ucs2Input, Utf16Input};
use regress_front::Error;
use regress_match::Match;
use std::alloc::Global;
use std::iter::FusedIterator;

/// The matches of a compiled pattern in units of UTF-16, each after the one before: from `Regex::find_from_utf16`.
#[derive(Debug)]
pub struct Utf16Matches<'r, 't> {
    executor: BacktrackExecutor<'r, Utf16Input<'r, 't>>,
    position: Option<usize>,
    ghost placed: { IsPlaced (utf16_view executor.context.input) position } by { IsPlaced-prop (utf16_view executor.context.input) position },
}

// By hand, so that a caller's proof passes over one call where an iterator goes out of scope, and not over each field of its executor.
impl<'r, 't> Drop for Utf16Matches<'r, 't> {
    fn drop(self) {
        let Utf16Matches {
            executor: _,
            position: _,
        } = self;
    }
}

/// The matches of a compiled pattern in 16-bit units that are each one character, each after the one before: from
/// `Regex::find_from_ucs2`.
#[derive(Debug)]
pub struct Ucs2Matches<'r, 't> {
    executor: BacktrackExecutor<'r, Ucs2Input<'r, 't>>,
    position: Option<usize>,
    ghost placed: { IsPlaced (ucs2_view executor.context.input) position } by { IsPlaced-prop (ucs2_view executor.context.input) position },
}

// By hand, so that a caller's proof passes over one call where an iterator goes out of scope, and not over each field of its executor.
impl<'r, 't> Drop for Ucs2Matches<'r, 't> {
    fn drop(self) {
        let Ucs2Matches {
            executor: _,
            position: _,
        } = self;
    }
}

impl<'r, 't> Utf16Matches<'r, 't> {
    ghost use Rattle.regress_programs.specs.SearchFor.{IsSearchFor};
    ghost use Rattle.regress_programs.specs.Units.{search_in_utf16};

    /// The matches of a pattern in units, from an offset on.
    ///
    /// Asks that a search may begin there.
    ///
    /// ```rust
    /// let mut matches = Utf16Matches::new(alloc, &compiled, &[0xD83D, 0xDE00], 0);
    /// ```
    pub fn new(alloc: Global, compiled: &'r Compiled, units: &'t [u16], start: usize) -> Self
        requires { (place : ℕ) × Begins (of_utf16 units.now) start place }
        ensures over { IsSearchFor compiled.now.unit_program units.now (search_in_utf16 result) }
        ensures begins { StartsAt (search_in_utf16 result) start result.position }
    {
        let program = &compiled.unit_program;
        let input = Utf16Input::new(units, program.flags().is_unicode(), program.tables());
        let executor = BacktrackExecutor::with_input(alloc, program, input);
        let position = executor.initial_position(start);
        Utf16Matches { executor, position }
    }
}

impl<'r, 't> Ucs2Matches<'r, 't> {
    ghost use Rattle.regress_programs.specs.SearchFor.{IsSearchFor};
    ghost use Rattle.regress_programs.specs.Units.{search_in_ucs2};

    /// The matches of a pattern in units, from an offset on.
    ///
    /// Asks that a search may begin there, as it may at any.
    ///
    /// ```rust
    /// let mut matches = Ucs2Matches::new(alloc, &compiled, &[0xD83D, 0xDE00], 1);
    /// ```
    pub fn new(alloc: Global, compiled: &'r Compiled, units: &'t [u16], start: usize) -> Self
        requires { (place : ℕ) × Begins (of_ucs2 units.now) start place }
        ensures over { IsSearchFor compiled.now.unit_program units.now (search_in_ucs2 result) }
        ensures begins { StartsAt (search_in_ucs2 result) start result.position }
    {
        let program = &compiled.unit_program;
        let input = Ucs2Input::new(units, program.flags().is_unicode(), program.tables());
        let executor = BacktrackExecutor::with_input(alloc, program, input);
        let position = executor.initial_position(start);
        Ucs2Matches { executor, position }
    }
}

impl<'r, 't> Iterator for Utf16Matches<'r, 't> {
    ghost use Rattle.std.specs.Prelude.{◌≡◌};
    ghost use Rattle.regress_programs.specs.Units.{search_in_utf16, coming_in_utf16, steps_in_utf16, HasEndedUtf16};

    type Item = Result<Match, Error>;

    ghost next_gives = { λ old r new. (search_in_utf16 new ≡ search_in_utf16 old)
        × GivesMatch coming_in_utf16 HasEndedUtf16 (IsMatchOf (search_in_utf16 old)) old r new };

    ghost remaining = { λ ms. at_most (steps_in_utf16 ms) };

    /// The next match, its ranges told in units.
    ///
    /// Answers `None` where there is none, and `OutOfMemory` where a request for memory is refused; after either it has
    /// ended and answers `None` alone.
    ///
    /// ```rust
    /// let first = regex.find_from_utf16(units, 0)?.next().transpose()?;
    /// ```
    fn next(&mut self) -> Option<Result<Match, Error>> {
        let found = self.executor.step(&mut self.position)?;
        Some(found.map_err(Error::from))
    }
}

impl<'r, 't> FusedIterator for Utf16Matches<'r, 't> {}

impl<'r, 't> Iterator for Ucs2Matches<'r, 't> {
    ghost use Rattle.std.specs.Prelude.{◌≡◌};
    ghost use Rattle.regress_programs.specs.Units.{search_in_ucs2, coming_in_ucs2, steps_in_ucs2, HasEndedUcs2};

    type Item = Result<Match, Error>;

    ghost next_gives = { λ old r new. (search_in_ucs2 new ≡ search_in_ucs2 old)
        × GivesMatch coming_in_ucs2 HasEndedUcs2 (IsMatchOf (search_in_ucs2 old)) old r new };

    ghost remaining = { λ ms. at_most (steps_in_ucs2 ms) };

    /// The next match, its ranges told in units.
    ///
    /// Answers `None` where there is none, and `OutOfMemory` where a request for memory is refused; after either it has
    /// ended and answers `None` alone.
    ///
    /// ```rust
    /// let first = regex.find_from_ucs2(units, 0)?.next().transpose()?;
    /// ```
    fn next(&mut self) -> Option<Result<Match, Error>> {
        let found = self.executor.step(&mut self.position)?;
        Some(found.map_err(Error::from))
    }
}

impl<'r, 't> FusedIterator for Ucs2Matches<'r, 't> {}
