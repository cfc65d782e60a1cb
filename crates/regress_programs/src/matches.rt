//! The matches of a compiled pattern in a text.
ghost use Rattle.std.specs.Prelude.{ℕ};
ghost use Rattle.std.specs.Iterator.{at_most};
ghost use Rattle.regress_meaning.specs.Offsets.{of_utf8, Begins};
ghost use Rattle.regress_engine_inputs.specs.InputViews.{utf8_view};
ghost use Rattle.regress_engine_search.specs.Search.{StartsAt};
ghost use Rattle.regress_match.specs.Iterating.{GivesMatch};
ghost use Rattle.regress_match.specs.TextRanges.{IsMatchIn};
ghost use Rattle.regress_programs.specs.Positions.{IsPlaced, IsPlaced-prop};

use crate::compiled::Compiled;
use regress_engine_exec::BacktrackExecutor;
use regress_engine_inputs::Utf8Input;
use regress_front::Error;
use regress_match::Match;
use regress_matched::TextMatches;
use std::alloc::Global;
use std::iter::FusedIterator;

/// The matches of a compiled pattern in a text, each after the one before: from `Regex::find_iter` and
/// `Regex::find_from`.
#[derive(Debug)]
pub struct Matches<'r, 't> {
    executor: BacktrackExecutor<'r, Utf8Input<'r, 't>>,
    position: Option<usize>,
    ghost placed: { IsPlaced (utf8_view executor.context.input) position } by { IsPlaced-prop (utf8_view executor.context.input) position },
}

// By hand, so that a caller's proof passes over one call where an iterator goes out of scope, and not over each field of its executor.
impl<'r, 't> Drop for Matches<'r, 't> {
    fn drop(self) {
        let Matches {
            executor: _,
            position: _,
        } = self;
    }
}

impl<'r, 't> Matches<'r, 't> {
    ghost use Rattle.std.specs.Prelude.{◌≡◌};
    ghost use Rattle.regress_programs.specs.SearchFor.{IsSearchFor};
    ghost use Rattle.regress_programs.specs.Coming.{search_by, next_from};

    /// The matches of a pattern in a text, from an offset in bytes on.
    ///
    /// Asks that a search may begin there.
    ///
    /// ```rust
    /// let mut matches = Matches::new(alloc, &compiled, "aab", 0);
    /// ```
    pub fn new(alloc: Global, compiled: &'r Compiled, source: &'t str, start: usize) -> Self
        requires { (place : ℕ) × Begins (of_utf8 source.now) start place }
        ensures over { IsSearchFor compiled.now.byte_program source.now (search_by result) }
        ensures begins { StartsAt (search_by result) start (next_from result) }
    {
        let executor = BacktrackExecutor::new(alloc, &compiled.byte_program, source);
        let position = executor.initial_position(start);
        Matches { executor, position }
    }
}

impl<'r, 't> Iterator for Matches<'r, 't> {
    ghost use Rattle.std.specs.Prelude.{◌≡◌};
    ghost use Rattle.regress_programs.specs.Coming.{searched, searched_names, coming, steps_left, HasEnded};

    type Item = Result<Match, Error>;

    ghost next_gives = { λ old r new. (searched new ≡ searched old) × (searched_names new ≡ searched_names old)
        × GivesMatch coming HasEnded (IsMatchIn (searched old) (searched_names old)) old r new };

    ghost remaining = { λ ms. at_most (steps_left ms) };

    /// The next match, its ranges told in bytes of the text.
    ///
    /// Answers `None` where there is none, and `OutOfMemory` where a request for memory is refused; after either it has
    /// ended and answers `None` alone. After an empty match it goes on a character later, after any other at its end.
    ///
    /// ```rust
    /// let mut matches = regex.find_iter(text)?;
    /// let first = matches.next().transpose()?;
    /// ```
    fn next(&mut self) -> Option<Result<Match, Error>> {
        let found = self.executor.step(&mut self.position)?;
        Some(found.map_err(Error::from))
    }
}

impl<'r, 't> FusedIterator for Matches<'r, 't> {}

impl<'r, 't> TextMatches for Matches<'r, 't> {
    ghost use Rattle.regress_programs.specs.Coming as matches;

    type Error = Error;

    ghost searched = { matches.searched };

    ghost names = { matches.searched_names };

    ghost coming = { matches.coming };

    ghost gives = { matches.GivesNext };

    fn next_match(&mut self) -> Option<Result<Match, Error>> {
        self.next()
    }
}
