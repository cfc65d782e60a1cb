//! The matches of a compiled pattern in a text of ASCII.
ghost use Rattle.std.specs.Prelude.{ℕ};
ghost use Rattle.std.specs.Iterator.{at_most};
ghost use Rattle.std.specs.Str.{IsAscii};
ghost use Rattle.regress_meaning.specs.Offsets.{of_ascii, Begins};
ghost use Rattle.regress_engine_inputs.specs.InputViews.{ascii_view};
ghost use Rattle.regress_engine_search.specs.Search.{StartsAt};
ghost use Rattle.regress_match.specs.Iterating.{GivesMatch};
ghost use Rattle.regress_match.specs.TextRanges.{IsMatchIn};
ghost use Rattle.regress_programs.specs.Positions.{IsPlaced, IsPlaced-prop};

use crate::compiled::Compiled;
use regress_engine_exec::BacktrackExecutor;
use regress_engine_inputs::AsciiInput;
use regress_front::Error;
use regress_match::Match;
use std::alloc::Global;
use std::iter::FusedIterator;

/// The matches of a compiled pattern in a text of ASCII, each after the one before: from `Regex::find_iter_ascii` and
/// `Regex::find_from_ascii`.
#[derive(Debug)]
pub struct AsciiMatches<'r, 't> {
    executor: BacktrackExecutor<'r, AsciiInput<'r, 't>>,
    position: Option<usize>,
    ghost placed: { IsPlaced (ascii_view executor.context.input) position } by { IsPlaced-prop (ascii_view executor.context.input) position },
}

// By hand, so that a caller's proof passes over one call where an iterator goes out of scope, and not over each field of its executor.
impl<'r, 't> Drop for AsciiMatches<'r, 't> {
    fn drop(self) {
        let AsciiMatches {
            executor: _,
            position: _,
        } = self;
    }
}

impl<'r, 't> AsciiMatches<'r, 't> {
    ghost use Rattle.regress_programs.specs.SearchFor.{IsSearchFor};
    ghost use Rattle.regress_programs.specs.Ascii.{search_in_ascii};

    /// The matches of a pattern in a text of ASCII, from an offset on.
    ///
    /// Asks that the text is ASCII, and that a search may begin there.
    ///
    /// ```rust
    /// let mut matches = AsciiMatches::new(alloc, &compiled, "aab", 0);
    /// ```
    pub fn new(alloc: Global, compiled: &'r Compiled, text: &'t str, start: usize) -> Self
        requires ascii { IsAscii text.now }
        requires start { (place : ℕ) × Begins (of_ascii text.now) start place }
        ensures over { IsSearchFor compiled.now.byte_program text.now (search_in_ascii result) }
        ensures begins { StartsAt (search_in_ascii result) start result.position }
    {
        let program = &compiled.byte_program;
        let input = AsciiInput::new(text, program.flags().is_unicode(), program.tables());
        let executor = BacktrackExecutor::with_input(alloc, program, input);
        let position = executor.initial_position(start);
        AsciiMatches { executor, position }
    }
}

impl<'r, 't> Iterator for AsciiMatches<'r, 't> {
    ghost use Rattle.std.specs.Prelude.{◌≡◌};
    ghost use Rattle.regress_programs.specs.Ascii.{searched_in_ascii, names_in_ascii, coming_in_ascii, steps_in_ascii, HasEndedAscii};

    type Item = Result<Match, Error>;

    ghost next_gives = { λ old r new. (searched_in_ascii new ≡ searched_in_ascii old) × (names_in_ascii new ≡ names_in_ascii old)
        × GivesMatch coming_in_ascii HasEndedAscii (IsMatchIn (searched_in_ascii old) (names_in_ascii old)) old r new };

    ghost remaining = { λ ms. at_most (steps_in_ascii ms) };

    /// The next match, its ranges told in bytes of the text.
    ///
    /// Answers `None` where there is none, and `OutOfMemory` where a request for memory is refused; after either it has
    /// ended and answers `None` alone.
    ///
    /// ```rust
    /// let first = regex.find_iter_ascii("aab")?.next().transpose()?;
    /// ```
    fn next(&mut self) -> Option<Result<Match, Error>> {
        let found = self.executor.step(&mut self.position)?;
        Some(found.map_err(Error::from))
    }
}

impl<'r, 't> FusedIterator for AsciiMatches<'r, 't> {}
