//! What gives the matches in a text.
ghost use Rattle.std.specs.Prelude.{ℕ, List, Option, Result};
ghost use Rattle.regress_meaning.specs.Matches.{Item};
ghost use Rattle.regress_match.specs.declared.found.Match.{Match};
ghost use Rattle.regress_matched.specs.Giving.{GivesInText};

use regress_match::Match;
use std::alloc::AllocError;

/// What gives the matches of a pattern in a text, one after another, or an error.
pub trait TextMatches: Drop {
    /// What ends the matches early: refused memory is one reason.
    type Error: From<AllocError> + Drop;

    // The bytes of the text.
    ghost searched: { Self → List ℕ };

    // The names of the pattern's groups by their numbers, as bytes of UTF-8.
    ghost names: { Self → List (List ℕ) };

    // The items still to come, told in bytes.
    ghost coming: { Self → List Item };

    // What a call gives, from one state to another.
    ghost gives: { Self → Option (Result Match Self.Error) → Self → Type 0 };

    /// The next match, its ranges told in bytes of the text: the first of those still to come. `None` where none is, and an error
    /// behind which none is.
    ///
    /// ```rust
    /// while let Some(found) = matches.next_match() {
    ///     let range = found?.range();
    /// }
    /// ```
    fn next_match(&mut self) -> Option<Result<Match, Self::Error>>
        ensures gives { gives self.old result self.new }
        ensures first { GivesInText searched names coming self.old result self.new };
}
