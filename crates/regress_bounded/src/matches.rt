//! The matches of a compiled pattern in a text, in so many steps.
ghost use Rattle.std.specs.Prelude.{◌≡◌, ℕ, Some, false, true, length, option_copied};
ghost use Rattle.std.specs.Iterator.{at_most};
ghost use Rattle.regress_meaning.specs.Offsets.{Begins};
ghost use Rattle.regress_engine_code.specs.Standing.{program_of};
ghost use Rattle.regress_engine_search.specs.Search.{StartsAt, IsMadeOf};
ghost use Rattle.regress_engine_input.specs.Views.{reading_of};
ghost use Rattle.regress_engine_exec.specs.Turned.{TellsLinear, enough_by, may_turn};
ghost use Rattle.regress_programs.specs.Positions.{IsPlaced, IsPlaced-prop};

use regress_engine_code::CompiledRegex;
use regress_engine_exec::{Backtracker, BoundedExecutor, Scratch, SearchError};
use regress_engine_inputs::Utf8Input;
use regress_engine_linear::LinearTable;
use regress_engine_search::{ExecutorInput, Shown, StepsLeft};
use regress_match::Match;
use regress_matched::TextMatches;
use std::alloc::Global;
use std::iter::FusedIterator;

/// The matches of a compiled pattern in a text, each after the one before, in so many steps for all of them together: from
/// `Bounded::find_iter` and its kin.
#[derive(Debug, Drop)]
pub struct BoundedMatches<'r, Input: Shown> {
    executor: BoundedExecutor<'r, Input>,
    position: Option<usize>,
    ghost placed: { IsPlaced (Input.shown executor.context.input) position } by { IsPlaced-prop (Input.shown executor.context.input) position },
}

impl<'r, Input: ExecutorInput> BoundedMatches<'r, Input> {
    ghost use Rattle.regress_programs.specs.SearchFor.{IsSearchFor};
    ghost use Rattle.regress_bounded.specs.Coming.{search_by, next_from, budget_of, turns_of};
    ghost use Rattle.regress_bounded.specs.Together.{CountsAlong};

    /// The matches of a program in an input, from an offset on, in so many steps.
    ///
    /// Asks that the program is made for the input, that it is linear by its table, if one is given, and that a search may begin at the
    /// offset. If the steps are enough for a linear program (`linear_steps`), searches turn to a table of the text after so many.
    ///
    /// ```rust
    /// let input = Utf8Input::new("aab", false, program.tables());
    /// let mut matches = BoundedMatches::new(alloc, &program, None, input, 0, 1_000_000);
    /// ```
    pub fn new(
        alloc: Global,
        program: &'r CompiledRegex,
        table: Option<&'r LinearTable>,
        input: Input,
        start: usize,
        steps: usize,
    ) -> Self
        requires made { IsMadeOf program.now (Input.view input) }
        requires linear { TellsLinear (program_of program.now) (option_copied table) }
        requires start { (place : ℕ) × Begins (reading_of (Input.view input)) start place }
        ensures text { (search_by result).view ≡ Input.view input }
        ensures program { (search_by result).compiled ≡ program.entry.now }
        ensures begins { StartsAt (search_by result) start (next_from result) }
        ensures turns { turns_of result ≡ may_turn (option_copied table.entry) (length (Input.view input).units) (Some steps) }
        ensures steps { turns_of result ≡ false → budget_of result ≡ steps }
        ensures lowered { turns_of result ≡ true → Some (budget_of result) ≡ enough_by (option_copied table.entry) (length (Input.view input).units) }
        ensures counted { CountsAlong search_by next_from budget_of turns_of result }
    {
        let scratch = Scratch::new(alloc);
        let budget = StepsLeft(steps);
        let executor = Backtracker::with_budget(alloc, program, table, input, scratch, budget);
        let position = executor.initial_position(start);
        BoundedMatches { executor, position }
    }

    /// How many steps it may still take; or, if it turns to a table then, after how many.
    ///
    /// ```rust
    /// let left = matches.steps_left();
    /// ```
    pub fn steps_left(&self) -> usize
        ensures { result ≡ budget_of self.now }
    {
        self.executor.steps_left()
    }
}

impl<'r, Input: ExecutorInput> Iterator for BoundedMatches<'r, Input> {
    ghost use Rattle.regress_bounded.specs.Coming.{search_by, next_from, budget_of, turns_of, calls_left, GivesWithin};

    type Item = Result<Match, SearchError>;

    ghost next_gives = { λ old r new. GivesWithin search_by next_from budget_of turns_of old r new };

    ghost remaining = { λ ms. at_most (calls_left ms) };

    /// The next match, its ranges told in offsets of what is searched.
    ///
    /// Answers `None` where there is none, `OutOfMemory` where a request for memory is refused, and `TooManySteps` where all
    /// steps were counted and it would take more; after any of these it has ended and answers `None` alone. After an empty match
    /// it goes on a character later, after any other at its end.
    ///
    /// ```rust
    /// let mut matches = bounded.find_iter(text)?;
    /// let first = matches.next().transpose()?;
    /// ```
    fn next(&mut self) -> Option<Result<Match, SearchError>> {
        self.executor.step(&mut self.position)
    }
}

impl<'r, Input: ExecutorInput> FusedIterator for BoundedMatches<'r, Input> {}

impl<'r, 't> TextMatches for BoundedMatches<'r, Utf8Input<'r, 't>> {
    ghost use Rattle.regress_bounded.specs.Coming as matches;

    type Error = SearchError;

    ghost searched = { λ ms. matches.searched ms };

    ghost names = { λ ms. matches.searched_names ms };

    ghost coming = { λ ms. matches.coming ms };

    ghost gives = { λ old r new. matches.GivesNext old r new };

    fn next_match(&mut self) -> Option<Result<Match, SearchError>> {
        self.next()
    }
}
