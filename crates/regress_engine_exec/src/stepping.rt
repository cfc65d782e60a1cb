//! The matches of a program in a text, one after another.
ghost use Rattle.std.specs.Prelude.{◌≡◌, ◌+◌, ◌<◌, ◌≤◌, length, None, Some, IfOk, IfErr, IfSome, OnErr, OnOk};
ghost use Rattle.regress_match.specs.Iterating.{Finds, steps_on};
ghost use Rattle.regress_engine_search.specs.Search.{items_from, places_behind, IsPosition, IsStart, StartsAt, IsMatchOf, Steps};
ghost use Rattle.regress_engine_exec.specs.Counting.{CountsFrom, CountsStep};
ghost use Rattle.regress_engine_exec.specs.Searches.{budget_of, search_in, table_in, tabled_in, turns_in};
ghost use Rattle.regress_engine_exec.specs.Turned.{NeverOver, UnlessErr, ahead};

use crate::budget::SearchBudget;
use crate::search::Backtracker;
use regress_engine_search::ExecutorInput;
use regress_match::Match;

impl<'r, Input: ExecutorInput, B: SearchBudget> Backtracker<'r, Input, B> {
    /// The position at an offset: the offset itself; `None` for an offset past the end.
    ///
    /// Asks that the offset is that of a place of the text, or past the end.
    ///
    /// ```rust
    /// let mut position = executor.initial_position(0);
    /// ```
    pub fn initial_position(&self, offset: usize) -> Option<usize>
        requires { IsStart (search_in self.now) offset }
        ensures begins { StartsAt (search_in self.now) offset result }
        ensures inside { IfSome result (IsPosition (search_in self.now)) }
    {
        (offset <= self.context.text_len()).then_some(offset)
    }

    /// One step of an iterator over the matches: the first match from a position on, which becomes the offset to go on from
    /// behind the match ("RegExpBuiltinExec"). Answers `None` where there is no match, and an error where memory is refused or no
    /// more steps may be counted; after either there is no position, and from none there is no match.
    ///
    /// Asks that the position is the offset of a place of the text, as `initial_position` and this give it.
    ///
    /// ```rust
    /// let mut position = executor.initial_position(0);
    /// while let Some(found) = executor.step(&mut position) {
    ///     let range = found?.range();
    /// }
    /// ```
    pub fn step(&mut self, position: &mut Option<usize>) -> Option<Result<Match, B::Error>>
        requires { IfSome position.old (IsPosition (search_in self.old)) }
        ensures kept { search_in self.new ≡ search_in self.old }
        ensures stepped { Steps (search_in self.old) position.old result position.new }
        ensures inside { IfSome position.new (IsPosition (search_in self.old)) }
        ensures nearer { IfSome result (λ _. steps_on (places_behind (search_in self.old)) position.new < steps_on (places_behind (search_in self.old)) position.old) }
        ensures counted { CountsStep B.is_over (search_in self.old) position.old result (B.left (budget_of self.old)) (B.left (budget_of self.new)) }
        ensures ended { position.old ≡ None → result ≡ None }
        ensures never { IfSome result (λ given. IfErr given (NeverOver B.is_over (turns_in self.old))) }
        ensures turns { turns_in self.new ≡ turns_in self.old }
        ensures table { table_in self.new ≡ table_in self.old }
        ensures tabled { UnlessErr result (tabled_in self.new + ahead (table_in self.old) (length (search_in self.old).view.units) position.new
            ≤ tabled_in self.old + ahead (table_in self.old) (length (search_in self.old).view.units) position.old) }
    {
        let from = position.take()?;
        self.advance(from, position).transpose()
    }

    /// The first match from an offset on, and in `next` the offset to go on from.
    pub(crate) fn advance(
        &mut self,
        position: usize,
        next: &mut Option<usize>,
    ) -> Result<Option<Match>, B::Error>
        requires { IsPosition (search_in self.old) position }
        ensures kept { search_in self.new ≡ search_in self.old }
        ensures found { IfOk result (λ found. Finds (items_from (search_in self.old)) (IsMatchOf (search_in self.old)) position found next.new) }
        ensures inside { IfSome next.new (IsPosition (search_in self.old)) }
        ensures nearer { IfSome next.new (λ p. places_behind (search_in self.old) p < places_behind (search_in self.old) position) }
        ensures last { OnErr result (next.new ≡ None) }
        ensures counted { CountsFrom B.is_over (search_in self.old) position result (B.left (budget_of self.old)) (B.left (budget_of self.new)) }
        ensures never { IfErr result (NeverOver B.is_over (turns_in self.old)) }
        ensures turns { turns_in self.new ≡ turns_in self.old }
        ensures table { table_in self.new ≡ table_in self.old }
        ensures tabled { OnOk result (tabled_in self.new + ahead (table_in self.old) (length (search_in self.old).view.units) next.new
            ≤ tabled_in self.old + ahead (table_in self.old) (length (search_in self.old).view.units) (Some position)) }
    {
        *next = None;
        let Some(found) = self.find_from(position)? else {
            return Ok(None);
        };
        *next = self.context.goes_on(&found);
        Ok(Some(found))
    }
}
