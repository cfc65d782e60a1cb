//! The matches of a program in a text, one after another.
ghost use Rattle.std.specs.Prelude.{◌≡◌, ◌<◌, None, IfOk, IfSome, OnErr};
ghost use Rattle.regress_match.specs.Iterating.{Finds, steps_on};
ghost use Rattle.regress_engine_search.specs.Search.{Search, items_from, places_behind, IsPosition, IsStart, StartsAt, IsMatchOf, Steps};

use crate::search::PikeVMExecutor;
use regress_engine_search::{ExecutorInput, Shown};
use regress_front_core::Error;
use regress_match::{Match, MatchProducer};
use std::alloc::AllocError;

impl<'r, Input: ExecutorInput> PikeVMExecutor<'r, Input> {
    /// One step of an iterator over the matches: the first match from a position on, which becomes the offset to go on from
    /// behind the match ("RegExpBuiltinExec"). Answers `None` where there is no match, and an error where memory is refused;
    /// after either there is no position, and from none there is no match.
    ///
    /// Asks that the position is the offset of a place of the text, as `initial_position` and this give it.
    ///
    /// ```rust
    /// let mut position = executor.initial_position(0);
    /// while let Some(found) = executor.step(&mut position) {
    ///     let range = found?.range();
    /// }
    /// ```
    pub fn step(&mut self, position: &mut Option<usize>) -> Option<Result<Match, AllocError>>
        requires { IfSome position.old (IsPosition (⟦<PikeVMExecutor<'r, Input> as MatchProducer>⟧.search_of self.old)) }
        ensures kept { ⟦<PikeVMExecutor<'r, Input> as MatchProducer>⟧.search_of self.new ≡ ⟦<PikeVMExecutor<'r, Input> as MatchProducer>⟧.search_of self.old }
        ensures stepped { Steps (⟦<PikeVMExecutor<'r, Input> as MatchProducer>⟧.search_of self.old) position.old result position.new }
        ensures inside { IfSome position.new (IsPosition (⟦<PikeVMExecutor<'r, Input> as MatchProducer>⟧.search_of self.old)) }
        ensures nearer { IfSome result (λ _. steps_on (places_behind (⟦<PikeVMExecutor<'r, Input> as MatchProducer>⟧.search_of self.old)) position.new < steps_on (places_behind (⟦<PikeVMExecutor<'r, Input> as MatchProducer>⟧.search_of self.old)) position.old) }
        ensures ended { position.old ≡ None → result ≡ None }
    {
        let from = position.take()?;
        self.advance(from, position).transpose()
    }

    /// The first match from an offset on, and in `next` the offset to go on from, as `next_match` finds them. Its one error is
    /// that memory is refused.
    fn advance(
        &mut self,
        position: usize,
        next: &mut Option<usize>,
    ) -> Result<Option<Match>, AllocError>
        requires { IsPosition (⟦<PikeVMExecutor<'r, Input> as MatchProducer>⟧.search_of self.old) position }
        ensures kept { ⟦<PikeVMExecutor<'r, Input> as MatchProducer>⟧.search_of self.new ≡ ⟦<PikeVMExecutor<'r, Input> as MatchProducer>⟧.search_of self.old }
        ensures found { IfOk result (λ found. Finds (items_from (⟦<PikeVMExecutor<'r, Input> as MatchProducer>⟧.search_of self.old)) (IsMatchOf (⟦<PikeVMExecutor<'r, Input> as MatchProducer>⟧.search_of self.old)) position found next.new) }
        ensures inside { IfSome next.new (IsPosition (⟦<PikeVMExecutor<'r, Input> as MatchProducer>⟧.search_of self.old)) }
        ensures nearer { IfSome next.new (λ p. places_behind (⟦<PikeVMExecutor<'r, Input> as MatchProducer>⟧.search_of self.old) p < places_behind (⟦<PikeVMExecutor<'r, Input> as MatchProducer>⟧.search_of self.old) position) }
        ensures last { OnErr result (next.new ≡ None) }
    {
        *next = None;
        let Some(found) = self.find_from(position)? else {
            return Ok(None);
        };
        *next = self.context.goes_on(&found);
        Ok(Some(found))
    }
}

impl<'r, Input: ExecutorInput> MatchProducer for PikeVMExecutor<'r, Input> {
    type Position = usize;

    ghost Search = { Search };

    ghost search_of = { λ e. record { compiled = e.context.program.now; view = Input.shown e.context.input; searchable = e.context.searchable } };

    ghost is_position = { IsPosition };

    ghost is_start = { IsStart };

    ghost items_from = { items_from };

    ghost left_behind = { places_behind };

    ghost starts_at = { StartsAt };

    ghost is_of_search = { IsMatchOf };

    /// The offset itself; `None` for an offset past the end.
    fn initial_position(&self, offset: usize) -> Option<usize> {
        (offset <= self.context.text_len()).then_some(offset)
    }

    /// The first match from an offset on, and in `next` the offset to go on from ("RegExpBuiltinExec").
    fn next_match(
        &mut self,
        position: usize,
        next: &mut Option<usize>,
    ) -> Result<Option<Match>, Error> {
        Ok(self.advance(position, next)?)
    }
}
