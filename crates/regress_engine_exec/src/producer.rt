//! The executor that undoes as what gives matches.
ghost use Rattle.regress_engine_search.specs.Search.{Search, items_from, places_behind, IsPosition, IsStart, StartsAt, IsMatchOf};

use crate::search::{BacktrackExecutor, Backtracker};
use regress_engine_search::{ExecutorInput, Shown};
use regress_front_core::Error;
use regress_match::{Match, MatchProducer};

impl<'r, Input: ExecutorInput> MatchProducer for BacktrackExecutor<'r, Input> {
    type Position = usize;

    ghost Search = { Search };

    ghost search_of = { λ e. record { compiled = e.context.program.now; view = Input.shown e.context.input; searchable = e.context.searchable } };

    ghost is_position = { IsPosition };

    ghost is_start = { IsStart };

    ghost items_from = { items_from };

    ghost left_behind = { places_behind };

    ghost starts_at = { StartsAt };

    ghost is_of_search = { IsMatchOf };

    /// The offset itself; `None` for an offset past the end.
    fn initial_position(&self, offset: usize) -> Option<usize> {
        Backtracker::initial_position(self, offset)
    }

    /// The first match from an offset on, and in `next` the offset to go on from ("RegExpBuiltinExec").
    fn next_match(
        &mut self,
        position: usize,
        next: &mut Option<usize>,
    ) -> Result<Option<Match>, Error> {
        Ok(self.advance(position, next)?)
    }
}
