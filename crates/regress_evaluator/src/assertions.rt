//! Assertions at a place: where lines and words start and end.
ghost use Rattle.std.specs.Prelude.{◌≡◌, ◌==◌, ◌&&◌, ◌||◌, length, map, IfOk};
ghost use Rattle.regress_meaning.specs.Class.{is_ascii_word, is_word};
ghost use Rattle.regress_meaning.specs.Meaning.{before, after, is_some_and, is_line_end, differ, keep_if};
ghost use Rattle.regress_evaluator.specs.StateViews.{state_of, context_of};

use crate::evaluator::Evaluator;
use crate::singles::is_line_end;
use crate::state::State;
use regress_front_tables::{CodePoint, is_ascii_word};
use std::alloc::AllocError;

impl<'s> Evaluator<'s> {
    /// The code point before a place.
    fn before(&self, place: usize) -> Option<CodePoint>
        ensures { result ≡ before (context_of self.now) place }
    {
        if place == 0 {
            return None;
        }
        self.points.get(place - 1).copied()
    }

    /// The code point after a place.
    fn after(&self, place: usize) -> Option<CodePoint>
        ensures { result ≡ after (context_of self.now) place }
    {
        self.points.get(place).copied()
    }

    /// Whether a line starts at a place; where it is not `multiline`, whether the text does.
    pub(crate) fn is_line_start(&self, multiline: bool, place: usize) -> bool
        ensures { result ≡ (place == 0 || (multiline && is_some_and (before (context_of self.now) place) is_line_end)) }
    {
        place == 0 || (multiline && self.before(place).is_some_and(is_line_end))
    }

    /// Whether a line ends at a place; where it is not `multiline`, whether the text does.
    pub(crate) fn is_at_line_end(&self, multiline: bool, place: usize) -> bool
        ensures { result ≡ (place == length self.now.points.now || (multiline && is_some_and (after (context_of self.now) place) is_line_end)) }
    {
        place == self.points.len() || (multiline && self.after(place).is_some_and(is_line_end))
    }

    /// Whether a word character stands there; `folded` in Unicode mode, where case is ignored ("WordCharacters").
    #[tactic(auto, unfolding(regress_meaning::specs::Class::is_word))]
    fn is_word(&self, folded: bool, c: Option<CodePoint>) -> bool
        ensures { result ≡ is_some_and c (is_word (context_of self.now).table folded) }
    {
        match c {
            Some(c) => is_ascii_word(c) || (folded && is_ascii_word(self.tables.fold(c))),
            None => false,
        }
    }

    /// Whether a word starts or ends at a place.
    pub(crate) fn is_boundary(&self, folded: bool, place: usize) -> bool
        ensures { result ≡ differ (context_of self.now).table folded (before (context_of self.now) place) (after (context_of self.now) place) }
    {
        self.is_word(folded, self.before(place)) != self.is_word(folded, self.after(place))
    }

    /// The state, where something holds.
    pub(crate) fn keep_if(&self, holds: bool, state: &State) -> Result<Vec<State>, AllocError>
        ensures { IfOk result (λ states. map state_of states.items
            ≡ keep_if holds (state_of state.now)) }
    {
        if holds {
            state.alone_at(state.place)
        } else {
            Ok(Vec::new(self.alloc))
        }
    }
}
