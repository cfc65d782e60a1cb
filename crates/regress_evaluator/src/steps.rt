//! Steps over the characters beside a place.
ghost use Rattle.std.specs.Prelude.{◌≡◌, map, option_map, slice_range, IfOk};
ghost use Rattle.regress_meaning.specs.Meaning.{beside, same, same_all, step, repeat_group};
ghost use Rattle.std.specs.Prelude.{length, slice_get, ◌-◌};
ghost use Rattle.regress_front_nodes.specs.TreeMeaning.{one};
ghost use Rattle.regress_evaluator.specs.StateViews.{state_of, context_of, direction_of};
ghost use Rattle.regress_evaluator.specs.Singles.{passes};

use crate::evaluator::Evaluator;
use crate::singles::Single;
use crate::state::State;
use regress_front_tables::CodePoint;
use std::alloc::AllocError;

/// In which direction the text is read ("CompileSubpattern").
#[derive(Debug, Clone, Copy, Drop)]
pub(crate) enum Direction {
    /// From left to right.
    Forward,
    /// From right to left, as in a lookbehind.
    Backward,
}

impl<'s> Evaluator<'s> {
    /// The code points from a place up to another, as far as there are any.
    fn part(&self, from: usize, to: usize) -> &'s [CodePoint]
        ensures { result.now ≡ slice_range self.now.points.now from to }
    {
        let end = to.min(self.points.len());
        let start = from.min(end);
        &self.points[start..end]
    }

    /// The code points of the `count` places beside a place, and the place behind them.
    #[tactic(auto, unfolding(regress_meaning::specs::Meaning::beside))]
    fn beside(
        &self,
        direction: Direction,
        count: usize,
        place: usize,
    ) -> Option<(&'s [CodePoint], usize)>
        ensures { option_map (λ found. (found.0.now, found.1)) result
            ≡ beside (context_of self.now) (direction_of direction) count place }
    {
        match direction {
            Direction::Forward => {
                let end = place.checked_add(count)?;
                if end > self.points.len() {
                    return None;
                }
                Some((self.part(place, end), end))
            }
            Direction::Backward => {
                let start = place.checked_sub(count)?;
                Some((self.part(start, place), start))
            }
        }
    }

    /// Whether two code points are equal, or where case is ignored have equal canons ("Canonicalize").
    fn is_same(&self, icase: bool, c: CodePoint, d: CodePoint) -> bool
        ensures { result ≡ same (context_of self.now).table (context_of self.now).unicode icase c d }
    {
        if icase {
            self.tables.canon(self.unicode, c) == self.tables.canon(self.unicode, d)
        } else {
            c == d
        }
    }

    /// Whether two strings are, one by one.
    fn are_same(&self, icase: bool, first: &[CodePoint], second: &[CodePoint]) -> bool
        ensures { result ≡ same_all (context_of self.now).table (context_of self.now).unicode icase first.now second.now }
    {
        if first.len() != second.len() {
            return false;
        }
        for index in 0..first.len() {
            if !self.is_same(icase, first[index], second[index]) {
                return false;
            }
        }
        true
    }

    /// Steps over one character, if it passes ("CharacterSetMatcher").
    #[tactic(auto, unfolding(regress_meaning::specs::Meaning::step))]
    pub(crate) fn one(
        &self,
        single: &Single<'_>,
        direction: Direction,
        state: &State,
    ) -> Result<Vec<State>, AllocError>
        ensures { IfOk result (λ states. map state_of states.items
            ≡ one (context_of self.now) (direction_of direction) (passes single.now) (state_of state.now)) }
    {
        if let Some((points, place)) = self.beside(direction, 1, state.place) {
            if points.iter().all(|c| single.matches(*c)) {
                return state.alone_at(place);
            }
        }
        Ok(Vec::new(self.alloc))
    }

    /// Steps over `count` characters, if they are those of a string.
    #[tactic(auto, unfolding(regress_meaning::specs::Meaning::step))]
    fn over(
        &self,
        direction: Direction,
        count: usize,
        string: &[CodePoint],
        icase: bool,
        state: &State,
    ) -> Result<Vec<State>, AllocError>
        ensures { IfOk result (λ states. map state_of states.items
            ≡ step (context_of self.now) (direction_of direction) count
            (same_all (context_of self.now).table (context_of self.now).unicode icase string.now) (state_of state.now)) }
    {
        if let Some((points, place)) = self.beside(direction, count, state.place) {
            if self.are_same(icase, string, points) {
                return state.alone_at(place);
            }
        }
        Ok(Vec::new(self.alloc))
    }

    /// Steps over a string, in the order of the text in both directions.
    pub(crate) fn string(
        &self,
        string: &[CodePoint],
        icase: bool,
        direction: Direction,
        state: &State,
    ) -> Result<Vec<State>, AllocError>
        ensures { IfOk result (λ states. map state_of states.items
            ≡ step (context_of self.now) (direction_of direction) (length string.now)
            (same_all (context_of self.now).table (context_of self.now).unicode icase string.now) (state_of state.now)) }
    {
        self.over(direction, string.len(), string, icase, state)
    }

    /// Steps over what a group took, counted from 1; over nothing where it took nothing ("BackreferenceMatcher").
    #[tactic(auto, unfolding(regress_meaning::specs::Meaning::repeat_group))]
    pub(crate) fn back_reference(
        &self,
        group: u32,
        icase: bool,
        direction: Direction,
        state: &State,
    ) -> Result<Vec<State>, AllocError>
        ensures { IfOk result (λ states. map state_of states.items
            ≡ repeat_group (context_of self.now) (direction_of direction) icase
            (slice_get (state_of state.now).groups (group - 1)) (state_of state.now)) }
    {
        let index = group.saturating_sub(1) as usize;
        let Some(Some(places)) = state.groups.get(index) else {
            return state.alone_at(state.place);
        };
        let taken = self.part(places.start, places.end);
        let count = places.end.saturating_sub(places.start);
        self.over(direction, count, taken, icase, state)
    }
}
