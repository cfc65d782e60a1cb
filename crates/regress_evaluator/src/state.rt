//! The states of the evaluator.
ghost use Rattle.std.specs.Prelude.{◌≡◌, [], ◌∷◌, map, IfOk};
ghost use Rattle.regress_meaning.specs.Meaning.{captured, cleared};
ghost use Rattle.regress_evaluator.specs.StateViews.{state_of};

use crate::found::Places;
use regress_front_tables::CaptureGroupID;
use std::alloc::{AllocError, Global};

/// A place in the text, and the range of places that each group took, if any.
#[derive(Debug, Drop)]
pub(crate) struct State {
    pub(crate) place: usize,
    pub(crate) groups: Vec<Option<Places>>,
}

impl State {
    /// These groups at a place.
    pub(crate) fn at(&self, place: usize) -> Result<State, AllocError>
        ensures { IfOk result (λ s. state_of s ≡ record (state_of self.now) { place = place }) }
    {
        let groups = self.groups.clone()?;
        Ok(State { place, groups })
    }

    /// These groups at a place, as the only state.
    pub(crate) fn alone_at(&self, place: usize) -> Result<Vec<State>, AllocError>
        ensures { IfOk result
            (λ states. map state_of states.items ≡ record (state_of self.now) { place = place } ∷ []) }
    {
        Ok(vec![in *self.groups.allocator(); self.at(place)?]?)
    }

    /// The group takes what lies between a place and this one.
    pub(crate) fn capture(&mut self, group: CaptureGroupID, from: usize)
        ensures { state_of self.new ≡ captured group from (state_of self.old) }
    {
        let start = from.min(self.place);
        let end = from.max(self.place);
        if let Some(places) = self.groups.get_mut(usize::from(group)) {
            *places = Some(Places { start, end });
        }
    }

    /// This place, with the groups of a range cleared.
    pub(crate) fn cleared(
        &self,
        enclosed: &std::ops::Range<CaptureGroupID>,
    ) -> Result<State, AllocError>
        ensures { IfOk result
            (λ s. state_of s ≡ cleared enclosed.now.start enclosed.now.end (state_of self.now)) }
    {
        let mut state = self.at(self.place)?;
        for group in enclosed.start..enclosed.end {
            if let Some(places) = state.groups.get_mut(usize::from(group)) {
                *places = None;
            }
        }
        Ok(state)
    }
}
