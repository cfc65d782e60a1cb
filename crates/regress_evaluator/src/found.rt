//! A match, told in places of the text.
ghost use Rattle.std.specs.Prelude.{◌≡◌, ◌<◌, ◌≤◌, IfSome};
ghost use Rattle.regress_meaning.specs.Matches.{next_place};
ghost use Rattle.regress_evaluator.specs.PlaceViews.{item_of};
ghost use Rattle.regress_evaluator.specs.Searching.{place_within};

/// What lies between two places of a text.
#[derive(Debug, Clone, Copy, Drop)]
pub(crate) struct Places {
    pub(crate) start: usize,
    pub(crate) end: usize,
}

/// A match: what it spans, and what each group took.
#[derive(Debug, Drop)]
pub(crate) struct Found {
    pub(crate) span: Places,
    pub(crate) groups: Vec<Option<Places>>,
}

impl Found {
    /// Where a search goes on after this match in a text with this last place: at its end, after an empty match a
    /// character later ("AdvanceStringIndex").
    pub(crate) fn place_after(&self, last: usize) -> Option<usize>
        requires ordered { self.now.span.start ≤ self.now.span.end }
        requires inside { self.now.span.end ≤ last }
        ensures value { result ≡ place_within last (next_place (item_of self.now)) }
        ensures later { IfSome result (λ place. (self.now.span.start < place) × (place ≤ last)) }
    {
        let Places { start, end } = self.span;
        if start < end {
            return Some(end);
        }
        if end < last {
            return Some(end + 1);
        }
        None
    }
}
