//! A search of a pattern, with the memory that it keeps.
ghost use Rattle.std.specs.Prelude.{◌≡◌, ◌+◌, ◌<◌, ◌≤◌, length, vec_len};
ghost use Rattle.std.specs.Arc.{arc_value};
ghost use Rattle.regress.specs.Standing.{names_of_regex};

use crate::finding::{find_into, match_into};
use crate::many::many_in;
use crate::text::Text;
use crate::text_range::{TextRange, show};
use regress::{Range, Regex, Scratch, SearchError};
use regress_call_errors::CallError;
use std::alloc::Global;
use std::mem;
use std::sync::Arc;

/// How many ranges a match has at most: that of the whole match, and those of its groups.
pub const MAX_RANGES: usize = 65536;

/// A search of a pattern, and the memory that it keeps from one text to the next.
#[derive(Drop)]
pub struct Search {
    alloc: Global,
    regex: Arc<Regex>,
    scratch: Scratch,
    /// How many steps the search for a match may take; any number where there is none.
    max_steps: Option<usize>,
    /// The ranges of the last match: as many as each match has.
    slots: Vec<Option<Range>>,
    ghost counted: { vec_len slots ≡ length (names_of_regex (arc_value regex)) + 1 },
    ghost few: { vec_len slots ≤ 65536 },
}

impl Search {
    ghost use Rattle.std.specs.Prelude.{ℕ, List, Option, IfOk, IfErr, None, OnErr, OnOk, IsErrOf, IsOkUnless, option_map, slice_get};
    ghost use Rattle.regress_meaning.specs.Table.{Table};
    ghost use Rattle.regress_meaning.specs.Pattern.{Pattern};
    ghost use Rattle.regress_meaning.specs.Flags.{Options};
    ghost use Rattle.regress_meaning.specs.Matches.{Item, match_list};
    ghost use Rattle.regress_meaning.specs.Offsets.{told, Begins};
    ghost use Rattle.regress.specs.Outcomes.{outcome_at};
    ghost use Rattle.regress_calls.specs.Texts.{reading_of_text, kind_of_text, units_of_text, IsOfItsKind, StandsIn};
    ghost use Rattle.regress_calls.specs.Ranges.{IsAnswerTo};
    ghost use Rattle.regress_calls.specs.Slotted.{IsInSlots};
    ghost use Rattle.regress_programs.specs.declared.slots.Anchored.TheVariants.{No, Yes};
    ghost use Rattle.regress_calls.specs.Handles.{OfPattern, OfSearch};
    ghost use Rattle.regress_calls.specs.Stopping.{IsStopped};
    ghost use Rattle.regress_calls.specs.Many.{FoundAsManyAsFit, FoundMany, IsNext};
    ghost use Rattle.regress_calls.specs.Refusals.{MayRefuseCounted};
    ghost use Rattle.std.specs.declared.ops.Range.{Range as Ends};

    /// A search of a pattern. Errs with `OutOfMemory`; `TooManyGroups` can't come, since no pattern has more than 65535.
    pub fn new(alloc: Global, regex: Arc<Regex>) -> Result<Search, CallError>
        ensures made { IfOk result (λ s. (arc_value s.regex ≡ arc_value regex) × (s.max_steps ≡ None)) }
        ensures refused { IfErr result (MayRefuseCounted (OfPattern (arc_value regex))) }
    {
        let count = regex.captures_len();
        if count > MAX_RANGES {
            return Err(CallError::TooManyGroups);
        }
        let slots = Vec::from_elem(alloc, None, count)?;
        let scratch = Scratch::new(alloc);
        Ok(Search {
            alloc,
            regex,
            scratch,
            max_steps: None,
            slots,
        })
    }

    /// Bounds how many steps the search for a match may take from now on, or takes the bound away. At first there is none.
    ///
    /// ```rust
    /// search.set_max_steps(Some(1_000_000));
    /// ```
    pub fn set_max_steps(&mut self, max_steps: Option<usize>)
        ensures set { self.new.max_steps ≡ max_steps }
        ensures kept { arc_value self.new.regex ≡ arc_value self.old.regex }
    {
        self.max_steps = max_steps;
    }

    /// Finds the first match from `start` on ("RegExpBuiltinExec"), and writes its ranges: that of the whole match, and those of
    /// its groups in order, as many as there is room for, and unset ones past the last.
    ///
    /// Answers how many ranges the match has, and 0 with nothing written where there is none. Asks that a search may begin at
    /// `start`, as `Text::is_start` tells. Errs with `OutOfMemory`, and with `TooManySteps` where the search would take more steps
    /// than it may.
    ///
    /// ```rust
    /// let count = search.find(Text::Utf8("xaab"), 0, &mut ranges)?; // for `(a+)b` 2, at 1..4 and 1..3
    /// ```
    pub fn find(
        &mut self,
        text: Text<'_>,
        start: usize,
        ranges: &mut [TextRange],
    ) -> Result<usize, SearchError>
        requires kind { IsOfItsKind text }
        requires start { (place : ℕ) × Begins (reading_of_text text) start place }
        ensures found { (t : Table) → (o : Options) → (p : Pattern) → StandsIn text.entry (arc_value self.old.regex) t o p →
            (place : ℕ) → Begins (reading_of_text text.entry) start place →
            IfOk result (λ count. IsAnswerTo (length (names_of_regex (arc_value self.old.regex)))
            (option_map (told (reading_of_text text.entry)) (slice_get (match_list t o p (reading_of_text text.entry).points place) 0))
            ranges.old count ranges.new) }
        ensures few { IfOk result (λ count. count ≤ 65536) }
        ensures kept { (arc_value self.new.regex ≡ arc_value self.old.regex) × (self.new.max_steps ≡ self.old.max_steps) }
        ensures stopped { IsErrOf result SearchError.TooManySteps →
            IsStopped (OfSearch (arc_value self.old.regex) self.old.max_steps) No (kind_of_text text.entry) (units_of_text text.entry) start }
        ensures untouched { OnErr result (ranges.new ≡ ranges.old) }
    {
        let found = find_into(
            &self.regex,
            &mut self.scratch,
            text,
            start,
            self.max_steps,
            &mut self.slots,
        )?;
        Ok(self.show(found, ranges))
    }

    /// Finds the match that begins at `start` ("RegExpBuiltinExec" with `y`), as `find` finds one.
    ///
    /// ```rust
    /// let count = search.match_at(Text::Utf8("xaab"), 0, &mut ranges)?; // for `(a+)b` 0, and 2 at the start 1
    /// ```
    pub fn match_at(
        &mut self,
        text: Text<'_>,
        start: usize,
        ranges: &mut [TextRange],
    ) -> Result<usize, SearchError>
        requires kind { IsOfItsKind text }
        requires start { (place : ℕ) × Begins (reading_of_text text) start place }
        ensures found { (t : Table) → (o : Options) → (p : Pattern) → StandsIn text.entry (arc_value self.old.regex) t o p →
            (place : ℕ) → Begins (reading_of_text text.entry) start place →
            IfOk result (λ count. IsAnswerTo (length (names_of_regex (arc_value self.old.regex)))
            (option_map (told (reading_of_text text.entry)) (outcome_at t o p (reading_of_text text.entry).points place))
            ranges.old count ranges.new) }
        ensures few { IfOk result (λ count. count ≤ 65536) }
        ensures kept { (arc_value self.new.regex ≡ arc_value self.old.regex) × (self.new.max_steps ≡ self.old.max_steps) }
        ensures stopped { IsErrOf result SearchError.TooManySteps →
            IsStopped (OfSearch (arc_value self.old.regex) self.old.max_steps) Yes (kind_of_text text.entry) (units_of_text text.entry) start }
        ensures untouched { OnErr result (ranges.new ≡ ranges.old) }
    {
        let found = match_into(
            &self.regex,
            &mut self.scratch,
            text,
            start,
            self.max_steps,
            &mut self.slots,
        )?;
        Ok(self.show(found, ranges))
    }

    /// Finds matches one after another from `*start` on, as many as there is room for, each as `find` finds it: the ranges of match
    /// `k` stand from `ranges[k * width]` on.
    ///
    /// `*found` tells how many there are, and `*start` then tells where the search goes on: past the end where there is no other
    /// match. Asks that a search may begin at `*start`, and that `width` is not 0. Errs as `find` does, where each match may take as
    /// many steps; then both tell of the matches before.
    ///
    /// ```rust
    /// search.find_many(Text::Utf8("aab ab"), &mut start, &mut ranges, 1, &mut found)?; // for `a+b` at 0..3 and 4..6
    /// ```
    pub fn find_many(
        &mut self,
        text: Text<'_>,
        start: &mut usize,
        ranges: &mut [TextRange],
        width: usize,
        found: &mut usize,
    ) -> Result<(), SearchError>
        requires kind { IsOfItsKind text }
        requires start { (place : ℕ) × Begins (reading_of_text text) start.old place }
        requires width { 0 < width }
        ensures found { (t : Table) → (o : Options) → (p : Pattern) → StandsIn text.entry (arc_value self.old.regex) t o p →
            (place : ℕ) → Begins (reading_of_text text.entry) start.old place →
            OnOk result (FoundAsManyAsFit (reading_of_text text.entry) (match_list t o p (reading_of_text text.entry).points)
            (length (names_of_regex (arc_value self.old.regex))) width place found.new start.new ranges.new) }
        ensures before { (t : Table) → (o : Options) → (p : Pattern) → StandsIn text.entry (arc_value self.old.regex) t o p →
            (place : ℕ) → Begins (reading_of_text text.entry) start.old place →
            FoundMany (reading_of_text text.entry) (match_list t o p (reading_of_text text.entry).points)
            (length (names_of_regex (arc_value self.old.regex))) width place found.new start.new ranges.new }
        ensures kept { (arc_value self.new.regex ≡ arc_value self.old.regex) × (self.new.max_steps ≡ self.old.max_steps) }
        ensures stopped { IsErrOf result SearchError.TooManySteps →
            IsStopped (OfSearch (arc_value self.old.regex) self.old.max_steps) No (kind_of_text text.entry) (units_of_text text.entry) start.new }
    {
        match self.max_steps {
            Some(_) => self.find_each(text, start, ranges, width, found),
            None => self.find_all(text, start, ranges, width, found),
        }
    }

    /// Finds matches one after another, as `find_many` does, each by a search of its own.
    fn find_each(
        &mut self,
        text: Text<'_>,
        start: &mut usize,
        ranges: &mut [TextRange],
        width: usize,
        found: &mut usize,
    ) -> Result<(), SearchError>
        requires kind { IsOfItsKind text }
        requires start { (place : ℕ) × Begins (reading_of_text text) start.old place }
        requires width { 0 < width }
        ensures found { (t : Table) → (o : Options) → (p : Pattern) → StandsIn text.entry (arc_value self.old.regex) t o p →
            (place : ℕ) → Begins (reading_of_text text.entry) start.old place →
            OnOk result (FoundAsManyAsFit (reading_of_text text.entry) (match_list t o p (reading_of_text text.entry).points)
            (length (names_of_regex (arc_value self.old.regex))) width place found.new start.new ranges.new) }
        ensures before { (t : Table) → (o : Options) → (p : Pattern) → StandsIn text.entry (arc_value self.old.regex) t o p →
            (place : ℕ) → Begins (reading_of_text text.entry) start.old place →
            FoundMany (reading_of_text text.entry) (match_list t o p (reading_of_text text.entry).points)
            (length (names_of_regex (arc_value self.old.regex))) width place found.new start.new ranges.new }
        ensures kept { (arc_value self.new.regex ≡ arc_value self.old.regex) × (self.new.max_steps ≡ self.old.max_steps) }
        ensures stopped { IsErrOf result SearchError.TooManySteps →
            IsStopped (OfSearch (arc_value self.old.regex) self.old.max_steps) No (kind_of_text text.entry) (units_of_text text.entry) start.new }
    {
        *found = 0;
        let room = ranges.len() / width;
        while *found < room {
            let at = *found * width;
            if !self.find_next(text, start, &mut ranges[at..at + width])? {
                return Ok(());
            }
            *found += 1;
        }
        Ok(())
    }

    /// Finds matches one after another, as `find_many` does where there is no bound, all by one searcher.
    fn find_all(
        &mut self,
        text: Text<'_>,
        start: &mut usize,
        ranges: &mut [TextRange],
        width: usize,
        found: &mut usize,
    ) -> Result<(), SearchError>
        requires start { (place : ℕ) × Begins (reading_of_text text) start.old place }
        requires width { 0 < width }
        ensures found { (t : Table) → (o : Options) → (p : Pattern) → StandsIn text.entry (arc_value self.old.regex) t o p →
            (place : ℕ) → Begins (reading_of_text text.entry) start.old place →
            OnOk result (FoundAsManyAsFit (reading_of_text text.entry) (match_list t o p (reading_of_text text.entry).points)
            (length (names_of_regex (arc_value self.old.regex))) width place found.new start.new ranges.new) }
        ensures before { (t : Table) → (o : Options) → (p : Pattern) → StandsIn text.entry (arc_value self.old.regex) t o p →
            (place : ℕ) → Begins (reading_of_text text.entry) start.old place →
            FoundMany (reading_of_text text.entry) (match_list t o p (reading_of_text text.entry).points)
            (length (names_of_regex (arc_value self.old.regex))) width place found.new start.new ranges.new }
        ensures kept { (arc_value self.new.regex ≡ arc_value self.old.regex) × (self.new.max_steps ≡ self.old.max_steps) }
        ensures refused { IsOkUnless result SearchError.OutOfMemory }
    {
        let lent = mem::replace(&mut self.scratch, Scratch::new(self.alloc));
        let (scratch, done) = many_in(
            self.alloc,
            &self.regex,
            lent,
            text,
            &mut self.slots,
            start,
            ranges,
            width,
            found,
        );
        self.scratch = scratch;
        match done {
            Ok(()) => Ok(()),
            Err(_) => Err(SearchError::OutOfMemory),
        }
    }

    /// Finds the first match from `*start` on, writes its ranges as `find` does, and moves `*start` behind it; where there is
    /// none, past the end.
    fn find_next(
        &mut self,
        text: Text<'_>,
        start: &mut usize,
        ranges: &mut [TextRange],
    ) -> Result<bool, SearchError>
        requires kind { IsOfItsKind text }
        requires start { (place : ℕ) × Begins (reading_of_text text) start.old place }
        ensures found { (t : Table) → (o : Options) → (p : Pattern) → StandsIn text.entry (arc_value self.old.regex) t o p →
            (place : ℕ) → Begins (reading_of_text text.entry) start.old place →
            IfOk result (λ found. IsNext (reading_of_text text.entry) (match_list t o p (reading_of_text text.entry).points)
            (length (names_of_regex (arc_value self.old.regex))) place found start.new ranges.new) }
        ensures start { (place : ℕ) × Begins (reading_of_text text.entry) start.new place }
        ensures kept { (arc_value self.new.regex ≡ arc_value self.old.regex) × (self.new.max_steps ≡ self.old.max_steps) }
        ensures stopped { IsErrOf result SearchError.TooManySteps →
            IsStopped (OfSearch (arc_value self.old.regex) self.old.max_steps) No (kind_of_text text.entry) (units_of_text text.entry) start.old }
        ensures untouched { OnErr result (start.new ≡ start.old) }
    {
        let found = find_into(
            &self.regex,
            &mut self.scratch,
            text,
            *start,
            self.max_steps,
            &mut self.slots,
        )?;
        *start = text.start_behind(&found);
        Ok(self.show(found, ranges) > 0)
    }

    /// Shows the ranges of the match that stand in the slots, if one was found, and tells how many it has.
    fn show(&self, found: Option<Range>, ranges: &mut [TextRange]) -> usize
        ensures shown { (i : Option Item) → (old : List (Option (Ends ℕ))) → IsInSlots i old found self.now.slots.items →
            IsAnswerTo (length (names_of_regex (arc_value self.now.regex))) i ranges.old result ranges.new }
        ensures few { result ≤ 65536 }
    {
        show(found, &self.slots, ranges)
    }
}
