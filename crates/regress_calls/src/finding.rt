//! Searches that write to slots of their caller, by the kind of a text, in so many steps where there is a bound.
ghost use Rattle.std.specs.Prelude.{◌≡◌, ℕ, IfOk, IsErrOf, IsOkUnless, Some, option_map, slice_get};
ghost use Rattle.regress_meaning.specs.Flags.{Options};
ghost use Rattle.regress_meaning.specs.Matches.{match_list};
ghost use Rattle.regress_meaning.specs.Offsets.{told, Begins};
ghost use Rattle.regress_meaning.specs.Pattern.{Pattern};
ghost use Rattle.regress_meaning.specs.Table.{Table};
ghost use Rattle.regress_programs.specs.declared.slots.Anchored.TheVariants.{No, Yes};
ghost use Rattle.regress.specs.Outcomes.{outcome_at};
ghost use Rattle.regress_calls.specs.Handles.{OfSearch};
ghost use Rattle.regress_calls.specs.Slotted.{IsInSlots};
ghost use Rattle.regress_calls.specs.Stopping.{IsStopped};
ghost use Rattle.regress_calls.specs.Texts.{reading_of_text, kind_of_text, units_of_text, EndsAtStart, IsOfItsKind, StandsIn};

use crate::text::Text;
use regress::{Error, Range, Regex, Scratch, SearchError};

/// The first match from `start` on, in as many steps as it takes.
fn find_at_length(
    regex: &Regex,
    scratch: &mut Scratch,
    text: Text<'_>,
    start: usize,
    slots: &mut [Option<Range>],
) -> Result<Option<Range>, Error>
    requires kind { IsOfItsKind text }
    requires start { (place : ℕ) × Begins (reading_of_text text) start place }
    ensures found { (t : Table) → (o : Options) → (p : Pattern) → StandsIn text.entry regex.now t o p →
        (place : ℕ) → Begins (reading_of_text text.entry) start place →
        IfOk result (λ found. IsInSlots (option_map (told (reading_of_text text.entry)) (slice_get (match_list t o p (reading_of_text text.entry).points place) 0)) slots.old found slots.new) }
    ensures ends { IfOk result (EndsAtStart (reading_of_text text.entry)) }
    ensures refused { IsOkUnless result Error.OutOfMemory }
{
    match text {
        Text::Utf8(text) => regex.find_into(scratch, text, start, slots),
        Text::Ascii(text) => regex.find_into(scratch, text, start, slots),
        Text::Utf16(units) => regex.find_into_utf16(scratch, units, start, slots),
        Text::Ucs2(units) => regex.find_into_ucs2(scratch, units, start, slots),
    }
}

/// The first match from `start` on, in so many steps.
fn find_within(
    regex: &Regex,
    scratch: &mut Scratch,
    text: Text<'_>,
    start: usize,
    steps: usize,
    slots: &mut [Option<Range>],
) -> Result<Option<Range>, SearchError>
    requires kind { IsOfItsKind text }
    requires start { (place : ℕ) × Begins (reading_of_text text) start place }
    ensures found { (t : Table) → (o : Options) → (p : Pattern) → StandsIn text.entry regex.now t o p →
        (place : ℕ) → Begins (reading_of_text text.entry) start place →
        IfOk result (λ found. IsInSlots (option_map (told (reading_of_text text.entry)) (slice_get (match_list t o p (reading_of_text text.entry).points place) 0)) slots.old found slots.new) }
    ensures ends { IfOk result (EndsAtStart (reading_of_text text.entry)) }
    ensures stopped { IsErrOf result SearchError.TooManySteps →
        IsStopped (OfSearch regex.now (Some steps)) No (kind_of_text text.entry) (units_of_text text.entry) start }
{
    let bounded = regex.within(steps);
    match text {
        Text::Utf8(text) => bounded.find_into(scratch, text, start, slots),
        Text::Ascii(text) => bounded.find_into(scratch, text, start, slots),
        Text::Utf16(units) => bounded.find_into_utf16(scratch, units, start, slots),
        Text::Ucs2(units) => bounded.find_into_ucs2(scratch, units, start, slots),
    }
}

/// The first match from `start` on, in so many steps where there is a bound.
pub(crate) fn find_into(
    regex: &Regex,
    scratch: &mut Scratch,
    text: Text<'_>,
    start: usize,
    max_steps: Option<usize>,
    slots: &mut [Option<Range>],
) -> Result<Option<Range>, SearchError>
    requires kind { IsOfItsKind text }
    requires start { (place : ℕ) × Begins (reading_of_text text) start place }
    ensures found { (t : Table) → (o : Options) → (p : Pattern) → StandsIn text.entry regex.now t o p →
        (place : ℕ) → Begins (reading_of_text text.entry) start place →
        IfOk result (λ found. IsInSlots (option_map (told (reading_of_text text.entry)) (slice_get (match_list t o p (reading_of_text text.entry).points place) 0)) slots.old found slots.new) }
    ensures ends { IfOk result (EndsAtStart (reading_of_text text.entry)) }
    ensures stopped { IsErrOf result SearchError.TooManySteps →
        IsStopped (OfSearch regex.now max_steps) No (kind_of_text text.entry) (units_of_text text.entry) start }
{
    match max_steps {
        Some(steps) => find_within(regex, scratch, text, start, steps, slots),
        None => match find_at_length(regex, scratch, text, start, slots) {
            Ok(found) => Ok(found),
            Err(_) => Err(SearchError::OutOfMemory),
        },
    }
}

/// The match that begins at `start`, in as many steps as it takes.
fn match_at_length(
    regex: &Regex,
    scratch: &mut Scratch,
    text: Text<'_>,
    start: usize,
    slots: &mut [Option<Range>],
) -> Result<Option<Range>, Error>
    requires kind { IsOfItsKind text }
    requires start { (place : ℕ) × Begins (reading_of_text text) start place }
    ensures found { (t : Table) → (o : Options) → (p : Pattern) → StandsIn text.entry regex.now t o p →
        (place : ℕ) → Begins (reading_of_text text.entry) start place →
        IfOk result (λ found. IsInSlots (option_map (told (reading_of_text text.entry)) (outcome_at t o p (reading_of_text text.entry).points place)) slots.old found slots.new) }
    ensures refused { IsOkUnless result Error.OutOfMemory }
{
    match text {
        Text::Utf8(text) => regex.match_into(scratch, text, start, slots),
        Text::Ascii(text) => regex.match_into(scratch, text, start, slots),
        Text::Utf16(units) => regex.match_into_utf16(scratch, units, start, slots),
        Text::Ucs2(units) => regex.match_into_ucs2(scratch, units, start, slots),
    }
}

/// The match that begins at `start`, in so many steps.
fn match_within(
    regex: &Regex,
    scratch: &mut Scratch,
    text: Text<'_>,
    start: usize,
    steps: usize,
    slots: &mut [Option<Range>],
) -> Result<Option<Range>, SearchError>
    requires kind { IsOfItsKind text }
    requires start { (place : ℕ) × Begins (reading_of_text text) start place }
    ensures found { (t : Table) → (o : Options) → (p : Pattern) → StandsIn text.entry regex.now t o p →
        (place : ℕ) → Begins (reading_of_text text.entry) start place →
        IfOk result (λ found. IsInSlots (option_map (told (reading_of_text text.entry)) (outcome_at t o p (reading_of_text text.entry).points place)) slots.old found slots.new) }
    ensures stopped { IsErrOf result SearchError.TooManySteps →
        IsStopped (OfSearch regex.now (Some steps)) Yes (kind_of_text text.entry) (units_of_text text.entry) start }
{
    let bounded = regex.within(steps);
    match text {
        Text::Utf8(text) => bounded.match_into(scratch, text, start, slots),
        Text::Ascii(text) => bounded.match_into(scratch, text, start, slots),
        Text::Utf16(units) => bounded.match_into_utf16(scratch, units, start, slots),
        Text::Ucs2(units) => bounded.match_into_ucs2(scratch, units, start, slots),
    }
}

/// The match that begins at `start`, in so many steps where there is a bound.
pub(crate) fn match_into(
    regex: &Regex,
    scratch: &mut Scratch,
    text: Text<'_>,
    start: usize,
    max_steps: Option<usize>,
    slots: &mut [Option<Range>],
) -> Result<Option<Range>, SearchError>
    requires kind { IsOfItsKind text }
    requires start { (place : ℕ) × Begins (reading_of_text text) start place }
    ensures found { (t : Table) → (o : Options) → (p : Pattern) → StandsIn text.entry regex.now t o p →
        (place : ℕ) → Begins (reading_of_text text.entry) start place →
        IfOk result (λ found. IsInSlots (option_map (told (reading_of_text text.entry)) (outcome_at t o p (reading_of_text text.entry).points place)) slots.old found slots.new) }
    ensures stopped { IsErrOf result SearchError.TooManySteps →
        IsStopped (OfSearch regex.now max_steps) Yes (kind_of_text text.entry) (units_of_text text.entry) start }
{
    match max_steps {
        Some(steps) => match_within(regex, scratch, text, start, steps, slots),
        None => match match_at_length(regex, scratch, text, start, slots) {
            Ok(found) => Ok(found),
            Err(_) => Err(SearchError::OutOfMemory),
        },
    }
}
