//! Calls on handles: what is held is taken out, asked, and put back.
ghost use Rattle.std.specs.Prelude.{◌≡◌, ◌≢◌, ◌≤◌, ◌↔◌, ◌⊎◌, ℕ, [], Option, IfOk, IfErr, IsTrue, OnErr, OnOk, Some, length, option_map, slice_get};
ghost use Rattle.regress_meaning.specs.Flags.{Options};
ghost use Rattle.regress_meaning.specs.Matches.{match_list};
ghost use Rattle.regress_meaning.specs.Offsets.{told, Begins};
ghost use Rattle.regress_meaning.specs.Pattern.{Pattern};
ghost use Rattle.regress_meaning.specs.Table.{Table};
ghost use Rattle.regress_programs.specs.declared.slots.Anchored.TheVariants.{No, Yes};
ghost use Rattle.regress.specs.declared.api.Regex.{Regex as RegexValue};
ghost use Rattle.regress.specs.Outcomes.{outcome_at};
ghost use Rattle.regress.specs.Standing.{names_of_regex};
ghost use Rattle.regress_calls.specs.Handles.{OfSearch, Nothing, content};
ghost use Rattle.regress_calls.specs.Ranges.{IsAnswerTo};
ghost use Rattle.regress_calls.specs.Many.{FoundAsManyAsFit, FoundMany};
ghost use Rattle.regress_calls.specs.Refusals.{MayRefuseBound, MayRefuseMany, MayRefuseSearch};
ghost use Rattle.regress_calls.specs.Stopping.{bound_of};
ghost use Rattle.regress_calls.specs.Texts.{reading_of_text, kind_of_text, units_of_text, IsOfItsKind, StandsIn};

use crate::held::Held;
use crate::slot::Slot;
use crate::text::Text;
use crate::text_range::TextRange;
use regress_call_errors::CallError;
use std::alloc::Global;

/// Frees what a handle holds, if it holds anything.
pub fn free(alloc: Global, slot: &mut Slot)
    ensures { content slot.new.held ≡ Nothing }
{
    drop(slot.take(alloc));
}

/// The bound that a number of steps stands for: the greatest number there is stands for none.
fn bound(steps: usize) -> Option<usize>
    ensures { result ≡ bound_of steps }
{
    if steps < usize::MAX {
        Some(steps)
    } else {
        None
    }
}

/// Bounds the steps of the search that is held.
fn bound_held(held: &mut Held, steps: usize) -> Result<(), CallError>
    ensures set { (r : RegexValue) → (bound : Option ℕ) → content (Some held.old) ≡ OfSearch r bound →
        (result ≡ Ok tt) × (content (Some held.new) ≡ OfSearch r (bound_of steps)) }
    ensures refused { IfErr result (MayRefuseBound (content (Some held.old))) }
    ensures untouched { OnErr result (content (Some held.new) ≡ content (Some held.old)) }
{
    match held {
        Held::Search(search) => {
            search.set_max_steps(bound(steps));
            Ok(())
        }
        _ => Err(CallError::WrongHandle),
    }
}

/// Bounds how many steps the search for a match may take by the search that a handle holds; the greatest number takes the bound
/// away. Refused as `WrongHandle` where it holds no search.
pub fn set_max_steps(alloc: Global, slot: &mut Slot, steps: usize) -> Result<(), CallError>
    ensures set { (r : RegexValue) → (bound : Option ℕ) → content slot.old.held ≡ OfSearch r bound →
        (result ≡ Ok tt) × (content slot.new.held ≡ OfSearch r (bound_of steps)) }
    ensures refused { IfErr result (MayRefuseBound (content slot.old.held)) }
    ensures untouched { OnErr result (content slot.new.held ≡ content slot.old.held) }
{
    let mut held = slot.take(alloc).ok_or(CallError::WrongHandle)?;
    let done = bound_held(&mut held, steps);
    slot.put(alloc, held);
    done
}

/// Finds the first match from `start` on, by the search that is held.
fn find_held(
    held: &mut Held,
    text: Text<'_>,
    start: usize,
    ranges: &mut [TextRange],
) -> Result<usize, CallError>
    requires kind { IsOfItsKind text }
    requires start { (place : ℕ) × Begins (reading_of_text text) start place }
    ensures found { (r : RegexValue) → (bound : Option ℕ) → content (Some held.old) ≡ OfSearch r bound →
        (t : Table) → (o : Options) → (p : Pattern) → StandsIn text.entry r t o p →
        (place : ℕ) → Begins (reading_of_text text.entry) start place →
        IfOk result (λ count. IsAnswerTo (length (names_of_regex r))
        (option_map (told (reading_of_text text.entry)) (slice_get (match_list t o p (reading_of_text text.entry).points place) 0))
        ranges.old count ranges.new) }
    ensures few { IfOk result (λ count. count ≤ 65536) }
    ensures kept { content (Some held.new) ≡ content (Some held.old) }
    ensures refused { IfErr result (MayRefuseSearch (content (Some held.old)) No (kind_of_text text.entry) (units_of_text text.entry) start) }
    ensures untouched { OnErr result (ranges.new ≡ ranges.old) }
{
    match held {
        Held::Search(search) => Ok(search.find(text, start, ranges)?),
        _ => Err(CallError::WrongHandle),
    }
}

/// Finds the first match in a text from `start` on, by the search that a handle holds, as `Search::find` does.
///
/// Refused as `WrongHandle` where it holds no search, as `BadStart` where no search may begin there, as `OutOfMemory`, and as
/// `TooManySteps` where the search would take more steps than it may.
pub fn find(
    alloc: Global,
    slot: &mut Slot,
    text: Text<'_>,
    start: usize,
    ranges: &mut [TextRange],
) -> Result<usize, CallError>
    requires { IsOfItsKind text }
    ensures found { (r : RegexValue) → (bound : Option ℕ) → content slot.old.held ≡ OfSearch r bound →
        (t : Table) → (o : Options) → (p : Pattern) → StandsIn text.entry r t o p →
        (place : ℕ) → Begins (reading_of_text text.entry) start place →
        IfOk result (λ count. IsAnswerTo (length (names_of_regex r))
        (option_map (told (reading_of_text text.entry)) (slice_get (match_list t o p (reading_of_text text.entry).points place) 0))
        ranges.old count ranges.new) }
    ensures few { IfOk result (λ count. count ≤ 65536) }
    ensures kept { content slot.new.held ≡ content slot.old.held }
    ensures refused { IfErr result (MayRefuseSearch (content slot.old.held) No (kind_of_text text.entry) (units_of_text text.entry) start) }
    ensures untouched { OnErr result (ranges.new ≡ ranges.old) }
{
    if !text.is_start(start) {
        return Err(CallError::BadStart);
    }
    let mut held = slot.take(alloc).ok_or(CallError::WrongHandle)?;
    let found = find_held(&mut held, text, start, ranges);
    slot.put(alloc, held);
    found
}

/// Finds the match that begins at `start`, by the search that is held.
fn match_at_held(
    held: &mut Held,
    text: Text<'_>,
    start: usize,
    ranges: &mut [TextRange],
) -> Result<usize, CallError>
    requires kind { IsOfItsKind text }
    requires start { (place : ℕ) × Begins (reading_of_text text) start place }
    ensures found { (r : RegexValue) → (bound : Option ℕ) → content (Some held.old) ≡ OfSearch r bound →
        (t : Table) → (o : Options) → (p : Pattern) → StandsIn text.entry r t o p →
        (place : ℕ) → Begins (reading_of_text text.entry) start place →
        IfOk result (λ count. IsAnswerTo (length (names_of_regex r))
        (option_map (told (reading_of_text text.entry)) (outcome_at t o p (reading_of_text text.entry).points place))
        ranges.old count ranges.new) }
    ensures few { IfOk result (λ count. count ≤ 65536) }
    ensures kept { content (Some held.new) ≡ content (Some held.old) }
    ensures refused { IfErr result (MayRefuseSearch (content (Some held.old)) Yes (kind_of_text text.entry) (units_of_text text.entry) start) }
    ensures untouched { OnErr result (ranges.new ≡ ranges.old) }
{
    match held {
        Held::Search(search) => Ok(search.match_at(text, start, ranges)?),
        _ => Err(CallError::WrongHandle),
    }
}

/// Finds the match that begins at `start`, by the search that a handle holds, as `Search::match_at` does. Refused as `find` is.
pub fn match_at(
    alloc: Global,
    slot: &mut Slot,
    text: Text<'_>,
    start: usize,
    ranges: &mut [TextRange],
) -> Result<usize, CallError>
    requires { IsOfItsKind text }
    ensures found { (r : RegexValue) → (bound : Option ℕ) → content slot.old.held ≡ OfSearch r bound →
        (t : Table) → (o : Options) → (p : Pattern) → StandsIn text.entry r t o p →
        (place : ℕ) → Begins (reading_of_text text.entry) start place →
        IfOk result (λ count. IsAnswerTo (length (names_of_regex r))
        (option_map (told (reading_of_text text.entry)) (outcome_at t o p (reading_of_text text.entry).points place))
        ranges.old count ranges.new) }
    ensures few { IfOk result (λ count. count ≤ 65536) }
    ensures kept { content slot.new.held ≡ content slot.old.held }
    ensures refused { IfErr result (MayRefuseSearch (content slot.old.held) Yes (kind_of_text text.entry) (units_of_text text.entry) start) }
    ensures untouched { OnErr result (ranges.new ≡ ranges.old) }
{
    if !text.is_start(start) {
        return Err(CallError::BadStart);
    }
    let mut held = slot.take(alloc).ok_or(CallError::WrongHandle)?;
    let found = match_at_held(&mut held, text, start, ranges);
    slot.put(alloc, held);
    found
}

/// Whether there is a match in a text from `start` on, by the search that a handle holds. Refused as `find` is.
pub fn is_match(
    alloc: Global,
    slot: &mut Slot,
    text: Text<'_>,
    start: usize,
) -> Result<bool, CallError>
    requires { IsOfItsKind text }
    ensures found { (r : RegexValue) → (bound : Option ℕ) → content slot.old.held ≡ OfSearch r bound →
        (t : Table) → (o : Options) → (p : Pattern) → StandsIn text.entry r t o p →
        (place : ℕ) → Begins (reading_of_text text.entry) start place →
        IfOk result (λ found. IsTrue found ↔ (match_list t o p (reading_of_text text.entry).points place ≢ [])) }
    ensures kept { content slot.new.held ≡ content slot.old.held }
    ensures refused { IfErr result (MayRefuseSearch (content slot.old.held) No (kind_of_text text.entry) (units_of_text text.entry) start) }
{
    let count = find(alloc, slot, text, start, &mut [])?;
    Ok(count > 0)
}

/// Finds matches one after another, by the search that a handle holds, as `Search::find_many` does.
///
/// Refused as `NoRoom` where a match takes no range, or more than there are, and else as `find` is.
pub fn find_many(
    alloc: Global,
    slot: &mut Slot,
    text: Text<'_>,
    start: &mut usize,
    ranges: &mut [TextRange],
    width: usize,
    found: &mut usize,
) -> Result<(), CallError>
    requires { IsOfItsKind text }
    ensures found { (r : RegexValue) → (bound : Option ℕ) → content slot.old.held ≡ OfSearch r bound →
        (t : Table) → (o : Options) → (p : Pattern) → StandsIn text.entry r t o p →
        (place : ℕ) → Begins (reading_of_text text.entry) start.old place →
        OnOk result (FoundAsManyAsFit (reading_of_text text.entry) (match_list t o p (reading_of_text text.entry).points)
        (length (names_of_regex r)) width place found.new start.new ranges.new) }
    ensures before { (r : RegexValue) → (bound : Option ℕ) → content slot.old.held ≡ OfSearch r bound →
        (t : Table) → (o : Options) → (p : Pattern) → StandsIn text.entry r t o p →
        (place : ℕ) → Begins (reading_of_text text.entry) start.old place →
        (result ≡ Err CallError.OutOfMemory) ⊎ (result ≡ Err CallError.TooManySteps) → FoundMany (reading_of_text text.entry) (match_list t o p (reading_of_text text.entry).points)
        (length (names_of_regex r)) width place found.new start.new ranges.new }
    ensures kept { content slot.new.held ≡ content slot.old.held }
    ensures refused { IfErr result (MayRefuseMany (content slot.old.held) (kind_of_text text.entry) (units_of_text text.entry) start.old start.new (length ranges.old) width) }
{
    if width == 0 || width > ranges.len() {
        return Err(CallError::NoRoom);
    }
    if !text.is_start(*start) {
        return Err(CallError::BadStart);
    }
    let mut held = slot.take(alloc).ok_or(CallError::WrongHandle)?;
    let done = match &mut *held {
        Held::Search(search) => search
            .find_many(text, start, ranges, width, found)
            .map_err(CallError::from),
        _ => Err(CallError::WrongHandle),
    };
    slot.put(alloc, held);
    done
}
