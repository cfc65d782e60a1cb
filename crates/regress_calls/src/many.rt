//! Searches for many matches with one searcher.
ghost use Rattle.std.specs.Prelude.{◌≡◌, ◌+◌, ◌<◌, ℕ, length, IfOk, OnErr, OnOk};
ghost use Rattle.regress_meaning.specs.Flags.{Options};
ghost use Rattle.regress_meaning.specs.Matches.{match_list};
ghost use Rattle.regress_meaning.specs.Offsets.{Begins};
ghost use Rattle.regress_meaning.specs.Pattern.{Pattern};
ghost use Rattle.regress_meaning.specs.Table.{Table};
ghost use Rattle.regress_programs.specs.Searchers.{SearchesFor, program_by, reading_by};
ghost use Rattle.regress_calls.specs.Many.{FoundAsManyAsFit, FoundMany, IsNext};
ghost use Rattle.regress_calls.specs.Texts.{reading_of_text, StandsIn};

use crate::text::Text;
use crate::text_range::{TextRange, show};
use regress::{Range, Regex, Scratch, Searcher};
use regress_engine_exec::ExecutorInput;
use std::alloc::{AllocError, Global};

/// Finds the first match from `*start` on, shows its ranges, and moves `*start` behind it; where there is none, past the end.
fn next_by<Input: ExecutorInput>(
    searcher: &mut Searcher<'_, Input>,
    text: Text<'_>,
    slots: &mut [Option<Range>],
    start: &mut usize,
    ranges: &mut [TextRange],
) -> Result<bool, AllocError>
    requires over { reading_by searcher.old ≡ reading_of_text text }
    requires start { (place : ℕ) × Begins (reading_of_text text) start.old place }
    ensures found { (t : Table) → (o : Options) → (p : Pattern) → SearchesFor searcher.old t o p → (groups : ℕ) → length slots.old ≡ groups + 1 →
        (place : ℕ) → Begins (reading_of_text text.entry) start.old place →
        IfOk result (λ found. IsNext (reading_of_text text.entry) (match_list t o p (reading_of_text text.entry).points) groups place found start.new ranges.new) }
    ensures start { (place : ℕ) × Begins (reading_of_text text.entry) start.new place }
    ensures kept { (program_by searcher.new ≡ program_by searcher.old) × (reading_by searcher.new ≡ reading_by searcher.old) }
    ensures untouched { OnErr result (start.new ≡ start.old) }
{
    let found = searcher.find_into(*start, slots)?;
    *start = text.start_behind(&found);
    Ok(show(found, slots, ranges) > 0)
}

/// Finds matches one after another, as `Search::find_many` does, by a searcher of the text.
fn many_by<Input: ExecutorInput>(
    searcher: &mut Searcher<'_, Input>,
    text: Text<'_>,
    slots: &mut [Option<Range>],
    start: &mut usize,
    ranges: &mut [TextRange],
    width: usize,
    found: &mut usize,
) -> Result<(), AllocError>
    requires over { reading_by searcher.old ≡ reading_of_text text }
    requires start { (place : ℕ) × Begins (reading_of_text text) start.old place }
    requires width { 0 < width }
    ensures found { (t : Table) → (o : Options) → (p : Pattern) → SearchesFor searcher.old t o p → (groups : ℕ) → length slots.old ≡ groups + 1 →
        (place : ℕ) → Begins (reading_of_text text.entry) start.old place →
        OnOk result (FoundAsManyAsFit (reading_of_text text.entry) (match_list t o p (reading_of_text text.entry).points) groups width place found.new start.new ranges.new) }
    ensures before { (t : Table) → (o : Options) → (p : Pattern) → SearchesFor searcher.old t o p → (groups : ℕ) → length slots.old ≡ groups + 1 →
        (place : ℕ) → Begins (reading_of_text text.entry) start.old place →
        FoundMany (reading_of_text text.entry) (match_list t o p (reading_of_text text.entry).points) groups width place found.new start.new ranges.new }
{
    *found = 0;
    let room = ranges.len() / width;
    while *found < room {
        let at = *found * width;
        if !next_by(searcher, text, slots, start, &mut ranges[at..at + width])? {
            return Ok(());
        }
        *found += 1;
    }
    Ok(())
}

/// Finds matches one after another, as `Search::find_many` does, by one searcher of the regex for the kind of the text, and gives its
/// room back.
pub(crate) fn many_in(
    alloc: Global,
    regex: &Regex,
    scratch: Scratch,
    text: Text<'_>,
    slots: &mut [Option<Range>],
    start: &mut usize,
    ranges: &mut [TextRange],
    width: usize,
    found: &mut usize,
) -> (Scratch, Result<(), AllocError>)
    requires start { (place : ℕ) × Begins (reading_of_text text) start.old place }
    requires width { 0 < width }
    ensures found { (t : Table) → (o : Options) → (p : Pattern) → StandsIn text.entry regex.now t o p → (groups : ℕ) → length slots.old ≡ groups + 1 →
        (place : ℕ) → Begins (reading_of_text text.entry) start.old place →
        OnOk result.1 (FoundAsManyAsFit (reading_of_text text.entry) (match_list t o p (reading_of_text text.entry).points) groups width place found.new start.new ranges.new) }
    ensures before { (t : Table) → (o : Options) → (p : Pattern) → StandsIn text.entry regex.now t o p → (groups : ℕ) → length slots.old ≡ groups + 1 →
        (place : ℕ) → Begins (reading_of_text text.entry) start.old place →
        FoundMany (reading_of_text text.entry) (match_list t o p (reading_of_text text.entry).points) groups width place found.new start.new ranges.new }
{
    match text {
        Text::Utf8(bytes) => {
            let mut by = Searcher::over_utf8(alloc, regex.compiled(), scratch, bytes);
            let done = many_by(&mut by, text, slots, start, ranges, width, found);
            (by.into_scratch(), done)
        }
        Text::Ascii(bytes) => {
            let mut by = Searcher::over_utf8(alloc, regex.compiled(), scratch, bytes);
            let done = many_by(&mut by, text, slots, start, ranges, width, found);
            (by.into_scratch(), done)
        }
        Text::Utf16(units) => {
            let mut by = Searcher::over_utf16(alloc, regex.compiled(), scratch, units);
            let done = many_by(&mut by, text, slots, start, ranges, width, found);
            (by.into_scratch(), done)
        }
        Text::Ucs2(units) => {
            let mut by = Searcher::over_ucs2(alloc, regex.compiled(), scratch, units);
            let done = many_by(&mut by, text, slots, start, ranges, width, found);
            (by.into_scratch(), done)
        }
    }
}
