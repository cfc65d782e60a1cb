//! The calls of `regress`, each in a function of its own that promises nothing, so that what calls it has little to prove.
//! Where memory is refused they err with `AllocError`.
ghost use Rattle.std.specs.Iterator.{IsFinite};

use conformance_rows::{Pattern, push_span};
use regress::backends::{self, DefaultExecutor, PikeVMExecutor, Utf8Input};
use regress::{
    CompiledRegex, Error, Flags, Match, Range, Regex, Scratch, SearchError, Tables,
    are_code_points, is_ascii_text, is_start, is_unit_start,
};
use regress_engine_inputs::{Ucs2Input, Utf16Input};
use std::alloc::{AllocError, Global};

/// The executor that copies.
type Copying<'t> = PikeVMExecutor<'t, Utf8Input<'t, 't>>;

/// Adds a match, parted from one that stands before it.
pub(crate) fn push_match(told: &mut String, found: &Match) -> Result<(), AllocError> {
    if !told.is_empty() {
        told.push('|')?;
    }
    push_span(told, found.range.start, found.range.end)?;
    for group in &found.captures {
        match group {
            Some(range) => {
                told.push(' ')?;
                push_span(told, range.start, range.end)?;
            }
            None => told.push_str(" -")?,
        }
    }
    Ok(())
}

/// All matches that a search gives. An error of the search is one of memory.
fn listed<I: Iterator<Item = Result<Match, Error>>>(
    alloc: Global,
    matches: I,
) -> Result<String, AllocError>
    requires can { I.can_next matches }
    requires ends { IsFinite (I.remaining matches) }
{
    let mut told = String::new(alloc);
    for found in matches {
        let Ok(found) = found else {
            return Err(AllocError);
        };
        push_match(&mut told, &found)?;
    }
    Ok(told)
}

/// A pattern that is given as a text.
pub(crate) fn compiled(
    alloc: Global,
    pattern: &str,
    flags: Flags,
    tables: &Tables,
) -> Result<Regex, Error> {
    Regex::with_flags(alloc, pattern, flags, tables)
}

/// A pattern that has to match a whole text.
pub(crate) fn whole_text(
    alloc: Global,
    pattern: &str,
    flags: Flags,
    tables: &Tables,
) -> Result<Regex, Error> {
    Regex::whole_text(alloc, pattern, flags, tables)
}

/// The same, written as a pattern.
pub(crate) fn between_ends(
    alloc: Global,
    pattern: &str,
    flags: Flags,
    tables: &Tables,
) -> Result<Regex, Error> {
    let written = format!(in alloc; "(?-m:^)(?:{pattern})(?-m:$)")?;
    compiled(alloc, written.as_str(), flags, tables)
}

/// A pattern that is given as code points.
pub(crate) fn compiled_points(
    alloc: Global,
    points: &[u32],
    flags: Flags,
    tables: &Tables,
) -> Result<Regex, Error> {
    if !are_code_points(points) {
        return Err(Error::OutOfMemory);
    }
    Regex::from_unicode(alloc, points, flags, tables)
}

/// The regex of the programs that a pattern's tree becomes as it is read.
pub(crate) fn of_programs(
    alloc: Global,
    pattern: &Pattern,
    flags: Flags,
    tables: &Tables,
) -> Result<Regex, Error> {
    let points = &pattern.points;
    if !are_code_points(points) {
        return Err(Error::OutOfMemory);
    }
    if pattern.whole {
        let tree = backends::try_parse_whole_text(alloc, points, flags, tables)?;
        let of_bytes = backends::emit(alloc, &tree)?;
        let of_units = backends::emit_units(alloc, &tree)?;
        return Ok(Regex::from_programs(alloc, of_bytes, of_units));
    }
    let tree = backends::try_parse(alloc, points, flags, tables)?;
    let of_bytes = backends::emit(alloc, &tree)?;
    let of_units = backends::emit_units(alloc, &tree)?;
    Ok(Regex::from_programs(alloc, of_bytes, of_units))
}

/// The matches by `find_from`; behind the last nothing may come.
pub(crate) fn default_matches(
    alloc: Global,
    regex: &Regex,
    text: &str,
    start: usize,
) -> Result<String, AllocError> {
    if !is_start(text, start) {
        return String::from_str(alloc, "no start");
    }
    let Ok(mut matches) = regex.find_from(text, start) else {
        return Err(AllocError);
    };
    let mut told = String::new(alloc);
    while let Some(found) = matches.next() {
        let Ok(found) = found else {
            return Err(AllocError);
        };
        push_match(&mut told, &found)?;
    }
    if matches.next().is_some() {
        told.push_str(" and more")?;
    }
    Ok(told)
}

/// The matches by `find_from` of a pattern that may take so many steps.
pub(crate) fn bounded_matches(
    alloc: Global,
    regex: &Regex,
    text: &str,
    start: usize,
    steps: usize,
) -> Result<String, AllocError> {
    if !is_start(text, start) {
        return String::from_str(alloc, "no start");
    }
    let Ok(matches) = regex.within(steps).find_from(text, start) else {
        return Err(AllocError);
    };
    let mut told = String::new(alloc);
    for found in matches {
        match found {
            Ok(found) => push_match(&mut told, &found)?,
            Err(SearchError::TooManySteps) => told.push_str(" and too many steps")?,
            Err(SearchError::OutOfMemory) => return Err(AllocError),
        }
    }
    Ok(told)
}

/// The matches by the executor that undoes.
pub(crate) fn undoing_matches<'t>(
    alloc: Global,
    regex: &'t Regex,
    text: &'t str,
    start: usize,
) -> Result<String, AllocError> {
    if !is_start(text, start) {
        return String::from_str(alloc, "no start");
    }
    listed(
        alloc,
        backends::find::<DefaultExecutor<'t>>(regex, text, start)?,
    )
}

/// The matches by the executor that copies.
pub(crate) fn copying_matches<'t>(
    alloc: Global,
    regex: &'t Regex,
    text: &'t str,
    start: usize,
) -> Result<String, AllocError> {
    if !is_start(text, start) {
        return String::from_str(alloc, "no start");
    }
    listed(alloc, backends::find::<Copying<'t>>(regex, text, start)?)
}

/// The matches by `find_from_ascii`.
pub(crate) fn ascii_matches(
    alloc: Global,
    regex: &Regex,
    text: &str,
    start: usize,
) -> Result<String, AllocError> {
    if !is_ascii_text(text) {
        return String::from_str(alloc, "no ASCII");
    }
    match regex.find_from_ascii(text, start) {
        Ok(matches) => listed(alloc, matches),
        Err(_) => Err(AllocError),
    }
}

/// The matches by the executor that copies, over ASCII.
pub(crate) fn copying_ascii_matches<'t>(
    alloc: Global,
    regex: &'t Regex,
    text: &'t str,
    start: usize,
) -> Result<String, AllocError> {
    if !is_ascii_text(text) || !is_start(text, start) {
        return String::from_str(alloc, "no ASCII");
    }
    listed(
        alloc,
        backends::find_ascii::<Copying<'t>>(regex, text, start)?,
    )
}

/// The matches by `find_from_utf16`.
pub(crate) fn utf16_matches(
    alloc: Global,
    regex: &Regex,
    units: &[u16],
    start: usize,
) -> Result<String, AllocError> {
    if !is_unit_start(units, start) {
        return String::from_str(alloc, "no start");
    }
    match regex.find_from_utf16(units, start) {
        Ok(matches) => listed(alloc, matches),
        Err(_) => Err(AllocError),
    }
}

/// The matches by `find_from_ucs2`.
pub(crate) fn ucs2_matches(
    alloc: Global,
    regex: &Regex,
    units: &[u16],
    start: usize,
) -> Result<String, AllocError> {
    match regex.find_from_ucs2(units, start) {
        Ok(matches) => listed(alloc, matches),
        Err(_) => Err(AllocError),
    }
}

/// Adds what slots hold: the range of a match, and that of each group.
fn push_slots(told: &mut String, slots: &[Option<Range>]) -> Result<(), AllocError> {
    for (index, slot) in slots.iter().enumerate() {
        if index > 0 {
            told.push(' ')?;
        }
        match slot {
            Some(range) => push_span(told, range.start, range.end)?,
            None => told.push('-')?,
        }
    }
    Ok(())
}

/// As many slots as a match has groups, the whole match among them.
fn empty_slots(alloc: Global, regex: &Regex) -> Result<Vec<Option<Range>>, AllocError> {
    let count = regex.captures_len();
    let mut slots = Vec::with_capacity(alloc, count)?;
    for _ in 0..count {
        slots.push(None)?;
    }
    Ok(slots)
}

/// The first match from a place on, by `find_into`; or, where it has to begin at that place, by `match_into`.
fn slots_told(
    alloc: Global,
    regex: &Regex,
    text: &str,
    place: usize,
    sticky: bool,
) -> Result<String, AllocError> {
    if !is_start(text, place) {
        return String::from_str(alloc, "no start");
    }
    let mut scratch = Scratch::new(alloc);
    let mut slots = empty_slots(alloc, regex)?;
    let found = if sticky {
        regex.match_into(&mut scratch, text, place, &mut slots)
    } else {
        regex.find_into(&mut scratch, text, place, &mut slots)
    };
    let mut told = String::new(alloc);
    match found {
        Ok(Some(_)) => push_slots(&mut told, &slots)?,
        Ok(None) => {}
        Err(_) => return Err(AllocError),
    }
    Ok(told)
}

/// The first match from a place on, by `find_into`.
pub(crate) fn find_into(
    alloc: Global,
    regex: &Regex,
    text: &str,
    place: usize,
) -> Result<String, AllocError> {
    slots_told(alloc, regex, text, place, false)
}

/// The match that begins at a place, by `match_into`.
pub(crate) fn match_into(
    alloc: Global,
    regex: &Regex,
    text: &str,
    place: usize,
) -> Result<String, AllocError> {
    slots_told(alloc, regex, text, place, true)
}

/// The match that begins at a place, by `match_at`, and in a text of ASCII also by `match_at_ascii`.
pub(crate) fn match_at(
    alloc: Global,
    regex: &Regex,
    text: &str,
    place: usize,
) -> Result<String, AllocError> {
    if !is_start(text, place) {
        return String::from_str(alloc, "no start");
    }
    let Ok(found) = regex.match_at(text, place) else {
        return Err(AllocError);
    };
    let mut told = String::new(alloc);
    if let Some(found) = found {
        push_match(&mut told, &found)?;
    }
    if is_ascii_text(text) && ascii_match_at(alloc, regex, text, place)? != told {
        told.push_str(" and another by match_at_ascii")?;
    }
    Ok(told)
}

/// The match that begins at a place, by `match_at_ascii`.
fn ascii_match_at(
    alloc: Global,
    regex: &Regex,
    text: &str,
    place: usize,
) -> Result<String, AllocError> {
    let mut told = String::new(alloc);
    if !is_ascii_text(text) {
        return Ok(told);
    }
    let Ok(found) = regex.match_at_ascii(text, place) else {
        return Err(AllocError);
    };
    if let Some(found) = found {
        push_match(&mut told, &found)?;
    }
    Ok(told)
}

/// Whether there is a match, by `is_match_from`, and from the beginning on also by `is_match`.
pub(crate) fn is_match(
    alloc: Global,
    regex: &Regex,
    text: &str,
    start: usize,
) -> Result<String, AllocError> {
    if !is_start(text, start) {
        return String::from_str(alloc, "no start");
    }
    let Ok(found) = regex.is_match_from(text, start) else {
        return Err(AllocError);
    };
    if start == 0 && regex.is_match(text) != Ok(found) {
        return String::from_str(alloc, "is_match and is_match_from differ");
    }
    String::from_str(alloc, if found { "true" } else { "false" })
}

/// The program of units that a pattern's tree becomes as it is read.
pub(crate) fn units_program(
    alloc: Global,
    pattern: &Pattern,
    flags: Flags,
    tables: &Tables,
) -> Result<CompiledRegex, Error> {
    let points = &pattern.points;
    if !are_code_points(points) {
        return Err(Error::OutOfMemory);
    }
    if pattern.whole {
        let tree = backends::try_parse_whole_text(alloc, points, flags, tables)?;
        return backends::emit_units(alloc, &tree);
    }
    let tree = backends::try_parse(alloc, points, flags, tables)?;
    backends::emit_units(alloc, &tree)
}

/// The matches in units of UTF-16 by the executor that copies.
pub(crate) fn copying_utf16_matches<'t>(
    alloc: Global,
    program: &'t CompiledRegex,
    units: &'t [u16],
) -> Result<String, AllocError> {
    if !program.is_unit_program() {
        return String::from_str(alloc, "no program of units");
    }
    let input = Utf16Input::new(units, program.flags().is_unicode(), program.tables());
    listed(
        alloc,
        backends::Matches::new(PikeVMExecutor::with_input(alloc, program, input), 0),
    )
}

/// The matches in units that are each a character, by the executor that copies.
pub(crate) fn copying_ucs2_matches<'t>(
    alloc: Global,
    program: &'t CompiledRegex,
    units: &'t [u16],
) -> Result<String, AllocError> {
    if !program.is_unit_program() {
        return String::from_str(alloc, "no program of units");
    }
    let input = Ucs2Input::new(units, program.flags().is_unicode(), program.tables());
    listed(
        alloc,
        backends::Matches::new(PikeVMExecutor::with_input(alloc, program, input), 0),
    )
}
