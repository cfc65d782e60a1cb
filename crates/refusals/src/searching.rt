//! Searches, by each road.
ghost use Rattle.std.specs.Iterator.{IsFinite};

use crate::asking::{Work, try_work};
use crate::building::compiled;
use crate::refusal::Refusal;
use crate::row::{Row, units_of};
use crate::telling::{tell_first, tell_item};
use regress::backends::{self, DefaultExecutor, PikeVMExecutor, Utf8Input};
use regress::{Error, Match, Regex, Tables, is_ascii_text, is_unit_start};
use std::alloc::{AllocError, Global};

/// The executor that copies.
type Copying<'t> = PikeVMExecutor<'t, Utf8Input<'t, 't>>;

/// Tells all items of a search; past an error nothing may come.
fn tell_items<I: Iterator<Item = Result<Match, Error>>>(
    told: &mut String,
    items: I,
) -> Result<(), AllocError>
    requires can { I.can_next items }
    requires ends { IsFinite (I.remaining items) }
{
    for item in items {
        tell_item(told, item.map_err(Refusal::from))?;
    }
    Ok(())
}

/// Tells the first item of a search.
fn tell_start<I: Iterator<Item = Result<Match, Error>>>(
    told: &mut String,
    items: I,
) -> Result<(), AllocError>
    requires { I.can_next items }
{
    let mut items = items;
    tell_first(told, items.next())
}

/// Tells all matches by the library's calls.
pub(crate) fn tell_all(told: &mut String, regex: &Regex, text: &str) -> Result<(), Refusal> {
    Ok(tell_items(told, regex.find_iter(text)?)?)
}

/// Tells all matches of a linear pattern within as many steps as are enough.
fn tell_within(told: &mut String, regex: &Regex, text: &str) -> Result<(), Refusal> {
    let Some(steps) = regex.linear_steps(text.len()) else {
        return Err(Refusal::Other);
    };
    for item in regex.within(steps).find_iter(text)? {
        tell_item(told, item.map_err(Refusal::from))?;
    }
    Ok(())
}

/// Tells all matches by the calls for ASCII.
fn tell_ascii(told: &mut String, regex: &Regex, text: &str) -> Result<(), Refusal> {
    if !is_ascii_text(text) {
        return Err(Refusal::Other);
    }
    Ok(tell_items(told, regex.find_iter_ascii(text)?)?)
}

/// Tells all matches in units of UTF-16.
fn tell_utf16(told: &mut String, regex: &Regex, units: &[u16]) -> Result<(), Refusal> {
    if !is_unit_start(units, 0) {
        return Err(Refusal::Other);
    }
    Ok(tell_items(told, regex.find_from_utf16(units, 0)?)?)
}

/// Tells all matches in units of which each is a character.
fn tell_ucs2(told: &mut String, regex: &Regex, units: &[u16]) -> Result<(), Refusal> {
    Ok(tell_items(told, regex.find_from_ucs2(units, 0)?)?)
}

/// Tells all matches by the executor that undoes.
fn tell_undoing<'t>(told: &mut String, regex: &'t Regex, text: &'t str) -> Result<(), AllocError> {
    tell_items(told, backends::find::<DefaultExecutor<'t>>(regex, text, 0)?)
}

/// Tells all matches by the executor that copies.
fn tell_copying<'t>(told: &mut String, regex: &'t Regex, text: &'t str) -> Result<(), AllocError> {
    tell_items(told, backends::find::<Copying<'t>>(regex, text, 0)?)
}

/// Tells the first match by the executor that undoes.
fn tell_undoing_start<'t>(
    told: &mut String,
    regex: &'t Regex,
    text: &'t str,
) -> Result<(), AllocError> {
    tell_start(told, backends::find::<DefaultExecutor<'t>>(regex, text, 0)?)
}

/// Tells the first match by the executor that copies.
fn tell_copying_start<'t>(
    told: &mut String,
    regex: &'t Regex,
    text: &'t str,
) -> Result<(), AllocError> {
    tell_start(told, backends::find::<Copying<'t>>(regex, text, 0)?)
}

/// Tells whether there is a match.
fn tell_whether(told: &mut String, regex: &Regex, text: &str) -> Result<(), Refusal> {
    let is_match = regex.is_match(text)?;
    write!(told, "{is_match}")?;
    Ok(())
}

/// By what is searched, and how far.
#[derive(Clone, Copy)]
enum Road {
    Library,
    Within,
    Ascii,
    Utf16,
    Ucs2,
    Undoing,
    Copying,
    UndoingStart,
    CopyingStart,
    Whether,
}

/// The work of this name.
fn road_by(name: &str) -> Option<Road> {
    match name {
        "find_iter" => Some(Road::Library),
        "within" => Some(Road::Within),
        "find_iter_ascii" => Some(Road::Ascii),
        "find_from_utf16" => Some(Road::Utf16),
        "find_from_ucs2" => Some(Road::Ucs2),
        "undoing" => Some(Road::Undoing),
        "copying" => Some(Road::Copying),
        "undoing_start" => Some(Road::UndoingStart),
        "copying_start" => Some(Road::CopyingStart),
        "is_match" => Some(Road::Whether),
        _ => None,
    }
}

/// A search of a text by a road.
#[derive(Drop)]
struct Searching<'t> {
    road: Road,
    regex: &'t Regex,
    text: &'t str,
    units: &'t [u16],
}

impl Work for Searching<'_> {
    fn work(&mut self, told: &mut String) -> Result<(), Refusal> {
        match self.road {
            Road::Library => tell_all(told, self.regex, self.text),
            Road::Within => tell_within(told, self.regex, self.text),
            Road::Ascii => tell_ascii(told, self.regex, self.text),
            Road::Utf16 => tell_utf16(told, self.regex, self.units),
            Road::Ucs2 => tell_ucs2(told, self.regex, self.units),
            Road::Undoing => Ok(tell_undoing(told, self.regex, self.text)?),
            Road::Copying => Ok(tell_copying(told, self.regex, self.text)?),
            Road::UndoingStart => Ok(tell_undoing_start(told, self.regex, self.text)?),
            Road::CopyingStart => Ok(tell_copying_start(told, self.regex, self.text)?),
            Road::Whether => tell_whether(told, self.regex, self.text),
        }
    }
}

/// Does a row's work, if it is one of these.
pub(crate) fn try_row(alloc: Global, row: &Row, told: &mut String) -> Result<bool, Refusal> {
    let Some(road) = road_by(row.work.as_str()) else {
        return Ok(false);
    };
    let tables = Tables::small(alloc)?;
    let mut regex = compiled(alloc, row, &tables)?;
    if let Road::Within = road {
        regex.learn_linear();
    }
    let units = units_of(alloc, row.text.as_str())?;
    let work = Searching {
        road,
        regex: &regex,
        text: row.text.as_str(),
        units: &units,
    };
    try_work(alloc, row, work, told)
}
