//! Lists of matches as rows tell them.

use crate::fault::RowError;
use std::alloc::{AllocError, Global};

/// A range of offsets.
#[derive(Clone, Copy)]
pub struct Span {
    /// Where it begins.
    pub start: usize,
    /// Where it ends.
    pub end: usize,
}

/// A match in a list.
#[derive(Drop)]
pub struct Item {
    /// Where the match lies.
    pub range: Span,
    /// Where each group lies; `None` for one that is not set.
    pub groups: Vec<Option<Span>>,
}

/// The range that a word tells.
fn read_span(word: &str) -> Result<Span, RowError> {
    let (start, end) = word.split_once("..").ok_or(RowError::List)?;
    match (start.parse(), end.parse()) {
        (Ok(start), Ok(end)) => Ok(Span { start, end }),
        _ => Err(RowError::List),
    }
}

/// The match that a text tells: its range and those of its groups.
fn read_item(alloc: Global, text: &str) -> Result<Item, RowError> {
    let mut words = text.split(' ');
    let range = read_span(words.next().ok_or(RowError::List)?)?;
    let mut groups = Vec::new(alloc);
    for word in words {
        groups.push(if word == "-" {
            None
        } else {
            Some(read_span(word)?)
        })?;
    }
    Ok(Item { range, groups })
}

/// The list that a field tells, as `0..3 0..1 -|3..3 - -`; empty where the field is. Errs with `List` where it tells none.
///
/// ```rust
/// let items = read_list(alloc, "0..1 -|1..2 1..2")?; // two matches with a group each
/// ```
pub fn read_list(alloc: Global, field: &str) -> Result<Vec<Item>, RowError> {
    let mut items = Vec::new(alloc);
    if field.is_empty() {
        return Ok(items);
    }
    for text in field.split('|') {
        items.push(read_item(alloc, text)?)?;
    }
    Ok(items)
}

/// Adds a range.
pub fn push_span(told: &mut String, start: usize, end: usize) -> Result<(), AllocError> {
    write!(told, "{start}..{end}")
}

/// Adds a match, parted from one that stands before it.
fn push_item(told: &mut String, item: &Item) -> Result<(), AllocError> {
    if !told.is_empty() {
        told.push('|')?;
    }
    push_span(told, item.range.start, item.range.end)?;
    for group in &item.groups {
        match group {
            Some(span) => {
                told.push(' ')?;
                push_span(told, span.start, span.end)?;
            }
            None => told.push_str(" -")?,
        }
    }
    Ok(())
}

/// Matches as a field tells them.
pub fn told(alloc: Global, items: &[Item]) -> Result<String, AllocError> {
    let mut told = String::new(alloc);
    for item in items {
        push_item(&mut told, item)?;
    }
    Ok(told)
}

/// How many 16-bit units of a text stand before an offset in bytes.
pub fn units_before(text: &str, offset: usize) -> usize {
    match text.get(..offset) {
        Some(before) => before.encode_utf16().count(),
        None => usize::MAX,
    }
}

/// A range of bytes of a text in 16-bit units.
fn span_in_units(text: &str, bytes: Span) -> Span {
    Span {
        start: units_before(text, bytes.start),
        end: units_before(text, bytes.end),
    }
}

/// A match in bytes of a text in 16-bit units.
fn item_in_units(alloc: Global, text: &str, item: &Item) -> Result<Item, AllocError> {
    let mut groups = Vec::new(alloc);
    for group in &item.groups {
        groups.push(group.map(|bytes| span_in_units(text, bytes)))?;
    }
    Ok(Item {
        range: span_in_units(text, item.range),
        groups,
    })
}

/// Matches in bytes of a text as a field tells them in 16-bit units.
pub fn told_in_units(alloc: Global, text: &str, items: &[Item]) -> Result<String, AllocError> {
    let mut told = String::new(alloc);
    for item in items {
        push_item(&mut told, &item_in_units(alloc, text, item)?)?;
    }
    Ok(told)
}

/// Whether a search that begins at a place goes on behind a match: from its end on, and behind an empty one a character
/// later.
fn is_passed(item: &Item, place: usize) -> bool {
    let Span { start, end } = item.range;
    end < place || end == place && start < end
}

/// What is left of a list where the search begins at a place, which is not before that of the list's own search; `None` where
/// the list does not tell.
pub fn tail(items: &[Item], place: usize) -> Option<&[Item]> {
    for (index, item) in items.iter().enumerate() {
        if !is_passed(item, place) {
            return if item.range.start < place {
                None
            } else {
                items.get(index..)
            };
        }
    }
    items.get(items.len()..)
}
