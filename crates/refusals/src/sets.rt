//! Sets of code points, and pieces of strings.

use crate::asking::{Work, try_work};
use crate::refusal::Refusal;
use crate::row::Row;
use regress::{CodePoint, Error, Interval, Tables, are_code_points};
use regress_front::{
    CodePointSet, Piece, add_icase_code_points, closure, lower_code_point_sequence,
};
use std::alloc::{AllocError, Global};

/// Adds one code point to a set.
fn add_point(set: &mut CodePointSet, point: CodePoint) -> Result<(), Error> {
    if point > 0x10_FFFF {
        return Ok(());
    }
    set.add_one(point)
}

/// Adds the code points from one to another to a set.
fn add_interval(set: &mut CodePointSet, first: CodePoint, last: CodePoint) -> Result<(), Error> {
    if first > last || last > 0x10_FFFF {
        return Ok(());
    }
    set.add(Interval { first, last })
}

/// The set of the characters of a text.
fn set_of(alloc: Global, text: &str) -> Result<CodePointSet, Error> {
    let mut set = CodePointSet::new(alloc);
    for c in text.chars() {
        add_point(&mut set, u32::from(c))?;
    }
    Ok(set)
}

/// Adds the code points from the first character of a text to its last.
fn add_between(set: &mut CodePointSet, text: &str) -> Result<(), Error> {
    match (text.chars().next(), text.chars().last()) {
        (Some(first), Some(last)) => add_interval(set, u32::from(first), u32::from(last)),
        _ => Ok(()),
    }
}

/// Tells the intervals of a set.
fn tell_set(told: &mut String, set: &CodePointSet) -> Result<(), AllocError> {
    for interval in set.intervals() {
        write!(told, "{}-{} ", interval.first, interval.last)?;
    }
    Ok(())
}

/// Tells the nodes for a string.
fn tell_nodes(
    told: &mut String,
    alloc: Global,
    text: &str,
    tables: &Tables,
) -> Result<(), Refusal> {
    let points: Vec<CodePoint> = text.chars().map(u32::from).collect(alloc)?;
    if !are_code_points(&points) {
        return Err(Refusal::Other);
    }
    let pieces = lower_code_point_sequence(alloc, &points, true, true, tables)?;
    let nodes = Piece::into_nodes(alloc, pieces)?;
    write!(told, "{nodes:?}")?;
    Ok(())
}

/// What is done with a set.
#[derive(Clone, Copy)]
enum Change {
    Add,
    AddOne,
    AddSet,
    Closure,
    ClosureInUnicode,
    Inverted,
    Nodes,
}

/// The work of this name.
fn change_by(name: &str) -> Option<Change> {
    match name {
        "add" => Some(Change::Add),
        "add_one" => Some(Change::AddOne),
        "add_set" => Some(Change::AddSet),
        "closure" => Some(Change::Closure),
        "add_icase_code_points" => Some(Change::ClosureInUnicode),
        "inverted" => Some(Change::Inverted),
        "into_nodes" => Some(Change::Nodes),
        _ => None,
    }
}

/// A set, and what is done with it.
#[derive(Drop)]
struct Changing<'t> {
    alloc: Global,
    change: Change,
    set: CodePointSet,
    text: &'t str,
    extra: &'t str,
    tables: &'t Tables,
}

impl Changing<'_> {
    /// Adds each character of the other text.
    fn add_each(&mut self) -> Result<(), Error> {
        for c in self.extra.chars() {
            add_point(&mut self.set, u32::from(c))?;
        }
        Ok(())
    }

    /// Adds the characters of the other text as one set.
    fn add_together(&mut self) -> Result<(), Error> {
        let other = set_of(self.alloc, self.extra)?;
        self.set.add_set(other)
    }

    /// The set with all that is equal to a member but for case.
    fn closed(&self) -> Result<CodePointSet, Error> {
        let set = set_of(self.alloc, self.text)?;
        match self.change {
            Change::Closure => closure(set, false, self.tables),
            _ => add_icase_code_points(set, self.tables),
        }
    }
}

impl Work for Changing<'_> {
    fn work(&mut self, told: &mut String) -> Result<(), Refusal> {
        match self.change {
            Change::Add => add_between(&mut self.set, self.extra)?,
            Change::AddOne => self.add_each()?,
            Change::AddSet => self.add_together()?,
            Change::Inverted => return Ok(tell_set(told, &self.set.inverted()?)?),
            Change::Nodes => return tell_nodes(told, self.alloc, self.text, self.tables),
            _ => return Ok(tell_set(told, &self.closed()?)?),
        }
        Ok(tell_set(told, &self.set)?)
    }
}

/// Does a row's work, if it is one of these.
pub(crate) fn try_row(alloc: Global, row: &Row, told: &mut String) -> Result<bool, Refusal> {
    let Some(change) = change_by(row.work.as_str()) else {
        return Ok(false);
    };
    let tables = Tables::small(alloc)?;
    let set = set_of(alloc, row.text.as_str())?;
    let work = Changing {
        alloc,
        change,
        set,
        text: row.text.as_str(),
        extra: row.extra.as_str(),
        tables: &tables,
    };
    try_work(alloc, row, work, told)
}
