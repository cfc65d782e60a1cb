//! Copies: of a regex, of a match, of a program, of a node.

use crate::asking::{Work, try_work};
use crate::building::{compiled, parsed, program_of};
use crate::refusal::Refusal;
use crate::row::Row;
use crate::searching::tell_all;
use crate::telling::tell_match;
use regress::{CompiledRegex, Error, Match, Regex, Tables};
use regress_front::{Node, ir};
use std::alloc::Global;

/// What is copied.
#[derive(Drop)]
enum Original<'t> {
    Regex(&'t Regex),
    Match(&'t Match),
    Program(&'t CompiledRegex),
    Tree(&'t ir::Regex<'t>),
}

/// A copy of a value.
#[derive(Drop)]
struct Copying<'t> {
    alloc: Global,
    original: Original<'t>,
    text: &'t str,
}

/// A copy of a node, where there may be one.
fn copy_of(alloc: Global, node: &Node) -> Result<Option<Node>, Error> {
    node.try_duplicate(alloc, 0)
}

/// Tells the instructions of a copy of a program.
fn tell_program(told: &mut String, alloc: Global, program: &CompiledRegex) -> Result<(), Refusal> {
    let copy = program.try_clone(alloc)?;
    write!(told, "{:?} {:?}", copy.insns(), copy.start_pred())?;
    Ok(())
}

/// Tells a copy of a node.
fn tell_node(told: &mut String, alloc: Global, node: &Node) -> Result<(), Refusal> {
    let copy = copy_of(alloc, node)?;
    write!(told, "{copy:?}")?;
    Ok(())
}

impl Work for Copying<'_> {
    fn work(&mut self, told: &mut String) -> Result<(), Refusal> {
        match self.original {
            Original::Regex(regex) => tell_all(told, &regex.try_clone()?, self.text),
            Original::Match(found) => Ok(tell_match(told, &found.try_clone()?)?),
            Original::Program(program) => tell_program(told, self.alloc, program),
            Original::Tree(tree) => tell_node(told, self.alloc, &tree.node),
        }
    }
}

/// Copies something.
fn try_copy(
    alloc: Global,
    row: &Row,
    original: Original<'_>,
    told: &mut String,
) -> Result<bool, Refusal> {
    let work = Copying {
        alloc,
        original,
        text: row.text.as_str(),
    };
    try_work(alloc, row, work, told)
}

/// Copies a regex.
fn try_regex(alloc: Global, row: &Row, told: &mut String) -> Result<bool, Refusal> {
    let tables = Tables::small(alloc)?;
    let regex = compiled(alloc, row, &tables)?;
    try_copy(alloc, row, Original::Regex(&regex), told)
}

/// The first match in a row's text.
fn first_of(alloc: Global, row: &Row) -> Result<Match, Refusal> {
    let tables = Tables::small(alloc)?;
    let regex = compiled(alloc, row, &tables)?;
    match regex.find(row.text.as_str())? {
        Some(found) => Ok(found),
        None => Err(Refusal::Other),
    }
}

/// Copies a match.
fn try_match(alloc: Global, row: &Row, told: &mut String) -> Result<bool, Refusal> {
    let found = first_of(alloc, row)?;
    try_copy(alloc, row, Original::Match(&found), told)
}

/// Copies a program of bytes.
fn try_program(alloc: Global, row: &Row, told: &mut String) -> Result<bool, Refusal> {
    let tables = Tables::small(alloc)?;
    let points = row.points(alloc)?;
    let program = program_of(alloc, &points, row.flags(), &tables)?;
    try_copy(alloc, row, Original::Program(&program), told)
}

/// Copies a node.
fn try_node(alloc: Global, row: &Row, told: &mut String) -> Result<bool, Refusal> {
    let tables = Tables::small(alloc)?;
    let points = row.points(alloc)?;
    let tree = parsed(alloc, &points, row.flags(), &tables)?;
    try_copy(alloc, row, Original::Tree(&tree), told)
}

/// Does a row's work, if it is one of these.
pub(crate) fn try_row(alloc: Global, row: &Row, told: &mut String) -> Result<bool, Refusal> {
    match row.work.as_str() {
        "clone_regex" => try_regex(alloc, row, told),
        "clone_match" => try_match(alloc, row, told),
        "clone_program" => try_program(alloc, row, told),
        "try_duplicate" => try_node(alloc, row, told),
        _ => Ok(false),
    }
}
