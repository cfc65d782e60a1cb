//! What the executors find over texts, as text.
ghost use Rattle.std.specs.Prelude.{◌≡◌, ℕ, false, IfSome};
ghost use Rattle.regress_front_nodes.specs.Trees.{tree};
ghost use Rattle.regress_front_nodes.specs.WellFormed.{IsWellFormed};
ghost use Rattle.regress_match.specs.Iterating.{producer_of, position_of};

use regress_engine_code::{CompiledRegex, emit};
use regress_engine_copying::PikeVMExecutor;
use regress_engine_exec::BacktrackExecutor;
use regress_engine_inputs::Utf8Input;
use regress_front_nodes::ir::Regex;
use regress_front_tables::Error;
use regress_match::{Match, MatchProducer, Matches, Range};
use std::alloc::{AllocError, Global};
use std::test::Fail;

/// Adds a group: its range, or `-`.
fn tell_group(told: &mut String, group: Option<Range>) -> Result<(), AllocError> {
    match group {
        Some(range) => write!(told, "{}..{}", range.start, range.end),
        None => told.push('-'),
    }
}

/// Adds a match to a text: its range and that of each group, parted by spaces, `-` for a group without one.
pub(crate) fn tell(told: &mut String, found: &Match) -> Result<(), AllocError> {
    let mut is_first = true;
    for group in found.groups() {
        if !is_first {
            told.push(' ')?;
        }
        tell_group(told, group)?;
        is_first = false;
    }
    Ok(())
}

/// All matches, parted by `|`; `None` where a search was refused memory.
pub(crate) fn listed<P: MatchProducer>(
    alloc: Global,
    matches: Matches<P>,
) -> Result<Option<String>, AllocError>
    requires { IfSome (position_of matches) (P.is_position (P.search_of (producer_of matches))) }
{
    let mut told = String::new(alloc);
    for found in matches {
        let Ok(found) = found else {
            return Ok(None);
        };
        if !told.is_empty() {
            told.push('|')?;
        }
        tell(&mut told, &found)?;
    }
    Ok(Some(told))
}

/// What was told, where no search was refused memory.
pub(crate) fn whole(told: Option<String>) -> Result<String, Error> {
    match told {
        Some(told) => Ok(told),
        None => Err(Error::OutOfMemory),
    }
}

/// What both executors told, where they told the same.
fn same(alloc: Global, undoing: Option<String>, copying: Option<String>) -> Result<String, Fail> {
    let undoing = whole(undoing)?;
    let copying = whole(copying)?;
    if undoing.as_str() != copying.as_str() {
        return Err(Fail::new(format!(in alloc; "undoing {undoing}, copying {copying}")?));
    }
    Ok(undoing)
}

/// All matches of a program of bytes in a text of UTF-8, by the executor that undoes.
fn undoing_over_utf8<'r>(
    alloc: Global,
    program: &'r CompiledRegex,
    text: &'r str,
) -> Result<Option<String>, AllocError>
    requires bytes { program.now.units ≡ false }
{
    let executor = BacktrackExecutor::new(alloc, program, text);
    listed(alloc, Matches::new(executor, 0))
}

/// The same by the executor that copies.
fn copying_over_utf8<'r>(
    alloc: Global,
    program: &'r CompiledRegex,
    text: &'r str,
) -> Result<Option<String>, AllocError>
    requires bytes { program.now.units ≡ false }
{
    let input = Utf8Input::new(text, program.flags().is_unicode(), program.tables());
    let executor = PikeVMExecutor::with_input(alloc, program, input);
    listed(alloc, Matches::new(executor, 0))
}

/// All matches of a tree in a text of UTF-8, which the executor that undoes finds.
pub(crate) fn undoing_in_utf8(alloc: Global, regex: &Regex<'_>, text: &str) -> Result<String, Fail>
    requires { (n : ℕ) × IsWellFormed n (tree regex.now.node) }
{
    let program = emit(alloc, regex)?;
    let undoing = undoing_over_utf8(alloc, &program, text)?;
    Ok(whole(undoing)?)
}

/// All matches of a tree in a text of UTF-8, which both executors find.
pub(crate) fn in_utf8(alloc: Global, regex: &Regex<'_>, text: &str) -> Result<String, Fail>
    requires { (n : ℕ) × IsWellFormed n (tree regex.now.node) }
{
    let program = emit(alloc, regex)?;
    let undoing = undoing_over_utf8(alloc, &program, text)?;
    let copying = copying_over_utf8(alloc, &program, text)?;
    same(alloc, undoing, copying)
}
