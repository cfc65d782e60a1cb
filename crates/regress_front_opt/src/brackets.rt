//! Classes of few characters, of all and of none.
ghost use Rattle.std.specs.Prelude.{◌≡◌, ℕ, ◌+◌, ◌≤◌, ◌||◌, true, false, All, IsTrue, length, IfOk, MatchOption};
ghost use Rattle.std.specs.List.{list_all};
ghost use Rattle.regress_meaning.specs.Text.{holds};
ghost use Rattle.regress_meaning.specs.TableParts.{is_code_point, in_intervals};
ghost use Rattle.regress_front_core.specs.Limits.{most_members};
ghost use Rattle.regress_front_sets.specs.Intervals.{ends_of, in_interval};
ghost use Rattle.regress_front_nodes.specs.Trees.{Tree, tree};
ghost use Rattle.regress_front_nodes.specs.Characters.{Takes};
ghost use Rattle.regress_front_rules.specs.Rules.{is_bracket};
ghost use Rattle.regress_front_opt.specs.Passes.{IsSimpler};

use crate::action::PassAction;
use crate::passing::Pass;
use regress_front_nodes::{BracketContents, Node, ascii_bytes};
use regress_front_tables::{CodePoint, Error, Interval, MAX_CHAR_SET_LENGTH};
use std::alloc::{AllocError, Global};

/// A `Bracket` of no character is a set of none, one of all characters is `MatchAny`, and one of few a set of these: of
/// bytes where all are ASCII.
#[derive(Drop)]
pub struct SimpleBrackets;

/// Adds the members of an interval to few members, and answers whether they are still few. If not, none is added.
fn add_members(members: &mut Vec<CodePoint>, interval: Interval) -> Result<bool, AllocError>
    requires few { length members.old.items ≤ most_members }
    requires points { All is_code_point members.old.items }
    ensures few { IfOk result (λ few. few ≡ true → length members.new.items ≤ most_members) }
    ensures points { IfOk result (λ few. few ≡ true → All is_code_point members.new.items) }
    ensures added { IfOk result (λ few. few ≡ true → (c : ℕ) → holds members.new.items c ≡ (holds members.old.items c || in_interval interval c)) }
{
    if interval.count_codepoints() > MAX_CHAR_SET_LENGTH - members.len() {
        return Ok(false);
    }
    for cp in interval.first..interval.last + 1 {
        members.push(cp)?;
    }
    Ok(true)
}

/// The members of intervals, if they are few.
fn few_members(alloc: Global, intervals: &[Interval]) -> Result<Option<Vec<CodePoint>>, AllocError>
    ensures { IfOk result (λ o. MatchOption o (true ≡ true) (λ ms. (length ms.items ≤ most_members) × All is_code_point ms.items × ((c : ℕ) → holds ms.items c ≡ in_intervals (ends_of intervals.now) c))) }
{
    let mut members = Vec::new(alloc);
    for interval in intervals {
        if !add_members(&mut members, *interval)? {
            return Ok(None);
        }
    }
    Ok(Some(members))
}

/// A set of few characters: of bytes where all are ASCII.
fn set_of(alloc: Global, members: Vec<CodePoint>) -> Result<Node, AllocError>
    requires few { length members.items ≤ most_members }
    requires points { All is_code_point members.items }
    ensures { IfOk result (λ n. (is_bracket (tree n) ≡ false) × Takes (tree n) (holds members.items)) }
{
    match ascii_bytes(alloc, &members)? {
        Some(bytes) => Ok(Node::ByteSet(bytes)),
        None => Ok(Node::CharSet(members)),
    }
}

/// What matches the same as a class and is simpler; `None` where nothing is.
fn simpler(alloc: Global, contents: &BracketContents) -> Result<Option<Node>, AllocError>
    ensures { IfOk result (IsSimpler contents.now) }
{
    if contents.is_empty() {
        return Ok(Some(Node::make_always_fails(alloc)));
    }
    if contents.invert {
        if contents.cps.intervals().is_empty() {
            return Ok(Some(Node::MatchAny));
        }
        return Ok(None);
    }
    match few_members(alloc, contents.cps.intervals())? {
        Some(members) => Ok(Some(set_of(alloc, members)?)),
        None => Ok(None),
    }
}

impl Pass for SimpleBrackets {
    ghost broken = { λ _. false };

    fn rewrite(
        &self,
        alloc: Global,
        _in_lookbehind: bool,
        node: &mut Node,
    ) -> Result<PassAction, Error> {
        let Node::Bracket(contents) = &*node else {
            return Ok(PassAction::Keep);
        };
        match simpler(alloc, contents)? {
            Some(other) => Ok(PassAction::Replace(other)),
            None => Ok(PassAction::Keep),
        }
    }
}
