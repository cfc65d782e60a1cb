//! Matches that cross lines.
ghost use Rattle.std.specs.Prelude.{◌≡◌, ◌≤◌, ◌+◌, ℕ, true, false, [], List, Option, map, length, nat_lt, MatchOption, IfOk, IsOkUnless};
ghost use Rattle.regress_match.specs.Views.{item_of};
ghost use Rattle.regress_match.specs.GroupViews.{names_of_match};
ghost use Rattle.esgrep_rows.specs.Found.{LieInOrder};
ghost use Rattle.esgrep_lines.specs.Props.{LieInOrder-prop};
ghost use Rattle.esgrep_lines.specs.Parts.{splits_ending, touched, told_in, has_part, is_between, parts_in, found_parts};

use crate::finder::{FindError, Finder};
use esgrep_rows::Ending;
use regress_front_core::Error;
use regress_match::{Match, Range};
use std::alloc::Global;
use std::sync::ArcSlice;

/// The matches of a whole text, as what is found in its lines: of each match the part that lies in the line, without groups.
#[derive(Drop)]
pub struct Parts<'t> {
    alloc: Global,
    founds: Vec<Match>,
    text: &'t str,
    ending: Ending,
    ghost in_order: { LieInOrder text.now 0 founds.items } by { LieInOrder-prop text.now 0 founds.items },
}

impl<'t> Parts<'t> {
    ghost use Rattle.esgrep_lines.specs.Finding.{FindsParts, matches_of};

    /// What is found of the matches of a text of many lines, which end as `ending` says.
    ///
    /// Asks that the matches lie in the text one behind the other, as those that a `Finder` puts out do.
    ///
    /// ```rust
    /// finder.find_into(0, "one\ntwo\n", &mut founds)?;
    /// let parts = Parts::new(alloc, founds, "one\ntwo\n", Ending::Newline);
    /// ```
    pub fn new(alloc: Global, founds: Vec<Match>, text: &'t str, ending: Ending) -> Parts<'t>
        requires { LieInOrder text.now 0 founds.items }
        ensures { (template : Option (List ℕ)) → FindsParts result template (found_parts ending text.now (map item_of founds.items) template) }
    {
        Parts {
            alloc,
            founds,
            text,
            ending,
        }
    }

    /// The matches that may touch a text that stands at `start`: those in front of them end before it, those behind begin
    /// behind it.
    fn near(&self, start: usize, text: &str) -> &[Match]
        ensures { parts_in self.now.ending self.now.text.now (map item_of result.now) start text.now
            ≡ parts_in self.now.ending self.now.text.now (matches_of self.now) start text.now }
    {
        let first = self.founds.partition_point(|found| found.range.end < start);
        let rest = &self.founds[first..];
        let mut count = 0;
        while count < rest.len() && !self.begins_behind(&rest[count], start, text) {
            count += 1;
        }
        &rest[..count]
    }

    /// Whether a match begins behind a text that stands at `start`.
    fn begins_behind(&self, found: &Match, start: usize, text: &str) -> bool
        ensures { result ≡ nat_lt (start + length text.now) (touched self.now.ending self.now.text.now found.now.range.start) }
    {
        touched(self.text, found.range.start, self.ending).saturating_sub(start) > text.len()
    }

    /// The part of a match in a text that stands at `start`, where it has one.
    fn part_in(&self, found: &Match, start: usize, text: &str) -> Option<Range>
        ensures { MatchOption result (has_part self.now.ending self.now.text.now start text.now (item_of found.now) ≡ false)
            (λ range. (has_part self.now.ending self.now.text.now start text.now (item_of found.now) ≡ true)
            × (range.start ≡ told_in start text.now found.now.range.start) × (range.end ≡ told_in start text.now found.now.range.end)) }
    {
        let touched = touched(self.text, found.range.start, self.ending);
        let touches = start <= touched || start < found.range.end;
        let from = told_in(start, text, found.range.start);
        let to = told_in(start, text, found.range.end);
        let is_part = touches
            && !self.begins_behind(found, start, text)
            && is_between(text, from)
            && is_between(text, to);
        is_part.then_some(from..to)
    }
}

impl Finder for Parts<'_> {
    ghost use Rattle.esgrep_lines.specs.Finding.{FindsParts};

    ghost finds = { FindsParts };

    ghost gives_up = { λ _ _. ⊥ };

    fn is_match(&self, start: usize, text: &str) -> Result<bool, FindError> {
        for found in self.near(start, text) {
            if self.part_in(found, start, text).is_some() {
                return Ok(true);
            }
        }
        Ok(false)
    }

    fn find_into(
        &self,
        start: usize,
        text: &str,
        founds: &mut Vec<Match>,
    ) -> Result<(), FindError> {
        founds.clear();
        for found in self.near(start, text) {
            if let Some(part) = self.part_in(found, start, text) {
                founds.push(without_groups(self.alloc, part)?)?;
            }
        }
        Ok(())
    }

    fn candidate(&self, _text: &str) -> Option<usize> {
        Some(0)
    }
}

/// Whether an offset lies between a `\r` and a `\n`.
fn splits_ending(text: &str, at: usize) -> bool
    ensures { result ≡ splits_ending text.now at }
{
    let bytes = text.as_bytes();
    at > 0 && at < bytes.len() && bytes[at - 1] == b'\r' && bytes[at] == b'\n'
}

/// From where on a match touches lines that begins at an offset of a text.
fn touched(text: &str, at: usize, ending: Ending) -> usize
    ensures { result ≡ touched ending text.now at }
{
    match ending {
        Ending::Newline if splits_ending(text, at) => at.saturating_sub(1),
        _ => at,
    }
}

/// An offset of the whole text, told in bytes of a text that stands at `start`.
fn told_in(start: usize, text: &str, at: usize) -> usize
    ensures value { result ≡ told_in start text.now at }
    ensures within { result ≤ length text.now }
{
    at.saturating_sub(start).min(text.len())
}

/// Whether a character begins at an offset, or the text ends there.
fn is_between(text: &str, at: usize) -> bool
    requires { at ≤ length text.now }
    ensures { result ≡ is_between text.now at }
{
    text.is_char_boundary(at)
}

/// A match without groups.
fn without_groups(alloc: Global, range: Range) -> Result<Match, Error>
    ensures range { IfOk result (λ m. m.range ≡ range) }
    ensures captures { IfOk result (λ m. m.captures.items ≡ []) }
    ensures names { IfOk result (λ m. names_of_match m ≡ []) }
    ensures refused { IsOkUnless result Error.OutOfMemory }
{
    let names = ArcSlice::from_vec(Vec::new(alloc))?;
    Ok(Match::new(range, Vec::new(alloc), names))
}
