//! A match, and what is read from it.
ghost use Rattle.std.specs.Prelude.{◌≡◌, ◌≢◌, ◌<◌, ◌≤◌, ◌-◌, ◌↔◌, ℕ, List, IsTrue, [], Some, None, IfSome, IfNone, length, map, unwrap_or, vec_len, slice_get, slice_range, option_map, option_copied, IfOk, IsOkUnless};
ghost use Rattle.std.specs.Str.{IsCharBoundary};
ghost use Rattle.std.specs.String.{string_bytes};

use crate::groups::Groups;
use crate::named::{NamedGroups, taken};
use regress_front_core::{CaptureGroupName, Error};
use std::sync::ArcSlice;

/// A range of offsets.
pub type Range = std::ops::Range<usize>;

/// A match.
///
/// Two matches are equal where their ranges are, those of all groups, and the names of the groups.
#[derive(Debug, Drop, PartialEq, Eq)]
pub struct Match {
    /// Where the match lies, in bytes of the text that was searched.
    pub range: Range,
    /// The range of each capturing group in order of its number, in bytes too; `None` where the group took no part.
    pub captures: Vec<Option<Range>>,
    group_names: ArcSlice<CaptureGroupName>,
}

/// The index of the first of some names that is this one.
pub(crate) fn first_named(names: &[CaptureGroupName], wanted: &str) -> Option<usize>
    ensures there { IfSome result (λ i. (i < length names.now) × (slice_get (map string_bytes names.now) i ≡ Some wanted.now)) }
    ensures first { IfSome result (λ i. (j : ℕ) → j < i → slice_get (map string_bytes names.now) j ≢ Some wanted.now) }
    ensures nowhere { IfNone result ((j : ℕ) → slice_get (map string_bytes names.now) j ≢ Some wanted.now) }
{
    names.iter().position(|name| name.as_str() == wanted)
}

/// The same range, if there is one.
fn copied(range: &Option<Range>) -> Option<Range>
    ensures { result ≡ range.now }
{
    match range {
        Some(range) => Some(range.start..range.end),
        None => None,
    }
}

impl Match {
    ghost use Rattle.regress_match.specs.GroupViews.{groups_of, groups_left, names_of_match};
    ghost use Rattle.regress_match.specs.GroupNames.{IsFirstNamed, shared_names};
    ghost use Rattle.regress_match.specs.NamedRanges.{named_from, named_taken};
    ghost use Rattle.regress_match.specs.NamedGroupViews.{named_left};
    ghost use Rattle.regress_match.specs.GroupRanges.{range_numbered, range_named, part_of};
    ghost use Rattle.regress_match.specs.TextRanges.{LiesBetween, LiesInText};

    /// A match at a range, with the range of each capturing group in order of its number, and the names of these groups, the
    /// empty one where a group has none. Ranges are offsets in what was searched.
    ///
    /// ```rust
    /// let found = Match::new(1..3, vec![in alloc; Some(1..2)]?, group_names);
    /// ```
    pub fn new(
        range: Range,
        captures: Vec<Option<Range>>,
        group_names: ArcSlice<CaptureGroupName>,
    ) -> Match
        ensures range { result.range ≡ range }
        ensures captures { result.captures ≡ captures }
        ensures named { names_of_match result ≡ shared_names group_names }
    {
        Match {
            range,
            captures,
            group_names,
        }
    }

    /// The range of a group, in bytes of the text that was searched: 0 is the whole match, and 1 the first capturing
    /// group. `None` where the group took no part, and past the last one.
    ///
    /// ```rust
    /// let first = found.group(1);
    /// ```
    pub fn group(&self, index: usize) -> Option<Range>
        ensures whole { index ≡ 0 → result ≡ Some self.now.range }
        ensures capture { 0 < index → index ≤ vec_len self.now.captures
            → slice_get self.now.captures.items (index - 1) ≡ Some result }
        ensures past { vec_len self.now.captures < index → result ≡ None }
        ensures value { result ≡ range_numbered self.now index }
        ensures inside { (bytes : List ℕ) → LiesInText bytes self.now → IfSome result (LiesBetween bytes) }
    {
        if index == 0 {
            return Some(self.range());
        }
        match self.captures.get(index - 1) {
            Some(range) => copied(range),
            None => None,
        }
    }

    /// The range of the first capturing group with a name, in bytes of the text that was searched. `None` where that group
    /// took no part, where no group has the name, and for the empty name.
    ///
    /// ```rust
    /// let year = found.named_group("year");
    /// ```
    pub fn named_group(&self, name: &str) -> Option<Range>
        ensures first { (k : ℕ) → IsFirstNamed name.now (names_of_match self.now) k
            → result ≡ unwrap_or (slice_get self.now.captures.items k) None }
        ensures nowhere { ((k : ℕ) → slice_get (names_of_match self.now) k ≢ Some name.now) → result ≡ None }
        ensures empty { name.now ≡ [] → result ≡ None }
        ensures value { result ≡ range_named self.now name.now }
        ensures inside { (bytes : List ℕ) → LiesInText bytes self.now → IfSome result (LiesBetween bytes) }
    {
        if name.is_empty() {
            return None;
        }
        self.group(first_named(&self.group_names, name)? + 1)
    }

    /// The range of the group with a name, in bytes of the text that was searched: of several groups with the name, the first
    /// that took part, as `groups` of a match has it in ECMAScript ("RegExpBuiltinExec"). `None` where no such group took part,
    /// where no group has the name, and for the empty name.
    ///
    /// ```rust
    /// let digits = found.name("n"); // for `(?<n>a)|(?<n>b)` on `b` `Some(0..1)`
    /// ```
    pub fn name(&self, name: &str) -> Option<Range>
        ensures value { result ≡ named_taken (names_of_match self.now) self.now.captures.items name.now }
        ensures inside { (bytes : List ℕ) → LiesInText bytes self.now → IfSome result (LiesBetween bytes) }
    {
        if name.is_empty() {
            return None;
        }
        taken(self, name)
    }

    /// The name of each capturing group in order of its number, empty where it has none.
    ///
    /// ```rust
    /// for (index, name) in found.group_names().iter().enumerate() {
    ///     let range = found.group(index + 1);
    /// }
    /// ```
    pub fn group_names(&self) -> &[CaptureGroupName]
        ensures { map string_bytes result.now ≡ names_of_match self.now }
    {
        &self.group_names
    }

    /// Each name of a group once, in order of first appearance, with the range of the first group of that name that took
    /// part; `None` where none did.
    ///
    /// ```rust
    /// for (name, range) in found.named_groups() {
    ///     // for `(?<n>a)|(?<n>b)` on `b` `n` and `Some(0..1)`
    /// }
    /// ```
    pub fn named_groups(&self) -> NamedGroups<'_>
        ensures { named_left result ≡ named_from self.now 0 }
    {
        NamedGroups::of(self)
    }

    /// The range of the whole match and then that of each capturing group, as `group` answers them one after another.
    ///
    /// ```rust
    /// for group in found.groups() {
    ///     // the whole match, then each capturing group
    /// }
    /// ```
    pub fn groups(&self) -> Groups<'_>
        ensures { groups_left result ≡ groups_of self.now }
    {
        Groups::new(self)
    }

    /// Where the match lies, in bytes of the text that was searched.
    ///
    /// ```rust
    /// let range = found.range();
    /// ```
    pub fn range(&self) -> Range
        ensures { result ≡ self.now.range }
    {
        self.start()..self.end()
    }

    /// The offset in bytes of the start of the match, in the text that was searched.
    ///
    /// ```rust
    /// let start = found.start();
    /// ```
    pub fn start(&self) -> usize
        ensures { result ≡ self.now.range.start }
    {
        self.range.start
    }

    /// The offset in bytes of the end of the match, in the text that was searched.
    ///
    /// ```rust
    /// let rest = regex.find_from(text, found.end())?;
    /// ```
    pub fn end(&self) -> usize
        ensures { result ≡ self.now.range.end }
    {
        self.range.end
    }

    /// How many bytes of the text that was searched the match takes.
    ///
    /// ```rust
    /// let len = found.len(); // for the match at 1..4 it is 3
    /// ```
    pub fn len(&self) -> usize
        ensures { result ≡ self.now.range.end - self.now.range.start }
    {
        self.end().saturating_sub(self.start())
    }

    /// Whether the match takes nothing.
    ///
    /// ```rust
    /// let empty = found.is_empty(); // for the match at 2..2 true
    /// ```
    pub fn is_empty(&self) -> bool
        ensures { IsTrue result ↔ (self.now.range.end ≤ self.now.range.start) }
    {
        self.end() <= self.start()
    }

    /// The part of `text` at which the match lies, where `text` is the text that was searched. In any other text both ends
    /// have to lie between characters, the start no later than the end.
    ///
    /// ```rust
    /// let part = found.as_str(text);
    /// ```
    pub fn as_str<'t>(&self, text: &'t str) -> &'t str
        requires ordered { self.now.range.start ≤ self.now.range.end }
        requires start_inside { IsCharBoundary text.now self.now.range.start }
        requires end_inside { IsCharBoundary text.now self.now.range.end }
        ensures { result.now ≡ slice_range text.now self.now.range.start self.now.range.end }
    {
        &text[self.range()]
    }

    /// The part of `text` that a group took, by the number of the group as `group` counts, where `text` is the text that was
    /// searched. `None` where the group took no part, and past the last one.
    ///
    /// Asks that the match lies in `text`, as one that was found there does.
    ///
    /// ```rust
    /// let year = found.group_str(text, 1);
    /// ```
    pub fn group_str<'t>(&self, text: &'t str, index: usize) -> Option<&'t str>
        requires { LiesInText text.now self.now }
        ensures { option_copied result ≡ option_map (part_of text.now) (range_numbered self.now index) }
    {
        let range = self.group(index)?;
        Some(&text[range])
    }

    /// The part of `text` that the first group with a name took, where `text` is the text that was searched. `None` where that
    /// group took no part, where no group has the name, and for the empty name.
    ///
    /// Asks that the match lies in `text`, as one that was found there does.
    ///
    /// ```rust
    /// let year = found.named_str(text, "year");
    /// ```
    pub fn named_str<'t>(&self, text: &'t str, name: &str) -> Option<&'t str>
        requires { LiesInText text.now self.now }
        ensures { option_copied result ≡ option_map (part_of text.now) (range_named self.now name.now) }
    {
        let range = self.named_group(name)?;
        Some(&text[range])
    }

    /// An equal match, which shares the names of its groups with this one. Errs with `OutOfMemory` alone.
    ///
    /// ```rust
    /// let kept = found.try_clone()?;
    /// ```
    pub fn try_clone(&self) -> Result<Match, Error>
        ensures range { IfOk result (λ m. m.range ≡ self.now.range) }
        ensures captures { IfOk result (λ m. m.captures.items ≡ self.now.captures.items) }
        ensures named { IfOk result (λ m. names_of_match m ≡ names_of_match self.now) }
        ensures refused { IsOkUnless result Error.OutOfMemory }
    {
        let groups = self.captures.clone()?;
        let group_names = self.group_names.clone()?;
        Ok(Match::new(self.range(), groups, group_names))
    }
}
