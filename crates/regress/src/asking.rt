//! What is asked of a compiled pattern beside its matches.
ghost use Rattle.std.specs.Prelude.{◌≡◌, ◌+◌, ◌↔◌, ◌≢◌, ℕ, List, [], length, map, chars, string_bytes, Some, IfOk, IfSome, IsTrue, IsOkUnless};
ghost use Rattle.std.specs.Str.{IsUtf8};
ghost use Rattle.regress_meaning.specs.Table.{Table};
ghost use Rattle.regress_meaning.specs.Pattern.{Pattern};
ghost use Rattle.regress_meaning.specs.Flags.{Options};
ghost use Rattle.regress_meaning.specs.Matches.{match_list};
ghost use Rattle.regress_meaning.specs.Offsets.{of_utf8, Begins};
ghost use Rattle.regress_front.specs.Trees.{Tree};
ghost use Rattle.regress.specs.Literals.{IsNowhereIn, byte_by};
ghost use Rattle.regress_programs.specs.Tables.{byte_table_of, unit_table_of};
ghost use Rattle.regress.specs.Standing.{StandsFor, StandsInUnits, HasTree, byte_target, unit_target, tree_list, source_of, names_of_regex};

use crate::api::Regex;
use regress_engine_prefix::{Landmark, StartPredicate};
use regress_front::{CaptureGroupName, Error};
use regress_programs::Compiled;
use std::fmt;
use std::slice::from_ref;

/// The byte that a landmark is.
fn byte_of(landmark: &Landmark) -> &u8
    ensures { result.now ≡ byte_by landmark.now }
{
    match landmark {
        Landmark::Ahead { byte, .. } | Landmark::BehindRun { byte, .. } => byte,
    }
}

impl Regex {
    /// Whether there is a match in a text ("RegExp.prototype.test"). Errs with `OutOfMemory` alone.
    ///
    /// ```rust
    /// let found = regex.is_match("xaab")?; // for `a+b` true
    /// ```
    pub fn is_match(&self, text: &str) -> Result<bool, Error>
        ensures found { (t : Table) → (o : Options) → (p : Pattern) → StandsFor self.now t o p →
            IfOk result (λ found. IsTrue found ↔ (match_list t o p (chars text.now) 0 ≢ [])) }
        ensures found_of_tree { (n : ℕ) → (t : Tree) → HasTree self.now n t →
            IfOk result (λ found. IsTrue found ↔ (tree_list self.now n t (chars text.now) 0 ≢ [])) }
        ensures refused { IsOkUnless result Error.OutOfMemory }
    {
        Ok(self.find(text)?.is_some())
    }

    /// Whether there is a match in a text from `start` on, an offset in bytes ("RegExp.prototype.test").
    ///
    /// Asks that a search may begin there, as `is_start` tells. Past the end of the text there is none. Errs with `OutOfMemory` alone.
    ///
    /// ```rust
    /// let found = regex.is_match_from("aab", 3)?; // for `a+b` false
    /// ```
    pub fn is_match_from(&self, text: &str, start: usize) -> Result<bool, Error>
        requires { (place : ℕ) × Begins (of_utf8 text.now) start place }
        ensures found { (t : Table) → (o : Options) → (p : Pattern) → StandsFor self.now t o p →
            (place : ℕ) → Begins (of_utf8 text.now) start place →
            IfOk result (λ found. IsTrue found ↔ (match_list t o p (chars text.now) place ≢ [])) }
        ensures found_of_tree { (n : ℕ) → (t : Tree) → HasTree self.now n t →
            (place : ℕ) → Begins (of_utf8 text.now) start place →
            IfOk result (λ found. IsTrue found ↔ (tree_list self.now n t (chars text.now) place ≢ [])) }
        ensures refused { IsOkUnless result Error.OutOfMemory }
    {
        Ok(self.find_from(text, start)?.next().transpose()?.is_some())
    }

    /// The bytes that each match begins with, where two or more are known. A text in which they stand nowhere has no match, so it
    /// need not be searched.
    ///
    /// ```rust
    /// let bytes = regex.literal_prefix(); // for `harbour (\w+)` those of `harbour `
    /// ```
    pub fn literal_prefix(&self) -> Option<&[u8]>
        ensures needed { (t : Table) → (o : Options) → (p : Pattern) → StandsFor self.now t o p → (text : List ℕ) → IsUtf8 text → (place : ℕ) →
            IfSome result (λ bytes. IsNowhereIn bytes.now text → match_list t o p (chars text) place ≡ []) }
        ensures needed_by_tree { (n : ℕ) → (t : Tree) → HasTree self.now n t → (text : List ℕ) → IsUtf8 text → (place : ℕ) →
            IfSome result (λ bytes. IsNowhereIn bytes.now text → tree_list self.now n t (chars text) place ≡ []) }
    {
        match self.compiled.byte_program.start_pred() {
            StartPredicate::ByteSeq(bytes) => Some(bytes),
            _ => None,
        }
    }

    /// Bytes that stand in each text in which there is a match, where such are known: two or more that each match begins with, or one
    /// that stands by where it begins. A text in which they stand nowhere need not be searched.
    ///
    /// ```rust
    /// let bytes = regex.required_literal(); // for `\d{4}-(\d\d)` those of `-`, and for `harbour (\w+)` those of `harbour `
    /// ```
    pub fn required_literal(&self) -> Option<&[u8]>
        ensures needed { (t : Table) → (o : Options) → (p : Pattern) → StandsFor self.now t o p → (text : List ℕ) → IsUtf8 text → (place : ℕ) →
            IfSome result (λ bytes. IsNowhereIn bytes.now text → match_list t o p (chars text) place ≡ []) }
        ensures needed_by_tree { (n : ℕ) → (t : Tree) → HasTree self.now n t → (text : List ℕ) → IsUtf8 text → (place : ℕ) →
            IfSome result (λ bytes. IsNowhereIn bytes.now text → tree_list self.now n t (chars text) place ≡ []) }
    {
        match self.compiled.byte_program.start_pred() {
            StartPredicate::ByteNear(_, landmark) => Some(from_ref(byte_of(landmark))),
            _ => self.literal_prefix(),
        }
    }

    /// What the pattern was compiled to: its programs, as `Searcher` takes them.
    ///
    /// ```rust
    /// let program = &regex.compiled().byte_program;
    /// ```
    pub fn compiled(&self) -> &Compiled
        ensures { result.now ≡ self.now.compiled }
    {
        &self.compiled
    }

    /// The name of each capturing group in order of its number, empty where it has none.
    ///
    /// ```rust
    /// let names = regex.group_names(); // for `(?<year>\d+)-(\d+)` it is `["year", ""]`
    /// ```
    pub fn group_names(&self) -> &[CaptureGroupName]
        ensures { map string_bytes result.now ≡ names_of_regex self.now }
    {
        self.compiled.byte_program.group_names()
    }

    /// How many groups a match has, the whole match among them: as many as `Match::groups` gives.
    ///
    /// ```rust
    /// let count = regex.captures_len(); // for `(?<year>\d+)-(\d+)` it is 3
    /// ```
    pub fn captures_len(&self) -> usize
        ensures { result ≡ length (names_of_regex self.now) + 1 }
    {
        self.group_names().len() + 1
    }

    /// The same regex once more: it stands for the same pattern, has the same text, and is linear if this is. Errs with
    /// `OutOfMemory` alone.
    ///
    /// ```rust
    /// let copy = regex.try_clone()?;
    /// ```
    pub fn try_clone(&self) -> Result<Regex, Error>
        ensures stands { (t : Table) → (o : Options) → (p : Pattern) → StandsFor self.now t o p → IfOk result (λ r. StandsFor r t o p) }
        ensures stands_in_units { (t : Table) → (o : Options) → (p : Pattern) → StandsInUnits self.now t o p → IfOk result (λ r. StandsInUnits r t o p) }
        ensures named { IfOk result (λ r. names_of_regex r ≡ names_of_regex self.now) }
        ensures programs { IfOk result (λ r. (byte_target r ≡ byte_target self.now) × (unit_target r ≡ unit_target self.now)) }
        ensures text { IfOk result (λ r. source_of r ≡ source_of self.now) }
        ensures linear { IfOk result (λ r. (byte_table_of r.compiled ≡ byte_table_of self.now.compiled) × (unit_table_of r.compiled ≡ unit_table_of self.now.compiled)) }
        ensures refused { IsOkUnless result Error.OutOfMemory }
    {
        let source = match &self.source {
            Some(text) => Some(text.clone()?),
            None => None,
        };
        let compiled = self.compiled.try_clone(self.alloc)?;
        Ok(Regex {
            alloc: self.alloc,
            source,
            compiled,
        })
    }

    /// The pattern's text. In that of a pattern that was given as code points, U+FFFD stands for each surrogate; that of a regex
    /// of programs is empty.
    ///
    /// ```rust
    /// let text = regex.as_str(); // `a+b`
    /// ```
    pub fn as_str(&self) -> &str
        ensures { result.now ≡ source_of self.now }
    {
        match &self.source {
            Some(source) => source.as_str(),
            None => "",
        }
    }
}

/// The pattern's text, as `as_str` answers it.
impl fmt::Display for Regex {
    ghost output = { λ r. Some (source_of r) };

    fn fmt<W: fmt::Write>(&self, f: &mut fmt::Formatter<W>) -> fmt::Result {
        f.write_str(self.as_str())
    }
}
