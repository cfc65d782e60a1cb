//! The match that begins at one place, with no search ("RegExpBuiltinExec" with `y`).
ghost use Rattle.std.specs.Prelude.{◌≡◌, ℕ, All, IfOk, IfSome, IsOkUnless, chars, option_map};
ghost use Rattle.std.specs.Str.{IsAscii};
ghost use Rattle.regress_meaning.specs.Table.{Table};
ghost use Rattle.regress_meaning.specs.Pattern.{Pattern};
ghost use Rattle.regress_meaning.specs.Flags.{Options};
ghost use Rattle.regress_meaning.specs.Offsets.{Begins, characters, of_ucs2, of_utf8, of_utf16, told};
ghost use Rattle.regress_front.specs.Trees.{Tree};
ghost use Rattle.regress_match.specs.GroupViews.{names_of_match};
ghost use Rattle.regress_match.specs.Views.{item_of};
ghost use Rattle.regress.specs.Outcomes.{outcome_at};

use crate::api::Regex;
use regress_engine_inputs::{AsciiInput, Ucs2Input, Utf8Input, Utf16Input};
use regress_engine_search::Unbounded;
use regress_front::Error;
use regress_match::Match;
use regress_programs::{Anchored, first_within};

impl Regex {
    ghost use Rattle.regress_match.specs.TextRanges.{LiesInText};
    ghost use Rattle.regress.specs.Standing.{StandsFor, StandsInUnits, HasTree, HasTreeInUnits, names_of_regex, tree_outcome, tree_outcome_in_units};
    ghost use Rattle.regress.specs.Coming.{BeginsAndEndsAtStarts};
    ghost use Rattle.regress.specs.Units.{IsMatchInUnits};

    /// The match that begins at `start`, an offset in bytes, with no search ("RegExpBuiltinExec" with `y`): the most preferred
    /// outcome there, its ranges told in bytes. `None` where the pattern has none there, whatever later places have, and past the end.
    ///
    /// Asks that a search may begin there, as `is_start` tells. Errs with `OutOfMemory` alone.
    ///
    /// ```rust
    /// let found = regex.match_at("xaab", 1)?; // for `a+b` the match at 1..4, and `None` at 0
    /// ```
    pub fn match_at(&self, text: &str, start: usize) -> Result<Option<Match>, Error>
        requires { (place : ℕ) × Begins (of_utf8 text.now) start place }
        ensures found { (t : Table) → (o : Options) → (p : Pattern) → StandsFor self.now t o p →
            (place : ℕ) → Begins (of_utf8 text.now) start place →
            IfOk result (λ found. option_map item_of found ≡ option_map (told (of_utf8 text.now)) (outcome_at t o p (chars text.now) place)) }
        ensures found_of_tree { (n : ℕ) → (t : Tree) → HasTree self.now n t →
            (place : ℕ) → Begins (of_utf8 text.now) start place →
            IfOk result (λ found. option_map item_of found ≡ option_map (told (of_utf8 text.now)) (tree_outcome self.now n t (chars text.now) place)) }
        ensures begins { IfOk result (λ found. IfSome found (λ m. m.range.start ≡ start)) }
        ensures inside { IfOk result (λ found. IfSome found (LiesInText text.now)) }
        ensures starts { IfOk result (λ found. IfSome found (BeginsAndEndsAtStarts text.now)) }
        ensures named { IfOk result (λ found. IfSome found (λ m. names_of_match m ≡ names_of_regex self.now)) }
        ensures refused { IsOkUnless result Error.OutOfMemory }
    {
        let program = &self.compiled.byte_program;
        let input = Utf8Input::new(text, program.flags().is_unicode(), program.tables());
        let found = first_within(
            self.alloc,
            program,
            None,
            input,
            Anchored::Yes,
            start,
            Unbounded,
        )?;
        Ok(found)
    }

    /// The match that begins at `start` in a text of ASCII, as `match_at` answers it.
    ///
    /// Asks that the text is ASCII, as `is_ascii_text` tells; a match may begin at any offset. Errs with `OutOfMemory` alone.
    ///
    /// ```rust
    /// let found = regex.match_at_ascii("xaab", 1)?; // for `a+b` the match at 1..4
    /// ```
    pub fn match_at_ascii(&self, text: &str, start: usize) -> Result<Option<Match>, Error>
        requires { IsAscii text.now }
        ensures found { (t : Table) → (o : Options) → (p : Pattern) → StandsFor self.now t o p →
            (place : ℕ) → Begins (of_utf8 text.now) start place →
            IfOk result (λ found. option_map item_of found ≡ option_map (told (of_utf8 text.now)) (outcome_at t o p (chars text.now) place)) }
        ensures found_of_tree { (n : ℕ) → (t : Tree) → HasTree self.now n t →
            (place : ℕ) → Begins (of_utf8 text.now) start place →
            IfOk result (λ found. option_map item_of found ≡ option_map (told (of_utf8 text.now)) (tree_outcome self.now n t (chars text.now) place)) }
        ensures begins { IfOk result (λ found. IfSome found (λ m. m.range.start ≡ start)) }
        ensures inside { IfOk result (λ found. IfSome found (LiesInText text.now)) }
        ensures starts { IfOk result (λ found. IfSome found (BeginsAndEndsAtStarts text.now)) }
        ensures named { IfOk result (λ found. IfSome found (λ m. names_of_match m ≡ names_of_regex self.now)) }
        ensures refused { IsOkUnless result Error.OutOfMemory }
    {
        let program = &self.compiled.byte_program;
        let input = AsciiInput::new(text, program.flags().is_unicode(), program.tables());
        let found = first_within(
            self.alloc,
            program,
            None,
            input,
            Anchored::Yes,
            start,
            Unbounded,
        )?;
        Ok(found)
    }

    /// The match that begins at `start` in units of UTF-16, an offset in units, its ranges told in units, as `match_at` answers
    /// it. A high unit before a low one is one character, as `find_from_utf16` has it.
    ///
    /// Asks that a search may begin there, as `is_unit_start` tells. Errs with `OutOfMemory` alone.
    ///
    /// ```rust
    /// let found = regex.match_at_utf16(&[0x61, 0xD83D, 0xDE00], 1)?; // for `.` the match at 1..3
    /// ```
    pub fn match_at_utf16(&self, units: &[u16], start: usize) -> Result<Option<Match>, Error>
        requires { (place : ℕ) × Begins (of_utf16 units.now) start place }
        ensures found { (t : Table) → (o : Options) → (p : Pattern) → StandsInUnits self.now t o p →
            (place : ℕ) → Begins (of_utf16 units.now) start place →
            IfOk result (λ found. option_map item_of found ≡ option_map (told (of_utf16 units.now)) (outcome_at t o p (characters units.now) place)) }
        ensures found_of_tree { (n : ℕ) → (t : Tree) → HasTreeInUnits self.now n t →
            (place : ℕ) → Begins (of_utf16 units.now) start place →
            IfOk result (λ found. option_map item_of found ≡ option_map (told (of_utf16 units.now)) (tree_outcome_in_units self.now n t (characters units.now) place)) }
        ensures begins { IfOk result (λ found. IfSome found (λ m. m.range.start ≡ start)) }
        ensures inside { IfOk result (λ found. IfSome found (IsMatchInUnits (of_utf16 units.now) units.now)) }
        ensures refused { IsOkUnless result Error.OutOfMemory }
    {
        let program = &self.compiled.unit_program;
        let input = Utf16Input::new(units, program.flags().is_unicode(), program.tables());
        let found = first_within(
            self.alloc,
            program,
            None,
            input,
            Anchored::Yes,
            start,
            Unbounded,
        )?;
        Ok(found)
    }

    /// The match that begins at `start` in 16-bit units that are each one character, an offset in units, its ranges told in
    /// units, as `match_at` answers it. A match may begin at any offset. Errs with `OutOfMemory` alone.
    ///
    /// ```rust
    /// let found = regex.match_at_ucs2(&[0x61, 0xD83D, 0xDE00], 1)?; // for `.` the match at 1..2
    /// ```
    pub fn match_at_ucs2(&self, units: &[u16], start: usize) -> Result<Option<Match>, Error>
        ensures found { (t : Table) → (o : Options) → (p : Pattern) → StandsInUnits self.now t o p →
            (place : ℕ) → Begins (of_ucs2 units.now) start place →
            IfOk result (λ found. option_map item_of found ≡ option_map (told (of_ucs2 units.now)) (outcome_at t o p units.now place)) }
        ensures found_of_tree { (n : ℕ) → (t : Tree) → HasTreeInUnits self.now n t →
            (place : ℕ) → Begins (of_ucs2 units.now) start place →
            IfOk result (λ found. option_map item_of found ≡ option_map (told (of_ucs2 units.now)) (tree_outcome_in_units self.now n t units.now place)) }
        ensures begins { IfOk result (λ found. IfSome found (λ m. m.range.start ≡ start)) }
        ensures inside { IfOk result (λ found. IfSome found (IsMatchInUnits (of_ucs2 units.now) units.now)) }
        ensures refused { IsOkUnless result Error.OutOfMemory }
    {
        let program = &self.compiled.unit_program;
        let input = Ucs2Input::new(units, program.flags().is_unicode(), program.tables());
        let found = first_within(
            self.alloc,
            program,
            None,
            input,
            Anchored::Yes,
            start,
            Unbounded,
        )?;
        Ok(found)
    }
}
