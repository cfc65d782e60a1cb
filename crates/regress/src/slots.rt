//! Matches that are written to slots of the caller, over a scratch that is kept from one search to the next.
ghost use Rattle.std.specs.Prelude.{◌≡◌, ℕ, IfOk, IfSome, OnErr, IsOkUnless, chars, option_map, slice_get};
ghost use Rattle.regress_meaning.specs.Table.{Table};
ghost use Rattle.regress_meaning.specs.Pattern.{Pattern};
ghost use Rattle.regress_meaning.specs.Flags.{Options};
ghost use Rattle.regress_meaning.specs.Matches.{match_list};
ghost use Rattle.regress_meaning.specs.Offsets.{Begins, characters, of_ucs2, of_utf8, of_utf16, told};
ghost use Rattle.regress_front.specs.Trees.{Tree};
ghost use Rattle.regress_match.specs.Slots.{Fills};
ghost use Rattle.regress.specs.Outcomes.{outcome_at};

use crate::api::Regex;
use regress_engine_inputs::{Ucs2Input, Utf8Input, Utf16Input};
use regress_front::Error;
use regress_match::Range;
use regress_programs::{Anchored, Scratch, find_into};

impl Regex {
    ghost use Rattle.regress.specs.Standing.{StandsFor, StandsInUnits, HasTree, HasTreeInUnits, tree_list, tree_list_in_units, tree_outcome, tree_outcome_in_units};
    ghost use Rattle.regress.specs.Slotted.{SlotsLieInText, SlotsLieInUnits, EndsAreStarts};

    /// The first match from `start` on, an offset in bytes, written to `slots` ("RegExpBuiltinExec"): slot 0 gets the range of the
    /// match, slot i that of group i, as many as there is room for, and a slot behind the last group gets `None`. Ranges are in
    /// bytes. It answers the range of the match, or `None` where there is none; then the slots stay as they were.
    ///
    /// The scratch is what the search needs room for; it is kept, for searches of whatever regexes and texts, so that a search
    /// asks for no memory but where it needs more room than all before it, or has gone back so often that it remembers what fails.
    ///
    /// Asks that a search may begin at `start`, as `is_start` tells. Past the end of the text there is none. Errs with
    /// `OutOfMemory` alone, and then the slots stay as they were.
    ///
    /// ```rust
    /// let mut scratch = Scratch::new(alloc);
    /// let mut slots = [None, None];
    /// let range = regex.find_into(&mut scratch, "xaab", 0, &mut slots)?; // for `(a+)b` 1..4, and `slots[1]` is `Some(1..3)`
    /// ```
    pub fn find_into(
        &self,
        scratch: &mut Scratch,
        text: &str,
        start: usize,
        slots: &mut [Option<Range>],
    ) -> Result<Option<Range>, Error>
        requires { (place : ℕ) × Begins (of_utf8 text.now) start place }
        ensures found { (t : Table) → (o : Options) → (p : Pattern) → StandsFor self.now t o p →
            (place : ℕ) → Begins (of_utf8 text.now) start place →
            IfOk result (λ found. Fills (option_map (told (of_utf8 text.now)) (slice_get (match_list t o p (chars text.now) place) 0)) found slots.old slots.new) }
        ensures found_of_tree { (n : ℕ) → (t : Tree) → HasTree self.now n t →
            (place : ℕ) → Begins (of_utf8 text.now) start place →
            IfOk result (λ found. Fills (option_map (told (of_utf8 text.now)) (slice_get (tree_list self.now n t (chars text.now) place) 0)) found slots.old slots.new) }
        ensures inside { IfOk result (λ found. SlotsLieInText text.now found slots.new) }
        ensures starts { IfOk result (EndsAreStarts text.now) }
        ensures untouched { OnErr result (slots.new ≡ slots.old) }
        ensures refused { IsOkUnless result Error.OutOfMemory }
    {
        let program = &self.compiled.byte_program;
        let input = Utf8Input::new(text, program.flags().is_unicode(), program.tables());
        let alloc = self.alloc;
        let found = find_into(alloc, scratch, program, input, Anchored::No, start, slots)?;
        Ok(found)
    }

    /// The match that begins at `start`, an offset in bytes, with no search ("RegExpBuiltinExec" with `y`), as `match_at` answers
    /// it, written to `slots` as `find_into` does.
    ///
    /// Asks that a search may begin there, as `is_start` tells. Errs with `OutOfMemory` alone, and then the slots stay as they were.
    ///
    /// ```rust
    /// let mut scratch = Scratch::new(alloc);
    /// let mut slots = [None];
    /// let range = regex.match_into(&mut scratch, "xaab", 1, &mut slots)?; // for `a+b` 1..4, and `None` at 0
    /// ```
    pub fn match_into(
        &self,
        scratch: &mut Scratch,
        text: &str,
        start: usize,
        slots: &mut [Option<Range>],
    ) -> Result<Option<Range>, Error>
        requires { (place : ℕ) × Begins (of_utf8 text.now) start place }
        ensures found { (t : Table) → (o : Options) → (p : Pattern) → StandsFor self.now t o p →
            (place : ℕ) → Begins (of_utf8 text.now) start place →
            IfOk result (λ found. Fills (option_map (told (of_utf8 text.now)) (outcome_at t o p (chars text.now) place)) found slots.old slots.new) }
        ensures found_of_tree { (n : ℕ) → (t : Tree) → HasTree self.now n t →
            (place : ℕ) → Begins (of_utf8 text.now) start place →
            IfOk result (λ found. Fills (option_map (told (of_utf8 text.now)) (tree_outcome self.now n t (chars text.now) place)) found slots.old slots.new) }
        ensures begins { IfOk result (λ found. IfSome found (λ r. r.start ≡ start)) }
        ensures inside { IfOk result (λ found. SlotsLieInText text.now found slots.new) }
        ensures starts { IfOk result (EndsAreStarts text.now) }
        ensures untouched { OnErr result (slots.new ≡ slots.old) }
        ensures refused { IsOkUnless result Error.OutOfMemory }
    {
        let program = &self.compiled.byte_program;
        let input = Utf8Input::new(text, program.flags().is_unicode(), program.tables());
        let alloc = self.alloc;
        let found = find_into(alloc, scratch, program, input, Anchored::Yes, start, slots)?;
        Ok(found)
    }

    /// The first match in units of UTF-16 from `start` on, as `find_from_utf16` has it, written to `slots` as `find_into` does.
    /// `start` and ranges are in units.
    ///
    /// Asks that a search may begin there, as `is_unit_start` tells. Errs with `OutOfMemory` alone.
    ///
    /// ```rust
    /// let mut scratch = Scratch::new(alloc);
    /// let mut slots = [None];
    /// let range = regex.find_into_utf16(&mut scratch, &[0xD83D, 0xDE00], 0, &mut slots)?; // for `.` 0..2
    /// ```
    pub fn find_into_utf16(
        &self,
        scratch: &mut Scratch,
        units: &[u16],
        start: usize,
        slots: &mut [Option<Range>],
    ) -> Result<Option<Range>, Error>
        requires { (place : ℕ) × Begins (of_utf16 units.now) start place }
        ensures found { (t : Table) → (o : Options) → (p : Pattern) → StandsInUnits self.now t o p →
            (place : ℕ) → Begins (of_utf16 units.now) start place →
            IfOk result (λ found. Fills (option_map (told (of_utf16 units.now)) (slice_get (match_list t o p (characters units.now) place) 0)) found slots.old slots.new) }
        ensures found_of_tree { (n : ℕ) → (t : Tree) → HasTreeInUnits self.now n t →
            (place : ℕ) → Begins (of_utf16 units.now) start place →
            IfOk result (λ found. Fills (option_map (told (of_utf16 units.now)) (slice_get (tree_list_in_units self.now n t (characters units.now) place) 0)) found slots.old slots.new) }
        ensures inside { IfOk result (λ found. SlotsLieInUnits (of_utf16 units.now) units.now found slots.new) }
        ensures untouched { OnErr result (slots.new ≡ slots.old) }
        ensures refused { IsOkUnless result Error.OutOfMemory }
    {
        let program = &self.compiled.unit_program;
        let input = Utf16Input::new(units, program.flags().is_unicode(), program.tables());
        let alloc = self.alloc;
        let found = find_into(alloc, scratch, program, input, Anchored::No, start, slots)?;
        Ok(found)
    }

    /// The match that begins at `start` in units of UTF-16, as `match_at_utf16` answers it, written to `slots` as `find_into` does.
    /// `start` and ranges are in units.
    ///
    /// Asks that a search may begin there, as `is_unit_start` tells. Errs with `OutOfMemory` alone.
    ///
    /// ```rust
    /// let mut scratch = Scratch::new(alloc);
    /// let mut slots = [None];
    /// let range = regex.match_into_utf16(&mut scratch, &[0xD83D, 0xDE00], 0, &mut slots)?; // for `.` 0..2
    /// ```
    pub fn match_into_utf16(
        &self,
        scratch: &mut Scratch,
        units: &[u16],
        start: usize,
        slots: &mut [Option<Range>],
    ) -> Result<Option<Range>, Error>
        requires { (place : ℕ) × Begins (of_utf16 units.now) start place }
        ensures found { (t : Table) → (o : Options) → (p : Pattern) → StandsInUnits self.now t o p →
            (place : ℕ) → Begins (of_utf16 units.now) start place →
            IfOk result (λ found. Fills (option_map (told (of_utf16 units.now)) (outcome_at t o p (characters units.now) place)) found slots.old slots.new) }
        ensures found_of_tree { (n : ℕ) → (t : Tree) → HasTreeInUnits self.now n t →
            (place : ℕ) → Begins (of_utf16 units.now) start place →
            IfOk result (λ found. Fills (option_map (told (of_utf16 units.now)) (tree_outcome_in_units self.now n t (characters units.now) place)) found slots.old slots.new) }
        ensures begins { IfOk result (λ found. IfSome found (λ r. r.start ≡ start)) }
        ensures inside { IfOk result (λ found. SlotsLieInUnits (of_utf16 units.now) units.now found slots.new) }
        ensures untouched { OnErr result (slots.new ≡ slots.old) }
        ensures refused { IsOkUnless result Error.OutOfMemory }
    {
        let program = &self.compiled.unit_program;
        let input = Utf16Input::new(units, program.flags().is_unicode(), program.tables());
        let alloc = self.alloc;
        let found = find_into(alloc, scratch, program, input, Anchored::Yes, start, slots)?;
        Ok(found)
    }

    /// The first match in 16-bit units that are each one character from `start` on, as `find_from_ucs2` has it, written to
    /// `slots` as `find_into` does. `start` and ranges are in units; a search may begin at any. Errs with `OutOfMemory` alone.
    ///
    /// ```rust
    /// let mut scratch = Scratch::new(alloc);
    /// let mut slots = [None];
    /// let range = regex.find_into_ucs2(&mut scratch, &[0xD83D, 0xDE00], 0, &mut slots)?; // for `.` 0..1
    /// ```
    pub fn find_into_ucs2(
        &self,
        scratch: &mut Scratch,
        units: &[u16],
        start: usize,
        slots: &mut [Option<Range>],
    ) -> Result<Option<Range>, Error>
        ensures found { (t : Table) → (o : Options) → (p : Pattern) → StandsInUnits self.now t o p →
            (place : ℕ) → Begins (of_ucs2 units.now) start place →
            IfOk result (λ found. Fills (option_map (told (of_ucs2 units.now)) (slice_get (match_list t o p units.now place) 0)) found slots.old slots.new) }
        ensures found_of_tree { (n : ℕ) → (t : Tree) → HasTreeInUnits self.now n t →
            (place : ℕ) → Begins (of_ucs2 units.now) start place →
            IfOk result (λ found. Fills (option_map (told (of_ucs2 units.now)) (slice_get (tree_list_in_units self.now n t units.now place) 0)) found slots.old slots.new) }
        ensures inside { IfOk result (λ found. SlotsLieInUnits (of_ucs2 units.now) units.now found slots.new) }
        ensures untouched { OnErr result (slots.new ≡ slots.old) }
        ensures refused { IsOkUnless result Error.OutOfMemory }
    {
        let program = &self.compiled.unit_program;
        let input = Ucs2Input::new(units, program.flags().is_unicode(), program.tables());
        let alloc = self.alloc;
        let found = find_into(alloc, scratch, program, input, Anchored::No, start, slots)?;
        Ok(found)
    }

    /// The match that begins at `start` in 16-bit units that are each one character, as `match_at_ucs2` answers it, written to
    /// `slots` as `find_into` does. `start` and ranges are in units; a match may begin at any. Errs with `OutOfMemory` alone.
    ///
    /// ```rust
    /// let mut scratch = Scratch::new(alloc);
    /// let mut slots = [None];
    /// let range = regex.match_into_ucs2(&mut scratch, &[0xD83D, 0xDE00], 1, &mut slots)?; // for `.` 1..2
    /// ```
    pub fn match_into_ucs2(
        &self,
        scratch: &mut Scratch,
        units: &[u16],
        start: usize,
        slots: &mut [Option<Range>],
    ) -> Result<Option<Range>, Error>
        ensures found { (t : Table) → (o : Options) → (p : Pattern) → StandsInUnits self.now t o p →
            (place : ℕ) → Begins (of_ucs2 units.now) start place →
            IfOk result (λ found. Fills (option_map (told (of_ucs2 units.now)) (outcome_at t o p units.now place)) found slots.old slots.new) }
        ensures found_of_tree { (n : ℕ) → (t : Tree) → HasTreeInUnits self.now n t →
            (place : ℕ) → Begins (of_ucs2 units.now) start place →
            IfOk result (λ found. Fills (option_map (told (of_ucs2 units.now)) (tree_outcome_in_units self.now n t units.now place)) found slots.old slots.new) }
        ensures begins { IfOk result (λ found. IfSome found (λ r. r.start ≡ start)) }
        ensures inside { IfOk result (λ found. SlotsLieInUnits (of_ucs2 units.now) units.now found slots.new) }
        ensures untouched { OnErr result (slots.new ≡ slots.old) }
        ensures refused { IsOkUnless result Error.OutOfMemory }
    {
        let program = &self.compiled.unit_program;
        let input = Ucs2Input::new(units, program.flags().is_unicode(), program.tables());
        let alloc = self.alloc;
        let found = find_into(alloc, scratch, program, input, Anchored::Yes, start, slots)?;
        Ok(found)
    }
}
