//! Searches in 16-bit units.
ghost use Rattle.std.specs.Prelude.{ℕ};
ghost use Rattle.regress_meaning.specs.Offsets.{of_utf16, of_ucs2, Begins};

use crate::api::Regex;
use regress_front::Error;
use regress_programs::{Ucs2Matches, Utf16Matches};

impl Regex {
    ghost use Rattle.std.specs.Prelude.{◌≡◌, IfOk, IsOkUnless, map};
    ghost use Rattle.regress_meaning.specs.Table.{Table};
    ghost use Rattle.regress_meaning.specs.Pattern.{Pattern};
    ghost use Rattle.regress_meaning.specs.Flags.{Options};
    ghost use Rattle.regress_meaning.specs.Matches.{match_list};
    ghost use Rattle.regress_meaning.specs.Offsets.{characters, told};
    ghost use Rattle.regress_front.specs.Trees.{Tree};
    ghost use Rattle.regress.specs.Standing.{StandsInUnits, HasTreeInUnits, tree_list_in_units};
    ghost use Rattle.regress.specs.Units.{search_in_utf16, search_in_ucs2, coming_in_utf16, coming_in_ucs2, IsMatchInUnits};
    ghost use Rattle.regress.specs.Coming.{HoldsOfEach};

    /// The matches in units of UTF-16 from `start` on, an offset in units, their ranges told in units ("RegExpBuiltinExec"). A
    /// high unit before a low one is one character, any other unit is one alone, so any units may be searched.
    ///
    /// Asks that a search may begin there, as `is_unit_start` tells. Past the end there is none. Errs with `OutOfMemory` alone.
    ///
    /// ```rust
    /// let first = regex.find_from_utf16(&[0xD83D, 0xDE00], 0)?.next(); // for `.` the match at 0..2
    /// ```
    pub fn find_from_utf16<'r, 't>(
        &'r self,
        units: &'t [u16],
        start: usize,
    ) -> Result<Utf16Matches<'r, 't>, Error>
        requires { (place : ℕ) × Begins (of_utf16 units.now) start place }
        ensures matches { (t : Table) → (o : Options) → (p : Pattern) → StandsInUnits self.now t o p →
            (place : ℕ) → Begins (of_utf16 units.now) start place →
            IfOk result (λ ms. coming_in_utf16 ms ≡ map (told (of_utf16 units.now)) (match_list t o p (characters units.now) place)) }
        ensures matches_of_tree { (n : ℕ) → (t : Tree) → HasTreeInUnits self.now n t →
            (place : ℕ) → Begins (of_utf16 units.now) start place →
            IfOk result (λ ms. coming_in_utf16 ms ≡ map (told (of_utf16 units.now)) (tree_list_in_units self.now n t (characters units.now) place)) }
        ensures over { IfOk result (λ ms. (search_in_utf16 ms).view.units ≡ units.now) }
        ensures inside { IfOk result (HoldsOfEach ⟦<Utf16Matches<'r, 't> as Iterator>⟧.next_gives (IsMatchInUnits (of_utf16 units.now) units.now)) }
        ensures refused { IsOkUnless result Error.OutOfMemory }
    {
        Ok(Utf16Matches::new(self.alloc, &self.compiled, units, start))
    }

    /// The matches in 16-bit units that are each one character, from `start` on, an offset in units, their ranges told in units
    /// ("RegExpBuiltinExec"). Any units may be searched, from any start. Past the end there is none. Errs with `OutOfMemory` alone.
    ///
    /// ```rust
    /// let first = regex.find_from_ucs2(&[0xD83D, 0xDE00], 0)?.next(); // for `.` the match at 0..1
    /// ```
    pub fn find_from_ucs2<'r, 't>(
        &'r self,
        units: &'t [u16],
        start: usize,
    ) -> Result<Ucs2Matches<'r, 't>, Error>
        ensures matches { (t : Table) → (o : Options) → (p : Pattern) → StandsInUnits self.now t o p →
            (place : ℕ) → Begins (of_ucs2 units.now) start place →
            IfOk result (λ ms. coming_in_ucs2 ms ≡ map (told (of_ucs2 units.now)) (match_list t o p units.now place)) }
        ensures matches_of_tree { (n : ℕ) → (t : Tree) → HasTreeInUnits self.now n t →
            (place : ℕ) → Begins (of_ucs2 units.now) start place →
            IfOk result (λ ms. coming_in_ucs2 ms ≡ map (told (of_ucs2 units.now)) (tree_list_in_units self.now n t units.now place)) }
        ensures over { IfOk result (λ ms. (search_in_ucs2 ms).view.units ≡ units.now) }
        ensures inside { IfOk result (HoldsOfEach ⟦<Ucs2Matches<'r, 't> as Iterator>⟧.next_gives (IsMatchInUnits (of_ucs2 units.now) units.now)) }
        ensures refused { IsOkUnless result Error.OutOfMemory }
    {
        Ok(Ucs2Matches::new(self.alloc, &self.compiled, units, start))
    }
}
