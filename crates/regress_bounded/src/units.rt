//! Searches in 16-bit units.
ghost use Rattle.std.specs.Prelude.{◌≡◌, ℕ, IfOk, IfSome, IsErrOf, IsOkUnless, map, option_map, false, true, Some};
ghost use Rattle.regress_meaning.specs.Table.{Table};
ghost use Rattle.regress_meaning.specs.Pattern.{Pattern};
ghost use Rattle.regress_meaning.specs.Flags.{Options};
ghost use Rattle.regress_meaning.specs.Matches.{match_list};
ghost use Rattle.regress_meaning.specs.Offsets.{Begins, characters, of_ucs2, of_utf16, told};
ghost use Rattle.regress_front.specs.Trees.{Tree};
ghost use Rattle.regress_match.specs.Views.{item_of};
ghost use Rattle.regress_matched.specs.Giving.{ErrsOnlyIf};
ghost use Rattle.regress_engine_search.specs.Search.{StartsAt};
ghost use Rattle.regress_engine_input.specs.Views.{ucs2, utf16};
ghost use Rattle.regress_programs.specs.declared.slots.Anchored.TheVariants.{Yes};
ghost use Rattle.regress_programs.specs.Coming.{HoldsOfEach};
ghost use Rattle.regress_programs.specs.Outcomes.{outcome_at};
ghost use Rattle.regress_programs.specs.Units.{IsMatchInUnits};

use crate::bounded::Bounded;
use crate::matches::BoundedMatches;
use regress_engine_exec::SearchError;
use regress_engine_inputs::{Ucs2Input, Utf16Input};
use regress_engine_search::StepsLeft;
use regress_match::Match;
use regress_programs::{Anchored, first_within};

impl<'r> Bounded<'r> {
    ghost use Rattle.regress_bounded.specs.Coming.{search_by, next_from, coming, budget_of, turns_of};
    ghost use Rattle.regress_bounded.specs.Standing.{StandsInUnits, HasTreeInUnits, tree_list_in_units, tree_outcome_in_units, TakesAllInUnits, TakesAllAlongUnits, enough_in_units, may_turn_in_units, steps_of, unit_program_of};
    ghost use Rattle.regress_bounded.specs.Stopping.{seen_by};
    ghost use Rattle.regress_bounded.specs.Together.{CountsAlong};

    /// The matches in units of UTF-16 from `start` on, an offset in units, their ranges told in units, as
    /// `Regex::find_from_utf16` answers them ("RegExpBuiltinExec"), in so many steps for all of them together.
    ///
    /// Asks that a search may begin there, as `is_unit_start` tells. Past the end there is none. Answers an iterator, each of
    /// whose calls errs as `find` does; after an error it has ended.
    ///
    /// ```rust
    /// let first = bounded.find_from_utf16(&[0xD83D, 0xDE00], 0)?.next(); // for `.` the match at 0..2
    /// ```
    pub fn find_from_utf16<'t>(
        &self,
        units: &'t [u16],
        start: usize,
    ) -> Result<BoundedMatches<'r, Utf16Input<'r, 't>>, SearchError>
        requires { (place : ℕ) × Begins (of_utf16 units.now) start place }
        ensures matches { (t : Table) → (o : Options) → (p : Pattern) → StandsInUnits self.now t o p →
            (place : ℕ) → Begins (of_utf16 units.now) start place →
            IfOk result (λ ms. coming ms ≡ map (told (of_utf16 units.now)) (match_list t o p (characters units.now) place)) }
        ensures matches_of_tree { (n : ℕ) → (t : Tree) → HasTreeInUnits self.now n t →
            (place : ℕ) → Begins (of_utf16 units.now) start place →
            IfOk result (λ ms. coming ms ≡ map (told (of_utf16 units.now)) (tree_list_in_units self.now n t (characters units.now) place)) }
        ensures over { IfOk result (λ ms. (search_by ms).view ≡ seen_by (unit_program_of self.now) utf16 units.now) }
        ensures program { IfOk result (λ ms. (search_by ms).compiled ≡ unit_program_of self.now) }
        ensures turns { IfOk result (λ ms. turns_of ms ≡ may_turn_in_units self.now units.now) }
        ensures steps { IfOk result (λ ms. turns_of ms ≡ false → budget_of ms ≡ steps_of self.now) }
        ensures lowered { IfOk result (λ ms. turns_of ms ≡ true → Some (budget_of ms) ≡ enough_in_units self.now units.now) }
        ensures begins { IfOk result (λ ms. StartsAt (search_by ms) start (next_from ms)) }
        ensures counted { IfOk result (λ ms. CountsAlong search_by next_from budget_of turns_of ms) }
        ensures stopped { IfOk result (ErrsOnlyIf ⟦<BoundedMatches<'r, Utf16Input<'r, 't>> as Iterator>⟧.next_gives SearchError.TooManySteps (TakesAllAlongUnits self.now utf16 units.now start)) }
        ensures inside { IfOk result (HoldsOfEach ⟦<BoundedMatches<'r, Utf16Input<'r, 't>> as Iterator>⟧.next_gives (IsMatchInUnits (of_utf16 units.now) units.now)) }
        ensures refused { IsOkUnless result SearchError.OutOfMemory }
    {
        let program = &self.compiled.unit_program;
        let table = self.compiled.unit_table();
        let input = Utf16Input::new(units, program.flags().is_unicode(), program.tables());
        Ok(BoundedMatches::new(self.alloc, program, table, input, start, self.steps))
    }

    /// The matches in 16-bit units that are each one character, from `start` on, an offset in units, their ranges told in units,
    /// as `Regex::find_from_ucs2` answers them ("RegExpBuiltinExec"), in so many steps for all of them together.
    ///
    /// A search may begin anywhere, and past the end there is none. Answers an iterator, each of whose calls errs as `find` does;
    /// after an error it has ended.
    ///
    /// ```rust
    /// let first = bounded.find_from_ucs2(&[0xD83D, 0xDE00], 0)?.next(); // for `.` the match at 0..1
    /// ```
    pub fn find_from_ucs2<'t>(
        &self,
        units: &'t [u16],
        start: usize,
    ) -> Result<BoundedMatches<'r, Ucs2Input<'r, 't>>, SearchError>
        ensures matches { (t : Table) → (o : Options) → (p : Pattern) → StandsInUnits self.now t o p →
            (place : ℕ) → Begins (of_ucs2 units.now) start place →
            IfOk result (λ ms. coming ms ≡ map (told (of_ucs2 units.now)) (match_list t o p units.now place)) }
        ensures matches_of_tree { (n : ℕ) → (t : Tree) → HasTreeInUnits self.now n t →
            (place : ℕ) → Begins (of_ucs2 units.now) start place →
            IfOk result (λ ms. coming ms ≡ map (told (of_ucs2 units.now)) (tree_list_in_units self.now n t units.now place)) }
        ensures over { IfOk result (λ ms. (search_by ms).view ≡ seen_by (unit_program_of self.now) ucs2 units.now) }
        ensures program { IfOk result (λ ms. (search_by ms).compiled ≡ unit_program_of self.now) }
        ensures turns { IfOk result (λ ms. turns_of ms ≡ may_turn_in_units self.now units.now) }
        ensures steps { IfOk result (λ ms. turns_of ms ≡ false → budget_of ms ≡ steps_of self.now) }
        ensures lowered { IfOk result (λ ms. turns_of ms ≡ true → Some (budget_of ms) ≡ enough_in_units self.now units.now) }
        ensures begins { IfOk result (λ ms. StartsAt (search_by ms) start (next_from ms)) }
        ensures counted { IfOk result (λ ms. CountsAlong search_by next_from budget_of turns_of ms) }
        ensures stopped { IfOk result (ErrsOnlyIf ⟦<BoundedMatches<'r, Ucs2Input<'r, 't>> as Iterator>⟧.next_gives SearchError.TooManySteps (TakesAllAlongUnits self.now ucs2 units.now start)) }
        ensures inside { IfOk result (HoldsOfEach ⟦<BoundedMatches<'r, Ucs2Input<'r, 't>> as Iterator>⟧.next_gives (IsMatchInUnits (of_ucs2 units.now) units.now)) }
        ensures refused { IsOkUnless result SearchError.OutOfMemory }
    {
        let program = &self.compiled.unit_program;
        let table = self.compiled.unit_table();
        let input = Ucs2Input::new(units, program.flags().is_unicode(), program.tables());
        Ok(BoundedMatches::new(self.alloc, program, table, input, start, self.steps))
    }

    /// The match that begins at `start` in units of UTF-16, an offset in units, its ranges told in units, as
    /// `Regex::match_at_utf16` answers it.
    ///
    /// Asks that a search may begin there, as `is_unit_start` tells. Errs as `match_at` does.
    ///
    /// ```rust
    /// let found = bounded.match_at_utf16(&[0x61, 0xD83D, 0xDE00], 1)?; // for `.` the match at 1..3
    /// ```
    pub fn match_at_utf16(&self, units: &[u16], start: usize) -> Result<Option<Match>, SearchError>
        requires { (place : ℕ) × Begins (of_utf16 units.now) start place }
        ensures found { (t : Table) → (o : Options) → (p : Pattern) → StandsInUnits self.now t o p →
            (place : ℕ) → Begins (of_utf16 units.now) start place →
            IfOk result (λ found. option_map item_of found ≡ option_map (told (of_utf16 units.now)) (outcome_at t o p (characters units.now) place)) }
        ensures found_of_tree { (n : ℕ) → (t : Tree) → HasTreeInUnits self.now n t →
            (place : ℕ) → Begins (of_utf16 units.now) start place →
            IfOk result (λ found. option_map item_of found ≡ option_map (told (of_utf16 units.now)) (tree_outcome_in_units self.now n t (characters units.now) place)) }
        ensures begins { IfOk result (λ found. IfSome found (λ m. m.range.start ≡ start)) }
        ensures inside { IfOk result (λ found. IfSome found (IsMatchInUnits (of_utf16 units.now) units.now)) }
        ensures stopped { IsErrOf result SearchError.TooManySteps → TakesAllInUnits self.now Yes utf16 units.now start }
    {
        let program = &self.compiled.unit_program;
        let table = self.compiled.unit_table();
        let input = Utf16Input::new(units, program.flags().is_unicode(), program.tables());
        let (alloc, steps) = (self.alloc, StepsLeft(self.steps));
        first_within(alloc, program, table, input, Anchored::Yes, start, steps)
    }

    /// The match that begins at `start` in 16-bit units that are each one character, an offset in units, its ranges told in
    /// units, as `Regex::match_at_ucs2` answers it. A match may begin at any offset. Errs as `match_at` does.
    ///
    /// ```rust
    /// let found = bounded.match_at_ucs2(&[0x61, 0xD83D, 0xDE00], 1)?; // for `.` the match at 1..2
    /// ```
    pub fn match_at_ucs2(&self, units: &[u16], start: usize) -> Result<Option<Match>, SearchError>
        ensures found { (t : Table) → (o : Options) → (p : Pattern) → StandsInUnits self.now t o p →
            (place : ℕ) → Begins (of_ucs2 units.now) start place →
            IfOk result (λ found. option_map item_of found ≡ option_map (told (of_ucs2 units.now)) (outcome_at t o p units.now place)) }
        ensures found_of_tree { (n : ℕ) → (t : Tree) → HasTreeInUnits self.now n t →
            (place : ℕ) → Begins (of_ucs2 units.now) start place →
            IfOk result (λ found. option_map item_of found ≡ option_map (told (of_ucs2 units.now)) (tree_outcome_in_units self.now n t units.now place)) }
        ensures begins { IfOk result (λ found. IfSome found (λ m. m.range.start ≡ start)) }
        ensures inside { IfOk result (λ found. IfSome found (IsMatchInUnits (of_ucs2 units.now) units.now)) }
        ensures stopped { IsErrOf result SearchError.TooManySteps → TakesAllInUnits self.now Yes ucs2 units.now start }
    {
        let program = &self.compiled.unit_program;
        let table = self.compiled.unit_table();
        let input = Ucs2Input::new(units, program.flags().is_unicode(), program.tables());
        let (alloc, steps) = (self.alloc, StepsLeft(self.steps));
        first_within(alloc, program, table, input, Anchored::Yes, start, steps)
    }
}
