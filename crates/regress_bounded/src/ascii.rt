//! Searches in texts of ASCII.
ghost use Rattle.std.specs.Iterator.{HoldsAfterAnyCalls};
ghost use Rattle.std.specs.Prelude.{◌≡◌, ℕ, IfOk, IfSome, IsErrOf, IsOkUnless, chars, map, option_map, slice_get, false, true, Some};
ghost use Rattle.std.specs.Str.{IsAscii};
ghost use Rattle.regress_meaning.specs.Table.{Table};
ghost use Rattle.regress_meaning.specs.Pattern.{Pattern};
ghost use Rattle.regress_meaning.specs.Flags.{Options};
ghost use Rattle.regress_meaning.specs.Laws.{ItemsRise};
ghost use Rattle.regress_meaning.specs.Matches.{match_list};
ghost use Rattle.regress_meaning.specs.Offsets.{Begins, of_utf8, told};
ghost use Rattle.regress_front.specs.Trees.{Tree};
ghost use Rattle.regress_match.specs.GroupViews.{names_of_match};
ghost use Rattle.regress_match.specs.TextRanges.{LiesInText};
ghost use Rattle.regress_match.specs.Views.{item_of};
ghost use Rattle.regress_matched.specs.Giving.{ErrsOnlyIf};
ghost use Rattle.regress_engine_search.specs.Search.{StartsAt};
ghost use Rattle.regress_engine_input.specs.Views.{ascii};
ghost use Rattle.regress_programs.specs.declared.slots.Anchored.TheVariants.{No, Yes};
ghost use Rattle.regress_programs.specs.Coming.{BeginsAndEndsAtStarts, HoldsOfEach};
ghost use Rattle.regress_programs.specs.Outcomes.{outcome_at};

use crate::bounded::Bounded;
use crate::matches::BoundedMatches;
use regress_engine_exec::SearchError;
use regress_engine_inputs::AsciiInput;
use regress_engine_search::StepsLeft;
use regress_match::Match;
use regress_programs::{Anchored, first_within};

impl<'r> Bounded<'r> {
    ghost use Rattle.regress_bounded.specs.Coming.{search_by, next_from, searched, coming, budget_of, turns_of};
    ghost use Rattle.regress_bounded.specs.Standing.{StandsFor, HasTree, tree_list, tree_outcome, TakesAllInBytes, TakesAllAlongBytes, enough_in_bytes, may_turn_in_bytes, steps_of, byte_program_of, names_within};
    ghost use Rattle.regress_bounded.specs.Stopping.{seen_by};
    ghost use Rattle.regress_bounded.specs.Together.{CountsAlong};

    /// The first match in a text of ASCII, as `find` answers it.
    ///
    /// Asks that the text is ASCII, as `is_ascii_text` tells. Errs as `find` does.
    ///
    /// ```rust
    /// let found = bounded.find_ascii("xaab")?; // for `a+b` the match at 1..4
    /// ```
    pub fn find_ascii(&self, text: &str) -> Result<Option<Match>, SearchError>
        requires { IsAscii text.now }
        ensures found { (t : Table) → (o : Options) → (p : Pattern) → StandsFor self.now t o p →
            IfOk result (λ found. option_map item_of found ≡ option_map (told (of_utf8 text.now)) (slice_get (match_list t o p (chars text.now) 0) 0)) }
        ensures found_of_tree { (n : ℕ) → (t : Tree) → HasTree self.now n t →
            IfOk result (λ found. option_map item_of found ≡ option_map (told (of_utf8 text.now)) (slice_get (tree_list self.now n t (chars text.now) 0) 0)) }
        ensures inside { IfOk result (λ found. IfSome found (LiesInText text.now)) }
        ensures starts { IfOk result (λ found. IfSome found (BeginsAndEndsAtStarts text.now)) }
        ensures named { IfOk result (λ found. IfSome found (λ m. names_of_match m ≡ names_within self.now)) }
        ensures stopped { IsErrOf result SearchError.TooManySteps → TakesAllInBytes self.now No ascii text.now 0 }
    {
        let program = &self.compiled.byte_program;
        let table = self.compiled.byte_table();
        let input = AsciiInput::new(text, program.flags().is_unicode(), program.tables());
        let (alloc, steps) = (self.alloc, StepsLeft(self.steps));
        first_within(alloc, program, table, input, Anchored::No, 0, steps)
    }

    /// All matches in a text of ASCII, one after another, as `find_iter` answers them.
    ///
    /// Asks that the text is ASCII, as `is_ascii_text` tells.
    ///
    /// ```rust
    /// for found in bounded.find_iter_ascii("aab ab")? {
    ///     let range = found?.range(); // for `a+b` 0..3, then 4..6
    /// }
    /// ```
    pub fn find_iter_ascii<'t>(
        &self,
        text: &'t str,
    ) -> Result<BoundedMatches<'r, AsciiInput<'r, 't>>, SearchError>
        requires { IsAscii text.now }
        ensures matches { (t : Table) → (o : Options) → (p : Pattern) → StandsFor self.now t o p →
            IfOk result (λ ms. coming ms ≡ map (told (of_utf8 text.now)) (match_list t o p (chars text.now) 0)) }
        ensures matches_of_tree { (n : ℕ) → (t : Tree) → HasTree self.now n t →
            IfOk result (λ ms. coming ms ≡ map (told (of_utf8 text.now)) (tree_list self.now n t (chars text.now) 0)) }
        ensures over { IfOk result (λ ms. (search_by ms).view ≡ seen_by (byte_program_of self.now) ascii text.now) }
        ensures program { IfOk result (λ ms. (search_by ms).compiled ≡ byte_program_of self.now) }
        ensures turns { IfOk result (λ ms. turns_of ms ≡ may_turn_in_bytes self.now text.now) }
        ensures steps { IfOk result (λ ms. turns_of ms ≡ false → budget_of ms ≡ steps_of self.now) }
        ensures lowered { IfOk result (λ ms. turns_of ms ≡ true → Some (budget_of ms) ≡ enough_in_bytes self.now text.now) }
        ensures begins { IfOk result (λ ms. StartsAt (search_by ms) 0 (next_from ms)) }
        ensures counted { IfOk result (λ ms. CountsAlong search_by next_from budget_of turns_of ms) }
        ensures stopped { IfOk result (ErrsOnlyIf ⟦<BoundedMatches<'r, AsciiInput<'r, 't>> as Iterator>⟧.next_gives SearchError.TooManySteps (TakesAllAlongBytes self.now ascii text.now 0)) }
        ensures along { IfOk result (HoldsAfterAnyCalls (λ ms. searched ms ≡ text.now) ⟦<BoundedMatches<'r, AsciiInput<'r, 't>> as Iterator>⟧.next_gives) }
        ensures inside { IfOk result (HoldsOfEach ⟦<BoundedMatches<'r, AsciiInput<'r, 't>> as Iterator>⟧.next_gives (LiesInText text.now)) }
        ensures starts { IfOk result (HoldsOfEach ⟦<BoundedMatches<'r, AsciiInput<'r, 't>> as Iterator>⟧.next_gives (BeginsAndEndsAtStarts text.now)) }
        ensures rise { IfOk result (λ ms. ItemsRise (coming ms)) }
        ensures refused { IsOkUnless result SearchError.OutOfMemory }
    {
        self.find_from_ascii(text, 0)
    }

    /// The matches in a text of ASCII from `start` on, an offset in bytes, as `find_iter` answers them.
    ///
    /// Asks that the text is ASCII, as `is_ascii_text` tells; a search may begin anywhere in it, and past its end there is
    /// none.
    ///
    /// ```rust
    /// let second = bounded.find_from_ascii("aab ab", 3)?.next(); // for `a+b` the match at 4..6
    /// ```
    pub fn find_from_ascii<'t>(
        &self,
        text: &'t str,
        start: usize,
    ) -> Result<BoundedMatches<'r, AsciiInput<'r, 't>>, SearchError>
        requires { IsAscii text.now }
        ensures matches { (t : Table) → (o : Options) → (p : Pattern) → StandsFor self.now t o p →
            (place : ℕ) → Begins (of_utf8 text.now) start place →
            IfOk result (λ ms. coming ms ≡ map (told (of_utf8 text.now)) (match_list t o p (chars text.now) place)) }
        ensures matches_of_tree { (n : ℕ) → (t : Tree) → HasTree self.now n t →
            (place : ℕ) → Begins (of_utf8 text.now) start place →
            IfOk result (λ ms. coming ms ≡ map (told (of_utf8 text.now)) (tree_list self.now n t (chars text.now) place)) }
        ensures over { IfOk result (λ ms. (search_by ms).view ≡ seen_by (byte_program_of self.now) ascii text.now) }
        ensures program { IfOk result (λ ms. (search_by ms).compiled ≡ byte_program_of self.now) }
        ensures turns { IfOk result (λ ms. turns_of ms ≡ may_turn_in_bytes self.now text.now) }
        ensures steps { IfOk result (λ ms. turns_of ms ≡ false → budget_of ms ≡ steps_of self.now) }
        ensures lowered { IfOk result (λ ms. turns_of ms ≡ true → Some (budget_of ms) ≡ enough_in_bytes self.now text.now) }
        ensures begins { IfOk result (λ ms. StartsAt (search_by ms) start (next_from ms)) }
        ensures counted { IfOk result (λ ms. CountsAlong search_by next_from budget_of turns_of ms) }
        ensures stopped { IfOk result (ErrsOnlyIf ⟦<BoundedMatches<'r, AsciiInput<'r, 't>> as Iterator>⟧.next_gives SearchError.TooManySteps (TakesAllAlongBytes self.now ascii text.now start)) }
        ensures along { IfOk result (HoldsAfterAnyCalls (λ ms. searched ms ≡ text.now) ⟦<BoundedMatches<'r, AsciiInput<'r, 't>> as Iterator>⟧.next_gives) }
        ensures inside { IfOk result (HoldsOfEach ⟦<BoundedMatches<'r, AsciiInput<'r, 't>> as Iterator>⟧.next_gives (LiesInText text.now)) }
        ensures starts { IfOk result (HoldsOfEach ⟦<BoundedMatches<'r, AsciiInput<'r, 't>> as Iterator>⟧.next_gives (BeginsAndEndsAtStarts text.now)) }
        ensures rise { IfOk result (λ ms. ItemsRise (coming ms)) }
        ensures refused { IsOkUnless result SearchError.OutOfMemory }
    {
        let program = &self.compiled.byte_program;
        let table = self.compiled.byte_table();
        let input = AsciiInput::new(text, program.flags().is_unicode(), program.tables());
        Ok(BoundedMatches::new(self.alloc, program, table, input, start, self.steps))
    }

    /// The match that begins at `start` in a text of ASCII, an offset in bytes, as `match_at` answers it.
    ///
    /// Asks that the text is ASCII, as `is_ascii_text` tells; a match may begin at any offset. Errs as `match_at` does.
    ///
    /// ```rust
    /// let found = bounded.match_at_ascii("xaab", 1)?; // for `a+b` the match at 1..4
    /// ```
    pub fn match_at_ascii(&self, text: &str, start: usize) -> Result<Option<Match>, SearchError>
        requires { IsAscii text.now }
        ensures found { (t : Table) → (o : Options) → (p : Pattern) → StandsFor self.now t o p →
            (place : ℕ) → Begins (of_utf8 text.now) start place →
            IfOk result (λ found. option_map item_of found ≡ option_map (told (of_utf8 text.now)) (outcome_at t o p (chars text.now) place)) }
        ensures found_of_tree { (n : ℕ) → (t : Tree) → HasTree self.now n t →
            (place : ℕ) → Begins (of_utf8 text.now) start place →
            IfOk result (λ found. option_map item_of found ≡ option_map (told (of_utf8 text.now)) (tree_outcome self.now n t (chars text.now) place)) }
        ensures begins { IfOk result (λ found. IfSome found (λ m. m.range.start ≡ start)) }
        ensures inside { IfOk result (λ found. IfSome found (LiesInText text.now)) }
        ensures starts { IfOk result (λ found. IfSome found (BeginsAndEndsAtStarts text.now)) }
        ensures named { IfOk result (λ found. IfSome found (λ m. names_of_match m ≡ names_within self.now)) }
        ensures stopped { IsErrOf result SearchError.TooManySteps → TakesAllInBytes self.now Yes ascii text.now start }
    {
        let program = &self.compiled.byte_program;
        let table = self.compiled.byte_table();
        let input = AsciiInput::new(text, program.flags().is_unicode(), program.tables());
        let (alloc, steps) = (self.alloc, StepsLeft(self.steps));
        first_within(alloc, program, table, input, Anchored::Yes, start, steps)
    }
}
