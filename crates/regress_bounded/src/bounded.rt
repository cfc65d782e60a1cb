//! Searches in texts.
ghost use Rattle.std.specs.Iterator.{HoldsAfterAnyCalls};
ghost use Rattle.std.specs.Prelude.{◌≡◌, ◌↔◌, ◌≢◌, ℕ, [], IfOk, IfSome, IsErrOf, IsOkUnless, IsTrue, chars, map, option_map, slice_get, false, true, Some};
ghost use Rattle.regress_meaning.specs.Table.{Table};
ghost use Rattle.regress_meaning.specs.Pattern.{Pattern};
ghost use Rattle.regress_meaning.specs.Flags.{Options};
ghost use Rattle.regress_meaning.specs.Laws.{ItemsRise};
ghost use Rattle.regress_meaning.specs.Matches.{match_list};
ghost use Rattle.regress_meaning.specs.Offsets.{Begins, of_utf8, told};
ghost use Rattle.regress_front.specs.Trees.{Tree};
ghost use Rattle.regress_match.specs.GroupViews.{names_of_match};
ghost use Rattle.regress_match.specs.TextRanges.{LiesInText};
ghost use Rattle.regress_match.specs.Views.{item_of};
ghost use Rattle.regress_matched.specs.Giving.{ErrsOnlyIf};
ghost use Rattle.regress_engine_search.specs.Search.{StartsAt};
ghost use Rattle.regress_engine_input.specs.Views.{utf8};
ghost use Rattle.regress_programs.specs.declared.slots.Anchored.TheVariants.{No, Yes};
ghost use Rattle.regress_programs.specs.Coming.{BeginsAndEndsAtStarts, HoldsOfEach};
ghost use Rattle.regress_programs.specs.Outcomes.{outcome_at};

use crate::matches::BoundedMatches;
use regress_engine_exec::SearchError;
use regress_engine_inputs::Utf8Input;
use regress_engine_search::StepsLeft;
use regress_match::Match;
use regress_programs::{Anchored, Compiled, first_within};
use std::alloc::Global;

/// A compiled pattern, and a number of steps that each search with it may take: from `Regex::within`.
///
/// A step does the instruction of one state, or drops the state. One more is counted for each 64 bytes or units that a class
/// passes over or that a back reference compares. What looks for the next place where a match may begin is not counted. A search
/// that would take more steps errs with `TooManySteps`; so it does only where the runs of the search take so many steps or more,
/// each counted with one more for each 64 bytes or units of the text.
#[derive(Clone, Copy, Debug)]
pub struct Bounded<'r> {
    pub(crate) alloc: Global,
    pub(crate) compiled: &'r Compiled,
    pub(crate) steps: usize,
}

impl<'r> Bounded<'r> {
    ghost use Rattle.regress_bounded.specs.Coming.{search_by, next_from, searched, coming, budget_of, turns_of};
    ghost use Rattle.regress_bounded.specs.Standing.{StandsFor, HasTree, tree_list, tree_outcome, TakesAllInBytes, TakesAllAlongBytes, enough_in_bytes, may_turn_in_bytes, compiled_of, steps_of, byte_program_of, names_within};
    ghost use Rattle.regress_bounded.specs.Stopping.{seen_by};
    ghost use Rattle.regress_bounded.specs.Together.{CountsAlong};

    /// A compiled pattern with a number of steps.
    ///
    /// ```rust
    /// let bounded = Bounded::new(alloc, &compiled, 1_000_000);
    /// ```
    pub fn new(alloc: Global, compiled: &'r Compiled, steps: usize) -> Bounded<'r>
        ensures compiled { compiled_of result ≡ compiled.now }
        ensures steps { steps_of result ≡ steps }
    {
        Bounded {
            alloc,
            compiled,
            steps,
        }
    }

    /// The first match in a text, its ranges told in bytes, as `Regex::find` answers it ("RegExpBuiltinExec").
    ///
    /// Errs with `OutOfMemory` where a request for memory is refused, and with `TooManySteps` where the search takes too many
    /// steps.
    ///
    /// ```rust
    /// let found = bounded.find("xaab")?; // for `a+b` the match at 1..4
    /// ```
    pub fn find(&self, text: &str) -> Result<Option<Match>, SearchError>
        ensures found { (t : Table) → (o : Options) → (p : Pattern) → StandsFor self.now t o p →
            IfOk result (λ found. option_map item_of found ≡ option_map (told (of_utf8 text.now)) (slice_get (match_list t o p (chars text.now) 0) 0)) }
        ensures found_of_tree { (n : ℕ) → (t : Tree) → HasTree self.now n t →
            IfOk result (λ found. option_map item_of found ≡ option_map (told (of_utf8 text.now)) (slice_get (tree_list self.now n t (chars text.now) 0) 0)) }
        ensures inside { IfOk result (λ found. IfSome found (LiesInText text.now)) }
        ensures starts { IfOk result (λ found. IfSome found (BeginsAndEndsAtStarts text.now)) }
        ensures named { IfOk result (λ found. IfSome found (λ m. names_of_match m ≡ names_within self.now)) }
        ensures stopped { IsErrOf result SearchError.TooManySteps → TakesAllInBytes self.now No utf8 text.now 0 }
    {
        let program = &self.compiled.byte_program;
        let table = self.compiled.byte_table();
        let input = Utf8Input::new(text, program.flags().is_unicode(), program.tables());
        let (alloc, steps) = (self.alloc, StepsLeft(self.steps));
        first_within(alloc, program, table, input, Anchored::No, 0, steps)
    }

    /// Whether there is a match in a text, as `Regex::is_match` answers it ("RegExp.prototype.test"). Errs as `find` does.
    ///
    /// ```rust
    /// let found = bounded.is_match("xaab")?; // for `a+b` true
    /// ```
    pub fn is_match(&self, text: &str) -> Result<bool, SearchError>
        ensures found { (t : Table) → (o : Options) → (p : Pattern) → StandsFor self.now t o p →
            IfOk result (λ found. IsTrue found ↔ (match_list t o p (chars text.now) 0 ≢ [])) }
        ensures found_of_tree { (n : ℕ) → (t : Tree) → HasTree self.now n t →
            IfOk result (λ found. IsTrue found ↔ (tree_list self.now n t (chars text.now) 0 ≢ [])) }
        ensures stopped { IsErrOf result SearchError.TooManySteps → TakesAllInBytes self.now No utf8 text.now 0 }
    {
        self.is_match_from(text, 0)
    }

    /// Whether there is a match in a text from `start` on, an offset in bytes, as `Regex::is_match_from` answers it
    /// ("RegExp.prototype.test").
    ///
    /// Asks that a search may begin there, as `is_start` tells. Past the end of the text there is none. Errs as `find` does.
    ///
    /// ```rust
    /// let found = bounded.is_match_from("aab", 3)?; // for `a+b` false
    /// ```
    pub fn is_match_from(&self, text: &str, start: usize) -> Result<bool, SearchError>
        requires { (place : ℕ) × Begins (of_utf8 text.now) start place }
        ensures found { (t : Table) → (o : Options) → (p : Pattern) → StandsFor self.now t o p →
            (place : ℕ) → Begins (of_utf8 text.now) start place →
            IfOk result (λ found. IsTrue found ↔ (match_list t o p (chars text.now) place ≢ [])) }
        ensures found_of_tree { (n : ℕ) → (t : Tree) → HasTree self.now n t →
            (place : ℕ) → Begins (of_utf8 text.now) start place →
            IfOk result (λ found. IsTrue found ↔ (tree_list self.now n t (chars text.now) place ≢ [])) }
        ensures stopped { IsErrOf result SearchError.TooManySteps → TakesAllInBytes self.now No utf8 text.now start }
    {
        let program = &self.compiled.byte_program;
        let table = self.compiled.byte_table();
        let input = Utf8Input::new(text, program.flags().is_unicode(), program.tables());
        let (alloc, steps) = (self.alloc, StepsLeft(self.steps));
        match first_within(alloc, program, table, input, Anchored::No, start, steps) {
            Ok(found) => Ok(found.is_some()),
            Err(error) => Err(error),
        }
    }

    /// All matches in a text, one after another, their ranges told in bytes, as `Regex::find_iter` answers them
    /// ("RegExpBuiltinExec"), in so many steps for all of them together.
    ///
    /// Answers an iterator, each of whose calls errs as `find` does; after an error it has ended.
    ///
    /// ```rust
    /// for found in bounded.find_iter("aab ab")? {
    ///     let range = found?.range(); // for `a+b` 0..3, then 4..6
    /// }
    /// ```
    pub fn find_iter<'t>(
        &self,
        text: &'t str,
    ) -> Result<BoundedMatches<'r, Utf8Input<'r, 't>>, SearchError>
        ensures matches { (t : Table) → (o : Options) → (p : Pattern) → StandsFor self.now t o p →
            IfOk result (λ ms. coming ms ≡ map (told (of_utf8 text.now)) (match_list t o p (chars text.now) 0)) }
        ensures matches_of_tree { (n : ℕ) → (t : Tree) → HasTree self.now n t →
            IfOk result (λ ms. coming ms ≡ map (told (of_utf8 text.now)) (tree_list self.now n t (chars text.now) 0)) }
        ensures over { IfOk result (λ ms. (search_by ms).view ≡ seen_by (byte_program_of self.now) utf8 text.now) }
        ensures program { IfOk result (λ ms. (search_by ms).compiled ≡ byte_program_of self.now) }
        ensures turns { IfOk result (λ ms. turns_of ms ≡ may_turn_in_bytes self.now text.now) }
        ensures steps { IfOk result (λ ms. turns_of ms ≡ false → budget_of ms ≡ steps_of self.now) }
        ensures lowered { IfOk result (λ ms. turns_of ms ≡ true → Some (budget_of ms) ≡ enough_in_bytes self.now text.now) }
        ensures begins { IfOk result (λ ms. StartsAt (search_by ms) 0 (next_from ms)) }
        ensures counted { IfOk result (λ ms. CountsAlong search_by next_from budget_of turns_of ms) }
        ensures stopped { IfOk result (ErrsOnlyIf ⟦<BoundedMatches<'r, Utf8Input<'r, 't>> as Iterator>⟧.next_gives SearchError.TooManySteps (TakesAllAlongBytes self.now utf8 text.now 0)) }
        ensures along { IfOk result (HoldsAfterAnyCalls (λ ms. searched ms ≡ text.now) ⟦<BoundedMatches<'r, Utf8Input<'r, 't>> as Iterator>⟧.next_gives) }
        ensures inside { IfOk result (HoldsOfEach ⟦<BoundedMatches<'r, Utf8Input<'r, 't>> as Iterator>⟧.next_gives (LiesInText text.now)) }
        ensures starts { IfOk result (HoldsOfEach ⟦<BoundedMatches<'r, Utf8Input<'r, 't>> as Iterator>⟧.next_gives (BeginsAndEndsAtStarts text.now)) }
        ensures rise { IfOk result (λ ms. ItemsRise (coming ms)) }
        ensures refused { IsOkUnless result SearchError.OutOfMemory }
    {
        self.find_from(text, 0)
    }

    /// The matches in a text from `start` on, an offset in bytes, as `find_iter` answers them.
    ///
    /// Asks that a search may begin there, as `is_start` tells. Past the end of the text there is none.
    ///
    /// ```rust
    /// let second = bounded.find_from("aab ab", 3)?.next(); // for `a+b` the match at 4..6
    /// ```
    pub fn find_from<'t>(
        &self,
        text: &'t str,
        start: usize,
    ) -> Result<BoundedMatches<'r, Utf8Input<'r, 't>>, SearchError>
        requires { (place : ℕ) × Begins (of_utf8 text.now) start place }
        ensures matches { (t : Table) → (o : Options) → (p : Pattern) → StandsFor self.now t o p →
            (place : ℕ) → Begins (of_utf8 text.now) start place →
            IfOk result (λ ms. coming ms ≡ map (told (of_utf8 text.now)) (match_list t o p (chars text.now) place)) }
        ensures matches_of_tree { (n : ℕ) → (t : Tree) → HasTree self.now n t →
            (place : ℕ) → Begins (of_utf8 text.now) start place →
            IfOk result (λ ms. coming ms ≡ map (told (of_utf8 text.now)) (tree_list self.now n t (chars text.now) place)) }
        ensures over { IfOk result (λ ms. (search_by ms).view ≡ seen_by (byte_program_of self.now) utf8 text.now) }
        ensures program { IfOk result (λ ms. (search_by ms).compiled ≡ byte_program_of self.now) }
        ensures turns { IfOk result (λ ms. turns_of ms ≡ may_turn_in_bytes self.now text.now) }
        ensures steps { IfOk result (λ ms. turns_of ms ≡ false → budget_of ms ≡ steps_of self.now) }
        ensures lowered { IfOk result (λ ms. turns_of ms ≡ true → Some (budget_of ms) ≡ enough_in_bytes self.now text.now) }
        ensures begins { IfOk result (λ ms. StartsAt (search_by ms) start (next_from ms)) }
        ensures counted { IfOk result (λ ms. CountsAlong search_by next_from budget_of turns_of ms) }
        ensures stopped { IfOk result (ErrsOnlyIf ⟦<BoundedMatches<'r, Utf8Input<'r, 't>> as Iterator>⟧.next_gives SearchError.TooManySteps (TakesAllAlongBytes self.now utf8 text.now start)) }
        ensures along { IfOk result (HoldsAfterAnyCalls (λ ms. searched ms ≡ text.now) ⟦<BoundedMatches<'r, Utf8Input<'r, 't>> as Iterator>⟧.next_gives) }
        ensures inside { IfOk result (HoldsOfEach ⟦<BoundedMatches<'r, Utf8Input<'r, 't>> as Iterator>⟧.next_gives (LiesInText text.now)) }
        ensures starts { IfOk result (HoldsOfEach ⟦<BoundedMatches<'r, Utf8Input<'r, 't>> as Iterator>⟧.next_gives (BeginsAndEndsAtStarts text.now)) }
        ensures rise { IfOk result (λ ms. ItemsRise (coming ms)) }
        ensures refused { IsOkUnless result SearchError.OutOfMemory }
    {
        let program = &self.compiled.byte_program;
        let table = self.compiled.byte_table();
        let input = Utf8Input::new(text, program.flags().is_unicode(), program.tables());
        Ok(BoundedMatches::new(self.alloc, program, table, input, start, self.steps))
    }

    /// The match that begins at `start`, an offset in bytes, with no search, as `Regex::match_at` answers it ("RegExpBuiltinExec"
    /// with `y`), its ranges told in bytes.
    ///
    /// Asks that a search may begin there, as `is_start` tells. Errs as `find` does, with the steps of the run there alone.
    ///
    /// ```rust
    /// let found = bounded.match_at("xaab", 1)?; // for `a+b` the match at 1..4, and `None` at 0
    /// ```
    pub fn match_at(&self, text: &str, start: usize) -> Result<Option<Match>, SearchError>
        requires { (place : ℕ) × Begins (of_utf8 text.now) start place }
        ensures found { (t : Table) → (o : Options) → (p : Pattern) → StandsFor self.now t o p →
            (place : ℕ) → Begins (of_utf8 text.now) start place →
            IfOk result (λ found. option_map item_of found ≡ option_map (told (of_utf8 text.now)) (outcome_at t o p (chars text.now) place)) }
        ensures found_of_tree { (n : ℕ) → (t : Tree) → HasTree self.now n t →
            (place : ℕ) → Begins (of_utf8 text.now) start place →
            IfOk result (λ found. option_map item_of found ≡ option_map (told (of_utf8 text.now)) (tree_outcome self.now n t (chars text.now) place)) }
        ensures begins { IfOk result (λ found. IfSome found (λ m. m.range.start ≡ start)) }
        ensures inside { IfOk result (λ found. IfSome found (LiesInText text.now)) }
        ensures starts { IfOk result (λ found. IfSome found (BeginsAndEndsAtStarts text.now)) }
        ensures named { IfOk result (λ found. IfSome found (λ m. names_of_match m ≡ names_within self.now)) }
        ensures stopped { IsErrOf result SearchError.TooManySteps → TakesAllInBytes self.now Yes utf8 text.now start }
    {
        let program = &self.compiled.byte_program;
        let table = self.compiled.byte_table();
        let input = Utf8Input::new(text, program.flags().is_unicode(), program.tables());
        let (alloc, steps) = (self.alloc, StepsLeft(self.steps));
        first_within(alloc, program, table, input, Anchored::Yes, start, steps)
    }
}
