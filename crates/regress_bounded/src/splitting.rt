//! The parts of a text between its matches, in so many steps.
ghost use Rattle.std.specs.Prelude.{◌≡◌, ℕ, IfOk, IsOkUnless, chars, map};
ghost use Rattle.regress_meaning.specs.Table.{Table};
ghost use Rattle.regress_meaning.specs.Pattern.{Pattern};
ghost use Rattle.regress_meaning.specs.Flags.{Options};
ghost use Rattle.regress_meaning.specs.Matches.{match_list};
ghost use Rattle.regress_meaning.specs.Offsets.{of_utf8, told};
ghost use Rattle.regress_meaning.specs.Parts.{parts, first_parts};
ghost use Rattle.regress_matched.specs.Giving.{ErrsOnlyIf};
ghost use Rattle.regress_front.specs.Trees.{Tree};
ghost use Rattle.regress_engine_input.specs.Views.{utf8};
ghost use Rattle.regress_bounded.specs.Standing.{StandsFor, HasTree, tree_list, TakesAllAlongBytes};

use crate::bounded::Bounded;
use crate::matches::BoundedMatches;
use regress_engine_exec::SearchError;
use regress_engine_inputs::Utf8Input;
use regress_matched::{Split, SplitN};

/// The parts of a text between the matches of a pattern, in so many steps for all of them together: from `Bounded::split`.
pub type BoundedSplit<'r, 't> = Split<'t, BoundedMatches<'r, Utf8Input<'r, 't>>>;

/// At most so many parts of a text between the matches of a pattern, in so many steps for all of them together: from
/// `Bounded::splitn`.
pub type BoundedSplitN<'r, 't> = SplitN<'t, BoundedMatches<'r, Utf8Input<'r, 't>>>;

impl<'r> Bounded<'r> {
    ghost use Rattle.regress_bounded.specs.Splitting.{parts_left, first_parts_left};

    /// The parts of a text between the matches of the pattern, one after another, as `Regex::split` answers them, in so many steps
    /// for all of them together.
    ///
    /// Answers an iterator, each of whose calls errs as `find` does; after an error it has ended.
    ///
    /// ```rust
    /// for part in bounded.split("a, b,c")? {
    ///     let part = part?; // for `,\s*` it is `a`, then `b`, then `c`
    /// }
    /// ```
    pub fn split<'t>(&self, text: &'t str) -> Result<BoundedSplit<'r, 't>, SearchError>
        ensures parts { (t : Table) → (o : Options) → (p : Pattern) → StandsFor self.now t o p →
            IfOk result (λ s. parts_left s ≡ parts text.now (map (told (of_utf8 text.now)) (match_list t o p (chars text.now) 0))) }
        ensures parts_of_tree { (n : ℕ) → (t : Tree) → HasTree self.now n t →
            IfOk result (λ s. parts_left s ≡ parts text.now (map (told (of_utf8 text.now)) (tree_list self.now n t (chars text.now) 0))) }
        ensures stopped { IfOk result (ErrsOnlyIf ⟦<Split<'t, BoundedMatches<'r, Utf8Input<'r, 't>>> as Iterator>⟧.next_gives SearchError.TooManySteps (TakesAllAlongBytes self.now utf8 text.now 0)) }
        ensures refused { IsOkUnless result SearchError.OutOfMemory }
    {
        let matches = self.find_iter(text)?;
        Ok(Split::new(matches, text))
    }

    /// The parts of a text between the matches of the pattern, but at most `limit` of them, as `Regex::splitn` answers them, in so
    /// many steps for all of them together.
    ///
    /// Answers an iterator, each of whose calls errs as `find` does; after an error it has ended.
    ///
    /// ```rust
    /// for part in bounded.splitn("a, b,c", 2)? {
    ///     let part = part?; // for `,\s*` it is `a`, then `b,c`
    /// }
    /// ```
    pub fn splitn<'t>(
        &self,
        text: &'t str,
        limit: usize,
    ) -> Result<BoundedSplitN<'r, 't>, SearchError>
        ensures parts { (t : Table) → (o : Options) → (p : Pattern) → StandsFor self.now t o p →
            IfOk result (λ s. first_parts_left s ≡ first_parts limit text.now (map (told (of_utf8 text.now)) (match_list t o p (chars text.now) 0))) }
        ensures parts_of_tree { (n : ℕ) → (t : Tree) → HasTree self.now n t →
            IfOk result (λ s. first_parts_left s ≡ first_parts limit text.now (map (told (of_utf8 text.now)) (tree_list self.now n t (chars text.now) 0))) }
        ensures stopped { IfOk result (ErrsOnlyIf ⟦<SplitN<'t, BoundedMatches<'r, Utf8Input<'r, 't>>> as Iterator>⟧.next_gives SearchError.TooManySteps (TakesAllAlongBytes self.now utf8 text.now 0)) }
        ensures refused { IsOkUnless result SearchError.OutOfMemory }
    {
        let matches = self.find_iter(text)?;
        Ok(SplitN::new(Split::new(matches, text), limit))
    }
}
