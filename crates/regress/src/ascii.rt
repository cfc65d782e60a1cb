//! Searches in texts of ASCII.
ghost use Rattle.std.specs.Prelude.{◌≡◌, ◌↔◌, ℕ, IsTrue};
ghost use Rattle.std.specs.Str.{IsAscii};
ghost use Rattle.regress_meaning.specs.Offsets.{of_utf8, Begins};

use crate::api::Regex;
use regress_front::Error;
use regress_match::Match;
use regress_programs::AsciiMatches;

/// Whether a text is one of ASCII, as the ASCII calls ask.
///
/// ```rust
/// let beyond = is_ascii_text("é"); // false
/// ```
pub fn is_ascii_text(text: &str) -> bool
    ensures { IsTrue result ↔ IsAscii text.now }
{
    text.is_ascii()
}

impl Regex {
    ghost use Rattle.std.specs.Iterator.{HoldsAfterAnyCalls};
    ghost use Rattle.std.specs.Prelude.{All, IfOk, IfSome, IsOkUnless, IsCharBoundary, ◌≤◌, chars, map, option_map, slice_get};
    ghost use Rattle.regress_meaning.specs.Table.{Table};
    ghost use Rattle.regress_meaning.specs.Pattern.{Pattern};
    ghost use Rattle.regress_meaning.specs.Flags.{Options};
    ghost use Rattle.regress_meaning.specs.Matches.{match_list};
    ghost use Rattle.regress_meaning.specs.Laws.{ItemsRise};
    ghost use Rattle.regress_meaning.specs.Offsets.{told};
    ghost use Rattle.regress_match.specs.Views.{item_of};
    ghost use Rattle.regress_match.specs.GroupViews.{names_of_match};
    ghost use Rattle.regress_match.specs.TextRanges.{LiesBetween, LiesInText};
    ghost use Rattle.regress_front.specs.Trees.{Tree};
    ghost use Rattle.regress.specs.Standing.{StandsFor, HasTree, tree_list, names_of_regex};
    ghost use Rattle.regress.specs.Ascii.{searched_in_ascii, names_in_ascii, coming_in_ascii};
    ghost use Rattle.regress.specs.Coming.{BeginsAndEndsAtStarts, HoldsOfEach};

    /// The first match in a text of ASCII, as `find` answers it.
    ///
    /// Asks that the text is ASCII, as `is_ascii_text` tells. Errs with `OutOfMemory` alone.
    ///
    /// ```rust
    /// let found = regex.find_ascii("xaab")?; // for `a+b` the match at 1..4
    /// ```
    pub fn find_ascii(&self, text: &str) -> Result<Option<Match>, Error>
        requires { IsAscii text.now }
        ensures found { (t : Table) → (o : Options) → (p : Pattern) → StandsFor self.now t o p →
            IfOk result (λ found. option_map item_of found ≡ option_map (told (of_utf8 text.now)) (slice_get (match_list t o p (chars text.now) 0) 0)) }
        ensures found_of_tree { (n : ℕ) → (t : Tree) → HasTree self.now n t →
            IfOk result (λ found. option_map item_of found ≡ option_map (told (of_utf8 text.now)) (slice_get (tree_list self.now n t (chars text.now) 0) 0)) }
        ensures inside { IfOk result (λ found. IfSome found (λ m. (m.range.start ≤ m.range.end) × IsCharBoundary text.now m.range.start × IsCharBoundary text.now m.range.end)) }
        ensures groups_inside { IfOk result (λ found. IfSome found (λ m. All (λ g. IfSome g (LiesBetween text.now)) m.captures.items)) }
        ensures starts { IfOk result (λ found. IfSome found (BeginsAndEndsAtStarts text.now)) }
        ensures named { IfOk result (λ found. IfSome found (λ m. names_of_match m ≡ names_of_regex self.now)) }
        ensures refused { IsOkUnless result Error.OutOfMemory }
    {
        self.find_iter_ascii(text)?.next().transpose()
    }

    /// All matches in a text of ASCII, one after another, as `find_iter` answers them.
    ///
    /// Asks that the text is ASCII, as `is_ascii_text` tells. Errs with `OutOfMemory` alone.
    ///
    /// ```rust
    /// for found in regex.find_iter_ascii("aab ab")? {
    ///     let range = found?.range(); // for `a+b` 0..3, then 4..6
    /// }
    /// ```
    pub fn find_iter_ascii<'r, 't>(&'r self, text: &'t str) -> Result<AsciiMatches<'r, 't>, Error>
        requires { IsAscii text.now }
        ensures matches { (t : Table) → (o : Options) → (p : Pattern) → StandsFor self.now t o p →
            IfOk result (λ ms. coming_in_ascii ms ≡ map (told (of_utf8 text.now)) (match_list t o p (chars text.now) 0)) }
        ensures matches_of_tree { (n : ℕ) → (t : Tree) → HasTree self.now n t →
            IfOk result (λ ms. coming_in_ascii ms ≡ map (told (of_utf8 text.now)) (tree_list self.now n t (chars text.now) 0)) }
        ensures over { IfOk result (λ ms. searched_in_ascii ms ≡ text.now) }
        ensures along { IfOk result (HoldsAfterAnyCalls (λ ms. searched_in_ascii ms ≡ text.now) ⟦<AsciiMatches<'r, 't> as Iterator>⟧.next_gives) }
        ensures inside { IfOk result (HoldsOfEach ⟦<AsciiMatches<'r, 't> as Iterator>⟧.next_gives (LiesInText text.now)) }
        ensures starts { IfOk result (HoldsOfEach ⟦<AsciiMatches<'r, 't> as Iterator>⟧.next_gives (BeginsAndEndsAtStarts text.now)) }
        ensures rise { IfOk result (λ ms. ItemsRise (coming_in_ascii ms)) }
        ensures named { IfOk result (λ ms. names_in_ascii ms ≡ names_of_regex self.now) }
        ensures refused { IsOkUnless result Error.OutOfMemory }
    {
        self.find_from_ascii(text, 0)
    }

    /// The matches in a text of ASCII from `start` on, an offset in bytes, as `find_from` answers them.
    ///
    /// Asks that the text is ASCII, as `is_ascii_text` tells; a search may begin anywhere in it, and past its end there is
    /// none. Errs with `OutOfMemory` alone.
    ///
    /// ```rust
    /// let second = regex.find_from_ascii("aab ab", 3)?.next(); // for `a+b` the match at 4..6
    /// ```
    pub fn find_from_ascii<'r, 't>(
        &'r self,
        text: &'t str,
        start: usize,
    ) -> Result<AsciiMatches<'r, 't>, Error>
        requires { IsAscii text.now }
        ensures matches { (t : Table) → (o : Options) → (p : Pattern) → StandsFor self.now t o p →
            (place : ℕ) → Begins (of_utf8 text.now) start place →
            IfOk result (λ ms. coming_in_ascii ms ≡ map (told (of_utf8 text.now)) (match_list t o p (chars text.now) place)) }
        ensures matches_of_tree { (n : ℕ) → (t : Tree) → HasTree self.now n t →
            (place : ℕ) → Begins (of_utf8 text.now) start place →
            IfOk result (λ ms. coming_in_ascii ms ≡ map (told (of_utf8 text.now)) (tree_list self.now n t (chars text.now) place)) }
        ensures over { IfOk result (λ ms. searched_in_ascii ms ≡ text.now) }
        ensures along { IfOk result (HoldsAfterAnyCalls (λ ms. searched_in_ascii ms ≡ text.now) ⟦<AsciiMatches<'r, 't> as Iterator>⟧.next_gives) }
        ensures inside { IfOk result (HoldsOfEach ⟦<AsciiMatches<'r, 't> as Iterator>⟧.next_gives (LiesInText text.now)) }
        ensures starts { IfOk result (HoldsOfEach ⟦<AsciiMatches<'r, 't> as Iterator>⟧.next_gives (BeginsAndEndsAtStarts text.now)) }
        ensures rise { IfOk result (λ ms. ItemsRise (coming_in_ascii ms)) }
        ensures named { IfOk result (λ ms. names_in_ascii ms ≡ names_of_regex self.now) }
        ensures refused { IsOkUnless result Error.OutOfMemory }
    {
        Ok(AsciiMatches::new(self.alloc, &self.compiled, text, start))
    }
}
