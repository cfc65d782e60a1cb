//! The parts of a text between its matches.
ghost use Rattle.std.specs.Prelude.{◌≡◌, ℕ, ◌∷◌, [], Some, None, IfSome, IfOk, IsCharBoundary, IsOkUnless, MatchOption, chars, length, map};
ghost use Rattle.std.specs.Iterator.{at_most};
ghost use Rattle.std.proofs.Props.{props};
ghost use Rattle.regress_meaning.specs.Table.{Table};
ghost use Rattle.regress_meaning.specs.Pattern.{Pattern};
ghost use Rattle.regress_meaning.specs.Flags.{Options};
ghost use Rattle.regress_meaning.specs.Matches.{match_list};
ghost use Rattle.regress_meaning.specs.Offsets.{of_utf8, told};
ghost use Rattle.regress_meaning.specs.Parts.{parts, first_parts};
ghost use Rattle.regress.specs.Behind.{LieBehindAny, LieBehindAny-prop};
ghost use Rattle.regress.specs.Coming.{searched, coming};
ghost use Rattle.regress_front.specs.Trees.{Tree};
ghost use Rattle.regress.specs.Standing.{StandsFor, HasTree, tree_list};

use crate::api::Regex;
use regress_front::Error;
use regress_programs::Matches;
use std::iter::FusedIterator;

/// The parts of a text between the matches of a pattern, one after another: from `Regex::split`.
#[derive(Debug, Drop)]
pub struct Split<'r, 't> {
    matches: Matches<'r, 't>,
    source: &'t str,
    behind: Option<usize>,
    ghost over: { searched matches ≡ source.now },
    ghost cut: { IfSome behind (IsCharBoundary source.now) } by { Prim.hlevel props },
    ghost order: { LieBehindAny behind (coming matches) } by { LieBehindAny-prop behind (coming matches) },
}

impl<'r, 't> Split<'r, 't> {
    ghost use Rattle.regress.specs.Splitting.{parts_left};
    ghost use Rattle.regress_matched.specs.Splitting.{parts_on};

    /// The parts of a text between the matches of a pattern.
    fn new(regex: &'r Regex, source: &'t str) -> Result<Self, Error>
        ensures begins { IfOk result (λ s. (s.source.now ≡ source.now) × (s.behind ≡ Some 0)) }
        ensures matches { (t : Table) → (o : Options) → (p : Pattern) → StandsFor regex.now t o p →
            IfOk result (λ s. coming s.matches ≡ map (told (of_utf8 source.now)) (match_list t o p (chars source.now) 0)) }
        ensures matches_of_tree { (n : ℕ) → (t : Tree) → HasTree regex.now n t →
            IfOk result (λ s. coming s.matches ≡ map (told (of_utf8 source.now)) (tree_list regex.now n t (chars source.now) 0)) }
        ensures refused { IsOkUnless result Error.OutOfMemory }
    {
        let matches = regex.find_iter(source)?;
        Ok(Split {
            matches,
            source,
            behind: Some(0),
        })
    }

    /// All that is left of the text, as the last part; `None` where the last was given.
    fn rest(&mut self) -> Option<&'t str>
        ensures left { MatchOption result (self.old.behind ≡ None) (λ part. parts_on self.old.source.now self.old.behind [] ≡ part.now ∷ []) }
        ensures ends { self.new.behind ≡ None }
    {
        let behind = self.behind.take()?;
        Some(&self.source[behind..])
    }
}

impl<'r, 't> Iterator for Split<'r, 't> {
    ghost use Rattle.regress.specs.Splitting.{parts_left, GivesSplit};

    type Item = Result<&'t str, Error>;

    ghost next_gives = { GivesSplit };

    ghost remaining = { λ s. at_most (length (parts_left s)) };

    /// The next part.
    ///
    /// Answers `None` behind the last, and `OutOfMemory` where a request for memory is refused; after either it has ended and
    /// answers `None` alone.
    ///
    /// ```rust
    /// let first = regex.split("a, b")?.next(); // for `, ` it is `Some(Ok("a"))`
    /// ```
    fn next(&mut self) -> Option<Result<&'t str, Error>> {
        let behind = self.behind.take()?;
        match self.matches.next() {
            Some(Ok(found)) => {
                self.behind = Some(found.end());
                Some(Ok(&self.source[behind..found.start()]))
            }
            Some(Err(error)) => Some(Err(error)),
            None => Some(Ok(&self.source[behind..])),
        }
    }
}

impl<'r, 't> FusedIterator for Split<'r, 't> {}

/// At most so many parts of a text between the matches of a pattern, the last of them all that is left: from `Regex::splitn`.
#[derive(Debug, Drop)]
pub struct SplitN<'r, 't> {
    parts: Split<'r, 't>,
    limit: usize,
}

impl<'r, 't> Iterator for SplitN<'r, 't> {
    ghost use Rattle.regress.specs.Splitting.{first_parts_left, GivesPart};

    type Item = Result<&'t str, Error>;

    ghost next_gives = { GivesPart first_parts_left };

    ghost remaining = { λ s. at_most (length (first_parts_left s)) };

    /// The next part.
    ///
    /// Answers `None` behind the last, and `OutOfMemory` where a request for memory is refused; after either it has ended and
    /// answers `None` alone.
    ///
    /// ```rust
    /// let first = regex.splitn("a, b, c", 2)?.next(); // for `, ` it is `Some(Ok("a"))`
    /// ```
    fn next(&mut self) -> Option<Result<&'t str, Error>> {
        match self.limit {
            0 => None,
            1 => {
                self.limit = 0;
                self.parts.rest().map(Ok)
            }
            _ => {
                self.limit -= 1;
                self.parts.next()
            }
        }
    }
}

impl<'r, 't> FusedIterator for SplitN<'r, 't> {}

impl Regex {
    ghost use Rattle.regress.specs.Splitting.{parts_left, first_parts_left};

    /// The parts of a text between the matches of the pattern, one after another, with those before the first and behind the
    /// last: one more than there are matches. A part may be empty.
    ///
    /// Answers an iterator. Errs with `OutOfMemory` alone, and so do its steps.
    ///
    /// ```rust
    /// for part in regex.split("a, b,c")? {
    ///     let part = part?; // for `,\s*` it is `a`, then `b`, then `c`
    /// }
    /// ```
    pub fn split<'r, 't>(&'r self, text: &'t str) -> Result<Split<'r, 't>, Error>
        ensures parts { (t : Table) → (o : Options) → (p : Pattern) → StandsFor self.now t o p →
            IfOk result (λ s. parts_left s ≡ parts text.now (map (told (of_utf8 text.now)) (match_list t o p (chars text.now) 0))) }
        ensures parts_of_tree { (n : ℕ) → (t : Tree) → HasTree self.now n t →
            IfOk result (λ s. parts_left s ≡ parts text.now (map (told (of_utf8 text.now)) (tree_list self.now n t (chars text.now) 0))) }
        ensures refused { IsOkUnless result Error.OutOfMemory }
    {
        Split::new(self, text)
    }

    /// The parts of a text between the matches of the pattern, as `split` answers them, but at most `limit` of them: the last
    /// is all that is left of the text, whatever matches are in it. With the limit 0 there are none.
    ///
    /// Answers an iterator. Errs with `OutOfMemory` alone, and so do its steps.
    ///
    /// ```rust
    /// for part in regex.splitn("a, b,c", 2)? {
    ///     let part = part?; // for `,\s*` it is `a`, then `b,c`
    /// }
    /// ```
    pub fn splitn<'r, 't>(&'r self, text: &'t str, limit: usize) -> Result<SplitN<'r, 't>, Error>
        ensures parts { (t : Table) → (o : Options) → (p : Pattern) → StandsFor self.now t o p →
            IfOk result (λ s. first_parts_left s ≡ first_parts limit text.now (map (told (of_utf8 text.now)) (match_list t o p (chars text.now) 0))) }
        ensures parts_of_tree { (n : ℕ) → (t : Tree) → HasTree self.now n t →
            IfOk result (λ s. first_parts_left s ≡ first_parts limit text.now (map (told (of_utf8 text.now)) (tree_list self.now n t (chars text.now) 0))) }
        ensures refused { IsOkUnless result Error.OutOfMemory }
    {
        let parts = Split::new(self, text)?;
        Ok(SplitN { parts, limit })
    }
}
