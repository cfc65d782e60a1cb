//! The parts of a text between its matches.
ghost use Rattle.std.specs.Prelude.{◌≡◌, ℕ, ◌∷◌, [], Some, None, IfSome, IsCharBoundary, MatchOption, length};
ghost use Rattle.std.specs.Iterator.{at_most};
ghost use Rattle.std.proofs.Props.{props};
ghost use Rattle.regress_meaning.specs.Laws.{ItemsRise};
ghost use Rattle.regress_matched.specs.Behind.{LieBehindAny, LieBehindAny-prop};

use crate::matches::TextMatches;
use std::iter::FusedIterator;

/// The parts of a text between the matches in it, one after another.
#[derive(Debug, Drop)]
pub struct Split<'t, M: TextMatches> {
    matches: M,
    source: &'t str,
    behind: Option<usize>,
    ghost over: { M.searched matches ≡ source.now },
    ghost cut: { IfSome behind (IsCharBoundary source.now) } by { Prim.hlevel props },
    ghost order: { LieBehindAny behind (M.coming matches) } by { LieBehindAny-prop behind (M.coming matches) },
}

impl<'t, M: TextMatches> Split<'t, M> {
    ghost use Rattle.regress_matched.specs.Splitting.{parts_on};

    /// The parts of a text between the matches in it.
    ///
    /// Asks that the matches are of the text and lie one behind the other.
    ///
    /// ```rust
    /// let parts = Split::new(matches, "a, b");
    /// ```
    pub fn new(matches: M, source: &'t str) -> Split<'t, M>
        requires over { M.searched matches ≡ source.now }
        requires rise { ItemsRise (M.coming matches) }
        ensures over { result.source.now ≡ source.now }
        ensures begins { result.behind ≡ Some 0 }
        ensures matches { result.matches ≡ matches }
    {
        Split {
            matches,
            source,
            behind: Some(0),
        }
    }

    /// All that is left of the text, as the last part; `None` where the last was given.
    fn rest(&mut self) -> Option<&'t str>
        ensures left { MatchOption result (self.old.behind ≡ None) (λ part. parts_on self.old.source.now self.old.behind [] ≡ part.now ∷ []) }
        ensures ends { self.new.behind ≡ None }
    {
        let behind = self.behind.take()?;
        Some(&self.source[behind..])
    }
}

impl<'t, M: TextMatches> Iterator for Split<'t, M> {
    ghost use Rattle.regress_matched.specs.Splitting.{parts_left, GivesSplit};

    type Item = Result<&'t str, M::Error>;

    ghost next_gives = { λ old r new. GivesSplit M.gives M.coming old r new };

    ghost remaining = { λ s. at_most (length (parts_left M.coming s)) };

    /// The next part.
    ///
    /// Answers `None` behind the last, and the error with which the matches end; after either it has ended and answers `None`
    /// alone.
    ///
    /// ```rust
    /// let first = Split::new(matches, "a, b").next(); // for `, ` it is `Some(Ok("a"))`
    /// ```
    fn next(&mut self) -> Option<Result<&'t str, M::Error>> {
        let behind = self.behind.take()?;
        match self.matches.next_match() {
            Some(Ok(found)) => {
                self.behind = Some(found.end());
                Some(Ok(&self.source[behind..found.start()]))
            }
            Some(Err(error)) => Some(Err(error)),
            None => Some(Ok(&self.source[behind..])),
        }
    }
}

impl<'t, M: TextMatches> FusedIterator for Split<'t, M> {}

/// At most so many parts of a text between the matches in it, the last of them all that is left.
#[derive(Debug, Drop)]
pub struct SplitN<'t, M: TextMatches> {
    parts: Split<'t, M>,
    limit: usize,
}

impl<'t, M: TextMatches> SplitN<'t, M> {
    /// At most so many parts of those of a text.
    ///
    /// ```rust
    /// let parts = SplitN::new(Split::new(matches, "a, b, c"), 2);
    /// ```
    pub fn new(parts: Split<'t, M>, limit: usize) -> SplitN<'t, M>
        ensures parts { result.parts ≡ parts.entry }
        ensures limit { result.limit ≡ limit }
    {
        SplitN { parts, limit }
    }
}

impl<'t, M: TextMatches> Iterator for SplitN<'t, M> {
    ghost use Rattle.regress_matched.specs.Splitting.{first_parts_left, GivesFirstOf};

    type Item = Result<&'t str, M::Error>;

    ghost next_gives = { λ old r new. GivesFirstOf M.gives M.coming old r new };

    ghost remaining = { λ s. at_most (length (first_parts_left M.coming s)) };

    /// The next part.
    ///
    /// Answers `None` behind the last, and the error with which the matches end; after either it has ended and answers `None`
    /// alone.
    ///
    /// ```rust
    /// let first = SplitN::new(Split::new(matches, "a, b, c"), 2).next(); // for `, ` it is `Some(Ok("a"))`
    /// ```
    fn next(&mut self) -> Option<Result<&'t str, M::Error>> {
        match self.limit {
            0 => None,
            1 => {
                self.limit = 0;
                let rest = self.parts.rest()?;
                Some(Ok(rest))
            }
            _ => {
                self.limit -= 1;
                self.parts.next()
            }
        }
    }
}

impl<'t, M: TextMatches> FusedIterator for SplitN<'t, M> {}
