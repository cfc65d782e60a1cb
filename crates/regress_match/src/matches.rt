//! One match after another, by whatever finds them.
ghost use Rattle.std.specs.Prelude.{◌≡◌, ◌<◌, ℕ, List, Option, None, IfOk, IfSome, OnErr, IsOkUnless};
ghost use Rattle.std.specs.Iterator.{at_most};
ghost use Rattle.regress_meaning.specs.Matches.{Item};
ghost use Rattle.regress_match.specs.declared.found.Match.{Match};
ghost use Rattle.regress_match.specs.Iterating.{coming_on, steps_on, Finds};

use crate::found::Match;
use regress_front_core::Error;
use std::fmt::Debug;
use std::iter::FusedIterator;

/// What finds the matches of one pattern in one text, by offsets in what holds the text.
pub trait MatchProducer: Debug + Drop {
    /// Where in the text a search begins.
    type Position: Copy + Debug;

    // What is searched for and in what text: all that no search changes.
    ghost Search: { Type 0 };

    ghost search_of: { Self → Search };

    // The position is one of the text's, from which matches may be asked for.
    ghost is_position: { Search → Self.Position → Type 0 };

    // A search may start at the offset.
    ghost is_start: { Search → ℕ → Type 0 };

    // The items from a position on, told in offsets.
    ghost items_from: { Search → Self.Position → List Item };

    // How many positions lie behind one.
    ghost left_behind: { Search → Self.Position → ℕ };

    // A search that starts at an offset begins at a position, if at any.
    ghost starts_at: { Search → ℕ → Option Self.Position → Type 0 };

    // A match lies in the text, and its groups are named as in the pattern.
    ghost is_of_search: { Search → Match → Type 0 };

    /// The position at an offset; `None` for an offset past the end.
    ///
    /// Asks that a search may start at the offset.
    fn initial_position(&self, offset: usize) -> Option<Self::Position>
        requires { is_start (search_of self.now) offset }
        ensures begins { starts_at (search_of self.now) offset result }
        ensures inside { IfSome result (is_position (search_of self.now)) };

    /// The first match from a position on, and in `next` the position to go on from. Where there is no match, and where
    /// memory is refused, it is the last search.
    ///
    /// Asks that the position is one of the text's, as are those that `initial_position` and `next_match` give.
    fn next_match(
        &mut self,
        position: Self::Position,
        next: &mut Option<Self::Position>,
    ) -> Result<Option<Match>, Error>
        requires { is_position (search_of self.old) position }
        ensures kept { search_of self.new ≡ search_of self.old }
        ensures found { IfOk result (λ found. Finds (items_from (search_of self.old)) (is_of_search (search_of self.old)) position found next.new) }
        ensures inside { IfSome next.new (is_position (search_of self.old)) }
        ensures nearer { IfSome next.new (λ p. left_behind (search_of self.old) p < left_behind (search_of self.old) position) }
        ensures last { OnErr result (next.new ≡ None) }
        ensures refused { IsOkUnless result Error.OutOfMemory };
}

/// The matches that a producer finds from an offset on, each after the one before.
#[derive(Debug, Drop)]
pub struct Matches<P: MatchProducer> {
    producer: P,
    position: Option<P::Position>,
}

impl<P: MatchProducer> Matches<P> {
    ghost use Rattle.regress_match.specs.Iterating.{producer_of, position_of};

    /// The matches of a producer from an offset on, in what holds its text.
    ///
    /// Asks that a search may start at the offset.
    ///
    /// ```rust
    /// let matches = Matches::new(producer, 0);
    /// ```
    pub fn new(producer: P, start: usize) -> Matches<P>
        requires { P.is_start (P.search_of producer) start }
        ensures over { producer_of result ≡ producer }
        ensures begins { P.starts_at (P.search_of producer) start (position_of result) }
        ensures inside { IfSome (position_of result) (P.is_position (P.search_of producer)) }
    {
        let position = producer.initial_position(start);
        Matches { producer, position }
    }
}

impl<P: MatchProducer> Iterator for Matches<P> {
    ghost use Rattle.regress_match.specs.Iterating.{producer_of, position_of, HasEnded, GivesMatch};

    type Item = Result<Match, Error>;

    ghost can_next = { λ ms. IfSome (position_of ms) (P.is_position (P.search_of (producer_of ms))) };

    ghost next_gives = { λ old r new. (P.search_of (producer_of new) ≡ P.search_of (producer_of old))
        × GivesMatch (λ ms. coming_on (P.items_from (P.search_of (producer_of ms))) (position_of ms)) HasEnded (P.is_of_search (P.search_of (producer_of old))) old r new };

    ghost remaining = { λ ms. at_most (steps_on (P.left_behind (P.search_of (producer_of ms))) (position_of ms)) };

    /// The next match.
    ///
    /// Answers `None` where there is none, and `OutOfMemory` where a request for memory is refused; after either it has
    /// ended and answers `None` alone.
    ///
    /// ```rust
    /// while let Some(found) = matches.next() {
    ///     let range = found?.range();
    /// }
    /// ```
    fn next(&mut self) -> Option<Result<Match, Error>> {
        let position = self.position.take()?;
        self.producer
            .next_match(position, &mut self.position)
            .transpose()
    }
}

impl<P: MatchProducer> FusedIterator for Matches<P> {}
