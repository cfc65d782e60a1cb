//! Where a search may go next.
ghost use Rattle.std.specs.Prelude.{◌≡◌, ◌≤◌, false, length, IfSome};
ghost use Rattle.regress_engine_prefix.specs.Starts.{IsPlain};
ghost use Rattle.regress_engine_search.specs.Prefiltering.{IsNextHit, is_anchored, is_near, literal_of};

use memchr::memmem::Finder;
use regress_engine_prefix::StartPredicate;
use regress_engine_scanning::{
    find_byte_of, find_member, find_near, find_near_units, find_one, find_sequence, find_set,
    find_three, find_two,
};

/// Looks for what a start predicate says; a literal is prepared once.
#[derive(Debug, Drop)]
pub struct Prefilter<'r> {
    /// What is looked for.
    pub start: &'r StartPredicate,
    literal: Option<Finder<'r>>,
    ghost prepared: { literal ≡ literal_of start.now },
}

impl<'r> Prefilter<'r> {
    /// What looks for a start predicate.
    ///
    /// ```rust
    /// let prefilter = Prefilter::new(program.start_pred());
    /// ```
    #[inline(always)]
    pub fn new(start: &'r StartPredicate) -> Prefilter<'r>
        ensures { result.start ≡ start.entry }
    {
        let literal = match start {
            StartPredicate::ByteSeq(bytes) => Some(Finder::new(bytes.as_slice())),
            _ => None,
        };
        Prefilter { start, literal }
    }

    /// Whether it is the start of the text alone.
    fn is_anchored(&self) -> bool
        ensures { result ≡ is_anchored self.now.start.now }
    {
        matches!(self.start, StartPredicate::StartAnchored)
    }

    /// The first index at which bytes go on as the predicate says, where they are all of the text. It is apart so that no other search makes
    /// room for it.
    #[inline(always)]
    fn find_in(&self, bytes: &[u8]) -> Option<usize>
        ensures first { IsNextHit self.now.start.now bytes.now 0 result }
        ensures inside { IfSome result (λ k. k ≤ length bytes.now) }
    {
        match self.start {
            StartPredicate::Arbitrary | StartPredicate::StartAnchored => Some(0),
            StartPredicate::ByteSet1(set) => find_one(*set, bytes),
            StartPredicate::ByteSet2(set) => find_two(*set, bytes),
            StartPredicate::ByteSet3(set) => find_three(*set, bytes),
            StartPredicate::ByteSeq(_) => match &self.literal {
                Some(literal) => literal.find(bytes),
                None => unreachable!(),
            },
            StartPredicate::ByteBracket(set) => find_set(set, bytes),
            StartPredicate::ByteNear(set, landmark) => find_near(set, *landmark, bytes, 0),
            StartPredicate::BytePair(pair) => pair.find(bytes, 0),
            StartPredicate::WordStart(word) => word.find(bytes, 0),
        }
    }

    /// What `find_from` answers where bytes are told apart from what stands before them. It is apart so that no other search makes room for it.
    #[inline(never)]
    fn find_behind(&self, text: &[u8], offset: usize) -> Option<usize>
        requires inside { offset ≤ length text.now }
        requires anchored { is_anchored self.now.start.now ≡ false }
        requires near { is_near self.now.start.now ≡ false }
        ensures { IsNextHit self.now.start.now text.now offset result }
    {
        let index = self.find_in(&text[offset..])?;
        Some(offset + index)
    }

    /// The least offset from one on at which the bytes of a text go on as the predicate says, or `None` where they do nowhere.
    /// Asks that the offset lies in the text.
    ///
    /// ```rust
    /// let start = prefilter.find_from(b"abcab", 1); // of `ab` `Some(3)`
    /// ```
    pub fn find_from(&self, text: &[u8], offset: usize) -> Option<usize>
        requires { offset ≤ length text.now }
        ensures { IsNextHit self.now.start.now text.now offset result }
    {
        if self.is_anchored() {
            return (offset == 0).then_some(0);
        }
        if let StartPredicate::ByteNear(set, landmark) = self.start {
            return find_near(set, *landmark, text, offset);
        }
        if let StartPredicate::WordStart(word) = self.start {
            return word.find(text, offset);
        }
        self.find_behind(text, offset)
    }

    /// The same among 16-bit units, where a byte is the unit of the same number. Asks that the offset lies in the text, and for
    /// a plain predicate, as `predicate_for_units` makes it.
    ///
    /// ```rust
    /// let start = prefilter.find_from_units(&[0x61, 0x62], 0); // of `b` `Some(1)`
    /// ```
    pub fn find_from_units(&self, text: &[u16], offset: usize) -> Option<usize>
        requires plain { IsPlain self.now.start.now }
        requires inside { offset ≤ length text.now }
        ensures { IsNextHit self.now.start.now text.now offset result }
    {
        match self.start {
            StartPredicate::StartAnchored => (offset == 0).then_some(0),
            StartPredicate::ByteSet1(set) => find_member(set, text, offset),
            StartPredicate::ByteSet2(set) => find_member(set, text, offset),
            StartPredicate::ByteSet3(set) => find_member(set, text, offset),
            StartPredicate::ByteSeq(bytes) => find_sequence(bytes, text, offset),
            StartPredicate::ByteBracket(set) => find_byte_of(set, text, offset),
            StartPredicate::ByteNear(set, landmark) => {
                find_near_units(set, *landmark, text, offset)
            }
            StartPredicate::BytePair(pair) => pair.find_units(text, offset),
            StartPredicate::WordStart(word) => word.find_units(text, offset),
            StartPredicate::Arbitrary => Some(offset),
        }
    }
}
