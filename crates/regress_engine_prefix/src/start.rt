//! Where a search may begin, told by bytes.
ghost use Rattle.std.specs.Prelude.{◌≡◌, ◌⊎◌, ◌↔◌, ℕ, Bool, false, IfOk, IfErr, IfSome, IsTrue};
ghost use Rattle.regress_meaning.specs.Text.{holds};
ghost use Rattle.regress_front_nodes.specs.Trees.{tree};
ghost use Rattle.regress_front_nodes.specs.WellFormed.{IsWellFormed};
ghost use Rattle.regress_engine_prefix.specs.Prefixes.{IsLawful, LeadsCharacters};
ghost use Rattle.regress_engine_prefix.specs.Choosing.{TellsPair, IsOrPair, IsOrWord};
ghost use Rattle.regress_engine_scanning.specs.BytePairs.{IsLowPair};
ghost use Rattle.regress_engine_scanning.specs.Units.{AreAscii};
ghost use Rattle.regress_engine_prefix.specs.Starts.{IsStartOf, SaysNoMore, HitsBoundaries, IsAnchoredOnlyIf, IsAtStart, HoldsAtStart, KeepsSequence, KeepsLiteral, IsSameStart, IsPlain, TellsLeads, KeepsAscii, BeginsCharacters, tells_beside};

use crate::prefix::{Prefix, prefix_of};
use crate::reach::{landmark_of, low_landmark_of};
use crate::words::{low_word_start_of, word_start_of};
use regress_engine_scanning::{
    BytePair, Landmark, NibbleSet, WordStart, are_ascii, is_beyond_ascii,
};
use regress_front_bytes::ByteBitmap;
use regress_front_core::Error;
use regress_front_nodes::Node;
use regress_front_nodes::ir::Regex;
use std::alloc::{AllocError, Global};

/// Where a match may begin, told by the bytes there.
#[derive(Debug, Drop)]
pub enum StartPredicate {
    /// Anywhere.
    Arbitrary,
    /// At this byte.
    ByteSet1([u8; 1]),
    /// At one of two bytes.
    ByteSet2([u8; 2]),
    /// At one of three bytes.
    ByteSet3([u8; 3]),
    /// At these bytes.
    ByteSeq(Vec<u8>),
    /// At one of some bytes.
    ByteBracket(ByteBitmap),
    /// At one of some bytes, where another byte stands by.
    ByteNear(ByteBitmap, Landmark),
    /// At a byte of one set, behind which a byte of another stands.
    BytePair(BytePair),
    /// At a byte of one set, in front of which no byte of a word stands.
    WordStart(WordStart),
    /// At the start of the text alone.
    StartAnchored,
}

impl StartPredicate {
    /// The same predicate once more. It errs only where memory is refused.
    ///
    /// ```rust
    /// let copy = start.copy(alloc)?;
    /// ```
    pub fn copy(&self, alloc: Global) -> Result<StartPredicate, AllocError>
        ensures { IfOk result (IsSameStart self.now) }
    {
        Ok(match self {
            StartPredicate::Arbitrary => StartPredicate::Arbitrary,
            StartPredicate::ByteSet1(bytes) => StartPredicate::ByteSet1(*bytes),
            StartPredicate::ByteSet2(bytes) => StartPredicate::ByteSet2(*bytes),
            StartPredicate::ByteSet3(bytes) => StartPredicate::ByteSet3(*bytes),
            StartPredicate::ByteSeq(bytes) => StartPredicate::ByteSeq(bytes.to_vec(alloc)?),
            StartPredicate::ByteBracket(bitmap) => StartPredicate::ByteBracket(*bitmap),
            StartPredicate::ByteNear(bitmap, landmark) => {
                StartPredicate::ByteNear(*bitmap, *landmark)
            }
            StartPredicate::BytePair(pair) => StartPredicate::BytePair(*pair),
            StartPredicate::WordStart(word) => StartPredicate::WordStart(*word),
            StartPredicate::StartAnchored => StartPredicate::StartAnchored,
        })
    }

    /// Whether each byte that it tells is below 0x80. Asks that it tells but bytes that follow each other.
    fn is_plain(&self) -> bool
        requires leads { TellsLeads self.now }
        requires near { tells_beside self.now ≡ false }
        ensures { IsTrue result ↔ IsPlain self.now }
    {
        match self {
            StartPredicate::Arbitrary | StartPredicate::StartAnchored => true,
            StartPredicate::ByteSet1(bytes) => are_ascii(bytes),
            StartPredicate::ByteSet2(bytes) => are_ascii(bytes),
            StartPredicate::ByteSet3(bytes) => are_ascii(bytes),
            StartPredicate::ByteSeq(bytes) => are_ascii(bytes),
            StartPredicate::ByteBracket(set) => !is_beyond_ascii(set),
            StartPredicate::BytePair(pair) => pair.is_ascii(),
            StartPredicate::ByteNear(..) | StartPredicate::WordStart(_) => false,
        }
    }

    /// What says the same of 16-bit units: the predicate itself where it is plain, else `Arbitrary`. Asks that it tells but bytes
    /// that follow each other.
    fn for_units(self) -> StartPredicate
        requires leads { TellsLeads self }
        requires near { tells_beside self ≡ false }
        ensures plain { IsPlain result }
        ensures kept { IsPlain self → result ≡ self }
        ensures either { (result ≡ self) ⊎ (result ≡ StartPredicate.Arbitrary) }
    {
        if self.is_plain() {
            self
        } else {
            StartPredicate::Arbitrary
        }
    }
}

/// At the bytes of a set, by how many there are.
fn of_set(set: ByteBitmap) -> StartPredicate
    requires { LeadsCharacters (Prefix.First set) }
    ensures leads { TellsLeads result }
    ensures begins { SaysNoMore result (Prefix.First set) }
    ensures boundary { HitsBoundaries result }
    ensures anchored { IsAnchoredOnlyIf ⊥ result }
    ensures near { tells_beside result ≡ false }
{
    match set.count_bits() {
        0 => StartPredicate::Arbitrary,
        1 => StartPredicate::ByteSet1(set.as_array::<1>()),
        2 => StartPredicate::ByteSet2(set.as_array::<2>()),
        3 => StartPredicate::ByteSet3(set.as_array::<3>()),
        _ => StartPredicate::ByteBracket(set),
    }
}

/// What a search looks for where this holds of each match.
fn of_prefix(prefix: Prefix, multiline: bool) -> StartPredicate
    requires { LeadsCharacters prefix }
    ensures leads { TellsLeads result }
    ensures begins { SaysNoMore result prefix }
    ensures boundary { HitsBoundaries result }
    ensures anchored { IsAnchoredOnlyIf (multiline ≡ false) result }
    ensures start { IsAnchoredOnlyIf (IsAtStart prefix) result }
    ensures sequence { KeepsSequence prefix result }
    ensures near { tells_beside result ≡ false }
{
    match prefix {
        Prefix::Start if !multiline => StartPredicate::StartAnchored,
        Prefix::Bytes(bytes) => match bytes.as_slice() {
            [] => StartPredicate::Arbitrary,
            [byte] => StartPredicate::ByteSet1([*byte]),
            _ => StartPredicate::ByteSeq(bytes),
        },
        Prefix::First(set) => of_set(set),
        Prefix::Pair(first, _) => of_set(first),
        _ => StartPredicate::Arbitrary,
    }
}

/// More second bytes than this are not looked for: most bytes of a text would be among them.
const MOST_SECOND: u32 = 128;

/// Whether a set has none but punctuation, which few bytes of a text are: those are found faster by themselves.
fn are_rare(set: &ByteBitmap) -> bool {
    for byte in 0..=u8::MAX {
        if set.contains(byte) && !byte.is_ascii_punctuation() {
            return false;
        }
    }
    true
}

/// The first and the second bytes of each match, where both are known, the first are frequent and the second are few.
fn pair_of(prefix: &Prefix) -> Option<BytePair>
    ensures { IfSome result (λ pair. TellsPair pair prefix.now) }
{
    let Prefix::Pair(first, second) = prefix else {
        return None;
    };
    if second.count_bits() > MOST_SECOND || are_rare(first) {
        return None;
    }
    Some(BytePair {
        first: NibbleSet::new(first)?,
        second: NibbleSet::new(second)?,
    })
}

/// The same, where all of these bytes are below 0x80.
fn low_pair_of(prefix: &Prefix) -> Option<BytePair>
    ensures tells { IfSome result (λ pair. TellsPair pair prefix.now) }
    ensures low { IfSome result IsLowPair }
{
    let pair = pair_of(prefix)?;
    if pair.is_ascii() { Some(pair) } else { None }
}

/// The same predicate, or of the bytes of a set those behind which another known byte stands.
fn with_pair(start: StartPredicate, pair: Option<BytePair>) -> StartPredicate
    ensures { IsOrPair start pair result }
{
    match (start, pair) {
        (StartPredicate::ByteSet2(_), Some(pair)) => StartPredicate::BytePair(pair),
        (StartPredicate::ByteSet3(_), Some(pair)) => StartPredicate::BytePair(pair),
        (StartPredicate::ByteBracket(_), Some(pair)) => StartPredicate::BytePair(pair),
        (start, _) => start,
    }
}

/// The same predicate, or of the bytes of a set those by which a byte stands that stands by each match.
fn with_landmark(
    alloc: Global,
    node: &Node,
    start: StartPredicate,
) -> Result<StartPredicate, AllocError>
    requires lawful { IsLawful (tree node.now) }
    requires begins { IsStartOf start (tree node.now) }
    requires boundary { HitsBoundaries start }
    ensures begins { IfOk result (λ near. IsStartOf near (tree node.now)) }
    ensures boundary { IfOk result HitsBoundaries }
    ensures literal { KeepsLiteral (tree node.now) start → IfOk result (KeepsLiteral (tree node.now)) }
    ensures anchored { (multiline : Bool) → IsAnchoredOnlyIf (multiline ≡ false) start → IfOk result (IsAnchoredOnlyIf (multiline ≡ false)) }
    ensures first { HoldsAtStart (tree node.now) start → IfOk result (HoldsAtStart (tree node.now)) }
{
    let StartPredicate::ByteBracket(set) = start else {
        return Ok(start);
    };
    match landmark_of(alloc, node)? {
        Some(landmark) => Ok(StartPredicate::ByteNear(set, landmark)),
        None => Ok(StartPredicate::ByteBracket(set)),
    }
}

/// The same plain predicate, or of the bytes of a set those by which a byte stands that stands by each match, where all of these
/// are below 0x80.
fn with_low_landmark(
    alloc: Global,
    node: &Node,
    start: StartPredicate,
) -> Result<StartPredicate, AllocError>
    requires lawful { IsLawful (tree node.now) }
    requires plain { IsPlain start }
    requires characters { BeginsCharacters start (tree node.now) }
    requires begins { IsStartOf start (tree node.now) }
    requires boundary { HitsBoundaries start }
    ensures plain { IfOk result IsPlain }
    ensures characters { IfOk result (λ near. BeginsCharacters near (tree node.now)) }
    ensures begins { IfOk result (λ near. IsStartOf near (tree node.now)) }
    ensures boundary { IfOk result HitsBoundaries }
    ensures literal { KeepsAscii (tree node.now) start → IfOk result (KeepsAscii (tree node.now)) }
    ensures anchored { (multiline : Bool) → IsAnchoredOnlyIf (multiline ≡ false) start → IfOk result (IsAnchoredOnlyIf (multiline ≡ false)) }
    ensures first { HoldsAtStart (tree node.now) start → IfOk result (HoldsAtStart (tree node.now)) }
{
    let StartPredicate::ByteBracket(set) = start else {
        return Ok(start);
    };
    match low_landmark_of(alloc, node)? {
        Some(landmark) => Ok(StartPredicate::ByteNear(set, landmark)),
        None => Ok(StartPredicate::ByteBracket(set)),
    }
}

/// The same predicate, or of the bytes of a set or a pair those at which a word begins.
fn with_word(start: StartPredicate, word: Option<WordStart>) -> StartPredicate
    ensures { IsOrWord start word result }
{
    match (start, word) {
        (StartPredicate::ByteSet2(_), Some(word)) => StartPredicate::WordStart(word),
        (StartPredicate::ByteSet3(_), Some(word)) => StartPredicate::WordStart(word),
        (StartPredicate::ByteBracket(_), Some(word)) => StartPredicate::WordStart(word),
        (StartPredicate::BytePair(_), Some(word)) => StartPredicate::WordStart(word),
        (start, _) => start,
    }
}

/// What the bytes begin with wherever a match of the tree begins.
///
/// At the offset of each place of a text of UTF-8 from which the tree has an outcome the bytes begin as the predicate says; and
/// wherever they begin so is a boundary of characters, unless the predicate is `Arbitrary`. `StartAnchored` is chosen only where
/// `flags.multiline` is off and the tree has outcomes at the start of a text alone, whatever holds the text; and a literal of two
/// or more bytes with which the tree begins is a `ByteSeq`. Asks for a well-formed tree, rewritten or not. It errs with
/// `OutOfMemory` alone.
///
/// ```rust
/// let start = predicate_for_re(alloc, &regex)?; // of `abc` the `ByteSeq` of `abc`, of `a|b` a `ByteSet2`, of `a*` `Arbitrary`
/// ```
pub fn predicate_for_re(alloc: Global, regex: &Regex) -> Result<StartPredicate, Error>
    requires { (n : ℕ) × IsWellFormed n (tree regex.now.node) }
    ensures begins { IfOk result (λ start. IsStartOf start (tree regex.now.node)) }
    ensures boundary { IfOk result HitsBoundaries }
    ensures literal { IfOk result (KeepsLiteral (tree regex.now.node)) }
    ensures anchored { IfOk result (IsAnchoredOnlyIf (regex.now.flags.multiline ≡ false)) }
    ensures first { IfOk result (HoldsAtStart (tree regex.now.node)) }
    ensures refused { IfErr result (λ e. e ≡ Error.OutOfMemory) }
{
    let prefix = prefix_of(alloc, &regex.node)?;
    let pair = pair_of(&prefix);
    let word = word_start_of(&regex.node, &prefix);
    let start = of_prefix(prefix, regex.flags.multiline);
    let start = with_landmark(alloc, &regex.node, start)?;
    let start = with_pair(start, pair);
    Ok(with_word(start, word))
}

/// What the 16-bit units begin with wherever a match of the tree begins, as `predicate_for_re` tells it of bytes.
///
/// It is plain: each byte that it tells is below 0x80, and stands for the unit of the same number, which is a character by itself
/// in UTF-16 and in UCS-2; up to the byte of a landmark stand such characters alone. In each text, at each place from which the tree
/// has an outcome, the characters begin so; and a literal of two or more such bytes with which the tree begins is a `ByteSeq`. Where
/// nothing is told by such bytes it is `Arbitrary`. Asks for a well-formed tree, and errs with `OutOfMemory` alone.
///
/// ```rust
/// let start = predicate_for_units(alloc, &regex)?; // of `abc` the `ByteSeq` of `abc`, of `é` `Arbitrary`
/// ```
pub fn predicate_for_units(alloc: Global, regex: &Regex) -> Result<StartPredicate, Error>
    requires { (n : ℕ) × IsWellFormed n (tree regex.now.node) }
    ensures plain { IfOk result IsPlain }
    ensures characters { IfOk result (λ start. BeginsCharacters start (tree regex.now.node)) }
    ensures literal { IfOk result (KeepsAscii (tree regex.now.node)) }
    ensures begins { IfOk result (λ start. IsStartOf start (tree regex.now.node)) }
    ensures boundary { IfOk result HitsBoundaries }
    ensures anchored { IfOk result (IsAnchoredOnlyIf (regex.now.flags.multiline ≡ false)) }
    ensures first { IfOk result (HoldsAtStart (tree regex.now.node)) }
    ensures refused { IfErr result (λ e. e ≡ Error.OutOfMemory) }
{
    let prefix = prefix_of(alloc, &regex.node)?;
    let low_pair = low_pair_of(&prefix);
    let low_word = low_word_start_of(&regex.node, &prefix);
    let start = of_prefix(prefix, regex.flags.multiline).for_units();
    let start = with_low_landmark(alloc, &regex.node, start)?;
    let start = with_pair(start, low_pair);
    Ok(with_word(start, low_word))
}
