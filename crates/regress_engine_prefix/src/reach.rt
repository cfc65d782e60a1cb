//! Which byte stands by each match of a node.
ghost use Rattle.std.specs.Prelude.{◌≡◌, ◌<◌, ◌≤◌, ℕ, true, false, Bool, All, map, IfOk, IfSome, IsTrue, IsFalse};
ghost use Rattle.regress_front_bytes.specs.Bitmaps.{byte_bitmap_contains};
ghost use Rattle.regress_front_nodes.specs.Trees.{Tree, tree, cat_of, single_loop};
ghost use Rattle.regress_front_nodes.specs.Forms.{is_leaf};
ghost use Rattle.regress_engine_scanning.specs.Landmarks.{IsLow};
ghost use Rattle.regress_engine_scanning.specs.Units.{AreAscii};
ghost use Rattle.regress_engine_prefix.specs.Prefixes.{IsLawful, Foretells};
ghost use Rattle.regress_engine_prefix.specs.Reaches.{CoversOne, TakesNothing, IsBoth, Reaches};

use crate::first_bytes::with_continuations;
use crate::prefix::{Prefix, is_one, prefix_of_leaf};
use regress_engine_scanning::{Landmark, is_beyond_ascii};
use regress_front_bytes::ByteBitmap;
use regress_front_nodes::{Node, Quantifier};
use std::alloc::{AllocError, Global};

/// What each match of a node takes: bytes of a set, and how many.
#[derive(Clone, Copy)]
pub(crate) struct Span {
    /// The bytes that may be among them.
    pub run: ByteBitmap,
    /// At least so many.
    pub least: usize,
    /// Whether it is always so many.
    pub exact: bool,
    /// Whether it is one class again and again, with no test between: a failed match has taken all that goes on so.
    pub plain: bool,
}

/// What is known of each match of a node.
#[derive(Clone, Copy)]
pub(crate) enum Reach {
    /// Nothing.
    Unknown,
    /// It takes these bytes.
    Taken(Span),
    /// A byte stands by it.
    By(Landmark),
}

/// What one character takes that begins with a byte of a set.
fn of_one(first: ByteBitmap) -> Span
    ensures { CoversOne (byte_bitmap_contains first) result }
{
    let exact = !is_beyond_ascii(&first);
    Span {
        run: if exact {
            first
        } else {
            with_continuations(first)
        },
        least: 1,
        exact,
        plain: true,
    }
}

/// What takes nothing; at the start of what is taken nothing is asked either.
fn of_nothing(at_start: bool) -> Span
    ensures { TakesNothing result }
{
    Span {
        run: ByteBitmap::default(),
        least: 0,
        exact: true,
        plain: at_start,
    }
}

/// The first of the bytes with which each match begins.
fn of_front(bytes: Vec<u8>) -> Reach
    ensures { (t : Tree) → Foretells (Prefix.Bytes bytes) t → Reaches result t }
{
    match bytes.first() {
        Some(byte) => Reach::By(Landmark::Ahead {
            distance: 0,
            byte: *byte,
        }),
        None => Reach::Unknown,
    }
}

/// What is known of each match of a node of a kind that has no parts.
#[inline(never)]
fn reach_of_leaf(alloc: Global, node: &Node) -> Result<Reach, AllocError>
    requires lawful { IsLawful (tree node.now) }
    requires leaf { is_leaf (tree node.now) ≡ true }
    ensures { IfOk result (λ reach. Reaches reach (tree node.now)) }
{
    Ok(match prefix_of_leaf(alloc, node)? {
        Prefix::Still => Reach::Taken(of_nothing(false)),
        Prefix::Bytes(bytes) => of_front(bytes),
        Prefix::First(set) if is_one(node) => Reach::Taken(of_one(set)),
        _ => Reach::Unknown,
    })
}

/// A repetition that no text ends.
const ENDLESS: usize = 1 << 32;

/// What a repetition takes of what is known of its body.
fn of_many(body: Reach, quant: &Quantifier) -> Reach
    ensures { (t : Tree) (least most : ℕ) (greedy : Bool) → Reaches body t → Reaches result (single_loop t least most greedy) }
{
    match body {
        Reach::Taken(span) => Reach::Taken(Span {
            run: span.run,
            least: 0,
            exact: false,
            plain: span.plain & (quant.max.unwrap_or(ENDLESS) >= ENDLESS),
        }),
        _ => Reach::Unknown,
    }
}

/// Whether the first set has the members of the second, or none.
fn is_same_or_empty(first: &ByteBitmap, second: &ByteBitmap) -> bool {
    let mut both = *first;
    both.bitor(second);
    let count = first.count_bits();
    count == 0 || both.count_bits() == count && second.count_bits() == count
}

/// What one takes behind the other.
fn both_taken(first: Span, second: Span) -> Reach
    ensures { IsBoth (Reach.Taken first) (Reach.Taken second) result }
{
    let Some(least) = first.least.checked_add(second.least) else {
        return Reach::Unknown;
    };
    let mut run = first.run;
    run.bitor(&second.run);
    Reach::Taken(Span {
        run,
        least,
        exact: first.exact & second.exact,
        plain: first.plain & second.plain & is_same_or_empty(&first.run, &second.run),
    })
}

/// The byte that stands by what follows, seen from in front of what is taken before it.
fn seen_over(span: Span, landmark: Landmark) -> Reach
    ensures { IsBoth (Reach.Taken span) (Reach.By landmark) result }
{
    let Landmark::Ahead { distance, byte } = landmark else {
        return Reach::Unknown;
    };
    if span.exact {
        return match span.least.checked_add(distance) {
            Some(distance) => Reach::By(Landmark::Ahead { distance, byte }),
            None => Reach::Unknown,
        };
    }
    if distance > 0 {
        return Reach::Unknown;
    }
    if !span.plain {
        return Reach::Unknown;
    }
    if span.least == 0 {
        return Reach::Unknown;
    }
    if span.run.contains(byte) {
        return Reach::Unknown;
    }
    Reach::By(Landmark::BehindRun {
        run: span.run,
        byte,
    })
}

/// What is known of one behind the other.
fn both(first: Span, second: Reach) -> Reach
    ensures { IsBoth (Reach.Taken first) second result }
{
    match second {
        Reach::Taken(second) => both_taken(first, second),
        Reach::By(landmark) => seen_over(first, landmark),
        Reach::Unknown => Reach::Unknown,
    }
}

/// What is known of each match of a node.
#[cycle(reach)]
fn reach_of(alloc: Global, node: &Node) -> Result<Reach, AllocError>
    requires { IsLawful (tree node.now) }
    ensures { IfOk result (λ reach. Reaches reach (tree node.now)) }
{
    match node {
        Node::Cat(parts) => reach_of_parts(alloc, parts),
        Node::CaptureGroup { contents, .. } => reach_of(alloc, contents),
        Node::AtomicGroup { contents, .. } => reach_of(alloc, contents),
        Node::Loop1CharBody { loopee, quant } => Ok(of_many(reach_of(alloc, loopee)?, quant)),
        Node::LookaroundAssertion { .. } => Ok(Reach::Taken(of_nothing(false))),
        Node::Alt(..) | Node::Loop { .. } => Ok(Reach::Unknown),
        _ => reach_of_leaf(alloc, node),
    }
}

/// The same of the parts of a `Cat`.
#[cycle(reach)]
#[inline(never)]
fn reach_of_parts(alloc: Global, parts: &[Node]) -> Result<Reach, AllocError>
    requires { All (λ part. IsLawful (tree part)) parts.now }
    ensures { IfOk result (λ reach. Reaches reach (cat_of (map tree parts.now))) }
{
    let mut reach = Reach::Taken(of_nothing(true));
    for part in parts {
        let Reach::Taken(span) = reach else {
            return Ok(reach);
        };
        reach = both(span, reach_of(alloc, part)?);
    }
    Ok(reach)
}

/// Whether few bytes of a text are supposed to be so: letters, digits and white space are frequent.
fn is_rare(landmark: Landmark) -> bool {
    let byte = match landmark {
        Landmark::Ahead { byte, .. } => byte,
        Landmark::BehindRun { byte, .. } => byte,
    };
    byte.is_ascii_punctuation()
}

/// A rare byte that stands by each match of a node, where one is known.
pub(crate) fn landmark_of(alloc: Global, node: &Node) -> Result<Option<Landmark>, AllocError>
    requires { IsLawful (tree node.now) }
    ensures { IfOk result (λ found. IfSome found (λ landmark. Reaches (Reach.By landmark) (tree node.now))) }
{
    match reach_of(alloc, node)? {
        Reach::By(landmark) if is_rare(landmark) => Ok(Some(landmark)),
        _ => Ok(None),
    }
}

/// A set of the same bytes, where each is below 0x80.
fn ascii_of(set: ByteBitmap) -> Option<ByteBitmap>
    ensures low { IfSome result (λ low. AreAscii (byte_bitmap_contains low)) }
    ensures kept { IfSome result (λ low. (b : ℕ) → b < 256 → byte_bitmap_contains set b ≡ true → byte_bitmap_contains low b ≡ true) }
{
    if is_beyond_ascii(&set) {
        return None;
    }
    let mut low = ByteBitmap::default();
    for byte in 0..0x80 {
        if set.contains(byte) {
            low.set(byte);
        }
    }
    Some(low)
}

/// What tells the same, where each byte that a landmark tells is below 0x80.
fn low_landmark(landmark: Landmark) -> Option<Landmark>
    ensures low { IfSome result IsLow }
    ensures reaches { (t : Tree) → Reaches (Reach.By landmark) t → IfSome result (λ low. Reaches (Reach.By low) t) }
{
    match landmark {
        Landmark::Ahead { byte, .. } if byte < 0x80 => Some(landmark),
        Landmark::BehindRun { run, byte } if byte < 0x80 => Some(Landmark::BehindRun {
            run: ascii_of(run)?,
            byte,
        }),
        _ => None,
    }
}

/// A rare byte that stands by each match of a node, where one is known and each byte that is told is below 0x80.
pub(crate) fn low_landmark_of(alloc: Global, node: &Node) -> Result<Option<Landmark>, AllocError>
    requires { IsLawful (tree node.now) }
    ensures low { IfOk result (λ found. IfSome found IsLow) }
    ensures reaches { IfOk result (λ found. IfSome found (λ landmark. Reaches (Reach.By landmark) (tree node.now))) }
{
    match landmark_of(alloc, node)? {
        Some(landmark) => Ok(low_landmark(landmark)),
        None => Ok(None),
    }
}
