//! What is known of a match of a node before it is made.
ghost use Rattle.std.specs.Prelude.{◌≡◌, ◌≢◌, ◌≤◌, ℕ, true, All, map, IfOk, IfSome, OnOk, IsTrue, IsFalse};
ghost use Rattle.std.specs.Box.{boxed_slice_items};
ghost use Rattle.regress_meaning.specs.TableParts.{is_code_point};
ghost use Rattle.regress_front_bytes.specs.declared.bitmaps.ByteBitmap.{ByteBitmap};
ghost use Rattle.regress_front_nodes.specs.Trees.{Tree, tree, cat, cat_of, alt, anchor_of, string_set, loop, single_loop};
ghost use Rattle.regress_front_nodes.specs.Forms.{is_leaf};
ghost use Rattle.regress_engine_prefix.specs.Prefixes.{IsLawful, IsWeaker, LeadsCharacters, Foretells};
ghost use Rattle.regress_engine_prefix.specs.Reaches.{TakesOne};

use crate::first_bytes::{
    first_of_ascii, first_of_bracket, first_of_chars, first_of_strings, second_of_chars,
    with_continuations,
};
use crate::joining::either;
use regress_engine_scanning::is_beyond_ascii;
use regress_front_bytes::ByteBitmap;
use regress_front_nodes::{AnchorType, Node, Quantifier};
use regress_front_tables::CodePoint;
use std::alloc::{AllocError, Global};
use std::boxed::BoxedSlice;

/// What holds of each match from a place on.
#[derive(Drop)]
pub(crate) enum Prefix {
    /// It takes nothing.
    Still,
    /// Nothing is known.
    Unknown,
    /// The place is the start of the text.
    Start,
    /// These bytes stand there.
    Bytes(Vec<u8>),
    /// A byte of this set stands there.
    First(ByteBitmap),
    /// A byte of this set stands there, and behind it one of another.
    Pair(ByteBitmap, ByteBitmap),
}

/// What holds of an anchor.
fn of_anchor(anchor_type: AnchorType, multiline: bool) -> Prefix
    ensures { Foretells result (anchor_of anchor_type multiline) }
{
    match anchor_type {
        AnchorType::StartOfLine if !multiline => Prefix::Start,
        _ => Prefix::Still,
    }
}

/// What holds of each match of one of some strings: nothing is known where case is ignored or one is empty.
fn of_strings(strings: &[BoxedSlice<CodePoint>], icase: bool) -> Prefix
    requires { All (All is_code_point) (map boxed_slice_items strings.now) }
    ensures { Foretells result (string_set (map boxed_slice_items strings.now) icase) }
{
    if icase {
        return Prefix::Unknown;
    }
    match first_of_strings(strings) {
        Some(set) => Prefix::First(set),
        None => Prefix::Unknown,
    }
}

/// What holds of each match of a node.
pub(crate) fn prefix_of(alloc: Global, node: &Node) -> Result<Prefix, AllocError>
    requires { IsLawful (tree node.now) }
    ensures { IfOk result (λ prefix. Foretells prefix (tree node.now)) }
{
    let mut known = Prefix::Unknown;
    find(alloc, node, &mut known)?;
    Ok(known)
}

// What calls itself by the nesting of a tree has small frames: it writes what it finds in a place that is handed down, and what
// ends before the next level is kept out of line.

/// Puts what holds of each match of a node in the place of what is known.
#[cycle(prefix)]
fn find(alloc: Global, node: &Node, known: &mut Prefix) -> Result<(), AllocError>
    requires { IsLawful (tree node.now) }
    ensures { OnOk result (Foretells known.new (tree node.now)) }
{
    match node {
        Node::Cat(parts) => find_of_parts(alloc, parts, known),
        Node::Alt(first, second) => find_of_arms(alloc, first, second, known),
        Node::CaptureGroup { contents, .. } => find(alloc, contents, known),
        Node::AtomicGroup { contents, .. } => find(alloc, contents, known),
        Node::Loop { loopee, quant, .. } => find_of_loop(alloc, loopee, quant, known),
        Node::Loop1CharBody { loopee, quant } => find_of_loop(alloc, loopee, quant, known),
        Node::LookaroundAssertion { .. } => still(known),
        _ => find_of_leaf(alloc, node, known),
    }
}

/// Nothing is taken.
#[inline(never)]
fn still(known: &mut Prefix) -> Result<(), AllocError>
    ensures { OnOk result (known.new ≡ Prefix.Still) }
{
    *known = Prefix::Still;
    Ok(())
}

/// Nothing is known.
#[inline(never)]
fn unknown(known: &mut Prefix) -> Result<(), AllocError>
    ensures { OnOk result (known.new ≡ Prefix.Unknown) }
{
    *known = Prefix::Unknown;
    Ok(())
}

/// Whether nothing is taken.
fn is_still(known: &Prefix) -> bool
    ensures still { IsTrue result → known.now ≡ Prefix.Still }
    ensures other { IsFalse result → known.now ≢ Prefix.Still }
{
    matches!(known, Prefix::Still)
}

/// Whether it takes one character.
pub(crate) fn is_one(node: &Node) -> bool
    ensures { IsTrue result → TakesOne (tree node.now) }
{
    match node {
        Node::Char { .. } => true,
        Node::ByteSet(_) => true,
        Node::CharSet(_) => true,
        Node::Bracket(_) => true,
        _ => false,
    }
}

/// The same of a node of a kind that has no parts.
#[inline(never)]
fn find_of_leaf(alloc: Global, node: &Node, known: &mut Prefix) -> Result<(), AllocError>
    requires lawful { IsLawful (tree node.now) }
    requires leaf { is_leaf (tree node.now) ≡ true }
    ensures { OnOk result (Foretells known.new (tree node.now)) }
{
    *known = with_second(node, prefix_of_leaf(alloc, node)?);
    Ok(())
}

/// The second bytes of what a node takes, where they are of the character that it takes.
fn second_of_leaf(node: &Node) -> Option<ByteBitmap>
    ensures { IfSome result (λ second. (first : ByteBitmap) →
        Foretells (Prefix.First first) (tree node.now) → Foretells (Prefix.Pair first second) (tree node.now)) }
{
    match node {
        Node::CharSet(chars) => second_of_chars(chars),
        _ => None,
    }
}

/// What is known of a node, and where first bytes are known also the second.
fn with_second(node: &Node, known: Prefix) -> Prefix
    requires { Foretells known (tree node.now) }
    ensures { Foretells result (tree node.now) }
{
    match known {
        Prefix::First(first) => match second_of_leaf(node) {
            Some(second) => Prefix::Pair(first, second),
            None => Prefix::First(first),
        },
        other => other,
    }
}

/// What holds of each match of a node of a kind that has no parts.
#[inline(never)]
pub(crate) fn prefix_of_leaf(alloc: Global, node: &Node) -> Result<Prefix, AllocError>
    requires lawful { IsLawful (tree node.now) }
    requires leaf { is_leaf (tree node.now) ≡ true }
    ensures { IfOk result (λ prefix. Foretells prefix (tree node.now)) }
{
    match node {
        Node::Empty | Node::Goal => Ok(Prefix::Still),
        Node::WordBoundary { .. } => Ok(Prefix::Still),
        Node::Char { c } => Ok(Prefix::First(first_of_chars(&[*c]))),
        Node::ByteSequence(bytes) => Ok(Prefix::Bytes(bytes.to_vec(alloc)?)),
        Node::ByteSet(bytes) => Ok(Prefix::First(first_of_ascii(bytes))),
        Node::CharSet(chars) => Ok(Prefix::First(first_of_chars(chars))),
        Node::MatchAny | Node::MatchAnyExceptLineTerminator | Node::BackRef { .. } => {
            Ok(Prefix::Unknown)
        }
        Node::Anchor {
            anchor_type,
            multiline,
        } => Ok(of_anchor(*anchor_type, *multiline)),
        Node::Bracket(contents) => Ok(Prefix::First(first_of_bracket(contents)?)),
        Node::StringSet {
            alternatives,
            icase,
        } => Ok(of_strings(alternatives, *icase)),
        _ => unreachable!(),
    }
}

/// The same of a choice.
#[cycle(prefix)]
#[inline(never)]
fn find_of_arms(
    alloc: Global,
    first: &Node,
    second: &Node,
    known: &mut Prefix,
) -> Result<(), AllocError>
    requires { IsLawful (alt (tree first.now) (tree second.now)) }
    ensures { OnOk result (Foretells known.new (alt (tree first.now) (tree second.now))) }
{
    find(alloc, first, known)?;
    let mut other = Prefix::Unknown;
    find(alloc, second, &mut other)?;
    join(alloc, known, &other)?;
    Ok(())
}

/// What is known, where another may hold in its place.
#[inline(never)]
fn join(alloc: Global, known: &mut Prefix, other: &Prefix) -> Result<(), AllocError>
    requires known_leads { LeadsCharacters known.old }
    requires other_leads { LeadsCharacters other.now }
    ensures known { OnOk result (IsWeaker known.new known.old) }
    ensures other { OnOk result (IsWeaker known.new other.now) }
    ensures leads { OnOk result (LeadsCharacters known.new) }
{
    let joined = either(alloc, known, other)?;
    *known = joined;
    Ok(())
}

/// The same of a repetition.
#[cycle(prefix)]
#[inline(never)]
fn find_of_loop(
    alloc: Global,
    loopee: &Node,
    quant: &Quantifier,
    known: &mut Prefix,
) -> Result<(), AllocError>
    requires { IsLawful (tree loopee.now) }
    ensures many { OnOk result ((first last most : ℕ) → quant.now.min ≤ most →
        Foretells known.new (loop (tree loopee.now) first last quant.now.min most quant.now.greedy)) }
    ensures single { OnOk result ((most : ℕ) → quant.now.min ≤ most →
        Foretells known.new (single_loop (tree loopee.now) quant.now.min most quant.now.greedy)) }
{
    if quant.min == 0 {
        return unknown(known);
    }
    find(alloc, loopee, known)?;
    if is_still(known) {
        return unknown(known);
    }
    Ok(())
}

/// The first bytes of a node that takes one character, where they are known and no more.
fn single_first(node: &Node, known: &Prefix) -> Option<ByteBitmap>
    ensures first { IfSome result (λ first. known.now ≡ Prefix.First first) }
    ensures one { IfSome result (λ first. TakesOne (tree node.now)) }
{
    match known {
        Prefix::First(first) if is_one(node) => Some(*first),
        _ => None,
    }
}

/// The same of the parts of a `Cat`: what holds of the first that may take something; and of one character also of what follows.
#[cycle(prefix)]
#[inline(never)]
fn find_of_parts(alloc: Global, parts: &[Node], known: &mut Prefix) -> Result<(), AllocError>
    requires { All (λ part. IsLawful (tree part)) parts.now }
    ensures { OnOk result (Foretells known.new (cat_of (map tree parts.now))) }
{
    for (index, part) in parts.iter().enumerate() {
        find(alloc, part, known)?;
        if let Some(first) = single_first(part, known) {
            return find_behind(alloc, part, first, &parts[index + 1..], known);
        }
        if !is_still(known) {
            return Ok(());
        }
    }
    still(known)
}

/// The same of one character, of which the first bytes are known, and of what follows.
#[cycle(prefix)]
#[inline(never)]
fn find_behind(
    alloc: Global,
    node: &Node,
    first: ByteBitmap,
    rest: &[Node],
    known: &mut Prefix,
) -> Result<(), AllocError>
    requires lawful { All (λ part. IsLawful (tree part)) rest.now }
    requires told { Foretells (Prefix.First first) (tree node.now) }
    requires one { TakesOne (tree node.now) }
    ensures { OnOk result (Foretells known.new (cat (tree node.now) (cat_of (map tree rest.now)))) }
{
    find_next(alloc, rest, known)?;
    precede(first, known);
    Ok(())
}

/// The same of the parts of a `Cat`: what holds of the first that may take something.
#[cycle(prefix)]
fn find_next(alloc: Global, parts: &[Node], known: &mut Prefix) -> Result<(), AllocError>
    requires { All (λ part. IsLawful (tree part)) parts.now }
    ensures { OnOk result (Foretells known.new (cat_of (map tree parts.now))) }
{
    for part in parts {
        find(alloc, part, known)?;
        if !is_still(known) {
            return Ok(());
        }
    }
    still(known)
}

/// What is known behind one character, and what is known of it before that.
#[inline(never)]
fn precede(first: ByteBitmap, known: &mut Prefix)
    requires { LeadsCharacters known.old }
    ensures { (t u : Tree) → Foretells (Prefix.First first) t → TakesOne t → Foretells known.old u → Foretells known.new (cat t u) }
{
    let both = follow(first, known);
    *known = both;
}

/// What is known of one character, and of the byte behind its first by what is known of what follows.
fn follow(first: ByteBitmap, next: &Prefix) -> Prefix
    requires { LeadsCharacters next.now }
    ensures { (t u : Tree) → Foretells (Prefix.First first) t → TakesOne t → Foretells next.now u → Foretells result (cat t u) }
{
    let Some(second) = next.first_bytes() else {
        return Prefix::First(first);
    };
    if is_beyond_ascii(&first) {
        return Prefix::Pair(first, with_continuations(second));
    }
    Prefix::Pair(first, second)
}
