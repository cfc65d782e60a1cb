//! Which matches begin where a word does.
ghost use Rattle.std.specs.Prelude.{◌≡◌, ℕ, ◌<◌, true, IfSome, IsTrue};
ghost use Rattle.regress_front_bytes.specs.Bitmaps.{byte_bitmap_contains};
ghost use Rattle.regress_front_nodes.specs.Trees.{tree};
ghost use Rattle.regress_engine_prefix.specs.Prefixes.{Foretells};
ghost use Rattle.regress_engine_prefix.specs.Choosing.{BeginsWordCharacters, BeginsWords, StandAtBoundaries};
ghost use Rattle.regress_engine_scanning.specs.WordStarts.{IsLowWord};
ghost use Rattle.regress_engine_prefix.specs.WordEdges.{AsksBoundary, AreOfWords};

use crate::prefix::Prefix;
use regress_engine_scanning::{NibbleSet, WordStart};
use regress_front_bytes::ByteBitmap;
use regress_front_nodes::Node;
use regress_front_tables::is_ascii_word;

/// The ASCII letters, the digits and `_`.
fn word_bytes() -> ByteBitmap
    ensures { AreOfWords (byte_bitmap_contains result) }
{
    let mut set = ByteBitmap::default();
    for byte in 0..=u8::MAX {
        if is_ascii_word(u32::from(byte)) {
            set.set(byte);
        }
    }
    set
}

/// Whether a set has none but ASCII letters, digits and `_`.
fn are_of_words(set: &ByteBitmap) -> bool
    ensures { IsTrue result → AreOfWords (byte_bitmap_contains set.now) }
{
    for byte in 0..=u8::MAX {
        if set.contains(byte) && !is_ascii_word(u32::from(byte)) {
            return false;
        }
    }
    true
}

/// Whether it is `\b`.
fn is_boundary(node: &Node) -> bool
    ensures { IsTrue result → AsksBoundary (tree node.now) }
{
    match node {
        Node::WordBoundary { invert, .. } => !*invert,
        _ => false,
    }
}

/// Whether it begins with `\b`.
fn asks_boundary(node: &Node) -> bool
    ensures { IsTrue result → AsksBoundary (tree node.now) }
{
    match node {
        Node::Cat(parts) => match parts.first() {
            Some(part) => is_boundary(part),
            None => false,
        },
        _ => is_boundary(node),
    }
}

/// Where the words begin with which each match of a node begins, if it begins with one and the first bytes are known.
pub(crate) fn word_start_of(node: &Node, prefix: &Prefix) -> Option<WordStart>
    requires { Foretells prefix.now (tree node.now) }
    ensures begins { IfSome result (BeginsWords (tree node.now)) }
    ensures boundary { IfSome result StandAtBoundaries }
    ensures characters { IfSome result (λ word. IsLowWord word → BeginsWordCharacters (tree node.now) word) }
{
    if !asks_boundary(node) {
        return None;
    }
    let first = prefix.first_bytes()?;
    if !are_of_words(&first) {
        return None;
    }
    let words = word_bytes();
    let word = NibbleSet::new(&words)?;
    let starts = NibbleSet::new(&first)?;
    Some(WordStart {
        word,
        first: starts,
    })
}

/// The same, where all of these bytes are below 0x80.
pub(crate) fn low_word_start_of(node: &Node, prefix: &Prefix) -> Option<WordStart>
    requires { Foretells prefix.now (tree node.now) }
    ensures begins { IfSome result (BeginsWords (tree node.now)) }
    ensures boundary { IfSome result StandAtBoundaries }
    ensures low { IfSome result IsLowWord }
    ensures characters { IfSome result (BeginsWordCharacters (tree node.now)) }
{
    let word = word_start_of(node, prefix)?;
    if word.is_ascii() { Some(word) } else { None }
}
