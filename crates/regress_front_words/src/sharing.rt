//! Words that begin alike.
ghost use Rattle.std.specs.Prelude.{◌≡◌, ◌+◌, ◌-◌, ◌≤◌, ◌<◌, ◌++◌, [], ◌∷◌, true, false, ◌||◌, length, chars, map, slice_range, IfOk, MatchOption};
ghost use Rattle.std.specs.Str.{IsUtf8};
ghost use Rattle.regress_meaning.specs.Meaning.{Forward};
ghost use Rattle.regress_front_nodes.specs.Trees.{Tree, tree, alt, cat_of};
ghost use Rattle.regress_front_rules.specs.Rules.{HasLaws, RewritesAtRoot};
ghost use Rattle.regress_front_rules.specs.Words.{words};
ghost use Rattle.regress_front_words.specs.Sharing.{is_choice_of_literals, spelled, behind, AreLong, AreSame, IsWorth, IsMadeOf};

use crate::grouping::grouped;
use regress_front_nodes::Node;
use std::alloc::{AllocError, Global};

/// At most so many shared beginnings stand one behind another, so that no tree of words nests deep.
const MOST_SHARED: usize = 16;

/// A tree of words, and whether some of them share what they begin with.
#[derive(Drop)]
struct WordTree {
    node: Node,
    shared: bool,
}

/// The characters of a literal.
fn chars_of(alloc: Global, bytes: &[u8]) -> Result<Vec<char>, AllocError>
    requires { IsUtf8 bytes.now }
    ensures { IfOk result (λ word. word.items ≡ chars bytes.now) }
{
    match str::from_utf8(bytes) {
        Ok(text) => text.chars().collect(alloc),
        Err(_) => unreachable!(),
    }
}

/// Adds the words of a choice between literals behind others, and answers whether it is one.
fn add_words(alloc: Global, node: &Node, list: &mut Vec<Vec<char>>) -> Result<bool, AllocError>
    requires { HasLaws (tree node.now) }
    ensures choice { IfOk result (λ is. is ≡ true → is_choice_of_literals (tree node.now) ≡ true) }
    ensures added { IfOk result (λ is. is ≡ true → spelled list.new.items ≡ spelled list.old.items ++ words (tree node.now)) }
{
    match node {
        Node::Empty => {
            list.push(Vec::new(alloc))?;
            Ok(true)
        }
        Node::ByteSequence(bytes) => {
            list.push(chars_of(alloc, bytes)?)?;
            Ok(true)
        }
        Node::Alt(first, second) => {
            Ok(add_words(alloc, first, list)? && add_words(alloc, second, list)?)
        }
        _ => Ok(false),
    }
}

/// The characters as a literal, or `Empty` where there are none.
fn literal(alloc: Global, word: &[char]) -> Result<Node, AllocError>
    ensures made { IfOk result (λ n. IsMadeOf (word.now ∷ []) false (tree n)) }
    ensures word { IfOk result (λ n. words (tree n) ≡ word.now ∷ []) }
{
    if word.is_empty() {
        return Ok(Node::Empty);
    }
    let mut text = String::new(alloc);
    for letter in word {
        text.push(*letter)?;
    }
    Ok(Node::ByteSequence(text.into_bytes()))
}

/// Up to where two words are the same from a place on, and not past another.
fn same_up_to(first: &[char], second: &[char], from: usize, most: usize) -> usize
    requires order { from ≤ most }
    requires inside { (most ≤ length first.now) × (from ≤ length second.now) }
    ensures order { (from ≤ result) × (result ≤ most) × (result ≤ length second.now) }
    ensures same { slice_range second.now from result ≡ slice_range first.now from result }
{
    for end in from..most {
        if end >= second.len() || first[end] != second[end] {
            return end;
        }
    }
    most
}

/// Up to where all words are the same as the first, from a place on.
fn shared_end(first: &[char], others: &[Vec<char>], from: usize) -> usize
    requires first { from ≤ length first.now }
    requires others { AreLong from (spelled others.now) }
    ensures order { (from ≤ result) × (result ≤ length first.now) }
    ensures same { AreSame from result (slice_range first.now from result) (spelled others.now) }
{
    let mut end = first.len();
    for other in others {
        end = same_up_to(first, other, from, end);
    }
    end
}

/// Whether sharing the characters from one place up to another leaves no more nodes.
fn is_worth(words: &[Vec<char>], from: usize, end: usize) -> bool
    requires some { 0 < length words.now }
    requires order { from ≤ end }
    ensures { result ≡ true → IsWorth from end (spelled words.now) }
{
    let mut alone: usize = 0;
    for word in words {
        if word.len() == end {
            alone += 1;
        }
    }
    alone < (words.len() - 1).saturating_mul(end - from)
}

/// Whether a word and the one before it differ at a place.
fn differs(words: &[Vec<char>], at: usize, place: usize) -> bool
    requires { (0 < at) × (at < length words.now) }
{
    words[at - 1].get(place) != words[at].get(place)
}

/// Where to part words: near the middle, and between two that differ at a place, if there are such.
fn middle_of(words: &[Vec<char>], place: usize) -> usize
    requires { 1 < length words.now }
    ensures { (0 < result) × (result < length words.now) }
{
    let middle = words.len() / 2;
    for distance in 0..words.len() - middle {
        if distance < middle && differs(words, middle - distance, place) {
            return middle - distance;
        }
        if differs(words, middle + distance, place) {
            return middle + distance;
        }
    }
    middle
}

/// A literal, and a tree behind it.
fn begun(alloc: Global, word: &[char], rest: Node) -> Result<Node, AllocError>
    ensures { IfOk result (λ n. (a : Tree) × IsMadeOf (word.now ∷ []) false a × (words a ≡ word.now ∷ []) × (tree n ≡ cat_of (a ∷ tree rest ∷ []))) }
{
    let mut parts = Vec::with_capacity(alloc, 2)?;
    parts.push(literal(alloc, word)?)?;
    parts.push(rest)?;
    Ok(Node::Cat(parts))
}

/// A choice between two trees.
fn either(alloc: Global, first: WordTree, second: WordTree) -> Result<WordTree, AllocError>
    ensures { IfOk result (λ r. (tree r.node ≡ alt (tree first.node) (tree second.node)) × (r.shared ≡ (first.shared || second.shared))) }
{
    let shared = first.shared | second.shared;
    let node = Node::Alt(Box::new(alloc, first.node)?, Box::new(alloc, second.node)?);
    Ok(WordTree { node, shared })
}

/// The tree of what stands in words behind their first characters, where at most so many shared beginnings stand one behind
/// another.
fn word_tree(
    alloc: Global,
    words: &[Vec<char>],
    from: usize,
    levels: usize,
) -> Result<WordTree, AllocError>
    requires some { 0 < length words.now }
    requires long { AreLong from (spelled words.now) }
    ensures { IfOk result (λ r. IsMadeOf (behind from (spelled words.now)) r.shared (tree r.node)) }
{
    let first = &words[0];
    if words.len() == 1 {
        let node = literal(alloc, &first[from..])?;
        return Ok(WordTree {
            node,
            shared: false,
        });
    }
    let end = shared_end(first, words, from);
    if levels > 0 && is_worth(words, from, end) {
        let regrouped = grouped(alloc, words, end)?;
        let rest = word_tree(alloc, &regrouped, end, levels - 1)?;
        let node = begun(alloc, &first[from..end], rest.node)?;
        return Ok(WordTree { node, shared: true });
    }
    let (before, after) = words.split_at(middle_of(words, from));
    let before = word_tree(alloc, before, from, levels)?;
    let after = word_tree(alloc, after, from, levels)?;
    either(alloc, before, after)
}

/// A choice between words as a tree in which some share what they begin with; `None` where none do.
///
/// The two trees are the alternatives of a choice that is read forward. Where each of their alternatives is a literal, or empty,
/// the words of all are read, and those that begin alike share it: `case|do|catch` is `ca(?:se|tch)|do`. It errs where memory is
/// refused.
///
/// ```rust
/// let shared = shared_words(alloc, first, second)?; // of `/case|do|catch/`
/// ```
pub fn shared_words(alloc: Global, first: &Node, second: &Node) -> Result<Option<Node>, AllocError>
    requires { HasLaws (alt (tree first.now) (tree second.now)) }
    ensures { IfOk result (λ o. MatchOption o (true ≡ true) (λ n. RewritesAtRoot Forward (alt (tree first.now) (tree second.now)) (tree n))) }
{
    let mut list = Vec::new(alloc);
    if !add_words(alloc, first, &mut list)? || !add_words(alloc, second, &mut list)? {
        return Ok(None);
    }
    let list = grouped(alloc, &list, 0)?;
    let words = word_tree(alloc, &list, 0, MOST_SHARED)?;
    if words.shared {
        Ok(Some(words.node))
    } else {
        Ok(None)
    }
}
