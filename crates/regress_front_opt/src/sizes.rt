//! How large a node is, and whether it may be copied.
ghost use Rattle.std.specs.Prelude.{◌≡◌, ◌+◌, length, chars, map, min, sum_by};
ghost use Rattle.std.specs.Box.{boxed_slice_items};
ghost use Rattle.std.specs.List.{list_all};
ghost use Rattle.std.specs.Str.{IsUtf8};
ghost use Rattle.regress_meaning.specs.Tokens.{greatest};
ghost use Rattle.regress_front_nodes.specs.Trees.{tree, cat_of};
ghost use Rattle.regress_front_nodes.specs.Sizes.{size};
ghost use Rattle.regress_front_rules.specs.Rules.{HasLaws};
ghost use Rattle.regress_front_opt.specs.Shapes.{is_flat};

use regress_front_nodes::Node;
use regress_front_tables::CodePoint;
use std::boxed::BoxedSlice;

/// Whether a node holds no capture group and no `Loop`.
#[cycle(flat)]
pub(crate) fn is_flat_node(node: &Node) -> bool
    ensures { result ≡ is_flat (tree node.now) }
{
    match node {
        Node::Loop { .. } | Node::CaptureGroup { .. } => false,
        Node::Cat(parts) => are_flat(parts),
        Node::Alt(first, second) => is_flat_node(first) && is_flat_node(second),
        Node::LookaroundAssertion { contents, .. } => is_flat_node(contents),
        Node::AtomicGroup { contents, .. } => is_flat_node(contents),
        Node::Loop1CharBody { loopee, .. } => is_flat_node(loopee),
        Node::Empty
        | Node::Goal
        | Node::Char { .. }
        | Node::ByteSequence(_)
        | Node::ByteSet(_)
        | Node::CharSet(_)
        | Node::MatchAny
        | Node::MatchAnyExceptLineTerminator
        | Node::Anchor { .. }
        | Node::WordBoundary { .. }
        | Node::BackRef { .. }
        | Node::Bracket(_)
        | Node::StringSet { .. } => true,
    }
}

/// Whether none of the parts of a `Cat` holds one.
#[cycle(flat)]
fn are_flat(parts: &[Node]) -> bool
    ensures { result ≡ list_all is_flat (map tree parts.now) }
{
    for part in parts {
        if !is_flat_node(part) {
            return false;
        }
    }
    true
}

/// How many characters a literal has.
fn char_count(bytes: &[u8]) -> usize
    requires { IsUtf8 bytes.now }
    ensures { result ≡ length (chars bytes.now) }
{
    match str::from_utf8(bytes) {
        Ok(text) => text.chars().count(),
        Err(_) => unreachable!(),
    }
}

/// How many code points a set of strings has, as far as a `usize` counts.
fn point_count(alternatives: &[BoxedSlice<CodePoint>]) -> usize
    ensures { result ≡ min (sum_by length (map boxed_slice_items alternatives.now)) greatest }
{
    let mut total: usize = 0;
    for string in alternatives {
        total = total.saturating_add(string.len());
    }
    total
}

/// How many nodes a node has, itself among them, as far as a `usize` counts. A literal counts as its characters, and a set of
/// strings also for each string and for each of their code points.
#[cycle(size)]
pub(crate) fn node_count(node: &Node) -> usize
    requires { HasLaws (tree node.now) }
    ensures { result ≡ min (size (tree node.now)) greatest }
{
    match node {
        Node::ByteSequence(bytes) => char_count(bytes),
        Node::StringSet { alternatives, .. } => point_count(alternatives)
            .saturating_add(alternatives.len())
            .saturating_add(1),
        Node::Cat(parts) => part_count(parts).saturating_add(1),
        Node::Alt(first, second) => node_count(first)
            .saturating_add(node_count(second))
            .saturating_add(1),
        Node::LookaroundAssertion { contents, .. }
        | Node::CaptureGroup { contents, .. }
        | Node::AtomicGroup { contents, .. } => node_count(contents).saturating_add(1),
        Node::Loop { loopee, .. } | Node::Loop1CharBody { loopee, .. } => {
            node_count(loopee).saturating_add(1)
        }
        Node::Empty
        | Node::Goal
        | Node::Char { .. }
        | Node::ByteSet(_)
        | Node::CharSet(_)
        | Node::MatchAny
        | Node::MatchAnyExceptLineTerminator
        | Node::Anchor { .. }
        | Node::WordBoundary { .. }
        | Node::BackRef { .. }
        | Node::Bracket(_) => 1,
    }
}

/// How many nodes the parts of a `Cat` have.
#[cycle(size)]
fn part_count(parts: &[Node]) -> usize
    requires { HasLaws (cat_of (map tree parts.now)) }
    ensures { result ≡ min (sum_by size (map tree parts.now)) greatest }
{
    let mut total: usize = 0;
    for part in parts {
        total = total.saturating_add(node_count(part));
    }
    total
}
