//! Sequences that always fail.
ghost use Rattle.std.specs.Prelude.{◌≡◌, map, ◌&&◌};
ghost use Rattle.std.specs.List.{list_any, list_all};
ghost use Rattle.regress_front_nodes.specs.Trees.{tree};
ghost use Rattle.regress_front_nodes.specs.Singles.{always_fails};
ghost use Rattle.regress_front_rules.specs.NormalForm.{is_lost_cat};
ghost use Rattle.regress_front_opt.specs.Shapes.{is_plain};

use crate::action::PassAction;
use crate::passing::Pass;
use regress_front_nodes::Node;
use regress_front_tables::Error;
use std::alloc::Global;

/// A `Cat` with a part that always fails always fails, where it holds no capture group and no `Goal`.
#[derive(Drop)]
pub struct LostCats;

/// Whether one of the parts always fails.
fn some_fails(parts: &[Node]) -> bool
    ensures { result ≡ list_any always_fails (map tree parts.now) }
{
    for part in parts {
        if part.match_always_fails() {
            return true;
        }
    }
    false
}

/// Whether a node holds no capture group and no `Goal`.
#[cycle(plain)]
pub(crate) fn is_plain_node(node: &Node) -> bool
    ensures { result ≡ is_plain (tree node.now) }
{
    match node {
        Node::Goal | Node::CaptureGroup { .. } => false,
        Node::Cat(parts) => are_plain(parts),
        Node::Alt(first, second) => is_plain_node(first) && is_plain_node(second),
        Node::LookaroundAssertion { contents, .. } => is_plain_node(contents),
        Node::AtomicGroup { contents, .. } => is_plain_node(contents),
        Node::Loop { loopee, .. } | Node::Loop1CharBody { loopee, .. } => is_plain_node(loopee),
        Node::Empty
        | Node::Char { .. }
        | Node::ByteSequence(_)
        | Node::ByteSet(_)
        | Node::CharSet(_)
        | Node::MatchAny
        | Node::MatchAnyExceptLineTerminator
        | Node::Anchor { .. }
        | Node::WordBoundary { .. }
        | Node::BackRef { .. }
        | Node::Bracket(_)
        | Node::StringSet { .. } => true,
    }
}

/// Whether none of the parts of a `Cat` holds one.
#[cycle(plain)]
fn are_plain(parts: &[Node]) -> bool
    ensures { result ≡ list_all is_plain (map tree parts.now) }
{
    for part in parts {
        if !is_plain_node(part) {
            return false;
        }
    }
    true
}

/// Whether a node is a `Cat` with a part that always fails, and holds no capture group and no `Goal`.
fn is_lost(node: &Node) -> bool
    ensures { result ≡ is_lost_cat (tree node.now) }
{
    match node {
        Node::Cat(parts) => some_fails(parts) && are_plain(parts),
        _ => false,
    }
}

impl Pass for LostCats {
    ghost broken = { is_lost_cat };

    fn rewrite(
        &self,
        alloc: Global,
        _in_lookbehind: bool,
        node: &mut Node,
    ) -> Result<PassAction, Error> {
        if is_lost(node) {
            Ok(PassAction::Replace(Node::make_always_fails(alloc)))
        } else {
            Ok(PassAction::Keep)
        }
    }
}
