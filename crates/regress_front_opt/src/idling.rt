//! Repetitions of what never takes a character, and those that are never entered.
ghost use Rattle.std.specs.Prelude.{◌≡◌, map};
ghost use Rattle.std.specs.List.{list_all};
ghost use Rattle.regress_front_nodes.specs.Trees.{tree};
ghost use Rattle.regress_front_rules.specs.NormalForm.{is_idle, is_idle_loop};

use crate::action::PassAction;
use crate::failing::is_plain_node;
use crate::passing::Pass;
use regress_front_nodes::Node;
use regress_front_tables::Error;
use std::alloc::Global;
use std::mem;

/// A `Loop` over what never takes a character and holds no capture group is its body once, or `Empty` where its minimum
/// is 0. So however often it is repeated, a search ends soon. A `Loop` whose maximum is 0, as what is left of `a{2}` once it
/// is unrolled, is `Empty`, where it holds no capture group.
#[derive(Drop)]
pub struct IdleLoops;

/// Whether a node never takes a character, and holds no capture group and no `Goal`.
#[cycle(idle)]
fn is_idle_node(node: &Node) -> bool
    ensures { result ≡ is_idle (tree node.now) }
{
    match node {
        Node::Empty | Node::Anchor { .. } | Node::WordBoundary { .. } => true,
        Node::Cat(parts) => are_idle(parts),
        Node::Alt(first, second) => is_idle_node(first) && is_idle_node(second),
        Node::LookaroundAssertion { contents, .. } => is_plain_node(contents),
        Node::AtomicGroup { contents, .. } => is_idle_node(contents),
        Node::Loop { loopee, .. } => is_idle_node(loopee),
        Node::Goal
        | Node::Char { .. }
        | Node::ByteSequence(_)
        | Node::ByteSet(_)
        | Node::CharSet(_)
        | Node::MatchAny
        | Node::MatchAnyExceptLineTerminator
        | Node::CaptureGroup { .. }
        | Node::BackRef { .. }
        | Node::Bracket(_)
        | Node::StringSet { .. }
        | Node::Loop1CharBody { .. } => false,
    }
}

/// Whether none of the parts of a `Cat` takes a character or holds one of these.
#[cycle(idle)]
fn are_idle(parts: &[Node]) -> bool
    ensures { result ≡ list_all is_idle (map tree parts.now) }
{
    for part in parts {
        if !is_idle_node(part) {
            return false;
        }
    }
    true
}

/// Whether a node is a `Loop` over what never takes a character, or one that is never entered.
fn repeats_nothing(node: &Node) -> bool
    ensures { result ≡ is_idle_loop (tree node.now) }
{
    match node {
        Node::Loop { loopee, quant, .. } => {
            is_idle_node(loopee) || (quant.most() == 0 && is_plain_node(loopee))
        }
        _ => false,
    }
}

impl Pass for IdleLoops {
    ghost broken = { is_idle_loop };

    fn rewrite(
        &self,
        _alloc: Global,
        _in_lookbehind: bool,
        node: &mut Node,
    ) -> Result<PassAction, Error> {
        if !repeats_nothing(node) {
            return Ok(PassAction::Keep);
        }
        match mem::replace(node, Node::Empty) {
            Node::Loop { loopee, quant, .. } => {
                if quant.min == 0 {
                    Ok(PassAction::Remove)
                } else {
                    Ok(PassAction::Replace(Box::into_inner(loopee)))
                }
            }
            _ => unreachable!(),
        }
    }
}
