//! Repetitions of at least a few times.
ghost use Rattle.std.specs.Prelude.{◌≡◌, ◌-◌, ◌≤◌, ◌&&◌, [], map, nat_le, IfOk};
ghost use Rattle.regress_front_core.specs.Quantifiers.{most};
ghost use Rattle.regress_front_nodes.specs.Trees.{tree, loop};
ghost use Rattle.regress_front_nodes.specs.Forms.{nesting, deepest_copy};
ghost use Rattle.regress_front_nodes.specs.Sizes.{size};
ghost use Rattle.regress_front_nodes.specs.WellFormed.{group_ids};
ghost use Rattle.regress_front_rules.specs.NormalForm.{is_unrollable, largest_copied};
ghost use Rattle.regress_front_rules.specs.Rules.{HasLaws, copies, unrolled};
ghost use Rattle.regress_front_opt.specs.Shapes.{MayBeUnrolled, is_flat};

use crate::action::PassAction;
use crate::passing::Pass;
use crate::sizes::{is_flat_node, node_count};
use regress_front_nodes::{Node, NodeList, Quantifier};
use regress_front_tables::{CaptureGroupID, Error};
use std::alloc::{AllocError, Global};
use std::ops::Range;

/// A body is copied at most so often.
const MOST_COPIES: usize = 5;

/// A body of more nodes is not copied.
const LARGEST_COPIED: usize = 1280;

/// A `Loop` with a minimum from 1 to 5, over a small body without capture group and loop, begins with copies of the body.
#[derive(Drop)]
pub struct UnrolledLoops;

/// Whether a body is small, without capture group and loop.
fn is_small(body: &Node) -> bool
    requires { HasLaws (tree body.now) }
    ensures { result ≡ (is_flat (tree body.now) && nat_le (size (tree body.now)) largest_copied) }
{
    is_flat_node(body) && node_count(body) <= LARGEST_COPIED
}

/// Whether a node is such a loop.
fn is_short_loop(node: &Node) -> bool
    requires { HasLaws (tree node.now) }
    ensures { result ≡ is_unrollable (tree node.now) }
{
    match node {
        Node::Loop { loopee, quant, .. } => {
            let few = (1 <= quant.min) & (quant.min <= MOST_COPIES);
            few && is_small(loopee)
        }
        _ => false,
    }
}

/// A copy of a body.
fn copy_of(alloc: Global, body: &Node) -> Result<Node, AllocError>
    requires { MayBeUnrolled (tree body.now) }
    ensures { IfOk result (λ n. tree n ≡ tree body.now) }
{
    match body.try_duplicate(alloc, 0) {
        Ok(Some(copy)) => Ok(copy),
        Ok(None) => unreachable!(),
        Err(_) => Err(AllocError),
    }
}

/// Copies of a body.
fn copies_of(alloc: Global, body: &Node, count: usize) -> Result<NodeList, AllocError>
    requires { MayBeUnrolled (tree body.now) }
    ensures { IfOk result (λ ns. map tree ns.items ≡ copies count (tree body.now) []) }
{
    let mut nodes = Vec::new(alloc);
    for _ in 0..count {
        nodes.push(copy_of(alloc, body)?)?;
    }
    Ok(nodes)
}

/// What is left of a loop behind its copies, over one more.
fn rest_of(
    alloc: Global,
    body: &Node,
    quant: Quantifier,
    groups: &Range<CaptureGroupID>,
) -> Result<Node, AllocError>
    requires body { MayBeUnrolled (tree body.now) }
    requires order { quant.min ≤ most quant }
    ensures { IfOk result (λ n. tree n ≡ loop (tree body.now) groups.now.start groups.now.end 0 (most quant - quant.min) quant.greedy) }
{
    let loopee = Box::new(alloc, copy_of(alloc, body)?)?;
    Ok(Node::Loop {
        loopee,
        quant: Quantifier::new(0, quant.most() - quant.min, quant.greedy),
        enclosed_groups: groups.start..groups.end,
    })
}

/// A loop as copies of its body, and what is left of it.
fn unrolled_loop(
    alloc: Global,
    body: &Node,
    quant: Quantifier,
    groups: &Range<CaptureGroupID>,
) -> Result<Node, AllocError>
    requires body { MayBeUnrolled (tree body.now) }
    requires order { quant.min ≤ most quant }
    ensures { IfOk result (λ n. tree n ≡ unrolled (tree body.now) groups.now.start groups.now.end quant.min (most quant) quant.greedy) }
{
    let mut parts = copies_of(alloc, body, quant.min)?;
    parts.push(rest_of(alloc, body, quant, groups)?)?;
    Ok(Node::Cat(parts))
}

impl Pass for UnrolledLoops {
    ghost broken = { is_unrollable };

    fn rewrite(
        &self,
        alloc: Global,
        _in_lookbehind: bool,
        node: &mut Node,
    ) -> Result<PassAction, Error> {
        if !is_short_loop(node) {
            return Ok(PassAction::Keep);
        }
        match &*node {
            Node::Loop {
                loopee,
                quant,
                enclosed_groups,
            } => {
                let other = unrolled_loop(alloc, loopee, *quant, enclosed_groups)?;
                Ok(PassAction::Replace(other))
            }
            _ => unreachable!(),
        }
    }
}
