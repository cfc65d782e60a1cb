//! Alternatives, as nodes of two arms each.
ghost use Rattle.std.specs.Prelude.{◌≡◌, ◌<◌, length, map, IfOk, IfErr};
ghost use Rattle.regress_front_nodes.specs.Trees.{tree};
ghost use Rattle.regress_front_tree.specs.Lowering.{HasArms};
ghost use Rattle.regress_front_tree.specs.Pairing.{in_pairs};

use regress_front_nodes::{Node, NodeList};
use std::alloc::{AllocError, Global};

/// Neighbours as one node each, in order; the last of an odd number stays as it is.
fn in_pairs(alloc: Global, arms: NodeList) -> Result<NodeList, AllocError>
    ensures { IfOk result (λ pairs. map tree pairs.items ≡ in_pairs (map tree arms.items)) }
{
    let mut pairs = Vec::new(alloc);
    let mut arms = arms.into_iter();
    while let Some(first) = arms.next() {
        let pair = match arms.next() {
            None => first,
            Some(second) => Node::Alt(Box::new(alloc, first)?, Box::new(alloc, second)?),
        };
        pairs.push(pair)?;
    }
    Ok(pairs)
}

/// A tree of alternatives, the earlier preferred ("Disjunction"). It is as low as can be, since neighbours are paired, and
/// then the pairs, until one node is left.
pub(crate) fn alternatives(alloc: Global, mut arms: NodeList) -> Result<Node, AllocError>
    requires { 0 < length arms.items }
    ensures { IfOk result (λ node. HasArms (map tree arms.items) (tree node)) }
{
    'rounds: while arms.len() > 1 {
        arms = in_pairs(alloc, arms)?;
    }
    Ok(arms.pop().unwrap_or(Node::Empty))
}
