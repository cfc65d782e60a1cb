//! Sequences of few parts.
ghost use Rattle.std.specs.Prelude.{◌≡◌};
ghost use Rattle.regress_front_nodes.specs.Trees.{tree};
ghost use Rattle.regress_front_rules.specs.NormalForm.{is_short_cat};

use crate::action::PassAction;
use crate::passing::Pass;
use regress_front_nodes::Node;
use regress_front_tables::Error;
use std::alloc::Global;
use std::mem;

/// A `Cat` of one part is that part, and one of none is `Empty`.
#[derive(Drop)]
pub struct ShortCats;

/// Whether a node is a `Cat` of fewer than two parts.
fn has_few_parts(node: &Node) -> bool
    ensures { result ≡ is_short_cat (tree node.now) }
{
    match node {
        Node::Cat(parts) => parts.len() < 2,
        _ => false,
    }
}

impl Pass for ShortCats {
    ghost broken = { is_short_cat };

    fn rewrite(
        &self,
        _alloc: Global,
        _in_lookbehind: bool,
        node: &mut Node,
    ) -> Result<PassAction, Error> {
        if !has_few_parts(node) {
            return Ok(PassAction::Keep);
        }
        match mem::replace(node, Node::Empty) {
            Node::Cat(mut parts) => match parts.pop() {
                Some(only) => Ok(PassAction::Replace(only)),
                None => Ok(PassAction::Remove),
            },
            _ => unreachable!(),
        }
    }
}
