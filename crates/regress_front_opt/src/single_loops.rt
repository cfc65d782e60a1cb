//! Repetitions of what matches exactly one character.
ghost use Rattle.std.specs.Prelude.{◌≡◌};
ghost use Rattle.regress_front_nodes.specs.Trees.{tree};
ghost use Rattle.regress_front_rules.specs.NormalForm.{is_loop_of_one};

use crate::action::PassAction;
use crate::passing::Pass;
use regress_front_nodes::Node;
use regress_front_tables::Error;
use std::alloc::Global;
use std::mem;

/// A `Loop` over what matches exactly one character is a `Loop1CharBody`.
#[derive(Drop)]
pub struct SingleLoops;

/// Whether a node is a `Loop` over what matches exactly one character.
fn repeats_one_char(node: &Node) -> bool
    ensures { result ≡ is_loop_of_one (tree node.now) }
{
    match node {
        Node::Loop { loopee, .. } => loopee.matches_exactly_one_char(),
        _ => false,
    }
}

impl Pass for SingleLoops {
    ghost broken = { is_loop_of_one };

    fn rewrite(
        &self,
        _alloc: Global,
        _in_lookbehind: bool,
        node: &mut Node,
    ) -> Result<PassAction, Error> {
        if !repeats_one_char(node) {
            return Ok(PassAction::Keep);
        }
        match mem::replace(node, Node::Empty) {
            Node::Loop { loopee, quant, .. } => {
                Ok(PassAction::Replace(Node::Loop1CharBody { loopee, quant }))
            }
            _ => unreachable!(),
        }
    }
}
