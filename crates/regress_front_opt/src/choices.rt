//! Choices between nothing and nothing.
ghost use Rattle.std.specs.Prelude.{◌≡◌};
ghost use Rattle.regress_front_nodes.specs.Trees.{tree};
ghost use Rattle.regress_front_rules.specs.NormalForm.{is_empty_choice};

use crate::action::PassAction;
use crate::passing::Pass;
use regress_front_nodes::Node;
use regress_front_tables::Error;
use std::alloc::Global;

/// An `Alt` of two `Empty`s is `Empty`.
#[derive(Drop)]
pub struct EmptyChoices;

/// Whether a node is an `Alt` of two `Empty`s.
fn is_choice_of_empties(node: &Node) -> bool
    ensures { result ≡ is_empty_choice (tree node.now) }
{
    match node {
        Node::Alt(first, second) => first.is_empty() && second.is_empty(),
        _ => false,
    }
}

impl Pass for EmptyChoices {
    ghost broken = { is_empty_choice };

    fn rewrite(
        &self,
        _alloc: Global,
        _in_lookbehind: bool,
        node: &mut Node,
    ) -> Result<PassAction, Error> {
        if is_choice_of_empties(node) {
            Ok(PassAction::Remove)
        } else {
            Ok(PassAction::Keep)
        }
    }
}
