//! What a pass is.
ghost use Rattle.std.specs.Prelude.{Bool};
ghost use Rattle.regress_front_nodes.specs.Trees.{Tree, tree};
ghost use Rattle.regress_front_nodes.specs.TreeMeaning.{direction};
ghost use Rattle.regress_front_rules.specs.Rules.{HasLaws};
ghost use Rattle.regress_front_opt.specs.Passes.{IsPassed};

use crate::action::PassAction;
use regress_front_nodes::Node;
use regress_front_tables::Error;
use std::alloc::Global;

/// Rewrites single nodes, each after all nodes below it.
///
/// Whatever a pass leaves or answers is reached by rules of rewriting, read in the direction of the node. So no pass changes
/// what a tree matches, how its groups are numbered and named, or whether it is well formed, and each change lowers the
/// weight of the tree.
pub trait Pass {
    /// A test of what the pass leaves nowhere.
    ghost broken: { Tree → Bool };

    /// Rewrites a node of a lawful tree, if there is something to do at the node itself.
    ///
    /// `in_lookbehind` tells whether the nearest lookaround above it is a lookbehind. It errs with `Error::OutOfMemory`
    /// alone, and then the node is as it was, or rewritten in part.
    fn rewrite(
        &self,
        alloc: Global,
        in_lookbehind: bool,
        node: &mut Node,
    ) -> Result<PassAction, Error>
        requires { HasLaws (tree node.old) }
        ensures { IsPassed (direction in_lookbehind) broken (tree node.old) (tree node.new) result };
}
