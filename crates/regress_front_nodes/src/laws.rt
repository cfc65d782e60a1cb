//! Laws of nodes, each the contract of a function with an empty body.
ghost use Rattle.regress_front_nodes.specs.Laws.{NodesStandForTrees};

/// Each node stands for the tree of its kind, with the trees of its parts in their places.
pub fn nodes_stand_for_trees()
    ensures { NodesStandForTrees }
{}
