//! Laws of rewriting, each the contract of a function with an empty body.
ghost use Rattle.regress_meaning.specs.Meaning.{Direction};
ghost use Rattle.regress_front_rules.specs.Laws.{RulesAreRight, RulesKeep, WholesAreRight, BrokenNodesAreRedexes, NormalFormsAreReached, NodesAreListed, NestsLessThanItsSize};

/// One rule, somewhere in a lawful tree, leads to a tree that means the same in the direction in which the tree is read, is
/// lawful, and has a smaller weight. So any way of applying rules ends.
pub fn rules_are_right()
    ensures { RulesAreRight }
{}

/// Rules one after another keep a tree's groups and their names, its `Goal` and its lawfulness, and add no loop, and no
/// more nodes than unrolling may add.
pub fn rules_keep_the_rest()
    ensures { RulesKeep }
{}

/// Rules one after another lead from a well-formed tree to one that means the same, is well formed, names its groups alike,
/// spreads no further, and is larger by at most 6401 nodes for each loop.
pub fn wholes_are_right()
    ensures { WholesAreRight }
{}

/// Where a tree breaks a clause of the normal form at its root, some rule makes another tree of it.
pub fn broken_nodes_are_redexes()
    ensures { (dir : Direction) → BrokenNodesAreRedexes dir }
{}

/// From each lawful tree whose `Cat`s are lists of parts, rules one after another lead to a tree in normal form.
pub fn normal_forms_are_reached()
    ensures { NormalFormsAreReached }
{}

/// In the tree of each node the `Cat`s are lists of parts.
pub fn trees_of_nodes_are_listed()
    ensures { NodesAreListed }
{}

/// A lawful tree nests less deep than it has nodes. So a body that is small enough to be unrolled can be copied.
pub fn trees_nest_less_than_their_size()
    ensures { NestsLessThanItsSize }
{}
