//! The law that what is made of a pattern spreads no further than that costs.
ghost use Rattle.std.specs.Prelude.{ℕ, ◌≤◌, Bool};
ghost use Rattle.regress_meaning.specs.Table.{Table};
ghost use Rattle.regress_meaning.specs.Pattern.{Pattern, Settings};
ghost use Rattle.regress_front_nodes.specs.Trees.{Tree};
ghost use Rattle.regress_front_nodes.specs.Sizes.{spread};
ghost use Rattle.regress_front_costs.specs.Costs.{cost};
ghost use Rattle.regress_front_tree.specs.Lowering.{Lowers};

/// A lowered tree spreads no further than its pattern costs: it has no more nodes, with all that unrolling may add.
pub(crate) fn lowered_trees_are_cheap()
    ensures { (table : Table) → (unicode : Bool) → (backward : Bool) → (e : Settings) → (k : ℕ) → (p : Pattern) → (t : Tree) → (l : ℕ)
        → Lowers table unicode backward e k p t l → spread t ≤ cost table p }
{}
