//! The law that a lowered tree means what its pattern means.
ghost use Rattle.std.specs.Prelude.{ℕ, Bool};
ghost use Rattle.regress_meaning.specs.Table.{Table};
ghost use Rattle.regress_meaning.specs.Pattern.{Pattern, Settings};
ghost use Rattle.regress_meaning.specs.Meaning.{Context, outcomes};
ghost use Rattle.regress_front_nodes.specs.Trees.{Tree};
ghost use Rattle.regress_front_nodes.specs.TreeMeaning.{node_outcomes};
ghost use Rattle.regress_front_nodes.specs.Alike.{IsAlike};
ghost use Rattle.regress_front_nodes.specs.TreeMeaning.{direction};
ghost use Rattle.regress_front_tree.specs.Lowering.{Lowers};

/// A lowered tree is alike its pattern, in the direction in which it is read.
pub(crate) fn lowered_trees_are_alike()
    ensures { (table : Table) → (unicode : Bool) → (backward : Bool) → (e : Settings) → (k : ℕ) → (p : Pattern) → (t : Tree) → (l : ℕ)
        → Lowers table unicode backward e k p t l
        → IsAlike table unicode (λ context. node_outcomes context t (direction backward)) (λ context. outcomes context p (direction backward) e) }
{
    regress_meaning::outcomes_stay_inside();
}
