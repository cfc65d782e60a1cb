//! Laws of lowered trees besides their meaning.
ghost use Rattle.std.specs.Prelude.{◌≡◌, ℕ, ◌+◌, ◌≤◌, Bool, length};
ghost use Rattle.regress_meaning.specs.Text.{count_up};
ghost use Rattle.regress_meaning.specs.Table.{Table};
ghost use Rattle.regress_meaning.specs.Pattern.{Pattern, Settings, names_of};
ghost use Rattle.regress_meaning.specs.Limits.{most_groups};
ghost use Rattle.regress_meaning.specs.Numbering.{group_numbers, FitsGroups};
ghost use Rattle.regress_front_nodes.specs.Trees.{Tree};
ghost use Rattle.regress_front_tree.specs.Lowering.{Lowers};
ghost use Rattle.regress_front_tree.specs.Lowered.{IsLowered};

/// A lowered tree is lawful, has the groups, the names and the loops of its pattern, and without strings in classes is as
/// small, where the pattern's groups are numbered on from those opened before it and fit n groups.
pub(crate) fn lowered_trees_are_lawful()
    ensures { (table : Table) → (unicode : Bool) → (backward : Bool) → (e : Settings) → (n : ℕ) → (k : ℕ)
        → (p : Pattern) → (t : Tree) → (l : ℕ) → Lowers table unicode backward e k p t l
        → group_numbers p ≡ count_up k (length (names_of p)) → FitsGroups n p
        → k + length (names_of p) ≤ most_groups → IsLowered n k p t l }
{
    regress_meaning::classes_without_sets_hold_no_strings();
}
