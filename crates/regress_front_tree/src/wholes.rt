//! The law that lowered trees make the trees of patterns.
ghost use Rattle.std.specs.Prelude.{ℕ, List, [], ◌∷◌};
ghost use Rattle.regress_meaning.specs.Table.{Table};
ghost use Rattle.regress_meaning.specs.Pattern.{Pattern};
ghost use Rattle.regress_meaning.specs.Flags.{Options};
ghost use Rattle.regress_front_nodes.specs.Trees.{Tree, goal, cat_of};
ghost use Rattle.regress_front_tree.specs.Parsed.{IsLoweredFrom, IsTreeOf, IsTreeOverText, between_ends};

use crate::alike::lowered_trees_are_alike;
use crate::lawful::lowered_trees_are_lawful;

/// The tree that a pattern is lowered to, with `Goal` behind it, is a tree of the pattern. Between the start and the end of the
/// text it is one of the pattern over a whole text.
pub(crate) fn lowered_trees_make_wholes()
    ensures alone { (table : Table) → (o : Options) → (text : List ℕ) → (p : Pattern) → (t : Tree) → IsLoweredFrom table o text p t → IsTreeOf table o text p (cat_of (t ∷ goal ∷ [])) }
    ensures between_ends { (table : Table) → (o : Options) → (text : List ℕ) → (p : Pattern) → (t : Tree) → IsLoweredFrom table o text p t → IsTreeOverText table o text p (cat_of (between_ends t ∷ goal ∷ [])) }
{
    lowered_trees_are_alike();
    lowered_trees_are_lawful();
    regress_meaning::spelled_trees_are_numbered();
    regress_meaning::spelled_trees_are_small();
    regress_meaning::classes_without_sets_hold_no_strings();
}
