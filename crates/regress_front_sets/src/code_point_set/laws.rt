//! Laws of sets of code points.
ghost use Rattle.std.specs.Prelude.{◌≡◌, ℕ};
ghost use Rattle.regress_front_sets.specs.Intervals.{inverse};
ghost use Rattle.regress_front_sets.specs.Sets.{in_set, intervals_of, ends_in};
ghost use Rattle.regress_front_sets.specs.declared.code_point_set.CodePointSet.{CodePointSet};

/// Two sets with the same members have the same intervals.
pub fn equal_members_equal_intervals()
    ensures { (a b : CodePointSet) → ((c : ℕ) → in_set a c ≡ in_set b c) → intervals_of a ≡ intervals_of b }
{}

/// The inverse of the inverse of a set is the set.
pub fn inverted_twice_is_the_same()
    ensures { (set : CodePointSet) → inverse (inverse (ends_in set)) ≡ ends_in set }
{}
