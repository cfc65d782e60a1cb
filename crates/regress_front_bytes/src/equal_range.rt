//! The items of a sorted slice that are equal to what is searched for.
ghost use Rattle.std.specs.Prelude.{◌≡◌, ◌≤◌, length};
ghost use Rattle.std.specs.declared.cmp.Ordering.{Ordering};
ghost use Rattle.std.specs.Fn.{ComputesKey};
ghost use Rattle.std.specs.List.Sorted.{IsNonDecreasingBy};
ghost use Rattle.std.specs.Ordering.{is_eq, is_lt, ordering_index};
ghost use Rattle.regress_front_bytes.specs.EqualRange.{IsEqualRange};

use std::cmp::Ordering;
use std::ops::Range;

/// The indices of the items that compare as `Equal`, in a slice whose items compare as `Less` first, then as `Equal`,
/// then as `Greater`. Of any other slice it answers a range within the slice. `equal_range_by(&[1, 3, 3, 7], |x| x.cmp(&3))`
/// is `1..3`.
pub fn equal_range_by<T, F: Fn(&T) -> Ordering>(slice: &[T], compare: F) -> Range<usize>
    requires { F.IsAlwaysCallable compare }
    ensures ordered { result.start ≤ result.end }
    ensures within { result.end ≤ length slice.now }
    ensures equal { (ord : T → Ordering) → ComputesKey F.FnMut ord compare
        → IsNonDecreasingBy (λ x. ordering_index (ord x)) slice.now → IsEqualRange ord slice.now result.start result.end }
{
    let is_less = |item: &T| -> bool
        requires { F.IsAlwaysCallable compare }
        ensures { (ord : T → Ordering) → ComputesKey F.FnMut ord compare → result ≡ is_lt (ord item.now) }
    { compare(item).is_lt() };
    let is_equal = |item: &T| -> bool
        requires { F.IsAlwaysCallable compare }
        ensures { (ord : T → Ordering) → ComputesKey F.FnMut ord compare → result ≡ is_eq (ord item.now) }
    { compare(item).is_eq() };
    let start = slice.partition_point(is_less);
    let len = slice[start..].partition_point(is_equal);
    start..start + len
}
