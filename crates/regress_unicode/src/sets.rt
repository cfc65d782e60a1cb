//! Sets of Unicode's data as intervals.
ghost use Rattle.std.specs.Prelude.{IfOk, IsOkUnless};
ghost use Rattle.regress_front_sets.specs.Intervals.{ends_of};
ghost use Rattle.ucd_sets.specs.Sets.{in_set};
ghost use Rattle.regress_unicode.specs.Unicode.{Hold};

use regress_front_tables::{CodePointSet, Interval, TableError};
use std::alloc::Global;
use unicode::sets::Set;

/// The members of a set of Unicode's data, as intervals from low to high, with a code point of none between any two.
pub(crate) fn intervals(alloc: Global, set: Set) -> Result<Vec<Interval>, TableError>
    ensures members { IfOk result (λ intervals. Hold (ends_of intervals.items) (in_set set)) }
    ensures refused { IsOkUnless result TableError.OutOfMemory }
{
    let ranges = set.ranges(alloc)?;
    let mut members = CodePointSet::new(alloc);
    for (first, last) in &ranges {
        let range = Interval {
            first: *first,
            last: *last,
        };
        if let Err(_refused) = members.add(range) {
            return Err(TableError::OutOfMemory);
        }
    }
    Ok(Vec::from_slice(alloc, members.intervals())?)
}
