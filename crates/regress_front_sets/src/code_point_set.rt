//! Sets of code points.
ghost use Rattle.std.specs.Prelude.{◌≡◌, ℕ, ◌+◌, ◌≤◌, ◌++◌, ◌==◌, ◌||◌, ◌&&◌, not, nat_le, [], length, All, IfOk, OnOk, OnErr, IsOkUnless};
ghost use Rattle.regress_meaning.specs.TableParts.{IntervalsRise};
ghost use Rattle.regress_front_sets.specs.Props.{IntervalsRise-prop};
ghost use Rattle.regress_front_sets.specs.Intervals.{ends, ends_of, in_interval, IsRun, gap, inverse};

use crate::halving::{CountedIntervals, bracket_index};
use crate::interval::{CODE_POINT_MAX, CodePoint, Interval};
pub use laws::{equal_members_equal_intervals, inverted_twice_is_the_same};
use regress_front_core::Error;

mod laws;

use std::alloc::{AllocError, Global};
use std::ops::Range;

/// A set of code points.
#[derive(Debug, Drop)]
pub struct CodePointSet {
    intervals: Vec<Interval>,
    pub ghost canonical: { IntervalsRise (ends_of intervals.items) } by { IntervalsRise-prop (ends_of intervals.items) },
}

impl CodePointSet {
    ghost use Rattle.regress_front_sets.specs.Sets.{in_set, intervals_of, ends_in};

    /// The empty set. It takes no memory until something is added: `CodePointSet::new(alloc).contains(0x61)` is false.
    pub fn new(alloc: Global) -> CodePointSet
        ensures { intervals_of result ≡ [] }
    {
        CodePointSet {
            intervals: Vec::new(alloc),
        }
    }

    /// The intervals of the set, from low to high, with a code point of no interval between any two: `set.intervals().len()`
    /// is 1 once 1, 2 and 3 are added to an empty set.
    pub fn intervals(&self) -> &[Interval]
        ensures { result.now ≡ intervals_of self.now }
    {
        self.intervals.as_slice()
    }

    /// The set of the code points of intervals that rise, with a code point of no interval between any two, as of
    /// `vec![in alloc; Interval { first: 1, last: 2 }]?`.
    pub fn from_sorted_disjoint_intervals(intervals: Vec<Interval>) -> CodePointSet
        requires { IntervalsRise (ends_of intervals.items) }
        ensures { intervals_of result ≡ intervals.items }
    {
        CodePointSet { intervals }
    }

    /// Whether the code point is a member: `set.contains(0x61)` is true after `set.add_one(0x61)?`.
    pub fn contains(&self, cp: CodePoint) -> bool
        ensures { result ≡ in_set self.now cp }
    {
        let mut intervals = CountedIntervals::new(&self.intervals);
        bracket_index(&mut intervals, cp).is_some()
    }

    /// Adds each code point of an interval, as `set.add(Interval { first: 0x61, last: 0x7A })?`. Where memory is refused, with
    /// `Error::OutOfMemory`, the set stays as it is.
    pub fn add(&mut self, new_iv: Interval) -> Result<(), Error>
        ensures members { OnOk result ((c : ℕ) → in_set self.new c ≡ (in_set self.old c || in_interval new_iv c)) }
        ensures unchanged { OnErr result (intervals_of self.new ≡ intervals_of self.old) }
        ensures refused { IsOkUnless result Error.OutOfMemory }
    {
        Ok(self.try_add(new_iv)?)
    }

    /// The same, where the error is the allocator's.
    fn try_add(&mut self, new_iv: Interval) -> Result<(), AllocError>
        ensures members { OnOk result ((c : ℕ) → in_set self.new c ≡ (in_set self.old c || in_interval new_iv c)) }
        ensures unchanged { OnErr result (intervals_of self.new ≡ intervals_of self.old) }
    {
        let run = self.run(new_iv);
        if run.start == run.end {
            self.intervals.insert(run.start, new_iv)?;
            return Ok(());
        }
        let first = self.intervals[run.start];
        let last = self.intervals[run.end - 1];
        self.intervals.drain(run.start + 1..run.end);
        self.intervals[run.start] = first.hull(last).hull(new_iv);
        Ok(())
    }

    /// The places of the intervals that an interval overlaps or adjoins.
    fn run(&self, interval: Interval) -> Range<usize>
        ensures { IsRun (ends_in self.now) (ends interval) result.start result.end }
    {
        let start = self
            .intervals
            .partition_point(|i| i.last + 1 < interval.first);
        let end = self
            .intervals
            .partition_point(|i| i.first <= interval.last + 1);
        start..end
    }

    /// Adds a code point, as `set.add_one(0x61)?`. Where memory is refused, with `Error::OutOfMemory`, the set stays as it is.
    pub fn add_one(&mut self, cp: CodePoint) -> Result<(), Error>
        requires { cp ≤ CODE_POINT_MAX }
        ensures members { OnOk result ((c : ℕ) → in_set self.new c ≡ (in_set self.old c || c == cp)) }
        ensures unchanged { OnErr result (intervals_of self.new ≡ intervals_of self.old) }
        ensures refused { IsOkUnless result Error.OutOfMemory }
    {
        Ok(self.try_add_one(cp)?)
    }

    /// `add_one`, where the error is the allocator's, as `set.try_add_one(0x61)?` in what fails with nothing but `AllocError`.
    pub fn try_add_one(&mut self, cp: CodePoint) -> Result<(), AllocError>
        requires { cp ≤ CODE_POINT_MAX }
        ensures members { OnOk result ((c : ℕ) → in_set self.new c ≡ (in_set self.old c || c == cp)) }
        ensures unchanged { OnErr result (intervals_of self.new ≡ intervals_of self.old) }
    {
        self.try_add(Interval {
            first: cp,
            last: cp,
        })
    }

    /// Adds each member of another set, as `set.add_set(letters)?`. Where memory is refused, with `Error::OutOfMemory`, the set
    /// stays as it is.
    pub fn add_set(&mut self, rhs: CodePointSet) -> Result<(), Error>
        ensures members { OnOk result ((c : ℕ) → in_set self.new c ≡ (in_set self.old c || in_set rhs c)) }
        ensures unchanged { OnErr result (intervals_of self.new ≡ intervals_of self.old) }
        ensures refused { IsOkUnless result Error.OutOfMemory }
    {
        Ok(self.try_add_set(rhs)?)
    }

    /// `add_set`, where the error is the allocator's, as `set.try_add_set(letters)?` in what fails with nothing but `AllocError`.
    pub fn try_add_set(&mut self, rhs: CodePointSet) -> Result<(), AllocError>
        ensures members { OnOk result ((c : ℕ) → in_set self.new c ≡ (in_set self.old c || in_set rhs c)) }
        ensures unchanged { OnErr result (intervals_of self.new ≡ intervals_of self.old) }
    {
        let union = self.union(&rhs)?;
        *self = union;
        Ok(())
    }

    /// The members of either set: both are walked in order, and the lower interval of the two is taken each time.
    fn union(&self, other: &CodePointSet) -> Result<CodePointSet, AllocError>
        ensures { IfOk result (λ s. (c : ℕ) → in_set s c ≡ (in_set self.now c || in_set other.now c)) }
    {
        let left = self.intervals();
        let right = other.intervals();
        let mut union = CodePointSet::new(*self.intervals.allocator());
        let mut i = 0;
        let mut j = 0;
        while i < left.len() || j < right.len() {
            if j == right.len() || (i < left.len() && left[i].first <= right[j].first) {
                union.push(left[i])?;
                i += 1;
            } else {
                union.push(right[j])?;
                j += 1;
            }
        }
        Ok(union)
    }

    /// Adds each code point of an interval that begins no earlier than any of the set.
    fn push(&mut self, next: Interval) -> Result<(), AllocError>
        requires { All (λ i. i.first ≤ next.first) (intervals_of self.old) }
        ensures members { OnOk result ((c : ℕ) → in_set self.new c ≡ (in_set self.old c || in_interval next c)) }
        ensures order { OnOk result (All (λ i. i.first ≤ next.first) (intervals_of self.new)) }
    {
        let len = self.intervals.len();
        if len > 0 {
            let last = self.intervals[len - 1];
            if next.first <= last.last + 1 {
                self.intervals[len - 1] = last.hull(next);
                return Ok(());
            }
        }
        self.intervals.push(next)?;
        Ok(())
    }

    /// The code points that are no members, as a set of their own: `CodePointSet::new(alloc).inverted()?` holds all. The error
    /// is `Error::OutOfMemory`, where memory is refused.
    pub fn inverted(&self) -> Result<CodePointSet, Error>
        ensures members { IfOk result (λ s. (c : ℕ) → in_set s c ≡ (nat_le c CODE_POINT_MAX && not (in_set self.now c))) }
        ensures intervals { IfOk result (λ s. ends_in s ≡ inverse (ends_in self.now)) }
        ensures refused { IsOkUnless result Error.OutOfMemory }
    {
        Ok(self.try_inverted()?)
    }

    /// `inverted`, where the error is the allocator's, as `set.try_inverted()?` in what fails with nothing but `AllocError`.
    pub fn try_inverted(&self) -> Result<CodePointSet, AllocError>
        ensures members { IfOk result (λ s. (c : ℕ) → in_set s c ≡ (nat_le c CODE_POINT_MAX && not (in_set self.now c))) }
        ensures intervals { IfOk result (λ s. ends_in s ≡ inverse (ends_in self.now)) }
    {
        let gaps = self.gaps()?;
        Ok(CodePointSet::from_sorted_disjoint_intervals(gaps))
    }

    /// The intervals of the code points that are no members.
    fn gaps(&self) -> Result<Vec<Interval>, AllocError>
        ensures { IfOk result (λ gaps. ends_of gaps.items ≡ inverse (ends_in self.now)) }
    {
        let mut gaps = Vec::new(*self.intervals.allocator());
        let mut next = 0;
        for interval in &self.intervals {
            push_gap(&mut gaps, next, interval.first)?;
            next = interval.last + 1;
        }
        push_gap(&mut gaps, next, CODE_POINT_MAX + 1)?;
        Ok(gaps)
    }

    /// How many intervals the inverted set has: 1 for the empty set.
    pub fn inverted_interval_count(&self) -> usize
        ensures { result ≡ length (inverse (ends_in self.now)) }
    {
        let len = self.intervals.len();
        if len == 0 {
            return 1;
        }
        // A gap lies between any two intervals, and perhaps one at each end.
        let below = usize::from(0 < self.intervals[0].first);
        let above = usize::from(self.intervals[len - 1].last < CODE_POINT_MAX);
        below + (len - 1) + above
    }
}

/// Adds the code points from one up to another, without it, as an interval, if there are any.
fn push_gap(gaps: &mut Vec<Interval>, start: CodePoint, end: u32) -> Result<(), AllocError>
    requires { end ≤ CODE_POINT_MAX + 1 }
    ensures { OnOk result (ends_of gaps.new.items ≡ ends_of gaps.old.items ++ gap start end) }
{
    if start < end {
        gaps.push(Interval {
            first: start,
            last: end - 1,
        })?;
    }
    Ok(())
}
