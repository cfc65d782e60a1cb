//! The interval that holds a code point, by halving.
ghost use Rattle.std.specs.Prelude.{◌≡◌, ℕ, ◌+◌, ◌-◌, ◌<◌, ◌≤◌, ◌^◌, length, get_or, List};
ghost use Rattle.std.specs.List.{position};
ghost use Rattle.regress_front_sets.specs.Intervals.{Ascend, ends_of, in_interval, interval_cmp};

use crate::interval::{CodePoint, Interval};
use std::cmp::Ordering;

/// Intervals that ascend, none of which meet, of which one at a time is compared with a code point, and counted.
pub trait Probes {
    ghost use Rattle.regress_front_sets.specs.declared.interval.Interval.{Interval};

    // the intervals
    ghost intervals: { Self → List Interval };

    // how often one of them has been compared
    ghost probes: { Self → ℕ };

    /// How many intervals there are.
    fn len(&self) -> usize
        ensures { result ≡ length (intervals self.now) };

    /// Where interval `i` lies, seen from a code point, as `Interval::compare` tells it. It is counted as one probe more.
    fn compare(&mut self, i: usize, cp: CodePoint) -> Ordering
        requires within { i < length (intervals self.old) }
        requires room { probes self.old < u64.MAX }
        ensures answer { (d : Interval) → result ≡ interval_cmp (get_or (intervals self.old) i d) cp }
        ensures kept { intervals self.new ≡ intervals self.old }
        ensures counted { probes self.new ≡ probes self.old + 1 };

    // each interval ends before the next begins
    ghost ascend: { (p : Self) → Ascend (ends_of (intervals p)) };
}

/// Intervals of a slice, and how often one of them has been compared.
#[derive(Debug, Clone, Copy, Drop)]
pub struct CountedIntervals<'a> {
    intervals: &'a [Interval],
    probes: u64,
    pub ghost ascend: { Ascend (ends_of intervals.now) },
}

impl<'a> CountedIntervals<'a> {
    ghost use Rattle.regress_front_sets.specs.Counted.{counted_intervals, counted_probes};

    /// Intervals that ascend, none of which meet, and no probe yet, as `CountedIntervals::new(&WORD_CHARS)`.
    pub fn new(intervals: &'a [Interval]) -> CountedIntervals<'a>
        requires { Ascend (ends_of intervals.now) }
        ensures intervals { counted_intervals result ≡ intervals.now }
        ensures probes { counted_probes result ≡ 0 }
    {
        CountedIntervals {
            intervals,
            probes: 0,
        }
    }
}

impl<'a> Probes for CountedIntervals<'a> {
    ghost use Rattle.regress_front_sets.specs.Counted.{counted_intervals, counted_probes};

    ghost intervals = { counted_intervals };

    ghost probes = { counted_probes };

    ghost ascend = { λ p. p.ascend };

    fn len(&self) -> usize {
        self.intervals.len()
    }

    fn compare(&mut self, i: usize, cp: CodePoint) -> Ordering {
        self.probes += 1;
        self.intervals[i].compare(cp)
    }
}

/// The index of the interval that holds the code point. It takes as many probes as the number of intervals has binary
/// digits, or fewer: `bracket_index(&mut CountedIntervals::new(&WORD_CHARS), 0x5F)` is `Some(2)`, by three probes at most.
pub fn bracket_index<P: Probes>(probes: &mut P, cp: CodePoint) -> Option<usize>
    requires { P.probes probes.old + 64 ≤ u64.MAX }
    ensures index { result ≡ position (λ i. in_interval i cp) (P.intervals probes.old) }
    ensures kept { P.intervals probes.new ≡ P.intervals probes.old }
    ensures counted { (k : ℕ) → length (P.intervals probes.old) < 2 ^ k → P.probes probes.new ≤ P.probes probes.old + k }
{
    let mut low = 0;
    let mut high = probes.len();
    while low < high {
        let middle = low + (high - low) / 2;
        match probes.compare(middle, cp) {
            Ordering::Less => low = middle + 1,
            Ordering::Greater => high = middle,
            Ordering::Equal => return Some(middle),
        }
    }
    None
}
