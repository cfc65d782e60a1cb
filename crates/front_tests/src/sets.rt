//! Intervals, sets of many of them, and those of the class escapes.

use regress_front_core::GroupData;
use regress_front_sets::{
    CodePoint, CodePointSet, DIGITS, Error, Interval, LINE_TERMINATOR, WHITESPACE, WORD_CHARS,
    digits, line_terminator, whitespace, word_chars,
};
use std::alloc::Global;
use std::test::Fail;

/// The first and the last code point of an interval.
type Pair = (CodePoint, CodePoint);

fn are(intervals: &[Interval], expected: &[Pair]) -> bool {
    let mut pairs = intervals.iter().zip(expected);
    intervals.len() == expected.len() && pairs.all(|(i, e)| i.first == e.0 && i.last == e.1)
}

/// Whether a constant and what its function answers have these intervals.
fn both_are(constant: &[Interval], answered: &[Interval], expected: &[Pair]) -> bool {
    are(constant, expected) && are(answered, expected)
}

const WORDS: &[Pair] = &[(0x30, 0x39), (0x41, 0x5A), (0x5F, 0x5F), (0x61, 0x7A)];

const SPACES: &[Pair] = &[
    (0x9, 0xD),
    (0x20, 0x20),
    (0xA0, 0xA0),
    (0x1680, 0x1680),
    (0x2000, 0x200A),
    (0x2028, 0x2029),
    (0x202F, 0x202F),
    (0x205F, 0x205F),
    (0x3000, 0x3000),
    (0xFEFF, 0xFEFF),
];

const DECIMAL: &[Pair] = &[(0x30, 0x39)];

const LINE_ENDS: &[Pair] = &[(0xA, 0xA), (0xD, 0xD), (0x2028, 0x2029)];

#[test]
fn class_escapes_have_the_standards_code_points(rt: HostRuntime) -> Result<(), Fail> {
    assert!(rt; both_are(&WORD_CHARS, &word_chars(), WORDS));
    assert!(rt; both_are(&DIGITS, &digits(), DECIMAL));
    assert!(rt; both_are(&WHITESPACE, &whitespace(), SPACES));
    assert!(rt; both_are(&LINE_TERMINATOR, &line_terminator(), LINE_ENDS));
    Ok(())
}

#[test]
fn intervals_overlap_where_they_share_a_code_point(rt: HostRuntime) -> Result<(), Fail> {
    let low = Interval { first: 1, last: 5 };
    let high = Interval { first: 5, last: 9 };
    assert!(rt; low.overlaps(high) && high.overlaps(low));
    assert!(rt; !low.overlaps(Interval { first: 6, last: 9 }));
    assert!(rt; low.codepoints() == (1..6) && low.contains(5) && !low.contains(6));
    Ok(())
}

/// How many intervals.
const MANY: CodePoint = 2_000;

/// Every second code point from 0 on.
fn every_second(alloc: Global) -> Result<CodePointSet, Error> {
    let mut set = CodePointSet::new(alloc);
    for i in 0..MANY {
        set.add_one(2 * i)?;
    }
    Ok(set)
}

#[test]
fn many_intervals_are_turned(rt: HostRuntime) -> Result<(), Fail> {
    let set = every_second(rt.alloc())?;
    let others = set.inverted()?;
    assert!(rt; set.intervals().len() == 2_000 && others.intervals().len() == 2_000);
    assert!(rt; others.contains(3_997) && !others.contains(3_998) && others.contains(4_000));
    Ok(())
}

#[test]
fn a_group_has_a_range_once_both_ends_are_known(rt: HostRuntime) -> Result<(), Fail> {
    let mut group: GroupData<usize> = GroupData::new();
    group.start = Some(3);
    assert!(rt; group.start_matched() && !group.end_matched() && group.as_range().is_none());
    group.end = Some(5);
    assert!(rt; group.end_matched() && group.as_range() == Some(3..5));
    group.reset();
    assert!(rt; !group.start_matched() && !group.end_matched());
    Ok(())
}
