//! Tables that break a law, that know much, and what is alike to a code point.

use regress_front_tables::{
    CODE_POINT_MAX, CodePoint, Interval, TableError, TableLaw, TableParts, Tables,
    expand_code_point, fold, unfold_char,
};
use std::alloc::Global;
use std::test::Fail;

type Pair = (CodePoint, CodePoint);

/// The parts of the small table, and more pairs in their places.
fn small_and(alloc: Global, fold: &[Pair], upper: &[Pair]) -> Result<TableParts, TableError> {
    let mut parts = TableParts::small(alloc)?;
    parts.fold.extend_from_slice(fold)?;
    parts.fold.sort_unstable();
    parts.upper.extend_from_slice(upper)?;
    parts.upper.sort_unstable();
    Ok(parts)
}

/// Whether exactly this is told of the parts.
fn is_told(alloc: Global, parts: TableParts, expected: &TableLaw, c: CodePoint) -> bool {
    match Tables::new(alloc, parts) {
        Err(TableError::Broken { law, code_point }) => law == *expected && code_point == c,
        _ => false,
    }
}

const PAST: &[Pair] = &[(0x11_0001, 0), (0x11_0000, 0)];

const CHAIN: &[Pair] = &[(0x100, 0x101), (0x101, 0x102)];

const CLASS: &[Pair] = &[
    (0x201, 0x200),
    (0x202, 0x200),
    (0x203, 0x200),
    (0x204, 0x200),
];

const SURROGATE: &[Pair] = &[(0xE000, 0xD800)];

/// Pairs of the fold and of upper case beside the small table's, the law that they break, and where.
const BROKEN: &[(&[Pair], &[Pair], TableLaw, CodePoint)] = &[
    (PAST, &[], TableLaw::Range, 0x11_0000),
    (&[], PAST, TableLaw::Range, 0x11_0000),
    (&[(0x212A, 0x6B)], &[], TableLaw::Order, 0x212A),
    (&[(0x30, 0x31)], &[], TableLaw::AsciiCase, 0x30),
    (CHAIN, &[], TableLaw::Idempotent, 0x100),
    (CLASS, CHAIN, TableLaw::Idempotent, 0x100),
    (CLASS, &[], TableLaw::ClassSize, 0x200),
    (SURROGATE, &[], TableLaw::Surrogate, 0xE000),
    (&[], SURROGATE, TableLaw::Surrogate, 0xE000),
];

#[test]
fn laws_on_maps_are_told(rt: HostRuntime) -> Result<(), Fail> {
    for (row, (folds, uppers, law, c)) in BROKEN.iter().enumerate() {
        let parts = small_and(rt.alloc(), folds, uppers)?;
        if !is_told(rt.alloc(), parts, law, *c) {
            return Err(Fail::new(row));
        }
    }
    Ok(())
}

const SMALL_LETTERS: Interval = Interval {
    first: 0x61,
    last: 0x7A,
};

const CAPITAL_LETTERS: Interval = Interval {
    first: 0x41,
    last: 0x5A,
};

const OVERLAPPING: Interval = Interval {
    first: 0x5A,
    last: 0x60,
};

const ADJACENT: Interval = Interval {
    first: 0x5B,
    last: 0x60,
};

/// The parts of the small table, and a property of two intervals.
fn with_letters(
    alloc: Global,
    first: Interval,
    second: Interval,
) -> Result<TableParts, TableError> {
    let mut parts = TableParts::small(alloc)?;
    let intervals = vec![in alloc; first, second]?;
    let key = String::from_str(alloc, "Letters")?;
    parts.properties.push((key, intervals))?;
    Ok(parts)
}

#[test]
fn laws_on_intervals_are_told(rt: HostRuntime) -> Result<(), Fail> {
    for (first, second, start) in [
        (SMALL_LETTERS, CAPITAL_LETTERS, 0x41),
        (CAPITAL_LETTERS, OVERLAPPING, 0x5A),
        (CAPITAL_LETTERS, ADJACENT, 0x5B),
    ] {
        let parts = with_letters(rt.alloc(), first, second)?;
        assert!(rt; parts.key_out_of_place() == Some("Letters"));
        assert!(rt; is_told(rt.alloc(), parts, &TableLaw::Canonical, start));
    }
    let mut parts = with_letters(rt.alloc(), CAPITAL_LETTERS, SMALL_LETTERS)?;
    assert!(rt; parts.key_out_of_place().is_none());
    parts.id_continue.push(Interval {
        first: 0xD700,
        last: CODE_POINT_MAX,
    })?;
    assert!(rt; is_told(rt.alloc(), parts, &TableLaw::Identifier, 0xD800));
    Ok(())
}

#[test]
fn a_fold_is_undone(rt: HostRuntime) -> Result<(), Fail> {
    let tables = Tables::small(rt.alloc())?;
    let thetas = unfold_char(rt.alloc(), 0x3F4, &tables)?;
    assert!(rt; thetas.as_slice() == [0x398, 0x3B8, 0x3D1, 0x3F4].as_slice());
    assert!(rt; fold(&tables, 0x3F4) == 0x3B8);
    Ok(())
}

/// How many folds.
const MANY: CodePoint = 2_000;

/// The parts of the small table, above them pairs of code points with one fold, and a property whose key has 40 letters.
fn with_much(alloc: Global) -> Result<TableParts, TableError> {
    let mut parts = TableParts::small(alloc)?;
    for i in 0..MANY {
        let c = 0x2_0000 + 2 * i;
        parts.fold.push((c, c + 1))?;
    }
    let key = "Letters_AB".repeat(alloc, 4)?;
    let intervals = vec![in alloc; SMALL_LETTERS]?;
    parts.properties.push((key, intervals))?;
    Ok(parts)
}

#[test]
fn much_is_looked_up(rt: HostRuntime) -> Result<(), Fail> {
    let tables = Tables::new(rt.alloc(), with_much(rt.alloc())?)?;
    assert!(rt; tables.fold(0x2_0000) == 0x2_0001 && tables.fold(0x2_0F9E) == 0x2_0F9F);
    let last = expand_code_point(rt.alloc(), 0x2_0F9F, true, true, &tables)?;
    assert!(rt; last.as_slice() == [0x2_0F9E, 0x2_0F9F].as_slice());
    let letters = tables.property("Letters_ABLetters_ABLetters_ABLetters_AB");
    assert!(rt; letters.is_some_and(|set| set.contains(0x7A) && !set.contains(0x41)));
    Ok(())
}

/// How much the small table knows.
const SMALL: &str =
    "Tables { fold: CaseMap { pages: 4, classes: 29 }, upper: CaseMap { pages: 2, classes: 29 }, id_start: 4, id_continue: 6, properties: 3, sequences: 1 }";

#[test]
fn tables_tell_how_much_they_know(rt: HostRuntime) -> Result<(), Fail> {
    let tables = Tables::small(rt.alloc())?;
    assert!(rt; format!(in rt.alloc(); "{tables:?}")?.as_str() == SMALL);
    Ok(())
}
