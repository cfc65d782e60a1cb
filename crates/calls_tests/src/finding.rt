//! Matches that are found by handles.

use regress_calls::{
    CallError, DEFAULT_LIMIT, Slot, Source, Text, TextRange, compile, find, find_many, free,
    put_search, put_small_tables, set_max_steps,
};
use std::alloc::Global;

const UNSET: TextRange = TextRange { start: 0, end: 0 };

/// A range of offsets.
fn range(start: usize, end: usize) -> TextRange {
    TextRange { start, end }
}

#[test]
fn finds_a_match_by_handles(rt: HostRuntime) {
    let alloc = rt.alloc();
    let mut tables = Slot::empty();
    let mut pattern = Slot::empty();
    let mut search = Slot::empty();
    put_small_tables(alloc, &mut tables).expect(&rt, "tables");
    let source = Source::Utf8("(?<as>a+)b|(x)");
    compile(alloc, source, b"", DEFAULT_LIMIT, &mut tables, &mut pattern).expect(&rt, "a pattern");
    free(alloc, &mut tables);
    put_search(alloc, &mut pattern, &mut search).expect(&rt, "a search");
    let mut ranges = [UNSET; 4];
    let count = find(alloc, &mut search, Text::Utf8("xaab"), 1, &mut ranges).expect(&rt, "count");
    assert_eq!(rt; count, 3);
    assert_eq!(rt; ranges[0], range(1, 4));
    assert_eq!(rt; ranges[1], range(1, 3));
    assert_eq!(rt; ranges[2], range(usize::MAX, usize::MAX));
    free(alloc, &mut pattern);
    assert!(rt; pattern.into_box(alloc).is_none());
    assert!(rt; tables.into_box(alloc).is_none());
    assert!(rt; search.into_box(alloc).is_some());
}

#[test]
fn finds_many_matches_by_steps(rt: HostRuntime) {
    let alloc = rt.alloc();
    let mut tables = Slot::empty();
    let mut pattern = Slot::empty();
    let mut search = Slot::empty();
    put_small_tables(alloc, &mut tables).expect(&rt, "tables");
    let source = Source::Utf8("a*");
    compile(
        alloc,
        source,
        b"u",
        DEFAULT_LIMIT,
        &mut tables,
        &mut pattern,
    )
    .expect(&rt, "a pattern");
    put_search(alloc, &mut pattern, &mut search).expect(&rt, "a search");
    let mut ranges = [UNSET; 3];
    let mut start = 0;
    let mut found = 0;
    let text = Text::Utf8("aaéa");
    let done = find_many(
        alloc,
        &mut search,
        text,
        &mut start,
        &mut ranges,
        1,
        &mut found,
    );
    assert_eq!(rt; done, Ok(()));
    assert_eq!(rt; (found, start), (3, 5));
    assert_eq!(rt; ranges, [range(0, 2), range(2, 2), range(4, 5)]);
    let done = find_many(
        alloc,
        &mut search,
        text,
        &mut start,
        &mut ranges,
        1,
        &mut found,
    );
    assert_eq!(rt; done, Ok(()));
    assert_eq!(rt; (found, start), (1, usize::MAX));
    assert_eq!(rt; ranges[0], range(5, 5));
    assert!(rt; pattern.into_box(alloc).is_some());
    assert!(rt; tables.into_box(alloc).is_some());
    assert!(rt; search.into_box(alloc).is_some());
}

/// Puts a search of a pattern into a handle, by two handles that then hold tables and the pattern.
fn put_search_of(
    alloc: Global,
    source: &str,
    tables: &mut Slot,
    pattern: &mut Slot,
    search: &mut Slot,
) -> Result<(), CallError> {
    let source = Source::Utf8(source);
    put_small_tables(alloc, tables)?;
    match compile(alloc, source, b"", DEFAULT_LIMIT, tables, pattern) {
        Ok(()) => put_search(alloc, pattern, search),
        Err(refused) => Err(refused.error),
    }
}

#[test]
fn bounds_a_search_by_steps(rt: HostRuntime) {
    let alloc = rt.alloc();
    let mut tables = Slot::empty();
    let mut pattern = Slot::empty();
    let mut search = Slot::empty();
    let source = "(?:(a)|b)*c";
    put_search_of(alloc, source, &mut tables, &mut pattern, &mut search).expect(&rt, "a search");
    let text = Text::Utf8("c ababababababc");
    let mut ranges = [UNSET];
    assert_eq!(rt;
        set_max_steps(alloc, &mut pattern, 8),
        Err(CallError::WrongHandle)
    );
    assert_eq!(rt; set_max_steps(alloc, &mut search, 8), Ok(()));
    assert_eq!(rt;
        find(alloc, &mut search, text, 2, &mut ranges),
        Err(CallError::TooManySteps)
    );
    assert_eq!(rt; ranges[0], UNSET);
    assert_eq!(rt; find(alloc, &mut search, text, 0, &mut ranges), Ok(2));
    assert_eq!(rt; ranges[0], range(0, 1));
    assert_eq!(rt; set_max_steps(alloc, &mut search, usize::MAX), Ok(()));
    assert_eq!(rt; find(alloc, &mut search, text, 2, &mut ranges), Ok(2));
    assert_eq!(rt; ranges[0], range(2, 15));
    assert!(rt; pattern.into_box(alloc).is_some());
    assert!(rt; tables.into_box(alloc).is_some());
    assert!(rt; search.into_box(alloc).is_some());
}

#[test]
fn bounds_each_of_many_matches_by_steps(rt: HostRuntime) {
    let alloc = rt.alloc();
    let mut tables = Slot::empty();
    let mut pattern = Slot::empty();
    let mut search = Slot::empty();
    let source = "(?:(a)|b)*c";
    put_search_of(alloc, source, &mut tables, &mut pattern, &mut search).expect(&rt, "a search");
    assert_eq!(rt; set_max_steps(alloc, &mut search, 16), Ok(()));
    let text = Text::Utf8("c c ababababababc");
    let mut ranges = [UNSET; 3];
    let mut start = 0;
    let mut found = 0;
    let done = find_many(
        alloc,
        &mut search,
        text,
        &mut start,
        &mut ranges,
        1,
        &mut found,
    );
    assert_eq!(rt; done, Err(CallError::TooManySteps));
    assert_eq!(rt; (found, start), (2, 3));
    assert_eq!(rt; ranges, [range(0, 1), range(2, 3), UNSET]);
    assert!(rt; pattern.into_box(alloc).is_some());
    assert!(rt; tables.into_box(alloc).is_some());
    assert!(rt; search.into_box(alloc).is_some());
}
