//! Why calls are refused.

use regress_calls::{CallError, DEFAULT_LIMIT, Slot, Source, compile, put_small_tables};

#[test]
fn tells_why_a_pattern_is_refused(rt: HostRuntime) {
    let alloc = rt.alloc();
    let mut tables = Slot::empty();
    let mut pattern = Slot::empty();
    put_small_tables(alloc, &mut tables).expect(&rt, "tables");
    let source = Source::Utf8("é(b|c");
    let refused = compile(alloc, source, b"", DEFAULT_LIMIT, &mut tables, &mut pattern).expect_err(
        &rt, "refused",
    );
    assert_eq!(rt; refused.error, CallError::Syntax);
    assert_eq!(rt; refused.place, 6);
    assert_eq!(rt; refused.text, "Unbalanced parenthesis");
    let refused = compile(
        alloc,
        source,
        b"igi",
        DEFAULT_LIMIT,
        &mut tables,
        &mut pattern,
    )
    .expect_err(&rt, "refused");
    assert_eq!(rt; refused.error, CallError::RepeatedFlag);
    assert_eq!(rt; refused.place, 2);
    assert!(rt; pattern.into_box(alloc).is_none());
    assert!(rt; tables.into_box(alloc).is_some());
}

#[test]
fn refuses_a_pattern_past_its_limit(rt: HostRuntime) {
    let alloc = rt.alloc();
    let mut tables = Slot::empty();
    let mut pattern = Slot::empty();
    put_small_tables(alloc, &mut tables).expect(&rt, "tables");
    // Two characters cost five nodes, of two instructions each; both ends of a whole text cost five more.
    for (source, least) in [
        (Source::Utf8("ab"), 10),
        (Source::Units(&[0x61, 0x62]), 10),
        (Source::Whole("ab"), 20),
    ] {
        let refused = compile(alloc, source, b"", least - 1, &mut tables, &mut pattern).expect_err(
            &rt, "refused",
        );
        assert_eq!(rt; refused.error, CallError::PastLimit);
        assert_eq!(rt; refused.place, 0);
        assert_eq!(rt; refused.text, "pattern costs more than its limit");
        compile(alloc, source, b"", least, &mut tables, &mut pattern).expect(&rt, "a pattern");
    }
    assert!(rt; pattern.into_box(alloc).is_some());
    assert!(rt; tables.into_box(alloc).is_some());
}
