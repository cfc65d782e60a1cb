//! What is asked of a pattern, and texts that are copied.

use regress_calls::{
    CallError, DEFAULT_LIMIT, Slot, Source, compile, escape, group_count, group_name,
    group_numbers, put_small_tables, replace_all, share,
};

#[test]
fn copies_texts_where_there_is_room(rt: HostRuntime) {
    let alloc = rt.alloc();
    let mut buffer = *b"........";
    let mut written = 0;
    assert_eq!(rt; escape(alloc, "a.b", &mut buffer, &mut written), Ok(()));
    assert_eq!(rt; written, 4);
    assert_eq!(rt; &buffer, b"a\\.b\0...");
    assert_eq!(rt;
        escape(alloc, "a.b", &mut buffer[..3], &mut written),
        Err(CallError::NoRoom)
    );
    assert_eq!(rt; &buffer, b"a\\.b\0...");
}

/// Whether the front of a buffer, of so many bytes, is a text.
fn is_copied(buffer: &[u8], written: usize, text: &[u8]) -> bool {
    match buffer.get(..written) {
        Some(front) => front == text,
        None => false,
    }
}

#[test]
fn asks_a_pattern(rt: HostRuntime) {
    let alloc = rt.alloc();
    let mut tables = Slot::empty();
    let mut pattern = Slot::empty();
    let mut other = Slot::empty();
    put_small_tables(alloc, &mut tables).expect(&rt, "tables");
    let source = Source::Utf8("(?<n>a)|(b)(?<n>c)");
    compile(
        alloc,
        source,
        b"g",
        DEFAULT_LIMIT,
        &mut tables,
        &mut pattern,
    )
    .expect(&rt, "a pattern");
    share(alloc, &mut pattern, &mut other).expect(&rt, "a share");
    assert_eq!(rt; group_count(alloc, &mut other), Ok(3));
    assert_eq!(rt;
        group_count(alloc, &mut tables),
        Err(CallError::WrongHandle)
    );
    let mut numbers = [9; 3];
    assert_eq!(rt; group_numbers(alloc, &mut other, "n", &mut numbers), Ok(2));
    assert_eq!(rt; numbers, [1, 3, 9]);
    assert_eq!(rt; group_numbers(alloc, &mut other, "", &mut numbers), Ok(0));
    let mut buffer = [0; 16];
    let mut written = 0;
    let named = group_name(alloc, &mut other, 3, &mut buffer, &mut written);
    assert_eq!(rt; named, Ok(()));
    assert!(rt; is_copied(&buffer, written, b"n"));
    let named = group_name(alloc, &mut other, 4, &mut buffer, &mut written);
    assert_eq!(rt; named, Err(CallError::NoGroup));
    let made = replace_all(
        alloc,
        &mut other,
        "abc",
        "<$<n>$2>",
        &mut buffer,
        &mut written,
    );
    assert_eq!(rt; made, Ok(()));
    assert!(rt; is_copied(&buffer, written, b"<a><cb>"));
    assert!(rt; pattern.into_box(alloc).is_some());
    assert!(rt; other.into_box(alloc).is_some());
    assert!(rt; tables.into_box(alloc).is_some());
}
