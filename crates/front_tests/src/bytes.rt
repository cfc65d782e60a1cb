//! Searches of bytes, and helpers on UTF-8 and on ranges.

use regress_front_bytes::{
    ByteArraySet, ByteBitmap, ByteSearcher, CodePointRange, EmptyString, FoldRange, SmallArraySet,
    equal_range_by, utf8_w2, utf8_w3, utf8_w4,
};
use std::test::Fail;

/// Whether a searcher finds its first byte at this index.
fn finds<S: ByteSearcher>(searcher: &S, bytes: &[u8], expected: Option<usize>) -> bool {
    searcher.find_in(bytes) == expected
}

#[test]
fn each_searcher_finds_its_first(rt: HostRuntime) -> Result<(), Fail> {
    let bitmap = ByteBitmap::new(&[0x80, b'c']);
    assert!(rt; finds(&bitmap, b"abc", Some(2)) && finds(&bitmap, b"ab", None));
    assert!(rt; finds(b"c", b"abcabc", Some(2)) && finds(b"c", b"ab", None));
    assert!(rt; finds(b"cb", b"abcabc", Some(1)) && finds(b"ab", b"xxxxb", Some(4)));
    assert!(rt; finds(b"xyc", b"abcabc", Some(2)) && finds(b"xyc", b"", None));
    assert!(rt; finds(&ByteArraySet(*b"wxyc"), b"aaac", Some(3)));
    assert!(rt; finds(&EmptyString, b"", Some(0)));
    assert!(rt; SmallArraySet::find_in(*b"xyc", b"abc") == Some(2));
    assert!(rt; ByteArraySet(*b"ab").contains(b'b') && !ByteArraySet(*b"abcd").contains(b'e'));
    Ok(())
}

#[test]
fn forms_are_read(rt: HostRuntime) -> Result<(), Fail> {
    assert!(rt; utf8_w2(0xC3, 0xA9) == 0xE9);
    assert!(rt; utf8_w3(0xE2, 0x82, 0xAC) == 0x20AC);
    assert!(rt; utf8_w3(0xED, 0xA0, 0x80) == 0xD800);
    assert!(rt; utf8_w4(0xF0, 0x9F, 0x98, 0x80) == 0x1_F600);
    Ok(())
}

/// Numbers, and where a range that moves every second of them by one moves each.
const MOVED: &[(u32, Option<u32>)] = &[
    (0x100, Some(0x101)),
    (0x101, None),
    (0x12E, Some(0x12F)),
    (0x130, None),
    (0xFF, None),
];

#[test]
fn every_second_is_moved(rt: HostRuntime) -> Result<(), Fail> {
    let fold = FoldRange::from(0x100, 0x30, 1, 2);
    for (from, to) in MOVED {
        assert!(rt; fold.apply(*from) == *to);
    }
    let range = CodePointRange::from(0x61, 2);
    assert!(rt; range.first() == 0x61 && range.last() == 0x62);
    Ok(())
}

#[test]
fn equal_items_are_found(rt: HostRuntime) -> Result<(), Fail> {
    let items = [1, 3, 3, 3, 7];
    for (searchable, start, end) in [(3, 1, 4), (1, 0, 1), (4, 4, 4), (9, 5, 5)] {
        let range = equal_range_by(items.as_slice(), |x| x.cmp(&searchable));
        assert!(rt; range.start == start && range.end == end);
    }
    Ok(())
}
