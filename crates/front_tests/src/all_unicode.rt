//! The table of all of Unicode. Of letters with a case of their own, checked by the regular expressions of Node.js 20.20. What
//! patterns find by it stands in the rows of `conformance_unicode`.

use crate::figures::FIGURES;
use regress_front_tables::{
    CODE_POINT_MAX, CodePoint, CodePointSet, Error, Interval, Tables, expand_code_point,
};
use regress_unicode::unicode_tables;
use std::alloc::Global;
use std::test::Fail;
use unicode::properties::Age;
use unicode::sets::Set;

/// A letter, its fold and its upper case.
const CANONS: &[(char, char, char)] = &[
    ('Ä', 'ä', 'Ä'),
    ('ä', 'ä', 'Ä'),
    ('Σ', 'σ', 'Σ'),
    ('ς', 'σ', 'Σ'),
    ('ϑ', 'θ', 'Θ'),
    ('ϴ', 'θ', 'ϴ'),
    ('µ', 'μ', 'Μ'),
    ('Д', 'д', 'Д'),
    ('ᲁ', 'д', 'Д'),
    // Dotted capital and dotless small i, which have no simple folding and no upper case that is kept.
    ('İ', 'İ', 'İ'),
    ('ı', 'ı', 'ı'),
    // Sharp s, whose upper case is two letters.
    ('ß', 'ß', 'ß'),
    ('ẞ', 'ß', 'ẞ'),
    // Long s and the sign of kelvin, which without Unicode mode stay out of ASCII.
    ('ſ', 's', 'ſ'),
    ('\u{212A}', 'k', '\u{212A}'),
    // Georgian, and Cherokee, where the small letters fold to the capital ones.
    ('ა', 'ა', 'Ა'),
    ('Ა', 'ა', 'Ა'),
    ('Ꭰ', 'Ꭰ', 'Ꭰ'),
    ('ꭰ', 'Ꭰ', 'Ꭰ'),
    ('ᏸ', 'Ᏸ', 'Ᏸ'),
    // A small letter whose upper case is two letters, and its title case.
    ('ᾀ', 'ᾀ', 'ᾀ'),
    ('ᾈ', 'ᾀ', 'ᾈ'),
    ('\u{1FD3}', '\u{390}', '\u{1FD3}'),
    // Letters past 16 bits, which have no upper case without Unicode mode.
    ('𐐀', '𐐨', '𐐀'),
    ('𐐨', '𐐨', '𐐨'),
    ('\u{10FFFF}', '\u{10FFFF}', '\u{10FFFF}'),
];

/// Whether each letter has its fold and its upper case, and a surrogate has none but itself.
fn have_canons(tables: &Tables) -> bool {
    for (letter, fold, upper) in CANONS {
        let letter = CodePoint::from(*letter);
        if tables.fold(letter) != u32::from(*fold) || tables.upper(letter) != u32::from(*upper) {
            return false;
        }
    }
    tables.fold(0xD800) == 0xD800 && tables.upper(0xD800) == 0xD800
}

/// A code point, whether in Unicode mode, and all that are alike to it where case is ignored.
const ALIKE: &[(CodePoint, bool, &[CodePoint])] = &[
    (0x3F4, true, &[0x398, 0x3B8, 0x3D1, 0x3F4]),
    (0x3C3, false, &[0x3A3, 0x3C2, 0x3C3]),
    (0x73, true, &[0x53, 0x73, 0x17F]),
    (0x73, false, &[0x53, 0x73]),
    (0x442, false, &[0x422, 0x442, 0x1C84, 0x1C85]),
    (0x10428, true, &[0x10400, 0x10428]),
    (0x10428, false, &[0x10428]),
    (0x4E00, true, &[0x4E00]),
];

/// Whether exactly these are alike to a code point.
fn is_alike_to(
    alloc: Global,
    tables: &Tables,
    c: CodePoint,
    unicode: bool,
    expected: &[CodePoint],
) -> Result<bool, Error> {
    let c = CODE_POINT_MAX.min(c);
    let class = expand_code_point(alloc, c, true, unicode, tables)?;
    Ok(class.as_slice() == expected)
}

/// Fails at the first code point to which others are alike.
fn are_alike(alloc: Global, tables: &Tables) -> Result<(), Fail> {
    for (c, unicode, expected) in ALIKE {
        if !is_alike_to(alloc, tables, *c, *unicode, expected)? {
            return Err(Fail::new(*c));
        }
    }
    Ok(())
}

/// The code points that Unicode 17.0 does not know: it neither assigns them nor keeps them as noncharacters.
fn unknown(alloc: Global) -> Result<CodePointSet, Fail> {
    let mut known = CodePointSet::new(alloc);
    for (first, last) in Set::Age(Age::V17_0).ranges(alloc)? {
        if first <= last && last <= CODE_POINT_MAX {
            known.add(Interval { first, last })?;
        }
    }
    Ok(known.inverted()?)
}

/// The members of a set that are no members of another.
fn without(set: &CodePointSet, others: &CodePointSet) -> Result<CodePointSet, Error> {
    let mut left_out = set.inverted()?;
    for interval in others.intervals() {
        left_out.add(*interval)?;
    }
    left_out.inverted()
}

/// How many code points a set has.
fn count(set: &CodePointSet) -> usize {
    let mut counted: usize = 0;
    for interval in set.intervals() {
        counted = counted.saturating_add(interval.count_codepoints());
    }
    counted
}

/// Whether a property has so many members that are known, from the one to the other.
fn has(
    tables: &Tables,
    unknown: &CodePointSet,
    figures: &(&str, usize, CodePoint, CodePoint),
) -> Result<bool, Error> {
    let (key, expected, first, last) = figures;
    let Some(set) = tables.property(key) else {
        return Ok(false);
    };
    let members = without(set, unknown)?;
    let least = members.intervals().first().map(|interval| interval.first);
    let greatest = members.intervals().last().map(|interval| interval.last);
    Ok(count(&members) == *expected && least == Some(*first) && greatest == Some(*last))
}

/// Fails at the first property with other figures.
fn have_figures(tables: &Tables, unknown: &CodePointSet) -> Result<(), Fail> {
    for figures in &FIGURES {
        if !has(tables, unknown, figures)? {
            return Err(Fail::new(figures.0));
        }
    }
    Ok(())
}

/// Keys, and whether each is known as that of a property of code points.
const KEYS: &[(&str, bool)] = &[
    ("Any", true),
    ("Assigned", true),
    ("Cn", true),
    ("Noncharacter_Code_Point", true),
    ("Script=Qaac", true),
    ("scx=Qaai", true),
    ("gc=Any", false),
    ("Greek", false),
    ("Script=greek", false),
    ("Hyphen", false),
    ("Other_Math", false),
    ("Line_Break=AL", false),
    ("Changes_When_NFKC_Casefolded", true),
    ("Emoji_Keycap_Sequence", false),
];

/// Properties of strings, each with how many strings of code points it has that Unicode 17.0 knows. The first figure is told by
/// Node.js 20.20, the others by Unicode's files of version 15.0; the last is their sum.
const STRINGS: &[(&str, usize)] = &[
    ("Basic_Emoji", 1400),
    ("Emoji_Keycap_Sequence", 12),
    ("RGI_Emoji_Modifier_Sequence", 655),
    ("RGI_Emoji_Flag_Sequence", 258),
    ("RGI_Emoji_Tag_Sequence", 3),
    ("RGI_Emoji_ZWJ_Sequence", 1350),
    ("RGI_Emoji", 3678),
];

/// Whether the keys are known that the standard has.
fn are_known(tables: &Tables) -> bool {
    for (key, is_known) in KEYS {
        if tables.property(key).is_some() != *is_known {
            return false;
        }
    }
    true
}

/// How many strings have no code point of a set.
fn count_without(strings: &[Vec<CodePoint>], set: &CodePointSet) -> usize {
    let strings_without = strings
        .iter()
        .filter(|string| !string.iter().any(|c| set.contains(*c)));
    strings_without.count()
}

/// Fails at the first property of strings with another count.
fn have_strings(tables: &Tables, unknown: &CodePointSet) -> Result<(), Fail> {
    for (key, expected) in STRINGS {
        let Some(strings) = tables.sequences(key) else {
            return Err(Fail::new(*key));
        };
        if count_without(strings, unknown) != *expected {
            return Err(Fail::new(*key));
        }
    }
    Ok(())
}

// One test, since the table takes long to make.
#[test]
fn the_table_is_that_of_unicode(rt: HostRuntime) -> Result<(), Fail> {
    let tables = unicode_tables(rt.alloc())?;
    assert!(rt; have_canons(&tables) && are_known(&tables));
    are_alike(rt.alloc(), &tables)?;
    let unknown = unknown(rt.alloc())?;
    have_strings(&tables, &unknown)?;
    have_figures(&tables, &unknown)
}
