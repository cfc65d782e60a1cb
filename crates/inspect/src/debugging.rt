//! How the values are printed that all layers share: flags, errors, laws, sets of bytes, and what is kept of loops and groups.

use regress_front::{
    AsciiBitmap, ByteArraySet, ByteBitmap, EmptyString, Error, Flags, GroupData, Interval,
    LoopData, Quantifier, TableError, TableLaw,
};
use std::alloc::AllocError;

/// A line for each of these values.
pub(crate) fn push_debug(out: &mut String) -> Result<(), AllocError> {
    out.push_str("debug\n")?;
    push_flags(out)?;
    push_errors(out)?;
    push_laws(out)?;
    push_sets(out)?;
    push_counts(out)?;
    push_groups(out)
}

/// Words, the flags that they set, and how these are written.
fn push_flags(out: &mut String) -> Result<(), AllocError> {
    for word in ["", "vusim", "iv", "gy", "nvi"] {
        let flags = Flags::from(word);
        write!(out, "  {word:?}: {flags:?}: {flags}\n")?;
    }
    Ok(())
}

/// An error of each kind.
const ERRORS: &[Error] = &[
    Error::Syntax {
        text: "Unbalanced parenthesis",
    },
    Error::TooDeep,
    Error::TooManyGroups,
    Error::TooManyLoops,
    Error::TooLarge,
    Error::OutOfMemory,
];

/// Each error, and its text.
fn push_errors(out: &mut String) -> Result<(), AllocError> {
    for error in ERRORS {
        write!(out, "  {error:?}: {error}\n")?;
    }
    Ok(())
}

/// The error of a law that the code point `A` breaks.
const fn broken(law: TableLaw) -> TableError {
    TableError::Broken {
        law,
        code_point: 0x41,
    }
}

/// The error of each law, and its text.
fn push_laws(out: &mut String) -> Result<(), AllocError> {
    for error in [
        broken(TableLaw::Range),
        broken(TableLaw::Order),
        broken(TableLaw::AsciiCase),
        broken(TableLaw::Idempotent),
        broken(TableLaw::ClassSize),
        broken(TableLaw::Surrogate),
        broken(TableLaw::Canonical),
        broken(TableLaw::Identifier),
        TableError::OutOfMemory,
    ] {
        write!(out, "  {error:?}: {error}\n")?;
    }
    Ok(())
}

/// Sets of bytes: of `a`, and of two.
fn push_sets(out: &mut String) -> Result<(), AllocError> {
    let mut ascii = AsciiBitmap::default();
    ascii.set(b'a');
    let bytes = ByteBitmap::new(b"a\xFF");
    write!(out, "  {ascii:?}\n  {bytes:?}\n")?;
    let array = ByteArraySet(*b"ab");
    write!(out, "  {array:?}\n  {EmptyString:?}\n")
}

/// An interval, counts of repetitions, and what is kept of a loop.
fn push_counts(out: &mut String) -> Result<(), AllocError> {
    let interval = Interval {
        first: 0x61,
        last: 0x7A,
    };
    let few = Quantifier::new(2, 3, false);
    let many = Quantifier::new(1, usize::MAX, true);
    let entered = LoopData::new(7usize);
    write!(
        out,
        "  {interval:?}\n  {few:?}\n  {many:?}\n  {entered:?}\n"
    )
}

/// What is kept of a group: before it begins, once it has begun, and at its end.
fn push_groups(out: &mut String) -> Result<(), AllocError> {
    let mut group: GroupData<usize> = GroupData::new();
    write!(out, "  {group:?}\n")?;
    group.start = Some(3);
    write!(out, "  {group:?}\n")?;
    group.end = Some(5);
    let range = group.as_range();
    write!(out, "  {group:?}: {range:?}\n")
}
