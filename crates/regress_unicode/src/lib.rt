//! Unicode's own data as tables that patterns are compiled by.
#![tactic(auto)]

ghost use Rattle.std.specs.Prelude.{IfOk, IfErr, IsOkUnless};
ghost use Rattle.regress_front_tables.specs.Parts.{parts_of};
ghost use Rattle.regress_front_tables.specs.TableViews.{parts};
ghost use Rattle.regress_unicode.specs.Unicode.{IsUnicode, IsUnicodeCase, IsRefusal};

mod case;
mod casefold;
mod emoji;
mod keys;
mod names;
mod properties;
mod sequences;
mod sets;

use regress_front_tables::{TableError, TableParts, Tables};
use std::alloc::Global;
use unicode::sets::{BinaryProperty, Set};

/// The parts of Unicode's own table, of version 18.0: simple case folding, upper case, the characters of identifiers, the properties
/// that the standard lists ("Binary Unicode property aliases", "UnicodeMatchProperty"), and the properties of strings ("Binary Unicode
/// properties of strings"). Of these the strings of several emoji, but for the keycaps, are of version 15.0. The only error is
/// `OutOfMemory`. `unicode_parts(alloc)?.fold` has the pair of 395 and 3B5 (hexadecimal).
pub fn unicode_parts(alloc: Global) -> Result<TableParts, TableError>
    ensures unicode { IfOk result (λ parts. IsUnicode (parts_of parts)) }
    ensures refused { IsOkUnless result TableError.OutOfMemory }
{
    let properties = properties::properties(alloc)?;
    let sequences = sequences::sequences(alloc)?;
    Ok(TableParts {
        properties,
        sequences,
        ..unicode_case_parts(alloc)?
    })
}

/// The parts of Unicode's own table without its properties, which are there sooner: simple case folding, upper case, and the
/// characters of identifiers. They are enough for a pattern without `\p` and `\P`. The only error is `OutOfMemory`.
///
/// ```rust
/// let tables = Tables::new(alloc, unicode_case_parts(alloc)?)?;
/// ```
pub fn unicode_case_parts(alloc: Global) -> Result<TableParts, TableError>
    ensures unicode { IfOk result (λ parts. IsUnicodeCase (parts_of parts)) }
    ensures refused { IsOkUnless result TableError.OutOfMemory }
{
    Ok(TableParts {
        fold: case::fold_pairs(alloc)?,
        upper: case::upper_pairs(alloc)?,
        id_start: sets::intervals(alloc, Set::Binary(BinaryProperty::IdStart))?,
        id_continue: sets::intervals(alloc, Set::Binary(BinaryProperty::IdContinue))?,
        properties: Vec::new(alloc),
        sequences: Vec::new(alloc),
    })
}

/// Unicode's own table: `unicode_tables(alloc)?.fold(0x395)` is `0x3B5`. Where memory is refused the error is `OutOfMemory`.
/// `Broken` could come only if Unicode's data broke a law of tables.
pub fn unicode_tables(alloc: Global) -> Result<Tables, TableError>
    ensures unicode { IfOk result (λ tables. IsUnicode (parts tables)) }
    ensures refused { IfErr result IsRefusal }
{
    Tables::new(alloc, unicode_parts(alloc)?)
}
