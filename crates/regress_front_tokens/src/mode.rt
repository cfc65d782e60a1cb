//! What holds for a whole pattern while it is read.
ghost use Rattle.std.specs.Prelude.{◌≡◌};
ghost use Rattle.regress_meaning.specs.Tokens.{begins_name, continues_name};
ghost use Rattle.regress_front_tables.specs.TableViews.{table};
ghost use Rattle.regress_front_tokens.specs.Groups.{IsIndex};

use crate::cursor::is_one_of;
use crate::groups::GroupsByName;
use regress_front_tables::{CaptureGroupName, CodePoint, Tables};

/// What holds for the whole pattern: how its escapes and classes are read ("Patterns", its grammar parameters).
#[derive(Debug, Drop)]
pub struct Mode<'t> {
    /// Case and properties of code points.
    pub tables: &'t Tables,
    /// Unicode mode: `u` or `v`.
    pub unicode: bool,
    /// `v`.
    pub sets: bool,
    /// Unicode mode, or some group has a name.
    pub named: bool,
    /// The name of each capturing group, empty where it has none.
    pub names: Vec<CaptureGroupName>,
    /// The groups of each name.
    pub(crate) groups: GroupsByName,
    ghost indexed: { IsIndex groups names.items },
}

/// Whether a group's name may begin with the code point ("RegExpIdentifierStart").
pub(crate) fn begins_name(tables: &Tables, point: CodePoint) -> bool
    ensures { result ≡ begins_name (table tables.now) point }
{
    is_one_of(point, "$_") || tables.id_start(point)
}

/// Whether a group's name may go on with the code point ("RegExpIdentifierPart").
pub(crate) fn continues_name(tables: &Tables, point: CodePoint) -> bool
    ensures { result ≡ continues_name (table tables.now) point }
{
    begins_name(tables, point)
        || tables.id_continue(point)
        || matches!(char::from_u32(point), Some('\u{200C}' | '\u{200D}'))
}
