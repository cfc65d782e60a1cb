//! Whole patterns: the parser from the beginning of a text to its end, or to where it is refused.
ghost use Rattle.std.specs.Prelude.{◌≡◌, ◌≤◌, length, IfOk, IfErr};
ghost use Rattle.regress_meaning.specs.Grammar.{Spells, mode_of};
ghost use Rattle.regress_meaning.specs.Limits.{WithinLimits};
ghost use Rattle.regress_meaning.specs.Scan.{scanned_names};
ghost use Rattle.regress_front_core.specs.FlagWords.{options};
ghost use Rattle.regress_front_core.specs.Refusals.{MayRefuse};
ghost use Rattle.regress_front_tables.specs.TableViews.{table};
ghost use Rattle.regress_front_tokens.specs.Escapes.{mode_view, HasFewGroups};
ghost use Rattle.regress_front_tokens.specs.Trees.{tree};
ghost use Rattle.regress_front_tokens.specs.Ranges.{HasRanges};

use crate::parser::Parser;
use regress_front_tables::{CodePoint, Error, Flags, MAX_CAPTURE_GROUPS, Tables};
use regress_front_tokens::{Mode, Syntax, mode_of};
use std::alloc::Global;

/// The mode of a pattern's text with flags, with few enough groups. `TooManyGroups` where there are too many, and `OutOfMemory`
/// at any time.
fn limited_mode<'t>(
    alloc: Global,
    points: &[CodePoint],
    flags: Flags,
    tables: &'t Tables,
) -> Result<Mode<'t>, Error>
    ensures mode { IfOk result (λ mode. mode_view mode
        ≡ mode_of (table tables.now) (options flags) points.now (scanned_names (table tables.now) (options flags) points.now)) }
    ensures few { IfOk result HasFewGroups }
    ensures refused { IfErr result (λ e. MayRefuse (table tables.now) (options flags) points.now e) }
{
    regress_meaning::names_are_found_by_a_scan();
    let mode = mode_of(alloc, points, flags, tables)?;
    if mode.names.len() > MAX_CAPTURE_GROUPS {
        return Err(Error::TooManyGroups);
    }
    Ok(mode)
}

/// Why a pattern is refused, and where.
#[derive(Debug, Drop)]
pub struct Refused {
    /// Why it is.
    pub error: Error,
    /// How many code points of the pattern stand before the place at which reading stopped.
    pub place: usize,
}

/// Reads a pattern with flags ("ParsePattern") as `parse` does, and tells where it is refused: of `a)` behind one code point.
pub fn parse_telling_place(
    alloc: Global,
    points: &[CodePoint],
    flags: Flags,
    tables: &Tables,
) -> Result<Syntax, Refused>
    ensures accepted { IfOk result (λ s. Spells (table tables.now) (options flags) points.now (tree s) × WithinLimits (tree s)) }
    ensures ranges { IfOk result HasRanges }
    ensures refused { IfErr result (λ r. MayRefuse (table tables.now) (options flags) points.now r.error) }
    ensures inside { IfErr result (λ r. r.place ≤ length points.now) }
{
    regress_meaning::reading_decides_the_grammar();
    let mode = match limited_mode(alloc, points, flags, tables) {
        Ok(mode) => mode,
        Err(error) => return Err(Refused { error, place: 0 }),
    };
    let mut parser = Parser::new(alloc, points);
    match parser.pattern(&mode) {
        Ok(syntax) => Ok(syntax),
        Err(error) => Err(Refused {
            error,
            place: points.len().saturating_sub(parser.remaining()),
        }),
    }
}

/// Reads a pattern with flags ("ParsePattern"): its tree. `Syntax` where the text is no pattern; `TooDeep`, `TooManyGroups` and
/// `TooManyLoops` where it passes that limit; `OutOfMemory` at any time.
/// `parse(alloc, &[0x2A], Flags::default(), &tables)` errs with `Syntax`: nothing stands before the `*`.
pub fn parse(
    alloc: Global,
    points: &[CodePoint],
    flags: Flags,
    tables: &Tables,
) -> Result<Syntax, Error>
    ensures accepted { IfOk result (λ s. Spells (table tables.now) (options flags) points.now (tree s) × WithinLimits (tree s)) }
    ensures ranges { IfOk result HasRanges }
    ensures refused { IfErr result (λ e. MayRefuse (table tables.now) (options flags) points.now e) }
{
    match parse_telling_place(alloc, points, flags, tables) {
        Ok(syntax) => Ok(syntax),
        Err(refused) => Err(refused.error),
    }
}
