//! Trees of patterns, as they are parsed and rewritten.
ghost use Rattle.std.specs.Prelude.{ℕ, IfOk};
ghost use Rattle.regress_front_nodes.specs.Trees.{tree};
ghost use Rattle.regress_front_nodes.specs.WellFormed.{IsWellFormed};

use regress_front_bytes::are_code_points;
use regress_front_nodes::ir::Regex;
use regress_front_opt::optimize;
use regress_front_tables::{CodePoint, Error, Flags, Tables};
use regress_front_tree::try_parse;
use std::alloc::Global;

/// The tree of a pattern as the parser gives it.
pub(crate) fn parsed<'t>(
    alloc: Global,
    pattern: &str,
    flags: &str,
    tables: &'t Tables,
) -> Result<Regex<'t>, Error>
    ensures { IfOk result (λ re. (n : ℕ) × IsWellFormed n (tree re.node)) }
{
    let points: Vec<CodePoint> = pattern.chars().map(CodePoint::from).collect(alloc)?;
    if !are_code_points(&points) {
        return Err(Error::Syntax {
            text: "a character is no code point",
        });
    }
    try_parse(alloc, &points, Flags::from(flags), tables)
}

/// The tree of a pattern, rewritten.
pub(crate) fn rewritten<'t>(
    alloc: Global,
    pattern: &str,
    flags: &str,
    tables: &'t Tables,
) -> Result<Regex<'t>, Error>
    ensures { IfOk result (λ re. (n : ℕ) × IsWellFormed n (tree re.node)) }
{
    let mut regex = parsed(alloc, pattern, flags, tables)?;
    optimize(alloc, &mut regex)?;
    Ok(regex)
}
