//! The trees and programs of a pattern.
ghost use Rattle.std.specs.Prelude.{◌≤◌, ℕ, All, IfOk};
ghost use Rattle.regress_front_nodes.specs.Trees.{tree};
ghost use Rattle.regress_front_nodes.specs.WellFormed.{IsWellFormed};

use regress_engine_code::{CompiledRegex, emit, emit_units};
use regress_front::ir::Regex;
use regress_front::{CodePoint, Error, Flags, Tables, optimize, try_parse};
use std::alloc::Global;

/// The tree of a pattern.
pub(crate) fn parsed<'t>(
    alloc: Global,
    points: &[CodePoint],
    flags: Flags,
    tables: &'t Tables,
) -> Result<Regex<'t>, Error>
    requires { All (λ c. c ≤ 0x10_FFFF) points.now }
    ensures { IfOk result (λ re. (n : ℕ) × IsWellFormed n (tree re.node)) }
{
    try_parse(alloc, points, flags, tables)
}

/// The tree of a pattern, rewritten where the flags don't ask that it stays as it is.
pub(crate) fn rewritten<'t>(
    alloc: Global,
    points: &[CodePoint],
    flags: Flags,
    tables: &'t Tables,
) -> Result<Regex<'t>, Error>
    requires { All (λ c. c ≤ 0x10_FFFF) points.now }
    ensures { IfOk result (λ re. (n : ℕ) × IsWellFormed n (tree re.node)) }
{
    let mut regex = parsed(alloc, points, flags, tables)?;
    if flags.no_opt {
        return Ok(regex);
    }
    optimize(alloc, &mut regex)?;
    Ok(regex)
}

/// The program of bytes of a tree. It promises nothing, so what calls it has little to prove.
pub(crate) fn byte_program(alloc: Global, regex: &Regex<'_>) -> Result<CompiledRegex, Error>
    requires { (n : ℕ) × IsWellFormed n (tree regex.now.node) }
{
    emit(alloc, regex)
}

/// The program of units of a tree. Nor does it.
pub(crate) fn unit_program(alloc: Global, regex: &Regex<'_>) -> Result<CompiledRegex, Error>
    requires { (n : ℕ) × IsWellFormed n (tree regex.now.node) }
{
    emit_units(alloc, regex)
}
