//! How a tree becomes a program.
ghost use Rattle.std.specs.Prelude.{◌≡◌, ℕ, true, false, length, IfOk, IfErr};
ghost use Rattle.regress_front_nodes.specs.Trees.{tree};
ghost use Rattle.regress_front_nodes.specs.Sizes.{loops};
ghost use Rattle.regress_front_nodes.specs.WellFormed.{IsWellFormed};
ghost use Rattle.regress_engine_prefix.specs.Starts.{Serves, KeepsLiteral, IsAnchoredOnlyIf};
ghost use Rattle.regress_engine_code.specs.Written.{MayRefuse};
ghost use Rattle.regress_engine_code.specs.Standing.{length_for, StandsFor};

use crate::brackets::ascii_of_each;
use crate::code::Code;
use crate::compiled::CompiledRegex;
use crate::emitter::Emitter;
use regress_engine_analysis::Plan;
use regress_engine_prefix::{StartPredicate, predicate_for_re, predicate_for_units};
use regress_front_core::{CaptureGroupName, Error};
use regress_front_nodes::ir::Regex;
use std::alloc::Global;
use std::sync::ArcSlice;

/// The program of bytes of a tree.
///
/// It is the tree's layout, for the tree's flags and tables, with the names of the tree's groups, and holds the tree's start
/// predicate. Asks for a well-formed tree, as `try_parse` makes it. It errs with `TooLarge` only where the instructions pass
/// `u32::MAX` or the loops pass 65535, and with `OutOfMemory`.
///
/// ```rust
/// let program = emit(alloc, &regex)?;
/// ```
pub fn emit(alloc: Global, regex: &Regex<'_>) -> Result<CompiledRegex, Error>
    requires { (n : ℕ) × IsWellFormed n (tree regex.now.node) }
    ensures emitted { IfOk result (StandsFor regex.now) }
    ensures of_bytes { IfOk result (λ compiled. compiled.units ≡ false) }
    ensures literal { IfOk result (λ compiled. KeepsLiteral (tree regex.now.node) compiled.start_pred) }
    ensures anchored { IfOk result (λ compiled. IsAnchoredOnlyIf (regex.now.flags.multiline ≡ false) compiled.start_pred) }
    ensures refused { IfErr result (MayRefuse (length_for false regex.now) (loops (tree regex.now.node))) }
{
    whole_program(alloc, regex, false)
}

/// The program of 16-bit units of a tree, as `emit` makes that of bytes, but that its start predicate is plain: each byte that it
/// tells is below 0x80, and stands for the unit of the same number.
///
/// ```rust
/// let program = emit_units(alloc, &regex)?;
/// ```
pub fn emit_units(alloc: Global, regex: &Regex<'_>) -> Result<CompiledRegex, Error>
    requires { (n : ℕ) × IsWellFormed n (tree regex.now.node) }
    ensures emitted { IfOk result (StandsFor regex.now) }
    ensures of_units { IfOk result (λ compiled. compiled.units ≡ true) }
    ensures anchored { IfOk result (λ compiled. IsAnchoredOnlyIf (regex.now.flags.multiline ≡ false) compiled.start_pred) }
    ensures refused { IfErr result (MayRefuse (length_for true regex.now) (loops (tree regex.now.node))) }
{
    whole_program(alloc, regex, true)
}

/// How many groups there are, by their names. It errs with `TooLarge` past `u32::MAX`; a tree has no fewer instructions, so this
/// sets no limit of its own.
fn group_count(names: &[CaptureGroupName]) -> Result<u32, Error>
    ensures ok { IfOk result (λ n. n ≡ length names.now) }
    ensures err { IfErr result (MayRefuse (length names.now) 0) }
{
    u32::try_from(names.len()).map_err(|_| Error::TooLarge)
}

/// Where a match of a tree may begin. It errs with `OutOfMemory` alone.
fn start_of(alloc: Global, regex: &Regex, units: bool) -> Result<StartPredicate, Error>
    requires { (n : ℕ) × IsWellFormed n (tree regex.now.node) }
    ensures serves { IfOk result (Serves units (tree regex.now.node)) }
    ensures literal { IfOk result (λ start. units ≡ false → KeepsLiteral (tree regex.now.node) start) }
    ensures anchored { IfOk result (IsAnchoredOnlyIf (regex.now.flags.multiline ≡ false)) }
    ensures refused { IfErr result (λ e. e ≡ Error.OutOfMemory) }
{
    if units {
        predicate_for_units(alloc, regex)
    } else {
        predicate_for_re(alloc, regex)
    }
}

/// The program of a tree, of units or else of bytes.
fn whole_program(alloc: Global, regex: &Regex<'_>, units: bool) -> Result<CompiledRegex, Error>
    requires { (n : ℕ) × IsWellFormed n (tree regex.now.node) }
    ensures emitted { IfOk result (StandsFor regex.now) }
    ensures told { IfOk result (λ compiled. compiled.units ≡ units) }
    ensures literal { IfOk result (λ compiled. units ≡ false → KeepsLiteral (tree regex.now.node) compiled.start_pred) }
    ensures anchored { IfOk result (λ compiled. IsAnchoredOnlyIf (regex.now.flags.multiline ≡ false) compiled.start_pred) }
    ensures refused { IfErr result (MayRefuse (length_for units regex.now) (loops (tree regex.now.node))) }
{
    let emitter = Emitter {
        alloc,
        tables: regex.tables,
        unicode: regex.flags.is_unicode(),
        units,
    };
    let mut code = Code::new(alloc)?;
    emitter.node(&mut code, &regex.node, false)?;
    let names = regex.node.group_names(alloc)?;
    let groups = group_count(&names)?;
    let group_names = ArcSlice::from_vec(names)?;
    let start_pred = start_of(alloc, regex, units)?;
    let tables = regex.tables.try_clone()?;
    let plan = Plan::new(alloc, &code.insns, &code.brackets, units)?;
    let ascii = ascii_of_each(alloc, &code.brackets)?;
    Ok(CompiledRegex {
        insns: code.insns,
        brackets: code.brackets,
        ascii,
        start_pred,
        loops: u32::from(code.loops),
        groups,
        group_names,
        flags: regex.flags,
        tables,
        units,
        plan,
    })
}
