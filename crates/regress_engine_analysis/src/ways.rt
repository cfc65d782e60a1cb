//! Where it goes on from several ways, by the character of ASCII ahead.
ghost use Rattle.std.specs.Prelude.{◌≡◌, ◌^◌, ℕ, ◌<◌, not, [], length, map, IfOk, IfSome, OnOk};
ghost use Rattle.regress_engine_insn.specs.Instructions.{Program};
ghost use Rattle.regress_engine_insn.specs.InsnViews.{instruction};
ghost use Rattle.regress_engine_analysis.specs.MayBegin.{may_begin_with};
ghost use Rattle.regress_engine_analysis.specs.Planned.{KeepsKnown, firsts};
ghost use Rattle.regress_engine_analysis.specs.Shared.{shared};
ghost use Rattle.regress_engine_analysis.specs.Ways.{AreWays, second_at, way_before};

use crate::facts::{Facts, Known};
use crate::shared::SharedFacts;
use regress_engine_insn::Insn;
use std::alloc::{AllocError, Global};

/// At most so many addresses of a program have a table: what they take is so bounded.
const MOST_TABLES: usize = 64;

/// Where it goes on from an address, for each character of ASCII ahead.
#[derive(Clone, Copy, Debug)]
pub(crate) struct Ways(pub(crate) [u32; 128]);

/// The second way of two at an address, where two begin there, and that lies behind.
fn second_of(insns: &[Insn], at: usize) -> Option<usize>
    ensures told { (program : Program) → program.instructions ≡ map instruction insns.now → result ≡ second_at program at }
    ensures inside { IfSome result (λ second. at < length insns.now) }
    ensures behind { IfSome result (λ second. at < second) }
    ensures fits { IfSome result (λ second. second < 2 ^ 32) }
{
    if at >= insns.len() {
        return None;
    }
    match &insns[at] {
        Insn::Alt { secondary } if at < *secondary as usize => Some(*secondary as usize),
        _ => None,
    }
}

/// Whether surely no match can be reached from an address on where a byte stands ahead.
fn is_dead(facts: &SharedFacts, at: usize, byte: u8) -> bool
    ensures { result ≡ not (may_begin_with (firsts (shared facts.now)) at byte) }
{
    at < facts.len() && !facts.at(at).first.contains(byte)
}

/// Where it goes on from an address where a byte stands ahead: as long as one of two ways surely leads nowhere, by the other. It is a
/// call, so that no search makes room for it.
#[inline(never)]
pub(crate) fn way_ahead(insns: &[Insn], facts: &SharedFacts, start: usize, byte: u8) -> usize
    ensures told { (program : Program) → program.instructions ≡ map instruction insns.now
        → result ≡ way_before program (firsts (shared facts.now)) byte start }
    ensures fits { start < 2 ^ 32 → result < 2 ^ 32 }
{
    let mut at = start;
    'ways: while let Some(second) = second_of(insns, at) {
        if is_dead(facts, at + 1, byte) {
            at = second;
            continue;
        }
        if !is_dead(facts, second, byte) {
            break;
        }
        at += 1;
    }
    at
}

/// The last address with two ways to which the second ways lead from one.
fn last_of(insns: &[Insn], start: usize) -> usize
    ensures { start < length insns.now → result < length insns.now }
{
    let mut at = start;
    'ways: while let Some(second) = second_of(insns, at) {
        let Some(_) = second_of(insns, second) else {
            break;
        };
        at = second;
    }
    at
}

/// The table of an address.
fn table_of(insns: &[Insn], facts: &SharedFacts, at: usize) -> Ways
    requires { at < 2 ^ 32 }
    ensures { (program : Program) → program.instructions ≡ map instruction insns.now → AreWays program (firsts (shared facts.now)) at result }
{
    let mut table = [0; 128];
    for byte in 0..128 {
        table[byte] = way_ahead(insns, facts, at, byte as u8) as u32;
    }
    Ways(table)
}

/// Gives an address a table, where nothing is known of it besides its first bytes.
fn add_table(
    insns: &[Insn],
    facts: &mut SharedFacts,
    tables: &mut Vec<Ways>,
    at: usize,
) -> Result<(), AllocError>
    requires inside { at < length (shared facts.old) }
    requires fits { at < 2 ^ 32 }
    requires few { length tables.old.items < 2 ^ 32 }
    ensures first { OnOk result (firsts (shared facts.new) ≡ firsts (shared facts.old)) }
    ensures known { OnOk result (KeepsKnown insns.now (firsts (shared facts.old)) tables.old.items (shared facts.old)
        tables.new.items (shared facts.new)) }
{
    if !matches!(facts.at(at).known, Known::Nothing) {
        return Ok(());
    }
    let first = facts.at(at).first;
    let known = Known::Ways(tables.len() as u32);
    let table = table_of(insns, facts, at);
    tables.push(table)?;
    facts.put(at, Facts { first, known })
}

/// Gives addresses where ways part tables, the first few of them that none of another leads to, and answers these. It errs where
/// memory is refused.
pub(crate) fn add_ways(
    alloc: Global,
    insns: &[Insn],
    facts: &mut SharedFacts,
) -> Result<Vec<Ways>, AllocError>
    requires { length (shared facts.old) ≡ length insns.now }
    ensures first { IfOk result (λ tables. firsts (shared facts.new) ≡ firsts (shared facts.old)) }
    ensures known { IfOk result (λ tables. KeepsKnown insns.now (firsts (shared facts.old)) [] (shared facts.old)
        tables.items (shared facts.new)) }
{
    let mut tables = Vec::new(alloc);
    let mut from = 0;
    for at in 0..insns.len() {
        if at < from || tables.len() >= MOST_TABLES {
            continue;
        }
        let Some(_) = second_of(insns, at) else {
            continue;
        };
        from = last_of(insns, at) + 1;
        add_table(insns, facts, &mut tables, at)?;
    }
    Ok(tables)
}
