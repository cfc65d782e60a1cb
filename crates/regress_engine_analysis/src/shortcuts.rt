//! What is known of an address besides its first bytes.
ghost use Rattle.std.specs.Prelude.{◌≡◌, ◌+◌, ◌^◌, ℕ, ◌<◌, [], length, map, IfSome, OnOk};
ghost use Rattle.regress_engine_insn.specs.Instructions.{Program, Stands, alt};
ghost use Rattle.regress_engine_insn.specs.InsnViews.{instruction};
ghost use Rattle.regress_engine_analysis.specs.Planned.{IsSo, KeepsKnown, firsts, is_class};
ghost use Rattle.regress_engine_analysis.specs.Shared.{shared};

use crate::apart::are_apart;
use crate::facts::{Facts, Known, Turn};
use crate::shared::SharedFacts;
use regress_engine_insn::Insn;
use std::alloc::AllocError;

/// Whether an instruction is a class.
///
/// ```rust
/// let class = is_class(&Insn::Bracket(0)); // true
/// ```
#[inline]
pub fn is_class(insn: &Insn) -> bool
    ensures { result ≡ is_class (instruction insn.now) }
{
    matches!(insn, Insn::AsciiBracket(_) | Insn::Bracket(_))
}

/// The iterations that begin at an address with two ways, where the first one is a class and nothing else, and no match by the
/// other one or from behind the repetition may begin as the class does.
fn turn_at(insns: &[Insn], facts: &SharedFacts, at: usize, second: usize) -> Option<Turn>
    requires { at + 2 < 2 ^ 64 }
    ensures { IfSome result (λ turn. (program : Program) → program.instructions ≡ map instruction insns.now → Stands program at (alt second)
        → IsSo program (firsts (shared facts.now)) [] at (Known.Turn turn)) }
{
    if at + 2 >= insns.len() || !is_class(&insns[at + 1]) {
        return None;
    }
    let Insn::Jump { target } = &insns[at + 2] else {
        return None;
    };
    let again = *target as usize;
    if again >= insns.len() {
        return None;
    }
    let Insn::LoopAgain { begin } = &insns[again] else {
        return None;
    };
    let start = *begin as usize;
    if start >= insns.len() || start + 1 != at {
        return None;
    }
    let Insn::EnterLoop(repetition) = &insns[start] else {
        return None;
    };
    let exit = repetition.exit as usize;
    if !are_apart(facts, at + 1, second) || !are_apart(facts, at + 1, exit) {
        return None;
    }
    Some(Turn {
        begin: *begin,
        again: *target,
    })
}

/// What is known of an address besides its first bytes, by all first bytes.
fn known_at(insns: &[Insn], facts: &SharedFacts, at: usize) -> Known
    requires { at + 2 < 2 ^ 64 }
    ensures { (program : Program) → program.instructions ≡ map instruction insns.now → IsSo program (firsts (shared facts.now)) [] at result }
{
    if at >= insns.len() {
        return Known::Nothing;
    }
    match &insns[at] {
        Insn::Loop1CharBody { .. } if are_apart(facts, at + 1, at + 2) => Known::Possessive,
        Insn::Alt { secondary } => match turn_at(insns, facts, at, *secondary as usize) {
            Some(turn) => Known::Turn(turn),
            None => Known::Nothing,
        },
        _ => Known::Nothing,
    }
}

/// Adds to the facts of an address what is known besides its first bytes, by all first bytes.
pub(crate) fn add_known(
    insns: &[Insn],
    facts: &mut SharedFacts,
    at: usize,
) -> Result<(), AllocError>
    requires inside { at < length (shared facts.old) }
    requires fits { at + 2 < 2 ^ 64 }
    ensures first { OnOk result (firsts (shared facts.new) ≡ firsts (shared facts.old)) }
    ensures known { OnOk result (KeepsKnown insns.now (firsts (shared facts.old)) [] (shared facts.old) [] (shared facts.new)) }
{
    let known = known_at(insns, facts, at);
    if matches!(known, Known::Nothing) {
        return Ok(());
    }
    let first = facts.at(at).first;
    facts.put(at, Facts { first, known })
}
