//! Which addresses of a program are visited at most once.
ghost use Rattle.std.specs.Prelude.{◌≡◌, ◌+◌, ◌^◌, ◌<◌, IfOk, length, map, slice_get};
ghost use Rattle.regress_engine_insn.specs.Instructions.{Program};
ghost use Rattle.regress_engine_insn.specs.InsnViews.{instruction};
ghost use Rattle.regress_engine_linear.specs.Linear.{is_text_start, leads_back};
ghost use Rattle.regress_engine_linear.specs.LinearTests.{AreOnce};

use regress_engine_insn::Insn;
use std::alloc::{AllocError, Global};

/// Whether the program begins at the start of the text.
fn begins_at_start(insns: &[Insn]) -> bool
    ensures { result ≡ is_text_start (slice_get (map instruction insns.now) 0) }
{
    matches!(insns.first(), Some(Insn::StartOfLine { multiline: false }))
}

/// How far back an instruction at an address may lead: an iteration goes on behind where its repetition begins.
fn leads_back(at: usize, insn: &Insn) -> usize
    requires { at + 1 < 2 ^ 64 }
    ensures { result ≡ leads_back at (instruction insn.now) }
{
    match insn {
        Insn::Jump { target } => *target as usize,
        Insn::Alt { secondary } => *secondary as usize,
        Insn::EnterLoop(repetition) => repetition.exit as usize,
        Insn::LoopAgain { begin } => *begin as usize,
        Insn::Lookahead { continuation, .. }
        | Insn::Lookbehind { continuation, .. }
        | Insn::Atomic { continuation, .. } => *continuation as usize,
        _ => at + 1,
    }
}

/// For each address of a program whether it is visited at most once: a match begins at the start of the text alone, and from behind the
/// address no way leads back to it. It errs only where memory is refused.
pub(crate) fn visited_once(alloc: Global, insns: &[Insn]) -> Result<Vec<bool>, AllocError>
    ensures count { IfOk result (λ once. length once.items ≡ length insns.now) }
    ensures once { IfOk result (λ once. (program : Program) → program.instructions ≡ map instruction insns.now → AreOnce once.items program) }
{
    let starts = begins_at_start(insns);
    let mut once: Vec<bool> = Vec::new(alloc);
    once.resize(insns.len(), false)?;
    let mut back = insns.len();
    let mut at = insns.len();
    while at > 0 {
        at -= 1;
        let is_once = starts && at < back;
        once[at] = is_once;
        back = leads_back(at, &insns[at]).min(back);
    }
    Ok(once)
}
