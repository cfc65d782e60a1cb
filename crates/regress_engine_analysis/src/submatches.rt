//! Whether a program has submatches: lookarounds and atomic groups.
ghost use Rattle.std.specs.Prelude.{◌≡◌};
ghost use Rattle.regress_engine_insn.specs.InsnViews.{instruction};
ghost use Rattle.regress_engine_analysis.specs.Submatches.{begins_submatch, has_submatches};

use regress_engine_insn::Insn;

/// Whether a lookaround or an atomic group begins with an instruction.
fn begins_submatch(insn: &Insn) -> bool
    ensures { result ≡ begins_submatch (instruction insn.now) }
{
    matches!(
        insn,
        Insn::Lookahead { .. } | Insn::Lookbehind { .. } | Insn::Atomic { .. }
    )
}

/// Whether one begins with any of some instructions.
pub(crate) fn has_submatches(insns: &[Insn]) -> bool
    ensures { result ≡ has_submatches insns.now }
{
    insns.iter().any(begins_submatch)
}
