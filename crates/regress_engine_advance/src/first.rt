//! What is taken first from an address on.
ghost use Rattle.std.specs.Prelude.{IfSome};
ghost use Rattle.regress_engine_insn.specs.InsnViews.{instruction};
ghost use Rattle.regress_engine_code.specs.Standing.{program_of};
ghost use Rattle.regress_engine_runs.specs.Closed.{IsClosed};
ghost use Rattle.regress_engine_advance.specs.First.{IsTakenFirst};

use regress_engine_code::CompiledRegex;
use regress_engine_insn::Insn;
use regress_engine_singles::takes_some;

/// What is taken at an address: the instruction there, or what a one-character loop there does at least once; `None` where
/// neither takes anything.
#[inline]
fn taken_at<'p>(program: &'p CompiledRegex, at: usize) -> Option<&'p Insn>
    requires { IsClosed (program_of program.now) }
    ensures { IfSome result (λ insn. IsTakenFirst (program_of program.now) at (instruction insn.now)) }
{
    let insns = program.insns();
    if at >= insns.len() {
        return None;
    }
    let insn = &insns[at];
    if let Insn::Loop1CharBody { min_iters, .. } = insn {
        if *min_iters == 0 || at + 1 >= insns.len() {
            return None;
        }
        return Some(&insns[at + 1]);
    }
    if takes_some(insn) {
        return Some(insn);
    }
    None
}

/// The instruction that takes a character or bytes first from an address on, also behind the end of a group or in a
/// one-character loop that is done at least once; `None` where something else is done first.
///
/// Asks that the program is closed.
///
/// ```rust
/// let taken = taken_first(&program, 0);
/// ```
#[inline]
pub fn taken_first<'p>(program: &'p CompiledRegex, at: usize) -> Option<&'p Insn>
    requires { IsClosed (program_of program.now) }
    ensures { IfSome result (λ insn. IsTakenFirst (program_of program.now) at (instruction insn.now)) }
{
    let insns = program.insns();
    if at >= insns.len() {
        return None;
    }
    if let Insn::EndCaptureGroup(_) = &insns[at] {
        return taken_at(program, at + 1);
    }
    taken_at(program, at)
}
