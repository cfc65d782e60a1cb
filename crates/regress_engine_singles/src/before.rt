//! How far characters are taken before a byte stands.
ghost use Rattle.std.specs.Prelude.{◌≡◌, ◌==◌, ℕ, suc, ◌-◌, ◌<◌, ◌≤◌, false, List, slice_index, Some};
ghost use Rattle.regress_meaning.specs.Meaning.{Forward as ahead};
ghost use Rattle.regress_engine_input.specs.Views.{input_of, CanRead};
ghost use Rattle.regress_engine_insn.specs.Instructions.{Program};
ghost use Rattle.regress_engine_insn.specs.InsnViews.{instruction};
ghost use Rattle.regress_engine_runs.specs.States.{Marks};
ghost use Rattle.regress_engine_runs.specs.Runs.{advance};
ghost use Rattle.regress_engine_singles.specs.Passing.{IsAsciiAhead};

use crate::ascii::{AllBut, ascii_end};
use regress_engine_input::InputIndexer;
use regress_engine_insn::Insn;

/// An offset up to which an instruction takes characters of ASCII ahead of one, one after another, at most so many, none of which
/// is a byte; the offset itself where that is not told.
///
/// Asks that characters may be read from the offset on.
///
/// ```rust
/// let near = taken_before(&input, &Insn::MatchAnyExceptLineTerminator, b'<', usize::MAX, 0);
/// ```
pub fn taken_before<Input: InputIndexer>(
    input: &Input,
    insn: &Insn,
    byte: u8,
    times: usize,
    offset: usize,
) -> usize
    requires { CanRead (Input.view input.now) offset }
    ensures low { offset ≤ result }
    ensures high { result - offset ≤ times }
    ensures each { (program : Program) (groups : List Marks) (k : ℕ) → offset ≤ k → k < result
        → Some (suc k) ≡ advance program (input_of (Input.view input.now)) (instruction insn.now) ahead groups k }
    ensures other { (k : ℕ) → offset ≤ k → k < result → (slice_index (Input.view input.now).units k == byte) ≡ false }
    ensures ascii { (k : ℕ) → offset ≤ k → k < result → IsAsciiAhead (Input.view input.now) k }
{
    match insn {
        Insn::MatchAnyExceptLineTerminator => {
            let stops = [0x0A, 0x0D, byte];
            ascii_end(input, &AllBut { stops }, times, offset)
        }
        _ => offset,
    }
}
