//! Addresses from which surely no match can be reached, since what is taken there doesn't stand.
ghost use Rattle.std.specs.Prelude.{◌≡◌, ℕ, true, Some};
ghost use Rattle.regress_meaning.specs.Meaning.{Forward as ahead, Backward as backward};
ghost use Rattle.regress_engine_code.specs.Standing.{program_of};
ghost use Rattle.regress_engine_input.specs.Views.{View, AreOfKind, direction_of, input_of};
ghost use Rattle.regress_engine_search.specs.Search.{Suits};
ghost use Rattle.regress_engine_singles.specs.Failing.{IsDead};
ghost use Rattle.regress_engine_singles.specs.Leads.{lead_ahead};

use crate::leads::lead_ahead;
use crate::literals::bytes_beside;
use regress_engine_code::CompiledRegex;
use regress_engine_input::InputIndexer;
use regress_engine_insn::bytes_of;

/// Whether surely no match can be reached from an address on, read forward, where the character ahead begins with this byte, in
/// each text that the program suits.
///
/// ```rust
/// let dead = is_dead_ahead(&program, 0, b'a');
/// ```
#[inline(always)]
pub fn is_dead_ahead(program: &CompiledRegex, at: usize, byte: u8) -> bool
    ensures { (v : View) (o : ℕ) → AreOfKind v.kind v.units → Suits (program_of program.now) v → Some byte ≡ lead_ahead v o → result ≡ true
        → IsDead (program_of program.now) (input_of v) ahead at o }
{
    program.cannot_begin_with(at, byte)
}

/// Whether surely no match can be reached from an address on, read backward: the bytes taken there don't stand before an offset.
///
/// Asks that the program suits the text.
///
/// ```rust
/// let dead = is_dead_behind(&program, &input, 0, 1);
/// ```
#[inline]
pub fn is_dead_behind<Input: InputIndexer>(
    program: &CompiledRegex,
    input: &Input,
    at: usize,
    offset: usize,
) -> bool
    requires { Suits (program_of program.now) (Input.view input.now) }
    ensures { result ≡ true → IsDead (program_of program.now) (input_of (Input.view input.now)) backward at offset }
{
    let insns = program.insns();
    if at >= insns.len() {
        return false;
    }
    let bytes = bytes_of(&insns[at]);
    if bytes.is_empty() {
        return false;
    }
    bytes_beside(input, false, offset, bytes).is_none()
}

/// Whether surely no match can be reached from an address on, by what stands beside an offset, forward or backward.
///
/// Asks that the program suits the text.
///
/// ```rust
/// let dead = is_dead(&program, &input, 0, true, 1);
/// ```
#[inline]
pub fn is_dead<Input: InputIndexer>(
    program: &CompiledRegex,
    input: &Input,
    at: usize,
    forward: bool,
    offset: usize,
) -> bool
    requires { Suits (program_of program.now) (Input.view input.now) }
    ensures { result ≡ true → IsDead (program_of program.now) (input_of (Input.view input.now)) (direction_of forward) at offset }
{
    if !forward {
        return is_dead_behind(program, input, at, offset);
    }
    match lead_ahead(input, offset) {
        Some(byte) => is_dead_ahead(program, at, byte),
        None => false,
    }
}
