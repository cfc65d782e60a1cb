//! What need not be tried, since it is known of the program that it leads nowhere.
ghost use Rattle.std.specs.Prelude.{◌≡◌, ◌+◌, ℕ, true, IfSome};
ghost use Rattle.regress_engine_analysis.specs.Planned.{is_class};
ghost use Rattle.regress_engine_code.specs.Standing.{program_of};
ghost use Rattle.regress_engine_input.specs.Views.{View, AreOfKind};
ghost use Rattle.regress_engine_insn.specs.Instructions.{Instruction, LoopFields, Stands, alt};
ghost use Rattle.regress_engine_runs.specs.Closed.{takes_character};
ghost use Rattle.regress_engine_search.specs.Search.{Suits};
ghost use Rattle.regress_engine_singles.specs.Sparing.{IsDeadBefore, IsTurn};

use regress_engine_analysis::{Known, Turn};
use regress_engine_code::CompiledRegex;

/// Whether a one-character loop at an address surely gives nothing back, read forward: where the character is taken that it
/// repeats, no match can be reached from behind it.
///
/// ```rust
/// let possessive = is_possessive(&program, 0);
/// ```
#[inline(always)]
pub fn is_possessive(program: &CompiledRegex, at: usize) -> bool
    ensures { (v : View) → AreOfKind v.kind v.units → Suits (program_of program.now) v → result ≡ true → (i : Instruction) → Stands (program_of program.now) (at + 1) i
        → takes_character i ≡ true → IsDeadBefore (program_of program.now) v i (at + 2) }
{
    matches!(program.known(at), Known::Possessive)
}

/// The iterations that begin at an address with two ways, where the first is a class and nothing else, and where that takes a
/// character surely no match can be reached by the other one, read forward, nor behind the repetition.
///
/// ```rust
/// let turn = turn_at(&program, 1);
/// ```
#[inline(always)]
pub fn turn_at(program: &CompiledRegex, at: usize) -> Option<Turn>
    ensures class { IfSome result (λ turn. (i : Instruction) × Stands (program_of program.now) (at + 1) i × (is_class i ≡ true)) }
    ensures turn { IfSome result (λ turn. (v : View) → AreOfKind v.kind v.units → Suits (program_of program.now) v → (second : ℕ) → Stands (program_of program.now) at (alt second)
        → (i : Instruction) × (f : LoopFields) × IsTurn (program_of program.now) v at second turn.begin turn.again i f) }
{
    match program.known(at) {
        Known::Turn(turn) => Some(turn),
        _ => None,
    }
}
