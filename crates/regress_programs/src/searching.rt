//! One search for a match.
ghost use Rattle.std.specs.Prelude.{◌≡◌, ℕ, Some, IfErr, IfOk, IfSome, option_copied, option_map};
ghost use Rattle.regress_meaning.specs.Offsets.{Begins};
ghost use Rattle.regress_front.specs.Trees.{Tree};
ghost use Rattle.regress_match.specs.GroupViews.{names_of_match};
ghost use Rattle.regress_match.specs.Views.{item_of};
ghost use Rattle.regress_engine_search.specs.Search.{IsMadeOf, IsItemAtPlaces};
ghost use Rattle.regress_engine_exec.specs.Searches.{budget_of, turns_in};
ghost use Rattle.regress_engine_exec.specs.Turned.{NeverOver, TellsLinear};
ghost use Rattle.regress_engine_code.specs.Standing.{names_of, program_of, target_of};
ghost use Rattle.regress_engine_input.specs.Views.{reading_of};
ghost use Rattle.regress_programs.specs.declared.slots.Anchored.TheVariants.{Yes};
ghost use Rattle.regress_programs.specs.Counting.{Counts, Stops};
ghost use Rattle.regress_programs.specs.Filling.{first_told};
ghost use Rattle.regress_programs.specs.Programs.{IsLaidOutFrom};

use crate::slots::Anchored;
use regress_engine_code::CompiledRegex;
use regress_engine_exec::{Backtracker, Scratch, SearchBudget};
use regress_engine_linear::LinearTable;
use regress_engine_search::ExecutorInput;
use regress_match::Match;
use std::alloc::Global;

/// The first match that an executor finds from an offset on, or the one that begins there; none past the end.
fn first_of<Input: ExecutorInput, B: SearchBudget>(
    executor: &mut Backtracker<'_, Input, B>,
    anchored: Anchored,
    start: usize,
) -> Result<Option<Match>, B::Error>
    requires made { IsMadeOf executor.old.context.program.now (Input.view executor.old.context.input) }
    requires start { (place : ℕ) × Begins (reading_of (Input.view executor.old.context.input)) start place }
    ensures of_tree { (n : ℕ) → (t : Tree) → IsLaidOutFrom (target_of executor.old.context.program.now) n t →
        (place : ℕ) → Begins (reading_of (Input.view executor.old.context.input)) start place →
        IfOk result (λ found. option_map item_of found ≡ first_told anchored executor.old.context.program.now (reading_of (Input.view executor.old.context.input)) n t place) }
    ensures begins { anchored ≡ Yes → IfOk result (λ found. IfSome found (λ m. m.range.start ≡ start)) }
    ensures inside { IfOk result (λ found. IfSome found (λ m. IsItemAtPlaces (reading_of (Input.view executor.old.context.input)) (item_of m))) }
    ensures named { IfOk result (λ found. IfSome found (λ m. names_of_match m ≡ names_of executor.old.context.program.now)) }
    ensures never { IfErr result (NeverOver B.is_over (turns_in executor.old)) }
    ensures stopped { IfErr result (λ e. B.is_over e →
        Counts anchored executor.old.context.program.now (Input.view executor.old.context.input) start (B.left (budget_of executor.old)) (Some 0)) }
{
    let Some(position) = executor.initial_position(start) else {
        return Ok(None);
    };
    match anchored {
        Anchored::No => executor.find_from(position),
        Anchored::Yes => executor.match_at(position),
    }
}

/// The first match of a program from an offset of an input on, or the one that begins there ("RegExpBuiltinExec"), within a budget of
/// steps; none past the input's end.
///
/// Asks that the program is made for the input, that it is linear by its table, if one is given, and that a search may begin at the offset.
/// Errs where memory is refused, and where the runs of the search take all steps of the budget or more: not where the program is linear and
/// the budget has enough steps (`linear_steps`), since the search then turns to a table of the text.
///
/// ```rust
/// let input = Utf8Input::new("aab", false, program.tables());
/// let found = first_within(alloc, &program, None, input, Anchored::No, 0, Unbounded)?;
/// ```
pub fn first_within<Input: ExecutorInput, B: SearchBudget>(
    alloc: Global,
    program: &CompiledRegex,
    table: Option<&LinearTable>,
    input: Input,
    anchored: Anchored,
    start: usize,
    budget: B,
) -> Result<Option<Match>, B::Error>
    requires made { IsMadeOf program.now (Input.view input) }
    requires linear { TellsLinear (program_of program.now) (option_copied table) }
    requires start { (place : ℕ) × Begins (reading_of (Input.view input)) start place }
    ensures of_tree { (n : ℕ) → (t : Tree) → IsLaidOutFrom (target_of program.now) n t →
        (place : ℕ) → Begins (reading_of (Input.view input)) start place →
        IfOk result (λ found. option_map item_of found ≡ first_told anchored program.now (reading_of (Input.view input)) n t place) }
    ensures begins { anchored ≡ Yes → IfOk result (λ found. IfSome found (λ m. m.range.start ≡ start)) }
    ensures inside { IfOk result (λ found. IfSome found (λ m. IsItemAtPlaces (reading_of (Input.view input)) (item_of m))) }
    ensures named { IfOk result (λ found. IfSome found (λ m. names_of_match m ≡ names_of program.now)) }
    ensures stopped { IfErr result (λ e. B.is_over e → Stops (option_copied table.entry) anchored program.now (Input.view input) start (B.left budget)) }
{
    let scratch = Scratch::new(alloc);
    let mut executor = Backtracker::with_budget(alloc, program, table, input, scratch, budget);
    first_of(&mut executor, anchored, start)
}
