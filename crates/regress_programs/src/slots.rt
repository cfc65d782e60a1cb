//! Matches that are written to slots of the caller.
ghost use Rattle.std.specs.Prelude.{◌≡◌, ℕ, Some, IfErr, IfOk, IfSome, OnErr, option_copied};
ghost use Rattle.regress_meaning.specs.Offsets.{Begins};
ghost use Rattle.regress_front.specs.Trees.{Tree};
ghost use Rattle.regress_match.specs.Slots.{Fills};
ghost use Rattle.regress_engine_search.specs.Search.{IsMadeOf};
ghost use Rattle.regress_engine_exec.specs.Searches.{budget_of, turns_in};
ghost use Rattle.regress_engine_exec.specs.Turned.{NeverOver, TellsLinear};
ghost use Rattle.regress_engine_code.specs.Standing.{program_of, target_of};
ghost use Rattle.regress_engine_input.specs.Views.{reading_of};
ghost use Rattle.regress_programs.specs.declared.slots.Anchored.TheVariants.{Yes};
ghost use Rattle.regress_programs.specs.Counting.{Counts, Stops};
ghost use Rattle.regress_programs.specs.Programs.{IsLaidOutFrom};
ghost use Rattle.regress_programs.specs.Filling.{SlotsAreAtPlaces, first_told};

use regress_engine_code::CompiledRegex;
use regress_engine_exec::{Backtracker, Scratch, SearchBudget};
use regress_engine_linear::LinearTable;
use regress_engine_search::{ExecutorInput, Unbounded};
use regress_match::Range;
use std::alloc::{AllocError, Global};
use std::mem;

/// Whether a match has to begin where the search does.
#[derive(Debug, Clone, Copy)]
pub enum Anchored {
    /// It may begin at any place from there on.
    No,
    /// It has to, as under the flag `y`.
    Yes,
}

/// The first match that an executor finds from an offset on, or the one that begins there, written to slots as `find_into` writes it;
/// none past the end. So one executor serves many searches of its text.
///
/// Asks that the executor's program is made for its input, and that a search may begin at the offset. Errs as the executor does, and then
/// the slots stay as they were.
///
/// ```rust
/// let mut executor = BacktrackExecutor::new(alloc, &program, "aab");
/// let found = next_into(&mut executor, Anchored::No, 0, &mut slots)?;
/// ```
pub fn next_into<Input: ExecutorInput, B: SearchBudget>(
    executor: &mut Backtracker<'_, Input, B>,
    anchored: Anchored,
    start: usize,
    slots: &mut [Option<Range>],
) -> Result<Option<Range>, B::Error>
    requires made { IsMadeOf executor.old.context.program.now (Input.view executor.old.context.input) }
    requires start { (place : ℕ) × Begins (reading_of (Input.view executor.old.context.input)) start place }
    ensures of_tree { (n : ℕ) → (t : Tree) → IsLaidOutFrom (target_of executor.old.context.program.now) n t →
        (place : ℕ) → Begins (reading_of (Input.view executor.old.context.input)) start place →
        IfOk result (λ found. Fills (first_told anchored executor.old.context.program.now (reading_of (Input.view executor.old.context.input)) n t place) found slots.old slots.new) }
    ensures begins { anchored ≡ Yes → IfOk result (λ found. IfSome found (λ r. r.start ≡ start)) }
    ensures inside { IfOk result (λ found. SlotsAreAtPlaces (reading_of (Input.view executor.old.context.input)) found slots.new) }
    ensures untouched { OnErr result (slots.new ≡ slots.old) }
    ensures never { IfErr result (NeverOver B.is_over (turns_in executor.old)) }
    ensures stopped { IfErr result (λ e. B.is_over e →
        Counts anchored executor.old.context.program.now (Input.view executor.old.context.input) start (B.left (budget_of executor.old)) (Some 0)) }
    ensures kept { executor.new.context ≡ executor.old.context }
{
    let Some(position) = executor.initial_position(start) else {
        return Ok(None);
    };
    match anchored {
        Anchored::No => executor.find_into(position, slots),
        Anchored::Yes => executor.match_into(position, slots),
    }
}

/// The first match of a program from an offset of an input on, or the one that begins there, within a budget of steps, written to
/// slots; none past the input's end. The room that the search needs is that of the scratch.
///
/// Asks what `first_within` asks. Errs where memory is refused, and where the runs of the search take all steps of the budget or more, as
/// `first_within` does; the slots then stay as they were.
///
/// ```rust
/// let input = Utf8Input::new("aab", false, program.tables());
/// let found = find_into_within(alloc, &mut scratch, &program, None, input, Anchored::No, 0, Unbounded, &mut slots)?;
/// ```
pub fn find_into_within<Input: ExecutorInput, B: SearchBudget>(
    alloc: Global,
    scratch: &mut Scratch,
    program: &CompiledRegex,
    table: Option<&LinearTable>,
    input: Input,
    anchored: Anchored,
    start: usize,
    budget: B,
    slots: &mut [Option<Range>],
) -> Result<Option<Range>, B::Error>
    requires made { IsMadeOf program.now (Input.view input) }
    requires linear { TellsLinear (program_of program.now) (option_copied table) }
    requires start { (place : ℕ) × Begins (reading_of (Input.view input)) start place }
    ensures of_tree { (n : ℕ) → (t : Tree) → IsLaidOutFrom (target_of program.now) n t →
        (place : ℕ) → Begins (reading_of (Input.view input)) start place →
        IfOk result (λ found. Fills (first_told anchored program.now (reading_of (Input.view input)) n t place) found slots.old slots.new) }
    ensures begins { anchored ≡ Yes → IfOk result (λ found. IfSome found (λ r. r.start ≡ start)) }
    ensures inside { IfOk result (λ found. SlotsAreAtPlaces (reading_of (Input.view input)) found slots.new) }
    ensures untouched { OnErr result (slots.new ≡ slots.old) }
    ensures stopped { IfErr result (λ e. B.is_over e → Stops (option_copied table.entry) anchored program.now (Input.view input) start (B.left budget)) }
{
    let lent = mem::replace(scratch, Scratch::new(alloc));
    let mut executor = Backtracker::with_budget(alloc, program, table, input, lent, budget);
    let found = next_into(&mut executor, anchored, start, slots);
    *scratch = executor.into_scratch();
    found
}

/// The first match of a program from an offset of an input on, or the one that begins there, written to slots; none past the
/// input's end. The room that the search needs is that of the scratch.
///
/// Asks that the program is made for the input, and that a search may begin at the offset. Errs where memory is refused alone.
///
/// ```rust
/// let input = Utf8Input::new("aab", false, program.tables());
/// let found = find_into(alloc, &mut scratch, &program, input, Anchored::No, 0, &mut slots)?;
/// ```
pub fn find_into<Input: ExecutorInput>(
    alloc: Global,
    scratch: &mut Scratch,
    program: &CompiledRegex,
    input: Input,
    anchored: Anchored,
    start: usize,
    slots: &mut [Option<Range>],
) -> Result<Option<Range>, AllocError>
    requires made { IsMadeOf program.now (Input.view input) }
    requires start { (place : ℕ) × Begins (reading_of (Input.view input)) start place }
    ensures of_tree { (n : ℕ) → (t : Tree) → IsLaidOutFrom (target_of program.now) n t →
        (place : ℕ) → Begins (reading_of (Input.view input)) start place →
        IfOk result (λ found. Fills (first_told anchored program.now (reading_of (Input.view input)) n t place) found slots.old slots.new) }
    ensures begins { anchored ≡ Yes → IfOk result (λ found. IfSome found (λ r. r.start ≡ start)) }
    ensures inside { IfOk result (λ found. SlotsAreAtPlaces (reading_of (Input.view input)) found slots.new) }
    ensures untouched { OnErr result (slots.new ≡ slots.old) }
{
    find_into_within(
        alloc, scratch, program, None, input, anchored, start, Unbounded, slots,
    )
}
