//! Laws of programs that are ranked, each the contract of a function with an empty body.
ghost use Rattle.std.specs.Prelude.{◌≡◌, ℕ, true, Bool, [], ◌∷◌, List, Option, length};
ghost use Rattle.std.specs.List.{AllByRecursion};
ghost use Rattle.regress_meaning.specs.Meaning.{Direction};
ghost use Rattle.regress_engine_input.specs.Views.{AreOfKind, View, input_of, reading_of};
ghost use Rattle.regress_engine_insn.specs.Instructions.{Instruction, Program, Stands};
ghost use Rattle.regress_engine_runs.specs.Meets.{Meets, reads_character, ReadsPlaces};
ghost use Rattle.regress_engine_runs.specs.Runs.{Run, is_plain, successors};
ghost use Rattle.regress_engine_runs.specs.States.{Marks, Whole};
ghost use Rattle.regress_engine_runs.specs.UndoStack.{Fails, whole};
ghost use Rattle.regress_engine_search.specs.Search.{Suits};
ghost use Rattle.regress_engine_memory.specs.Agreeing.{EndAlike};
ghost use Rattle.regress_engine_memory.specs.Flow.{Flow, IsFlow};
ghost use Rattle.regress_engine_linear.specs.Answered.{IsAnswered, one_answers};
ghost use Rattle.regress_engine_linear.specs.Ranks.{AllBeside, AreRanked, AreRunning, AreUnboundedOrOnce, FailsAnyhow, IsBeyond, Ranking};

/// Loops that are under way in a state are so in each state that its instruction leads to.
pub fn running_states_lead_on()
    ensures { (flow : Flow) → (r : Ranking) → (v : View) → AreOfKind v.kind v.units → (program : Program) → Suits program v → IsFlow flow program → AreRanked flow r program
        → (dir : Direction) → (s : Whole) → (i : Instruction) → AreRunning flow r program (length v.units) dir s → Stands program s.at i → is_plain i ≡ true
        → (reads_character i ≡ true → ReadsPlaces (reading_of v) i s) → AllByRecursion (AreRunning flow r program (length v.units) dir) (successors program (input_of v) i dir s) }
{}

/// States at one address and offset in which all live loops are under way run alike: in as many steps, and to answers at one offset, or both
/// to none.
pub fn running_states_run_alike()
    ensures { (flow : Flow) → (r : Ranking) → (v : View) → AreOfKind v.kind v.units → (program : Program) → Suits program v → IsFlow flow program → AreRanked flow r program
        → AreUnboundedOrOnce (length v.units) program → (dir : Direction) → (ts : List Whole) → (n : ℕ) → (a : Option Whole) → Run program (input_of v) dir ts n a
        → ((u : Whole) → (i : Instruction) → Meets program (input_of v) dir ts u → Stands program u.at i → reads_character i ≡ true → ReadsPlaces (reading_of v) i u)
        → (ss : List Whole) → AllBeside flow r program (length v.units) dir ss ts → (q : Option Whole) × Run program (input_of v) dir ss n q × EndAlike q a }
{}

/// Each state that an instruction leads to is beyond: further on in the text, or at an address of lower rank. So no run comes back to
/// where it was.
pub fn runs_go_beyond()
    ensures { (flow : Flow) → (r : Ranking) → (v : View) → AreOfKind v.kind v.units → (program : Program) → Suits program v → IsFlow flow program → AreRanked flow r program
        → (dir : Direction) → (s : Whole) → (i : Instruction) → flow.calm s.at ≡ true → Stands program s.at i → is_plain i ≡ true
        → (reads_character i ≡ true → ReadsPlaces (reading_of v) i s) → AllByRecursion (IsBeyond r (length v.units) dir s) (successors program (input_of v) i dir s) }
{}

/// What has no answer once has none whatever the groups are, and whatever the loops that are under way.
pub fn running_failures_forget()
    ensures { (flow : Flow) → (r : Ranking) → (v : View) → AreOfKind v.kind v.units → (program : Program) → Suits program v → IsFlow flow program → AreRanked flow r program
        → AreUnboundedOrOnce (length v.units) program → (dir : Direction) → (at o : ℕ) → (loops : List (ℕ × ℕ)) → (groups : List Marks)
        → AreRunning flow r program (length v.units) dir (whole at o loops groups)
        → ((u : Whole) → (i : Instruction) → Meets program (input_of v) dir (whole at o loops groups ∷ []) u → Stands program u.at i → reads_character i ≡ true → ReadsPlaces (reading_of v) i u)
        → Fails program (input_of v) dir (whole at o loops groups ∷ []) → FailsAnyhow flow r program (input_of v) (length v.units) dir at o }
{}

/// Of an address and an offset it is told whether runs have an answer by what is told of those to which its instruction leads.
pub fn answers_are_told_by_those_ahead()
    ensures { (flow : Flow) → (r : Ranking) → (v : View) → AreOfKind v.kind v.units → (program : Program) → Suits program v → IsFlow flow program → AreRanked flow r program
        → (dir : Direction) → (told : ℕ → ℕ → Bool) → (at o : ℕ) → (i : Instruction) → (b : Bool) → Stands program at i → is_plain i ≡ true
        → ((loops : List (ℕ × ℕ)) → (groups : List Marks) → AreRunning flow r program (length v.units) dir (whole at o loops groups)
        → AllByRecursion (λ u. IsAnswered flow r program v dir u.at u.offset (told u.at u.offset)) (successors program (input_of v) i dir (whole at o loops groups))
        × (one_answers told (successors program (input_of v) i dir (whole at o loops groups)) ≡ b))
        → IsAnswered flow r program v dir at o b }
{}
