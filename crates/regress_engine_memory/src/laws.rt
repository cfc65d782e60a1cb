//! Laws of failures, each the contract of a function with an empty body.
ghost use Rattle.std.specs.Prelude.{◌≡◌, ◌<◌, ℕ, true, false, [], ◌∷◌, List, None, Some, Option, All, length};
ghost use Rattle.regress_meaning.specs.Meaning.{Direction};
ghost use Rattle.regress_meaning.specs.Inputs.{Input};
ghost use Rattle.regress_engine_input.specs.Views.{AreOfKind, View, direction_of, input_of};
ghost use Rattle.regress_engine_insn.specs.Instructions.{Instruction, Program};
ghost use Rattle.regress_engine_runs.specs.Meets.{referred};
ghost use Rattle.regress_engine_runs.specs.Runs.{Run, advance, room};
ghost use Rattle.regress_engine_runs.specs.States.{Marks, Whole};
ghost use Rattle.regress_engine_runs.specs.UndoStack.{Fails, Work, at_each, tried, whole};
ghost use Rattle.regress_engine_search.specs.Search.{Suits};
ghost use Rattle.regress_engine_search.specs.Tasks.{IsTried, Leads};
ghost use Rattle.regress_engine_undo.specs.Held.{Held, pushed};
ghost use Rattle.regress_engine_undo.specs.Tasks.{task};
ghost use Rattle.regress_engine_undo.specs.declared.undo.Spot.{Spot};
ghost use Rattle.regress_engine_memory.specs.Agreeing.{AgreeAll, EndAlike};
ghost use Rattle.regress_engine_memory.specs.Deciding.{Table, flow_of, is_flow};
ghost use Rattle.regress_engine_memory.specs.Flow.{Flow, IsFlow};
ghost use Rattle.regress_engine_memory.specs.Held.{FailsHere, FailsIfFree};
ghost use Rattle.regress_engine_memory.specs.Keys.{AllFail, AreFree, ExitsFail, FailsAt, FailsWhere, HaveKey, IsSteady, Key, Keyed};
ghost use Rattle.regress_engine_memory.specs.Needs.{are_needs, need};
ghost use Rattle.regress_engine_memory.specs.Under.{AreUnder};

/// A table that passes its test tells what is so of the program.
pub fn tables_are_tested()
    ensures { (t : Table) → (program : Program) → is_flow t program ≡ true → IsFlow (flow_of t) program }
{}

/// States that agree run alike: in as many steps, and to answers at one offset, or both to none.
pub fn agreeing_states_run_alike()
    ensures { (flow : Flow) → (program : Program) → (input : Input) → IsFlow flow program → (dir : Direction) → (ss ts : List Whole) → AgreeAll flow ss ts
        → (n : ℕ) → (r : Option Whole) → Run program input dir ts n r → (q : Option Whole) × Run program input dir ss n q × EndAlike q r }
{}

/// States that are under some that have no answer have none, where each state that is met leads only onward.
pub fn states_under_failures_fail()
    ensures { (flow : Flow) → (last : ℕ) → (program : Program) → (input : Input) → IsFlow flow program → (dir : Direction) → (ts : List Whole)
        → Fails program input dir ts → IsSteady program input last dir ts → (ss : List Whole) → AreUnder flow last dir ss ts → Fails program input dir ss }
{}

/// A state has no answer, and its loops show that none with its key may do more in which some of them are fresh: then none of these has
/// an answer, whatever groups and loops it holds.
pub fn failures_forget()
    ensures { (keyed : Keyed) → (program : Program) → (input : Input) → IsFlow keyed.flow program → (k : Key) → keyed.flow.calm k.at ≡ true
        → (last : ℕ) → (fresh : List ℕ) → (loops : List (ℕ × ℕ)) → (groups : List Marks) → length loops ≡ program.loops → AreFree keyed last fresh k loops
        → IsSteady program input last k.dir (whole k.at k.offset loops groups ∷ []) → Fails program input k.dir (whole k.at k.offset loops groups ∷ [])
        → FailsWhere program input keyed fresh k }
{}

/// The record of what is tried may be pushed beneath the ways of a state.
pub fn tried_states_are_recorded()
    ensures { (program : Program) → (input : Input) → (p : Spot) → (h : Held)
        → Leads program input 0 (task program input true p h) (task program input true p (pushed (tried p.at p.offset) h)) }
{}

/// Where the record of a state that was tried is popped, no run from its address and its offset has an answer, if the loops that are
/// held show that no state with their classes may do more.
pub fn failures_are_learned()
    ensures { (v : View) → AreOfKind v.kind v.units → (program : Program) → Suits program v → (keyed : Keyed) → IsFlow keyed.flow program
        → (p s : Spot) → (h : Held) → p.forward ≡ s.forward → length h.loops ≡ program.loops
        → (n : ℕ) → (r : Option Whole) → IsTried program v n r (task program (input_of v) false p (pushed (tried s.at s.offset) h))
        → FailsIfFree program (input_of v) keyed (length v.units) s h.loops }
{}

/// A state of which the key is known to fail leads to what is left to be done, in fewer steps; and what a one-character loop gives
/// back or takes on does, where all of it is known to fail.
pub fn known_failures_are_dropped()
    ensures state { (program : Program) → (input : Input) → (p : Spot) → (h : Held) → (keyed : Keyed)
        → FailsHere program input keyed p h.loops → length h.loops ≡ program.loops
        → Leads program input 1 (task program input true p h) (task program input false p h) }
    ensures exits { (program : Program) → (input : Input) → (keyed : Keyed) → (k : Key)
        → (loops : List (ℕ × ℕ)) → (groups : List Marks) → length loops ≡ program.loops → HaveKey keyed k loops
        → (os : List ℕ) → All (λ o. FailsAt program input keyed (record k { offset = o })) os → (work : Work)
        → Leads program input 0 (record { dir = k.dir; states = at_each program input k.at loops groups os; work = work })
        (record { dir = k.dir; states = []; work = work }) }
{}

/// That all exits of a one-character loop from an offset on fail is learned one by one: of the last one, and of one before those
/// of which it is known.
pub fn exits_are_learned()
    ensures last { (program : Program) → (input : Input) → (keyed : Keyed) → (i : Instruction) → referred i ≡ None → (k : Key) → (groups : List Marks)
        → FailsAt program input keyed k → advance program input i k.dir groups k.offset ≡ None → ExitsFail program input keyed i k }
    ensures on { (program : Program) → (input : Input) → (keyed : Keyed) → (i : Instruction) → referred i ≡ None → (k : Key) → (q : ℕ) → (groups : List Marks)
        → FailsAt program input keyed k → advance program input i k.dir groups k.offset ≡ Some q → ExitsFail program input keyed i (record k { offset = q })
        → ExitsFail program input keyed i k }
{}

/// What is known grows by what is learned, and speaks of no start, no groups and no data of loops.
pub fn failures_are_kept()
    ensures { (program : Program) → (input : Input) → (keyed : Keyed) → (k : Key) → (ks : List Key) → FailsAt program input keyed k
        → AllFail program input keyed ks → AllFail program input keyed (k ∷ ks) }
{}

/// A state that is tried where fewer units of the text are left than a run from its address takes leads to what is left to be done,
/// in fewer steps.
pub fn short_states_are_dropped()
    ensures { (needs : List ℕ) → (v : View) → AreOfKind v.kind v.units → (program : Program) → Suits program v → are_needs needs program ≡ true
        → (p : Spot) → (h : Held) → room (length v.units) (direction_of p.forward) p.offset < need needs p.at
        → (n : ℕ) → (r : Option Whole) → IsTried program v n r (task program (input_of v) true p h)
        → Leads program (input_of v) 1 (task program (input_of v) true p h) (task program (input_of v) false p h) }
{}
