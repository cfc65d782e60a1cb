//! Laws of runs, each the contract of a function with an empty body.
ghost use Rattle.std.specs.Prelude.{◌≡◌, ◌↔◌, ◌+◌, ◌*◌, ◌<◌, ◌≤◌, ℕ, Bool, false, List, length, map, Option, None, Some, option_map, slice_get};
ghost use Rattle.regress_meaning.specs.Table.{Table};
ghost use Rattle.regress_meaning.specs.Meaning.{Direction};
ghost use Rattle.regress_meaning.specs.Matches.{Item};
ghost use Rattle.regress_meaning.specs.Offsets.{Reading, Begins, offset, told};
ghost use Rattle.regress_meaning.specs.Inputs.{Input, Tells, ascii_input, context_of, ucs2_input, utf16_input, utf8_input};
ghost use Rattle.regress_front_nodes.specs.Trees.{Tree};
ghost use Rattle.regress_front_nodes.specs.Sizes.{loops, size, spread};
ghost use Rattle.regress_front_nodes.specs.WellFormed.{AreLawful, IsWellFormed};
ghost use Rattle.regress_front_nodes.specs.NodeMatches.{node_first_match, node_match_list};
ghost use Rattle.regress_front_nodes.specs.ByteInputs.{TellsBytes};
ghost use Rattle.regress_engine_insn.specs.Instructions.{Program};
ghost use Rattle.regress_engine_insn.specs.Layout.{Target, IsLayout};
ghost use Rattle.regress_engine_insn.specs.Counts.{count};
ghost use Rattle.regress_engine_runs.specs.States.{Whole};
ghost use Rattle.regress_engine_runs.specs.Runs.{Run};
ghost use Rattle.regress_engine_runs.specs.Closed.{IsClosed};
ghost use Rattle.regress_engine_runs.specs.Items.{Answers, Finds, Lists, begins_at};
ghost use Rattle.regress_engine_runs.specs.Meets.{HasProgress, ReadsAtPlaces};
ghost use Rattle.regress_engine_runs.specs.Stand.{IsMadeFor, RunsAsTree};
ghost use Rattle.regress_engine_runs.specs.UndoStack.{MovesOn};

/// The run of a layout ends, from each place of a text, and its answer is the tree's most preferred outcome there.
pub fn layouts_run_as_trees()
    ensures { (target : Target) → (input : Input) → (reading : Reading) → Tells reading input → (target.program.units ≡ false → TellsBytes reading input) → IsMadeFor target input → offset reading (length reading.points) ≡ length input.units → (n : ℕ) → (t : Tree) → IsWellFormed n t → IsLayout target n t → RunsAsTree target.program input reading n t }
{}

/// A program that is a layout makes progress: each address that its run comes to, from each place of a text, inside and
/// outside of lookarounds and atomic groups, is that of an instruction.
pub fn layouts_have_progress()
    ensures { (target : Target) → (input : Input) → (reading : Reading) → Tells reading input → (target.program.units ≡ false → TellsBytes reading input) → IsMadeFor target input → offset reading (length reading.points) ≡ length input.units → (n : ℕ) → (t : Tree) → IsWellFormed n t → IsLayout target n t → HasProgress target.program input reading }
{}

/// A program that is a layout reads at places alone: wherever its run comes to an instruction that reads characters, from each
/// place of a text, inside and outside of lookarounds and atomic groups, the offset is that of a place, and so are the ends of a
/// range that it refers to.
pub fn layouts_read_at_places()
    ensures { (target : Target) → (input : Input) → (reading : Reading) → Tells reading input → (target.program.units ≡ false → TellsBytes reading input) → IsMadeFor target input → offset reading (length reading.points) ≡ length input.units → (n : ℕ) → (t : Tree) → IsWellFormed n t → IsLayout target n t → ReadsAtPlaces target.program input reading }
{}

/// A program that is a layout is closed: bytes stand in programs of bytes alone, its brackets, groups and loops are there where
/// an instruction names them, the end of an iteration names the beginning of a repetition, and what a one-character loop repeats takes one character.
pub fn layouts_are_closed()
    ensures { (target : Target) → (n : ℕ) → (t : Tree) → IsWellFormed n t → IsLayout target n t → IsClosed target.program }
{}

/// A run has one number of steps and one answer.
pub fn runs_are_determined()
    ensures { (program : Program) → (input : Input) → (dir : Direction) → (ss : List Whole) → (n m : ℕ) → (r q : Option Whole) → Run program input dir ss n r → Run program input dir ss m q → (n ≡ m) × (r ≡ q) }
{}

/// What a search over runs finds from a place on is the tree's first match from there on, told in offsets; searches that go
/// on one behind another list the tree's matches; and the first match is the head of that list.
pub fn searches_find_matches()
    ensures first { (program : Program) → (input : Input) → (reading : Reading) → Tells reading input → (n : ℕ) → (t : Tree) → RunsAsTree program input reading n t → (p : ℕ) → p ≤ length reading.points → (o : Option Item) → Finds program input (offset reading p) o ↔ (o ≡ option_map (told reading) (node_first_match (context_of reading input) n t p)) }
    ensures all { (program : Program) → (input : Input) → (reading : Reading) → Tells reading input → (n : ℕ) → (t : Tree) → RunsAsTree program input reading n t → (p : ℕ) → p ≤ length reading.points → (items : List Item) → Lists program input (Some (offset reading p)) items ↔ (items ≡ map (told reading) (node_match_list (context_of reading input) n t p)) }
    ensures asked { (program : Program) → (input : Input) → (reading : Reading) → Tells reading input → (n : ℕ) → (t : Tree) → RunsAsTree program input reading n t → offset reading (length reading.points) ≡ length input.units → (at p : ℕ) → Begins reading at p → (items : List Item) → Lists program input (begins_at input at) items ↔ (items ≡ map (told reading) (node_match_list (context_of reading input) n t p)) }
    ensures head { (reading : Reading) → (input : Input) → (n : ℕ) → (t : Tree) → (p : ℕ) → slice_get (map (told reading) (node_match_list (context_of reading input) n t p)) 0 ≡ option_map (told reading) (node_first_match (context_of reading input) n t p) }
{}

/// So searches over the runs of a layout list the matches of its tree, told in offsets.
pub fn layouts_list_matches()
    ensures { (target : Target) → (input : Input) → (reading : Reading) → Tells reading input → (target.program.units ≡ false → TellsBytes reading input) → IsMadeFor target input → offset reading (length reading.points) ≡ length input.units → (n : ℕ) → (t : Tree) → IsWellFormed n t → IsLayout target n t → (p : ℕ) → p ≤ length reading.points → (items : List Item) → Lists target.program input (Some (offset reading p)) items ↔ (items ≡ map (told reading) (node_match_list (context_of reading input) n t p)) }
{}

/// A search may skip places from which no run has an answer.
pub fn searches_may_skip()
    ensures { (program : Program) → (input : Input) → (reading : Reading) → Tells reading input → (k p : ℕ) → p + k ≤ length reading.points → ((x : ℕ) → p ≤ x → x < p + k → Answers program input (offset reading x) None) → (o : Option Item) → Finds program input (offset reading (p + k)) o → Finds program input (offset reading p) o }
{}

/// Each of the four inputs moves on at each offset, whether it is a place's or not.
pub fn inputs_move_on()
    ensures utf8 { (table : Table) → (unicode : Bool) → (bytes : List ℕ) → MovesOn (utf8_input table unicode bytes) }
    ensures ascii { (table : Table) → (unicode : Bool) → (bytes : List ℕ) → MovesOn (ascii_input table unicode bytes) }
    ensures utf16 { (table : Table) → (unicode : Bool) → (units : List ℕ) → MovesOn (utf16_input table unicode units) }
    ensures ucs2 { (table : Table) → (unicode : Bool) → (units : List ℕ) → MovesOn (ucs2_input table unicode units) }
{}

/// A well-formed tree of n groups has at most three instructions for each node of its size, and for each loop n more.
pub fn counts_are_bounded()
    ensures { (units : Bool) → (table : Table) → (unicode : Bool) → (n : ℕ) → (t : Tree) → IsWellFormed n t → count units table unicode t ≤ 3 * size t + loops t * n }
{}

/// A lawful tree has at most two instructions for each node that it may spread over, in bytes and in units.
pub fn spreads_bound_counts()
    ensures { (units : Bool) → (table : Table) → (unicode : Bool) → (n : ℕ) → (t : Tree) → AreLawful n t → count units table unicode t ≤ 2 * spread t }
{}
