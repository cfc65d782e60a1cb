//! Laws of executors, each the contract of a function with an empty body.
ghost use Rattle.std.specs.Prelude.{◌≡◌, ◌≤◌, ℕ, Option, Ok, length, map, option_map, not, true};
ghost use Rattle.regress_meaning.specs.Inputs.{Input, context_of};
ghost use Rattle.regress_meaning.specs.Matches.{Item};
ghost use Rattle.regress_meaning.specs.Offsets.{Begins, offset, told};
ghost use Rattle.regress_front_nodes.specs.Trees.{Tree};
ghost use Rattle.regress_front_nodes.specs.WellFormed.{IsWellFormed};
ghost use Rattle.regress_front_nodes.specs.NodeMatches.{node_attempt, node_match_list};
ghost use Rattle.regress_match.specs.declared.found.Match.{Match};
ghost use Rattle.regress_match.specs.Iterating.{coming_on};
ghost use Rattle.regress_match.specs.TextRanges.{IsMatchIn};
ghost use Rattle.regress_match.specs.Views.{item_of};
ghost use Rattle.regress_engine_input.specs.Views.{View, AreOfKind, are_bytes, input_of, reading_of};
ghost use Rattle.regress_engine_prefix.specs.Starts.{Serves};
ghost use Rattle.regress_engine_prefix.specs.declared.start.StartPredicate.{StartPredicate};
ghost use Rattle.regress_engine_insn.specs.Instructions.{Program};
ghost use Rattle.regress_engine_insn.specs.Layout.{Target, IsLayout};
ghost use Rattle.regress_engine_code.specs.Standing.{names_of, program_of, target_of};
ghost use Rattle.regress_engine_runs.specs.Items.{Finds};
ghost use Rattle.regress_engine_runs.specs.Stand.{IsMadeFor};
ghost use Rattle.regress_engine_search.specs.Answering.{IsOutcome};
ghost use Rattle.regress_engine_search.specs.Skipping.{MaySkip};
ghost use Rattle.regress_engine_search.specs.Search.{Search, IsMadeOf, IsMatchOf, StartsAt, Steps, items_from};

use std::alloc::AllocError;

/// What an executor finds is the match list of each tree that its program is a layout of, told in offsets: from each place, and
/// from each offset at which a search may start. Over bytes its matches lie in the text, between characters.
pub fn executors_list_matches()
    ensures items { (s : Search) → AreOfKind s.view.kind s.view.units → IsMadeOf s.compiled s.view → (n : ℕ) → (t : Tree) → IsWellFormed n t → IsLayout (target_of s.compiled) n t → (p : ℕ) → p ≤ length (reading_of s.view).points → items_from s (offset (reading_of s.view) p) ≡ map (told (reading_of s.view)) (node_match_list (context_of (reading_of s.view) (input_of s.view)) n t p) }
    ensures asked { (s : Search) → AreOfKind s.view.kind s.view.units → IsMadeOf s.compiled s.view → (n : ℕ) → (t : Tree) → IsWellFormed n t → IsLayout (target_of s.compiled) n t → (at p : ℕ) → Begins (reading_of s.view) at p → (position : Option ℕ) → StartsAt s at position → coming_on (items_from s) position ≡ map (told (reading_of s.view)) (node_match_list (context_of (reading_of s.view) (input_of s.view)) n t p) }
    ensures in_bytes { (s : Search) → are_bytes s.view.kind ≡ true → AreOfKind s.view.kind s.view.units → (m : Match) → IsMatchOf s m → IsMatchIn s.view.units (names_of s.compiled) m }
{}

/// What an executor's `match_at` answers at a place is the most preferred outcome there of each tree that its program is a layout
/// of, told in offsets.
pub fn executors_match_as_trees()
    ensures { (s : Search) → AreOfKind s.view.kind s.view.units → IsMadeOf s.compiled s.view → (n : ℕ) → (t : Tree) → IsWellFormed n t → IsLayout (target_of s.compiled) n t → (p : ℕ) → p ≤ length (reading_of s.view).points → (i : Option Item) → IsOutcome (program_of s.compiled) (input_of s.view) (offset (reading_of s.view) p) i → i ≡ option_map (told (reading_of s.view)) (node_attempt (context_of (reading_of s.view) (input_of s.view)) n t p) }
{}

/// A search for the program of a tree may skip each place at which the text does not go on as the tree's start predicate says:
/// no run from there has an answer.
pub fn start_predicates_may_skip()
    ensures { (target : Target) → (v : View) → AreOfKind v.kind v.units → are_bytes v.kind ≡ not target.program.units → IsMadeFor target (input_of v) → (n : ℕ) → (t : Tree) → IsWellFormed n t → IsLayout target n t → (start : StartPredicate) → Serves target.program.units t start → MaySkip target.program start v }
{}

/// Executors of the same search agree, of whatever kind they are: what searches from one offset find is the same item, what runs
/// from one offset answer is, and what steps from one position give is the same item, with the same items to come from the
/// positions behind.
pub fn executors_agree()
    ensures outcome { (program : Program) → (input : Input) → (at : ℕ) → (i j : Option Item) → IsOutcome program input at i → IsOutcome program input at j → i ≡ j }
    ensures found { (program : Program) → (input : Input) → (at : ℕ) → (i j : Option Item) → Finds program input at i → Finds program input at j → i ≡ j }
    ensures stepped { (s t : Search) → s.compiled ≡ t.compiled → s.view ≡ t.view → (before : Option ℕ) → (a b : Option Match) → (p q : Option ℕ) → Steps {E = AllocError} s before (option_map Ok a) p → Steps {E = AllocError} t before (option_map Ok b) q → (option_map item_of a ≡ option_map item_of b) × (coming_on (items_from s) p ≡ coming_on (items_from t) q) }
{}
