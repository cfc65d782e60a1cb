//! What every contract of the project says, it says in the words of this crate: tables and classes, the syntax tree of a
//! pattern and the grammar that a text spells it by, its limits, what it matches, and how places are told in offsets.
//! The definitions stand in `specs/`. Nothing here runs: each function below is a law of theirs, stated by its contract.
#![tactic(auto)]

ghost use Rattle.std.specs.Prelude.{◌≡◌, ◌≢◌, ◌-◌, ◌+◌, ◌*◌, ◌<◌, ◌≤◌, ◌↔◌, ℕ, Bool, true, false, List, [], ◌∷◌, length, Some, None, All};
ghost use Rattle.std.specs.Option.{option_map_or};
ghost use Rattle.regress_meaning.specs.Table.{Table, last_code_point, closure};
ghost use Rattle.regress_meaning.specs.TableParts.{IsLawful, small_parts};
ghost use Rattle.regress_meaning.specs.Class.{Class, value_of};
ghost use Rattle.regress_meaning.specs.Pattern.{Pattern, Settings, names_of};
ghost use Rattle.regress_meaning.specs.Flags.{Options, no_flags};
ghost use Rattle.regress_meaning.specs.Tokens.{Mode, continues_name};
ghost use Rattle.regress_meaning.specs.Grammar.{Spells};
ghost use Rattle.regress_meaning.specs.Scan.{scanned_names};
ghost use Rattle.regress_meaning.specs.Reading.{read_pattern, ReadsBySteps};
ghost use Rattle.regress_meaning.specs.Numbering.{IsNumbered};
ghost use Rattle.regress_meaning.specs.Points.{IsOfPoints, ClassHoldsNoStrings, HoldsNoStrings};
ghost use Rattle.regress_meaning.specs.Named.{HoldsNoEmptyName};
ghost use Rattle.regress_meaning.specs.Limits.{quantifiers, WithinLimits};
ghost use Rattle.regress_meaning.specs.Weights.{weight};
ghost use Rattle.regress_meaning.specs.Meaning.{State, Direction, Context, outcomes};
ghost use Rattle.regress_meaning.specs.Matches.{Item, first_match, match_list, next_place};
ghost use Rattle.regress_meaning.specs.WholeText.{whole_text, in_whole_text, whole_item, MatchesWhole};
ghost use Rattle.regress_meaning.specs.Literal.{escaped_text, literal_pattern, occurrences};
ghost use Rattle.regress_meaning.specs.Offsets.{of_utf8, of_ascii, of_utf16, of_ucs2};
ghost use Rattle.regress_meaning.specs.Laws.{IsInside, IsItemInside, IsAhead, ItemsRise, OffsetsRise, in_group, in_atomic_group, LeavesLess, ContentsBySteps};

/// The closure of a closed set is that set, whatever the canon.
pub fn closure_is_idempotent()
    ensures { (canon_of : ℕ → ℕ) → (members : ℕ → Bool) → (c : ℕ) → closure canon_of (closure canon_of members) c ≡ closure canon_of members c }
{}

/// The small table's parts keep all laws.
pub fn small_parts_are_lawful()
    ensures { IsLawful small_parts }
{}

/// In a tree that a text spells groups are numbered from 0 in order of opening, and what refers to groups fits them.
pub fn spelled_trees_are_numbered()
    ensures { (table : Table) → (o : Options) → (text : List ℕ) → (p : Pattern) → Spells table o text p → IsNumbered p }
{}

/// A tree that a text of code points spells holds code points alone, and each of its ranges is in order.
pub fn spelled_trees_hold_code_points()
    ensures { (table : Table) → (o : Options) → (text : List ℕ) → (p : Pattern) → All (λ c. c ≤ last_code_point) text → Spells table o text p → IsOfPoints p }
{}

/// In a tree that a text spells each code point of a group's name may stand in a name, by the table.
pub fn spelled_names_are_names()
    ensures { (table : Table) → (o : Options) → (text : List ℕ) → (p : Pattern) → Spells table o text p → All (All (λ c. continues_name table c ≡ true)) (names_of p) }
{}

/// In a tree that a text spells no group has the empty text for its name: one without a name has none.
pub fn spelled_names_are_not_empty()
    ensures { (table : Table) → (o : Options) → (text : List ℕ) → (p : Pattern) → Spells table o text p → HoldsNoEmptyName p }
{}

/// A tree that a text spells is small: for each code point of the text it takes at most two nodes more than it has groups,
/// and one node besides; and it has no more groups and no more quantifiers than the text has code points.
pub fn spelled_trees_are_small()
    ensures weight { (table : Table) → (o : Options) → (text : List ℕ) → (p : Pattern) → Spells table o text p → weight p ≤ (length (names_of p) + 2) * length text + 1 }
    ensures groups { (table : Table) → (o : Options) → (text : List ℕ) → (p : Pattern) → Spells table o text p → length (names_of p) ≤ length text }
    ensures quantifiers { (table : Table) → (o : Options) → (text : List ℕ) → (p : Pattern) → Spells table o text p → quantifiers p ≤ length text }
{}

/// In a tree that a text spells without `v` no class has strings in it; and the value of such a class has none but those of
/// one code point.
pub fn classes_without_sets_hold_no_strings()
    ensures trees { (table : Table) → (o : Options) → (text : List ℕ) → (p : Pattern) → o.sets ≡ false → Spells table o text p → HoldsNoStrings p }
    ensures values { (table : Table) → (folded : Bool) → (s : Class) → ClassHoldsNoStrings s → (value_of table folded s).others ≡ [] }
{}

/// A text spells a tree exactly where the reading function finds it; where it finds none, the text spells none.
pub fn reading_decides_the_grammar()
    ensures { (table : Table) → (o : Options) → (text : List ℕ) → (p : Pattern) → Spells table o text p ↔ (read_pattern table o text ≡ Some p) }
{}

/// The reading function goes step by step: a disjunction by its first alternative, an alternative by its first term.
pub fn reading_goes_by_steps()
    ensures { (m : Mode) → (m.sets ≡ true → m.unicode ≡ true) → (text : List ℕ) → (opened : ℕ) → ReadsBySteps m text opened }
{}

/// What is read at the front of a text leaves less of it; an escape, whose backslash was read before, no more.
pub fn reading_leaves_less()
    ensures { (m : Mode) → (text : List ℕ) → LeavesLess m text }
{}

/// The functions that read a class with `v` go step by step: its contents by their first operand, what is joined by one more.
pub fn contents_go_by_steps()
    ensures { (m : Mode) → (text : List ℕ) → ContentsBySteps m text }
{}

/// The names of a text's groups that a scan finds are those of the tree that it spells, in order.
pub fn names_are_found_by_a_scan()
    ensures { (table : Table) → (o : Options) → (text : List ℕ) → (p : Pattern) → Spells table o text p → scanned_names table o text ≡ names_of p }
{}

/// A text spells at most one tree.
pub fn spells_one_tree()
    ensures { (table : Table) → (o : Options) → (text : List ℕ) → (p : Pattern) → (q : Pattern) → Spells table o text p → Spells table o text q → p ≡ q }
{}

/// From a state inside the text each outcome is inside it, and has as many groups.
pub fn outcomes_stay_inside()
    ensures { (context : Context) → (p : Pattern) → (dir : Direction) → (e : Settings) → (s : State) → IsInside context.text s → All (λ t. IsInside context.text t × (length t.groups ≡ length s.groups)) (outcomes context p dir e s) }
{}

/// No outcome lies behind the state that it comes from, in the direction in which the text is read.
pub fn outcomes_go_ahead()
    ensures { (context : Context) → (p : Pattern) → (dir : Direction) → (e : Settings) → (s : State) → All (λ t. IsAhead dir s.place t.place) (outcomes context p dir e s) }
{}

/// Each item of a match list lies in the text, with the range of each of its groups, and it has as many groups as the pattern.
pub fn items_lie_in_the_text()
    ensures inside { (table : Table) → (o : Options) → (p : Pattern) → (text : List ℕ) → (place : ℕ) → All (IsItemInside text) (match_list table o p text place) }
    ensures groups { (table : Table) → (o : Options) → (p : Pattern) → (text : List ℕ) → (place : ℕ) → All (λ i. length i.groups ≡ length (names_of p)) (match_list table o p text place) }
{}

/// In a match list starts strictly increase, and each is at least the end before it.
pub fn matches_rise()
    ensures { (table : Table) → (o : Options) → (p : Pattern) → (text : List ℕ) → (place : ℕ) → ItemsRise (match_list table o p text place) }
{}

/// From a place on there are at most as many matches as places, the end included.
pub fn matches_are_bounded()
    ensures { (table : Table) → (o : Options) → (p : Pattern) → (text : List ℕ) → (place : ℕ) → length (match_list table o p text place) ≤ length text + 1 - place }
{}

/// A match list goes on from where its first match says: it is empty where there is no match from its place on, and else
/// that match, which starts there or later, stands before the list from the next place.
pub fn matches_go_on()
    ensures ends { (table : Table) → (o : Options) → (p : Pattern) → (text : List ℕ) → (place : ℕ) → first_match table o p text place ≡ None → match_list table o p text place ≡ [] }
    ensures goes { (table : Table) → (o : Options) → (p : Pattern) → (text : List ℕ) → (place : ℕ) → (i : Item) → first_match table o p text place ≡ Some i → match_list table o p text place ≡ i ∷ match_list table o p text (next_place i) }
    ensures later { (table : Table) → (o : Options) → (p : Pattern) → (text : List ℕ) → (place : ℕ) → (i : Item) → first_match table o p text place ≡ Some i → place ≤ i.start }
{}

/// A pattern and the same in `(?:..)` have the same matches, groups included.
pub fn group_without_capture_is_transparent()
    ensures { (table : Table) → (o : Options) → (source : List ℕ) → (p : Pattern) → (q : Pattern) → Spells table o source p → Spells table o (in_group source) q → (text : List ℕ) → (place : ℕ) → match_list table o q text place ≡ match_list table o p text place }
{}

/// A pattern and the same in `(?>..)` have the same matches, groups included.
pub fn atomic_group_around_all_is_transparent()
    ensures { (table : Table) → (o : Options) → (source : List ℕ) → (p : Pattern) → (q : Pattern) → Spells table o source p → Spells table o (in_atomic_group source) q → (text : List ℕ) → (place : ℕ) → match_list table o q text place ≡ match_list table o p text place }
{}

/// The pattern over a whole text matches a text where some outcome of the pattern ends at its end, preferred or not. It then has
/// one match, the whole text, with the groups of the first such outcome.
pub fn whole_texts_match_by_some_outcome()
    ensures found { (table : Table) → (o : Options) → (p : Pattern) → (text : List ℕ) → (match_list table o (whole_text p) text 0 ≢ []) ↔ MatchesWhole table o p text }
    ensures items { (table : Table) → (o : Options) → (p : Pattern) → (text : List ℕ) → match_list table o (whole_text p) text 0 ≡ option_map_or (λ i. i ∷ []) (whole_item table o p text) [] }
    ensures later { (table : Table) → (o : Options) → (p : Pattern) → (text : List ℕ) → (place : ℕ) → 0 < place → match_list table o (whole_text p) text place ≡ [] }
{}

/// Where a text spells a pattern, `(?-m:^)(?:` and `)(?-m:$)` around it spell the pattern over a whole text.
pub fn whole_texts_are_spelled()
    ensures { (table : Table) → (o : Options) → (source : List ℕ) → (p : Pattern) → Spells table o source p → Spells table o (in_whole_text source) (whole_text p) }
{}

/// An escaped text spells the tree of its characters one after another, whatever the table and the flags, and that passes no limit.
pub fn escaped_texts_spell_literals()
    ensures spells { (table : Table) → (o : Options) → (text : List ℕ) → Spells table o (escaped_text text) (literal_pattern text) }
    ensures within { (text : List ℕ) → WithinLimits (literal_pattern text) }
{}

/// The tree of a literal's characters matches the occurrences of the literal, and nothing else.
pub fn literals_match_their_occurrences()
    ensures { (table : Table) → (o : Options) → (literal : List ℕ) → (text : List ℕ) → (place : ℕ) →
        match_list table o (literal_pattern literal) text place ≡ occurrences table o literal text place }
{}

/// Later places have greater offsets, in each of the four readings.
pub fn offsets_rise()
    ensures utf8 { (bytes : List ℕ) → OffsetsRise (of_utf8 bytes) }
    ensures ascii { (bytes : List ℕ) → OffsetsRise (of_ascii bytes) }
    ensures utf16 { (units : List ℕ) → OffsetsRise (of_utf16 units) }
    ensures ucs2 { (units : List ℕ) → OffsetsRise (of_ucs2 units) }
{}
