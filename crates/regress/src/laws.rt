//! Laws of replacing and of splitting, and of the flag `no_opt`. Nothing here runs: each function is a law, stated by its contract.
ghost use Rattle.std.specs.Prelude.{◌≡◌, ◌≢◌, ℕ, Bool, List, All, take, map, chars, codes, slice_range};
ghost use Rattle.regress_meaning.specs.Table.{Table};
ghost use Rattle.regress_meaning.specs.Pattern.{Pattern};
ghost use Rattle.regress_meaning.specs.Flags.{Options};
ghost use Rattle.regress_meaning.specs.Grammar.{Spells};
ghost use Rattle.regress_meaning.specs.Matches.{Item, match_list};
ghost use Rattle.regress_meaning.specs.Literal.{literal_pattern, occurrences};
ghost use Rattle.regress_meaning.specs.Offsets.{of_utf8, told};
ghost use Rattle.regress_meaning.specs.Parts.{parts, joined};
ghost use Rattle.regress_front.specs.FlagWords.{options};
ghost use Rattle.regress_front_core.specs.declared.flags.Flags.{Flags};
ghost use Rattle.regress_replacing.specs.Replacing.{expansion, replaced};

/// The text with each match, or with the first, replaced by `$0` is the text.
pub fn whole_matches_give_the_text_back()
    ensures all { (t : Table) → (o : Options) → (p : Pattern) → (names : List (List ℕ)) → (text : List ℕ) →
        let items = map (told (of_utf8 text)) (match_list t o p (chars text) 0) in
        replaced text items (map (expansion names (codes "$0") text) items) ≡ text }
    ensures first { (t : Table) → (o : Options) → (p : Pattern) → (names : List (List ℕ)) → (text : List ℕ) →
        let items = take 1 (map (told (of_utf8 text)) (match_list t o p (chars text) 0)) in
        replaced text items (map (expansion names (codes "$0") text) items) ≡ text }
{
    regress_meaning::matches_rise();
}

/// The text with each match of an escaped text replaced by a text without `$` is the text with that in the place of each
/// occurrence, whatever the flags.
pub fn escaped_texts_are_replaced_where_they_occur()
    ensures { (t : Table) → (o : Options) → (names : List (List ℕ)) → (literal : List ℕ) → (replacement : List ℕ) → (text : List ℕ) → All (λ b. b ≢ 0x24) replacement →
        let items = map (told (of_utf8 text)) (match_list t o (literal_pattern literal) (chars text) 0) in
        let places = map (told (of_utf8 text)) (occurrences t o literal (chars text) 0) in
        replaced text items (map (expansion names replacement text) items) ≡ replaced text places (map (λ _. replacement) places) }
{
    regress_meaning::literals_match_their_occurrences();
}

/// The parts of a text with new texts in the gaps between them are the text with these in the place of its items. With what the
/// matches take of the text in these gaps they are the text.
pub fn parts_stand_between_the_matches()
    ensures replaced { (text : List ℕ) → (items : List Item) → (new : Item → List ℕ) → joined (parts text items) (map new items) ≡ replaced text items (map new items) }
    ensures back { (t : Table) → (o : Options) → (p : Pattern) → (text : List ℕ) →
        let items = map (told (of_utf8 text)) (match_list t o p (chars text) 0) in
        joined (parts text items) (map (λ i. slice_range text i.start i.end) items) ≡ text }
{
    regress_meaning::matches_rise();
}

/// With and without `no_opt` the same patterns are accepted, and a pattern has the same match list: what a regex stands for, and
/// as what a pattern is refused, is said by what the flags switch on, and `no_opt` switches nothing on.
pub fn no_opt_changes_no_match()
    ensures options { (f : Flags) → (no_opt : Bool) → options (record f { no_opt = no_opt }) ≡ options f }
    ensures listed { (t : Table) → (f : Flags) → (no_opt : Bool) → (source : List ℕ) → (p q : Pattern) →
        Spells t (options f) source p → Spells t (options (record f { no_opt = no_opt })) source q → (text : List ℕ) → (place : ℕ) →
        match_list t (options f) p text place ≡ match_list t (options (record f { no_opt = no_opt })) q text place }
{
    regress_meaning::spells_one_tree();
}
