//! What calls promise, in the words of the definitions: each function states a promise, and its body is the call that keeps it.
ghost use Rattle.std.specs.Prelude.{◌≡◌, ◌≢◌, ◌+◌, ◌≤◌, ◌↔◌, ℕ, List, [], All, true, false, take, map, chars, length, slice_get, option_map, string_bytes, IfErr, IfNone, IfOk, IfSome, IsOkUnless, IsTrue};
ghost use Rattle.std.specs.Fn.{FnReturnsAt, FnOnceReturnsAt};
ghost use Rattle.std.specs.Str.{IsAscii, IsUtf8};
ghost use Rattle.regress_meaning.specs.Table.{Table};
ghost use Rattle.regress_meaning.specs.Pattern.{Pattern};
ghost use Rattle.regress_meaning.specs.Flags.{Options, no_flags};
ghost use Rattle.regress_meaning.specs.Grammar.{Spells};
ghost use Rattle.regress_meaning.specs.Limits.{SpellsNone, WithinLimits};
ghost use Rattle.regress_meaning.specs.Literal.{occurrences};
ghost use Rattle.regress_meaning.specs.Matches.{match_list};
ghost use Rattle.regress_meaning.specs.Offsets.{of_utf8, of_utf16, of_ucs2, characters, told, Begins};
ghost use Rattle.regress_meaning.specs.WholeText.{whole_text};
ghost use Rattle.regress_meaning.specs.Parts.{parts, first_parts};
ghost use Rattle.regress_front.specs.TableViews.{table};
ghost use Rattle.regress_front.specs.Trees.{Tree};
ghost use Rattle.regress_front.specs.FlagWords.{options};
ghost use Rattle.regress_match.specs.Iterating.{GivesMatch, coming_on, position_of, producer_of};
ghost use Rattle.regress_match.specs.TextRanges.{IsMatchIn};
ghost use Rattle.regress_match.specs.Views.{item_of};
ghost use Rattle.regress_replacing.specs.Replacing.{expansion, replaced};
ghost use Rattle.regress_engine.specs.Standing.{target_of};
ghost use Rattle.regress.specs.Ascii.{coming_in_ascii};
ghost use Rattle.regress.specs.Answering.{AnswersEach};
ghost use Rattle.regress.specs.Coming.{HasEnded, coming, searched, searched_names};
ghost use Rattle.regress.specs.Literals.{IsNowhereIn};
ghost use Rattle.regress.specs.Outcomes.{outcome_at};
ghost use Rattle.regress.specs.Programs.{IsProgramOf};
ghost use Rattle.regress.specs.Refusing.{MayRefuseRegex, MayRefuseWholeText};
ghost use Rattle.regress.specs.Splitting.{parts_left, first_parts_left, GivesPart, GivesSplit};
ghost use Rattle.regress.specs.Standing.{StandsFor, StandsInUnits, HasTree, HasTreeInUnits, byte_target, unit_target, tree_list, tree_list_in_units, names_of_regex, source_of};
ghost use Rattle.regress.specs.Units.{coming_in_utf16, coming_in_ucs2};

use regress::backends::{self, Executor};
use regress::{
    AsciiMatches, CompiledRegex, Error, Flags, Match, Matches, Regex, Split, SplitN, SyntaxError,
    Tables, Ucs2Matches, Utf16Matches, escape, is_ascii_text, is_start, syntax_error,
};
use std::alloc::{AllocError, Global};

/// Whether a search may begin at an offset.
fn may_begin(text: &str, at: usize) -> bool
    ensures { IsTrue result ↔ ((place : ℕ) × Begins (of_utf8 text.now) at place) }
{
    is_start(text, at)
}

/// Whether a text may be searched as ASCII.
fn is_ascii(text: &str) -> bool
    ensures { IsTrue result ↔ IsAscii text.now }
{
    is_ascii_text(text)
}

/// What a text is compiled to.
fn of_text(alloc: Global, pattern: &str, tables: &Tables) -> Result<Regex, Error>
    ensures accepted { IfOk result (λ r. (p : Pattern) × Spells (table tables.now) no_flags (chars pattern.now) p
        × WithinLimits p × StandsFor r (table tables.now) no_flags p × StandsInUnits r (table tables.now) no_flags p) }
    ensures refused { IfErr result (MayRefuseRegex (table tables.now) no_flags (chars pattern.now)) }
{
    Regex::new(alloc, pattern, tables)
}

/// The same under flags.
fn of_text_under(
    alloc: Global,
    pattern: &str,
    flags: Flags,
    tables: &Tables,
) -> Result<Regex, Error>
    ensures accepted { IfOk result (λ r. (p : Pattern) × Spells (table tables.now) (options flags) (chars pattern.now) p
        × WithinLimits p × StandsFor r (table tables.now) (options flags) p × StandsInUnits r (table tables.now) (options flags) p) }
    ensures refused { IfErr result (MayRefuseRegex (table tables.now) (options flags) (chars pattern.now)) }
{
    Regex::with_flags(alloc, pattern, flags, tables)
}

/// What a text is compiled to that has to match whole texts.
fn of_whole_texts(
    alloc: Global,
    pattern: &str,
    flags: Flags,
    tables: &Tables,
) -> Result<Regex, Error>
    ensures accepted { IfOk result (λ r. (p : Pattern) × Spells (table tables.now) (options flags) (chars pattern.now) p
        × WithinLimits p × StandsFor r (table tables.now) (options flags) (whole_text p) × StandsInUnits r (table tables.now) (options flags) (whole_text p)) }
    ensures text { IfOk result (λ r. source_of r ≡ pattern.now) }
    ensures refused { IfErr result (MayRefuseWholeText (table tables.now) (options flags) (chars pattern.now)) }
{
    Regex::whole_text(alloc, pattern, flags, tables)
}

/// The same of code points.
fn of_points(alloc: Global, points: &[u32], flags: Flags, tables: &Tables) -> Result<Regex, Error>
    requires { All (λ c. c ≤ 0x10_FFFF) points.now }
    ensures accepted { IfOk result (λ r. (p : Pattern) × Spells (table tables.now) (options flags) points.now p
        × WithinLimits p × StandsFor r (table tables.now) (options flags) p × StandsInUnits r (table tables.now) (options flags) p) }
    ensures refused { IfErr result (MayRefuseRegex (table tables.now) (options flags) points.now) }
{
    Regex::from_unicode(alloc, points, flags, tables)
}

/// The first match in a text. Nothing is refused but memory.
fn first_in_text(regex: &Regex, text: &str) -> Result<Option<Match>, Error>
    ensures found { (t : Table) → (o : Options) → (p : Pattern) → StandsFor regex.now t o p →
        IfOk result (λ found. option_map item_of found ≡ option_map (told (of_utf8 text.now)) (slice_get (match_list t o p (chars text.now) 0) 0)) }
    ensures found_of_tree { (n : ℕ) → (t : Tree) → HasTree regex.now n t →
        IfOk result (λ found. option_map item_of found ≡ option_map (told (of_utf8 text.now)) (slice_get (tree_list regex.now n t (chars text.now) 0) 0)) }
    ensures refused { IsOkUnless result Error.OutOfMemory }
{
    regex.find(text)
}

/// The matches in a text.
fn in_text<'r, 't>(regex: &'r Regex, text: &'t str) -> Result<Matches<'r, 't>, Error>
    ensures of_pattern { (t : Table) → (o : Options) → (p : Pattern) → StandsFor regex.now t o p →
        IfOk result (λ ms. coming ms ≡ map (told (of_utf8 text.now)) (match_list t o p (chars text.now) 0)) }
    ensures of_tree { (n : ℕ) → (t : Tree) → HasTree regex.now n t →
        IfOk result (λ ms. coming ms ≡ map (told (of_utf8 text.now)) (tree_list regex.now n t (chars text.now) 0)) }
{
    regex.find_iter(text)
}

/// The matches in a text from an offset on.
fn in_text_from<'r, 't>(
    regex: &'r Regex,
    text: &'t str,
    start: usize,
) -> Result<Matches<'r, 't>, Error>
    requires { (place : ℕ) × Begins (of_utf8 text.now) start place }
    ensures of_pattern { (t : Table) → (o : Options) → (p : Pattern) → StandsFor regex.now t o p →
        (place : ℕ) → Begins (of_utf8 text.now) start place →
        IfOk result (λ ms. coming ms ≡ map (told (of_utf8 text.now)) (match_list t o p (chars text.now) place)) }
    ensures of_tree { (n : ℕ) → (t : Tree) → HasTree regex.now n t →
        (place : ℕ) → Begins (of_utf8 text.now) start place →
        IfOk result (λ ms. coming ms ≡ map (told (of_utf8 text.now)) (tree_list regex.now n t (chars text.now) place)) }
{
    regex.find_from(text, start)
}

/// The next match in a text.
fn next_in_text(matches: &mut Matches<'_, '_>) -> Option<Result<Match, Error>>
    ensures over { searched matches.new ≡ searched matches.old }
    ensures gives { GivesMatch coming HasEnded (IsMatchIn (searched matches.old) (searched_names matches.old)) matches.old result matches.new }
{
    matches.next()
}

/// The first match in a text of ASCII.
fn first_in_ascii(regex: &Regex, text: &str) -> Result<Option<Match>, Error>
    requires { IsAscii text.now }
    ensures of_pattern { (t : Table) → (o : Options) → (p : Pattern) → StandsFor regex.now t o p →
        IfOk result (λ found. option_map item_of found ≡ option_map (told (of_utf8 text.now)) (slice_get (match_list t o p (chars text.now) 0) 0)) }
    ensures of_tree { (n : ℕ) → (t : Tree) → HasTree regex.now n t →
        IfOk result (λ found. option_map item_of found ≡ option_map (told (of_utf8 text.now)) (slice_get (tree_list regex.now n t (chars text.now) 0) 0)) }
{
    regex.find_ascii(text)
}

/// The matches in a text of ASCII.
fn in_ascii<'r, 't>(regex: &'r Regex, text: &'t str) -> Result<AsciiMatches<'r, 't>, Error>
    requires { IsAscii text.now }
    ensures of_pattern { (t : Table) → (o : Options) → (p : Pattern) → StandsFor regex.now t o p →
        IfOk result (λ ms. coming_in_ascii ms ≡ map (told (of_utf8 text.now)) (match_list t o p (chars text.now) 0)) }
    ensures of_tree { (n : ℕ) → (t : Tree) → HasTree regex.now n t →
        IfOk result (λ ms. coming_in_ascii ms ≡ map (told (of_utf8 text.now)) (tree_list regex.now n t (chars text.now) 0)) }
{
    regex.find_iter_ascii(text)
}

/// The matches in a text of ASCII from an offset on.
fn in_ascii_from<'r, 't>(
    regex: &'r Regex,
    text: &'t str,
    start: usize,
) -> Result<AsciiMatches<'r, 't>, Error>
    requires { IsAscii text.now }
    ensures of_pattern { (t : Table) → (o : Options) → (p : Pattern) → StandsFor regex.now t o p →
        (place : ℕ) → Begins (of_utf8 text.now) start place →
        IfOk result (λ ms. coming_in_ascii ms ≡ map (told (of_utf8 text.now)) (match_list t o p (chars text.now) place)) }
    ensures of_tree { (n : ℕ) → (t : Tree) → HasTree regex.now n t →
        (place : ℕ) → Begins (of_utf8 text.now) start place →
        IfOk result (λ ms. coming_in_ascii ms ≡ map (told (of_utf8 text.now)) (tree_list regex.now n t (chars text.now) place)) }
{
    regex.find_from_ascii(text, start)
}

/// The matches in units of UTF-16 from an offset on.
fn in_utf16_from<'r, 't>(
    regex: &'r Regex,
    units: &'t [u16],
    start: usize,
) -> Result<Utf16Matches<'r, 't>, Error>
    requires { (place : ℕ) × Begins (of_utf16 units.now) start place }
    ensures of_pattern { (t : Table) → (o : Options) → (p : Pattern) → StandsInUnits regex.now t o p →
        (place : ℕ) → Begins (of_utf16 units.now) start place →
        IfOk result (λ ms. coming_in_utf16 ms ≡ map (told (of_utf16 units.now)) (match_list t o p (characters units.now) place)) }
    ensures of_tree { (n : ℕ) → (t : Tree) → HasTreeInUnits regex.now n t →
        (place : ℕ) → Begins (of_utf16 units.now) start place →
        IfOk result (λ ms. coming_in_utf16 ms ≡ map (told (of_utf16 units.now)) (tree_list_in_units regex.now n t (characters units.now) place)) }
{
    regex.find_from_utf16(units, start)
}

/// The matches in units that are each one character from an offset on.
fn in_ucs2_from<'r, 't>(
    regex: &'r Regex,
    units: &'t [u16],
    start: usize,
) -> Result<Ucs2Matches<'r, 't>, Error>
    ensures of_pattern { (t : Table) → (o : Options) → (p : Pattern) → StandsInUnits regex.now t o p →
        (place : ℕ) → Begins (of_ucs2 units.now) start place →
        IfOk result (λ ms. coming_in_ucs2 ms ≡ map (told (of_ucs2 units.now)) (match_list t o p units.now place)) }
    ensures of_tree { (n : ℕ) → (t : Tree) → HasTreeInUnits regex.now n t →
        (place : ℕ) → Begins (of_ucs2 units.now) start place →
        IfOk result (λ ms. coming_in_ucs2 ms ≡ map (told (of_ucs2 units.now)) (tree_list_in_units regex.now n t units.now place)) }
{
    regex.find_from_ucs2(units, start)
}

/// Whether there is a match in a text.
fn has_match(regex: &Regex, text: &str) -> Result<bool, Error>
    ensures of_pattern { (t : Table) → (o : Options) → (p : Pattern) → StandsFor regex.now t o p →
        IfOk result (λ found. IsTrue found ↔ (match_list t o p (chars text.now) 0 ≢ [])) }
    ensures of_tree { (n : ℕ) → (t : Tree) → HasTree regex.now n t →
        IfOk result (λ found. IsTrue found ↔ (tree_list regex.now n t (chars text.now) 0 ≢ [])) }
{
    regex.is_match(text)
}

/// Whether there is a match in a text from an offset on.
fn has_match_from(regex: &Regex, text: &str, start: usize) -> Result<bool, Error>
    requires { (place : ℕ) × Begins (of_utf8 text.now) start place }
    ensures of_pattern { (t : Table) → (o : Options) → (p : Pattern) → StandsFor regex.now t o p →
        (place : ℕ) → Begins (of_utf8 text.now) start place →
        IfOk result (λ found. IsTrue found ↔ (match_list t o p (chars text.now) place ≢ [])) }
    ensures of_tree { (n : ℕ) → (t : Tree) → HasTree regex.now n t →
        (place : ℕ) → Begins (of_utf8 text.now) start place →
        IfOk result (λ found. IsTrue found ↔ (tree_list regex.now n t (chars text.now) place ≢ [])) }
{
    regex.is_match_from(text, start)
}

/// The bytes that each match begins with.
fn front_of<'r>(regex: &'r Regex) -> Option<&'r [u8]>
    ensures of_pattern { (t : Table) → (o : Options) → (p : Pattern) → StandsFor regex.now t o p → (text : List ℕ) → IsUtf8 text → (place : ℕ) →
        IfSome result (λ bytes. IsNowhereIn bytes.now text → match_list t o p (chars text) place ≡ []) }
    ensures of_tree { (n : ℕ) → (t : Tree) → HasTree regex.now n t → (text : List ℕ) → IsUtf8 text → (place : ℕ) →
        IfSome result (λ bytes. IsNowhereIn bytes.now text → tree_list regex.now n t (chars text) place ≡ []) }
{
    regex.literal_prefix()
}

/// Bytes without which a text has no match.
fn needed_of<'r>(regex: &'r Regex) -> Option<&'r [u8]>
    ensures of_pattern { (t : Table) → (o : Options) → (p : Pattern) → StandsFor regex.now t o p → (text : List ℕ) → IsUtf8 text → (place : ℕ) →
        IfSome result (λ bytes. IsNowhereIn bytes.now text → match_list t o p (chars text) place ≡ []) }
    ensures of_tree { (n : ℕ) → (t : Tree) → HasTree regex.now n t → (text : List ℕ) → IsUtf8 text → (place : ℕ) →
        IfSome result (λ bytes. IsNowhereIn bytes.now text → tree_list regex.now n t (chars text) place ≡ []) }
{
    regex.required_literal()
}

/// The text of a compiled pattern.
fn text_of<'r>(regex: &'r Regex) -> &'r str
    ensures { result.now ≡ source_of regex.now }
{
    regex.as_str()
}

/// The same compiled pattern once more.
fn copied(regex: &Regex) -> Result<Regex, Error>
    ensures stands { (t : Table) → (o : Options) → (p : Pattern) → StandsFor regex.now t o p → IfOk result (λ copy. StandsFor copy t o p) }
    ensures stands_in_units { (t : Table) → (o : Options) → (p : Pattern) → StandsInUnits regex.now t o p → IfOk result (λ copy. StandsInUnits copy t o p) }
    ensures named { IfOk result (λ copy. names_of_regex copy ≡ names_of_regex regex.now) }
    ensures text { IfOk result (λ copy. source_of copy ≡ source_of regex.now) }
{
    regex.try_clone()
}

/// How many groups a match has.
fn group_count(regex: &Regex) -> usize
    ensures { result ≡ length (names_of_regex regex.now) + 1 }
{
    regex.captures_len()
}

/// The names of the groups of a compiled pattern.
fn names<'r>(regex: &'r Regex) -> &'r [String]
    ensures { map string_bytes result.now ≡ names_of_regex regex.now }
{
    regex.group_names()
}

/// Why a text is no pattern, and where: inside the text.
fn why_refused(
    alloc: Global,
    pattern: &str,
    flags: Flags,
    tables: &Tables,
) -> Result<Option<SyntaxError>, Error>
    ensures none { IfOk result (λ found. IfNone found ((p : Pattern) × Spells (table tables.now) (options flags) (chars pattern.now) p × WithinLimits p)) }
    ensures spells_none { IfOk result (λ found. IfSome found (λ _. SpellsNone (table tables.now) (options flags) (chars pattern.now))) }
    ensures inside { IfOk result (λ found. IfSome found (λ e. e.place ≤ length (chars pattern.now))) }
{
    syntax_error(alloc, pattern, flags, tables)
}

/// A pattern for a text as it is written.
fn escaped(alloc: Global, text: &str) -> Result<String, Error>
    ensures finds { IfOk result (λ s. (t : Table) → (o : Options) → (p : Pattern) → Spells t o (chars (string_bytes s)) p →
        (points : List ℕ) → (place : ℕ) → match_list t o p points place ≡ occurrences t o (chars text.now) points place) }
{
    escape(alloc, text)
}

/// A text with its first match replaced.
fn with_first_replaced(regex: &Regex, text: &str, replacement: &str) -> Result<String, Error>
    ensures of_pattern { (t : Table) → (o : Options) → (p : Pattern) → StandsFor regex.now t o p →
        let items = take 1 (map (told (of_utf8 text.now)) (match_list t o p (chars text.now) 0)) in
        IfOk result (λ s. string_bytes s ≡ replaced text.now items (map (expansion (names_of_regex regex.now) replacement.now text.now) items)) }
    ensures of_tree { (n : ℕ) → (t : Tree) → HasTree regex.now n t →
        let items = take 1 (map (told (of_utf8 text.now)) (tree_list regex.now n t (chars text.now) 0)) in
        IfOk result (λ s. string_bytes s ≡ replaced text.now items (map (expansion (names_of_regex regex.now) replacement.now text.now) items)) }
{
    regex.replace(text, replacement)
}

/// A text with all matches replaced.
fn with_all_replaced(regex: &Regex, text: &str, replacement: &str) -> Result<String, Error>
    ensures of_pattern { (t : Table) → (o : Options) → (p : Pattern) → StandsFor regex.now t o p →
        let items = map (told (of_utf8 text.now)) (match_list t o p (chars text.now) 0) in
        IfOk result (λ s. string_bytes s ≡ replaced text.now items (map (expansion (names_of_regex regex.now) replacement.now text.now) items)) }
    ensures of_tree { (n : ℕ) → (t : Tree) → HasTree regex.now n t →
        let items = map (told (of_utf8 text.now)) (tree_list regex.now n t (chars text.now) 0) in
        IfOk result (λ s. string_bytes s ≡ replaced text.now items (map (expansion (names_of_regex regex.now) replacement.now text.now) items)) }
{
    regex.replace_all(text, replacement)
}

/// The parts of a text between the matches.
fn between<'r, 't>(regex: &'r Regex, text: &'t str) -> Result<Split<'r, 't>, Error>
    ensures of_pattern { (t : Table) → (o : Options) → (p : Pattern) → StandsFor regex.now t o p →
        IfOk result (λ s. parts_left s ≡ parts text.now (map (told (of_utf8 text.now)) (match_list t o p (chars text.now) 0))) }
    ensures of_tree { (n : ℕ) → (t : Tree) → HasTree regex.now n t →
        IfOk result (λ s. parts_left s ≡ parts text.now (map (told (of_utf8 text.now)) (tree_list regex.now n t (chars text.now) 0))) }
{
    regex.split(text)
}

/// At most so many of them.
fn at_most_between<'r, 't>(
    regex: &'r Regex,
    text: &'t str,
    limit: usize,
) -> Result<SplitN<'r, 't>, Error>
    ensures of_pattern { (t : Table) → (o : Options) → (p : Pattern) → StandsFor regex.now t o p →
        IfOk result (λ s. first_parts_left s ≡ first_parts limit text.now (map (told (of_utf8 text.now)) (match_list t o p (chars text.now) 0))) }
    ensures of_tree { (n : ℕ) → (t : Tree) → HasTree regex.now n t →
        IfOk result (λ s. first_parts_left s ≡ first_parts limit text.now (map (told (of_utf8 text.now)) (tree_list regex.now n t (chars text.now) 0))) }
{
    regex.splitn(text, limit)
}

/// The next part between matches.
fn next_between<'t>(split: &mut Split<'_, 't>) -> Option<Result<&'t str, Error>>
    ensures { GivesSplit split.old result split.new }
{
    split.next()
}

/// The next of at most so many parts.
fn next_of_at_most<'t>(split: &mut SplitN<'_, 't>) -> Option<Result<&'t str, Error>>
    ensures { GivesPart first_parts_left split.old result split.new }
{
    split.next()
}

/// A text with its first match replaced by what a closure answers.
fn with_first_answered<E, F>(regex: &Regex, text: &str, with: F) -> Result<String, E>
where
    E: From<Error>,
    F: FnOnce(&Match) -> Result<String, E>,
    requires { F.IsAlwaysCallable with }
    ensures of_pattern { (t : Table) → (o : Options) → (p : Pattern) → StandsFor regex.now t o p →
        let items = take 1 (map (told (of_utf8 text.now)) (match_list t o p (chars text.now) 0)) in
        IfOk result (λ s. (news : List (List ℕ)) × AnswersEach (FnOnceReturnsAt F.FnOnce with) (names_of_regex regex.now) items news
        × (string_bytes s ≡ replaced text.now items news)) }
    ensures of_tree { (n : ℕ) → (t : Tree) → HasTree regex.now n t →
        let items = take 1 (map (told (of_utf8 text.now)) (tree_list regex.now n t (chars text.now) 0)) in
        IfOk result (λ s. (news : List (List ℕ)) × AnswersEach (FnOnceReturnsAt F.FnOnce with) (names_of_regex regex.now) items news
        × (string_bytes s ≡ replaced text.now items news)) }
{
    regex.replace_with(text, with)
}

/// A text with all matches replaced by what a closure answers.
fn with_all_answered<E, F>(regex: &Regex, text: &str, with: F) -> Result<String, E>
where
    E: From<Error>,
    F: Fn(&Match) -> Result<String, E>,
    requires { F.IsAlwaysCallable with }
    ensures of_pattern { (t : Table) → (o : Options) → (p : Pattern) → StandsFor regex.now t o p →
        let items = map (told (of_utf8 text.now)) (match_list t o p (chars text.now) 0) in
        IfOk result (λ s. (news : List (List ℕ)) × AnswersEach (FnReturnsAt F.Fn with) (names_of_regex regex.now) items news
        × (string_bytes s ≡ replaced text.now items news)) }
    ensures of_tree { (n : ℕ) → (t : Tree) → HasTree regex.now n t →
        let items = map (told (of_utf8 text.now)) (tree_list regex.now n t (chars text.now) 0) in
        IfOk result (λ s. (news : List (List ℕ)) × AnswersEach (FnReturnsAt F.Fn with) (names_of_regex regex.now) items news
        × (string_bytes s ≡ replaced text.now items news)) }
{
    regex.replace_all_with(text, with)
}

/// The matches that an executor finds from an offset on.
fn found_by<'t, E: Executor<'t>>(
    regex: &'t Regex,
    text: &'t str,
    start: usize,
) -> Result<backends::Matches<E>, AllocError>
    requires start { (place : ℕ) × Begins (of_utf8 text.now) start place }
    requires ascii { IsTrue E.Text.ASCII_ONLY → IsAscii text.now }
    ensures of_pattern { (t : Table) → (o : Options) → (p : Pattern) → StandsFor regex.now t o p →
        (place : ℕ) → Begins (of_utf8 text.now) start place →
        IfOk result (λ ms. coming_on (E.items_from (E.search_of (producer_of ms))) (position_of ms) ≡ map (told (of_utf8 text.now)) (match_list t o p (chars text.now) place)) }
    ensures of_tree { (n : ℕ) → (t : Tree) → HasTree regex.now n t →
        (place : ℕ) → Begins (of_utf8 text.now) start place →
        IfOk result (λ ms. coming_on (E.items_from (E.search_of (producer_of ms))) (position_of ms) ≡ map (told (of_utf8 text.now)) (tree_list regex.now n t (chars text.now) place)) }
{
    backends::find::<E>(regex, text, start)
}

/// The same as it goes over ASCII.
fn found_in_ascii_by<'t, E: Executor<'t>>(
    regex: &'t Regex,
    text: &'t str,
    start: usize,
) -> Result<backends::Matches<E::AsAscii>, AllocError>
where
    E::AsAscii: Executor<'t>,
    requires start { (place : ℕ) × Begins (of_utf8 text.now) start place }
    requires ascii { IsTrue E.AsAscii.Text.ASCII_ONLY → IsAscii text.now }
    ensures of_pattern { (t : Table) → (o : Options) → (p : Pattern) → StandsFor regex.now t o p →
        (place : ℕ) → Begins (of_utf8 text.now) start place →
        IfOk result (λ ms. coming_on (E.AsAscii.items_from (E.AsAscii.search_of (producer_of ms))) (position_of ms) ≡ map (told (of_utf8 text.now)) (match_list t o p (chars text.now) place)) }
    ensures of_tree { (n : ℕ) → (t : Tree) → HasTree regex.now n t →
        (place : ℕ) → Begins (of_utf8 text.now) start place →
        IfOk result (λ ms. coming_on (E.AsAscii.items_from (E.AsAscii.search_of (producer_of ms))) (position_of ms) ≡ map (told (of_utf8 text.now)) (tree_list regex.now n t (chars text.now) place)) }
{
    backends::find_ascii::<E>(regex, text, start)
}

/// A compiled pattern of two programs: in texts it is what the one of bytes was made of, in units what the other was.
fn of_programs(alloc: Global, byte_program: CompiledRegex, unit_program: CompiledRegex) -> Regex
    requires of_bytes { byte_program.units ≡ false }
    requires of_units { unit_program.units ≡ true }
    ensures stands { (t : Table) → (o : Options) → (p : Pattern) → IsProgramOf byte_program t o p → StandsFor result t o p }
    ensures stands_in_units { (t : Table) → (o : Options) → (p : Pattern) → IsProgramOf unit_program t o p → StandsInUnits result t o p }
    ensures programs { (byte_target result ≡ target_of byte_program) × (unit_target result ≡ target_of unit_program) }
{
    Regex::from_programs(alloc, byte_program, unit_program)
}

/// The match at one place of a text.
fn at_place(regex: &Regex, text: &str, start: usize) -> Result<Option<Match>, Error>
    requires { (place : ℕ) × Begins (of_utf8 text.now) start place }
    ensures { (t : Table) → (o : Options) → (p : Pattern) → StandsFor regex.now t o p →
        (place : ℕ) → Begins (of_utf8 text.now) start place →
        IfOk result (λ found. option_map item_of found ≡ option_map (told (of_utf8 text.now)) (outcome_at t o p (chars text.now) place)) }
{
    regex.match_at(text, start)
}

/// The match at one place of 16-bit units.
fn at_unit(regex: &Regex, units: &[u16], start: usize) -> Result<Option<Match>, Error>
    ensures { (t : Table) → (o : Options) → (p : Pattern) → StandsInUnits regex.now t o p →
        (place : ℕ) → Begins (of_ucs2 units.now) start place →
        IfOk result (λ found. option_map item_of found ≡ option_map (told (of_ucs2 units.now)) (outcome_at t o p units.now place)) }
{
    regex.match_at_ucs2(units, start)
}
