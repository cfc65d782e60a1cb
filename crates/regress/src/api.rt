//! The user's calls.
ghost use Rattle.std.specs.Iterator.{HoldsAfterAnyCalls};
ghost use Rattle.std.specs.Prelude.{◌≡◌, ◌≢◌, ◌≤◌, ◌↔◌, ℕ, false, All, IsTrue, IfOk, IfErr, IfSome, Some, Err, IsOkUnless, IsCharBoundary, chars, length, map, slice_get, option_map};
ghost use Rattle.regress_meaning.specs.Table.{Table};
ghost use Rattle.regress_meaning.specs.Pattern.{Pattern};
ghost use Rattle.regress_meaning.specs.Flags.{Options, is_unicode, no_flags};
ghost use Rattle.regress_meaning.specs.Grammar.{Spells};
ghost use Rattle.regress_meaning.specs.Limits.{WithinLimits};
ghost use Rattle.regress_meaning.specs.Matches.{match_list};
ghost use Rattle.regress_meaning.specs.Laws.{ItemsRise};
ghost use Rattle.regress_meaning.specs.Offsets.{of_utf8, told, Begins};
ghost use Rattle.regress_front.specs.TableViews.{table};
ghost use Rattle.regress_match.specs.Views.{item_of};
ghost use Rattle.regress_front.specs.FlagWords.{options};
ghost use Rattle.regress.specs.Refusing.{MayRefuseRegex};
ghost use Rattle.regress_errors.specs.Texts.{shown_text};
ghost use Rattle.regress_pattern_units.specs.PatternUnits.{pattern_points};

use regress_errors::{code_points, text_of};
use regress_front::{Error, Flags, Tables};
use regress_match::Match;
use regress_pattern_units::pattern_points;
use regress_programs::{Compiled, Matches};
use std::alloc::Global;
use std::fmt;
use std::sync::ArcStr;

/// Whether a search in `text` may begin at `start`, an offset in bytes: at a boundary between characters, or past the end.
///
/// ```rust
/// let inside = is_start("é", 1); // false: 1 stands inside a character
/// ```
pub fn is_start(text: &str, start: usize) -> bool
    ensures { IsTrue result ↔ ((place : ℕ) × Begins (of_utf8 text.now) start place) }
{
    start > text.len() || text.is_char_boundary(start)
}

/// A compiled pattern. It shares the tables that it was compiled with and borrows nothing, so a struct may own it beside them.
pub struct Regex {
    pub(crate) alloc: Global,
    /// The pattern's text, unless it was made of programs.
    pub(crate) source: Option<ArcStr>,
    pub(crate) compiled: Compiled,
}

// By hand, so that a caller's proof passes over one call where a regex goes out of scope, and not over each field of its programs.
impl Drop for Regex {
    fn drop(self) {
        let Regex {
            alloc: _,
            source: _,
            compiled: _,
        } = self;
    }
}

impl Regex {
    ghost use Rattle.regress_front.specs.Trees.{Tree};
    ghost use Rattle.regress.specs.Standing.{StandsFor, StandsInUnits, HasTree, tree_list, source_of, names_of_regex};
    ghost use Rattle.regress.specs.Coming.{searched, searched_names, coming, BeginsAndEndsAtStarts, HoldsOfEach};
    ghost use Rattle.regress_match.specs.GroupViews.{names_of_match};
    ghost use Rattle.regress_match.specs.TextRanges.{LiesBetween, LiesInText};

    /// Compiles a pattern without flags.
    ///
    /// Refused as `with_flags` says.
    ///
    /// ```rust
    /// let regex = Regex::new(alloc, "a+b", &tables)?;
    /// ```
    pub fn new(alloc: Global, pattern: &str, tables: &Tables) -> Result<Regex, Error>
        ensures accepted { IfOk result (λ r. (p : Pattern) × Spells (table tables.now) no_flags (chars pattern.now) p × WithinLimits p × StandsFor r (table tables.now) no_flags p × StandsInUnits r (table tables.now) no_flags p) }
        ensures text { IfOk result (λ r. source_of r ≡ pattern.now) }
        ensures refused { IfErr result (MayRefuseRegex (table tables.now) no_flags (chars pattern.now)) }
        ensures fits { length (chars pattern.now) ≤ 10000 → IfErr result (λ e. e ≢ Error.TooLarge) }
    {
        Regex::with_flags(alloc, pattern, Flags::default(), tables)
    }

    /// Compiles a pattern under flags ("RegExpInitialize").
    ///
    /// Answers a `Regex` for the tree that the pattern spells. Refused as `Syntax` where the text spells no tree, under the
    /// name of a limit that it passes, as `TooLarge` where a program of it has more than 2^32 - 1 instructions, which without
    /// `v` no pattern of at most 10000 characters has, and as `OutOfMemory`.
    ///
    /// ```rust
    /// let regex = Regex::with_flags(alloc, "a+b", Flags::parse("im")?.flags, &tables)?;
    /// ```
    pub fn with_flags(
        alloc: Global,
        pattern: &str,
        flags: Flags,
        tables: &Tables,
    ) -> Result<Regex, Error>
        ensures accepted { IfOk result (λ r. (p : Pattern) × Spells (table tables.now) (options flags) (chars pattern.now) p × WithinLimits p × StandsFor r (table tables.now) (options flags) p × StandsInUnits r (table tables.now) (options flags) p) }
        ensures text { IfOk result (λ r. source_of r ≡ pattern.now) }
        ensures refused { IfErr result (MayRefuseRegex (table tables.now) (options flags) (chars pattern.now)) }
        ensures fits { (options flags).sets ≡ false → length (chars pattern.now) ≤ 10000 → IfErr result (λ e. e ≢ Error.TooLarge) }
    {
        let points = code_points(alloc, pattern)?;
        Regex::from_unicode(alloc, &points, flags, tables)
    }

    /// Compiles a pattern that is given as code points; raw surrogates are never joined. In its text, as `as_str` has it,
    /// U+FFFD stands for each.
    ///
    /// Asks that all are code points, as `are_code_points` tells. Refused as `with_flags` says.
    ///
    /// ```rust
    /// let regex = Regex::from_unicode(alloc, &[0x61, 0xD800], Flags::default(), &tables)?;
    /// ```
    pub fn from_unicode(
        alloc: Global,
        points: &[u32],
        flags: Flags,
        tables: &Tables,
    ) -> Result<Regex, Error>
        requires { All (λ c. c ≤ 0x10_FFFF) points.now }
        ensures accepted { IfOk result (λ r. (p : Pattern) × Spells (table tables.now) (options flags) points.now p × WithinLimits p × StandsFor r (table tables.now) (options flags) p × StandsInUnits r (table tables.now) (options flags) p) }
        ensures text { IfOk result (λ r. source_of r ≡ shown_text points.now) }
        ensures refused { IfErr result (MayRefuseRegex (table tables.now) (options flags) points.now) }
        ensures fits { (options flags).sets ≡ false → length points.now ≤ 10000 → IfErr result (λ e. e ≢ Error.TooLarge) }
    {
        let source = ArcStr::from_string(text_of(alloc, points)?)?;
        let compiled = Compiled::new(alloc, points, flags, tables)?;
        Ok(Regex {
            alloc,
            source: Some(source),
            compiled,
        })
    }

    /// Compiles a pattern that is given in 16-bit units, as script interpreters have it ("RegExpInitialize").
    ///
    /// In Unicode mode a high unit before a low one is one character. Else each unit is one, but in the name of a group such a
    /// pair is one there too ("RegExpIdentifierName"): so `find_from_ucs2` finds what the standard finds, whatever the units.
    /// In its text, as `as_str` has it, U+FFFD stands for each unit of a pair that is not joined, and for each that is in none.
    ///
    /// Refused as `with_flags` says.
    ///
    /// ```rust
    /// let regex = Regex::from_utf16(alloc, &[0xD83D, 0xDE00, 0x2B], flags, &tables)?; // `😀+` under `u`
    /// ```
    pub fn from_utf16(
        alloc: Global,
        units: &[u16],
        flags: Flags,
        tables: &Tables,
    ) -> Result<Regex, Error>
        ensures accepted { IfOk result (λ r. (p : Pattern) × Spells (table tables.now) (options flags) (pattern_points (is_unicode (options flags)) units.now) p × WithinLimits p × StandsFor r (table tables.now) (options flags) p × StandsInUnits r (table tables.now) (options flags) p) }
        ensures text { IfOk result (λ r. source_of r ≡ shown_text (pattern_points (is_unicode (options flags)) units.now)) }
        ensures refused { IfErr result (MayRefuseRegex (table tables.now) (options flags) (pattern_points (is_unicode (options flags)) units.now)) }
        ensures fits { (options flags).sets ≡ false → length (pattern_points (is_unicode (options flags)) units.now) ≤ 10000 → IfErr result (λ e. e ≢ Error.TooLarge) }
    {
        let points = pattern_points(alloc, units, flags, tables)?;
        Regex::from_unicode(alloc, &points, flags, tables)
    }

    /// The first match in a text, its ranges told in bytes ("RegExpBuiltinExec").
    ///
    /// Answers the first item of the pattern's match list from the beginning of the text. Errs with `OutOfMemory` alone.
    ///
    /// ```rust
    /// let found = regex.find("xaab")?; // for `a+b` the match at 1..4
    /// ```
    pub fn find(&self, text: &str) -> Result<Option<Match>, Error>
        ensures found { (t : Table) → (o : Options) → (p : Pattern) → StandsFor self.now t o p →
            IfOk result (λ found. option_map item_of found ≡ option_map (told (of_utf8 text.now)) (slice_get (match_list t o p (chars text.now) 0) 0)) }
        ensures found_of_tree { (n : ℕ) → (t : Tree) → HasTree self.now n t →
            IfOk result (λ found. option_map item_of found ≡ option_map (told (of_utf8 text.now)) (slice_get (tree_list self.now n t (chars text.now) 0) 0)) }
        ensures inside { IfOk result (λ found. IfSome found (λ m. (m.range.start ≤ m.range.end) × IsCharBoundary text.now m.range.start × IsCharBoundary text.now m.range.end)) }
        ensures groups_inside { IfOk result (λ found. IfSome found (λ m. All (λ g. IfSome g (LiesBetween text.now)) m.captures.items)) }
        ensures starts { IfOk result (λ found. IfSome found (BeginsAndEndsAtStarts text.now)) }
        ensures named { IfOk result (λ found. IfSome found (λ m. names_of_match m ≡ names_of_regex self.now)) }
        ensures refused { IsOkUnless result Error.OutOfMemory }
    {
        self.find_iter(text)?.next().transpose()
    }

    /// All matches in a text, one after another, their ranges told in bytes ("RegExpBuiltinExec").
    ///
    /// Answers an iterator over the pattern's match list from the beginning of the text. Errs with `OutOfMemory` alone.
    ///
    /// ```rust
    /// for found in regex.find_iter("aab ab")? {
    ///     let range = found?.range(); // for `a+b` 0..3, then 4..6
    /// }
    /// ```
    pub fn find_iter<'r, 't>(&'r self, text: &'t str) -> Result<Matches<'r, 't>, Error>
        ensures matches { (t : Table) → (o : Options) → (p : Pattern) → StandsFor self.now t o p →
            IfOk result (λ ms. coming ms ≡ map (told (of_utf8 text.now)) (match_list t o p (chars text.now) 0)) }
        ensures matches_of_tree { (n : ℕ) → (t : Tree) → HasTree self.now n t →
            IfOk result (λ ms. coming ms ≡ map (told (of_utf8 text.now)) (tree_list self.now n t (chars text.now) 0)) }
        ensures over { IfOk result (λ ms. searched ms ≡ text.now) }
        ensures along { IfOk result (HoldsAfterAnyCalls (λ ms. searched ms ≡ text.now) ⟦<Matches<'r, 't> as Iterator>⟧.next_gives) }
        ensures inside { IfOk result (HoldsOfEach ⟦<Matches<'r, 't> as Iterator>⟧.next_gives (LiesInText text.now)) }
        ensures starts { IfOk result (HoldsOfEach ⟦<Matches<'r, 't> as Iterator>⟧.next_gives (BeginsAndEndsAtStarts text.now)) }
        ensures rise { IfOk result (λ ms. ItemsRise (coming ms)) }
        ensures named { IfOk result (λ ms. searched_names ms ≡ names_of_regex self.now) }
        ensures refused { IsOkUnless result Error.OutOfMemory }
    {
        self.find_from(text, 0)
    }

    /// The matches in a text from `start` on, an offset in bytes, as `find_iter` answers them.
    ///
    /// Asks that a search may begin there, as `is_start` tells. Past the end of the text there is none. Errs with `OutOfMemory` alone.
    ///
    /// ```rust
    /// let second = regex.find_from("aab ab", 3)?.next(); // for `a+b` the match at 4..6
    /// ```
    pub fn find_from<'r, 't>(
        &'r self,
        text: &'t str,
        start: usize,
    ) -> Result<Matches<'r, 't>, Error>
        requires { (place : ℕ) × Begins (of_utf8 text.now) start place }
        ensures matches { (t : Table) → (o : Options) → (p : Pattern) → StandsFor self.now t o p →
            (place : ℕ) → Begins (of_utf8 text.now) start place →
            IfOk result (λ ms. coming ms ≡ map (told (of_utf8 text.now)) (match_list t o p (chars text.now) place)) }
        ensures matches_of_tree { (n : ℕ) → (t : Tree) → HasTree self.now n t →
            (place : ℕ) → Begins (of_utf8 text.now) start place →
            IfOk result (λ ms. coming ms ≡ map (told (of_utf8 text.now)) (tree_list self.now n t (chars text.now) place)) }
        ensures over { IfOk result (λ ms. searched ms ≡ text.now) }
        ensures along { IfOk result (HoldsAfterAnyCalls (λ ms. searched ms ≡ text.now) ⟦<Matches<'r, 't> as Iterator>⟧.next_gives) }
        ensures inside { IfOk result (HoldsOfEach ⟦<Matches<'r, 't> as Iterator>⟧.next_gives (LiesInText text.now)) }
        ensures starts { IfOk result (HoldsOfEach ⟦<Matches<'r, 't> as Iterator>⟧.next_gives (BeginsAndEndsAtStarts text.now)) }
        ensures rise { IfOk result (λ ms. ItemsRise (coming ms)) }
        ensures named { IfOk result (λ ms. searched_names ms ≡ names_of_regex self.now) }
        ensures refused { IsOkUnless result Error.OutOfMemory }
    {
        Ok(Matches::new(self.alloc, &self.compiled, text, start))
    }
}

/// The pattern's text and flags, how many groups there are, and how many instructions the programs have.
impl fmt::Debug for Regex {
    fn fmt<W: fmt::Write>(&self, f: &mut fmt::Formatter<W>) -> fmt::Result {
        f.debug_struct("Regex")
            .field("source", &self.as_str())
            .field("flags", &self.compiled.byte_program.flags())
            .field("groups", &self.group_names().len())
            .field("byte_insns", &self.compiled.byte_program.insns().len())
            .field("unit_insns", &self.compiled.unit_program.insns().len())
            .finish()
    }
}
