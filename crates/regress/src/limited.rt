//! Patterns of which a program may have no more instructions than a limit.
ghost use Rattle.std.specs.Prelude.{◌≡◌, ◌≢◌, ◌≤◌, false, All, IfOk, IfErr, chars, length};
ghost use Rattle.regress_meaning.specs.Flags.{is_unicode};
ghost use Rattle.regress_meaning.specs.WholeText.{whole_text};
ghost use Rattle.regress_front.specs.TableViews.{table};
ghost use Rattle.regress_front.specs.FlagWords.{options};
ghost use Rattle.regress_errors.specs.Texts.{shown_text};
ghost use Rattle.regress_pattern_units.specs.PatternUnits.{pattern_points};
ghost use Rattle.regress.specs.Limited.{StandsWithin, IsSmall, MayRefuseWithin};

use crate::api::Regex;
use regress_errors::{CompileError, code_points, text_of};
use regress_front::{Error, Flags, Tables};
use regress_pattern_units::pattern_points;
use regress_programs::Compiled;
use std::alloc::Global;
use std::sync::ArcStr;

/// A limit for patterns of strangers, in instructions, that refuses hardly any pattern that a person writes.
///
/// ```rust
/// let regex = Regex::with_limit(alloc, "a+b", Flags::default(), &tables, DEFAULT_LIMIT)?;
/// ```
pub const DEFAULT_LIMIT: usize = 1_000_000;

impl Regex {
    ghost use Rattle.regress.specs.Standing.{source_of};

    /// Compiles a pattern as `with_flags` does, if neither of its two programs may have more instructions than a limit. That is told before
    /// anything of their size is made. It is for patterns of strangers, of which a short one may stand for a very large program.
    ///
    /// A pattern costs about a node for each character. It costs one for each group of a name that a reference tells, for each
    /// group that a repetition resets, and for each node of each copy of a small body that unrolling makes. Each of the two
    /// programs has at most two instructions for each.
    ///
    /// Refused as `PastLimit` exactly where the text spells a pattern of which twice the cost is more than the limit, and else as
    /// `with_flags` says.
    ///
    /// ```rust
    /// let regex = Regex::with_limit(alloc, "a+b", Flags::default(), &tables, 1_000_000)?;
    /// ```
    pub fn with_limit(
        alloc: Global,
        pattern: &str,
        flags: Flags,
        tables: &Tables,
        limit: usize,
    ) -> Result<Regex, CompileError>
        ensures accepted { IfOk result (StandsWithin limit (λ p. p) (table tables.now) (options flags) (chars pattern.now)) }
        ensures text { IfOk result (λ r. source_of r ≡ pattern.now) }
        ensures small { IfOk result (IsSmall limit) }
        ensures refused { IfErr result (MayRefuseWithin limit (λ p. p) (table tables.now) (options flags) (chars pattern.now)) }
        ensures fits { (options flags).sets ≡ false → length (chars pattern.now) ≤ 10000 → IfErr result (λ e. e ≢ CompileError.Pattern Error.TooLarge) }
    {
        let points = code_points(alloc, pattern)?;
        Regex::from_unicode_with_limit(alloc, &points, flags, tables, limit)
    }

    /// Compiles a pattern that is given as code points as `from_unicode` does, within a limit as `with_limit` has it.
    ///
    /// Asks that all are code points, as `are_code_points` tells. Refused as `with_limit` says.
    ///
    /// ```rust
    /// let regex = Regex::from_unicode_with_limit(alloc, &[0x61, 0xD800], Flags::default(), &tables, 1000)?;
    /// ```
    pub fn from_unicode_with_limit(
        alloc: Global,
        points: &[u32],
        flags: Flags,
        tables: &Tables,
        limit: usize,
    ) -> Result<Regex, CompileError>
        requires { All (λ c. c ≤ 0x10_FFFF) points.now }
        ensures accepted { IfOk result (StandsWithin limit (λ p. p) (table tables.now) (options flags) points.now) }
        ensures text { IfOk result (λ r. source_of r ≡ shown_text points.now) }
        ensures small { IfOk result (IsSmall limit) }
        ensures refused { IfErr result (MayRefuseWithin limit (λ p. p) (table tables.now) (options flags) points.now) }
        ensures fits { (options flags).sets ≡ false → length points.now ≤ 10000 → IfErr result (λ e. e ≢ CompileError.Pattern Error.TooLarge) }
    {
        let source = ArcStr::from_string(text_of(alloc, points)?)?;
        let compiled = Compiled::new_within(alloc, points, flags, tables, limit / 2)?;
        Ok(Regex {
            alloc,
            source: Some(source),
            compiled,
        })
    }

    /// Compiles a pattern that is given in 16-bit units as `from_utf16` does, within a limit as `with_limit` has it.
    ///
    /// Refused as `with_limit` says.
    ///
    /// ```rust
    /// let regex = Regex::from_utf16_with_limit(alloc, &[0xD83D, 0xDE00, 0x2B], flags, &tables, 1000)?; // `😀+` under `u`
    /// ```
    pub fn from_utf16_with_limit(
        alloc: Global,
        units: &[u16],
        flags: Flags,
        tables: &Tables,
        limit: usize,
    ) -> Result<Regex, CompileError>
        ensures accepted { IfOk result (StandsWithin limit (λ p. p) (table tables.now) (options flags) (pattern_points (is_unicode (options flags)) units.now)) }
        ensures text { IfOk result (λ r. source_of r ≡ shown_text (pattern_points (is_unicode (options flags)) units.now)) }
        ensures small { IfOk result (IsSmall limit) }
        ensures refused { IfErr result (MayRefuseWithin limit (λ p. p) (table tables.now) (options flags) (pattern_points (is_unicode (options flags)) units.now)) }
        ensures fits { (options flags).sets ≡ false → length (pattern_points (is_unicode (options flags)) units.now) ≤ 10000 → IfErr result (λ e. e ≢ CompileError.Pattern Error.TooLarge) }
    {
        let points = pattern_points(alloc, units, flags, tables)?;
        Regex::from_unicode_with_limit(alloc, &points, flags, tables, limit)
    }

    /// Compiles a pattern over a whole text as `whole_text` does, if neither program of what is made of it may have more
    /// instructions than a limit.
    ///
    /// Refused as `PastLimit` exactly where twice its cost is more than the limit, and else as `whole_text` says.
    ///
    /// ```rust
    /// let year = Regex::whole_text_with_limit(alloc, r"\d\d|\d{4}", Flags::default(), &tables, 1000)?;
    /// ```
    pub fn whole_text_with_limit(
        alloc: Global,
        pattern: &str,
        flags: Flags,
        tables: &Tables,
        limit: usize,
    ) -> Result<Regex, CompileError>
        ensures accepted { IfOk result (StandsWithin limit whole_text (table tables.now) (options flags) (chars pattern.now)) }
        ensures text { IfOk result (λ r. source_of r ≡ pattern.now) }
        ensures small { IfOk result (IsSmall limit) }
        ensures refused { IfErr result (MayRefuseWithin limit whole_text (table tables.now) (options flags) (chars pattern.now)) }
        ensures fits { (options flags).sets ≡ false → length (chars pattern.now) ≤ 10000 → IfErr result (λ e. e ≢ CompileError.Pattern Error.TooLarge) }
    {
        let points = code_points(alloc, pattern)?;
        let source = ArcStr::from_str(alloc, pattern)?;
        let compiled = Compiled::whole_text_within(alloc, &points, flags, tables, limit / 2)?;
        Ok(Regex {
            alloc,
            source: Some(source),
            compiled,
        })
    }
}
