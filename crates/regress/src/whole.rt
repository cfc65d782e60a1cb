//! Patterns over a whole text.
ghost use Rattle.std.specs.Prelude.{◌≡◌, ◌≢◌, ◌≤◌, false, IfOk, IfErr, chars, length};
ghost use Rattle.regress_meaning.specs.Pattern.{Pattern};
ghost use Rattle.regress_meaning.specs.Grammar.{Spells};
ghost use Rattle.regress_meaning.specs.Limits.{WithinLimits};
ghost use Rattle.regress_meaning.specs.WholeText.{whole_text};
ghost use Rattle.regress_front.specs.TableViews.{table};
ghost use Rattle.regress_front.specs.FlagWords.{options};
ghost use Rattle.regress.specs.Refusing.{MayRefuseWholeText};

use crate::api::Regex;
use regress_errors::code_points;
use regress_front::{Error, Flags, Tables};
use regress_programs::Compiled;
use std::alloc::Global;
use std::sync::ArcStr;

impl Regex {
    ghost use Rattle.regress.specs.Standing.{StandsFor, StandsInUnits, source_of};

    /// Compiles a pattern that has to match a whole text, as HTML's `pattern` attribute has it: `(?-m:^)(?:P)(?-m:$)` for the pattern P.
    ///
    /// The regex matches where some way to match P from the start of the text ends at its end, if not the preferred one: for
    /// `a|ab` it matches `ab`. The match is the whole text, with the groups of the first such way; groups keep their numbers
    /// and names. With the flag `m` it is the same. `as_str` is the text of P.
    ///
    /// P has to be a pattern by itself, so `a)|(b` is none. Refused as `with_flags` says of P, but that `TooLarge` is told of a
    /// program of the whole.
    ///
    /// ```rust
    /// let year = Regex::whole_text(alloc, r"\d\d|\d{4}", Flags::default(), &tables)?;
    /// let is_year = year.is_match("2025")?; // true
    /// ```
    pub fn whole_text(
        alloc: Global,
        pattern: &str,
        flags: Flags,
        tables: &Tables,
    ) -> Result<Regex, Error>
        ensures accepted { IfOk result (λ r. (p : Pattern) × Spells (table tables.now) (options flags) (chars pattern.now) p × WithinLimits p × StandsFor r (table tables.now) (options flags) (whole_text p) × StandsInUnits r (table tables.now) (options flags) (whole_text p)) }
        ensures text { IfOk result (λ r. source_of r ≡ pattern.now) }
        ensures refused { IfErr result (MayRefuseWholeText (table tables.now) (options flags) (chars pattern.now)) }
        ensures fits { (options flags).sets ≡ false → length (chars pattern.now) ≤ 10000 → IfErr result (λ e. e ≢ Error.TooLarge) }
    {
        let points = code_points(alloc, pattern)?;
        let compiled = Compiled::whole_text(alloc, &points, flags, tables)?;
        let source = ArcStr::from_str(alloc, pattern)?;
        Ok(Regex {
            alloc,
            source: Some(source),
            compiled,
        })
    }
}
