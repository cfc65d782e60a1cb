//! Where a text is refused as no pattern.
ghost use Rattle.std.specs.Prelude.{◌≡◌, ◌≤◌, All, IfErr, IfNone, IfOk, IfSome, IsCharBoundary, chars, length, take};
ghost use Rattle.regress_meaning.specs.Pattern.{Pattern};
ghost use Rattle.regress_meaning.specs.Grammar.{Spells};
ghost use Rattle.regress_meaning.specs.Limits.{SpellsNone, WithinLimits};
ghost use Rattle.regress_meaning.specs.Offsets.{of_utf8, offset};
ghost use Rattle.regress_front.specs.TableViews.{table};
ghost use Rattle.regress_front.specs.FlagWords.{options};
ghost use Rattle.regress_front.specs.Refusals.{MayRefuse};
ghost use Rattle.regress_errors.specs.Refusing.{IsNoSyntaxError};
ghost use Rattle.regress_errors.specs.Texts.{shown_text, unit_width, units_before, points_of};

use crate::text::{code_points, text_of};
use regress_front::{CodePoint, Error, Flags, Refused, Tables, parse_telling_place};
use regress_pattern_units::pattern_points;
use std::alloc::{AllocError, Global};

/// Why a text is no pattern, and where reading it stopped.
#[derive(Clone, Debug, Drop, PartialEq, Eq)]
pub struct SyntaxError {
    /// What is wrong with it, as `Error::Syntax` says it.
    pub text: &'static str,
    /// Where reading stopped: how many code points of the pattern stand before that place. At the end it is how many it has.
    pub place: usize,
    /// The same place in bytes of the pattern's text. Of a pattern that is given as code points it is that of `Regex::as_str`,
    /// where U+FFFD stands for each surrogate.
    pub offset: usize,
    /// The same place in 16-bit units, of which a code point beyond U+FFFF takes two.
    pub unit_offset: usize,
}

/// How many bytes of a pattern's text stand before a place, which is counted in code points.
fn bytes_before(alloc: Global, points: &[CodePoint], place: usize) -> Result<usize, AllocError>
    requires { place ≤ length points.now }
    ensures { IfOk result (λ count. count ≡ length (shown_text (take place points.now))) }
{
    let text = text_of(alloc, before(points, place))?;
    Ok(text.len())
}

/// How many 16-bit units a code point takes.
fn unit_width(point: CodePoint) -> usize
    ensures { result ≡ unit_width point }
{
    if point < 0x1_0000 { 1 } else { 2 }
}

/// The code points before a place.
fn before(points: &[CodePoint], place: usize) -> &[CodePoint]
    requires { place ≤ length points.now }
    ensures { result.now ≡ take place points.now }
{
    &points[..place]
}

/// How many 16-bit units stand before a place, which is counted in code points.
fn units_before(points: &[CodePoint], place: usize) -> usize
    requires { place ≤ length points.now }
    ensures { result ≡ units_before points.now place }
{
    let before = before(points, place);
    let mut count = 0;
    for point in before {
        count += unit_width(*point);
    }
    count
}

/// What is wrong with a text that is no pattern under flags, and where, for a program that points at it ("ParsePattern").
///
/// Answers `None` where the text spells a pattern within the limits, and else, where `Regex::with_flags` errs with
/// `Error::Syntax`, its text with the place. Errs with all other errors of reading: a limit that is passed, or `OutOfMemory`.
///
/// ```rust
/// let found = syntax_error(alloc, "é)", Flags::default(), &tables)?; // `Some`, with the place 1 and the offset 2
/// ```
pub fn syntax_error(
    alloc: Global,
    pattern: &str,
    flags: Flags,
    tables: &Tables,
) -> Result<Option<SyntaxError>, Error>
    ensures none { IfOk result (λ found. IfNone found ((p : Pattern) × Spells (table tables.now) (options flags) (chars pattern.now) p × WithinLimits p)) }
    ensures spells_none { IfOk result (λ found. IfSome found (λ _. SpellsNone (table tables.now) (options flags) (chars pattern.now))) }
    ensures inside { IfOk result (λ found. IfSome found (λ e. e.place ≤ length (chars pattern.now))) }
    ensures offset { IfOk result (λ found. IfSome found (λ e. e.offset ≡ offset (of_utf8 pattern.now) e.place)) }
    ensures boundary { IfOk result (λ found. IfSome found (λ e. IsCharBoundary pattern.now e.offset)) }
    ensures unit_offset { IfOk result (λ found. IfSome found (λ e. e.unit_offset ≡ units_before (chars pattern.now) e.place)) }
    ensures refused { IfErr result (MayRefuse (table tables.now) (options flags) (chars pattern.now)) }
    ensures other { IfErr result IsNoSyntaxError }
{
    let points = code_points(alloc, pattern)?;
    syntax_error_in_points(alloc, &points, flags, tables)
}

/// What is wrong with code points that spell no pattern, and where, as `syntax_error` tells it.
///
/// ```rust
/// let found = syntax_error_in_points(alloc, &[0xD800, 0x29], Flags::default(), &tables)?; // `Some`, with the place 1
/// ```
pub fn syntax_error_in_points(
    alloc: Global,
    points: &[CodePoint],
    flags: Flags,
    tables: &Tables,
) -> Result<Option<SyntaxError>, Error>
    ensures none { IfOk result (λ found. IfNone found ((p : Pattern) × Spells (table tables.now) (options flags) points.now p × WithinLimits p)) }
    ensures spells_none { IfOk result (λ found. IfSome found (λ _. SpellsNone (table tables.now) (options flags) points.now)) }
    ensures inside { IfOk result (λ found. IfSome found (λ e. e.place ≤ length points.now)) }
    ensures offset { IfOk result (λ found. IfSome found (λ e. e.offset ≡ length (shown_text (take e.place points.now)))) }
    ensures unit_offset { IfOk result (λ found. IfSome found (λ e. e.unit_offset ≡ units_before points.now e.place)) }
    ensures refused { IfErr result (MayRefuse (table tables.now) (options flags) points.now) }
    ensures other { IfErr result IsNoSyntaxError }
{
    match parse_telling_place(alloc, points, flags, tables) {
        Ok(_) => Ok(None),
        Err(
            Refused {
                error: Error::Syntax { text },
                place,
            },
        ) => {
            let offset = bytes_before(alloc, points, place)?;
            Ok(Some(SyntaxError {
                text,
                place,
                offset,
                unit_offset: units_before(points, place),
            }))
        }
        Err(refused) => Err(refused.error),
    }
}

/// What is wrong with 16-bit units that are no pattern, and where, as `syntax_error` tells it of the code points that the units
/// stand for, which `pattern_points` tells. `unit_offset` is then an offset in these units.
///
/// ```rust
/// let found = syntax_error_in_units(alloc, &[0x61, 0x29], Flags::default(), &tables)?; // `Some`, with the offset 1
/// ```
pub fn syntax_error_in_units(
    alloc: Global,
    units: &[u16],
    flags: Flags,
    tables: &Tables,
) -> Result<Option<SyntaxError>, Error>
    ensures none { IfOk result (λ found. IfNone found ((p : Pattern) × Spells (table tables.now) (options flags) (points_of flags units.now) p × WithinLimits p)) }
    ensures spells_none { IfOk result (λ found. IfSome found (λ _. SpellsNone (table tables.now) (options flags) (points_of flags units.now))) }
    ensures inside { IfOk result (λ found. IfSome found (λ e. e.place ≤ length (points_of flags units.now))) }
    ensures offset { IfOk result (λ found. IfSome found (λ e. e.offset ≡ length (shown_text (take e.place (points_of flags units.now))))) }
    ensures unit_offset { IfOk result (λ found. IfSome found (λ e. e.unit_offset ≡ units_before (points_of flags units.now) e.place)) }
    ensures refused { IfErr result (MayRefuse (table tables.now) (options flags) (points_of flags units.now)) }
    ensures other { IfErr result IsNoSyntaxError }
{
    let points = pattern_points(alloc, units, flags, tables)?;
    syntax_error_in_points(alloc, &points, flags, tables)
}
