//! The code points that the units of a pattern stand for.
ghost use Rattle.std.specs.Prelude.{◌≡◌, ◌≤◌, ◌&&◌, true, false, All, length, IfOk, IsOkUnless};
ghost use Rattle.regress_meaning.specs.Flags.{is_unicode};
ghost use Rattle.regress_meaning.specs.Grammar.{holds_a_name};
ghost use Rattle.regress_meaning.specs.Offsets.{characters};
ghost use Rattle.regress_meaning.specs.Tokens.{is_high, is_low, joined};
ghost use Rattle.regress_front_core.specs.FlagWords.{options};
ghost use Rattle.regress_pattern_units.specs.PatternUnits.{begins_name, place_behind, is_in_name, point_at, scanned_points, pattern_points};
ghost use Rattle.regress_pattern_units.specs.declared.units.Place.TheVariants.{Outside};

use regress_front_core::{Error, Flags};
use regress_front_tables::{CodePoint, Tables};
use regress_front_tokens::mode_of;
use std::alloc::{AllocError, Global};

/// Where a scan of the units of a pattern stands.
#[derive(Debug, Clone, Copy)]
enum Place {
    /// Neither in a class nor in a name.
    Outside,
    /// There, behind a backslash.
    Escaped,
    InClass,
    /// In a class, behind a backslash.
    EscapedInClass,
    /// In the name of a group.
    InName,
}

/// Whether two units are the halves of a pair.
fn is_pair(high: u16, low: u16) -> bool
    ensures { result ≡ (is_high high && is_low low) }
{
    (0xD800..=0xDBFF).contains(&high) && (0xDC00..=0xDFFF).contains(&low)
}

/// The code point of a pair.
fn join(high: u16, low: u16) -> CodePoint
    requires { (is_high high && is_low low) ≡ true }
    ensures { result ≡ joined high low }
{
    0x1_0000 + (CodePoint::from(high) - 0xD800) * 0x400 + (CodePoint::from(low) - 0xDC00)
}

/// The code point that a unit begins, and the units behind it. `pairs`: a high unit before a low one is one code point.
fn point_at(pairs: bool, unit: u16, behind: &[u16]) -> (CodePoint, &[u16])
    ensures point { result.0 ≡ (point_at pairs unit behind.now).0 }
    ensures behind { result.1.now ≡ (point_at pairs unit behind.now).1 }
    ensures shorter { length result.1.now ≤ length behind.now }
{
    match behind {
        [low, rest @ ..] if pairs && is_pair(unit, *low) => (join(unit, *low), rest),
        _ => (CodePoint::from(unit), behind),
    }
}

/// Whether the units begin with the opening of a name: `(?<` that opens no lookbehind, and `\k<` where names are in force.
fn begins_name(units: &[u16], named: bool) -> bool
    ensures { result ≡ begins_name named units.now }
{
    match units {
        [0x28, 0x3F, 0x3C, 0x3D | 0x21, ..] => false, // `(?<=` and `(?<!`
        [0x28, 0x3F, 0x3C, ..] => true, // `(?<`
        [0x5C, 0x6B, 0x3C, ..] => named, // `\k<`
        _ => false,
    }
}

impl Place {
    /// Where the scan stands behind the first of these units.
    fn behind(self, units: &[u16], named: bool) -> Place
        ensures { result ≡ place_behind named self units.now }
    {
        match (self, units) {
            (Place::Outside, _) if begins_name(units, named) => Place::InName,
            (Place::Outside, [0x5B, ..]) => Place::InClass, // `[`
            (Place::Outside, [0x5C, ..]) => Place::Escaped, // a backslash
            (Place::InClass, [0x5C, ..]) => Place::EscapedInClass,
            (Place::InClass, [0x5D, ..]) => Place::Outside, // `]`
            (Place::InName, [0x3E, ..]) => Place::Outside, // `>`
            (Place::Escaped, _) => Place::Outside,
            (Place::EscapedInClass, _) => Place::InClass,
            _ => self,
        }
    }

    /// Whether it stands in a name.
    fn is_in_name(self) -> bool
        ensures { result ≡ is_in_name self }
    {
        matches!(self, Place::InName)
    }
}

/// The characters of units: a high unit before a low one is one.
fn characters(alloc: Global, units: &[u16]) -> Result<Vec<CodePoint>, AllocError>
    ensures { IfOk result (λ points. points.items ≡ characters units.now) }
{
    let mut points = Vec::new(alloc);
    let mut rest = units;
    while let [unit, behind @ ..] = rest {
        let (point, after) = point_at(true, *unit, behind);
        points.push(point)?;
        rest = after;
    }
    Ok(points)
}

/// The code points of the units of a pattern without Unicode mode: in a name a high unit before a low one is one, any other unit
/// is one alone. `named`: names are in force.
fn scanned_points(alloc: Global, units: &[u16], named: bool) -> Result<Vec<CodePoint>, AllocError>
    ensures { IfOk result (λ points. points.items ≡ scanned_points named Outside units.now) }
{
    let mut points = Vec::new(alloc);
    let mut place = Place::Outside;
    let mut rest = units;
    while let [unit, behind @ ..] = rest {
        place = place.behind(rest, named);
        let (point, after) = point_at(place.is_in_name(), *unit, behind);
        points.push(point)?;
        rest = after;
    }
    Ok(points)
}

/// Whether units open a name of a group, each of them taken alone; so `\k<` begins a name too.
fn holds_a_name(alloc: Global, units: &[u16], tables: &Tables) -> Result<bool, Error>
    ensures named { IfOk result (λ named. named ≡ holds_a_name false false units.now) }
    ensures refused { IsOkUnless result Error.OutOfMemory }
{
    let points: Vec<CodePoint> = units
        .iter()
        .map(|unit| CodePoint::from(*unit))
        .collect(alloc)?;
    let mode = mode_of(alloc, &points, Flags::default(), tables)?;
    Ok(mode.named)
}

/// The code points that the units of a pattern stand for under flags. In Unicode mode a high unit before a low one is one code
/// point. Else each unit is one, but in the name of a group such a pair is one there too ("RegExpIdentifierName").
///
/// Errs with `OutOfMemory` alone.
///
/// ```rust
/// let points = pattern_points(alloc, &[0xD83D, 0xDE00, 0x2B], flags, &tables)?; // under `u` 0x1F600 and 0x2B
/// ```
pub fn pattern_points(
    alloc: Global,
    units: &[u16],
    flags: Flags,
    tables: &Tables,
) -> Result<Vec<CodePoint>, Error>
    ensures points { IfOk result (λ points. points.items ≡ pattern_points (is_unicode (options flags)) units.now) }
    ensures within { IfOk result (λ points. All (λ c. c ≤ 0x10_FFFF) points.items) }
    ensures refused { IsOkUnless result Error.OutOfMemory }
{
    if flags.is_unicode() {
        return Ok(characters(alloc, units)?);
    }
    let named = holds_a_name(alloc, units, tables)?;
    Ok(scanned_points(alloc, units, named)?)
}
