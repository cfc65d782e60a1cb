//! The laws of tables that are about single code points.
ghost use Rattle.std.specs.Prelude.{◌≡◌, ◌↔◌, ◌<◌, ◌+◌, ℕ, false, true, [], IsTrue, IfSome, IfNone, IfOk, All, unwrap_or};
ghost use Rattle.std.specs.Ordering.{nat_cmp};
ghost use Rattle.std.specs.BTreeMap.{get};
ghost use Rattle.regress_meaning.specs.TableParts.{PairsRise, IntervalsRise, KeepsRange, KeepsOrder, KeepsCanonical, BothMaps, HasAsciiCase, IsIdempotentAt, HasSmallClass, AvoidsSurrogates, KeepsIdentifierAt, in_intervals, is_surrogate, is_code_point};
ghost use Rattle.regress_front_sets.specs.Intervals.{ends_of};
ghost use Rattle.regress_front_tables.specs.Parts.{parts_of};
ghost use Rattle.regress_front_tables.specs.Breaking.{Tells};
ghost use Rattle.regress_front_tables.specs.Telling.{TellsLeast, lesser, others_to};
ghost use Rattle.regress_front_tables.specs.declared.tables.law.TableLaw.TheVariants.{AsciiCase, Idempotent, ClassSize, Surrogate, Identifier};

use super::image::image;
use super::parts::TableParts;
use regress_front_sets::{CodePoint, Interval};
use std::alloc::{AllocError, Global};
use std::collections::BTreeMap;

const FIRST_SURROGATE: CodePoint = 0xD800;

const LAST_SURROGATE: CodePoint = 0xDFFF;

/// The least code point under 80 (hexadecimal) at which a map isn't ASCII's, if there is one.
pub(crate) fn wrong_ascii_case(parts: &TableParts) -> Option<CodePoint>
    requires { KeepsOrder (parts_of parts.now) }
    ensures kept { IfNone result ((c : ℕ) → c < 0x80 → HasAsciiCase (parts_of parts.now) c) }
    ensures broken { IfSome result (λ c. Tells AsciiCase (parts_of parts.now) c) }
{
    (0..0x80).find(|c| !has_ascii_case(parts, *c))
}

/// Whether both maps are ASCII's on the code point, which is under 80 (hexadecimal).
fn has_ascii_case(parts: &TableParts, c: CodePoint) -> bool
    requires order { KeepsOrder (parts_of parts.now) }
    requires ascii { c < 0x80 }
    ensures { IsTrue result ↔ HasAsciiCase (parts_of parts.now) c }
{
    let letter = c as u8;
    image(&parts.fold, c) == u32::from(letter.to_ascii_lowercase())
        && image(&parts.upper, c) == u32::from(letter.to_ascii_uppercase())
}

/// The least code point at which a map applied twice isn't the map applied once, if there is one.
pub(crate) fn moved_twice(parts: &TableParts) -> Option<CodePoint>
    requires { KeepsOrder (parts_of parts.now) }
    ensures kept { IfNone result
        (BothMaps (parts_of parts.now) (λ pairs. (c : ℕ) → IsIdempotentAt c pairs)) }
    ensures broken { IfSome result (λ c. Tells Idempotent (parts_of parts.now) c) }
{
    least(moved_twice_by(&parts.fold), moved_twice_by(&parts.upper))
}

/// The least code point at which one map applied twice isn't the map applied once.
fn moved_twice_by(pairs: &[(CodePoint, CodePoint)]) -> Option<CodePoint>
    requires { PairsRise pairs.now }
    ensures { TellsLeast result (λ c. IsIdempotentAt c pairs.now) }
{
    pairs
        .iter()
        .find(|pair| image(pairs, pair.1) != pair.1)
        .map(|pair| pair.0)
}

/// The least image that more than four code points share in a map, if there is one. Errs where memory is refused.
pub(crate) fn too_large_class(
    alloc: Global,
    parts: &TableParts,
) -> Result<Option<CodePoint>, AllocError>
    requires range { KeepsRange (parts_of parts.now) }
    requires order { KeepsOrder (parts_of parts.now) }
    requires idempotent { BothMaps (parts_of parts.now) (λ pairs. (c : ℕ) → IsIdempotentAt c pairs) }
    ensures kept { IfOk result (λ told. IfNone told
        (BothMaps (parts_of parts.now) (λ pairs. (d : ℕ) → HasSmallClass d pairs))) }
    ensures broken { IfOk result (λ told. IfSome told (λ d. Tells ClassSize (parts_of parts.now) d)) }
{
    let fold = too_large_class_by(alloc, &parts.fold)?;
    let upper = too_large_class_by(alloc, &parts.upper)?;
    Ok(least(fold, upper))
}

/// The least image that more than four code points share in one map.
fn too_large_class_by(
    alloc: Global,
    pairs: &[(CodePoint, CodePoint)],
) -> Result<Option<CodePoint>, AllocError>
    requires range { All (λ p. is_code_point p.0 × is_code_point p.1) pairs.now }
    requires order { PairsRise pairs.now }
    requires idempotent { (c : ℕ) → IsIdempotentAt c pairs.now }
    ensures { IfOk result (λ told. TellsLeast told (λ d. HasSmallClass d pairs.now)) }
{
    let sizes = class_sizes(alloc, pairs)?;
    Ok(
        sizes
            .iter()
            .find(|entry| *entry.1 > 4)
            .map(|entry| *entry.0),
    )
}

/// For each image of another code point how many have it: those, and the image itself.
fn class_sizes(
    alloc: Global,
    pairs: &[(CodePoint, CodePoint)],
) -> Result<BTreeMap<CodePoint, usize>, AllocError>
    ensures { IfOk result
        (λ sizes. (d : ℕ) → unwrap_or (get nat_cmp sizes d) 1 ≡ 1 + others_to pairs.now d) }
{
    let mut sizes = BTreeMap::new(alloc);
    for (c, image) in pairs {
        if c != image {
            *sizes.entry(*image)?.or_insert(1) += 1;
        }
    }
    Ok(sizes)
}

/// The least code point that is no surrogate and is mapped to one, if there is one.
pub(crate) fn mapped_to_surrogate(parts: &TableParts) -> Option<CodePoint>
    requires { KeepsOrder (parts_of parts.now) }
    ensures kept { IfNone result
        (BothMaps (parts_of parts.now) (λ pairs. (c : ℕ) → AvoidsSurrogates c pairs)) }
    ensures broken { IfSome result (λ c. Tells Surrogate (parts_of parts.now) c) }
{
    least(
        mapped_to_surrogate_by(&parts.fold),
        mapped_to_surrogate_by(&parts.upper),
    )
}

/// The least code point that is no surrogate and that one map takes to a surrogate.
fn mapped_to_surrogate_by(pairs: &[(CodePoint, CodePoint)]) -> Option<CodePoint>
    requires { PairsRise pairs.now }
    ensures { TellsLeast result (λ c. AvoidsSurrogates c pairs.now) }
{
    pairs
        .iter()
        .find(|pair| !is_surrogate(pair.0) && is_surrogate(pair.1))
        .map(|pair| pair.0)
}

/// Whether the code point is a surrogate.
fn is_surrogate(c: CodePoint) -> bool
    ensures { result ≡ is_surrogate c }
{
    FIRST_SURROGATE <= c && c <= LAST_SURROGATE
}

/// The lesser of two code points, of those that are there.
pub(crate) fn least(a: Option<CodePoint>, b: Option<CodePoint>) -> Option<CodePoint>
    ensures { result ≡ lesser a b }
{
    match (a, b) {
        (Some(c), Some(d)) => Some(c.min(d)),
        (c, None) | (None, c) => c,
    }
}

/// The least surrogate in the intervals.
fn first_surrogate(intervals: &[Interval]) -> Option<CodePoint>
    requires { IntervalsRise (ends_of intervals.now) }
    ensures { TellsLeast result
        (λ c. in_intervals (ends_of intervals.now) c ≡ true → is_surrogate c ≡ false) }
{
    intervals
        .iter()
        .find(|interval| FIRST_SURROGATE <= interval.last && interval.first <= LAST_SURROGATE)
        .map(|interval| interval.first.max(FIRST_SURROGATE))
}

/// The least code point that identifiers hold and may not, if there is one.
pub(crate) fn wrong_identifier(parts: &TableParts) -> Option<CodePoint>
    requires { KeepsCanonical (parts_of parts.now) }
    ensures kept { IfNone result ((c : ℕ) → KeepsIdentifierAt (parts_of parts.now) c) }
    ensures broken { IfSome result (λ c. Tells Identifier (parts_of parts.now) c) }
{
    let ascii = (0..0x80).find(|c| !fits_identifiers(parts, *c));
    let start = first_surrogate(&parts.id_start);
    let further = first_surrogate(&parts.id_continue);
    least(ascii, least(start, further))
}

/// Whether identifiers hold the code point only where they may. It is under 80 (hexadecimal).
fn fits_identifiers(parts: &TableParts, c: CodePoint) -> bool
    requires { c < 0x80 }
    ensures { IsTrue result ↔ KeepsIdentifierAt (parts_of parts.now) c }
{
    let letter = c as u8;
    let may_start = letter.is_ascii_alphabetic();
    let may_go_on = letter.is_ascii_alphanumeric() || letter == b'_';
    (may_start || !is_in(&parts.id_start, c)) && (may_go_on || !is_in(&parts.id_continue, c))
}

/// Whether the code point lies in one of the intervals.
fn is_in(intervals: &[Interval], c: CodePoint) -> bool
    ensures { result ≡ in_intervals (ends_of intervals.now) c }
{
    intervals.iter().any(|interval| interval.contains(c))
}
