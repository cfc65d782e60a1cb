//! Case, where it is ignored ("Canonicalize").
ghost use Rattle.std.specs.Prelude.{◌≡◌, ◌<◌, IfOk};
ghost use Rattle.regress_meaning.specs.Table.{code_points};
ghost use Rattle.std.specs.Char.Unicode.ToUppercase.{to_uppercase};
ghost use Rattle.regress_unicode.specs.Case.{fold_of, upper_of, single_upper, is_kept, moved, units};

use regress_front_tables::{CODE_POINT_MAX, CodePoint};
use std::alloc::{AllocError, Global};
use unicode::case::simple_fold;

/// How many code points one 16-bit unit can be.
const UNITS: CodePoint = 0x1_0000;

/// Each code point that simple case folding moves, with its image, from low to high.
pub(crate) fn fold_pairs(alloc: Global) -> Result<Vec<(CodePoint, CodePoint)>, AllocError>
    ensures { IfOk result (λ pairs. pairs.items ≡ moved fold_of code_points) }
{
    let mut pairs = Vec::new(alloc);
    for c in 0..CODE_POINT_MAX + 1 {
        let image = fold_of(c);
        if image != c {
            pairs.push((c, image))?;
        }
    }
    Ok(pairs)
}

/// The simple case folding of a character, and a surrogate as it is.
fn fold_of(c: CodePoint) -> CodePoint
    requires { c < code_points }
    ensures { result ≡ fold_of c }
{
    match char::from_u32(c) {
        Some(letter) => simple_fold(letter) as CodePoint,
        None => c,
    }
}

/// Each 16-bit unit that has another one as its upper case, with that, from low to high.
pub(crate) fn upper_pairs(alloc: Global) -> Result<Vec<(CodePoint, CodePoint)>, AllocError>
    ensures { IfOk result (λ pairs. pairs.items ≡ moved upper_of units) }
{
    let mut pairs = Vec::new(alloc);
    for c in 0..UNITS {
        let image = upper_of(c);
        if image != c {
            pairs.push((c, image))?;
        }
    }
    Ok(pairs)
}

/// The upper case of a 16-bit unit, where that is one that is kept, and else the unit.
fn upper_of(c: CodePoint) -> CodePoint
    requires { c < units }
    ensures { result ≡ upper_of c }
{
    match char::from_u32(c) {
        Some(letter) => single_upper(letter),
        None => c,
    }
}

/// The upper case of a character, where that is one that is kept, and else the character.
fn single_upper(letter: char) -> CodePoint
    ensures { result ≡ single_upper letter (to_uppercase letter) }
{
    let c = letter as CodePoint;
    let mut upper = letter.to_uppercase();
    match (upper.next(), upper.next()) {
        (Some(image), None) if is_kept(c, image as CodePoint) => image as CodePoint,
        _ => c,
    }
}

/// Whether an image of a unit is a unit too, and lies below 80 (hexadecimal) only where the unit does.
fn is_kept(c: CodePoint, image: CodePoint) -> bool
    ensures { result ≡ is_kept c image }
{
    image < UNITS && (c < 0x80 || 0x80 <= image)
}
