//! The code points that NFKC_Casefold moves, which no set of Unicode's data holds.
ghost use Rattle.std.specs.Prelude.{◌≡◌, ◌<◌, IfOk};
ghost use Rattle.regress_meaning.specs.Table.{code_points};
ghost use Rattle.regress_front_sets.specs.Intervals.{ends_of};
ghost use Rattle.regress_unicode.specs.Casefold.{is_moved, changes_when_nfkc_casefolded};
ghost use Rattle.regress_unicode.specs.Unicode.{Hold};

use regress_front_tables::{CODE_POINT_MAX, CodePoint, CodePointSet, Interval};
use std::alloc::{AllocError, Global};
use unicode::normal::{Form, QuickCheck, quick_check};
use unicode::properties::{changes_when_casefolded, is_default_ignorable_code_point};

/// The code points with `Changes_When_NFKC_Casefolded`, as intervals from low to high, with a code point of none between any two.
pub(crate) fn casefolded(alloc: Global) -> Result<Vec<Interval>, AllocError>
    ensures { IfOk result (λ intervals. Hold (ends_of intervals.items) changes_when_nfkc_casefolded) }
{
    let mut moved = CodePointSet::new(alloc);
    for c in 0..CODE_POINT_MAX + 1 {
        if is_casefolded(c) {
            moved.try_add_one(c)?;
        }
    }
    Vec::from_slice(alloc, moved.intervals())
}

/// Whether NFKC_Casefold moves a code point. A surrogate stands in no text, and stays.
fn is_casefolded(c: CodePoint) -> bool
    requires { c < code_points }
    ensures { result ≡ changes_when_nfkc_casefolded c }
{
    match char::from_u32(c) {
        Some(letter) => is_moved(letter),
        None => false,
    }
}

/// Whether NFKC_Casefold moves a character.
fn is_moved(letter: char) -> bool
    ensures { result ≡ is_moved letter }
{
    is_default_ignorable_code_point(letter)
        || changes_when_casefolded(letter)
        || matches!(quick_check(letter, Form::Nfkc), QuickCheck::No)
}
