//! Sets of first bytes that share none.
ghost use Rattle.std.specs.Prelude.{◌≡◌, ℕ, ◌<◌, true, false};
ghost use Rattle.regress_meaning.specs.Inputs.{is_continuation};
ghost use Rattle.regress_front_bytes.specs.Bitmaps.{byte_bitmap_contains};
ghost use Rattle.regress_engine_analysis.specs.Planned.{AreApart, firsts};
ghost use Rattle.regress_engine_analysis.specs.Shared.{shared};

use crate::sets::{both, outside_of_characters};
use crate::shared::SharedFacts;
use regress_front_bytes::ByteBitmap;

/// Whether no byte is in both of two sets, where those inside of characters don't count.
fn share_none(first: &ByteBitmap, second: &ByteBitmap) -> bool
    ensures { result ≡ true → (b : ℕ) → b < 256 → is_continuation b ≡ false → byte_bitmap_contains first.now b ≡ true → byte_bitmap_contains second.now b ≡ false }
{
    let shared = both(*first, *second);
    both(shared, outside_of_characters()).count_bits() == 0
}

/// Whether no byte with which a character may begin that is read at one address may begin a match from another.
pub(crate) fn are_apart(facts: &SharedFacts, at: usize, other: usize) -> bool
    ensures { result ≡ true → AreApart (firsts (shared facts.now)) at other }
{
    at < facts.len()
        && other < facts.len()
        && share_none(&facts.at(at).first, &facts.at(other).first)
}
