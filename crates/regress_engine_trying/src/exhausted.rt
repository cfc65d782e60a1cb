//! Lookarounds and atomic groups whose contents have no answer.
ghost use Rattle.std.specs.Prelude.{◌≡◌, true};
ghost use Rattle.regress_engine_search.specs.Submatches.{is_negated, submatch_of};

use regress_engine_undo::{Frame, Spot};

/// Goes on behind a lookaround or an atomic group whose contents have no answer, where it is negated, and answers whether it is.
///
/// ```rust
/// let goes_on = exhaust(&frame, &mut spot);
/// ```
#[inline]
pub fn exhaust(frame: &Frame, spot: &mut Spot) -> bool
    ensures direction { spot.new.forward ≡ frame.now.spot.forward }
    ensures way { result ≡ is_negated (submatch_of frame.now.kind) }
    ensures spot { is_negated (submatch_of frame.now.kind) ≡ true → spot.new ≡ record frame.now.spot { at = frame.now.continuation } }
{
    spot.forward = frame.spot.forward;
    let is_negated = frame.kind.is_negated();
    if is_negated {
        spot.at = frame.continuation;
        spot.offset = frame.spot.offset;
    }
    is_negated
}
