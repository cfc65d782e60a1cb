//! How much of a text lies ahead.
ghost use Rattle.std.specs.Prelude.{◌≡◌, length};
ghost use Rattle.regress_engine_input.specs.Views.{direction_of};
ghost use Rattle.regress_engine_runs.specs.Runs.{room};

use regress_engine_input::InputIndexer;

/// How many units of a text lie ahead of an offset, where it is read forward or backward.
///
/// ```rust
/// let left = units_ahead(&input, true, 0);
/// ```
#[inline]
pub fn units_ahead<Input: InputIndexer>(input: &Input, forward: bool, offset: usize) -> usize
    ensures { result ≡ room (length (Input.view input.now).units) (direction_of forward) offset }
{
    if forward {
        input
            .pos_to_offset(input.right_end())
            .saturating_sub(offset)
    } else {
        offset
    }
}
