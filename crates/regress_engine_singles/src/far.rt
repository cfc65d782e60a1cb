//! How far a test on one character passes.
ghost use Rattle.std.specs.Prelude.{◌≡◌};
ghost use Rattle.regress_engine_input.specs.Views.{direction_of, input_of, CanRead};
ghost use Rattle.regress_engine_singles.specs.Passing.{scan_while};

use regress_engine_input::{Direction, InputIndexer, PositionType};
use regress_engine_matchers::SingleCharMatcher;

/// The offset behind as many characters beside one, in a direction, as pass a test one after another, at most so many.
///
/// Asks that characters may be read from the offset on, and that the test is one for the input.
///
/// ```rust
/// let behind = scan_while(&input, Forward::new(), &MatchAny::new(), usize::MAX, 0);
/// ```
#[inline(always)]
pub fn scan_while<Input: InputIndexer, Dir: Direction, Matcher: SingleCharMatcher<Input, Dir>>(
    input: &Input,
    dir: Dir,
    matcher: &Matcher,
    times: usize,
    offset: usize,
) -> usize
    requires place { CanRead (Input.view input.now) offset }
    requires suits { Matcher.Suits matcher.now (Input.view input.now) }
    ensures { result ≡ scan_while (input_of (Input.view input.now)) (Matcher.passes matcher.now) (direction_of Dir.FORWARD) times offset }
{
    let mut behind = <Input::Position as PositionType>::new(offset);
    let mut left = times;
    while left > 0 {
        let mut next = behind;
        if !matcher.matches(input, dir, &mut next) {
            break;
        }
        behind = next;
        left -= 1;
    }
    input.pos_to_offset(behind)
}
