//! From where a search goes on whose runs end at once.
ghost use Rattle.regress_engine_code.specs.Standing.{program_of};
ghost use Rattle.regress_engine_input.specs.Views.{reading_of};
ghost use Rattle.regress_engine_runs.specs.Meets.{IsAtPlace};
ghost use Rattle.regress_engine_search.specs.Skipping.{IsNextStart};

use regress_engine_code::{Landmark, StartPredicate};
use regress_engine_search::{ExecutorInput, SearchContext};

/// The place from which a search goes on from an offset: what `SearchContext::next_start` answers, but the offset itself where that
/// would look for a byte behind a run, and back over the run from there. From each place of the run it would pass the rest of it, and
/// only runs that pass it too are worth that.
///
/// Asks that the offset is that of a place of the text.
///
/// ```rust
/// let start = next_place(&context, 0);
/// ```
pub fn next_place<Input: ExecutorInput>(
    context: &SearchContext<'_, Input>,
    offset: usize,
) -> Option<usize>
    requires place { IsAtPlace (reading_of (Input.view context.now.input)) offset }
    ensures start { IsNextStart (program_of context.now.program.now) (Input.view context.now.input) offset result }
{
    match context.prefilter.start {
        StartPredicate::ByteNear(_, Landmark::BehindRun { .. }) => Some(offset),
        _ => context.next_start(offset),
    }
}
