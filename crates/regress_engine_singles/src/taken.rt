//! Characters that are taken one after another, counted.
ghost use Rattle.std.specs.Prelude.{◌≡◌, ℕ, true, List, None, MatchOption};
ghost use Rattle.regress_meaning.specs.Meaning.{Forward as ahead};
ghost use Rattle.regress_meaning.specs.Steps.{passed};
ghost use Rattle.regress_engine_input.specs.Views.{input_of, CanRead};
ghost use Rattle.regress_engine_insn.specs.InsnViews.{instruction};
ghost use Rattle.regress_engine_code.specs.Standing.{program_of};
ghost use Rattle.regress_engine_runs.specs.States.{Marks};
ghost use Rattle.regress_engine_runs.specs.Runs.{advance, after_times};
ghost use Rattle.regress_engine_runs.specs.Closed.{Fits};
ghost use Rattle.regress_engine_analysis.specs.Planned.{is_class};
ghost use Rattle.regress_engine_singles.specs.Passing.{after, IsBegun, IsTaken};
ghost use Rattle.regress_engine_singles.specs.Counted.{AreTaken};

use crate::ascii::{ByteMatcher, ascii_end, passed_ahead};
use crate::class::ToldBracket;
use regress_engine_code::CompiledRegex;
use regress_engine_input::InputIndexer;
use regress_engine_insn::Insn;
use regress_engine_matchers::{CharInput, MatchByteSet};
use regress_front_bytes::ascii_bitmap_holds_ascii;

/// Characters that are taken one after another: some, and one more.
#[derive(Debug, Clone, Copy)]
pub struct Taken {
    /// How many there are before the last one.
    pub before: usize,
    /// The offset of the last one.
    pub last: usize,
    /// The offset behind it.
    pub past: usize,
}

/// The first of the characters ahead of an offset that pass a test one after another, at most so many more than one: those of
/// ASCII, or one alone; `None` where the first does not pass.
#[inline(always)]
fn first_taken<Input: InputIndexer, Matcher: ByteMatcher<Input>>(
    input: &Input,
    matcher: &Matcher,
    more: usize,
    offset: usize,
) -> Option<Taken>
    requires place { CanRead (Input.view input.now) offset }
    requires suits { Matcher.Suits matcher.now (Input.view input.now) }
    ensures { MatchOption result (None ≡ passed (Matcher.passes matcher.now) ((input_of (Input.view input.now)).next ahead offset)) (λ t. IsBegun (after (input_of (Input.view input.now)) (Matcher.passes matcher.now) ahead) (λ o. passed (Matcher.passes matcher.now) ((input_of (Input.view input.now)).next ahead o)) more offset t.before t.last t.past) }
{
    let past = ascii_end(input, matcher, more.saturating_add(1), offset);
    if past > offset {
        return Some(Taken {
            before: past - 1 - offset,
            last: past - 1,
            past,
        });
    }
    let past = passed_ahead(input, matcher, offset)?;
    Some(Taken {
        before: 0,
        last: offset,
        past,
    })
}

/// The characters ahead of an offset that pass a test one after another, the first and at most so many more; `None` where the
/// first does not pass.
#[inline(always)]
fn taken_beside<Input: InputIndexer, Matcher: ByteMatcher<Input>>(
    input: &Input,
    matcher: &Matcher,
    more: usize,
    offset: usize,
) -> Option<Taken>
    requires place { CanRead (Input.view input.now) offset }
    requires suits { Matcher.Suits matcher.now (Input.view input.now) }
    ensures { MatchOption result (None ≡ passed (Matcher.passes matcher.now) ((input_of (Input.view input.now)).next ahead offset)) (λ t. IsTaken (after (input_of (Input.view input.now)) (Matcher.passes matcher.now) ahead) (λ o. passed (Matcher.passes matcher.now) ((input_of (Input.view input.now)).next ahead o)) more offset t.before t.last t.past) }
{
    let first = first_taken(input, matcher, more, offset)?;
    let mut last = first.last;
    let mut past = first.past;
    let mut left = more - first.before;
    while left > 0 {
        let Some(next) = passed_ahead(input, matcher, past) else {
            break;
        };
        last = past;
        past = next;
        left -= 1;
    }
    Some(Taken {
        before: more - left,
        last,
        past,
    })
}

/// The same, apart, so that other classes make no room for it.
#[inline(never)]
fn taken_told<Input: InputIndexer, Matcher: ByteMatcher<Input>>(
    input: &Input,
    matcher: &Matcher,
    more: usize,
    offset: usize,
) -> Option<Taken>
    requires place { CanRead (Input.view input.now) offset }
    requires suits { Matcher.Suits matcher.now (Input.view input.now) }
    ensures { AreTaken (input_of (Input.view input.now)) (Matcher.passes matcher.now) more offset result }
{
    taken_beside(input, matcher, more, offset)
}

/// The characters ahead of an offset that a class takes one after another, the first and at most so many more; `None` where it
/// does not take the first.
///
/// Asks that the instruction is a class and fits the program, and that characters may be read from the offset on.
///
/// ```rust
/// let taken = taken_ahead(&program, &input, &Insn::Bracket(0), usize::MAX, 0);
/// ```
pub fn taken_ahead<Input: CharInput>(
    program: &CompiledRegex,
    input: &Input,
    insn: &Insn,
    more: usize,
    offset: usize,
) -> Option<Taken>
    requires class { is_class (instruction insn.now) ≡ true }
    requires fits { Fits (program_of program.now) 0 (instruction insn.now) }
    requires place { CanRead (Input.view input.now) offset }
    ensures { (groups : List Marks) → MatchOption result (None ≡ advance (program_of program.now) (input_of (Input.view input.now)) (instruction insn.now) ahead groups offset) (λ t. IsTaken (λ n o. after_times (program_of program.now) (input_of (Input.view input.now)) n (instruction insn.now) ahead groups o) (advance (program_of program.now) (input_of (Input.view input.now)) (instruction insn.now) ahead groups) more offset t.before t.last t.past) }
{
    match insn {
        Insn::AsciiBracket(bitmap) => {
            ascii_bitmap_holds_ascii(bitmap);
            let set = MatchByteSet { bytes: bitmap };
            taken_told(input, &set, more, offset)
        }
        Insn::Bracket(index) => {
            let class = ToldBracket::of(program, *index);
            taken_beside(input, &class, more, offset)
        }
        _ => None,
    }
}
