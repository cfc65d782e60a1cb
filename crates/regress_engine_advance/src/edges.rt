//! What is asked of an offset: whether a line or a word begins or ends there.
ghost use Rattle.std.specs.Prelude.{◌≡◌, ◌&&◌, ◌||◌, Bool, true, false, not, List, is_some, IfSome};
ghost use Rattle.regress_meaning.specs.Class.{is_word};
ghost use Rattle.regress_meaning.specs.Meaning.{is_line_end, is_some_and, word_at};
ghost use Rattle.regress_meaning.specs.Steps.{point, at_boundary, only_if};
ghost use Rattle.regress_engine_insn.specs.Instructions.{Program};
ghost use Rattle.regress_engine_insn.specs.InsnViews.{instruction};
ghost use Rattle.regress_engine_input.specs.Views.{direction_of, input_of, CanRead};
ghost use Rattle.regress_engine_runs.specs.States.{Marks};
ghost use Rattle.regress_engine_runs.specs.Runs.{advance};
ghost use Rattle.regress_engine_singles.specs.Taking.{is_assertion};

use crate::reading::{beside, plain_ahead, plain_before};
use regress_engine_input::InputIndexer;
use regress_engine_insn::Insn;
use regress_engine_matchers::{CharInput, CharProperties};

/// Whether the text ends beside an offset, or in `multiline` a line: backward that is `^`, and forward `$`.
#[inline]
pub(crate) fn line_edge<Input: CharInput>(
    input: &Input,
    forward: bool,
    multiline: bool,
    offset: usize,
) -> bool
    requires { CanRead (Input.view input.now) offset }
    ensures { result ≡ not (is_some ((input_of (Input.view input.now)).next (direction_of forward) offset))
        || (multiline && is_some_and (point (input_of (Input.view input.now)) (direction_of forward) offset) is_line_end) }
{
    match beside(input, forward, offset) {
        Some((c, _)) => multiline && <Input::CharProps as CharProperties>::is_line_terminator(c),
        None => true,
    }
}

/// Whether a character is of a word; folded, where case is ignored in Unicode mode.
///
/// ```rust
/// let word = is_word(&input, false, 'a');
/// ```
#[inline(always)]
#[tactic(auto, unfolding(regress_meaning::specs::Class::is_word))]
pub fn is_word<Input: CharInput>(input: &Input, folded: bool, c: Input::Element) -> bool
    ensures { result ≡ is_word (Input.view input.now).table folded (Input.Element.code c) }
{
    if folded {
        <Input::CharProps as CharProperties>::is_word_char_unicode_icase(c, input.tables())
    } else {
        <Input::CharProps as CharProperties>::is_word_char(c)
    }
}

/// Whether the character beside an offset is of a word; folded, where case is ignored in Unicode mode.
///
/// Asks that characters may be read from the offset on.
///
/// ```rust
/// let word = word_beside(&input, false, true, 0);
/// ```
#[inline(always)]
pub fn word_beside<Input: CharInput>(
    input: &Input,
    folded: bool,
    forward: bool,
    offset: usize,
) -> bool
    requires { CanRead (Input.view input.now) offset }
    ensures { result ≡ word_at (Input.view input.now).table folded (point (input_of (Input.view input.now)) (direction_of forward) offset) }
{
    match beside(input, forward, offset) {
        Some((c, _)) => is_word(input, folded, c),
        None => false,
    }
}

/// Whether a word begins or ends at an offset, as `\b` asks; folded, where case is ignored in Unicode mode.
///
/// Asks that characters may be read from the offset on.
///
/// ```rust
/// let edge = boundary(&input, false, 0);
/// ```
#[inline]
pub fn boundary<Input: CharInput>(input: &Input, folded: bool, offset: usize) -> bool
    requires { CanRead (Input.view input.now) offset }
    ensures { result ≡ at_boundary (input_of (Input.view input.now)) folded offset }
{
    word_beside(input, folded, false, offset) != word_beside(input, folded, true, offset)
}

/// Whether a word begins or ends at an offset, where characters of ASCII stand on both of its sides; else `None`.
///
/// ```rust
/// let edge = ascii_boundary(&input, 1); // of `a b` `Some(true)`
/// ```
#[inline(always)]
pub fn ascii_boundary<Input: CharInput>(input: &Input, offset: usize) -> Option<bool>
    ensures { IfSome result (λ edge. edge ≡ at_boundary (input_of (Input.view input.now)) false offset) }
{
    let (before, _) = plain_before(input, offset)?;
    let (ahead, _) = plain_ahead(input, offset)?;
    let was = <Input::CharProps as CharProperties>::is_word_char(before);
    Some(was != <Input::CharProps as CharProperties>::is_word_char(ahead))
}

/// Whether what an instruction asks of an offset is so, as `^`, `$`, `\b` and `\B` do; of others nothing is said.
///
/// Asks that characters may be read from the offset on.
///
/// ```rust
/// let holds = holds_at(&input, &Insn::WordBoundary { invert: false }, 0);
/// ```
#[inline]
pub fn holds_at<Input: CharInput>(input: &Input, insn: &Insn, offset: usize) -> bool
    requires { CanRead (Input.view input.now) offset }
    ensures { (program : Program) (forward : Bool) (groups : List Marks) → is_assertion (instruction insn.now) ≡ true
        → only_if result offset ≡ advance program (input_of (Input.view input.now)) (instruction insn.now) (direction_of forward) groups offset }
{
    match insn {
        Insn::StartOfLine { multiline } => line_edge(input, false, *multiline, offset),
        Insn::EndOfLine { multiline } => line_edge(input, true, *multiline, offset),
        Insn::WordBoundary { invert } => boundary(input, false, offset) != *invert,
        Insn::WordBoundaryUnicodeICase { invert } => boundary(input, true, offset) != *invert,
        _ => false,
    }
}
