//! How far an instruction takes characters ahead, where it is a test on one character.
ghost use Rattle.std.specs.Prelude.{◌≡◌, ℕ, true, false, not, List, None, IfSome};
ghost use Rattle.regress_meaning.specs.Meaning.{Forward as ahead, is_line_end};
ghost use Rattle.regress_meaning.specs.Steps.{passed};
ghost use Rattle.regress_front_bytes.specs.Bitmaps.{ascii_bitmap_contains};
ghost use Rattle.regress_engine_input.specs.Views.{input_of, CanRead};
ghost use Rattle.regress_engine_insn.specs.Instructions.{Program, byte_seq};
ghost use Rattle.regress_engine_insn.specs.InsnViews.{instruction};
ghost use Rattle.regress_engine_code.specs.Standing.{program_of};
ghost use Rattle.regress_engine_runs.specs.States.{Marks};
ghost use Rattle.regress_engine_runs.specs.Runs.{after_times, as_far};
ghost use Rattle.regress_engine_runs.specs.Closed.{Fits};
ghost use Rattle.regress_engine_singles.specs.Passing.{class_has, scan_while};

use crate::ascii::{ByteMatcher, ascii_end, passed_ahead};
use crate::class::ToldBracket;
use crate::far::scan_while;
use crate::stopped::ascii_byte;
use crate::stops::as_far_searched;
use crate::unit_stops::as_far_among_units;
use regress_engine_code::CompiledRegex;
use regress_engine_input::{Direction, Forward, InputIndexer};
use regress_engine_insn::Insn;
use regress_engine_matchers::{CharInput, MatchAny, MatchAnyExceptLineTerminator, MatchByteSet};
use regress_engine_scanning::{run_end, run_end_among};
use regress_front_bytes::{AsciiBitmap, ByteSet, ascii_bitmap_holds_ascii};

/// The offset behind as many characters ahead of one as pass a test one after another, at most so many. Those of ASCII are not
/// decoded.
#[inline]
fn as_far_beside<Input: InputIndexer, Matcher: ByteMatcher<Input>>(
    input: &Input,
    matcher: &Matcher,
    times: usize,
    offset: usize,
) -> usize
    requires place { CanRead (Input.view input.now) offset }
    requires suits { Matcher.Suits matcher.now (Input.view input.now) }
    ensures { result ≡ scan_while (input_of (Input.view input.now)) (Matcher.passes matcher.now) ahead times offset }
{
    let mut behind = ascii_end(input, matcher, times, offset);
    let mut left = times - (behind - offset);
    while left > 0 {
        let Some(next) = passed_ahead(input, matcher, behind) else {
            break;
        };
        behind = next;
        left -= 1;
    }
    behind
}

/// So many characters of a class are looked at before the next one that it does not match is searched.
const NEAR: usize = 32;

/// Whether a character of ASCII stands ahead of an offset that a class does not match.
#[inline(always)]
fn is_other_ahead<Input: InputIndexer>(
    input: &Input,
    class: &ToldBracket<'_>,
    offset: usize,
) -> bool
    ensures { result ≡ true → None ≡ passed (class_has class.now.bc.now) ((input_of (Input.view input.now)).next ahead offset) }
{
    match ascii_byte(input, offset) {
        Some(byte) => !class.ascii.contains(byte),
        None => false,
    }
}

/// The offset behind as many characters ahead of one as a class matches one after another, at most so many, where many may be.
#[inline(never)]
fn as_far_class<Input: InputIndexer>(
    input: &Input,
    class: &ToldBracket<'_>,
    times: usize,
    offset: usize,
) -> usize
    requires { CanRead (Input.view input.now) offset }
    ensures { result ≡ scan_while (input_of (Input.view input.now)) (class_has class.now.bc.now) ahead times offset }
{
    if let Some(far) = as_far_searched(input, class.bc, times, offset) {
        return far;
    }
    if let Some(far) = as_far_among_units(input, class.bc, times, offset) {
        return far;
    }
    as_far_beside(input, class, times, offset)
}

/// The same, where mostly few are.
#[inline(always)]
fn as_far_told<Input: InputIndexer>(
    input: &Input,
    class: &ToldBracket<'_>,
    times: usize,
    offset: usize,
) -> usize
    requires { CanRead (Input.view input.now) offset }
    ensures { result ≡ scan_while (input_of (Input.view input.now)) (class_has class.now.bc.now) ahead times offset }
{
    let most = times.min(NEAR);
    let near = ascii_end(input, class, most, offset);
    if near - offset < most && is_other_ahead(input, class, near) {
        return near;
    }
    as_far_class(input, class, times - (near - offset), near)
}

/// The offset behind as many characters ahead of one as are in a set of ASCII one after another, at most so many.
#[inline(always)]
fn as_far_members<Input: InputIndexer>(
    input: &Input,
    bitmap: &AsciiBitmap,
    times: usize,
    offset: usize,
) -> usize
    requires { CanRead (Input.view input.now) offset }
    ensures { result ≡ scan_while (input_of (Input.view input.now)) (ascii_bitmap_contains bitmap.now) ahead times offset }
{
    ascii_bitmap_holds_ascii(bitmap);
    if let Some(text) = input.bytes() {
        return run_end(
            bitmap,
            text,
            offset,
            offset + times.min(text.len() - offset),
        );
    }
    match input.units() {
        Some(units) if offset <= units.len() => {
            run_end_among(
                bitmap,
                units,
                offset,
                offset + times.min(units.len() - offset),
            )
        }
        _ => as_far_beside(input, &MatchByteSet { bytes: bitmap }, times, offset),
    }
}

/// The offset behind as many times a byte ahead of one as it stands there one after another, at most so many; over units `None`.
#[inline(always)]
fn as_far_byte<Input: InputIndexer>(
    input: &Input,
    bytes: &[u8; 1],
    times: usize,
    offset: usize,
) -> Option<usize>
    requires { CanRead (Input.view input.now) offset }
    ensures { (program : Program) (groups : List Marks)
        → IfSome result (λ far. far ≡ as_far program (input_of (Input.view input.now)) times (byte_seq bytes.now) ahead groups offset) }
{
    let text = input.bytes()?;
    let [byte] = *bytes;
    let end = offset + times.min(text.len() - offset);
    let mut behind = offset;
    while behind < end {
        if text[behind] != byte {
            return Some(behind);
        }
        behind += 1;
    }
    Some(behind)
}

/// The offset behind as many characters ahead of one as there are, at most so many, or as are in the line.
#[inline(never)]
fn as_far_any<Input: CharInput>(input: &Input, in_line: bool, times: usize, offset: usize) -> usize
    requires { CanRead (Input.view input.now) offset }
    ensures any { in_line ≡ false → result ≡ scan_while (input_of (Input.view input.now)) (λ _. true) ahead times offset }
    ensures line { in_line ≡ true → result ≡ scan_while (input_of (Input.view input.now)) (λ c. not (is_line_end c)) ahead times offset }
{
    if in_line {
        let matcher = MatchAnyExceptLineTerminator::new();
        return scan_while(input, Forward::new(), &matcher, times, offset);
    }
    scan_while(input, Forward::new(), &MatchAny::new(), times, offset)
}

/// The offset behind as many characters ahead of one as an instruction takes one after another, at most so many: one that is a
/// class, takes any character, or over bytes takes one byte; of others `None`.
///
/// Asks that the instruction fits the program, and that characters may be read from the offset on.
///
/// ```rust
/// let behind = as_far_ahead(&program, &input, &Insn::MatchAny, usize::MAX, 0);
/// ```
#[inline(always)]
pub fn as_far_ahead<Input: CharInput>(
    program: &CompiledRegex,
    input: &Input,
    insn: &Insn,
    times: usize,
    offset: usize,
) -> Option<usize>
    requires fits { Fits (program_of program.now) 0 (instruction insn.now) }
    requires place { CanRead (Input.view input.now) offset }
    ensures { (groups : List Marks) → IfSome result (λ far. far ≡ as_far (program_of program.now) (input_of (Input.view input.now)) times (instruction insn.now) ahead groups offset) }
{
    match insn {
        Insn::AsciiBracket(bitmap) => {
            ascii_bitmap_holds_ascii(bitmap);
            Some(as_far_members(input, bitmap, times, offset))
        }
        Insn::Bracket(index) => {
            let class = ToldBracket::of(program, *index);
            Some(as_far_told(input, &class, times, offset))
        }
        Insn::ByteSeq1(byte) => as_far_byte(input, byte, times, offset),
        Insn::MatchAny => Some(as_far_any(input, false, times, offset)),
        Insn::MatchAnyExceptLineTerminator => Some(as_far_any(input, true, times, offset)),
        _ => None,
    }
}
