//! What a program begins with: a class and a run of characters, or what is asked of the place.
ghost use Rattle.std.specs.Prelude.{◌≡◌, ◌==◌, ◌<◌, ◌||◌, ℕ, true, false, IfSome};
ghost use Rattle.regress_meaning.specs.Steps.{at_boundary};
ghost use Rattle.regress_meaning.specs.Meaning.{Forward as ahead};
ghost use Rattle.regress_front_bytes.specs.Bitmaps.{byte_bitmap_contains};
ghost use Rattle.regress_engine_insn.specs.Instructions.{Program, Stands, boundary, line_start};
ghost use Rattle.regress_engine_insn.specs.InsnViews.{instruction};
ghost use Rattle.regress_engine_code.specs.Standing.{program_of};
ghost use Rattle.regress_engine_input.specs.Views.{View, are_bytes, input_of, reading_of};
ghost use Rattle.regress_engine_runs.specs.Meets.{IsAtPlace};
ghost use Rattle.regress_engine_search.specs.Search.{Suits};
ghost use Rattle.regress_engine_search.specs.Skipping.{Reaches};
ghost use Rattle.regress_engine_singles.specs.Failing.{IsDead};
ghost use Rattle.regress_engine_singles.specs.Passed.{PassesOver};
ghost use Rattle.regress_engine_leading.specs.Known.{BeginsAt, IsKnown};

use crate::failing::{LOOKED_AT, class_ahead, fails};
use crate::repeated::passed_repeated;
use crate::ways::passed_ways;
use regress_engine_advance::{
    ascii_boundary, beside, boundary, holds_at, is_dead, is_dead_ahead, is_word, word_beside,
};
use regress_engine_analysis::is_class;
use regress_engine_code::CompiledRegex;
use regress_engine_insn::Insn;
use regress_engine_matchers::{CharInput, CharProperties};
use regress_engine_scanning::find_lead;
use regress_engine_singles::{as_far_ahead, is_assertion, is_possessive, takes_one};
use regress_front_bytes::ByteBitmap;
use regress_front_tables::is_ascii_word;

/// What is known of a place before a run begins there.
#[derive(Debug, Clone, Copy)]
pub enum Beginning {
    /// From the place on and up to this offset no run has an answer.
    Passed(usize),
    /// A run from the place comes to this address, and nothing else has changed then.
    At(usize),
}

impl Beginning {
    /// What is known where no run has an answer up to an offset, or nothing is known.
    #[inline]
    fn of(passed: Option<usize>) -> Beginning
        ensures { (program : Program) (v : View) (start : ℕ) → IfSome passed (PassesOver program v start) → IsKnown program v start result }
    {
        match passed {
            Some(past) => Beginning::Passed(past),
            None => Beginning::At(0),
        }
    }
}

/// The offset behind the character ahead of the start, where the program takes that at an address and then leads nowhere.
fn passed_taken<Input: CharInput>(
    program: &CompiledRegex,
    input: &Input,
    start: usize,
    at: usize,
) -> Option<usize>
    requires suits { Suits (program_of program.now) (Input.view input.now) }
    requires place { IsAtPlace (reading_of (Input.view input.now)) start }
    requires room { at < 2 }
    ensures { BeginsAt (program_of program.now) (Input.view input.now) at → IfSome result (PassesOver (program_of program.now) (Input.view input.now) start) }
{
    let insns = program.insns();
    if at >= insns.len() || !takes_one(&insns[at]) {
        return None;
    }
    let (_, behind) = beside(input, true, start)?;
    if !is_dead(program, input, at + 1, true, behind) {
        return None;
    }
    Some(behind)
}

/// How far no run has an answer, where the program has a class at an address and then a loop of a class: up to where that
/// stops, where no match can be reached from any of its ends; where it has no such loop, what `passed_taken` tells.
#[inline(never)]
fn passed_from<Input: CharInput>(
    program: &CompiledRegex,
    input: &Input,
    start: usize,
    at: usize,
) -> Option<usize>
    requires suits { Suits (program_of program.now) (Input.view input.now) }
    requires place { IsAtPlace (reading_of (Input.view input.now)) start }
    requires room { at < 2 }
    ensures { BeginsAt (program_of program.now) (Input.view input.now) at → IfSome result (PassesOver (program_of program.now) (Input.view input.now) start) }
{
    let insns = program.insns();
    if at + 2 >= insns.len() {
        return None;
    }
    let Insn::Loop1CharBody {
        min_iters,
        max_iters,
        greedy,
    } = &insns[at + 1]
    else {
        return passed_taken(program, input, start, at);
    };
    let first = &insns[at];
    let body = &insns[at + 2];
    if *min_iters > 0 || !*greedy || !is_class(first) || !is_class(body) {
        return None;
    }
    if !is_possessive(program, at + 1) {
        return None;
    }
    let near = class_ahead(program, input, first, start)?;
    let far = as_far_ahead(program, input, body, *max_iters, near)?;
    if class_ahead(program, input, body, far).is_some()
        || !fails(program, input, LOOKED_AT, at + 3, far)
    {
        return None;
    }
    Some(far)
}

/// The offset behind the character ahead of the start, where there is one and no match can be reached from the start.
fn passed_one<Input: CharInput>(
    program: &CompiledRegex,
    input: &Input,
    start: usize,
) -> Option<usize>
    requires suits { Suits (program_of program.now) (Input.view input.now) }
    requires place { IsAtPlace (reading_of (Input.view input.now)) start }
    ensures { IfSome result (PassesOver (program_of program.now) (Input.view input.now) start) }
{
    if !fails(program, input, LOOKED_AT, 0, start) {
        return None;
    }
    let (_, behind) = beside(input, true, start)?;
    Some(behind)
}

/// What is known of the start where the program asks first whether a word begins or ends: where one does, the run is behind
/// that at once, and else no run has an answer up to where the next one does.
#[inline(always)]
fn at_word<Input: CharInput>(
    program: &CompiledRegex,
    input: &Input,
    start: usize,
    folded: bool,
) -> Beginning
    requires suits { Suits (program_of program.now) (Input.view input.now) }
    requires place { IsAtPlace (reading_of (Input.view input.now)) start }
    requires first { Stands (program_of program.now) 0 (boundary false folded) }
    ensures { IsKnown (program_of program.now) (Input.view input.now) start result }
{
    if boundary(input, folded, start) {
        if folded {
            return Beginning::At(1);
        }
        return behind_edge(program, input, start);
    }
    let was = word_beside(input, folded, false, start);
    let mut at = start;
    'places: loop {
        let Some((c, behind)) = beside(input, true, at) else {
            break;
        };
        if is_word(input, folded, c) != was {
            break;
        }
        at = behind;
    }
    Beginning::of((start < at).then_some(at))
}

/// What is known of the start where a word begins or ends there, as the program asks first: the run is behind that, where it may not ask
/// for a word twice that stands there once.
#[inline(always)]
fn behind_edge<Input: CharInput>(program: &CompiledRegex, input: &Input, start: usize) -> Beginning
    requires suits { Suits (program_of program.now) (Input.view input.now) }
    requires place { IsAtPlace (reading_of (Input.view input.now)) start }
    requires first { Stands (program_of program.now) 0 (boundary false false) }
    requires edge { at_boundary (input_of (Input.view input.now)) false start ≡ true }
    ensures { IsKnown (program_of program.now) (Input.view input.now) start result }
{
    let insns = program.insns();
    if insns.len() < 10 {
        return Beginning::At(1);
    }
    match &insns[9] {
        Insn::BackRef { .. } => match passed_repeated(program, input, start) {
            Some(past) => Beginning::Passed(past),
            None => Beginning::At(1),
        },
        _ => Beginning::At(1),
    }
}

/// The same where case is not ignored in Unicode mode. A run begins mostly where a word begins between characters of ASCII, and
/// that is seen at once.
#[inline(always)]
fn at_plain_word<Input: CharInput>(
    program: &CompiledRegex,
    input: &Input,
    start: usize,
) -> Beginning
    requires suits { Suits (program_of program.now) (Input.view input.now) }
    requires place { IsAtPlace (reading_of (Input.view input.now)) start }
    requires first { Stands (program_of program.now) 0 (boundary false false) }
    ensures { IsKnown (program_of program.now) (Input.view input.now) start result }
{
    if let Some(edge) = ascii_boundary(input, start) {
        if edge {
            return behind_edge(program, input, start);
        }
    }
    at_word(program, input, start, false)
}

/// The offset behind the line end ahead of the start, or that of the text's end: up to there no line begins, and so no run has an answer
/// where the program asks for that first, and none has one from the start.
#[inline(never)]
fn passed_line<Input: CharInput>(
    program: &CompiledRegex,
    input: &Input,
    start: usize,
) -> Option<usize>
    requires suits { Suits (program_of program.now) (Input.view input.now) }
    requires place { IsAtPlace (reading_of (Input.view input.now)) start }
    requires first { Stands (program_of program.now) 0 (line_start true) }
    requires dead { IsDead (program_of program.now) (input_of (Input.view input.now)) ahead 0 start }
    ensures { IfSome result (PassesOver (program_of program.now) (Input.view input.now) start) }
{
    let mut at = start;
    'places: loop {
        let Some((c, behind)) = beside(input, true, at) else {
            return (start < at).then_some(at);
        };
        if <Input::CharProps as CharProperties>::is_line_terminator(c) {
            return Some(behind);
        }
        at = behind;
    }
}

/// What is known of the start where the program asks first whether a line begins: where one does, and something may be led to, the run
/// is behind that at once, and else no run has an answer up to where the next one does. It is apart, so that no search makes room for it.
#[inline(never)]
fn at_line<Input: CharInput>(
    program: &CompiledRegex,
    input: &Input,
    insn: &Insn,
    start: usize,
) -> Beginning
    requires suits { Suits (program_of program.now) (Input.view input.now) }
    requires place { IsAtPlace (reading_of (Input.view input.now)) start }
    requires first { Stands (program_of program.now) 0 (line_start true) }
    requires insn { instruction insn.now ≡ line_start true }
    ensures { IsKnown (program_of program.now) (Input.view input.now) start result }
{
    if !holds_at(input, insn, start) {
        return Beginning::of(passed_line(program, input, start));
    }
    if fails(program, input, LOOKED_AT, 1, start) {
        return Beginning::of(passed_line(program, input, start));
    }
    Beginning::At(1)
}

/// The bytes of a set, and 0xFF, which no character begins with.
#[inline(always)]
fn with_halves(first: &ByteBitmap) -> ByteBitmap
    ensures { (b : ℕ) → byte_bitmap_contains result b ≡ byte_bitmap_contains first.now b || 0xFF == b }
{
    let mut set = *first;
    set.set(0xFF);
    set
}

/// The offset behind the characters ahead of one with which no match may begin, one after another, as far as each is one unit and no half of
/// a pair.
#[inline(always)]
fn behind_leads<Input: CharInput>(
    program: &CompiledRegex,
    input: &Input,
    units: &[u16],
    start: usize,
) -> usize
    requires suits { Suits (program_of program.now) (Input.view input.now) }
    requires place { IsAtPlace (reading_of (Input.view input.now)) start }
    requires kind { are_bytes (Input.view input.now).kind ≡ false }
    requires units { units.now ≡ (Input.view input.now).units }
    ensures { Reaches (program_of program.now) (Input.view input.now) start result }
{
    let Some(first) = program.first_bytes(0) else {
        return start;
    };
    match find_lead(&with_halves(first), units, start) {
        Some(at) => at,
        None => units.len(),
    }
}

/// The offset behind the characters of ASCII ahead of one, one after another, with which no match may begin, where the program asks
/// first whether a word begins or ends: also those that do not begin or end one.
fn behind_words<Input: CharInput>(
    program: &CompiledRegex,
    input: &Input,
    units: &[u16],
    start: usize,
) -> usize
    requires suits { Suits (program_of program.now) (Input.view input.now) }
    requires place { IsAtPlace (reading_of (Input.view input.now)) start }
    requires kind { are_bytes (Input.view input.now).kind ≡ false }
    requires units { units.now ≡ (Input.view input.now).units }
    requires first { Stands (program_of program.now) 0 (boundary false false) }
    ensures { Reaches (program_of program.now) (Input.view input.now) start result }
{
    let mut was = word_beside(input, false, false, start);
    let mut at = start;
    while at < units.len() {
        let unit = units[at];
        if unit >= 0x80 {
            break;
        }
        let word = is_ascii_word(u32::from(unit));
        if word == was {
            at += 1;
            continue;
        }
        if !is_dead_ahead(program, 0, unit as u8) {
            break;
        }
        was = word;
        at += 1;
    }
    at
}

/// The offset behind the characters ahead of one from which surely no match can be reached, one after another, as far as they are told at once.
#[inline(always)]
fn behind_dead<Input: CharInput>(
    program: &CompiledRegex,
    input: &Input,
    units: &[u16],
    start: usize,
) -> usize
    requires suits { Suits (program_of program.now) (Input.view input.now) }
    requires place { IsAtPlace (reading_of (Input.view input.now)) start }
    requires kind { are_bytes (Input.view input.now).kind ≡ false }
    requires units { units.now ≡ (Input.view input.now).units }
    ensures { Reaches (program_of program.now) (Input.view input.now) start result }
{
    let insns = program.insns();
    if insns.is_empty() {
        return start;
    }
    match &insns[0] {
        Insn::WordBoundary { invert: false } => behind_words(program, input, units, start),
        _ => behind_leads(program, input, units, start),
    }
}

/// How far from the start on each character begins with a byte in UTF-8 with which no match may begin, or where the program asks
/// for the begin or end of a word is one of ASCII that is neither.
#[inline(never)]
fn passed_leads<Input: CharInput>(
    program: &CompiledRegex,
    input: &Input,
    units: &[u16],
    start: usize,
) -> Option<usize>
    requires suits { Suits (program_of program.now) (Input.view input.now) }
    requires place { IsAtPlace (reading_of (Input.view input.now)) start }
    requires kind { are_bytes (Input.view input.now).kind ≡ false }
    requires units { units.now ≡ (Input.view input.now).units }
    ensures { IfSome result (PassesOver (program_of program.now) (Input.view input.now) start) }
{
    let mut at = start;
    'places: loop {
        at = behind_dead(program, input, units, at);
        if at >= units.len() || units[at] < 0x80 || !is_dead(program, input, 0, true, at) {
            break;
        }
        let Some((_, behind)) = beside(input, true, at) else {
            break;
        };
        at = behind;
    }
    (start < at).then_some(at)
}

/// What is known of the start without a run: how far no run has an answer, where no match can be reached from behind the run of
/// characters or the one character that the program begins with, or from an offset of which it asks something first; over
/// units also where no character begins as a match may, for which there is often no start predicate; or that a run is behind
/// the `\b` that the program begins with.
///
/// Asks that the program suits the text, and that the offset is that of a place of the text.
///
/// ```rust
/// let known = known_at(&program, &input, 0);
/// ```
#[inline(always)]
pub fn known_at<Input: CharInput>(program: &CompiledRegex, input: &Input, start: usize) -> Beginning
    requires suits { Suits (program_of program.now) (Input.view input.now) }
    requires place { IsAtPlace (reading_of (Input.view input.now)) start }
    ensures { IsKnown (program_of program.now) (Input.view input.now) start result }
{
    let insns = program.insns();
    if insns.is_empty() {
        return Beginning::At(0);
    }
    if let Some(units) = input.units() {
        if is_dead(program, input, 0, true, start) {
            if let Some(past) = passed_leads(program, input, units, start) {
                return Beginning::Passed(past);
            }
        }
    }
    match &insns[0] {
        Insn::BeginCaptureGroup(_) => Beginning::of(passed_from(program, input, start, 1)),
        Insn::WordBoundary { invert: false } => at_plain_word(program, input, start),
        Insn::WordBoundaryUnicodeICase { invert: false } => at_word(program, input, start, true),
        Insn::StartOfLine { multiline: true } => at_line(program, input, &insns[0], start),
        Insn::Alt { .. } => Beginning::of(passed_ways(program, input, start)),
        insn => {
            if is_assertion(insn) {
                return Beginning::of(passed_one(program, input, start));
            }
            Beginning::of(passed_from(program, input, start, 0))
        }
    }
}
