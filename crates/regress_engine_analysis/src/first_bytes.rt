//! The bytes with which a match from each address may begin.
ghost use Rattle.std.specs.Prelude.{◌≡◌, ◌+◌, ◌^◌, ℕ, Bool, true, ◌<◌, length, map, IfOk};
ghost use Rattle.regress_front_bytes.specs.Bitmaps.{byte_bitmap_contains};
ghost use Rattle.regress_engine_insn.specs.Instructions.{Program, Stands, char};
ghost use Rattle.regress_engine_insn.specs.InsnViews.{instruction};
ghost use Rattle.regress_engine_insn.specs.ProgramViews.{program_from, bracket_ends};
ghost use Rattle.regress_engine_analysis.specs.MayBegin.{AreFirstBytes, begins, behind, bracket_leads, may_begin_with, starts};
ghost use Rattle.regress_engine_analysis.specs.Planned.{firsts, known_of};
ghost use Rattle.regress_engine_analysis.specs.Shared.{shared};

use crate::facts::{Facts, Known};
use crate::sets::{
    either, every_byte, of_any, of_any_in_line, of_ascii, of_char, of_chars, of_line_end,
    of_numbers, unless_needed, where_read,
};
use crate::shared::SharedFacts;
use regress_engine_insn::{Insn, bytes_of};
use regress_engine_prefix::first_of_bracket;
use regress_front_bytes::ByteBitmap;
use regress_front_nodes::BracketContents;
use std::alloc::{AllocError, Global};

/// What is known of an address, as one behind another; of one that is not behind it every byte.
fn behind(facts: &SharedFacts, at: usize, next: usize) -> ByteBitmap
    ensures { (b : ℕ) → b < 256 → byte_bitmap_contains result b ≡ behind (may_begin_with (firsts (shared facts.now))) at next b }
{
    if at < next && next < facts.len() {
        facts.at(next).first
    } else {
        every_byte()
    }
}

/// The first of the bytes that an instruction takes.
fn first_of(bytes: &[u8]) -> ByteBitmap
    requires { 0 < length bytes.now }
    ensures { (b : ℕ) → b < 256 → byte_bitmap_contains result b ≡ starts bytes.now b }
{
    ByteBitmap::new(&bytes[..1])
}

/// The bytes with which the characters of the bracket with an index may begin; where there is none, every byte.
fn of_bracket(brackets: &[BracketContents], index: usize) -> Result<ByteBitmap, AllocError>
    ensures { IfOk result (λ set. (program : Program) → program.brackets ≡ map bracket_ends brackets.now → (b : ℕ) → b < 256
        → byte_bitmap_contains set b ≡ bracket_leads program index b) }
{
    if index >= brackets.len() {
        return Ok(every_byte());
    }
    Ok(where_read(first_of_bracket(&brackets[index])?))
}

/// The bytes with which a match from an instruction on may begin, by those of the addresses behind it.
fn first_bytes_of(
    insn: &Insn,
    brackets: &[BracketContents],
    facts: &SharedFacts,
    at: usize,
) -> Result<ByteBitmap, AllocError>
    requires { at + 2 < 2 ^ 64 }
    ensures { IfOk result (λ set. (program : Program) → program.brackets ≡ map bracket_ends brackets.now → (b : ℕ) → b < 256
        → byte_bitmap_contains set b ≡ begins program (may_begin_with (firsts (shared facts.now))) (instruction insn.now) at b) }
{
    let bytes = bytes_of(insn);
    if !bytes.is_empty() {
        return Ok(first_of(bytes));
    }
    Ok(match insn {
        Insn::Char(c) => of_char(*c),
        Insn::CharSet(chars) => of_chars(chars),
        Insn::ByteSet2(set) => of_numbers(&set.0),
        Insn::ByteSet3(set) => of_numbers(&set.0),
        Insn::ByteSet4(set) => of_numbers(&set.0),
        Insn::AsciiBracket(bitmap) => of_ascii(bitmap),
        Insn::Bracket(index) => of_bracket(brackets, *index)?,
        Insn::MatchAny => of_any(),
        Insn::MatchAnyExceptLineTerminator => of_any_in_line(),
        Insn::EndOfLine { multiline } => of_line_end(*multiline, behind(facts, at, at + 1)),
        Insn::StartOfLine { .. }
        | Insn::WordBoundary { .. }
        | Insn::WordBoundaryUnicodeICase { .. }
        | Insn::Atomic { .. }
        | Insn::BeginCaptureGroup(_)
        | Insn::EndCaptureGroup(_)
        | Insn::ResetCaptureGroup(_) => behind(facts, at, at + 1),
        Insn::Jump { target } => behind(facts, at, *target as usize),
        Insn::Alt { secondary } => {
            let second = behind(facts, at, *secondary as usize);
            either(behind(facts, at, at + 1), &second)
        }
        Insn::EnterLoop(repetition) => {
            let rest = behind(facts, at, repetition.exit as usize);
            unless_needed(behind(facts, at, at + 1), &rest, repetition.min_iters)
        }
        Insn::Loop1CharBody { min_iters, .. } => {
            let rest = behind(facts, at, at + 2);
            unless_needed(behind(facts, at, at + 1), &rest, *min_iters)
        }
        Insn::JustFail => ByteBitmap::default(),
        _ => every_byte(),
    })
}

/// What is known at first of an address: nothing.
fn nothing_known() -> Facts
    ensures { result.known ≡ Known.Nothing }
{
    Facts {
        first: every_byte(),
        known: Known::Nothing,
    }
}

/// Whether the same character stands at two addresses.
fn is_same_char(insns: &[Insn], at: usize, other: usize) -> bool
    ensures within { result ≡ true → other < length insns.now }
    ensures same { result ≡ true → (program : Program) → program.instructions ≡ map instruction insns.now →
        (c : ℕ) × Stands program at (char c) × Stands program other (char c) }
{
    if at >= insns.len() || other >= insns.len() {
        return false;
    }
    match (&insns[at], &insns[other]) {
        (Insn::Char(c), Insn::Char(d)) => *c == *d,
        _ => false,
    }
}

/// So many characters of late are remembered while first bytes are told.
const REMEMBERED: usize = 64;

/// Where an address is remembered, by the character there.
fn slot_of(insn: &Insn) -> usize
    ensures { result < 64 }
{
    match insn {
        Insn::Char(c) => *c as usize % REMEMBERED,
        _ => 0,
    }
}

/// For each address the bytes with which a match from there may begin. They are told from the last address on, so what leads
/// back is not looked at. Where a character stands that was met of late, the facts are shared.
pub(crate) fn first_bytes_by_address(
    alloc: Global,
    insns: &[Insn],
    brackets: &[BracketContents],
) -> Result<SharedFacts, AllocError>
    ensures told { (loops groups : ℕ) (units : Bool) → IfOk result (λ facts.
        AreFirstBytes (program_from insns.now brackets.now loops groups units) (firsts (shared facts))) }
    ensures size { IfOk result (λ facts. length (shared facts) ≡ length insns.now) }
    ensures known { IfOk result (λ facts. (at : ℕ) → known_of (shared facts) at ≡ Known.Nothing) }
{
    let mut facts = SharedFacts::new(alloc, nothing_known(), insns.len())?;
    let mut late = [0; REMEMBERED];
    let mut left = insns.len();
    'addresses: while left > 0 {
        left -= 1;
        let slot = slot_of(&insns[left]);
        let other = late[slot];
        late[slot] = left;
        if left < other && is_same_char(insns, left, other) {
            facts.share(left, other);
            continue;
        }
        let first = first_bytes_of(&insns[left], brackets, &facts, left)?;
        facts.put(
            left,
            Facts {
                first,
                known: Known::Nothing,
            },
        )?;
    }
    Ok(facts)
}
