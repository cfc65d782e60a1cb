//! Programs, each instruction on a line of its own behind its address, and start predicates.

use crate::classes::{push_ascii, push_bitmap, push_bracket, push_quantifier};
use crate::texts::{push_byte, push_bytes, push_literal, push_point, push_points};
use regress_engine_code::{CompiledRegex, Landmark, NibbleSet, StartPredicate};
use regress_engine_insn::{Insn, LoopFields, bytes_of};
use regress_front::{ByteBitmap, Quantifier};
use std::alloc::{AllocError, Global};

/// The instructions of a program.
pub(crate) fn push_program(
    alloc: Global,
    out: &mut String,
    program: &CompiledRegex,
) -> Result<(), AllocError> {
    for (address, insn) in program.insns().iter().enumerate() {
        write!(out, "    {address:>3} ")?;
        push_insn(alloc, out, program, insn)?;
        out.push('\n')?;
    }
    Ok(())
}

/// An instruction: what takes bytes with its text, and any other by its kind.
fn push_insn(
    alloc: Global,
    out: &mut String,
    program: &CompiledRegex,
    insn: &Insn,
) -> Result<(), AllocError> {
    let bytes = bytes_of(insn);
    if bytes.is_empty() {
        return push_other(alloc, out, program, insn);
    }
    let length = bytes.len();
    write!(out, "ByteSeq{length} ")?;
    push_literal(out, bytes)
}

/// An instruction that takes no bytes.
fn push_other(
    alloc: Global,
    out: &mut String,
    program: &CompiledRegex,
    insn: &Insn,
) -> Result<(), AllocError> {
    match insn {
        Insn::AsciiBracket(set) => {
            out.push_str("AsciiBracket ")?;
            push_ascii(alloc, out, set)
        }
        Insn::Bracket(index) => push_class(out, program, *index),
        Insn::EnterLoop(fields) => push_loop(out, fields),
        Insn::Loop1CharBody {
            min_iters,
            max_iters,
            greedy,
        } => {
            out.push_str("Loop1CharBody ")?;
            push_quantifier(out, &Quantifier::new(*min_iters, *max_iters, *greedy))
        }
        other => push_set(out, other),
    }
}

/// An instruction that takes one character of a few, or any that is told by its fields.
fn push_set(out: &mut String, insn: &Insn) -> Result<(), AllocError> {
    match insn {
        Insn::Char(point) => {
            out.push_str("Char ")?;
            push_point(out, *point)
        }
        Insn::CharSet(points) => {
            out.push_str("CharSet ")?;
            push_points(out, points)
        }
        Insn::ByteSet2(set) => {
            out.push_str("ByteSet2 ")?;
            push_bytes(out, &set.0)
        }
        Insn::ByteSet3(set) => {
            out.push_str("ByteSet3 ")?;
            push_bytes(out, &set.0)
        }
        Insn::ByteSet4(set) => {
            out.push_str("ByteSet4 ")?;
            push_bytes(out, &set.0)
        }
        other => write!(out, "{other:?}"),
    }
}

/// A bracket of a program, with its class.
fn push_class(out: &mut String, program: &CompiledRegex, index: usize) -> Result<(), AllocError> {
    write!(out, "Bracket {index} ")?;
    match program.brackets().get(index) {
        Some(contents) => push_bracket(out, contents),
        None => out.push_str("which the program lacks"),
    }
}

/// Where a repetition is entered.
fn push_loop(out: &mut String, fields: &LoopFields) -> Result<(), AllocError> {
    let id = fields.loop_id;
    let exit = fields.exit;
    write!(out, "EnterLoop {id} ")?;
    push_quantifier(
        out,
        &Quantifier::new(fields.min_iters, fields.max_iters, fields.greedy),
    )?;
    write!(out, " exit: {exit}")
}

/// Where a match may begin.
pub(crate) fn push_start(
    alloc: Global,
    out: &mut String,
    start: &StartPredicate,
) -> Result<(), AllocError> {
    match start {
        StartPredicate::Arbitrary => out.push_str("Arbitrary"),
        StartPredicate::StartAnchored => out.push_str("StartAnchored"),
        StartPredicate::ByteSet1(bytes) => push_bytes_of(out, "ByteSet1 ", bytes),
        StartPredicate::ByteSet2(bytes) => push_bytes_of(out, "ByteSet2 ", bytes),
        StartPredicate::ByteSet3(bytes) => push_bytes_of(out, "ByteSet3 ", bytes),
        StartPredicate::ByteSeq(bytes) => {
            out.push_str("ByteSeq ")?;
            push_literal(out, bytes)
        }
        StartPredicate::ByteBracket(set) => {
            out.push_str("ByteBracket ")?;
            push_bitmap(alloc, out, set)
        }
        StartPredicate::ByteNear(set, landmark) => {
            out.push_str("ByteNear ")?;
            push_bitmap(alloc, out, set)?;
            out.push_str(" with ")?;
            push_landmark(alloc, out, landmark)
        }
        StartPredicate::BytePair(pair) => {
            out.push_str("BytePair ")?;
            push_bitmap(alloc, out, &members_of(&pair.first))?;
            out.push_str(" and ")?;
            push_bitmap(alloc, out, &members_of(&pair.second))
        }
        StartPredicate::WordStart(word) => {
            out.push_str("WordStart ")?;
            push_bitmap(alloc, out, &members_of(&word.first))
        }
    }
}

/// The members of a set.
fn members_of(set: &NibbleSet) -> ByteBitmap {
    let mut members = ByteBitmap::default();
    for byte in 0..=u8::MAX {
        if set.contains(byte) {
            members.set(byte);
        }
    }
    members
}

/// A byte that stands by each match, and where.
fn push_landmark(alloc: Global, out: &mut String, landmark: &Landmark) -> Result<(), AllocError> {
    match landmark {
        Landmark::Ahead { distance, byte } => {
            push_byte(out, *byte)?;
            write!(out, " at distance {distance}")
        }
        Landmark::BehindRun { run, byte } => {
            push_byte(out, *byte)?;
            out.push_str(" behind a run of ")?;
            push_bitmap(alloc, out, run)
        }
    }
}

/// A kind of predicate, and its bytes.
fn push_bytes_of(out: &mut String, kind: &str, bytes: &[u8]) -> Result<(), AllocError> {
    out.push_str(kind)?;
    push_bytes(out, bytes)
}

/// The bytes with which a match from an address may begin.
fn first_bytes_at(program: &CompiledRegex, address: usize) -> ByteBitmap {
    let mut first_bytes = ByteBitmap::default();
    for byte in 0..=u8::MAX {
        if !program.cannot_begin_with(address, byte) {
            first_bytes.set(byte);
        }
    }
    first_bytes
}

/// For each address of a program its first bytes.
pub(crate) fn push_first_bytes(
    alloc: Global,
    out: &mut String,
    program: &CompiledRegex,
) -> Result<(), AllocError> {
    for address in 0..program.insns().len() {
        write!(out, "    {address:>3} ")?;
        push_bitmap(alloc, out, &first_bytes_at(program, address))?;
        out.push('\n')?;
    }
    Ok(())
}
