//! What is known of a program without a run, and how far a class goes: what tells nothing is proved too, and only slower.

use crate::code::program;
use crate::parsed::rewritten;
use regress_engine_analysis::Known;
use regress_engine_code::{CompiledRegex, emit, emit_units};
use regress_engine_inputs::Utf8Input;
use regress_engine_insn::Insn;
use regress_engine_singles::{as_far_ahead, taken_before};
use regress_front_tables::Tables;
use std::test::Fail;

/// A pattern, how many of its loops give nothing back, and how many repetitions have iterations of one character each: what
/// follows is seen through groups, alternatives and what may be left out, and beyond ASCII by the first byte.
const KNOWN: &[(&str, usize, usize)] = &[
    ("a*b", 1, 0),
    ("a*a", 0, 0),
    ("a*", 0, 0),
    ("a*(?:b|c)", 1, 0),
    ("a*(?:b|a)", 0, 0),
    ("a*b?c", 2, 0),
    ("a*b?a", 1, 0),
    ("a*(?<n>b)", 1, 0),
    ("[^b]*b", 1, 0),
    (r"\d*$", 1, 0),
    (r"\d*\b", 0, 0),
    ("[à-ÿ]*[一-龥]", 1, 0),
    ("[à-ÿ]*é", 0, 0),
    (".*\n", 1, 0),
    ("(?:[^ab]|b.)*a", 0, 1),
    ("(?:[^a]|b.)*a", 0, 0),
    ("(?:[^ab]|b.)*c", 0, 0),
];

/// How many loops of a program give nothing back, and how many of its repetitions have iterations of one character each, as is known.
fn known_in(program: &CompiledRegex) -> (usize, usize) {
    let mut found = (0_usize, 0_usize);
    for at in 0..program.insns().len() {
        match program.known(at) {
            Known::Possessive => found.0 = found.0.saturating_add(1),
            Known::Turn(_) => found.1 = found.1.saturating_add(1),
            Known::Ways(_) => (),
            Known::Nothing => (),
        }
    }
    found
}

#[test]
fn loops_give_nothing_back_where_what_follows_begins_otherwise(
    rt: HostRuntime,
) -> Result<(), Fail> {
    let tables = Tables::small(rt.alloc())?;
    for (pattern, possessive, turns) in KNOWN {
        let regex = rewritten(rt.alloc(), pattern, "", &tables)?;
        assert!(rt; known_in(&emit(rt.alloc(), &regex)?) == (*possessive, *turns));
    }
    Ok(())
}

#[test]
fn of_units_the_same_is_known(rt: HostRuntime) -> Result<(), Fail> {
    let tables = Tables::small(rt.alloc())?;
    for (pattern, possessive, turns) in KNOWN {
        let regex = rewritten(rt.alloc(), pattern, "", &tables)?;
        assert!(rt; known_in(&emit_units(rt.alloc(), &regex)?) == (*possessive, *turns));
    }
    Ok(())
}

/// A class in `é,a;b\ncé`, from where and how many times it is taken at most, and where that ends.
const FAR: &[(&str, usize, usize, usize)] = &[
    ("[^,]", 0, 9, 2),
    ("[^,]", 2, 9, 2),
    ("[^,]", 3, 9, 10),
    ("[^,]", 3, 4, 7),
    ("[^;\n]", 0, 9, 4),
    ("[^;\n]", 5, 9, 6),
    ("[^,;\n]", 0, 9, 2),
    ("[^,;\n]", 7, 9, 10),
    ("[^,;\n]", 7, 1, 8),
    ("[^abcé]", 2, 9, 3),
    ("[^é]", 2, 9, 8),
    ("[^b-c]", 0, 99, 5),
];

#[test]
fn classes_go_as_far_as_what_they_do_not_match(rt: HostRuntime) -> Result<(), Fail> {
    let tables = Tables::small(rt.alloc())?;
    let text = "é,a;b\ncé";
    let input = Utf8Input::new(text, true, &tables);
    for (pattern, at, times, end) in FAR {
        let program = program(rt.alloc(), pattern, "", false, &tables)?;
        assert!(rt; text.is_char_boundary(*at));
        assert!(rt; !program.brackets().is_empty());
        let class = Insn::Bracket(0);
        assert!(rt; as_far_ahead(&program, &input, &class, *times, *at) == Some(*end));
    }
    Ok(())
}

/// A byte, an offset in `ab<c\nd`, and how far from there on characters of its line are told to be another.
const BEFORE: &[(u8, usize, usize)] = &[(b'<', 0, 2), (b'c', 1, 3), (b'x', 0, 4), (b'd', 4, 4)];

#[test]
fn characters_are_taken_before_a_byte(rt: HostRuntime) -> Result<(), Fail> {
    let tables = Tables::small(rt.alloc())?;
    let text = "ab<c\nd";
    let input = Utf8Input::new(text, true, &tables);
    for (byte, at, end) in BEFORE {
        assert!(rt; text.is_char_boundary(*at));
        let any = Insn::MatchAnyExceptLineTerminator;
        assert!(rt; taken_before(&input, &any, *byte, usize::MAX, *at) == *end);
    }
    Ok(())
}
