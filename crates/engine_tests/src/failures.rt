//! What is remembered of failures: a table that tells nothing, and a memory that learns nothing, are proved too, and only slower.
ghost use Rattle.std.specs.Prelude.{◌≡◌, false, IfOk};
ghost use Rattle.regress_engine_code.specs.Standing.{program_of};
ghost use Rattle.regress_engine_exec.specs.Turned.{TellsLinear};

use crate::code::program;
use crate::found::undoing_in_utf8;
use crate::parsed::rewritten;
use regress_engine_code::{CompiledRegex, emit, emit_units};
use regress_engine_exec::{BacktrackExecutor, Backtracker, Scratch, linear_steps};
use regress_engine_inputs::{Utf8Input, Utf16Input};
use regress_engine_linear::LinearTable;
use regress_engine_memory::{Failures, FlowTable};
use regress_engine_search::StepsLeft;
use regress_engine_undo::Spot;
use regress_front_core::LoopData;
use regress_front_tables::Tables;
use regress_match::Range;
use std::alloc::{AllocError, Global};
use std::test::Fail;

/// A pattern, and at how many addresses of its program failures may be learned: from there on no group is referred to.
const CALM: &[(&str, usize)] = &[
    ("ab", 2),
    ("(x+x+)+y", 13),
    ("(?:a|ab)*c", 8),
    ("(?:a*)*b", 6),
    ("(?:a|b){2,40}c", 16),
    ("(?=(?:a+)+b)c", 13),
    ("(?<!a*b)c", 7),
    ("(?>a|ab)*c", 10),
    (r"(a)b\1c", 2),
    (r"(?:(a)|b)*\1", 1),
];

#[test]
fn failures_may_be_learned_where_no_group_is_referred_to(rt: HostRuntime) -> Result<(), Fail> {
    let alloc = rt.alloc();
    let tables = Tables::small(alloc)?;
    for (pattern, calm) in CALM {
        let program = emit(alloc, &rewritten(alloc, pattern, "", &tables)?)?;
        let found = FlowTable::of(alloc, program.insns(), program.loops() as usize)?;
        let Some(table) = found else {
            return Err(Fail::new(format!(in alloc; "{pattern}: no table")?));
        };
        let mut count: usize = 0;
        for at in 0..program.insns().len() {
            count = count.saturating_add(usize::from(table.is_calm(at)));
        }
        if count != *calm {
            return Err(Fail::new(format!(in alloc; "{pattern}: {count}")?));
        }
    }
    Ok(())
}

/// What is known of three spots, once a failure was learned at the first, where so many blocks may be taken: of the same spot, of
/// one at another offset, and of one that is read backward.
fn known_of(alloc: Global, room: usize) -> Result<Option<(bool, bool, bool)>, Fail> {
    let tables = Tables::small(alloc)?;
    let program = program(alloc, "a|b", "", false, &tables)?;
    let Some(table) = FlowTable::of(alloc, program.insns(), program.loops() as usize)? else {
        return Ok(None);
    };
    let loops: &[LoopData<usize>] = &[];
    let spot = Spot {
        at: 0,
        offset: 700,
        forward: true,
    };
    let other = Spot {
        offset: 701,
        ..spot
    };
    let back = Spot {
        forward: false,
        ..spot
    };
    let mut failures = Failures::new(alloc, table, room);
    failures.learn(&spot, loops, 1000);
    Ok(Some((
        failures.is_known(&spot, loops),
        failures.is_known(&other, loops),
        failures.is_known(&back, loops),
    )))
}

#[test]
fn a_failure_is_known_where_there_is_room(rt: HostRuntime) -> Result<(), Fail> {
    assert!(rt; known_of(rt.alloc(), 0)? == Some((false, false, false)));
    assert!(rt; known_of(rt.alloc(), 6)? == Some((false, false, false)));
    assert!(rt; known_of(rt.alloc(), 7)? == Some((true, false, false)));
    Ok(())
}

/// Whether it is known of a spot that it fails, and that it does behind further iterations too, once the one or the other was
/// learned.
fn exits_known(alloc: Global, further: bool) -> Result<Option<(bool, bool)>, Fail> {
    let tables = Tables::small(alloc)?;
    let program = program(alloc, "a*b", "", false, &tables)?;
    let Some(table) = FlowTable::of(alloc, program.insns(), program.loops() as usize)? else {
        return Ok(None);
    };
    let loops: &[LoopData<usize>] = &[];
    let spot = Spot {
        at: 2,
        offset: 7,
        forward: true,
    };
    let mut failures = Failures::new(alloc, table, 8);
    if further {
        failures.learn_exits(&spot, loops);
    } else {
        failures.learn(&spot, loops, 1000);
    }
    Ok(Some((
        failures.is_known(&spot, loops),
        failures.are_exits_known(&spot, loops),
    )))
}

#[test]
fn that_further_iterations_fail_is_known_apart(rt: HostRuntime) -> Result<(), Fail> {
    assert!(rt; exits_known(rt.alloc(), false)? == Some((true, false)));
    assert!(rt; exits_known(rt.alloc(), true)? == Some((false, true)));
    Ok(())
}

/// A pattern that has very many ways through a text, its flags, a piece of the text, how often it stands, what ends it, and the first match.
type HostileRow = (
    &'static str,
    &'static str,
    &'static str,
    usize,
    &'static str,
    Option<(usize, usize)>,
);

const HOSTILE: &[HostileRow] = &[
    ("(x+x+)+y", "", "x", 1000, "", None),
    ("(x+x+)+y", "", "x", 1000, "y", Some((0, 1001))),
    ("(a|a)*b", "", "a", 20_000, "", None),
    ("(?:a|ab)*c", "", "ab", 20_000, "", None),
    ("(?:a|ab)*c", "", "ab", 20_000, "c", Some((0, 40_001))),
    ("^(([a-z])+.)+[A-Z]([a-z])+$", "", "a", 200, "", None),
    (
        "^(([a-z])+.)+[A-Z]([a-z])+$",
        "",
        "a",
        200,
        "Ab",
        Some((0, 202)),
    ),
    ("(a+)+$", "", "a", 1000, "!", None),
    ("(.*)*x", "", "a", 500, "", None),
    ("(?:a|a?)+$", "", "a", 1000, "b", Some((1001, 1001))),
    (r"(\w+\s?)*$", "", "a", 1000, "!", Some((1001, 1001))),
    ("(?:(?:a?)*)*b", "", "a", 500, "", None),
    ("(?:a?(?:a|a))*?b", "", "a", 1000, "", None),
    ("(?=(?:a|a)*b)a", "", "a", 500, "", None),
    ("(?>(?:a|a)*b)|a+c", "", "a", 500, "", None),
    ("(?<=b(?:a|a)*)c", "", "a", 1000, "c", None),
    ("(?:(a|a){127}!)+?", "", "a", 200, "", None),
    ("(?:a|aa){200}b", "", "a", 300, "", None),
    // Of a least number no more iterations are done than the text has room for.
    (r"(x|){65536,}?\n", "", "x", 60, "", None),
    (r"(x|){65536,}?\n", "", "x", 60, "\n", Some((0, 61))),
    ("(?:(?:yy)?|x){65536,}z", "", "x", 60, "", None),
    ("(?:x{0,40}|y){65536,}z", "", "x", 60, "", None),
    // Many ways to begin an iteration take nothing.
    (
        "(?:(?:|x|)(?:|x|)(?:|x|)(?:|x|)(?:|x|)(?:|x|)(?:|x|)(?:|x|)(?:|x|)(?:|x|)(?:|x|)(?:|x|)(?:|x|)\
         (?:|x|)(?:|x|)(?:|x|)(?:|x|)(?:|x|)(?:|x|)(?:|x|)(?:|x|)(?:|x|)(?:|x|)(?:|x|)(?:|x|)(?:|x|)a)*b",
        "",
        "a",
        12,
        "",
        None,
    ),
    // A loop of many iterations has a plane for each.
    ("(a|a){0,1000}b", "", "a", 1_500, "", None),
    ("(?:a|aa){500}b", "", "a", 900, "", None),
    // Fewer characters are left than a match needs.
    ("(?:a?){300}a{300}", "", "a", 299, "", None),
    (r"^(x|){65536,}?\n", "", "x", 1, "", None),
    ("x*y", "", "x", 50_000, "", None),
    ("x*?y", "", "x", 50_000, "", None),
    ("x*?(?:y|z)", "", "x", 50_000, "z", Some((0, 50_001))),
    ("(x+x+)+y", "", "x", 50_000, "", None),
    ("(.*)*x", "", "a", 50_000, "", None),
    (r"(\w+\s?)*$", "", "a", 50_000, "!", Some((50_001, 50_001))),
    ("(?:a*b)*c", "", "aab", 20_000, "", None),
    ("(?:a*b)*c", "", "aab", 20_000, "c", Some((0, 60_001))),
    ("(?<=yx*)x", "", "x", 50_000, "", None),
    ("(?<=yx*)x", "", "x", 50_000, "yx", Some((50_001, 50_002))),
    // Repetitions of more than a character, read backward.
    ("(?:(?<=^(?:a|ba)*)a)*c", "", "a", 20_000, "", None),
    (
        "(?:(?<=^(?:a|ba)*)a)*c",
        "",
        "a",
        20_000,
        "c",
        Some((0, 20_001)),
    ),
    ("(?:(?<!b(?:a|aa)+)a)*c", "", "a", 20_000, "", None),
    ("(?=x*(?:y|z))x", "", "x", 50_000, "", None),
    ("(a+)+$", "", "a", 50_000, "!", None),
    ("(?:a|a?)+$", "", "a", 20_000, "b", Some((20_001, 20_001))),
    ("(K|K){31}?", "", "K", 30, "z", None),
    (r"(?:(x|x){127}\n)+?", "", "x", 61, "", None),
    ("(?:(?:a|aa){128,129}b)+?", "", "a", 200, "", None),
    ("(?:(?:ς|ΣΣ){128,129}ς)+?", "i", "Σ", 128, "zσ", None),
    (
        "^(?:a|a)*$",
        "m",
        "a",
        20_000,
        "b\n",
        Some((20_002, 20_002)),
    ),
    (
        "^(?:a|ab)*$",
        "m",
        "ab",
        20_000,
        "c\nab",
        Some((40_002, 40_004)),
    ),
    // Groups inside of lookarounds, and atomic groups.
    ("(?:(?=(a)|(b))[ab])*c", "", "ab", 1_000, "", None),
    (
        "(?:(?=(a)|(b))[ab])*c",
        "",
        "ab",
        1_000,
        "c",
        Some((0, 2_001)),
    ),
    ("(?:(?<=(a)|^)(?:a|ab))*c", "", "a", 500, "", None),
    ("(?:(?>a|bc)x)*d", "", "ax", 1_000, "", None),
    ("(?:(?>a|bc)x)*d", "", "bcx", 1_000, "d", Some((0, 3_001))),
    // An atomic group is all that an iteration takes.
    ("(?:(?>a|ab))*c", "", "a", 20_000, "", None),
    ("(?>ab|a)+c", "", "aba", 5_000, "c", Some((0, 15_001))),
    // Nothing is passed again and again before runs that end at once.
    (r"\d+(?:\.\d+)?%", "", "1", 50_000, "", None),
    ("[a-z]+(?:11|22)z", "", "a", 50_000, "", None),
    (r"[A-Za-z]+@[a-z]+\.com", "", "a", 50_000, "@b", None),
    // Lookarounds whose contents match are told of by a table, once they were run very often.
    ("(?:(?=a*b)a)*c", "", "a", 50_000, "b", None),
    ("(?:(?=a*b)a)*b", "", "a", 50_000, "b", Some((0, 50_001))),
    ("(?:(?=(?:a|d)*b)a)*c", "", "a", 20_000, "b", None),
    ("(?:(?<=(?:^|b)a*)a)+c", "", "a", 20_000, "b", None),
    (
        "(?:(?<=(?:^|b)a*)a)+c",
        "",
        "a",
        20_000,
        "c",
        Some((0, 20_001)),
    ),
    // Those that turn the direction are told of by levels, and atomic groups through those inside.
    ("(?:(?<=(?=a*b)a)a|a)*c", "", "a", 20_000, "b", None),
    ("(?:(?>a(?>a|ab)))*c", "", "a", 20_000, "", None),
    // Contents of atomic groups that repeat.
    ("(?>a+)b", "", "a", 20_000, "", None),
    ("(?>a+)b", "", "a", 20_000, "b", Some((0, 20_001))),
    ("(?>(?:a|b)+)c", "", "ab", 10_000, "", None),
    ("(?>(?:a|b)+)c", "", "ab", 10_000, "c", Some((0, 20_001))),
    ("(?:(?>(?:a|ab)*)b)*c", "", "a", 20_000, "", None),
    // What is visited once may have loops.
    ("^(?=((?:a|ab)*)c)", "", "ab", 10_000, "", None),
    ("^(?=((?:a|ab)*)c)", "", "ab", 10_000, "c", Some((0, 0))),
    (
        "^(?=((?:a|b)*c))(?=((?:b|a)+)c).",
        "",
        "ab",
        10_000,
        "c",
        Some((0, 1)),
    ),
    (
        "^(?=(.*b))(?=.*([ac])).{8,}$",
        "",
        "a",
        50_000,
        "b",
        Some((0, 50_001)),
    ),
    // Of a program that is not linear there is no table.
    ("(?:(?=(a*)b)a)*c", "", "a", 1_000, "b", None),
    // What is known of an iteration that has taken nothing is not known of one that has.
    (
        "(?:x|x)*y|a?(?=(?:a?)*b)a",
        "",
        "x",
        30,
        "ab",
        Some((30, 31)),
    ),
];

/// The first match of a pattern in a text, by the executor that undoes.
fn first_match(
    alloc: Global,
    pattern: &str,
    flags: &str,
    text: &str,
) -> Result<Option<(usize, usize)>, Fail> {
    let tables = Tables::small(alloc)?;
    let program = emit(alloc, &rewritten(alloc, pattern, flags, &tables)?)?;
    let mut executor = BacktrackExecutor::new(alloc, &program, text);
    let found = executor.find_from(0)?;
    Ok(found.map(|m| (m.start(), m.end())))
}

/// The same over 16-bit units.
fn first_match_in_units(
    alloc: Global,
    pattern: &str,
    flags: &str,
    text: &str,
) -> Result<Option<(usize, usize)>, Fail> {
    let tables = Tables::small(alloc)?;
    let program = emit_units(alloc, &rewritten(alloc, pattern, flags, &tables)?)?;
    let units: Vec<u16> = text.encode_utf16().collect(alloc)?;
    let input = Utf16Input::new(&units, program.flags().is_unicode(), program.tables());
    let mut executor = BacktrackExecutor::with_input(alloc, &program, input);
    let found = executor.find_from(0)?;
    Ok(found.map(|m| (m.start(), m.end())))
}

#[test]
fn patterns_of_many_ways_are_searched_soon(rt: HostRuntime) -> Result<(), Fail> {
    for (pattern, flags, piece, count, end, expected) in HOSTILE {
        let mut text = piece.repeat(rt.alloc(), *count)?;
        text.push_str(end)?;
        assert!(rt; first_match(rt.alloc(), pattern, flags, text.as_str())? == *expected);
    }
    Ok(())
}

#[test]
fn and_over_units(rt: HostRuntime) -> Result<(), Fail> {
    for (pattern, flags, piece, count, end, expected) in HOSTILE {
        let mut text = piece.repeat(rt.alloc(), *count)?;
        text.push_str(end)?;
        assert!(rt; first_match_in_units(rt.alloc(), pattern, flags, text.as_str())? == *expected);
    }
    Ok(())
}

/// The table by which a program is linear, where it is.
fn linear_table(alloc: Global, program: &CompiledRegex) -> Result<Option<LinearTable>, AllocError>
    ensures { IfOk result (TellsLinear (program_of program.now)) }
{
    LinearTable::of(alloc, program.insns(), program.loops() as usize)
}

/// The ranges of all matches of a program in a text, within as many steps as are enough; `None` where it isn't linear.
fn ranges_within(
    alloc: Global,
    program: &CompiledRegex,
    text: &str,
) -> Result<Option<Vec<Range>>, Fail>
    requires { program.now.units ≡ false }
{
    let Some(table) = linear_table(alloc, program)? else {
        return Ok(None);
    };
    let Some(steps) = linear_steps(&table, text.len()) else {
        return Ok(None);
    };
    let input = Utf8Input::new(text, program.flags().is_unicode(), program.tables());
    let (scratch, budget) = (Scratch::new(alloc), StepsLeft(steps));
    let mut executor = Backtracker::with_budget(
        alloc,
        program,
        Some(&table),
        input,
        scratch,
        budget,
    );
    let mut position = executor.initial_position(0);
    let mut ranges = Vec::new(alloc);
    for _ in 0..=text.len() {
        let Some(found) = executor.step(&mut position) else {
            break;
        };
        ranges.push(found?.range())?;
    }
    Ok(Some(ranges))
}

/// The same of a pattern, whose program of bytes is made.
fn linear_ranges(
    alloc: Global,
    pattern: &str,
    flags: &str,
    text: &str,
) -> Result<Option<Vec<Range>>, Fail> {
    let tables = Tables::small(alloc)?;
    let program = emit(alloc, &rewritten(alloc, pattern, flags, &tables)?)?;
    ranges_within(alloc, &program, text)
}

#[test]
fn linear_ones_are_searched_in_enough_steps(rt: HostRuntime) -> Result<(), Fail> {
    let mut linear: usize = 0;
    for (pattern, flags, piece, count, end, expected) in HOSTILE {
        let mut text = piece.repeat(rt.alloc(), *count)?;
        text.push_str(end)?;
        if let Some(ranges) = linear_ranges(rt.alloc(), pattern, flags, text.as_str())? {
            assert!(rt; ranges.first().map(|r| (r.start, r.end)) == *expected);
            linear = linear.saturating_add(1);
        }
    }
    assert!(rt; linear > 25);
    Ok(())
}

/// A linear pattern that is looked for by a byte behind a run, what a text has very often, what ends that, and how many matches there are.
const BEHIND_RUNS: &[(&str, &str, &str, usize)] = &[
    (r"[A-Za-z]+@[a-z]+\.com", "a", "@b", 0),
    (r"[A-Za-z]+@[a-z]+\.com", "a", "@b a@b.com", 1),
    (r"\d+(?:\.\d+)?%", "1", "", 0),
    (r"\d+(?:\.\d+)?%", "1", ".x 1% 1.5%", 2),
];

#[test]
fn bytes_behind_runs_are_looked_for_in_enough_steps(rt: HostRuntime) -> Result<(), Fail> {
    for (pattern, piece, end, expected) in BEHIND_RUNS {
        let mut text = piece.repeat(rt.alloc(), 200_000)?;
        text.push_str(end)?;
        let ranges = linear_ranges(rt.alloc(), pattern, "", text.as_str())?;
        assert!(rt; ranges.map(|r| r.len()) == Some(*expected));
    }
    Ok(())
}

#[test]
fn what_is_remembered_serves_all_matches(rt: HostRuntime) -> Result<(), Fail> {
    let tables = Tables::small(rt.alloc())?;
    let regex = rewritten(rt.alloc(), "a.*b|a", "", &tables)?;
    let text = "a".repeat(rt.alloc(), 20_000)?;
    let told = undoing_in_utf8(rt.alloc(), &regex, text.as_str())?;
    let parted = told.as_str().bytes().filter(|byte| *byte == b'|');
    assert!(rt; parted.count() == 19_999);
    Ok(())
}
