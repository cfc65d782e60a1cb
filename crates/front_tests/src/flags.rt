//! Words of flags as a script has them.

use regress_front_core::Flags;
use std::alloc::{AllocError, Global};
use std::test::Fail;

/// What a word sets, with whether it sets `g`, `y` and `d`; or why it is refused.
fn told(alloc: Global, word: &str) -> Result<String, AllocError> {
    match Flags::parse(word) {
        Ok(script) => format!(in alloc;
            "{} {} {} {}",
            script.flags, script.global, script.sticky, script.has_indices
        ),
        Err(refused) => format!(in alloc; "{refused}"),
    }
}

/// Words, and what is told of each ("RegExpInitialize").
const WORDS: &[(&str, &str)] = &[
    ("", " false false false"),
    ("dgimsvy", "misv true true true"),
    ("yu", "u false true false"),
    ("gig", "repeated flag g"),
    ("iix", "repeated flag i"),
    ("ixi", "unknown flag x"),
    ("ué", "unknown flag é"),
    ("uv", "both flags u and v"),
    ("uvI", "unknown flag I"),
];

#[test]
fn words_set_flags_or_are_refused(rt: HostRuntime) -> Result<(), Fail> {
    for (row, (word, expected)) in WORDS.iter().enumerate() {
        if told(rt.alloc(), word)?.as_str() != *expected {
            return Err(Fail::new(row));
        }
    }
    Ok(())
}
