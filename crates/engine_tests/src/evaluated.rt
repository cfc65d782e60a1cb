//! Both executors beside the evaluator, which runs the definitions: a few trees of each kind, as they are parsed and as they are
//! rewritten.

use crate::found::{in_utf8, listed, whole};
use crate::parsed::{parsed, rewritten};
use regress_evaluator::{CompiledPattern, Search};
use regress_front_nodes::ir::Regex;
use regress_front_tables::{Error, Tables};
use regress_match::Matches;
use std::alloc::Global;
use std::test::Fail;

/// Patterns and their flags.
const PATTERNS: &[(&str, &str)] = &[
    ("(?:a|ab)(?:c|bcd|)(d*)", ""),
    ("(?:(a)|(b)|c)*", ""),
    ("(?:(a)|b){2,3}?", ""),
    ("(?:a{1,2}?b?){2,}", ""),
    ("(a*)*b?", ""),
    (r"(a|a\1)*c", ""),
    (r"(\w)(?!.*\1)", ""),
    ("(?<=(a|ab)*)c", ""),
    (r"(?<=\1(a|b))c?", ""),
    ("(?<=a(?=b(?<=(ab))))(b)", ""),
    (r"\b(?:a|b)+\B", "m"),
    ("é|[é-ö]a", "i"),
    ("([ab]+) ([a-c]+)", ""),
    (r"([^b]+)b\1?", ""),
    (r#"("(?:[^"\\]|\\.)*").*\1"#, "s"),
    (r#""(?:[^"\\]|\\.){2,5}?""#, ""),
    ("(?:[ab]|c(?:[ab]|d)*x)*d", ""),
    ("((?:[ab]|cd){1,2})*c", ""),
    ("(?:ca|cat|catc)+h?s?", "iu"),
    ("(?:ab|(?=c)c|(?!d)[de])*d", ""),
    ("(?>a|ab)(c|b)?(?>(d)|a)*", ""),
    ("(?:(?>a+|(b))(?<=(?>ab|b|a))|c)*d", ""),
    (r"\b(\w+)\s+\1", ""),
    (r"\b([a-c]+)[^a-c]+\1", ""),
    ("(?:é|s)[abé]*é", "iu"),
    ("(?:s|(?:É|c))[a-d]{0,2}b", "iu"),
];

/// Texts in which each of these is searched for.
const TEXTS: &[&str] = &[
    "",
    "aabcbc",
    "abab cab",
    "baéa\nÉab",
    "aaacdbcd",
    r#""a\"b" c"d\\" "\"" "ab""#,
    "cats catcaca cabxd",
    "ab ab abc  abc éaé sab sÉaÉb c",
];

/// All matches of a tree in a text, as the evaluator finds them.
fn evaluated(alloc: Global, regex: &Regex<'_>, text: &str) -> Result<String, Error> {
    let pattern = CompiledPattern {
        node: &regex.node,
        tables: regex.tables,
        unicode: regex.flags.is_unicode(),
    };
    let search = Search::new(alloc, pattern, text)?;
    whole(listed(alloc, Matches::new(search, 0))?)
}

/// Fails at the first text in which the evaluator finds other matches of a pattern.
fn is_evaluated_so(alloc: Global, pattern: &str, flags: &str) -> Result<(), Fail> {
    let tables = Tables::small(alloc)?;
    let regex = parsed(alloc, pattern, flags, &tables)?;
    let other = rewritten(alloc, pattern, flags, &tables)?;
    for text in TEXTS {
        let read = in_utf8(alloc, &regex, text)?;
        let rewritten = in_utf8(alloc, &other, text)?;
        let evaluated = evaluated(alloc, &regex, text)?;
        if read.as_str() != evaluated.as_str() || rewritten.as_str() != evaluated.as_str() {
            return Err(Fail::new(format!(in alloc;
                "{pattern} in {text}: {read}, {rewritten}, {evaluated}"
            )?));
        }
    }
    Ok(())
}

#[test]
fn the_evaluator_finds_the_same(rt: HostRuntime) -> Result<(), Fail> {
    for (pattern, flags) in PATTERNS {
        is_evaluated_so(rt.alloc(), pattern, flags)?;
    }
    Ok(())
}
