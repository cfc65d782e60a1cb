//! Replacement texts in both languages, of the first matches alone, and one match expanded.

use crate::told::{compiled, first, is_same};
use regress::{Error, Regex, ReplacementSyntax, Tables, expand};
use std::alloc::Global;
use std::test::Fail;

/// A text with its first match replaced by a template of the standard.
fn templated_once(regex: &Regex, text: &str, template: &str) -> Result<String, Error> {
    regex.replace_as(text, template, ReplacementSyntax::EcmaScript)
}

/// A template at the first match in a text, if there is one.
fn expanded(
    alloc: Global,
    regex: &Regex,
    text: &str,
    template: &str,
) -> Result<Option<String>, Error> {
    match regex.find(text)? {
        Some(found) => {
            Ok(Some(expand(alloc, &found, text, template, ReplacementSyntax::EcmaScript)?))
        }
        None => Ok(None),
    }
}

#[test]
fn one_match_is_expanded(rt: HostRuntime) -> Result<(), Fail> {
    let tables = Tables::small(rt.alloc())?;
    let regex = compiled(rt.alloc(), "(a)(b)?", "", &tables)?;
    assert!(rt; first(&regex, "xab")?.is_some());
    let Some(told) = expanded(rt.alloc(), &regex, "xaby", "$`$2$1$'")? else {
        return Err(Fail::new("no match"));
    };
    let once = templated_once(&regex, "xaby", "$2$1")?;
    assert!(rt; told.as_str() == "xbay" && once.as_str() == "xbay");
    Ok(())
}

/// Texts with none, one and more of the matches of `a1b2c3` replaced.
const REPLACED: &[(usize, &str)] = &[
    (0, "a1b2c3"),
    (1, "a<1>b2c3"),
    (2, "a<1>b<2>c3"),
    (3, "a<1>b<2>c<3>"),
    (9, "a<1>b<2>c<3>"),
];

/// A text with its first matches replaced, in both languages.
fn first_replaced(regex: &Regex, text: &str, limit: usize) -> Result<(String, String), Error> {
    let ours = regex.replacen(text, limit, "<$0>")?;
    let standard = regex.replacen_as(text, limit, "<$&>", ReplacementSyntax::EcmaScript)?;
    Ok((ours, standard))
}

#[test]
fn as_many_are_replaced_as_the_limit_says(rt: HostRuntime) -> Result<(), Fail> {
    let tables = Tables::small(rt.alloc())?;
    let regex = compiled(rt.alloc(), r"\d", "", &tables)?;
    for (limit, expected) in REPLACED {
        let (ours, standard) = first_replaced(&regex, "a1b2c3", *limit)?;
        is_same(rt.alloc(), expected, ours.as_str(), expected)?;
        is_same(rt.alloc(), expected, standard.as_str(), expected)?;
    }
    Ok(())
}
