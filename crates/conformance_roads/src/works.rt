//! What is made of matches, each call in a function of its own, as in `calls`.

use crate::report::told_error;
use regress::{
    Error, Flags, Match, Range, Regex, ReplacementSyntax, Tables, escape, expand, syntax_error,
};
use std::alloc::{AllocError, Global};

/// What a call answers that errs where memory is refused alone.
fn unless_refused(outcome: Result<String, Error>) -> Result<String, AllocError> {
    match outcome {
        Ok(told) => Ok(told),
        Err(_) => Err(AllocError),
    }
}

/// Why a pattern is refused, as rows tell it.
pub(crate) fn refusal(alloc: Global, outcome: Result<Regex, Error>) -> Result<String, AllocError> {
    match outcome {
        Ok(_) => String::from_str(alloc, "accepted"),
        Err(error) => told_error(alloc, &error),
    }
}

/// Why a pattern is refused, by `syntax_error`.
pub(crate) fn syntax_refusal(
    alloc: Global,
    pattern: &str,
    flags: Flags,
    tables: &Tables,
) -> Result<String, AllocError> {
    match syntax_error(alloc, pattern, flags, tables) {
        Ok(Some(found)) => told_error(alloc, &Error::Syntax { text: found.text }),
        Ok(None) => String::from_str(alloc, "accepted"),
        Err(error) => told_error(alloc, &error),
    }
}

/// Adds a named group, parted from one that stands before it.
fn push_named(told: &mut String, name: &str, range: Option<Range>) -> Result<(), AllocError> {
    if !told.is_empty() {
        told.push(' ')?;
    }
    match range {
        Some(range) => write!(told, "{name}={}..{}", range.start, range.end),
        None => write!(told, "{name}=-"),
    }
}

/// The named groups of the first match.
pub(crate) fn names(alloc: Global, regex: &Regex, text: &str) -> Result<String, AllocError> {
    let mut told = String::new(alloc);
    match regex.find(text) {
        Ok(Some(found)) => {
            for (name, range) in found.named_groups() {
                push_named(&mut told, name, range)?;
            }
            Ok(told)
        }
        Ok(None) => Ok(told),
        Err(_) => Err(AllocError),
    }
}

/// A text with its first match replaced.
pub(crate) fn replaced(regex: &Regex, text: &str, replacement: &str) -> Result<String, AllocError> {
    unless_refused(regex.replace(text, replacement))
}

/// A text with all its matches replaced.
pub(crate) fn all_replaced(
    regex: &Regex,
    text: &str,
    replacement: &str,
) -> Result<String, AllocError> {
    unless_refused(regex.replace_all(text, replacement))
}

/// What a closure answers at a match: a new text where it holds no `$`, and else the text of the match.
fn answer(alloc: Global, text: &str, new: &str, found: &Match) -> Result<String, Error> {
    let part = if new.contains('$') {
        text.get(found.range()).unwrap_or("")
    } else {
        new
    };
    Ok(String::from_str(alloc, part)?)
}

/// A text with its first match replaced by what a closure answers.
pub(crate) fn replaced_with(
    alloc: Global,
    regex: &Regex,
    text: &str,
    new: &str,
) -> Result<String, AllocError> {
    unless_refused(regex.replace_with(text, |found| answer(alloc, text, new, found)))
}

/// A text with all its matches replaced by what a closure answers.
pub(crate) fn all_replaced_with(
    alloc: Global,
    regex: &Regex,
    text: &str,
    new: &str,
) -> Result<String, AllocError> {
    unless_refused(regex.replace_all_with(text, |found| answer(alloc, text, new, found)))
}

/// A text with its first match replaced by a template of the standard.
pub(crate) fn templated(regex: &Regex, text: &str, template: &str) -> Result<String, AllocError> {
    unless_refused(regex.replace_as(text, template, ReplacementSyntax::EcmaScript))
}

/// A text with all its matches replaced by a template of the standard.
pub(crate) fn all_templated(
    regex: &Regex,
    text: &str,
    template: &str,
) -> Result<String, AllocError> {
    unless_refused(regex.replace_all_as(text, template, ReplacementSyntax::EcmaScript))
}

/// A text with its first match replaced by what `expand` makes there of a template of the standard.
pub(crate) fn expanded(
    alloc: Global,
    regex: &Regex,
    text: &str,
    template: &str,
) -> Result<String, AllocError> {
    let Ok(found) = regex.find(text) else {
        return Err(AllocError);
    };
    let Some(found) = found else {
        return String::from_str(alloc, text);
    };
    let new = expand(alloc, &found, text, template, ReplacementSyntax::EcmaScript);
    let new = unless_refused(new)?;
    let before = text.get(..found.start()).unwrap_or("");
    let behind = text.get(found.end()..).unwrap_or("");
    format!(in alloc; "{before}{new}{behind}")
}

/// A text with all its matches replaced in the same way.
pub(crate) fn all_expanded(
    alloc: Global,
    regex: &Regex,
    text: &str,
    template: &str,
) -> Result<String, AllocError> {
    let Ok(matches) = regex.find_iter(text) else {
        return Err(AllocError);
    };
    let mut told = String::new(alloc);
    let mut behind = 0;
    for found in matches {
        let Ok(found) = found else {
            return Err(AllocError);
        };
        let new = expand(alloc, &found, text, template, ReplacementSyntax::EcmaScript);
        let new = unless_refused(new)?;
        let between = text.get(behind..found.start()).unwrap_or("");
        write!(told, "{between}{new}")?;
        behind = found.end();
    }
    told.push_str(text.get(behind..).unwrap_or(""))?;
    Ok(told)
}

/// The parts between the matches of a text, each as `<part>`.
pub(crate) fn parts(alloc: Global, regex: &Regex, text: &str) -> Result<String, AllocError> {
    let Ok(parts) = regex.split(text) else {
        return Err(AllocError);
    };
    let mut told = String::new(alloc);
    for part in parts {
        let Ok(part) = part else {
            return Err(AllocError);
        };
        write!(told, "<{part}>")?;
    }
    Ok(told)
}

/// At most so many parts of a text, each as `<part>`.
pub(crate) fn first_parts(
    alloc: Global,
    regex: &Regex,
    text: &str,
    limit: usize,
) -> Result<String, AllocError> {
    let Ok(parts) = regex.splitn(text, limit) else {
        return Err(AllocError);
    };
    let mut told = String::new(alloc);
    for part in parts {
        let Ok(part) = part else {
            return Err(AllocError);
        };
        write!(told, "<{part}>")?;
    }
    Ok(told)
}

/// A pattern for a text as it is written.
pub(crate) fn escaped(alloc: Global, text: &str) -> Result<String, AllocError> {
    unless_refused(escape(alloc, text))
}
