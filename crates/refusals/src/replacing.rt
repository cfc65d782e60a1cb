//! Replacing, splitting and escaping.

use crate::asking::{Work, tell_refusal, try_work};
use crate::building::compiled;
use crate::refusal::Refusal;
use crate::row::Row;
use regress::{Error, Match, Regex, ReplacementSyntax, Tables, escape, expand};
use std::alloc::{AllocError, Global};

/// The start of a match, told in decimal.
fn start_of(alloc: Global, found: &Match) -> Result<String, Error> {
    Ok(format!(in alloc; "{}", found.start())?)
}

/// A text with its first match replaced by where that starts.
fn replaced_with(alloc: Global, regex: &Regex, text: &str) -> Result<String, Error> {
    regex.replace_with(text, |found| start_of(alloc, found))
}

/// A text with each match replaced by where it starts.
fn all_replaced_with(alloc: Global, regex: &Regex, text: &str) -> Result<String, Error> {
    regex.replace_all_with(text, |found| start_of(alloc, found))
}

/// A text with its first match replaced.
fn replaced(regex: &Regex, text: &str, replacement: &str) -> Result<String, Error> {
    regex.replace(text, replacement)
}

/// A text with all its matches replaced.
fn all_replaced(regex: &Regex, text: &str, replacement: &str) -> Result<String, Error> {
    regex.replace_all(text, replacement)
}

/// A text with its first match replaced by a template of the standard.
fn templated(regex: &Regex, text: &str, template: &str) -> Result<String, Error> {
    regex.replace_as(text, template, ReplacementSyntax::EcmaScript)
}

/// A text with all its matches replaced by a template of the standard.
fn all_templated(regex: &Regex, text: &str, template: &str) -> Result<String, Error> {
    regex.replace_all_as(text, template, ReplacementSyntax::EcmaScript)
}

/// What a template of the standard is at the first match; the text where there is none.
fn expanded(alloc: Global, regex: &Regex, text: &str, template: &str) -> Result<String, Error> {
    match regex.find(text)? {
        Some(found) => expand(alloc, &found, text, template, ReplacementSyntax::EcmaScript),
        None => Ok(String::from_str(alloc, text)?),
    }
}

/// A pattern for a text as it is written.
fn escaped(alloc: Global, text: &str) -> Result<String, Error> {
    escape(alloc, text)
}

/// Tells one part of a text, with `|` behind it, or why there is none.
fn tell_part(told: &mut String, part: Result<&str, Error>) -> Result<(), AllocError> {
    match part {
        Ok(part) => told.push_str(part)?,
        Err(error) => tell_refusal(told, Refusal::from(error))?,
    }
    told.push('|')
}

/// Tells the parts of a text; past an error nothing may come.
fn tell_parts(told: &mut String, regex: &Regex, text: &str) -> Result<(), Refusal> {
    for part in regex.split(text)? {
        tell_part(told, part)?;
    }
    Ok(())
}

/// Tells at most two parts of a text.
fn tell_two_parts(told: &mut String, regex: &Regex, text: &str) -> Result<(), Refusal> {
    for part in regex.splitn(text, 2)? {
        tell_part(told, part)?;
    }
    Ok(())
}

/// What becomes of a text.
#[derive(Clone, Copy)]
enum Change {
    Replace,
    ReplaceAll,
    ReplaceAs,
    ReplaceAllAs,
    Expand,
    ReplaceWith,
    ReplaceAllWith,
    Split,
    SplitN,
    Escape,
}

/// The work of this name.
fn change_by(name: &str) -> Option<Change> {
    match name {
        "replace" => Some(Change::Replace),
        "replace_all" => Some(Change::ReplaceAll),
        "replace_as" => Some(Change::ReplaceAs),
        "replace_all_as" => Some(Change::ReplaceAllAs),
        "expand" => Some(Change::Expand),
        "replace_with" => Some(Change::ReplaceWith),
        "replace_all_with" => Some(Change::ReplaceAllWith),
        "split" => Some(Change::Split),
        "splitn" => Some(Change::SplitN),
        "escape" => Some(Change::Escape),
        _ => None,
    }
}

/// A change of a text by a regex.
#[derive(Drop)]
struct Changing<'t> {
    alloc: Global,
    change: Change,
    regex: &'t Regex,
    text: &'t str,
    replacement: &'t str,
}

impl Changing<'_> {
    /// The text that is made.
    fn made(&self) -> Result<String, Error> {
        let Changing {
            alloc,
            regex,
            text,
            replacement,
            ..
        } = *self;
        match self.change {
            Change::Replace => replaced(regex, text, replacement),
            Change::ReplaceAll => all_replaced(regex, text, replacement),
            Change::ReplaceAs => templated(regex, text, replacement),
            Change::ReplaceAllAs => all_templated(regex, text, replacement),
            Change::Expand => expanded(alloc, regex, text, replacement),
            Change::ReplaceWith => replaced_with(alloc, regex, text),
            Change::ReplaceAllWith => all_replaced_with(alloc, regex, text),
            _ => escaped(alloc, text),
        }
    }
}

impl Work for Changing<'_> {
    fn work(&mut self, told: &mut String) -> Result<(), Refusal> {
        match self.change {
            Change::Split => tell_parts(told, self.regex, self.text),
            Change::SplitN => tell_two_parts(told, self.regex, self.text),
            _ => {
                let made = self.made()?;
                told.push_str(made.as_str())?;
                Ok(())
            }
        }
    }
}

/// Does a row's work, if it is one of these.
pub(crate) fn try_row(alloc: Global, row: &Row, told: &mut String) -> Result<bool, Refusal> {
    let Some(change) = change_by(row.work.as_str()) else {
        return Ok(false);
    };
    let tables = Tables::small(alloc)?;
    let regex = compiled(alloc, row, &tables)?;
    let work = Changing {
        alloc,
        change,
        regex: &regex,
        text: row.text.as_str(),
        replacement: row.extra.as_str(),
    };
    try_work(alloc, row, work, told)
}
