//! What a row is, and how a line is read as one.

use crate::fault::RowError;
use crate::list::{Item, read_list};
use crate::points::{as_text, points_of, text_of, units_of};
use std::alloc::Global;

/// A pattern.
#[derive(Drop)]
pub struct Pattern {
    /// Its code points, surrogates among them.
    pub points: Vec<u32>,
    /// Its text; `None` where it holds a surrogate.
    pub text: Option<String>,
    /// Whether it has to match a whole text.
    pub whole: bool,
}

/// What a search or compiling comes to.
#[derive(Drop)]
pub enum Expected {
    /// These matches, in bytes of the text.
    List(Vec<Item>),
    /// The error of this name, with an `!` before it, and behind `!Syntax` its text where the row tells one.
    Refused(String),
}

/// A text, what is put in the place of its matches, and what comes of it.
#[derive(Drop)]
pub struct Replacing {
    /// The text that is searched.
    pub text: String,
    /// The replacement text.
    pub replacement: String,
    /// The text that is expected.
    pub expected: String,
}

/// What a row asks for.
#[derive(Drop)]
pub enum Work {
    /// All matches in a text from a start on.
    Matches {
        text: String,
        units: Vec<u16>,
        expected: Expected,
        start: usize,
    },
    /// All matches in 16-bit units from a start on: where they are UTF-16, and where each is a character.
    Units {
        units: Vec<u16>,
        utf16: Vec<Item>,
        ucs2: Vec<Item>,
        start: usize,
    },
    /// The named groups of the first match, as `a=0..1 b=-`.
    Names {
        text: String,
        expected: String,
    },
    /// A text with its first match replaced, by a text of the library's own language.
    Replace(Replacing),
    /// The same with all its matches.
    ReplaceAll(Replacing),
    /// A text with its first match replaced, by a template of the standard.
    ReplaceAs(Replacing),
    /// The same with all its matches.
    ReplaceAllAs(Replacing),
    /// The parts between the matches, as `<a><b>`.
    Split {
        text: String,
        parts: String,
    },
    /// At most so many parts.
    SplitN {
        text: String,
        limit: usize,
        parts: String,
    },
    /// A pattern that stands for a text as it is written.
    Escape {
        text: String,
        expected: String,
    },
}

/// A row.
#[derive(Drop)]
pub struct Row {
    /// The flags, as a word.
    pub flags: String,
    /// The pattern; empty where the work needs none.
    pub pattern: Pattern,
    /// What is asked for.
    pub work: Work,
}

/// The errors that a row may expect, but for those of syntax with a text.
const REFUSALS: &[&str] = &[
    "!Syntax",
    "!TooDeep",
    "!TooManyGroups",
    "!TooManyLoops",
    "!TooLarge",
];

/// The number that a field tells.
fn number(field: &str) -> Result<usize, RowError> {
    field.parse().ok().ok_or(RowError::Number)
}

/// The pattern that a field stands for.
fn read_pattern(alloc: Global, field: &str, whole: bool) -> Result<Pattern, RowError> {
    let points = points_of(alloc, field)?;
    let text = as_text(alloc, &points)?;
    Ok(Pattern {
        points,
        text,
        whole,
    })
}

/// What a field of a search expects.
fn read_expected(alloc: Global, field: &str) -> Result<Expected, RowError> {
    if !field.starts_with('!') {
        return Ok(Expected::List(read_list(alloc, field)?));
    }
    if !field.starts_with("!Syntax ") && !REFUSALS.contains(&field) {
        return Err(RowError::Refusal);
    }
    Ok(Expected::Refused(String::from_str(alloc, field)?))
}

/// A search in a text.
fn matches(alloc: Global, text: &str, list: &str, start: &str) -> Result<Work, RowError> {
    Ok(Work::Matches {
        text: text_of(alloc, text)?,
        units: units_of(alloc, text)?,
        expected: read_expected(alloc, list)?,
        start: number(start)?,
    })
}

/// A search in units.
fn units(
    alloc: Global,
    text: &str,
    utf16: &str,
    ucs2: &str,
    start: &str,
) -> Result<Work, RowError> {
    Ok(Work::Units {
        units: units_of(alloc, text)?,
        utf16: read_list(alloc, utf16)?,
        ucs2: read_list(alloc, ucs2)?,
        start: number(start)?,
    })
}

/// What is replaced, by the fields behind the pattern.
fn read_replacing(alloc: Global, fields: &[&str]) -> Result<Replacing, RowError> {
    let [text, replacement, expected] = fields else {
        return Err(RowError::Fields);
    };
    Ok(Replacing {
        text: text_of(alloc, text)?,
        replacement: text_of(alloc, replacement)?,
        expected: text_of(alloc, expected)?,
    })
}

/// What is asked for, by the name of the work and the fields behind the pattern.
fn read_work(alloc: Global, name: &str, fields: &[&str]) -> Result<Work, RowError> {
    match (name, fields) {
        ("" | "whole", [text, list]) => matches(alloc, text, list, "0"),
        ("" | "whole", [text, list, start]) => matches(alloc, text, list, start),
        ("units", [text, utf16, ucs2]) => units(alloc, text, utf16, ucs2, "0"),
        ("units", [text, utf16, ucs2, start]) => units(alloc, text, utf16, ucs2, start),
        ("names", [text, names]) => Ok(Work::Names {
            text: text_of(alloc, text)?,
            expected: text_of(alloc, names)?,
        }),
        ("replace", others) => Ok(Work::Replace(read_replacing(alloc, others)?)),
        ("replace_all", others) => Ok(Work::ReplaceAll(read_replacing(alloc, others)?)),
        ("replace_as", others) => Ok(Work::ReplaceAs(read_replacing(alloc, others)?)),
        ("replace_all_as", others) => Ok(Work::ReplaceAllAs(read_replacing(alloc, others)?)),
        ("split", [text, parts]) => Ok(Work::Split {
            text: text_of(alloc, text)?,
            parts: text_of(alloc, parts)?,
        }),
        ("splitn", [text, limit, parts]) => Ok(Work::SplitN {
            text: text_of(alloc, text)?,
            limit: number(limit)?,
            parts: text_of(alloc, parts)?,
        }),
        ("" | "whole" | "units" | "names" | "split" | "splitn", _) => Err(RowError::Fields),
        _ => Err(RowError::Work),
    }
}

/// The row of `escape`, by the fields behind the name.
fn escape(alloc: Global, fields: &[&str]) -> Result<Row, RowError> {
    let [text, expected] = fields else {
        return Err(RowError::Fields);
    };
    Ok(Row {
        flags: String::new(alloc),
        pattern: read_pattern(alloc, "", false)?,
        work: Work::Escape {
            text: text_of(alloc, text)?,
            expected: text_of(alloc, expected)?,
        },
    })
}

/// The row that a line tells. Errs as `RowError` names it.
///
/// ```rust
/// let row = read_row(alloc, "i\t(A)|b\tab\t0..1 0..1|1..2 -")?;
/// ```
pub fn read_row(alloc: Global, line: &str) -> Result<Row, RowError> {
    let (head, rest) = line.split_once('\t').ok_or(RowError::Fields)?;
    let (name, flags) = head.split_once(':').unwrap_or(("", head));
    let mut fields = Vec::new(alloc);
    for field in rest.split('\t') {
        fields.push(field)?;
    }
    if name == "escape" {
        return escape(alloc, &fields);
    }
    let (source, others) = fields.split_first().ok_or(RowError::Fields)?;
    Ok(Row {
        flags: String::from_str(alloc, flags)?,
        pattern: read_pattern(alloc, source, name == "whole")?,
        work: read_work(alloc, name, others)?,
    })
}
