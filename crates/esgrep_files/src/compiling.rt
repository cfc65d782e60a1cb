//! From texts of the command line to patterns.

use crate::refusal::Refusal;
use crate::settings::Settings;
use regress::{CompileError, Flags, Regex, TableError, Tables, escape, syntax_error};
use regress_unicode::{unicode_case_parts, unicode_tables};
use std::alloc::{AllocError, Global};
use std::fs;
use std::rt::Files;

/// The flags of all patterns: those of the command line, and `i` where case is ignored.
fn flags(alloc: Global, settings: &Settings<'_>) -> Result<Flags, Refusal> {
    let letters = settings.flags;
    let mut flags = match Flags::parse(letters) {
        Ok(script) => script.flags,
        Err(error) => {
            return Err(Refusal::Told(format!(in alloc; "--flags {letters}: {error}")?));
        }
    };
    if settings.ignore_case {
        flags.icase = true;
    }
    Ok(flags)
}

/// What patterns are compiled by.
#[derive(Clone, Copy)]
struct Compiler<'t> {
    alloc: Global,
    flags: Flags,
    tables: &'t Tables,
    limit: usize,
}

impl Compiler<'_> {
    /// Why a pattern is refused: with a caret where it is none, and past the limit with that.
    fn refusal(self, error: CompileError, pattern: &str) -> Result<Refusal, AllocError> {
        let Compiler {
            alloc,
            flags,
            tables,
            limit,
        } = self;
        if matches!(error, CompileError::PastLimit) {
            let told = format!(in alloc;
                "a pattern may become more than {limit} instructions, which --regex-size-limit sets"
            )?;
            return Ok(Refusal::Told(told));
        }
        let told = match syntax_error(alloc, pattern, flags, tables) {
            Ok(Some(refused)) => refused.display(pattern).to_string(alloc)?,
            _ => error.to_string(alloc)?,
        };
        Ok(Refusal::Told(told))
    }

    /// A pattern, compiled within the limit.
    fn compile(self, pattern: &str) -> Result<Regex, Refusal> {
        match Regex::with_limit(self.alloc, pattern, self.flags, self.tables, self.limit) {
            Ok(regex) => Ok(regex),
            Err(error) => Err(self.refusal(error, pattern)?),
        }
    }

    /// The same for matches that take a whole line.
    fn whole_line(self, pattern: &str) -> Result<Regex, Refusal> {
        let Compiler { flags, tables, .. } = self;
        match Regex::whole_text_with_limit(self.alloc, pattern, flags, tables, self.limit) {
            Ok(regex) => Ok(regex),
            Err(error) => Err(self.refusal(error, pattern)?),
        }
    }

    /// A pattern of the command line, with what the options ask of it.
    fn asked(self, settings: &Settings<'_>, text: &str) -> Result<Regex, Refusal> {
        let pattern = if settings.fixed {
            escape(self.alloc, text)?
        } else {
            String::from_str(self.alloc, text)?
        };
        if settings.whole_lines {
            return self.whole_line(pattern.as_str());
        }
        // First alone: a text that is no pattern by itself may be one in a group.
        let alone = self.compile(pattern.as_str())?;
        if !settings.words {
            return Ok(alone);
        }
        let word = format!(in self.alloc; "(?<!\\w)(?:{pattern})(?!\\w)")?;
        self.compile(word.as_str())
    }
}

/// What stands in each pattern that asks for a property.
const PROPERTIES: [&str; 2] = ["\\p", "\\P"];

/// What stands in each pattern whose meaning depends on Unicode otherwise, where it is of ASCII and no flag ignores case: an escaped
/// character, which may stand in a name, or a modifier, which may ignore case.
const CHARACTERS: [&str; 4] = ["\\u", "(?i", "(?m", "(?s"];

/// Whether one of some texts stands in a pattern.
fn has_one(pattern: &str, texts: &[&str]) -> bool {
    texts.iter().any(|text| pattern.contains(*text))
}

/// Unicode's own table without its properties.
fn case_tables(alloc: Global) -> Result<Tables, TableError> {
    Tables::new(alloc, unicode_case_parts(alloc)?)
}

/// Tables for some patterns: as few as serve them, which are there sooner.
fn tables_for(alloc: Global, patterns: &[String], flags: Flags) -> Result<Tables, Refusal> {
    let mut asks_properties = false;
    let mut asks_characters = flags.icase;
    for pattern in patterns {
        let text = pattern.as_str();
        asks_properties |= has_one(text, &PROPERTIES);
        asks_characters |= !text.is_ascii() || has_one(text, &CHARACTERS);
    }
    let tables = if asks_properties {
        unicode_tables(alloc)
    } else if asks_characters {
        case_tables(alloc)
    } else {
        Tables::small(alloc)
    };
    match tables {
        Ok(tables) => Ok(tables),
        Err(_) => Err(Refusal::OutOfMemory),
    }
}

/// The texts of all patterns that the command line asks for: those of `-e`, and each line of the files of `-f`.
fn texts<R: Files + AllocGlobal>(rt: &R, settings: &Settings<'_>) -> Result<Vec<String>, Refusal> {
    let alloc = rt.alloc();
    let mut texts = Vec::new(alloc);
    for pattern in &settings.patterns {
        texts.push(String::from_str(alloc, pattern)?)?;
    }
    for path in &settings.pattern_files {
        let text = match fs::read_to_string(rt, *path) {
            Ok(text) => text,
            Err(error) => return Err(Refusal::Told(format!(in alloc; "{path}: {error}")?)),
        };
        for pattern in text.as_str().lines() {
            texts.push(String::from_str(alloc, pattern)?)?;
        }
    }
    Ok(texts)
}

/// All patterns that the command line asks for.
pub(crate) fn regexes<R: Files + AllocGlobal>(
    rt: &R,
    settings: &Settings<'_>,
) -> Result<Vec<Regex>, Refusal> {
    let alloc = rt.alloc();
    let flags = flags(alloc, settings)?;
    let texts = texts(rt, settings)?;
    let tables = tables_for(alloc, &texts, flags)?;
    let compiler = Compiler {
        alloc,
        flags,
        tables: &tables,
        limit: settings.size_limit,
    };
    let mut regexes = Vec::new(alloc);
    for text in &texts {
        regexes.push(compiler.asked(settings, text.as_str())?)?;
    }
    Ok(regexes)
}
