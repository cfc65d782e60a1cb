//! Names of files by globs.

use crate::refusal::Refusal;
use regress::{Flags, Regex, Tables};
use std::alloc::{AllocError, Global};

/// Globs, any of which a name may fit.
#[derive(Drop)]
pub(crate) struct Globs {
    regexes: Vec<Regex>,
}

impl Globs {
    /// Globs: `*` stands for any text, `?` for any character, and `[..]` for one of a set, or with `!` first for one that is not
    /// in it.
    pub fn new(alloc: Global, globs: &[&str]) -> Result<Globs, Refusal> {
        let Ok(tables) = Tables::small(alloc) else {
            return Err(Refusal::OutOfMemory);
        };
        let mut regexes = Vec::new(alloc);
        for glob in globs {
            let pattern = pattern_of(alloc, glob)?;
            match Regex::with_flags(alloc, pattern.as_str(), Flags::from("su"), &tables) {
                Ok(regex) => regexes.push(regex)?,
                Err(_) => return Err(Refusal::Told(format!(in alloc; "{glob}: not a glob")?)),
            }
        }
        Ok(Globs { regexes })
    }

    /// Whether there is none.
    pub fn is_empty(&self) -> bool {
        self.regexes.is_empty()
    }

    /// Whether a name fits one of them.
    pub fn fit(&self, name: &str) -> Result<bool, Refusal> {
        for regex in &self.regexes {
            if regex.is_match(name)? {
                return Ok(true);
            }
        }
        Ok(false)
    }
}

/// The pattern that a glob stands for.
fn pattern_of(alloc: Global, glob: &str) -> Result<String, AllocError> {
    let mut pattern = String::from_str(alloc, "^")?;
    let mut in_set = false;
    for character in glob.chars() {
        match character {
            '*' if !in_set => pattern.push_str(".*")?,
            '?' if !in_set => pattern.push('.')?,
            '[' if !in_set => {
                in_set = true;
                pattern.push('[')?;
            }
            ']' if in_set => {
                in_set = false;
                pattern.push(']')?;
            }
            '!' if pattern.as_str().ends_with('[') => pattern.push('^')?,
            '-' if in_set => pattern.push('-')?,
            _ => push_literal(&mut pattern, character)?,
        }
    }
    pattern.push('$')?;
    Ok(pattern)
}

/// Appends a character that stands for itself.
fn push_literal(pattern: &mut String, character: char) -> Result<(), AllocError> {
    if matches!(
        character,
        '^' | '$' | '\\' | '.' | '*' | '+' | '?' | '(' | ')' | '[' | ']' | '{' | '}' | '|' | '/'
    ) {
        pattern.push('\\')?;
    }
    pattern.push(character)
}
