//! What is asked for: by two words, or by a line.

use crate::points::points_of;
use regress_front::{CodePoint, Flags};
use std::alloc::{AllocError, Global};

/// A pattern, its flags, and which sections are printed of it.
#[derive(Drop)]
pub(crate) struct Request<'a> {
    /// The flags. The letter `n` sets `no_opt`: the tree isn't rewritten.
    pub(crate) flags: Flags,
    /// The pattern.
    pub(crate) points: Vec<CodePoint>,
    /// The names of the sections, parted by spaces; where there are none, all are printed.
    sections: &'a str,
}

impl Request<'_> {
    /// Whether a section is asked for.
    pub(crate) fn shows(&self, section: &str) -> bool {
        self.sections.is_empty() || self.sections.split(' ').any(|name| name == section)
    }
}

/// The flags that a word sets, with `no_opt` for the letter `n`.
fn flags_of(word: &str) -> Flags {
    let mut flags = Flags::from(word);
    flags.no_opt = word.contains('n');
    flags
}

/// The request of two words, the pattern as it stands.
pub(crate) fn of_words(
    alloc: Global,
    flags: &str,
    pattern: &str,
) -> Result<Request<'static>, AllocError> {
    Ok(Request {
        flags: flags_of(flags),
        points: pattern.chars().map(CodePoint::from).collect(alloc)?,
        sections: "",
    })
}

/// The request of the fields of a line; `None` where the pattern can't be read.
pub(crate) fn of_fields<'a>(
    alloc: Global,
    flags: &str,
    pattern: &str,
    sections: &'a str,
) -> Result<Option<Request<'a>>, AllocError> {
    let Some(points) = points_of(alloc, pattern)? else {
        return Ok(None);
    };
    Ok(Some(Request {
        flags: flags_of(flags),
        points,
        sections,
    }))
}
