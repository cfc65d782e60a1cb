//! What the program's words say.

use regress::Flags;
use std::alloc::{AllocError, Global};
use std::{env, io};

/// A piece of work, what it is done with, and how often memory is asked for.
#[derive(Drop)]
pub(crate) struct Row {
    /// Where the program stands.
    pub(crate) program: String,
    pub(crate) work: String,
    pub(crate) flags: String,
    pub(crate) pattern: String,
    pub(crate) text: String,
    pub(crate) extra: String,
    pub(crate) before: usize,
    pub(crate) after: usize,
}

/// What a word says, and nothing where there is no such word.
fn said(alloc: Global, word: Option<String>) -> String {
    word.unwrap_or(String::new(alloc))
}

/// The 16-bit units of a text.
pub(crate) fn units_of(alloc: Global, text: &str) -> Result<Vec<u16>, AllocError> {
    text.encode_utf16().collect(alloc)
}

/// A number in decimal, and 0 for what is none.
fn number(word: &str) -> usize {
    word.parse::<usize>().unwrap_or(0)
}

impl Row {
    /// The row that the program is given.
    pub(crate) fn read(rt: &HostRuntime) -> io::Result<Row> {
        let alloc = rt.alloc();
        let mut words = env::args(rt)?;
        let program = said(alloc, words.next());
        let work = said(alloc, words.next());
        let flags = said(alloc, words.next());
        let pattern = said(alloc, words.next());
        let text = said(alloc, words.next());
        let extra = said(alloc, words.next());
        let before = said(alloc, words.next());
        let after = said(alloc, words.next());
        Ok(Row {
            program,
            work,
            flags,
            pattern,
            text,
            extra,
            before: number(before.as_str()),
            after: number(after.as_str()),
        })
    }

    /// The flags that its letters set; the letter `n` sets `no_opt`.
    pub(crate) fn flags(&self) -> Flags {
        let mut flags = Flags::from(self.flags.as_str());
        flags.no_opt = self.flags.as_str().contains('n');
        flags
    }

    /// The code points of the pattern.
    pub(crate) fn points(&self, alloc: Global) -> Result<Vec<u32>, AllocError> {
        self.pattern.as_str().chars().map(u32::from).collect(alloc)
    }
}
