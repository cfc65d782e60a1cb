//! Whether a file is text.

use crate::settings::NoText;
use esgrep_rows::{Ending, lines_before};
use memchr::memchr;
use simdutf8::compat::from_utf8;
use std::alloc::{AllocError, Global};

/// How many bytes at its front decide whether a file is binary.
pub(crate) const DECIDING: usize = 32768;

/// What a file holds, or a piece of it.
#[derive(Debug, Drop)]
pub(crate) enum Content<'b> {
    /// Text in UTF-8.
    Text(&'b str),
    /// What is searched as text though it is none, with U+FFFD for what is no character.
    Lossy(String),
    /// A binary file, with U+FFFD for what is no character.
    Binary(String),
    /// What is passed over.
    Skipped,
    /// No text: the byte at this offset is the first wrong one, in front of whose line these lines stand.
    NotUtf8(&'b str, usize),
}

/// Whether there is a NUL in a file's first bytes, unless lines end by it.
pub(crate) fn is_binary(bytes: &[u8], ending: Ending) -> bool {
    let front = &bytes[..bytes.len().min(DECIDING)];
    ending != Ending::Nul && memchr(0, front).is_some()
}

/// The lines in front of the one that holds the first wrong byte.
fn lines_in_front(bytes: &[u8], wrong: usize, ending: Ending) -> &str {
    let front = bytes.get(..wrong).unwrap_or(&[]);
    match from_utf8(front) {
        Ok(text) => lines_before(text, Some(text.len()), ending).0,
        Err(_) => "",
    }
}

/// What a piece of a file that is not binary holds.
pub(crate) fn text_of<'b>(
    alloc: Global,
    bytes: &'b [u8],
    ending: Ending,
    no_text: NoText,
) -> Result<Content<'b>, AllocError> {
    match from_utf8(bytes) {
        Ok(text) => Ok(Content::Text(text)),
        Err(_) if no_text == NoText::Searched => {
            Ok(Content::Lossy(String::from_utf8_lossy(alloc, bytes)?))
        }
        Err(error) => {
            let wrong = error.valid_up_to();
            Ok(Content::NotUtf8(lines_in_front(bytes, wrong, ending), wrong))
        }
    }
}

/// What a file of these bytes holds.
pub(crate) fn content_of<'b>(
    alloc: Global,
    bytes: &'b [u8],
    ending: Ending,
    no_text: NoText,
) -> Result<Content<'b>, AllocError> {
    if no_text == NoText::Searched || !is_binary(bytes, ending) {
        return text_of(alloc, bytes, ending, no_text);
    }
    if no_text == NoText::Skipped {
        Ok(Content::Skipped)
    } else {
        Ok(Content::Binary(String::from_utf8_lossy(alloc, bytes)?))
    }
}
