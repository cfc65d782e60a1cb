//! Words of the command line that `clap` does not know.

use std::alloc::{AllocError, Global};

/// The letters of the options that take a value, and their names.
const LETTERS: &[u8] = b"efmABC";

const NAMES: [&str; 12] = [
    "--regexp",
    "--file",
    "--flags",
    "--regex-size-limit",
    "--max-steps",
    "--max-count",
    "--replace",
    "--after-context",
    "--before-context",
    "--context",
    "--include",
    "--exclude",
];

/// The words of a command line, of which the first names the program, with `-C3` in the place of `-3`.
///
/// What an option takes as its value stays as it is, and so does all behind `--`.
pub(crate) fn read_contexts(alloc: Global, words: Vec<String>) -> Result<Vec<String>, AllocError> {
    let mut read = Vec::new(alloc);
    let mut is_taken = true;
    let mut is_over = false;
    for word in words {
        let text = word.as_str();
        let takes = !is_taken && takes_value(text);
        is_over = is_over || (!is_taken && text == "--");
        let context = if is_taken || is_over {
            None
        } else {
            context(text)
        };
        is_taken = takes;
        match context {
            Some(number) => read.push(format!(in alloc; "-C{number}")?)?,
            None => read.push(word)?,
        }
    }
    Ok(read)
}

/// Whether the word behind this one is its value.
fn takes_value(word: &str) -> bool {
    if word.starts_with("--") {
        return NAMES.contains(&word);
    }
    let letters = word.strip_prefix('-').unwrap_or("").as_bytes();
    let first = letters.iter().position(|letter| LETTERS.contains(letter));
    first.is_some() && first == letters.len().checked_sub(1)
}

/// The number of a word like `-3`.
fn context(word: &str) -> Option<&str> {
    let number = word.strip_prefix('-')?;
    let is_number = !number.is_empty() && number.bytes().all(|byte| byte.is_ascii_digit());
    is_number.then_some(number)
}
