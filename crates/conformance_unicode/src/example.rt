//! The lines of the repository's README that match Unicode text, word for word.

use regress::{CompileError, Flags, Regex, Tables};
use std::alloc::Global;

/// What these lines answer.
fn answers(alloc: Global, tables: Tables) -> Result<(String, bool), CompileError> {
    let greek = Regex::with_flags(
        alloc,
        r"\p{Script=Greek}+",
        Flags::parse("u")?.flags,
        &tables,
    )?;
    let marked = greek.replace_all("αβ γ b", "[$0]")?; // `[αβ] [γ] b`
    let street = Regex::with_flags(alloc, "straße", Flags::parse("iu")?.flags, &tables)?;
    let is_street = street.is_match("STRAẞE")?; // true
    Ok((marked, is_street))
}

/// Whether these lines answer what the README tells, under the tables of Unicode.
pub(crate) fn answers_as_told(alloc: Global, tables: Tables) -> bool {
    match answers(alloc, tables) {
        Ok((marked, is_street)) => marked.as_str() == "[αβ] [γ] b" && is_street,
        Err(_) => false,
    }
}
