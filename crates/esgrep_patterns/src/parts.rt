//! Matches of patterns that cross lines.
ghost use Rattle.std.specs.Prelude.{ℕ, List, Option, IfOk, IsErrOf};
ghost use Rattle.esgrep_lines.specs.Parts.{found_parts};
ghost use Rattle.esgrep_lines.specs.Finding.{FindsParts};
ghost use Rattle.esgrep_patterns.specs.Seeking.{Sought, regexes_of, items_of_all, SeekAll, GivesUp};

use crate::patterns::Patterns;
use esgrep_lines::{FindError, Finder, Parts};
use esgrep_rows::Ending;
use std::alloc::Global;

/// The matches of patterns in a text of many lines, which end as `ending` says, as what is found in these: of each match the
/// parts that lie in them. Errs where memory is refused, and where the search of the text is given up.
///
/// ```rust
/// let parts = parts_of(alloc, &patterns, "one\ntwo\n", Ending::Newline)?;
/// ```
pub fn parts_of<'t>(
    alloc: Global,
    patterns: &Patterns<'_>,
    text: &'t str,
    ending: Ending,
) -> Result<Parts<'t>, FindError>
    ensures found { (ss : List Sought) → SeekAll (regexes_of patterns.now) ss → (template : Option (List ℕ)) →
        IfOk result (λ parts. FindsParts parts template (found_parts ending text.now (items_of_all ss text.now) template)) }
    ensures given { IsErrOf result FindError.GivenUp → GivesUp patterns.now text.now }
{
    let mut founds = Vec::new(alloc);
    patterns.find_into(0, text, &mut founds)?;
    Ok(Parts::new(alloc, founds, text, ending))
}
