//! The lines that are written.
ghost use Rattle.std.specs.Prelude.{◌≡◌, ◌++◌, OnOk, string_bytes, option_map};
ghost use Rattle.regress_meaning.specs.Output.{line_of, group_text, range_text};
ghost use Rattle.regress_match.specs.Views.{ends, item_of};

use regress::{Match, Range};
use std::alloc::AllocError;

/// Appends the line of a match with its newline: the range of the match, and for each group in order of its number a space and
/// its range or `-`. Ranges are in bytes. Errs where a request for memory is refused; a beginning of the line may then be there.
///
/// ```rust
/// push_line(&mut text, &found)?; // appends "0..3 0..2 -\n", where the first group of two took 0..2
/// ```
pub fn push_line(text: &mut String, found: &Match) -> Result<(), AllocError>
    ensures { OnOk result (string_bytes text.new ≡ string_bytes text.old ++ line_of (item_of found.now)) }
{
    push_range(text, &found.range)?;
    for group in &found.captures {
        push_group(text, group)?;
    }
    text.push('\n')
}

/// Appends a space, and the range of a group or `-`.
fn push_group(text: &mut String, group: &Option<Range>) -> Result<(), AllocError>
    ensures { OnOk result (string_bytes text.new ≡ string_bytes text.old ++ group_text (option_map ends group.now)) }
{
    match group {
        Some(range) => {
            text.push(' ')?;
            push_range(text, range)
        }
        None => text.push_str(" -"),
    }
}

/// Appends `start..end` in decimal.
fn push_range(text: &mut String, range: &Range) -> Result<(), AllocError>
    ensures { OnOk result (string_bytes text.new ≡ string_bytes text.old ++ range_text (ends range.now)) }
{
    write!(text, "{}..{}", range.start, range.end)
}
