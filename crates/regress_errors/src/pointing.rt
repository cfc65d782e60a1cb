//! The line of a pattern in which a syntax error stands, with a caret under the place.

use crate::refusing::SyntaxError;
use std::fmt;

/// How many columns of a line are shown at most.
const COLUMNS: usize = 80;

/// How many of them at most stand before the place.
const COLUMNS_BEFORE: usize = 60;

/// A syntax error as compilers show it: what is wrong, the line of the pattern in which that stands, and a caret under the
/// place. From `SyntaxError::display`.
#[derive(Clone, Copy, Debug)]
pub struct SyntaxErrorDisplay<'p> {
    text: &'static str,
    place: usize,
    pattern: &'p str,
}

impl SyntaxError {
    /// The error with the line of the pattern in which it stands and a caret under the place, to be printed. Control characters
    /// are shown as escapes, and at most 80 columns of the line.
    ///
    /// ```rust
    /// if let Some(refused) = syntax_error(alloc, "a(b|c", Flags::default(), &tables)? {
    ///     let shown = refused.display("a(b|c").to_string(alloc)?; // "Unbalanced parenthesis\na(b|c\n     ^"
    /// }
    /// ```
    pub fn display<'p>(&self, pattern: &'p str) -> SyntaxErrorDisplay<'p> {
        SyntaxErrorDisplay {
            text: self.text,
            place: self.place,
            pattern,
        }
    }
}

/// How many columns a character takes: one, or those of its escape where it is a control character.
fn columns(c: char) -> usize {
    if c.is_control() {
        c.escape_default().count()
    } else {
        1
    }
}

impl SyntaxErrorDisplay<'_> {
    /// How many characters stand before the line.
    fn line_start(&self) -> usize {
        let mut start = 0;
        for (index, c) in self.pattern.chars().take(self.place).enumerate() {
            if c == '\n' {
                start = index.saturating_add(1);
            }
        }
        start
    }

    /// How many columns stand between the start of the line and the place.
    fn columns_before(&self, start: usize) -> usize {
        let mut before: usize = 0;
        for c in self.pattern.chars().take(self.place).skip(start) {
            before = before.saturating_add(columns(c));
        }
        before
    }

    /// The first character of the line that is shown, and how many columns stand between it and the place.
    fn shown_from(&self) -> (usize, usize) {
        let mut first = self.line_start();
        let mut before = self.columns_before(first);
        for c in self.pattern.chars().take(self.place).skip(first) {
            if before <= COLUMNS_BEFORE {
                break;
            }
            before = before.saturating_sub(columns(c));
            first = first.saturating_add(1);
        }
        (first, before)
    }

    /// Writes as much of the line as is shown.
    fn write_line<W: fmt::Write>(&self, f: &mut fmt::Formatter<W>, first: usize) -> fmt::Result {
        let mut shown: usize = 0;
        for c in self.pattern.chars().skip(first) {
            shown = shown.saturating_add(columns(c));
            if c == '\n' || shown > COLUMNS {
                break;
            }
            if c.is_control() {
                write!(f, "{}", c.escape_default())?;
            } else {
                f.write_char(c)?;
            }
        }
        Ok(())
    }
}

impl fmt::Display for SyntaxErrorDisplay<'_> {
    fn fmt<W: fmt::Write>(&self, f: &mut fmt::Formatter<W>) -> fmt::Result {
        let (first, before) = self.shown_from();
        f.write_str(self.text)?;
        f.write_char('\n')?;
        self.write_line(f, first)?;
        f.write_char('\n')?;
        for _ in 0..before {
            f.write_char(' ')?;
        }
        f.write_char('^')
    }
}
