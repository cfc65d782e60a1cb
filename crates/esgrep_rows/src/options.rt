//! What is put out, and how.
ghost use Rattle.std.specs.Prelude.{◌≡◌};

use crate::ending::Ending;

/// What is put out for a text.
#[derive(Clone, Copy, Debug, PartialEq, Eq)]
pub enum Mode {
    /// The lines that are selected.
    Lines,
    /// Each match of these lines.
    Matches,
    /// How many lines are selected.
    Count,
    /// The name of the text, where a line is selected.
    WithMatch,
    /// The name of the text, where none is.
    WithoutMatch,
    /// Nothing.
    Quiet,
}

impl Mode {
    ghost use Rattle.esgrep_rows.specs.Views.{puts_matches};

    /// Whether matches are put out, not lines.
    ///
    /// ```rust
    /// let by_match = Mode::Matches.puts_matches(); // true
    /// ```
    pub fn puts_matches(self) -> bool
        ensures { result ≡ puts_matches self }
    {
        matches!(self, Mode::Matches)
    }
}

/// What is put out for a text, and how.
#[derive(Clone, Copy, Debug, PartialEq, Eq)]
pub struct Options {
    /// What is put out.
    pub mode: Mode,
    /// How lines end.
    pub ending: Ending,
    /// Whether the lines without a match are selected.
    pub invert: bool,
    /// How many lines are selected at most.
    pub most: usize,
    /// Whether a selected line is put out with what is shown in the place of each match.
    pub rewrites: bool,
    /// How many lines are put out before a selected one.
    pub before: usize,
    /// How many lines are put out behind a selected one.
    pub after: usize,
    /// Whether `--` stands between groups of lines.
    pub parts_groups: bool,
    /// Whether the name of the text stands in front of a row.
    pub names: bool,
    /// Whether a NUL stands behind a name, in the place of a mark or of a newline.
    pub nul_behind_names: bool,
    /// Whether the number of the line stands in front of a row, from 1.
    pub numbers: bool,
    /// Whether the offset of the line, or of the match, stands in front of a row, in bytes.
    pub offsets: bool,
    /// Whether names, numbers and marks are put out in colours.
    pub colored: bool,
}
