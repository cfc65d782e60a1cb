//! Lines of a text, which of them are selected, and the rows that are put out for them: the part of `esgrep` that needs no search.
//!
//! The definitions: what a line is (`specs/Lines`), what is found in one and shown of it (`Found`), and which lines are selected
//! and what is put out for each (`Rows`).
#![tactic(auto)]

mod ending;
mod line;
mod options;
mod progress;
mod rows;
mod shown;

pub use ending::Ending;
pub use line::{Line, body_of, count_lines, first_line, lines_before};
pub use options::{Mode, Options};
pub use progress::Progress;
pub use rows::Rows;
pub use shown::Shown;
