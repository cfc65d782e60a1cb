//! What `esgrep` puts out for one text: the lines with a match of a pattern of ECMAScript, and what is shown of them.
//!
//! [`search`] is the whole of it, over any [`Finder`] and any [`Output`]. The definition that its contract cites says what is put
//! out for a text (`specs/Output`, over `specs/Rows` of `esgrep_rows`).
#![tactic(auto)]

mod finder;
mod laws;
mod output;
mod parts;
mod passing;
mod pieces;
mod searching;

pub use finder::{FindError, Finder};
pub use laws::touched_lines_have_parts;
pub use output::{Output, Unwritten};
pub use parts::Parts;
pub use pieces::goes_by_pieces;
pub use searching::{SearchError, count, put_count, search};
