//! The program around the library `regress`: it prints the matches of a pattern in the text that it is given.
//!
//! [`answer`] is the whole program over any source and sink. [`run`] is what it does with a pattern, [`push_line`] makes the line
//! of a match, and [`StdSource`] and [`StdSink`] are std's readers and writers as a source and a sink.
//!
//! ```rust
//! let mut written = Vec::new(alloc);
//! let mut source = StdSource::new(b"ab".as_slice());
//! let mut sink = StdSink::new(&mut written);
//! run(alloc, &mut source, &mut sink, "i", "(A)|b")?; // written: "0..1 0..1\n1..2 -\n"
//! ```
#![tactic(auto)]

mod ending;
mod error;
mod lines;
mod program;
mod sink;
mod source;
mod words;

pub use ending::Ending;
pub use error::ToolError;
pub use lines::push_line;
pub use program::{answer, run};
pub use sink::{Sink, StdSink};
pub use source::{Failed, Source, StdSource};
pub use words::{Request, read_words};
