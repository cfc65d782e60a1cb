//! The program `esgrep` around `esgrep_lines`: its command line, its files and folders, and how it ends.
//!
//! [`run`] is the whole of it.
#![tactic(auto)]

mod command_line;
mod compiling;
mod files;
mod globs;
mod groups;
mod line_buffer;
mod refusal;
mod running;
mod settings;
mod texts;
mod words;

pub use command_line::command;
pub use running::run;
