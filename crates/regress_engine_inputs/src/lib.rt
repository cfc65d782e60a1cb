//! The four inputs: texts of UTF-8, of ASCII and of 16-bit units, with and without pairs.
#![tactic(auto)]

mod ascii_input;
mod bytes;
mod position;
mod ucs2_input;
mod units;
mod utf16_input;
mod utf8_input;

pub use ascii_input::AsciiInput;
pub use position::{DefPosition, IndexPosition};
pub use ucs2_input::Ucs2Input;
pub use units::{is_unit_start, is_well_formed_utf16};
pub use utf8_input::Utf8Input;
pub use utf16_input::Utf16Input;
