//! Runs of characters: how far a test on one character passes, again and again.
#![tactic(auto)]

mod ahead;
mod ascii;
mod before;
mod class;
mod far;
mod runs;
mod sparing;
mod stopped;
mod stops;
mod taken;
mod taking;
mod unit_stops;

pub use ahead::as_far_ahead;
pub use before::taken_before;
pub use class::{ScannedBracket, ToldBracket};
pub use far::scan_while;
pub use sparing::{is_possessive, turn_at};
pub use stopped::is_stopped;
pub use taken::{Taken, taken_ahead};
pub use taking::{first_alone, first_byte, is_assertion, takes_one, takes_some};
