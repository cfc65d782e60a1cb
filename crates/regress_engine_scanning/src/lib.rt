//! Searches of bytes and of 16-bit units that know no pattern.
#![tactic(auto)]

mod ascii_run;
mod byte_pair;
mod byte_set;
mod bytes;
mod landmark;
mod leads;
mod nibble_set;
mod unit;
mod units;
mod word_start;

pub use ascii_run::{run_end, run_end_among};
pub use byte_pair::BytePair;
pub use byte_set::{find_byte_of, find_set};
pub use bytes::{are_ascii, find_one, find_three, find_two, is_beyond_ascii};
pub use landmark::{Landmark, find_near, find_near_units};
pub use leads::find_lead;
pub use nibble_set::NibbleSet;
pub use units::{OrBeyondAscii, UnitSet, find_member, find_sequence};
pub use word_start::WordStart;
