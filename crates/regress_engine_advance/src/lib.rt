//! What an instruction that changes nothing but the offset reads beside it, and what leads nowhere.
#![tactic(auto)]

mod advancing;
mod characters;
mod dead;
mod edges;
mod first;
mod leads;
mod literals;
mod reading;
mod references;
mod room;
mod times;

pub use advancing::advance;
pub use characters::{any, any_in_line, ascii_bracket, bracket, this_char};
pub use dead::{is_dead, is_dead_ahead, is_dead_behind};
pub use edges::{ascii_boundary, boundary, holds_at, is_word, word_beside};
pub use first::taken_first;
pub use leads::lead_ahead;
pub use literals::{bytes_beside, other_ahead};
pub use reading::beside;
pub use references::differ_ahead;
pub use room::units_ahead;
pub use times::{after_times, as_far};
