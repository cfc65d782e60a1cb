//! What stands beside a position in an input: tests on its next character, and what a group took once more.
#![tactic(auto)]

mod bytes;
mod laws;
pub mod matchers;
mod prepared;
mod properties;
mod single;

pub use bytes::{MatchByteArraySet, MatchByteSeq, MatchByteSet};
pub use laws::reads_stay_in_texts;
pub use prepared::PreparedBracket;
pub use properties::{
    ASCIICharProperties, CharInput, CharProperties, UTF8CharProperties, Utf16CharProperties,
};
pub use single::{
    Bracket, Char, CharSet, MatchAny, MatchAnyExceptLineTerminator, SingleCharMatcher,
};
