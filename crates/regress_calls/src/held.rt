//! What a handle can hold.

use crate::search::Search;
use regress::{Regex, Tables};
use std::sync::Arc;

/// What a handle can hold.
#[derive(Drop)]
pub enum Held {
    /// Tables, which share what they know.
    Tables(Tables),
    /// A compiled pattern, for one of its owners.
    Pattern(Arc<Regex>),
    /// A search of a pattern.
    Search(Search),
}
