//! Why a row is not read.

use std::alloc::{AllocError, AllocFailed};
use std::{error, fmt};

/// Why a line is no row.
#[derive(Clone, Copy, Debug)]
pub enum RowError {
    /// What stands before the colon is no work.
    Work,
    /// There are too few fields or too many.
    Fields,
    /// A backslash begins none of the escapes.
    Escape,
    /// A surrogate stands where only characters may.
    Surrogate,
    /// A start or a limit is no number.
    Number,
    /// What is expected is no list of matches.
    List,
    /// What is expected is no error.
    Refusal,
    /// A request for memory was refused.
    OutOfMemory,
}

impl fmt::Display for RowError {
    fn fmt<W: fmt::Write>(&self, f: &mut fmt::Formatter<W>) -> fmt::Result {
        f.write_str(match self {
            RowError::Work => "unknown work",
            RowError::Fields => "wrong number of fields",
            RowError::Escape => "unknown escape",
            RowError::Surrogate => "surrogate in a text",
            RowError::Number => "no number",
            RowError::List => "no list of matches",
            RowError::Refusal => "unknown error",
            RowError::OutOfMemory => "out of memory",
        })
    }
}

impl error::Error for RowError {}

impl From<AllocError> for RowError {
    fn from(_refused: AllocError) -> RowError {
        RowError::OutOfMemory
    }
}

impl<T: Drop> From<AllocFailed<T>> for RowError {
    fn from(_refused: AllocFailed<T>) -> RowError {
        RowError::OutOfMemory
    }
}
