//! Why a piece of work gives no answer.

use regress::{Error, SearchError, TableError};
use std::alloc::{AllocError, AllocFailed};

/// Why a piece of work gives no answer.
#[derive(Clone, Copy, Debug, Drop, PartialEq, Eq)]
pub(crate) enum Refusal {
    /// A request for memory was refused.
    Memory,
    /// Anything else, which no piece of work should come to.
    Other,
}

impl From<AllocError> for Refusal {
    fn from(_refused: AllocError) -> Refusal {
        Refusal::Memory
    }
}

impl<T: Drop> From<AllocFailed<T>> for Refusal {
    fn from(_refused: AllocFailed<T>) -> Refusal {
        Refusal::Memory
    }
}

impl From<Error> for Refusal {
    fn from(error: Error) -> Refusal {
        match error {
            Error::OutOfMemory => Refusal::Memory,
            _ => Refusal::Other,
        }
    }
}

impl From<SearchError> for Refusal {
    fn from(error: SearchError) -> Refusal {
        match error {
            SearchError::OutOfMemory => Refusal::Memory,
            SearchError::TooManySteps => Refusal::Other,
        }
    }
}

impl From<TableError> for Refusal {
    fn from(error: TableError) -> Refusal {
        match error {
            TableError::OutOfMemory => Refusal::Memory,
            _ => Refusal::Other,
        }
    }
}
