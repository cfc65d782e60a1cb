//! Why the program can't do what it is asked to.

use std::alloc::{AllocError, AllocFailed};
use std::{fmt, io};

/// Why the program can't do what it is asked to.
#[derive(Debug, Drop)]
pub(crate) enum Refusal {
    /// What is to be told.
    Told(String),
    /// A request for memory was refused.
    OutOfMemory,
    /// Reading or writing failed.
    Failed(io::Error),
}

impl fmt::Display for Refusal {
    fn fmt<W: fmt::Write>(&self, f: &mut fmt::Formatter<W>) -> fmt::Result {
        match self {
            Refusal::Told(message) => f.write_str(message.as_str()),
            Refusal::OutOfMemory => f.write_str("out of memory"),
            Refusal::Failed(error) => write!(f, "{error}"),
        }
    }
}

impl From<AllocError> for Refusal {
    fn from(_refused: AllocError) -> Refusal {
        Refusal::OutOfMemory
    }
}

impl<T: Drop> From<AllocFailed<T>> for Refusal {
    fn from(_refused: AllocFailed<T>) -> Refusal {
        Refusal::OutOfMemory
    }
}

impl From<io::Error> for Refusal {
    fn from(error: io::Error) -> Refusal {
        Refusal::Failed(error)
    }
}

impl From<regress::Error> for Refusal {
    fn from(_refused: regress::Error) -> Refusal {
        Refusal::OutOfMemory
    }
}
