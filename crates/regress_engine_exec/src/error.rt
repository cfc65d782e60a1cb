//! Why a search with a budget ends early.
ghost use Rattle.std.specs.Prelude.{◌≡◌, Some};

use std::alloc::{AllocError, AllocFailed};
use std::{error, fmt};

/// Why a search with a budget ends early.
#[derive(Clone, Copy, Debug, PartialEq, Eq, Hash)]
pub enum SearchError {
    /// A request for memory was refused.
    OutOfMemory,
    /// It would take more steps than it may.
    TooManySteps,
}

/// A few words that name the reason.
impl fmt::Display for SearchError {
    ghost use Rattle.regress_engine_exec.specs.ErrorTexts.{search_error_text};

    ghost output = { λ e. Some (search_error_text e) };

    fn fmt<W: fmt::Write>(&self, f: &mut fmt::Formatter<W>) -> fmt::Result {
        f.write_str(match self {
            SearchError::OutOfMemory => "out of memory",
            SearchError::TooManySteps => "too many steps",
        })
    }
}

impl error::Error for SearchError {}

impl From<AllocError> for SearchError {
    ghost use Rattle.regress_engine_exec.specs.declared.error.SearchError.TheVariants.{OutOfMemory};

    ghost from_gives = { λ _ e. e ≡ OutOfMemory };

    fn from(_refused: AllocError) -> SearchError {
        SearchError::OutOfMemory
    }
}

impl<T: Drop> From<AllocFailed<T>> for SearchError {
    ghost use Rattle.regress_engine_exec.specs.declared.error.SearchError.TheVariants.{OutOfMemory};

    ghost from_gives = { λ _ e. e ≡ OutOfMemory };

    fn from(_refused: AllocFailed<T>) -> SearchError {
        SearchError::OutOfMemory
    }
}
