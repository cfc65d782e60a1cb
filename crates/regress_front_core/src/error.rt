//! Why a call is refused.
ghost use Rattle.std.specs.Prelude.{◌≡◌, Some};

use std::alloc::{AllocError, AllocFailed};
use std::{error, fmt};

/// Why a pattern is refused, or a search ends early.
#[derive(Clone, Debug, Drop, PartialEq, Eq, Hash)]
pub enum Error {
    /// The text is no pattern.
    Syntax {
        /// What is wrong with it.
        text: &'static str,
    },
    /// More than 256 `(` and `[` are open at once.
    TooDeep,
    /// There are more than 65535 capturing groups.
    TooManyGroups,
    /// There are more than 65535 quantifiers.
    TooManyLoops,
    /// The program has more instructions than can be counted.
    TooLarge,
    /// A request for memory was refused.
    OutOfMemory,
}

/// The text of a syntax error, and else a few words that name the limit, or `out of memory`.
impl fmt::Display for Error {
    ghost use Rattle.regress_front_core.specs.ErrorTexts.{error_text};

    ghost output = { λ e. Some (error_text e) };

    fn fmt<W: fmt::Write>(&self, f: &mut fmt::Formatter<W>) -> fmt::Result {
        f.write_str(match self {
            Error::Syntax { text } => text,
            Error::TooDeep => "pattern is nested too deeply",
            Error::TooManyGroups => "too many capture groups",
            Error::TooManyLoops => "too many quantifiers",
            Error::TooLarge => "program is too large",
            Error::OutOfMemory => "out of memory",
        })
    }
}

impl error::Error for Error {}

impl From<AllocError> for Error {
    ghost use Rattle.regress_front_core.specs.declared.error.Error.TheVariants.{OutOfMemory};

    ghost from_gives = { λ _ e. e ≡ OutOfMemory };

    fn from(_refused: AllocError) -> Error {
        Error::OutOfMemory
    }
}

impl<T: Drop> From<AllocFailed<T>> for Error {
    ghost use Rattle.regress_front_core.specs.declared.error.Error.TheVariants.{OutOfMemory};

    ghost from_gives = { λ _ e. e ≡ OutOfMemory };

    fn from(_refused: AllocFailed<T>) -> Error {
        Error::OutOfMemory
    }
}
