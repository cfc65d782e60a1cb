//! One error for a function that makes tables, reads flags, compiles and searches.
ghost use Rattle.std.specs.Prelude.{◌≡◌, Some};

use regress_front::{Error, FlagError, LimitError, TableError};
use std::alloc::{AllocError, AllocFailed};
use std::{error, fmt};

/// What may go wrong on the way to a match. `?` turns the errors of tables, of flags, of patterns and of memory into it, so a
/// function may answer it for all of them.
///
/// ```rust
/// fn has_date(alloc: Global, text: &str) -> Result<bool, CompileError> {
///     let tables = Tables::small(alloc)?;
///     let script = Flags::parse("u")?;
///     let regex = Regex::with_flags(alloc, r"\d{4}-\d\d", script.flags, &tables)?;
///     Ok(regex.is_match(text)?)
/// }
/// ```
#[derive(Clone, Debug, Drop, PartialEq, Eq, Hash)]
pub enum CompileError {
    /// A pattern is refused, or a request for memory was.
    Pattern(Error),
    /// A word is no word of flags.
    Flags(FlagError),
    /// Tables are refused.
    Table(TableError),
    /// A pattern costs more than the limit that was given.
    PastLimit,
}

/// The text of the error that it holds, or that the limit is passed.
impl fmt::Display for CompileError {
    ghost use Rattle.regress_errors.specs.ErrorTexts.{compile_error_text};

    ghost output = { λ e. Some (compile_error_text e) };

    fn fmt<W: fmt::Write>(&self, f: &mut fmt::Formatter<W>) -> fmt::Result {
        match self {
            CompileError::Pattern(refused) => write!(f, "{refused}"),
            CompileError::Flags(refused) => write!(f, "{refused}"),
            CompileError::Table(refused) => write!(f, "{refused}"),
            CompileError::PastLimit => f.write_str("pattern costs more than its limit"),
        }
    }
}

impl error::Error for CompileError {}

impl From<Error> for CompileError {
    ghost use Rattle.regress_errors.specs.declared.errors.CompileError.TheVariants.{Pattern};

    ghost from_gives = { λ refused e. e ≡ Pattern refused };

    fn from(refused: Error) -> CompileError {
        CompileError::Pattern(refused)
    }
}

impl From<LimitError> for CompileError {
    ghost use Rattle.regress_errors.specs.ErrorTexts.{compile_error_of};

    ghost from_gives = { λ refused e. e ≡ compile_error_of refused };

    fn from(refused: LimitError) -> CompileError {
        match refused {
            LimitError::PastLimit => CompileError::PastLimit,
            LimitError::Refused(refused) => CompileError::Pattern(refused),
        }
    }
}

impl From<FlagError> for CompileError {
    ghost use Rattle.regress_errors.specs.declared.errors.CompileError.TheVariants.{Flags};

    ghost from_gives = { λ refused e. e ≡ Flags refused };

    fn from(refused: FlagError) -> CompileError {
        CompileError::Flags(refused)
    }
}

impl From<TableError> for CompileError {
    ghost use Rattle.regress_errors.specs.declared.errors.CompileError.TheVariants.{Table};

    ghost from_gives = { λ refused e. e ≡ Table refused };

    fn from(refused: TableError) -> CompileError {
        CompileError::Table(refused)
    }
}

impl From<AllocError> for CompileError {
    ghost use Rattle.regress_errors.specs.declared.errors.CompileError.TheVariants.{Pattern};
    ghost use Rattle.regress_front_core.specs.declared.error.Error.TheVariants.{OutOfMemory};

    ghost from_gives = { λ _ e. e ≡ Pattern OutOfMemory };

    fn from(_refused: AllocError) -> CompileError {
        CompileError::Pattern(Error::OutOfMemory)
    }
}

impl<T: Drop> From<AllocFailed<T>> for CompileError {
    ghost use Rattle.regress_errors.specs.declared.errors.CompileError.TheVariants.{Pattern};
    ghost use Rattle.regress_front_core.specs.declared.error.Error.TheVariants.{OutOfMemory};

    ghost from_gives = { λ _ e. e ≡ Pattern OutOfMemory };

    fn from(_refused: AllocFailed<T>) -> CompileError {
        CompileError::Pattern(Error::OutOfMemory)
    }
}
