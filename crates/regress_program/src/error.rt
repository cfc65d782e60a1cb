//! Why the program ends without its whole output.
ghost use Rattle.std.specs.Prelude.{◌≡◌, Some};

use regress::Error;
use std::alloc::AllocError;
use std::{error, fmt};

/// Why the program ends without its whole output.
#[derive(Clone, Debug, Drop, PartialEq, Eq, Hash)]
pub enum ToolError {
    /// The input is not UTF-8.
    NotUtf8,
    /// Reading the input failed.
    Read,
    /// Writing the output failed.
    Write,
    /// A request for memory was refused.
    OutOfMemory,
    /// The text is no pattern, or passes a limit: the library's error.
    Pattern(Error),
}

impl ToolError {
    ghost use Rattle.regress_program.specs.Errors.{status_of};

    /// The exit status of the program: 2 for an error of the pattern, and else 1.
    ///
    /// ```rust
    /// let status = ToolError::Read.status(); // 1
    /// ```
    pub fn status(&self) -> u8
        ensures { result ≡ status_of self.now }
    {
        match self {
            ToolError::Pattern(_) => 2,
            _ => 1,
        }
    }
}

/// The message on standard error, without a newline.
impl fmt::Display for ToolError {
    ghost use Rattle.regress_program.specs.Errors.{message_of};

    ghost output = { λ e. Some (message_of e) };

    fn fmt<W: fmt::Write>(&self, f: &mut fmt::Formatter<W>) -> fmt::Result {
        match self {
            ToolError::NotUtf8 => f.write_str("input is not UTF-8"),
            ToolError::Read => f.write_str("read failed"),
            ToolError::Write => f.write_str("write failed"),
            ToolError::OutOfMemory => f.write_str("out of memory"),
            ToolError::Pattern(error) => write!(f, "{error}"),
        }
    }
}

impl error::Error for ToolError {}

/// An error of the library: `OutOfMemory` stays itself, and all else is `Pattern`.
impl From<Error> for ToolError {
    ghost use Rattle.regress_program.specs.Errors.{tool_error_of};

    ghost from_gives = { λ error e. e ≡ tool_error_of error };

    fn from(error: Error) -> ToolError {
        match error {
            Error::OutOfMemory => ToolError::OutOfMemory,
            _ => ToolError::Pattern(error),
        }
    }
}

impl From<AllocError> for ToolError {
    ghost use Rattle.regress_program.specs.declared.error.ToolError.TheVariants.{OutOfMemory};

    ghost from_gives = { λ _ e. e ≡ OutOfMemory };

    fn from(_refused: AllocError) -> ToolError {
        ToolError::OutOfMemory
    }
}
