//! How the program ends, and the whole of it.
ghost use Rattle.std.specs.Prelude.{◌≡◌, Some};

use crate::error::ToolError;
use std::fmt;

/// How the program ends.
#[derive(Debug, Drop, PartialEq, Eq)]
pub enum Ending {
    /// The lines of all matches were written.
    Done,
    /// There are not exactly two words, or they can't be read.
    WrongWords,
    /// The program ends without its whole output.
    Failed(ToolError),
}

impl Ending {
    ghost use Rattle.regress_program.specs.Endings.{exit_status};

    /// The exit status of the program: 0 where all went well, 2 for wrong words, and else the error's.
    ///
    /// ```rust
    /// let status = Ending::WrongWords.status(); // 2
    /// ```
    pub fn status(&self) -> u8
        ensures { result ≡ exit_status self.now }
    {
        match self {
            Ending::Done => 0,
            Ending::WrongWords => 2,
            Ending::Failed(error) => error.status(),
        }
    }
}

/// What is written to standard error, with its newline: nothing where all went well.
impl fmt::Display for Ending {
    ghost use Rattle.regress_program.specs.Endings.{told_text};

    ghost output = { λ e. Some (told_text e) };

    fn fmt<W: fmt::Write>(&self, f: &mut fmt::Formatter<W>) -> fmt::Result {
        match self {
            Ending::Done => Ok(()),
            Ending::WrongWords => f.write_str("usage: regress_tool FLAGS PATTERN\n"),
            Ending::Failed(error) => write!(f, "{error}\n"),
        }
    }
}

/// How the program ends behind what `run` answers.
impl From<Result<(), ToolError>> for Ending {
    ghost use Rattle.regress_program.specs.Endings.{ending_of};

    ghost from_gives = { λ outcome ending. ending ≡ ending_of outcome };

    fn from(outcome: Result<(), ToolError>) -> Ending {
        match outcome {
            Ok(()) => Ending::Done,
            Err(error) => Ending::Failed(error),
        }
    }
}
