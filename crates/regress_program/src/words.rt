//! What the words of the command line ask for.
ghost use Rattle.std.specs.Prelude.{◌≡◌, ◌≢◌, ◌↔◌, IfOk, IfErr, IsErrOf};
ghost use Rattle.std.specs.Vec.Iter.{into_iter_items};
ghost use Rattle.std.specs.IoError.{error_kind};
ghost use Rattle.regress_program.specs.Words.{request_of};

use crate::ending::Ending;
use crate::error::ToolError;
use std::env::Args;
use std::io;
use std::io::ErrorKind;

/// What the program is asked to do.
#[derive(Debug, Drop)]
pub struct Request {
    /// The flags, as a word.
    pub flags: String,
    /// The pattern, as it stands.
    pub pattern: String,
}

/// The request in the words of a command line, as `std::env::args` gives them: the program's own name, FLAGS and PATTERN.
///
/// Errs where there are fewer words or more, and where they can't be read, with `WrongWords`; where memory was refused for
/// them, with `Failed(OutOfMemory)`.
///
/// ```rust
/// let request = read_words(env::args(&rt))?; // of `regress_tool i a+b`: flags "i" and pattern "a+b"
/// ```
pub fn read_words(words: io::Result<Args>) -> Result<Request, Ending>
    ensures request { IfOk words (λ ws. result ≡ request_of (into_iter_items ws)) }
    ensures out_of_memory { IfErr words (λ e. IsErrOf result (Ending.Failed ToolError.OutOfMemory) ↔ (error_kind e ≡ ErrorKind.OutOfMemory)) }
    ensures unread { IfErr words (λ e. IsErrOf result Ending.WrongWords ↔ (error_kind e ≢ ErrorKind.OutOfMemory)) }
{
    match words {
        Ok(mut words) => match (words.next(), words.next(), words.next(), words.next()) {
            (Some(_), Some(flags), Some(pattern), None) => Ok(Request { flags, pattern }),
            _ => Err(Ending::WrongWords),
        },
        Err(error) if error.kind() == ErrorKind::OutOfMemory => {
            Err(Ending::Failed(ToolError::OutOfMemory))
        }
        Err(_) => Err(Ending::WrongWords),
    }
}
