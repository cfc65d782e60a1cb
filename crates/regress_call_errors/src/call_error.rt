//! Why a call is refused.
ghost use Rattle.std.specs.Prelude.{◌≡◌};

use regress::{CompileError, Error, FlagError, SearchError, TableError};
use std::alloc::{AllocError, AllocFailed};
use std::fmt;

/// Why a call is refused: `enum regress_code` of the header, below zero.
#[derive(Clone, Copy, Debug, PartialEq, Eq)]
pub enum CallError {
    /// A request for memory was refused.
    OutOfMemory,
    /// A handle is empty, or holds something of another kind.
    WrongHandle,
    /// A pointer is null.
    Null,
    /// A text is not UTF-8.
    NotUtf8,
    /// A start lies inside of a character.
    BadStart,
    /// The caller's buffer is too short, or no range is asked for.
    NoRoom,
    /// The text is no pattern.
    Syntax,
    /// More than 256 `(` and `[` are open at once.
    TooDeep,
    /// There are more than 65535 capturing groups.
    TooManyGroups,
    /// There are more than 65535 quantifiers.
    TooManyLoops,
    /// The program has more instructions than can be counted.
    TooLarge,
    /// No flag has the letter.
    UnknownFlag,
    /// A flag stands a second time.
    RepeatedFlag,
    /// The flags `u` and `v` are both there.
    BothUnicodeFlags,
    /// The pattern has no group of that number.
    NoGroup,
    /// Unicode's data breaks a law of tables.
    BrokenTables,
    /// Two handles of one call are the same.
    SameHandle,
    /// A program of the pattern may have more instructions than the limit allows.
    PastLimit,
    /// A search for a match would take more steps than it may.
    TooManySteps,
}

impl CallError {
    ghost use Rattle.std.specs.Prelude.{Err, negsuc, pos};
    ghost use Rattle.regress_call_errors.specs.Codes.{number_of};

    /// Its number in the header.
    ///
    /// ```rust
    /// let code = CallError::WrongHandle.code(); // -2
    /// ```
    pub fn code(self) -> i32
        ensures { result ≡ negsuc (number_of self) }
    {
        match self {
            CallError::OutOfMemory => -1,
            CallError::WrongHandle => -2,
            CallError::Null => -3,
            CallError::NotUtf8 => -4,
            CallError::BadStart => -5,
            CallError::NoRoom => -6,
            CallError::Syntax => -7,
            CallError::TooDeep => -8,
            CallError::TooManyGroups => -9,
            CallError::TooManyLoops => -10,
            CallError::TooLarge => -11,
            CallError::UnknownFlag => -12,
            CallError::RepeatedFlag => -13,
            CallError::BothUnicodeFlags => -14,
            CallError::NoGroup => -15,
            CallError::BrokenTables => -16,
            CallError::SameHandle => -17,
            CallError::PastLimit => -18,
            CallError::TooManySteps => -19,
        }
    }

    /// Its text, in ASCII.
    ///
    /// ```rust
    /// let text = CallError::WrongHandle.text(); // "wrong handle"
    /// ```
    pub fn text(self) -> &'static str {
        match self {
            CallError::OutOfMemory => "out of memory",
            CallError::WrongHandle => "wrong handle",
            CallError::Null => "null pointer",
            CallError::NotUtf8 => "text is not UTF-8",
            CallError::BadStart => "start is inside of a character",
            CallError::NoRoom => "not enough room",
            CallError::Syntax => "text is no pattern",
            CallError::TooDeep => "pattern is nested too deeply",
            CallError::TooManyGroups => "too many capture groups",
            CallError::TooManyLoops => "too many quantifiers",
            CallError::TooLarge => "program is too large",
            CallError::UnknownFlag => "unknown flag",
            CallError::RepeatedFlag => "repeated flag",
            CallError::BothUnicodeFlags => "both flags u and v",
            CallError::NoGroup => "no such group",
            CallError::BrokenTables => "broken tables",
            CallError::SameHandle => "the same handle twice",
            CallError::PastLimit => "pattern costs more than its limit",
            CallError::TooManySteps => "too many steps",
        }
    }
}

/// The text of a number of the header, in ASCII; of a number that is no error's, a text that says so.
///
/// ```rust
/// let text = text_of_code(-1); // "out of memory"
/// ```
pub fn text_of_code(code: i32) -> &'static str {
    match code {
        -1 => CallError::OutOfMemory.text(),
        -2 => CallError::WrongHandle.text(),
        -3 => CallError::Null.text(),
        -4 => CallError::NotUtf8.text(),
        -5 => CallError::BadStart.text(),
        -6 => CallError::NoRoom.text(),
        -7 => CallError::Syntax.text(),
        -8 => CallError::TooDeep.text(),
        -9 => CallError::TooManyGroups.text(),
        -10 => CallError::TooManyLoops.text(),
        -11 => CallError::TooLarge.text(),
        -12 => CallError::UnknownFlag.text(),
        -13 => CallError::RepeatedFlag.text(),
        -14 => CallError::BothUnicodeFlags.text(),
        -15 => CallError::NoGroup.text(),
        -16 => CallError::BrokenTables.text(),
        -17 => CallError::SameHandle.text(),
        -18 => CallError::PastLimit.text(),
        -19 => CallError::TooManySteps.text(),
        _ => "no error",
    }
}

impl fmt::Display for CallError {
    fn fmt<W: fmt::Write>(&self, f: &mut fmt::Formatter<W>) -> fmt::Result {
        f.write_str(self.text())
    }
}

impl From<Error> for CallError {
    ghost use Rattle.regress_call_errors.specs.Codes.{of_error};

    ghost from_gives = { λ refused e. e ≡ of_error refused };

    fn from(refused: Error) -> CallError {
        match refused {
            Error::Syntax { .. } => CallError::Syntax,
            Error::TooDeep => CallError::TooDeep,
            Error::TooManyGroups => CallError::TooManyGroups,
            Error::TooManyLoops => CallError::TooManyLoops,
            Error::TooLarge => CallError::TooLarge,
            Error::OutOfMemory => CallError::OutOfMemory,
        }
    }
}

impl From<FlagError> for CallError {
    ghost use Rattle.regress_call_errors.specs.Codes.{of_flag_error};

    ghost from_gives = { λ refused e. e ≡ of_flag_error refused };

    fn from(refused: FlagError) -> CallError {
        match refused {
            FlagError::Unknown { .. } => CallError::UnknownFlag,
            FlagError::Repeated { .. } => CallError::RepeatedFlag,
            FlagError::BothUnicodeModes => CallError::BothUnicodeFlags,
        }
    }
}

impl From<TableError> for CallError {
    ghost use Rattle.regress_call_errors.specs.Codes.{of_table_error};

    ghost from_gives = { λ refused e. e ≡ of_table_error refused };

    fn from(refused: TableError) -> CallError {
        match refused {
            TableError::Broken { .. } => CallError::BrokenTables,
            TableError::OutOfMemory => CallError::OutOfMemory,
        }
    }
}

impl From<CompileError> for CallError {
    ghost use Rattle.regress_call_errors.specs.Codes.{of_compile_error};

    ghost from_gives = { λ refused e. e ≡ of_compile_error refused };

    fn from(refused: CompileError) -> CallError {
        match refused {
            CompileError::Pattern(refused) => CallError::from(refused),
            CompileError::Flags(refused) => CallError::from(refused),
            CompileError::Table(refused) => CallError::from(refused),
            CompileError::PastLimit => CallError::PastLimit,
        }
    }
}

impl From<SearchError> for CallError {
    ghost use Rattle.regress_call_errors.specs.Codes.{of_search_error};

    ghost from_gives = { λ refused e. e ≡ of_search_error refused };

    fn from(refused: SearchError) -> CallError {
        match refused {
            SearchError::OutOfMemory => CallError::OutOfMemory,
            SearchError::TooManySteps => CallError::TooManySteps,
        }
    }
}

impl From<AllocError> for CallError {
    ghost use Rattle.regress_call_errors.specs.declared.call_error.CallError.TheVariants.{OutOfMemory};

    ghost from_gives = { λ _ e. e ≡ OutOfMemory };

    fn from(_refused: AllocError) -> CallError {
        CallError::OutOfMemory
    }
}

impl<T: Drop> From<AllocFailed<T>> for CallError {
    ghost use Rattle.regress_call_errors.specs.declared.call_error.CallError.TheVariants.{OutOfMemory};

    ghost from_gives = { λ _ e. e ≡ OutOfMemory };

    fn from(_refused: AllocFailed<T>) -> CallError {
        CallError::OutOfMemory
    }
}
