//! The flags of a script's regular expression, and why a word is none.
ghost use Rattle.std.specs.Prelude.{◌≡◌, ◌++◌, ◌∷◌, [], ℕ, List, OnOk, Some};
ghost use Rattle.std.specs.Result.{result_err};
ghost use Rattle.regress_front_core.specs.FlagWords.{letter_error, script_flags_of};

use crate::flags::Flags;
use std::{error, fmt, mem};

/// What a word of flags sets ("RegExpInitialize"): what holds for the pattern, and what a script does with its matches. All
/// flags are off by default.
#[derive(Clone, Copy, Debug, Default)]
pub struct ScriptFlags {
    /// `i`, `m`, `s`, `u` and `v`: what holds for the pattern.
    pub flags: Flags,
    /// `g`: all matches are meant, and not the first alone.
    pub global: bool,
    /// `y`: a match begins just where the search does.
    pub sticky: bool,
    /// `d`: the ranges of a match are told too.
    pub has_indices: bool,
}

impl ScriptFlags {
    /// Sets the flag of a letter, which comes behind those that set what is set by now.
    pub(crate) fn set(&mut self, letter: char) -> Result<(), FlagError>
        ensures refused { (before : List ℕ) → self.old ≡ script_flags_of before → result_err result ≡ letter_error before letter }
        ensures set { (before : List ℕ) → self.old ≡ script_flags_of before
            → OnOk result (self.new ≡ script_flags_of (before ++ (letter ∷ []))) }
    {
        let was_set = match letter {
            'd' => mem::replace(&mut self.has_indices, true),
            'g' => mem::replace(&mut self.global, true),
            'i' => mem::replace(&mut self.flags.icase, true),
            'm' => mem::replace(&mut self.flags.multiline, true),
            's' => mem::replace(&mut self.flags.dot_all, true),
            'u' => mem::replace(&mut self.flags.unicode, true),
            'v' => mem::replace(&mut self.flags.unicode_sets, true),
            'y' => mem::replace(&mut self.sticky, true),
            _ => return Err(FlagError::Unknown { letter }),
        };
        if was_set {
            return Err(FlagError::Repeated { letter });
        }
        Ok(())
    }
}

/// Why a word is no word of flags ("RegExpInitialize").
#[derive(Clone, Debug, Drop, PartialEq, Eq, Hash)]
pub enum FlagError {
    /// No flag has this letter.
    Unknown {
        /// The letter.
        letter: char,
    },
    /// A flag stands a second time.
    Repeated {
        /// Its letter.
        letter: char,
    },
    /// `u` and `v` are both there.
    BothUnicodeModes,
}

/// What is wrong with the word, with the letter where one is.
impl fmt::Display for FlagError {
    ghost use Rattle.regress_front_core.specs.ErrorTexts.{flag_error_text};

    ghost output = { λ e. Some (flag_error_text e) };

    fn fmt<W: fmt::Write>(&self, f: &mut fmt::Formatter<W>) -> fmt::Result {
        match self {
            FlagError::Unknown { letter } => write!(f, "unknown flag {letter}"),
            FlagError::Repeated { letter } => write!(f, "repeated flag {letter}"),
            FlagError::BothUnicodeModes => write!(f, "both flags u and v"),
        }
    }
}

impl error::Error for FlagError {}
