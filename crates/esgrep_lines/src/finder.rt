//! What a search of a line finds.
ghost use Rattle.std.specs.Prelude.{◌≡◌, ◌≢◌, ◌≤◌, ◌↔◌, ℕ, [], List, Option, length, map, IsTrue, IfOk, IfSome, IsErrOf, OnOk};
ghost use Rattle.esgrep_rows.specs.Lines.{EndsBefore};
ghost use Rattle.esgrep_rows.specs.Found.{Find, found_of, LieInOrder};

use regress_front_core::Error;
use regress_match::Match;
use std::alloc::{AllocError, AllocFailed};
use std::{error, fmt};

/// Why a search of a text ends early.
#[derive(Clone, Copy, Debug, PartialEq, Eq)]
pub enum FindError {
    /// A request for memory was refused.
    OutOfMemory,
    /// The search was given up, since it would take more steps than it may.
    GivenUp,
}

impl fmt::Display for FindError {
    fn fmt<W: fmt::Write>(&self, f: &mut fmt::Formatter<W>) -> fmt::Result {
        match self {
            FindError::OutOfMemory => f.write_str("out of memory"),
            FindError::GivenUp => f.write_str("the search was given up"),
        }
    }
}

impl error::Error for FindError {}

impl From<Error> for FindError {
    ghost use Rattle.esgrep_lines.specs.declared.finder.FindError.TheVariants.{OutOfMemory};

    ghost from_gives = { λ _ e. e ≡ OutOfMemory };

    fn from(_refused: Error) -> FindError {
        FindError::OutOfMemory
    }
}

impl From<AllocError> for FindError {
    ghost use Rattle.esgrep_lines.specs.declared.finder.FindError.TheVariants.{OutOfMemory};

    ghost from_gives = { λ _ e. e ≡ OutOfMemory };

    fn from(_refused: AllocError) -> FindError {
        FindError::OutOfMemory
    }
}

impl<T: Drop> From<AllocFailed<T>> for FindError {
    ghost use Rattle.esgrep_lines.specs.declared.finder.FindError.TheVariants.{OutOfMemory};

    ghost from_gives = { λ _ e. e ≡ OutOfMemory };

    fn from(_refused: AllocFailed<T>) -> FindError {
        FindError::OutOfMemory
    }
}

/// What is searched for in each line.
pub trait Finder {
    // What it finds in each text at an offset, with what is shown of a match: its text, or what a replacement text gives.
    ghost finds: { Self → Option (List ℕ) → Find → Type 0 };

    // In which texts a search may be given up.
    ghost gives_up: { Self → List ℕ → Type 0 };

    /// Whether there is a match in a text that stands at `start` of the whole one. Errs where memory is refused, and where the
    /// search is given up.
    ///
    /// ```rust
    /// let is_there = finder.is_match(0, "a line")?;
    /// ```
    fn is_match(&self, start: usize, text: &str) -> Result<bool, FindError>
        ensures found { (template : Option (List ℕ)) → (find : Find) → finds self.now template find →
            IfOk result (λ found. IsTrue found ↔ (find start text.now ≢ [])) }
        ensures given { IsErrOf result FindError.GivenUp → gives_up self.now text.now };

    /// Puts all matches in a text that stands at `start` of the whole one into `founds`, in the place of what was there. Their
    /// ranges are told in bytes of `text`. Errs as `is_match` does.
    ///
    /// ```rust
    /// finder.find_into(0, "a line", &mut founds)?;
    /// ```
    fn find_into(&self, start: usize, text: &str, founds: &mut Vec<Match>) -> Result<(), FindError>
        ensures found { (template : Option (List ℕ)) → (find : Find) → finds self.now template find →
            OnOk result (map (found_of template text.now) founds.new.items ≡ find start text.now) }
        ensures order { OnOk result (LieInOrder text.now 0 founds.new.items) }
        ensures given { IsErrOf result FindError.GivenUp → gives_up self.now text.now };

    /// An offset of a text in front of which no match lies: in a part of the text that ends there or before nothing is found. Offset 0
    /// says nothing, and `None` that nothing is found in any part.
    ///
    /// ```rust
    /// let at = finder.candidate("to the harbour"); // for `har\w+` at most `Some(7)`, for `x` at most `None`
    /// ```
    fn candidate(&self, text: &str) -> Option<usize>
        ensures inside { IfSome result (λ at. at ≤ length text.now) }
        ensures passed { (template : Option (List ℕ)) → (find : Find) → finds self.now template find → (start : ℕ) → (part : List ℕ) →
            EndsBefore text.now result part → find start part ≡ [] };
}
