//! Executors that are made of a program of bytes and a text.
ghost use Rattle.std.specs.Prelude.{Bool, true, false, IsTrue, IfOk, ◌≡◌};
ghost use Rattle.std.specs.Str.{IsAscii};
ghost use Rattle.regress_engine_search.specs.Searching.{Searches};

use regress_engine_code::CompiledRegex;
use regress_match::MatchProducer;
use std::alloc::{AllocError, Global};

/// Which texts of bytes are searched. It stands apart from the executors, which borrow a text, since a constant of a type that
/// borrows cannot be proved.
pub trait TextKind {
    // they are of ASCII alone
    ghost ASCII_ONLY: { Bool };

    /// Whether they are of ASCII alone.
    const ASCII_ONLY: bool;
}

/// Any text of UTF-8.
pub struct AnyText;

/// Texts of ASCII.
pub struct AsciiText;

impl TextKind for AnyText {
    ghost ASCII_ONLY = { false };

    const ASCII_ONLY: bool = false;
}

impl TextKind for AsciiText {
    ghost ASCII_ONLY = { true };

    const ASCII_ONLY: bool = true;
}

/// An executor that is made of a program of bytes and a text. Whichever it is, it finds the matches of the program's tree in
/// that text, told in bytes.
pub trait Executor<'t>: MatchProducer {
    /// The same executor over ASCII.
    type AsAscii;

    /// The texts that it asks for.
    type Text: TextKind;

    /// The executor of a program over a text, with the program's tables and mode.
    ///
    /// Asks that the program is one of bytes, and that the text is ASCII where the executor asks for that. Errs where
    /// memory is refused alone.
    ///
    /// ```rust
    /// fn executor_of<'t, E: Executor<'t>>(alloc: Global, program: &'t CompiledRegex) -> Result<E, AllocError> {
    ///     E::new(alloc, program, "aab")
    /// }
    /// ```
    fn new(alloc: Global, program: &'t CompiledRegex, text: &'t str) -> Result<Self, AllocError>
        requires bytes { program.now.units ≡ false }
        requires ascii { IsTrue Self.Text.ASCII_ONLY → IsAscii text.now }
        ensures { IfOk result (λ e. Searches program.entry.now text.now (Self.is_start (Self.search_of e)) (Self.starts_at (Self.search_of e)) (Self.items_from (Self.search_of e)) (Self.is_of_search (Self.search_of e))) };
}
