//! How lines end.
ghost use Rattle.std.specs.Prelude.{◌≡◌, ◌<◌};

/// How the lines of a text end.
#[derive(Clone, Copy, Debug, PartialEq, Eq)]
pub enum Ending {
    /// By `\n`, or by `\r` and `\n`.
    Newline,
    /// By a NUL.
    Nul,
}

impl Ending {
    ghost use Rattle.esgrep_rows.specs.Lines.{byte_of};

    /// The byte that ends a line.
    ///
    /// ```rust
    /// let byte = Ending::Newline.byte(); // `b'\n'`
    /// ```
    pub fn byte(self) -> u8
        ensures value { result ≡ byte_of self }
        ensures ascii { result < 128 }
    {
        match self {
            Ending::Newline => b'\n',
            Ending::Nul => 0,
        }
    }

    /// The same as a character.
    pub(crate) fn character(self) -> char
        ensures value { result ≡ byte_of self }
        ensures ascii { result < 128 }
    {
        match self {
            Ending::Newline => '\n',
            Ending::Nul => '\0',
        }
    }
}
