//! What is run by itself: a lookaround, or an atomic group.
ghost use Rattle.std.specs.Prelude.{◌≡◌};
ghost use Rattle.regress_engine_search.specs.Submatches.{submatch_of, is_negated, end_offset, reads_forward};

/// A part of a program that is run by itself: only its first answer counts.
#[derive(Debug, Clone, Copy)]
pub enum Submatch {
    /// A lookaround, which goes on where it stands.
    Lookaround {
        /// Whether it holds where its contents don't.
        negated: bool,
        /// Whether its contents are read backward.
        backward: bool,
    },
    /// An atomic group, which goes on where its contents end.
    Atomic,
}

impl Submatch {
    /// Whether it holds where its contents don't.
    #[inline]
    pub fn is_negated(&self) -> bool
        ensures { result ≡ is_negated (submatch_of self.now) }
    {
        match self {
            Submatch::Lookaround { negated, .. } => *negated,
            Submatch::Atomic => false,
        }
    }

    /// Where it goes on, by the offset at which it stands and that at which its contents end.
    #[inline]
    pub fn end_offset(&self, outside: usize, inside: usize) -> usize
        ensures { result ≡ end_offset (submatch_of self.now) outside inside }
    {
        match self {
            Submatch::Lookaround { .. } => outside,
            Submatch::Atomic => inside,
        }
    }

    /// Whether its contents are read forward, by whether what is outside is.
    #[inline]
    pub fn reads_forward(&self, forward: bool) -> bool
        ensures { result ≡ reads_forward (submatch_of self.now) forward }
    {
        match self {
            Submatch::Lookaround { backward, .. } => !*backward,
            Submatch::Atomic => forward,
        }
    }
}
