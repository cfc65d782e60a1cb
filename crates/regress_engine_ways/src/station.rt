//! Where a way along what is told stands.

/// An address, and an offset.
#[derive(Debug, Clone, Copy)]
pub struct Station {
    /// The address.
    pub at: usize,
    /// The offset.
    pub offset: usize,
}
