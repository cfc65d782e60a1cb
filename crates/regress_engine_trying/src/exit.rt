//! Exits of one-character loops.

/// An exit of a lazy one-character loop: its offset, how many more iterations may follow, and whether it may lead on, or one
/// behind it may.
///
/// ```rust
/// let exit = Exit { offset: 3, left: 0, may_go: true };
/// ```
#[derive(Debug, Clone, Copy)]
pub struct Exit {
    pub offset: usize,
    pub left: usize,
    pub may_go: bool,
}
