//! What each visit of a walk is told.

/// Where a walk stands, as a node is visited.
#[derive(Debug, Drop)]
pub struct Walk {
    /// Set by a visit in preorder: the nodes below are passed over. It is clear at the start of each visit.
    pub skip_children: bool,
    /// How many nodes stand above, as far as a `usize` counts.
    pub depth: usize,
    /// Whether the nearest lookaround above is a lookbehind.
    pub in_lookbehind: bool,
    /// Whether the pattern is read in Unicode mode.
    pub unicode: bool,
}
