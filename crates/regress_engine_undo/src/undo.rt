//! What an executor undoes, and where it goes on.
ghost use Rattle.std.specs.Prelude.{◌≡◌, true, nat_lt};
ghost use Rattle.regress_engine_input.specs.Views.{direction_of};
ghost use Rattle.regress_engine_runs.specs.Runs.{gap};
ghost use Rattle.regress_engine_runs.specs.UndoStack.{IsPast};

use regress_engine_search::Submatch;
use regress_front_core::{CaptureGroupID, GroupData, LoopData};

/// Where a program stands: at an instruction, at an offset of the text, reading forward or backward.
#[derive(Debug, Clone, Copy)]
pub struct Spot {
    /// The address of the next instruction.
    pub at: usize,
    /// The offset in the text.
    pub offset: usize,
    /// Whether the text is read forward.
    pub forward: bool,
}

/// Whether the second offset is ahead of the first, read forward or backward.
///
/// ```rust
/// let moved = is_ahead(spot.forward, 3, spot.offset);
/// ```
#[inline]
pub fn is_ahead(forward: bool, near: usize, far: usize) -> bool
    ensures gap { result ≡ nat_lt 0 (gap (direction_of forward) near far) }
    ensures past { result ≡ true → IsPast (direction_of forward) near far }
{
    if forward { near < far } else { far < near }
}

/// A lookaround or an atomic group whose contents are tried.
#[derive(Debug, Clone, Copy)]
pub struct Frame {
    /// Which it is.
    pub kind: Submatch,
    /// The first group inside.
    pub first: CaptureGroupID,
    /// The first group behind.
    pub last: CaptureGroupID,
    /// Where it goes on.
    pub continuation: usize,
    /// Where it stands, and at which offset and in which direction it was come to.
    pub spot: Spot,
}

/// What is done where nothing is left to be tried.
#[derive(Debug, Clone, Copy)]
pub enum Undo {
    /// The loop is as it was.
    OldLoop {
        /// The loop.
        id: usize,
        /// What it was.
        data: LoopData<usize>,
    },
    /// The group is as it was.
    OldGroup {
        /// The group.
        group: usize,
        /// What it was.
        data: GroupData<usize>,
    },
    /// It goes on at an address and an offset.
    Resume {
        /// The address.
        at: usize,
        /// The offset.
        offset: usize,
    },
    /// One more iteration begins, of the repetition that begins at an address.
    Iterate {
        /// The loop.
        id: usize,
        /// The address.
        begin: usize,
        /// The offset at which it begins.
        offset: usize,
    },
    /// It goes on at an address, at the offsets from a far one back to a near one.
    GiveBack {
        /// The address.
        at: usize,
        /// The near offset, the last to be tried.
        near: usize,
        /// The far offset, the first to be tried.
        far: usize,
    },
    /// It goes on at an address, at an offset and behind each further iteration of the instruction before, at most so many.
    TakeOn {
        /// The address.
        at: usize,
        /// The offset.
        offset: usize,
        /// How many iterations may follow.
        left: usize,
    },
    /// There is no other path through the contents of a lookaround or an atomic group.
    Submatch(Frame),
    /// There is no other way on from an address and an offset: all have been tried.
    // No step pushes it yet: what failed is to be remembered where it is popped.
    Tried {
        /// The address.
        at: usize,
        /// The offset.
        offset: usize,
    },
}
