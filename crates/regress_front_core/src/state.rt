//! What a search keeps of loops and capture groups.
ghost use Rattle.std.specs.Prelude.{◌≡◌, ◌↔◌, IfSome, IsSome, is_some};

use std::ops::Range;

/// How far a loop has come.
#[derive(Debug, Clone, Copy)]
pub struct LoopData<P: Copy> {
    /// How many iterations have begun.
    pub iters: usize,
    /// The position at which the last of them began.
    pub entry: P,
}

impl<P: Copy> LoopData<P> {
    /// A loop before its first iteration, entered at a position: `LoopData::new(7)` has 7 as its `entry`.
    pub fn new(entry: P) -> LoopData<P>
        ensures { result ≡ record { iters = 0; entry = entry } }
    {
        LoopData { iters: 0, entry }
    }
}

/// What a capture group has matched: where the match starts and where it ends, each once it is known.
#[derive(Debug, Clone, Copy)]
pub struct GroupData<P: Copy> {
    /// Where it starts.
    pub start: Option<P>,
    /// Where it ends.
    pub end: Option<P>,
}

impl<P: Copy> GroupData<P> {
    /// A group that has matched nothing: `GroupData::<usize>::new().as_range()` is `None`.
    pub fn new() -> GroupData<P>
        ensures { result ≡ record { start = None; end = None } }
    {
        GroupData {
            start: None,
            end: None,
        }
    }

    /// Whether the start is known, as `group.start_matched()` after `group.start = Some(3)`.
    pub fn start_matched(&self) -> bool
        ensures { result ≡ is_some self.now.start }
    {
        self.start.is_some()
    }

    /// Whether the end is known, as `group.end_matched()` after `group.end = Some(5)`.
    pub fn end_matched(&self) -> bool
        ensures { result ≡ is_some self.now.end }
    {
        self.end.is_some()
    }

    /// The range that the group has matched, where both its ends are known: `Some(3..5)` from 3 to 5.
    pub fn as_range(&self) -> Option<Range<P>>
        ensures both { IsSome result ↔ (IsSome self.now.start × IsSome self.now.end) }
        ensures ends { IfSome result (λ range. (self.now.start ≡ Some range.start) × (self.now.end ≡ Some range.end)) }
    {
        match (self.start, self.end) {
            (Some(start), Some(end)) => Some(start..end),
            _ => None,
        }
    }

    /// Forgets the match: after `group.reset()` neither end is known.
    pub fn reset(&mut self)
        ensures { self.new ≡ record { start = None; end = None } }
    {
        *self = GroupData::new();
    }
}
