//! What searches need again and again.
use regress_engine_undo::Memory;
use regress_front_core::GroupData;
use std::alloc::Global;

/// Room that an executor needs for every run: the groups and loops of the run, and what is to be undone. It grows as a run needs
/// it and is kept from one search to the next, whatever program and text these are of, so that a search asks for memory only
/// where it needs more room than all before it, or has gone back so often that it remembers failures.
#[derive(Debug, Drop)]
pub struct Scratch {
    pub(crate) memory: Memory,
    pub(crate) answer: Vec<GroupData<usize>>,
}

impl Scratch {
    /// Room for nothing yet. It takes no memory.
    ///
    /// ```rust
    /// let scratch = Scratch::new(alloc);
    /// ```
    pub fn new(alloc: Global) -> Scratch {
        Scratch {
            memory: Memory::new(alloc),
            answer: Vec::new(alloc),
        }
    }
}
