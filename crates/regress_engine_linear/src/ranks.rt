//! A table of ranks, and its test.
ghost use Rattle.std.specs.Prelude.{◌≡◌, ◌+◌, ◌-◌, ◌^◌, ◌<◌, ◌≤◌, ℕ, true, length, map, slice_get};
ghost use Rattle.regress_engine_insn.specs.Instructions.{Program};
ghost use Rattle.regress_engine_insn.specs.InsnViews.{fields, instruction};
ghost use Rattle.regress_engine_runs.specs.Runs.{fields_of};
ghost use Rattle.regress_engine_memory.specs.TableViews.{table_of};
ghost use Rattle.regress_engine_linear.specs.RankTables.{IsBefore, address_at, are_ranked, cycles, forward_at, heights_of, index_at, inside_in, is_apart, is_before, is_cycle, is_on, is_read, leaves, level_at, lowers, outside_at, rank_at, ranks, top_of};

use regress_engine_insn::{Insn, LoopFields};
use regress_engine_memory::{FlowTable, taken_by};

/// For each address of a program its rank, its level, and where it goes on outside of the atomic group around it; for each loop the rank of
/// where its body begins; and the order in which the addresses are worked out.
#[derive(Debug, Drop)]
pub struct RankTable {
    /// The rank of an address.
    pub(crate) ranks: Vec<usize>,
    /// The level of an address: it is read forward where that is even.
    pub(crate) levels: Vec<usize>,
    /// The addresses by their levels, the deepest first, and then by their ranks, the lowest first.
    pub(crate) order: Vec<usize>,
    /// Where an address stands in that order.
    pub(crate) indices: Vec<usize>,
    /// Where it goes on outside of the atomic group whose contents an address is in, or the address behind the last.
    pub(crate) outside: Vec<usize>,
    /// The rank of where the body of a loop begins.
    pub(crate) tops: Vec<usize>,
}

impl RankTable {
    /// The rank of an address.
    pub(crate) fn rank(&self, at: usize) -> usize
        ensures { result ≡ rank_at (heights_of self.now) at }
    {
        if at < self.ranks.len() {
            self.ranks[at]
        } else {
            0
        }
    }

    /// The level of an address.
    pub(crate) fn level(&self, at: usize) -> usize
        ensures { result ≡ level_at (heights_of self.now) at }
    {
        if at < self.levels.len() {
            self.levels[at]
        } else {
            0
        }
    }

    /// Whether an address is read forward.
    pub(crate) fn is_forward(&self, at: usize) -> bool
        ensures { result ≡ forward_at (heights_of self.now) at }
    {
        self.level(at) % 2 == 0
    }

    /// Where an address stands in the order.
    fn index(&self, at: usize) -> usize
        ensures { result ≡ index_at (heights_of self.now) at }
    {
        if at < self.indices.len() {
            self.indices[at]
        } else {
            0
        }
    }

    /// Where it goes on outside of the atomic group around an address.
    pub(crate) fn outside(&self, at: usize) -> usize
        ensures { result ≡ outside_at (heights_of self.now) at }
    {
        if at < self.outside.len() {
            self.outside[at]
        } else {
            0
        }
    }

    /// How many addresses are inside of the contents of atomic groups.
    pub(crate) fn inside(&self) -> usize
        ensures { result ≡ inside_in (heights_of self.now) }
    {
        let count = self.ranks.len();
        let mut inside = 0;
        for at in 0..self.outside.len() {
            if self.outside[at] < count {
                inside += 1;
            }
        }
        inside
    }

    /// The rank of where the body of a loop begins.
    fn top(&self, id: usize) -> usize
        ensures { result ≡ top_of (heights_of self.now) id }
    {
        if id < self.tops.len() {
            self.tops[id]
        } else {
            0
        }
    }

    /// The address at an index of the order.
    pub(crate) fn address(&self, index: usize) -> usize
        requires { index < length (heights_of self.now).order }
        ensures { result ≡ address_at (heights_of self.now) index }
    {
        self.order[index]
    }

    /// Whether an address is there and is read forward, or backward.
    fn is_read(&self, forward: bool, at: usize) -> bool
        ensures { result ≡ is_read (heights_of self.now) forward at }
    {
        at < self.ranks.len()
            && if forward {
                self.is_forward(at)
            } else {
                !self.is_forward(at)
            }
    }

    /// Whether an address is there and is of a level.
    fn is_on(&self, level: usize, at: usize) -> bool
        ensures { result ≡ is_on (heights_of self.now) level at }
    {
        at < self.ranks.len() && self.level(at) == level
    }

    /// Whether it may be led from an address to another of its level, in the same atomic group, by taking so much at least: something is
    /// taken, or the other is ranked lower.
    fn lowers(&self, taken: usize, from: usize, to: usize) -> bool
        ensures { result ≡ lowers (heights_of self.now) taken from to }
    {
        self.is_on(self.level(from), to)
            && (self.outside(to) == self.outside(from)
                && (taken > 0 || self.rank(to) < self.rank(from)))
    }

    /// Whether a goal is ranked above where it goes on outside of the atomic group whose contents it ends.
    fn leaves(&self, at: usize) -> bool
        ensures { result ≡ leaves (heights_of self.now) at }
    {
        self.ranks.len() <= self.outside(at) || self.rank(self.outside(at)) < self.rank(at)
    }

    /// Whether the contents behind an address are of the level of what is around them, and ranked lower, or of a deeper level.
    fn is_apart(&self, at: usize) -> bool
        requires { at + 1 < 2 ^ 64 }
        ensures { result ≡ is_apart (heights_of self.now) at }
    {
        (self.is_on(self.level(at), at + 1) && self.rank(at + 1) < self.rank(at))
            || self.level(at) < self.level(at + 1)
    }

    /// Whether a repetition that begins at an address may go on from another.
    fn is_cycle(&self, flow: &FlowTable, at: usize, begin: usize, repetition: &LoopFields) -> bool
        requires { begin + 1 < 2 ^ 64 }
        ensures { result ≡ is_cycle (heights_of self.now) (table_of flow.now) at begin (fields repetition.now) }
    {
        let id = repetition.loop_id as usize;
        let exit = repetition.exit as usize;
        repetition.min_iters <= 1
            && self.top(id) == self.rank(begin + 1)
            && self.lowers(0, at, begin + 1)
            && self.lowers(0, at, exit)
            && !flow.live(exit).contains(&id)
    }

    /// Whether an iteration may end at an address, of the repetition that begins at another.
    fn cycles(&self, flow: &FlowTable, insns: &[Insn], at: usize, begin: usize) -> bool
        requires { begin + 1 < 2 ^ 64 }
        ensures { result ≡ cycles (heights_of self.now) (table_of flow.now) at begin (fields_of (slice_get (map instruction insns.now) begin)) }
    {
        match insns.get(begin) {
            Some(Insn::EnterLoop(repetition)) => self.is_cycle(flow, at, begin, repetition),
            _ => false,
        }
    }

    /// Whether an instruction at an address leads on to what is ranked lower, but where it takes something.
    fn ranks(&self, flow: &FlowTable, insns: &[Insn], at: usize, insn: &Insn) -> bool
        requires { at + 2 < 2 ^ 64 }
        ensures { (program : Program) → program.instructions ≡ map instruction insns.now
            → result ≡ ranks (heights_of self.now) (table_of flow.now) program at (instruction insn.now) }
    {
        match insn {
            Insn::Goal => self.leaves(at),
            Insn::JustFail => true,
            Insn::BackRef { .. } => false,
            Insn::Jump { target } => self.lowers(0, at, *target as usize),
            Insn::Alt { secondary } => {
                self.lowers(0, at, at + 1) && self.lowers(0, at, *secondary as usize)
            }
            Insn::EnterLoop(repetition) => self.is_cycle(flow, at, at, repetition),
            Insn::LoopAgain { begin } => self.cycles(flow, insns, at, *begin as usize),
            Insn::Loop1CharBody { min_iters, .. } => self.lowers(*min_iters, at, at + 2),
            Insn::Lookahead { continuation, .. } => {
                self.lowers(0, at, *continuation as usize)
                    && (self.is_read(true, at + 1) && self.is_apart(at))
            }
            Insn::Lookbehind { continuation, .. } => {
                self.lowers(0, at, *continuation as usize)
                    && (self.is_read(false, at + 1) && self.is_apart(at))
            }
            Insn::Atomic { continuation, .. } => {
                let end = *continuation as usize;
                self.lowers(1, at, end)
                    && ((self.is_on(self.level(at), at + 1) && self.outside(at + 1) == end)
                        && self.is_apart(at))
            }
            _ => self.lowers(taken_by(insn), at, at + 1),
        }
    }

    /// Whether each instruction at a calm address does.
    pub(crate) fn are_ranked(&self, flow: &FlowTable, insns: &[Insn]) -> bool
        ensures { (program : Program) → program.instructions ≡ map instruction insns.now → result ≡ are_ranked (heights_of self.now) (table_of flow.now) program }
    {
        for at in 0..insns.len() {
            if flow.is_calm(at) && !self.ranks(flow, insns, at, &insns[at]) {
                return false;
            }
        }
        true
    }

    /// Whether an address has a rank, and stands in the order where its index tells.
    fn is_placed(&self, at: usize) -> bool
        ensures { result ≡ true → (rank_at (heights_of self.now) at < length self.now.order.items) × (index_at (heights_of self.now) at < length self.now.order.items)
            × (address_at (heights_of self.now) (index_at (heights_of self.now) at) ≡ at) }
    {
        let index = self.index(at);
        if self.rank(at) < self.order.len() && index < self.order.len() {
            self.order[index] == at
        } else {
            false
        }
    }

    /// Whether each of so many addresses does.
    pub(crate) fn are_placed(&self, count: usize) -> bool
        ensures { result ≡ true → (at : ℕ) → at < count → (rank_at (heights_of self.now) at < length self.now.order.items)
            × (index_at (heights_of self.now) at < length self.now.order.items) × (address_at (heights_of self.now) (index_at (heights_of self.now) at) ≡ at) }
    {
        for at in 0..count {
            if !self.is_placed(at) {
                return false;
            }
        }
        true
    }

    /// Whether no others than so many addresses stand in the order.
    pub(crate) fn are_there(&self, count: usize) -> bool
        ensures { result ≡ true → (k : ℕ) → k < length self.now.order.items → address_at (heights_of self.now) k < count }
    {
        for index in 0..self.order.len() {
            if count <= self.order[index] {
                return false;
            }
        }
        true
    }

    /// Whether one address is worked out before another: it is of a deeper level, or of the same and ranked lower.
    fn is_before(&self, first: usize, second: usize) -> bool
        ensures { result ≡ is_before (heights_of self.now) first second }
    {
        self.level(second) < self.level(first)
            || (self.level(second) == self.level(first) && self.rank(first) < self.rank(second))
    }

    /// Whether each address of the order is worked out before those behind it.
    pub(crate) fn are_ordered(&self) -> bool
        ensures { result ≡ true → (j : ℕ) → (k : ℕ) → j < k → k < length self.now.order.items
            → IsBefore (heights_of self.now) (address_at (heights_of self.now) j) (address_at (heights_of self.now) k) }
    {
        for index in 1..self.order.len() {
            let first = self.address(index - 1);
            let second = self.address(index);
            if !self.is_before(first, second) {
                return false;
            }
        }
        true
    }
}
