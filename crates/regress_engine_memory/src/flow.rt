//! A table of what is told of a program's addresses, and its test.
ghost use Rattle.std.specs.Prelude.{◌≡◌, ◌+◌, ◌^◌, ◌<◌, ◌∷◌, is_some, map, option_and_then, slice_get};
ghost use Rattle.std.specs.List.{list_all};
ghost use Rattle.regress_meaning.specs.Text.{holds};
ghost use Rattle.regress_engine_insn.specs.Instructions.{Program};
ghost use Rattle.regress_engine_insn.specs.InsnViews.{fields, instruction};
ghost use Rattle.regress_engine_runs.specs.Meets.{referred};
ghost use Rattle.regress_engine_runs.specs.Runs.{fields_of};
ghost use Rattle.regress_engine_memory.specs.Deciding.{begins_anew, bounds_of, calm_at, ends_iteration, flows, hands, is_flow, is_told_of, live_at, writes};
ghost use Rattle.regress_engine_memory.specs.Needs.{need};
ghost use Rattle.regress_engine_memory.specs.TableViews.{bounds_are, needs_of, table_of};

use crate::needs::Needs;
use regress_engine_insn::{Insn, LoopFields};

/// How many iterations of a loop there are at least and at most.
#[derive(Debug, Clone, Copy)]
pub struct Bounds {
    /// At least so many.
    pub least: usize,
    /// At most so many.
    pub most: usize,
}

/// For each address of a program whether a group may be referred to from there on, which loops' data may still be asked for, and
/// how many units a run takes from there on, at least; and the bounds of each loop.
#[derive(Debug, Drop)]
pub struct FlowTable {
    /// Whether no group is referred to from an address on.
    pub(crate) calm: Vec<bool>,
    /// The number of the scope of an address.
    pub(crate) scopes: Vec<usize>,
    /// The loops that are live in a scope.
    pub(crate) loops: Vec<Vec<usize>>,
    /// The bounds of each loop.
    pub(crate) bounds: Vec<Bounds>,
    /// How many units a run takes from an address on.
    pub(crate) needs: Needs,
}

/// Whether each of some numbers is among others. Most often the others begin with them, as the loops around an address are told from the
/// outermost on.
fn are_among(some: &[usize], others: &[usize]) -> bool
    ensures { result ≡ list_all (holds others.now) some.now }
{
    others.starts_with(some) || some.iter().all(|id| others.contains(id))
}

/// The same, where one more number is among the others. Most often it is the last.
fn are_among_or(some: &[usize], one: usize, others: &[usize]) -> bool
    ensures { result ≡ list_all (holds (one ∷ others.now)) some.now }
{
    let rest = match some.split_last() {
        Some((last, rest)) if *last == one => rest,
        _ => some,
    };
    others.starts_with(rest) || some.iter().all(|id| one == *id || others.contains(id))
}

/// Whether the instruction at an address refers to a group.
fn refers(insns: &[Insn], at: usize) -> bool
    ensures { result ≡ is_some (option_and_then referred (slice_get (map instruction insns.now) at)) }
{
    matches!(insns.get(at), Some(Insn::BackRef { .. }))
}

impl FlowTable {
    /// Whether an address is calm: no group is referred to from there on.
    ///
    /// ```rust
    /// let calm = table.is_calm(0);
    /// ```
    #[inline]
    pub fn is_calm(&self, at: usize) -> bool
        ensures { result ≡ calm_at (table_of self.now) at }
    {
        at < self.calm.len() && self.calm[at]
    }

    /// The loops whose data may still be asked for from an address on.
    ///
    /// ```rust
    /// let live = table.live(3);
    /// ```
    #[inline]
    pub fn live(&self, at: usize) -> &[usize]
        ensures { result.now ≡ live_at (table_of self.now) at }
    {
        let scope = if at < self.scopes.len() {
            self.scopes[at]
        } else {
            0
        };
        if scope < self.loops.len() {
            &self.loops[scope]
        } else {
            &[]
        }
    }

    /// The bounds of a loop.
    ///
    /// ```rust
    /// let least = table.bounds(0).least;
    /// ```
    #[inline]
    pub fn bounds(&self, id: usize) -> Bounds
        ensures { bounds_are result ≡ bounds_of (table_of self.now) id }
    {
        if id < self.bounds.len() {
            self.bounds[id]
        } else {
            Bounds { least: 0, most: 0 }
        }
    }

    /// How many units a run takes from an address on, at least.
    ///
    /// ```rust
    /// let units = table.need(0);
    /// ```
    #[inline]
    pub fn need(&self, at: usize) -> usize
        ensures { result ≡ need (needs_of self.now) at }
    {
        self.needs.from(at)
    }

    /// Whether it may be led from one address to another with the data of all loops as they are.
    fn hands(&self, from: usize, to: usize) -> bool
        ensures { result ≡ hands (table_of self.now) from to }
    {
        self.is_calm(to) && are_among(self.live(to), self.live(from))
    }

    /// The same, with the data of one loop written.
    fn writes(&self, written: usize, from: usize, to: usize) -> bool
        ensures { result ≡ writes (table_of self.now) written from to }
    {
        self.is_calm(to) && are_among_or(self.live(to), written, self.live(from))
    }

    /// Whether a repetition is as it is told of its loop.
    fn is_told_of(&self, repetition: &LoopFields) -> bool
        ensures { result ≡ is_told_of (table_of self.now) (fields repetition.now) }
    {
        let bounds = self.bounds(repetition.loop_id as usize);
        bounds.least == repetition.min_iters && bounds.most == repetition.max_iters
    }

    /// Whether the contents of a lookaround or an atomic group may begin at an address.
    fn begins_anew(&self, at: usize) -> bool
        ensures { result ≡ begins_anew (table_of self.now) at }
    {
        self.is_calm(at) && self.live(at).is_empty()
    }

    /// Whether an iteration may end at an address, of the repetition that begins at another.
    fn ends_iteration(&self, insns: &[Insn], at: usize, begin: usize) -> bool
        requires { begin + 1 < 2 ^ 64 }
        ensures { result ≡ ends_iteration (table_of self.now) at begin (fields_of (slice_get (map instruction insns.now) begin)) }
    {
        match insns.get(begin) {
            Some(Insn::EnterLoop(repetition)) => {
                let id = repetition.loop_id as usize;
                self.is_told_of(repetition)
                    && self.live(at).contains(&id)
                    && self.writes(id, at, begin + 1)
                    && self.hands(at, repetition.exit as usize)
            }
            _ => false,
        }
    }

    /// Whether an instruction at an address leads on as it is told.
    fn flows(&self, insns: &[Insn], at: usize, insn: &Insn) -> bool
        requires { at + 2 < 2 ^ 64 }
        ensures { (program : Program) → program.instructions ≡ map instruction insns.now
            → result ≡ flows (table_of self.now) program at (instruction insn.now) }
    {
        match insn {
            Insn::Goal | Insn::JustFail => true,
            Insn::BackRef { .. } => false,
            Insn::Jump { target } => self.hands(at, *target as usize),
            Insn::Alt { secondary } => {
                self.hands(at, at + 1) && self.hands(at, *secondary as usize)
            }
            Insn::EnterLoop(repetition) => {
                let id = repetition.loop_id as usize;
                self.is_told_of(repetition)
                    && self.writes(id, at, at + 1)
                    && self.writes(id, at, repetition.exit as usize)
            }
            Insn::LoopAgain { begin } => self.ends_iteration(insns, at, *begin as usize),
            Insn::Loop1CharBody { .. } => self.hands(at, at + 2) && !refers(insns, at + 1),
            Insn::Lookahead { continuation, .. }
            | Insn::Lookbehind { continuation, .. }
            | Insn::Atomic { continuation, .. } => {
                self.begins_anew(at + 1) && self.hands(at, *continuation as usize)
            }
            _ => self.hands(at, at + 1),
        }
    }

    /// Whether each instruction at a calm address leads on as it is told.
    pub(crate) fn is_flow(&self, insns: &[Insn]) -> bool
        ensures { (program : Program) → program.instructions ≡ map instruction insns.now → result ≡ is_flow (table_of self.now) program }
    {
        for at in 0..insns.len() {
            if self.is_calm(at) && !self.flows(insns, at, &insns[at]) {
                return false;
            }
        }
        true
    }
}
