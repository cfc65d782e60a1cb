//! How many units a run has to take from each address on, at least, and the test of it.
ghost use Rattle.std.specs.Prelude.{◌≡◌, ◌+◌, ◌^◌, ◌<◌, map, slice_get};
ghost use Rattle.regress_engine_insn.specs.Instructions.{Program};
ghost use Rattle.regress_engine_insn.specs.InsnViews.{instruction};
ghost use Rattle.regress_engine_runs.specs.Runs.{fields_of};
ghost use Rattle.regress_engine_memory.specs.Needs.{are_needs, covers, covers_iteration, need, needs_at, taken_by};

use regress_engine_insn::{Insn, bytes_of};
use std::alloc::{AllocError, Global};

/// In at most so many rounds it is told how many units are needed.
const MOST_ROUNDS: usize = 4;

/// For each address of a program how many units a run takes from there on, at least.
#[derive(Debug, Drop)]
pub struct Needs {
    pub(crate) units: Vec<usize>,
}

/// At least how many units an instruction takes, if it takes characters or bytes.
///
/// ```rust
/// let units = taken_by(insn);
/// ```
pub fn taken_by(insn: &Insn) -> usize
    ensures { result ≡ taken_by (instruction insn.now) }
{
    match insn {
        Insn::Char(_)
        | Insn::CharSet(_)
        | Insn::ByteSet2(_)
        | Insn::ByteSet3(_)
        | Insn::ByteSet4(_)
        | Insn::MatchAny
        | Insn::MatchAnyExceptLineTerminator
        | Insn::Bracket(_)
        | Insn::AsciiBracket(_) => 1,
        _ => bytes_of(insn).len(),
    }
}

impl Needs {
    /// How many units a run takes from an address on, at least.
    #[inline]
    pub(crate) fn from(&self, at: usize) -> usize
        ensures { result ≡ need self.now.units.items at }
    {
        if at < self.units.len() {
            self.units[at]
        } else {
            0
        }
    }

    /// Whether from an address no more units are needed than are taken and are needed from another address on.
    fn covers(&self, at: usize, taken: usize, to: usize) -> bool
        ensures { result ≡ covers self.now.units.items at taken to }
    {
        self.from(at).saturating_sub(taken) <= self.from(to)
    }

    /// The same where an iteration may end, of the repetition that begins at an address.
    fn covers_iteration(&self, insns: &[Insn], at: usize, begin: usize) -> bool
        requires { begin + 1 < 2 ^ 64 }
        ensures { result ≡ covers_iteration self.now.units.items at begin (fields_of (slice_get (map instruction insns.now) begin)) }
    {
        match insns.get(begin) {
            Some(Insn::EnterLoop(repetition)) => {
                self.covers(at, 0, begin + 1) && self.covers(at, 0, repetition.exit as usize)
            }
            _ => false,
        }
    }

    /// Whether an instruction at an address needs no more than it takes and what it leads to needs.
    fn needs_at(&self, insns: &[Insn], at: usize, insn: &Insn) -> bool
        requires { at + 2 < 2 ^ 64 }
        ensures { (program : Program) → program.instructions ≡ map instruction insns.now
            → result ≡ needs_at self.now.units.items program at (instruction insn.now) }
    {
        match insn {
            Insn::Goal | Insn::BackRef { .. } | Insn::Atomic { .. } => self.from(at) == 0,
            Insn::JustFail => true,
            Insn::Jump { target } => self.covers(at, 0, *target as usize),
            Insn::Alt { secondary } => {
                self.covers(at, 0, at + 1) && self.covers(at, 0, *secondary as usize)
            }
            Insn::EnterLoop(repetition) => {
                self.covers(at, 0, at + 1) && self.covers(at, 0, repetition.exit as usize)
            }
            Insn::LoopAgain { begin } => self.covers_iteration(insns, at, *begin as usize),
            Insn::Loop1CharBody { min_iters, .. } => self.covers(at, *min_iters, at + 2),
            Insn::Lookahead { continuation, .. } | Insn::Lookbehind { continuation, .. } => {
                self.covers(at, 0, *continuation as usize)
            }
            _ => self.covers(at, taken_by(insn), at + 1),
        }
    }

    /// Whether each instruction needs no more than it takes and what it leads to needs.
    pub(crate) fn are_needs(&self, insns: &[Insn]) -> bool
        ensures { (program : Program) → program.instructions ≡ map instruction insns.now → result ≡ are_needs self.now.units.items program }
    {
        for at in 0..insns.len() {
            if !self.needs_at(insns, at, &insns[at]) {
                return false;
            }
        }
        true
    }

    /// How many units are needed from an address on, as its instruction suggests it, where the addresses behind it are known, and
    /// of those before it what was thought before.
    fn suggested_at(&self, insns: &[Insn], before: &Needs, at: usize) -> usize {
        let Some(insn) = insns.get(at) else {
            return 0;
        };
        match insn {
            Insn::Goal | Insn::JustFail | Insn::BackRef { .. } | Insn::Atomic { .. } => 0,
            Insn::Jump { target } => self.from(*target as usize),
            Insn::Alt { secondary } => {
                let first = self.from(at.saturating_add(1));
                first.min(self.from(*secondary as usize))
            }
            Insn::EnterLoop(repetition) => {
                let first = self.from(at.saturating_add(1));
                first.min(self.from(repetition.exit as usize))
            }
            Insn::LoopAgain { begin } => match insns.get(*begin as usize) {
                Some(Insn::EnterLoop(repetition)) => {
                    let out = self.from(repetition.exit as usize);
                    out.min(before.from((*begin as usize).saturating_add(1)))
                }
                _ => 0,
            },
            Insn::Loop1CharBody { min_iters, .. } => {
                min_iters.saturating_add(self.from(at.saturating_add(2)))
            }
            Insn::Lookahead { continuation, .. } | Insn::Lookbehind { continuation, .. } => {
                self.from(*continuation as usize)
            }
            _ => taken_by(insn).saturating_add(self.from(at.saturating_add(1))),
        }
    }

    /// The same number of units for each address of a program.
    fn all(alloc: Global, insns: &[Insn], units: usize) -> Result<Needs, AllocError> {
        let mut all = Vec::new(alloc);
        all.resize(insns.len(), units)?;
        Ok(Needs { units: all })
    }

    /// What the instructions of a program suggest, from the last address on, by what was thought of each before.
    fn suggested_by(alloc: Global, insns: &[Insn], before: &Needs) -> Result<Needs, AllocError> {
        let mut needs = Needs::all(alloc, insns, 0)?;
        for at in (0..insns.len()).rev() {
            let more = needs.suggested_at(insns, before, at);
            if at < needs.units.len() {
                needs.units[at] = more;
            }
        }
        Ok(needs)
    }

    /// What the instructions of a program suggest. An iteration may need less than what follows its repetition, where its body has
    /// an atomic group or a reference; so it is told in rounds, at first as if iterations needed any amount. Where the numbers do
    /// not pass the test after that, nothing is needed.
    pub(crate) fn suggested(alloc: Global, insns: &[Insn]) -> Result<Needs, AllocError> {
        let mut needs = Needs::all(alloc, insns, usize::MAX)?;
        for _ in 0..MOST_ROUNDS {
            needs = Needs::suggested_by(alloc, insns, &needs)?;
            if needs.are_needs(insns) {
                return Ok(needs);
            }
        }
        Needs::all(alloc, insns, 0)
    }
}
