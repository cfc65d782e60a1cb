//! Where a walk stands, and where it goes on behind the contents of lookarounds and atomic groups.
ghost use Rattle.std.specs.Prelude.{◌≡◌, ◌+◌, ◌^◌, ◌<◌, suc, [], ◌∷◌, true, None, Some, IfOk, OnOk, if◌then◌else◌};
ghost use Rattle.regress_engine_insn.specs.Instructions.{fail};
ghost use Rattle.regress_engine_insn.specs.InsnViews.{instruction};
ghost use Rattle.regress_engine_ways.specs.Ways.{is_entered};
ghost use Rattle.regress_engine_walks.specs.Walked.{entered, frame, goes, offset_behind, walk_of};

use regress_engine_insn::Insn;
use regress_engine_ways::Station;
use std::alloc::{AllocError, Global};

/// Contents that are gone through: where the way goes on behind them.
#[derive(Debug, Clone, Copy)]
pub(crate) struct Frame {
    /// The address behind which the contents stand.
    pub(crate) opened: usize,
    /// The address.
    pub(crate) continuation: usize,
    /// The offset where the contents began.
    pub(crate) offset: usize,
    /// Whether it is read forward there.
    pub(crate) forward: bool,
    /// Whether it goes back to that offset; else it stays where the contents end.
    pub(crate) returns: bool,
}

impl Frame {
    /// The offset at which it goes on, where the contents end at another.
    fn offset_behind(&self, end: usize) -> usize
        ensures { result ≡ offset_behind self.now end }
    {
        if self.returns { self.offset } else { end }
    }
}

/// Where a walk stands.
#[derive(Debug, Drop)]
pub(crate) struct Walker {
    /// The address and the offset.
    pub(crate) here: Station,
    /// Whether it is read forward there.
    pub(crate) forward: bool,
    /// The contents around that are gone through, the innermost last.
    pub(crate) frames: Vec<Frame>,
}

/// Whether contents are gone through: those of an atomic group, and of a lookaround that is not negated and has groups inside.
pub(crate) fn is_entered(insn: &Insn) -> bool
    ensures { result ≡ is_entered (instruction insn.now) }
{
    match insn {
        Insn::Lookahead {
            negate,
            start_group,
            end_group,
            ..
        }
        | Insn::Lookbehind {
            negate,
            start_group,
            end_group,
            ..
        } => !*negate && start_group < end_group,
        Insn::Atomic { .. } => true,
        _ => false,
    }
}

impl Walker {
    /// A walk that begins at an offset.
    pub(crate) fn new(alloc: Global, start: usize) -> Walker
        ensures { walk_of result ≡ record { at = 0; offset = start; forward = true; frames = [] } }
    {
        Walker {
            here: Station {
                at: 0,
                offset: start,
            },
            forward: true,
            frames: Vec::new(alloc),
        }
    }

    /// Begins contents that are read forward, or backward, and behind which it goes on at an address: at this offset, or where they end. It
    /// errs where memory is refused.
    fn push(&mut self, continuation: usize, forward: bool, returns: bool) -> Result<(), AllocError>
        requires { self.old.here.at + 1 < 2 ^ 64 }
        ensures { OnOk result (walk_of self.new ≡ record {
          at = suc self.old.here.at;
          offset = self.old.here.offset;
          forward = forward;
          frames = frame self.old.here.at continuation self.old.here.offset self.old.forward returns ∷ (walk_of self.old).frames;
        }) }
    {
        self.frames.push(Frame {
            opened: self.here.at,
            continuation,
            offset: self.here.offset,
            forward: self.forward,
            returns,
        })?;
        self.here.at += 1;
        self.forward = forward;
        Ok(())
    }

    /// Begins the contents of a lookaround or an atomic group. It errs where memory is refused.
    fn enter(&mut self, insn: &Insn) -> Result<(), AllocError>
        requires { self.old.here.at + 1 < 2 ^ 64 }
        ensures { OnOk result (walk_of self.new ≡ entered (instruction insn.now) (walk_of self.old)) }
    {
        match insn {
            Insn::Lookahead { continuation, .. } => self.push(*continuation as usize, true, true),
            Insn::Lookbehind { continuation, .. } => self.push(*continuation as usize, false, true),
            Insn::Atomic { continuation, .. } => self.push(
                *continuation as usize,
                self.forward,
                false,
            ),
            _ => Ok(()),
        }
    }

    /// Leaves the innermost contents, where there are some.
    fn leave(&mut self) -> bool
        ensures { goes fail None (walk_of self.old) ≡ (if result then Some (walk_of self.new) else None) }
    {
        let Some(frame) = self.frames.pop() else {
            return false;
        };
        self.here = Station {
            at: frame.continuation,
            offset: frame.offset_behind(self.here.offset),
        };
        self.forward = frame.forward;
        true
    }

    /// Goes on behind an instruction, where that leads, or where it leads nowhere behind the innermost contents. It tells whether there are
    /// some. It errs where memory is refused.
    pub(crate) fn goes(&mut self, insn: &Insn, next: Option<Station>) -> Result<bool, AllocError>
        requires { self.old.here.at + 1 < 2 ^ 64 }
        ensures { IfOk result (λ on. goes (instruction insn.now) next (walk_of self.old) ≡ (if on then Some (walk_of self.new) else None)) }
    {
        let Some(next) = next else {
            return Ok(self.leave());
        };
        if is_entered(insn) {
            self.enter(insn)?;
        } else {
            self.here = next;
        }
        Ok(true)
    }
}
