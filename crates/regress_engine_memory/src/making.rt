//! How a table of what is told of a program's addresses is made: in one pass, and then it is tested.
ghost use Rattle.std.specs.Prelude.{◌≡◌, true, IfOk, IfSome, map};
ghost use Rattle.regress_engine_insn.specs.Instructions.{Program};
ghost use Rattle.regress_engine_insn.specs.InsnViews.{instruction};
ghost use Rattle.regress_engine_memory.specs.Deciding.{is_flow};
ghost use Rattle.regress_engine_memory.specs.Needs.{are_needs};
ghost use Rattle.regress_engine_memory.specs.TableViews.{needs_of, table_of};

use crate::flow::{Bounds, FlowTable};
use crate::needs::Needs;
use regress_engine_insn::{Insn, LoopFields};
use std::alloc::{AllocError, Global};

/// A repetition, or the contents of a lookaround or an atomic group, that an address lies in.
#[derive(Debug, Clone, Copy)]
struct Region {
    /// The address behind it.
    end: usize,
    /// The number of the scope inside.
    scope: usize,
    /// Where the outermost repetition around it begins, if any does.
    outermost: Option<usize>,
}

/// Where the last reference to a group stands.
fn last_reference(insns: &[Insn]) -> Option<usize> {
    let mut last = None;
    for at in 0..insns.len() {
        if let Insn::BackRef { .. } = &insns[at] {
            last = Some(at);
        }
    }
    last
}

/// Leaves the regions that end at an address or before.
fn leave_regions(regions: &mut Vec<Region>, at: usize) {
    while let Some(region) = regions.last() {
        if at < region.end {
            return;
        }
        regions.pop();
    }
}

impl FlowTable {
    /// A table with one scope, in which no loop is live, and with so many loops, which tells no more of any address than what a run
    /// takes from there on.
    fn empty(alloc: Global, loops: usize, needs: Needs) -> Result<FlowTable, AllocError> {
        let mut scopes = Vec::new(alloc);
        scopes.push(Vec::new(alloc))?;
        let mut bounds = Vec::new(alloc);
        bounds.resize(loops, Bounds { least: 0, most: 0 })?;
        Ok(FlowTable {
            calm: Vec::new(alloc),
            scopes: Vec::new(alloc),
            loops: scopes,
            bounds,
            needs,
        })
    }

    /// One more scope: that of the body of a repetition in a scope. It answers the number of the new one.
    fn add_scope(
        &mut self,
        alloc: Global,
        scope: usize,
        repetition: &LoopFields,
    ) -> Result<usize, AllocError> {
        let id = repetition.loop_id as usize;
        if id < self.bounds.len() {
            self.bounds[id] = Bounds {
                least: repetition.min_iters,
                most: repetition.max_iters,
            };
        }
        let mut live = Vec::new(alloc);
        if scope < self.loops.len() {
            live.extend_from_slice(&self.loops[scope])?;
        }
        live.push(id)?;
        let number = self.loops.len();
        self.loops.push(live)?;
        Ok(number)
    }

    /// The region that an instruction at an address begins, in the region around it.
    fn region(
        &mut self,
        alloc: Global,
        insn: &Insn,
        at: usize,
        scope: usize,
        outermost: Option<usize>,
    ) -> Result<Option<Region>, AllocError> {
        match insn {
            Insn::EnterLoop(repetition) => Ok(Some(Region {
                end: repetition.exit as usize,
                scope: self.add_scope(alloc, scope, repetition)?,
                outermost: Some(outermost.unwrap_or(at)),
            })),
            Insn::Lookahead { continuation, .. }
            | Insn::Lookbehind { continuation, .. }
            | Insn::Atomic { continuation, .. } => Ok(Some(Region {
                end: *continuation as usize,
                scope: 0,
                outermost,
            })),
            _ => Ok(None),
        }
    }

    /// The table of a program as its layout suggests it, which nothing is told of yet.
    fn suggested(alloc: Global, insns: &[Insn], loops: usize) -> Result<FlowTable, AllocError> {
        let last = last_reference(insns);
        let mut table = FlowTable::empty(alloc, loops, Needs::suggested(alloc, insns)?)?;
        let mut regions: Vec<Region> = Vec::new(alloc);
        for at in 0..insns.len() {
            leave_regions(&mut regions, at);
            let (scope, outermost) = match regions.last() {
                Some(region) => (region.scope, region.outermost),
                None => (0, None),
            };
            let from = outermost.unwrap_or(at);
            table.scopes.push(scope)?;
            table
                .calm
                .push(last.is_none_or(|reference| reference < from))?;
            if let Some(region) = table.region(alloc, &insns[at], at, scope, outermost)? {
                regions.push(region)?;
            }
        }
        Ok(table)
    }

    /// The table of a program with so many loops, where its instructions lead on and take as much as it tells. It errs only where memory is refused.
    ///
    /// ```rust
    /// let table = FlowTable::of(alloc, program.insns(), program.loops() as usize)?;
    /// ```
    pub fn of(alloc: Global, insns: &[Insn], loops: usize) -> Result<Option<FlowTable>, AllocError>
        ensures { IfOk result (λ found. IfSome found (λ table. (program : Program) → program.instructions ≡ map instruction insns.now
            → (is_flow (table_of table) program ≡ true) × (are_needs (needs_of table) program ≡ true))) }
    {
        let table = FlowTable::suggested(alloc, insns, loops)?;
        if table.is_flow(insns) && table.needs.are_needs(insns) {
            Ok(Some(table))
        } else {
            Ok(None)
        }
    }
}
