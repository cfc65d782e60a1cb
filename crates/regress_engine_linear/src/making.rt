//! How a table of ranks is made: in rounds, and then it is tested.
ghost use Rattle.std.specs.Prelude.{◌≡◌, true, IfOk, IfSome, length, map};
ghost use Rattle.regress_engine_insn.specs.Instructions.{Program};
ghost use Rattle.regress_engine_insn.specs.InsnViews.{instruction};
ghost use Rattle.regress_engine_memory.specs.TableViews.{table_of};
ghost use Rattle.regress_engine_linear.specs.RankTables.{ArePlaced, are_ranked, heights_of};

use crate::ranks::RankTable;
use regress_engine_insn::Insn;
use regress_engine_memory::{FlowTable, taken_by};
use std::alloc::{AllocError, Global};

/// In at most so many rounds ranks are worked out: one for each repetition around another, and one.
const MOST_ROUNDS: usize = 16;

/// The contents of a lookaround or an atomic group.
#[derive(Debug, Clone, Copy)]
struct Contents {
    /// The address behind them.
    end: usize,
    /// Their level: they are read forward where it is even.
    level: usize,
    /// Whether they are those of an atomic group.
    is_atomic: bool,
}

/// Leaves the contents that end at an address or before.
fn leave(around: &mut Vec<Contents>, at: usize) {
    while let Some(contents) = around.last() {
        if at < contents.end {
            return;
        }
        around.pop();
    }
}

/// The level of a lookaround's contents that are read forward or not, where it stands in what is of another: that level, or where the direction
/// turns the next.
fn level_inside(level: usize, is_forward: bool) -> usize {
    if is_forward == (level % 2 == 0) {
        level
    } else {
        level.saturating_add(1)
    }
}

/// The contents that an instruction begins, which stands in what is of a level.
fn contents_of(insn: &Insn, level: usize) -> Option<Contents> {
    match insn {
        Insn::Lookahead { continuation, .. } => Some(Contents {
            end: *continuation as usize,
            level: level_inside(level, true),
            is_atomic: false,
        }),
        Insn::Lookbehind { continuation, .. } => Some(Contents {
            end: *continuation as usize,
            level: level_inside(level, false),
            is_atomic: false,
        }),
        Insn::Atomic { continuation, .. } => Some(Contents {
            end: *continuation as usize,
            level,
            is_atomic: true,
        }),
        _ => None,
    }
}

/// For each address of a program the innermost contents that it is in.
fn contents_around(alloc: Global, insns: &[Insn]) -> Result<Vec<Option<Contents>>, AllocError> {
    let mut innermost: Vec<Option<Contents>> = Vec::new(alloc);
    let mut around: Vec<Contents> = Vec::new(alloc);
    for at in 0..insns.len() {
        leave(&mut around, at);
        let own = around.last().copied();
        innermost.push(own)?;
        let level = own.map_or(0, |contents| contents.level);
        if let Some(contents) = contents_of(&insns[at], level) {
            around.push(contents)?;
        }
    }
    Ok(innermost)
}

/// The levels of all addresses.
fn levels(alloc: Global, around: &[Option<Contents>]) -> Result<Vec<usize>, AllocError> {
    let mut levels = Vec::new(alloc);
    for contents in around {
        levels.push(contents.map_or(0, |contents| contents.level))?;
    }
    Ok(levels)
}

/// For each address where it goes on outside of the atomic group whose contents it is in, or the address behind the last.
fn outside(alloc: Global, around: &[Option<Contents>]) -> Result<Vec<usize>, AllocError> {
    let mut outside: Vec<usize> = Vec::new(alloc);
    for contents in around {
        match contents {
            Some(contents) if contents.is_atomic => outside.push(contents.end)?,
            _ => outside.push(around.len())?,
        }
    }
    Ok(outside)
}

/// Whether an instruction begins a repetition, those of one character among them or not.
fn begins_loop(insn: &Insn, singles: bool) -> bool {
    match insn {
        Insn::EnterLoop(_) => true,
        Insn::Loop1CharBody { .. } => singles,
        _ => false,
    }
}

/// For each address the first from it on at which a repetition begins, those of one character among them or not, or the address behind the
/// last.
fn next_loops(alloc: Global, insns: &[Insn], singles: bool) -> Result<Vec<usize>, AllocError> {
    let mut next: Vec<usize> = Vec::new(alloc);
    let mut found = insns.len();
    next.resize(insns.len(), found)?;
    for at in (0..insns.len()).rev() {
        if begins_loop(&insns[at], singles) {
            found = at;
        }
        if at < next.len() {
            next[at] = found;
        }
    }
    Ok(next)
}

/// The addresses inside of contents of lookarounds in which no repetition begins, but of one character where they are visited at most once, as
/// it is told of each address.
fn loop_free(alloc: Global, insns: &[Insn], once: &[bool]) -> Result<Vec<bool>, AllocError> {
    let next_any = next_loops(alloc, insns, true)?;
    let next_repetition = next_loops(alloc, insns, false)?;
    let mut free = Vec::new(alloc);
    let mut end = 0;
    for at in 0..insns.len() {
        free.push(at < end)?;
        let next = if at < once.len() && once[at] {
            &next_repetition
        } else {
            &next_any
        };
        if let Some(contents) = contents_of(&insns[at], 0)
            && !contents.is_atomic
            && at < next.len()
            && contents.end <= next[at]
        {
            end = contents.end.max(end);
        }
    }
    Ok(free)
}

/// The rank above that of an address.
fn above(ranks: &[usize], at: usize) -> usize {
    if at < ranks.len() {
        ranks[at].saturating_add(1)
    } else {
        0
    }
}

/// The rank of an address as its instruction suggests it, where those of the addresses behind it are known, and of those before it what was
/// thought before. Behind what takes something ranks may begin anew, but not inside of lookarounds without loops: their contents are ranked
/// between where they stand and what is behind them. The contents of an atomic group end above where it goes on outside.
fn suggested_rank(
    insns: &[Insn],
    ranks: &[usize],
    before: &[usize],
    is_free: bool,
    outside: usize,
    at: usize,
) -> usize {
    let Some(insn) = insns.get(at) else {
        return 0;
    };
    let next = above(ranks, at.saturating_add(1));
    match insn {
        Insn::Goal => above(ranks, outside).max(if is_free { next } else { 0 }),
        Insn::JustFail | Insn::BackRef { .. } => { if is_free { next } else { 0 } }
        Insn::Jump { target } => above(ranks, *target as usize),
        Insn::Alt { secondary } => next.max(above(ranks, *secondary as usize)),
        Insn::EnterLoop(repetition) => next.max(above(ranks, repetition.exit as usize)),
        Insn::LoopAgain { begin } => {
            let body = above(before, (*begin as usize).saturating_add(1));
            match insns.get(*begin as usize) {
                Some(Insn::EnterLoop(repetition)) => body.max(above(
                    ranks,
                    repetition.exit as usize,
                )),
                _ => body,
            }
        }
        Insn::Loop1CharBody { min_iters, .. } => {
            if *min_iters > 0 && !is_free {
                0
            } else {
                above(ranks, at.saturating_add(2))
            }
        }
        Insn::Lookahead { continuation, .. } | Insn::Lookbehind { continuation, .. } => {
            next.max(above(ranks, *continuation as usize))
        }
        Insn::Atomic { .. } => next,
        _ => {
            if taken_by(insn) > 0 && !is_free {
                0
            } else {
                next
            }
        }
    }
}

/// The ranks that the instructions suggest, from the last address on, by what was thought of each before.
fn suggested_ranks(
    alloc: Global,
    insns: &[Insn],
    before: &[usize],
    free: &[bool],
    outside: &[usize],
) -> Result<Vec<usize>, AllocError> {
    let mut ranks: Vec<usize> = Vec::new(alloc);
    ranks.resize(insns.len(), 0)?;
    for at in (0..insns.len()).rev() {
        let is_free = at < free.len() && free[at];
        let behind = outside.get(at).copied().unwrap_or(insns.len());
        let rank = suggested_rank(insns, &ranks, before, is_free, behind, at);
        if at < ranks.len() {
            ranks[at] = rank;
        }
    }
    Ok(ranks)
}

/// The addresses of a program by rank: those first to which the instructions of others may lead without taking anything.
fn by_rank(
    alloc: Global,
    insns: &[Insn],
    once: &[bool],
    outside: &[usize],
) -> Result<Vec<usize>, AllocError> {
    let free = loop_free(alloc, insns, once)?;
    let mut ranks: Vec<usize> = Vec::new(alloc);
    for _ in 0..MOST_ROUNDS {
        let suggested = suggested_ranks(alloc, insns, &ranks, &free, outside)?;
        if suggested == ranks {
            break;
        }
        ranks = suggested;
    }
    let mut order: Vec<usize> = Vec::new(alloc);
    order.extend(0..insns.len())?;
    order.sort_by_key(|at| above(&ranks, *at))?;
    Ok(order)
}

/// The addresses in the order in which they are worked out, where they are given by rank: those of deeper levels first.
fn order(alloc: Global, by_rank: &[usize], levels: &[usize]) -> Result<Vec<usize>, AllocError> {
    let mut order: Vec<usize> = Vec::new(alloc);
    order.extend_from_slice(by_rank)?;
    order.sort_by_key(|at| usize::MAX.saturating_sub(above(levels, *at)))?;
    Ok(order)
}

/// For each of some addresses its place among them.
fn places(alloc: Global, addresses: &[usize]) -> Result<Vec<usize>, AllocError> {
    let mut places: Vec<usize> = Vec::new(alloc);
    places.resize(addresses.len(), 0)?;
    for place in 0..addresses.len() {
        let at = addresses[place];
        if at < places.len() {
            places[at] = place;
        }
    }
    Ok(places)
}

/// For each of so many loops the rank of where its body begins.
fn tops(
    alloc: Global,
    insns: &[Insn],
    ranks: &[usize],
    loops: usize,
) -> Result<Vec<usize>, AllocError> {
    let mut tops: Vec<usize> = Vec::new(alloc);
    tops.resize(loops, 0)?;
    for at in 0..insns.len() {
        if let Insn::EnterLoop(repetition) = &insns[at] {
            let id = repetition.loop_id as usize;
            let body = at.saturating_add(1);
            if id < tops.len() && body < ranks.len() {
                tops[id] = ranks[body];
            }
        }
    }
    Ok(tops)
}

impl RankTable {
    /// The table of ranks of a program with so many loops, where each way leads back to an address only by taking something; `None` where
    /// one does not. Of each address it is told whether it is visited at most once. It errs only where memory is refused.
    pub(crate) fn of(
        alloc: Global,
        insns: &[Insn],
        once: &[bool],
        flow: &FlowTable,
        loops: usize,
    ) -> Result<Option<RankTable>, AllocError>
        ensures ranked { IfOk result (λ found. IfSome found (λ table. (program : Program) → program.instructions ≡ map instruction insns.now
            → are_ranked (heights_of table) (table_of flow.now) program ≡ true)) }
        ensures placed { IfOk result (λ found. IfSome found (λ table. ArePlaced (heights_of table) (length insns.now))) }
    {
        let around = contents_around(alloc, insns)?;
        let outside = outside(alloc, &around)?;
        let levels = levels(alloc, &around)?;
        let by_rank = by_rank(alloc, insns, once, &outside)?;
        let order = order(alloc, &by_rank, &levels)?;
        let ranks = places(alloc, &by_rank)?;
        let table = RankTable {
            tops: tops(alloc, insns, &ranks, loops)?,
            indices: places(alloc, &order)?,
            levels,
            outside,
            ranks,
            order,
        };
        let count = insns.len();
        if !table.are_placed(count) {
            return Ok(None);
        }
        if !table.are_there(count) {
            return Ok(None);
        }
        if !table.are_ordered() {
            return Ok(None);
        }
        if table.are_ranked(flow, insns) {
            Ok(Some(table))
        } else {
            Ok(None)
        }
    }
}
