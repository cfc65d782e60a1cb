//! The classes of the counts of loops, and when loops show that no state with the same classes may do more.
ghost use Rattle.std.specs.Prelude.{◌≡◌, ◌+◌, ◌<◌, ℕ, true, false, get_or, map};
ghost use Rattle.regress_meaning.specs.Text.{holds};
ghost use Rattle.regress_engine_input.specs.Views.{direction_of};
ghost use Rattle.regress_engine_search.specs.StateViews.{loop_of};
ghost use Rattle.regress_engine_memory.specs.Deciding.{flow_of, live_at};
ghost use Rattle.regress_engine_memory.specs.Keys.{are_fresh, class_of, is_fresh};
ghost use Rattle.regress_engine_memory.specs.Remembered.{HaveClasses, keyed_of};
ghost use Rattle.regress_engine_memory.specs.TableViews.{table_of};
ghost use Rattle.regress_engine_runs.specs.Runs.{room};
ghost use Rattle.regress_engine_memory.specs.Under.{HasMoved};

use crate::flow::FlowTable;
use regress_engine_undo::{Spot, is_ahead};
use regress_front_core::LoopData;
use std::alloc::{AllocError, Global};

/// A loop is counted that has at most so many iterations.
const MOST_COUNTED: usize = 4_096;

/// What hashes are multiplied with: a prime, so that the numbers of different keys fall into different buckets.
const SPREAD: usize = 8_191;

/// The data of a loop; of one that is not there those before any iteration.
fn data_of(loops: &[LoopData<usize>], id: usize) -> LoopData<usize>
    ensures { loop_of result ≡ get_or (map loop_of loops.now) id (0, 0) }
{
    if id < loops.len() {
        loops[id]
    } else {
        LoopData::new(0)
    }
}

/// How many units lie between an offset and the end of a text of so many, read forward or backward.
fn room_left(last: usize, spot: &Spot) -> usize
    ensures { result ≡ room last (direction_of spot.now.forward) spot.now.offset }
{
    if spot.forward {
        last.saturating_sub(spot.offset)
    } else {
        spot.offset
    }
}

impl FlowTable {
    /// How many iterations of a loop have begun, as far as it matters.
    pub(crate) fn class(&self, id: usize, count: usize) -> usize
        ensures { result ≡ class_of (keyed_of (table_of self.now)) id count }
    {
        let bounds = self.bounds(id);
        if bounds.most <= MOST_COUNTED {
            count
        } else {
            count.min(bounds.least)
        }
    }

    /// Whether the loops that are live at an address have these classes.
    pub(crate) fn have_classes(
        &self,
        at: usize,
        classes: &[usize],
        loops: &[LoopData<usize>],
    ) -> bool
        ensures { result ≡ true → HaveClasses (table_of self.now) at classes.now (map loop_of loops.now) }
    {
        let live = self.live(at);
        if classes.len() != live.len() {
            return false;
        }
        for k in 0..live.len() {
            if self.class(live[k], data_of(loops, live[k]).iters) != classes[k] {
                return false;
            }
        }
        true
    }

    /// Whether there is a loop of which more than two classes are told apart.
    pub(crate) fn has_many_classes(&self) -> bool {
        self.bounds
            .iter()
            .any(|bounds| bounds.most <= MOST_COUNTED || bounds.least > 1)
    }

    /// A number for a key and for the classes of the loops that are live at an address. Classes that follow one another give numbers
    /// that do, so that what is tried one after another lies side by side.
    pub(crate) fn hash(&self, key: usize, at: usize, loops: &[LoopData<usize>]) -> usize {
        let mut hash = key.wrapping_mul(SPREAD);
        for id in self.live(at) {
            let class = self.class(*id, data_of(loops, *id).iters);
            hash = hash.wrapping_mul(SPREAD).wrapping_add(class);
        }
        hash
    }

    /// The classes of the loops that are live at an address.
    pub(crate) fn classes(
        &self,
        alloc: Global,
        at: usize,
        loops: &[LoopData<usize>],
    ) -> Result<Vec<usize>, AllocError> {
        let mut classes = Vec::new(alloc);
        for id in self.live(at) {
            classes.push(self.class(*id, data_of(loops, *id).iters))?;
        }
        Ok(classes)
    }

    /// Whether a loop is fresh at an offset: its iteration that is under way has begun there and is past the least number, so that it may
    /// not end there.
    #[inline]
    fn is_fresh(&self, id: usize, counts: LoopData<usize>, offset: usize) -> bool
        ensures { result ≡ is_fresh (flow_of (table_of self.now)) id offset (loop_of counts) }
    {
        counts.iters > self.bounds(id).least && counts.entry == offset
    }

    /// Whether each of some loops is fresh at an offset.
    pub(crate) fn are_fresh(&self, ids: &[usize], loops: &[LoopData<usize>], offset: usize) -> bool
        ensures { result ≡ are_fresh (flow_of (table_of self.now)) offset ids.now (map loop_of loops.now) }
    {
        ids.iter()
            .all(|id| self.is_fresh(*id, data_of(loops, *id), offset))
    }

    /// How many of the loops that are live at a spot are fresh there.
    #[inline]
    pub(crate) fn count_fresh(&self, spot: &Spot, loops: &[LoopData<usize>]) -> usize {
        let mut count = 0_usize;
        for id in self.live(spot.at) {
            let is_fresh = self.is_fresh(*id, data_of(loops, *id), spot.offset);
            count = count.saturating_add(is_fresh as usize);
        }
        count
    }

    /// The loops that are live at a spot and fresh there. It errs where memory is refused.
    pub(crate) fn fresh(
        &self,
        alloc: Global,
        spot: &Spot,
        loops: &[LoopData<usize>],
    ) -> Result<Vec<usize>, AllocError> {
        let mut fresh = Vec::new(alloc);
        for id in self.live(spot.at) {
            if self.is_fresh(*id, data_of(loops, *id), spot.offset) {
                fresh.push(*id)?;
            }
        }
        Ok(fresh)
    }

    /// Whether the data of a loop show that no state with the same class may do more: the iteration that is under way has taken
    /// something or is not past the least number, if that is asked, and if the loop is not counted, more may begin than there is text.
    fn is_free(
        &self,
        id: usize,
        must_move: bool,
        counts: LoopData<usize>,
        spot: &Spot,
        last: usize,
    ) -> bool
        ensures moved { result ≡ true → must_move ≡ true → HasMoved (flow_of (table_of self.now)) last id (direction_of spot.now.forward) spot.now.offset (loop_of counts) }
        ensures room { result ≡ true → (keyed_of (table_of self.now)).counted id ≡ false
            → counts.iters + 1 + room last (direction_of spot.now.forward) spot.now.offset < (flow_of (table_of self.now)).most id }
    {
        let bounds = self.bounds(id);
        if must_move
            && counts.iters > bounds.least
            && !is_ahead(spot.forward, counts.entry, spot.offset)
        {
            return false;
        }
        let left = bounds.most.saturating_sub(room_left(last, spot));
        bounds.most <= MOST_COUNTED || (left > 1 && counts.iters < left - 1)
    }

    /// Whether all loops that are live at a spot show it, where some of them are fresh.
    pub(crate) fn are_free(
        &self,
        fresh: &[usize],
        loops: &[LoopData<usize>],
        spot: &Spot,
        last: usize,
    ) -> bool
        ensures moved { result ≡ true → (id : ℕ) → holds (live_at (table_of self.now) spot.now.at) id ≡ true → holds fresh.now id ≡ false
            → HasMoved (flow_of (table_of self.now)) last id (direction_of spot.now.forward) spot.now.offset (get_or (map loop_of loops.now) id (0, 0)) }
        ensures room { result ≡ true → (id : ℕ) → holds (live_at (table_of self.now) spot.now.at) id ≡ true
            → (keyed_of (table_of self.now)).counted id ≡ false → (get_or (map loop_of loops.now) id (0, 0)).0 + 1 + room last (direction_of spot.now.forward) spot.now.offset
            < (flow_of (table_of self.now)).most id }
    {
        let live = self.live(spot.at);
        for k in 0..live.len() {
            let id = live[k];
            if !self.is_free(id, !fresh.contains(&id), data_of(loops, id), spot, last) {
                return false;
            }
        }
        true
    }
}
