//! What is known to fail: a set of bits for each address that is remembered of.
ghost use Rattle.std.specs.Prelude.{◌≡◌, ◌<◌, ℕ, true, IfOk, IfSome, OnOk, Some, length, map, slice_get};
ghost use Rattle.regress_meaning.specs.Inputs.{Input};
ghost use Rattle.regress_engine_insn.specs.Instructions.{Program};
ghost use Rattle.regress_engine_search.specs.StateViews.{loop_of};
ghost use Rattle.regress_engine_memory.specs.BitViews.{has};
ghost use Rattle.regress_engine_memory.specs.Held.{ExitsFailWith, FailsHere, FailsIfFree, FailsWith};
ghost use Rattle.regress_engine_memory.specs.Needs.{need};
ghost use Rattle.regress_engine_memory.specs.Planes.{AreKnown, FailsIn, IsPlaneOf};
ghost use Rattle.regress_engine_memory.specs.Remembered.{keyed_of};
ghost use Rattle.regress_engine_memory.specs.TableViews.{needs_of, table_of};

use crate::bits::Bits;
use crate::flow::FlowTable;
use regress_engine_undo::Spot;
use regress_front_core::LoopData;
use std::alloc::{AllocError, Global};

/// At most so many planes of a bucket are looked at, those that were made last.
const MOST_TRIED: usize = 1024;

/// How many blocks a plane takes beside those of its bits.
const PLANE_ROOM: usize = 4;

/// The planes are sorted into so many buckets.
const BUCKETS: usize = 1 << 18;

/// An address, read in a direction, with the classes of the loops that are live there, and the offsets at which it fails.
#[derive(Debug, Drop)]
pub struct Plane {
    pub(crate) at: usize,
    pub(crate) forward: bool,
    /// Whether it also fails behind however many further iterations of the instruction before the address.
    pub(crate) further: bool,
    pub(crate) classes: Vec<usize>,
    /// The loops that are fresh at each of its offsets.
    pub(crate) fresh: Vec<usize>,
    pub(crate) offsets: Bits,
    /// The next plane of the same bucket.
    pub(crate) next: Option<usize>,
}

/// What is known to fail in one text, of one program. It takes no more than so many blocks of 256 bits, some of them for each plane;
/// past that, or where memory is refused, nothing more is learned.
#[derive(Debug, Drop)]
pub struct Failures {
    pub(crate) alloc: Global,
    pub(crate) table: FlowTable,
    /// Whether an address may have more than a few classes.
    has_many_classes: bool,
    pub(crate) planes: Vec<Plane>,
    /// The first plane of each bucket.
    pub(crate) heads: Vec<Option<usize>>,
    /// How many blocks may still be taken.
    pub(crate) room: usize,
}

impl Failures {
    /// Nothing is known yet, of a program with this table. So many blocks may be taken.
    ///
    /// ```rust
    /// let mut failures = Failures::new(alloc, table, 1 << 16);
    /// ```
    pub fn new(alloc: Global, table: FlowTable, room: usize) -> Failures
        ensures table { result.table ≡ table }
        ensures known { (program : Program) → (input : Input) → AreKnown program input result }
    {
        let has_many_classes = table.has_many_classes();
        Failures {
            alloc,
            table,
            has_many_classes,
            planes: Vec::new(alloc),
            heads: Vec::new(alloc),
            room,
        }
    }

    /// How many units a run takes from an address on, at least.
    ///
    /// ```rust
    /// let units = failures.need(0);
    /// ```
    #[inline]
    pub fn need(&self, at: usize) -> usize
        ensures { result ≡ need (needs_of self.now.table) at }
    {
        self.table.need(at)
    }

    /// The bucket in which the plane of a spot and of the loops that are held is kept.
    fn bucket(&self, spot: &Spot, further: bool, loops: &[LoopData<usize>]) -> usize {
        let kind = 2 * spot.forward as usize + further as usize;
        let key = spot.at.wrapping_mul(4).wrapping_add(kind);
        if self.has_many_classes {
            self.table.hash(key, spot.at, loops) % BUCKETS
        } else {
            key % BUCKETS
        }
    }

    /// The first plane of a bucket.
    fn head(&self, bucket: usize) -> Option<usize> {
        if bucket < self.heads.len() {
            self.heads[bucket]
        } else {
            None
        }
    }

    /// Whether a plane is that of a spot and of the loops that are held, of it alone or of all further iterations too.
    fn is_plane(&self, plane: &Plane, spot: &Spot, further: bool, loops: &[LoopData<usize>]) -> bool
        ensures { result ≡ true → IsPlaneOf (table_of self.now.table) spot.now further (map loop_of loops.now) plane.now }
    {
        plane.at == spot.at
            && plane.forward == spot.forward
            && plane.further == further
            && self.table.are_fresh(&plane.fresh, loops, spot.offset)
            && self.table.have_classes(spot.at, &plane.classes, loops)
    }

    /// The plane of a spot and of the loops that are held, if there is one, of it alone or of all further iterations too; it tells so many
    /// of them to be fresh.
    fn find(
        &self,
        spot: &Spot,
        further: bool,
        fresh: usize,
        loops: &[LoopData<usize>],
    ) -> Option<usize>
        ensures { IfSome result (λ k. (p : Plane) × (slice_get self.now.planes.items k ≡ Some p)
            × IsPlaneOf (table_of self.now.table) spot.now further (map loop_of loops.now) p × (length p.fresh.items ≡ fresh)) }
    {
        let bucket = self.bucket(spot, further, loops);
        let mut next = self.head(bucket);
        for _ in 0..self.planes.len().min(MOST_TRIED) {
            let k = next?;
            if k >= self.planes.len() {
                return None;
            }
            let plane = &self.planes[k];
            if plane.at == spot.at
                && plane.fresh.as_slice().len() == fresh
                && self.is_plane(plane, spot, further, loops)
            {
                return Some(k);
            }
            next = plane.next;
        }
        None
    }

    /// Whether it is known that no run from a spot has an answer, whatever groups are held, and whatever loops that have the classes
    /// of these.
    ///
    /// ```rust
    /// let known = failures.is_known(&spot, loops);
    /// ```
    pub fn is_known(&self, spot: &Spot, loops: &[LoopData<usize>]) -> bool
        ensures { result ≡ true → (program : Program) → (input : Input) → AreKnown program input self.now
            → FailsWith program input (keyed_of (table_of self.now.table)) spot.now (map loop_of loops.now) }
    {
        match self.find(spot, false, 0, loops) {
            Some(k) => self.has(k, spot.offset),
            None => false,
        }
    }

    /// Whether it is known that no run from a spot has an answer, whatever groups are held, and whatever loops that have the classes
    /// of these and are as fresh.
    ///
    /// ```rust
    /// let known = failures.is_known_here(&spot, loops);
    /// ```
    pub fn is_known_here(&self, spot: &Spot, loops: &[LoopData<usize>]) -> bool
        ensures { result ≡ true → (program : Program) → (input : Input) → AreKnown program input self.now
            → FailsHere program input (keyed_of (table_of self.now.table)) spot.now (map loop_of loops.now) }
    {
        if self.table.count_fresh(spot, loops) == 0 {
            return self.is_known(spot, loops);
        }
        let bucket = self.bucket(spot, false, loops);
        let mut next = self.head(bucket);
        for _ in 0..self.planes.len().min(MOST_TRIED) {
            let Some(k) = next else {
                return false;
            };
            if k >= self.planes.len() {
                return false;
            }
            let plane = &self.planes[k];
            if plane.at == spot.at
                && plane.offsets.contains(spot.offset)
                && self.is_plane(plane, spot, false, loops)
            {
                return true;
            }
            next = plane.next;
        }
        false
    }

    /// Whether it is known that no run from a spot has an answer, nor behind however many further iterations of the instruction
    /// before its address.
    ///
    /// ```rust
    /// let known = failures.are_exits_known(&spot, loops);
    /// ```
    pub fn are_exits_known(&self, spot: &Spot, loops: &[LoopData<usize>]) -> bool
        ensures { result ≡ true → (program : Program) → (input : Input) → AreKnown program input self.now
            → ExitsFailWith program input (keyed_of (table_of self.now.table)) spot.now (map loop_of loops.now) }
    {
        match self.find(spot, true, 0, loops) {
            Some(k) => self.has(k, spot.offset),
            None => false,
        }
    }

    /// Whether the bit of a plane and an offset is set.
    fn has(&self, k: usize, offset: usize) -> bool
        ensures { (p : Plane) → slice_get self.now.planes.items k ≡ Some p → result ≡ has p.offsets offset }
    {
        k < self.planes.len() && self.planes[k].offsets.contains(offset)
    }

    /// Makes room for the first plane of a bucket. It errs where memory is refused; nothing else changes.
    fn make_head(&mut self, bucket: usize) -> Result<(), AllocError>
        ensures table { self.new.table ≡ self.old.table }
        ensures planes { self.new.planes.items ≡ self.old.planes.items }
        ensures room { OnOk result (bucket < length self.new.heads.items) }
    {
        while self.heads.len() <= bucket {
            self.heads.push(None)?;
        }
        Ok(())
    }

    /// So many of the loops that are live at a spot and fresh there: all of them, or none. It errs where memory is refused.
    fn fresh(
        &self,
        spot: &Spot,
        fresh: usize,
        loops: &[LoopData<usize>],
    ) -> Result<Vec<usize>, AllocError> {
        if fresh == 0 {
            return Ok(Vec::new(self.alloc));
        }
        self.table.fresh(self.alloc, spot, loops)
    }

    /// One more plane, of a spot and of the loops that are held, of which no bit is set. It errs where memory is refused.
    fn add(
        &mut self,
        spot: &Spot,
        further: bool,
        fresh: usize,
        loops: &[LoopData<usize>],
    ) -> Result<Option<usize>, AllocError>
        ensures table { self.new.table ≡ self.old.table }
        ensures known { (program : Program) → (input : Input) → AreKnown program input self.old → AreKnown program input self.new }
        ensures plane { IfOk result (λ found. IfSome found (λ k. (p : Plane) × (slice_get self.new.planes.items k ≡ Some p)
            × IsPlaneOf (table_of self.new.table) spot.now further (map loop_of loops.now) p)) }
    {
        let classes = self.table.classes(self.alloc, spot.at, loops)?;
        let those = self.fresh(spot, fresh, loops)?;
        if those.len() != fresh
            || !self.table.are_fresh(&those, loops, spot.offset)
            || !self.table.have_classes(spot.at, &classes, loops)
        {
            return Ok(None);
        }
        let bucket = self.bucket(spot, further, loops);
        self.make_head(bucket)?;
        let k = self.planes.as_slice().len();
        let next = self.heads[bucket];
        self.planes.push(Plane {
            at: spot.at,
            forward: spot.forward,
            further,
            classes,
            fresh: those,
            offsets: Bits::new(self.alloc),
            next,
        })?;
        self.heads[bucket] = Some(k);
        Ok(Some(k))
    }

    /// The plane of a spot and of the loops that are held, a new one where there is none; `None` where there is no room for one, or
    /// memory is refused.
    fn plane_of(
        &mut self,
        spot: &Spot,
        further: bool,
        fresh: usize,
        loops: &[LoopData<usize>],
    ) -> Option<usize>
        ensures table { self.new.table ≡ self.old.table }
        ensures known { (program : Program) → (input : Input) → AreKnown program input self.old → AreKnown program input self.new }
        ensures plane { IfSome result (λ k. (p : Plane) × (slice_get self.new.planes.items k ≡ Some p)
            × IsPlaneOf (table_of self.new.table) spot.now further (map loop_of loops.now) p) }
    {
        if let Some(k) = self.find(spot, further, fresh, loops) {
            return Some(k);
        }
        if self.room < PLANE_ROOM {
            return None;
        }
        self.room -= PLANE_ROOM;
        match self.add(spot, further, fresh, loops) {
            Ok(k) => k,
            Err(_) => {
                self.room = 0;
                None
            }
        }
    }

    /// Sets the bit of a plane and an offset, if there is room.
    fn mark(&mut self, k: usize, offset: usize)
        ensures table { self.new.table ≡ self.old.table }
        ensures known { (program : Program) → (input : Input) → AreKnown program input self.old
            → ((p : Plane) → slice_get self.old.planes.items k ≡ Some p → FailsIn program input (table_of self.old.table) p offset)
            → AreKnown program input self.new }
    {
        if k >= self.planes.len() {
            return;
        }
        let more = self.planes[k].offsets.missing(offset);
        if more > self.room {
            self.room = 0;
            return;
        }
        match self.planes[k].offsets.insert(offset) {
            Ok(()) => self.room -= more,
            Err(_) => self.room = 0,
        }
    }

    /// Learns that no run from a spot has an answer, if the loops that are held show that no state with their classes may do more.
    /// The text has so many units.
    ///
    /// ```rust
    /// failures.learn(&spot, loops, 1000);
    /// ```
    pub fn learn(&mut self, spot: &Spot, loops: &[LoopData<usize>], last: usize)
        ensures table { self.new.table ≡ self.old.table }
        ensures known { (program : Program) → (input : Input) → AreKnown program input self.old
            → FailsIfFree program input (keyed_of (table_of self.old.table)) last spot.now (map loop_of loops.now) → AreKnown program input self.new }
    {
        if !self.table.is_calm(spot.at) {
            return;
        }
        let fresh = self.table.count_fresh(spot, loops);
        let Some(k) = self.plane_of(spot, false, fresh, loops) else {
            return;
        };
        if k >= self.planes.len() {
            return;
        }
        if self
            .table
            .are_free(&self.planes[k].fresh, loops, spot, last)
        {
            self.mark(k, spot.offset);
        }
    }

    /// Learns that no run from a spot has an answer, nor behind however many further iterations of the instruction before its
    /// address.
    ///
    /// ```rust
    /// failures.learn_exits(&spot, loops);
    /// ```
    pub fn learn_exits(&mut self, spot: &Spot, loops: &[LoopData<usize>])
        ensures table { self.new.table ≡ self.old.table }
        ensures known { (program : Program) → (input : Input) → AreKnown program input self.old
            → ExitsFailWith program input (keyed_of (table_of self.old.table)) spot.now (map loop_of loops.now) → AreKnown program input self.new }
    {
        if let Some(k) = self.plane_of(spot, true, 0, loops) {
            self.mark(k, spot.offset);
        }
    }
}
