//! What is known of the addresses of a program.
ghost use Rattle.std.specs.Prelude.{◌≡◌, ℕ, IfOk, not, option_copied, slice_get};
ghost use Rattle.regress_engine_insn.specs.ProgramViews.{program_from};
ghost use Rattle.regress_engine_analysis.specs.Submatches.{has_submatches};

use crate::facts::Known;
use crate::first_bytes::first_bytes_by_address;
use crate::shared::SharedFacts;
use crate::shortcuts::add_known;
use crate::submatches::has_submatches;
use crate::ways::{Ways, add_ways, way_ahead};
use regress_engine_insn::Insn;
use regress_front_bytes::ByteBitmap;
use regress_front_nodes::BracketContents;
use std::alloc::{AllocError, Global};

/// What is known of a program without running it.
#[derive(Debug, Drop)]
pub struct Plan {
    /// Of each address.
    facts: SharedFacts,
    /// Where it goes on from several ways, for the addresses that have such a table.
    ways: Vec<Ways>,
    /// Whether there are lookarounds or atomic groups.
    submatches: bool,
}

impl Plan {
    ghost use Rattle.regress_engine_analysis.specs.MayBegin.{may_begin_with};
    ghost use Rattle.regress_engine_analysis.specs.Planned.{ArePlanned, AreTabled, IsWayFrom, firsts, known_of};
    ghost use Rattle.regress_engine_analysis.specs.Shared.{facts_of, tables_of};

    /// The plan of a program: of its instructions and brackets, and whether it reads 16-bit units. It errs only where memory is
    /// refused.
    ///
    /// ```rust
    /// let plan = Plan::new(alloc, program.insns(), program.brackets(), false)?;
    /// ```
    pub fn new(
        alloc: Global,
        insns: &[Insn],
        brackets: &[BracketContents],
        units: bool,
    ) -> Result<Plan, AllocError>
        ensures planned { (loops groups : ℕ) → IfOk result (λ plan. ArePlanned (program_from insns.now brackets.now loops groups units) (facts_of plan)) }
        ensures tabled { (loops groups : ℕ) → IfOk result (λ plan.
            AreTabled (program_from insns.now brackets.now loops groups units) (facts_of plan) (tables_of plan)) }
        ensures submatches { IfOk result (λ plan. plan.submatches ≡ has_submatches insns.now) }
    {
        let mut facts = first_bytes_by_address(alloc, insns, brackets)?;
        for at in 0..insns.len() {
            add_known(insns, &mut facts, at)?;
        }
        let ways = add_ways(alloc, insns, &mut facts)?;
        Ok(Plan {
            facts,
            ways,
            submatches: has_submatches(insns),
        })
    }

    /// The bytes with which a match from an address on may begin, read forward; `None` where there is no such address.
    ///
    /// ```rust
    /// let first = plan.first_bytes(0);
    /// ```
    #[inline(always)]
    pub fn first_bytes(&self, at: usize) -> Option<&ByteBitmap>
        ensures { option_copied result ≡ slice_get (firsts (facts_of self.now)) at }
    {
        if at < self.facts.len() {
            Some(&self.facts.at(at).first)
        } else {
            None
        }
    }

    /// Whether no match can be reached from an address on where a byte stands ahead, read forward.
    ///
    /// ```rust
    /// let nowhere = plan.cannot_begin_with(0, b'x');
    /// ```
    #[inline(always)]
    pub fn cannot_begin_with(&self, at: usize, byte: u8) -> bool
        ensures { result ≡ not (may_begin_with (firsts (facts_of self.now)) at byte) }
    {
        at < self.facts.len() && !self.facts.at(at).first.contains(byte)
    }

    /// What is known of an address besides its first bytes.
    ///
    /// ```rust
    /// let known = plan.known(0);
    /// ```
    #[inline(always)]
    pub fn known(&self, at: usize) -> Known
        ensures { result ≡ known_of (facts_of self.now) at }
    {
        if at < self.facts.len() {
            self.facts.at(at).known
        } else {
            Known::Nothing
        }
    }

    /// Where it goes on from an address, read forward, where a byte stands ahead: as long as of two ways one surely leads nowhere, by the
    /// other. It is told by a table, where the address has one. The instructions are those that the plan was made of.
    ///
    /// ```rust
    /// let way = plan.way_from(&insns, 0, b'x');
    /// ```
    #[inline(always)]
    pub fn way_from(&self, insns: &[Insn], at: usize, byte: u8) -> usize
        ensures { IsWayFrom insns.now (facts_of self.now) (tables_of self.now) byte at result }
    {
        if let Known::Ways(number) = self.known(at) {
            if byte < 0x80 && (number as usize) < self.ways.len() {
                return self.ways[number as usize].0[usize::from(byte)] as usize;
            }
        }
        way_ahead(insns, &self.facts, at, byte)
    }

    /// Whether the program has lookarounds or atomic groups.
    ///
    /// ```rust
    /// let looks_around = plan.has_submatches();
    /// ```
    pub fn has_submatches(&self) -> bool
        ensures { result ≡ self.now.submatches }
    {
        self.submatches
    }

    /// The same plan once more. It errs only where memory is refused.
    ///
    /// ```rust
    /// let copy = plan.try_clone(alloc)?;
    /// ```
    pub fn try_clone(&self, alloc: Global) -> Result<Plan, AllocError>
        ensures facts { IfOk result (λ plan. facts_of plan ≡ facts_of self.now) }
        ensures tables { IfOk result (λ plan. tables_of plan ≡ tables_of self.now) }
        ensures submatches { IfOk result (λ plan. plan.submatches ≡ self.now.submatches) }
    {
        Ok(Plan {
            facts: self.facts.try_clone(alloc)?,
            ways: self.ways.to_vec(alloc)?,
            submatches: self.submatches,
        })
    }
}
