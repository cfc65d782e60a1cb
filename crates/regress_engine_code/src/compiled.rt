//! Programs as they are handed out.
ghost use Rattle.std.specs.Prelude.{◌≡◌, ◌<◌, length, map, option_copied, slice_get, slice_index_or, IfOk, IfErr, IfSome};
ghost use Rattle.std.specs.Arc.{arc_slice_items};
ghost use Rattle.regress_engine_insn.specs.ProgramViews.{bracket_ends, program_from, target_from};
ghost use Rattle.regress_engine_analysis.specs.Planned.{ArePlanned, AreTabled};
ghost use Rattle.regress_engine_analysis.specs.Shared.{facts_of, tables_of};
ghost use Rattle.regress_engine_analysis.specs.Submatches.{has_submatches};
ghost use Rattle.regress_engine_code.specs.Laid.{IsLaid};
ghost use Rattle.regress_engine_code.specs.Told.{AreToldAscii};

use crate::brackets::copies_of;
use regress_engine_analysis::{Known, Plan};
use regress_engine_insn::Insn;
use regress_engine_prefix::StartPredicate;
use regress_front_bytes::{AsciiBitmap, ByteBitmap};
use regress_front_core::{CaptureGroupName, Error, Flags};
use regress_front_nodes::BracketContents;
use regress_front_tables::Tables;
use std::alloc::{AllocError, Global};
use std::fmt;
use std::sync::ArcSlice;

/// A program, as `emit` or `emit_units` makes it of a tree. It shares the tables that the tree was made with, so it borrows nothing.
#[derive(Drop)]
pub struct CompiledRegex {
    pub(crate) insns: Vec<Insn>,
    pub(crate) brackets: Vec<BracketContents>,
    /// The characters of ASCII that each of them matches.
    pub(crate) ascii: Vec<AsciiBitmap>,
    pub(crate) start_pred: StartPredicate,
    pub(crate) loops: u32,
    pub(crate) groups: u32,
    pub(crate) group_names: ArcSlice<CaptureGroupName>,
    pub(crate) flags: Flags,
    pub(crate) tables: Tables,
    pub(crate) units: bool,
    /// What is known of each address.
    pub(crate) plan: Plan,
    pub(crate) ghost laid: { ∥ IsLaid (target_from (program_from insns.items brackets.items loops groups units) tables flags) start_pred ∥₁ },
    pub(crate) ghost planned: { ArePlanned (program_from insns.items brackets.items loops groups units) (facts_of plan) },
    pub(crate) ghost told: { AreToldAscii (map bracket_ends brackets.items) ascii.items },
    pub(crate) ghost tabled: { AreTabled (program_from insns.items brackets.items loops groups units) (facts_of plan) (tables_of plan) },
    pub(crate) ghost submatches: { plan.submatches ≡ has_submatches insns.items },
}

impl CompiledRegex {
    ghost use Rattle.regress_engine_analysis.specs.Planned.{known_of, firsts};
    ghost use Rattle.regress_front_nodes.specs.declared.node.BracketContents.{BracketContents};
    ghost use Rattle.regress_engine_code.specs.Standing.{IsCopyOf, cannot_begin_with, program_of};
    ghost use Rattle.regress_engine_code.specs.Told.{IsToldAscii};
    ghost use Rattle.regress_engine_analysis.specs.Ways.{way_before};

    /// The instructions. An address is an index into them, and the program begins at 0: `program.insns()[0]` is done first.
    pub fn insns(&self) -> &[Insn]
        ensures { result.now ≡ self.now.insns.items }
    {
        &self.insns
    }

    /// The brackets that instructions name by their index: `Bracket(2)` means `program.brackets()[2]`.
    pub fn brackets(&self) -> &[BracketContents]
        ensures { result.now ≡ self.now.brackets.items }
    {
        &self.brackets
    }

    /// The characters of ASCII that a bracket matches: `program.ascii_of(2)` are those of `program.brackets()[2]`.
    #[inline(always)]
    pub fn ascii_of(&self, index: usize) -> &AsciiBitmap
        requires { index < length self.now.brackets.items }
        ensures { (class : BracketContents) → class ≡ slice_index_or self.now.brackets.items index class → IsToldAscii class result.now }
    {
        &self.ascii[index]
    }

    /// Where a match may begin, told by the bytes there; in a program of units by bytes below 0x80 alone, which stand for the units
    /// of the same numbers. An executor looks for it by `Prefilter::new(program.start_pred())`.
    pub fn start_pred(&self) -> &StartPredicate
        ensures { result.now ≡ self.now.start_pred }
    {
        &self.start_pred
    }

    /// How many loops there are: `program.loops()` is 1 for `(?:ab)*`, and 0 for `a*`, which is a loop of one character.
    pub fn loops(&self) -> u32
        ensures { result ≡ self.now.loops }
    {
        self.loops
    }

    /// How many capture groups there are: `program.groups()` is 2 for `(a)(?<n>b)`.
    pub fn groups(&self) -> u32
        ensures { result ≡ self.now.groups }
    {
        self.groups
    }

    /// The name of each capture group by its number, empty where it has none: of `(a)(?<n>b)` the empty text and `n`.
    pub fn group_names(&self) -> &[CaptureGroupName]
        ensures { result.now ≡ arc_slice_items self.now.group_names }
    {
        self.group_names.as_slice()
    }

    /// The same names, to be held together with the program by what outlives it, as a match. It errs only where so many hold
    /// them that they can't be counted: `Match::new(range, captures, program.shared_group_names()?)`.
    pub fn shared_group_names(&self) -> Result<ArcSlice<CaptureGroupName>, AllocError>
        ensures { IfOk result (λ names. arc_slice_items names ≡ arc_slice_items self.now.group_names) }
    {
        self.group_names.clone()
    }

    /// The flags of the pattern: `program.flags().icase` where it was made with `i`.
    pub fn flags(&self) -> Flags
        ensures { result ≡ self.now.flags }
    {
        self.flags
    }

    /// The tables of case and properties, as an input takes them: `Utf8Input::new(text, unicode, program.tables())`.
    pub fn tables(&self) -> &Tables
        ensures { result.now ≡ self.now.tables }
    {
        &self.tables
    }

    /// Whether it reads 16-bit units, or else bytes: what `emit_units` makes does, and what `emit` makes does not.
    pub fn is_unit_program(&self) -> bool
        ensures { result ≡ self.now.units }
    {
        self.units
    }

    /// Whether no match can be reached from an address on, read forward, where the character ahead begins with a byte in UTF-8:
    /// each thing that is taken first from there on begins otherwise, as far as is told without going back to an earlier
    /// address. Of `ab|[c-é]` at address 0 that holds of the byte `x`, and not of `0xC3`, with which `é` begins.
    ///
    /// ```rust
    /// let nowhere = program.cannot_begin_with(0, b'x');
    /// ```
    #[inline(always)]
    pub fn cannot_begin_with(&self, at: usize, byte: u8) -> bool
        ensures { result ≡ cannot_begin_with self.now at byte }
    {
        self.plan.cannot_begin_with(at, byte)
    }

    /// The bytes of UTF-8 with which the character ahead begins where a match may be reached from an address on, read forward: each other
    /// byte is one of which `cannot_begin_with` tells that. `None` where there is no such address.
    ///
    /// ```rust
    /// let first = program.first_bytes(0);
    /// ```
    #[inline(always)]
    pub fn first_bytes(&self, at: usize) -> Option<&ByteBitmap>
        ensures { option_copied result ≡ slice_get (firsts (facts_of self.now.plan)) at }
    {
        self.plan.first_bytes(at)
    }

    /// What else is known of an address without running the program. Of `a*b` that is `Known::Possessive` at address 0.
    ///
    /// ```rust
    /// let known = program.known(0);
    /// ```
    #[inline(always)]
    pub fn known(&self, at: usize) -> Known
        ensures { result ≡ known_of (facts_of self.now.plan) at }
    {
        self.plan.known(at)
    }

    /// Where it goes on from an address, read forward, where a byte stands ahead: as long as of two ways one surely leads nowhere, by the
    /// other. Of `ab|cd` at address 0 it goes on where `cd` begins before the byte `c`.
    ///
    /// ```rust
    /// let way = program.way_from(0, b'x');
    /// ```
    #[inline(always)]
    pub fn way_from(&self, at: usize, byte: u8) -> usize
        ensures { result ≡ way_before (program_of self.now) (firsts (facts_of self.now.plan)) byte at }
    {
        self.plan.way_from(&self.insns, at, byte)
    }

    /// Whether it has lookarounds or atomic groups: `program.has_submatches()` is true for `a(?=b)`.
    pub fn has_submatches(&self) -> bool
        ensures { result ≡ has_submatches self.now.insns.items }
    {
        self.plan.has_submatches()
    }

    /// The same program once more. It errs with `OutOfMemory` alone.
    ///
    /// ```rust
    /// let copy = program.try_clone(alloc)?;
    /// ```
    pub fn try_clone(&self, alloc: Global) -> Result<CompiledRegex, Error>
        ensures copied { IfOk result (IsCopyOf self.now) }
        ensures refused { IfErr result (λ e. e ≡ Error.OutOfMemory) }
    {
        Ok(CompiledRegex {
            insns: self.insns.to_vec(alloc)?,
            brackets: copies_of(alloc, &self.brackets)?,
            ascii: self.ascii.to_vec(alloc)?,
            start_pred: self.start_pred.copy(alloc)?,
            loops: self.loops,
            groups: self.groups,
            group_names: self.group_names.clone()?,
            flags: self.flags,
            tables: self.tables.try_clone()?,
            units: self.units,
            plan: self.plan.try_clone(alloc)?,
        })
    }
}

/// Its flags, whether it reads units, and how large it is, but not its instructions nor its tables.
impl fmt::Debug for CompiledRegex {
    fn fmt<W: fmt::Write>(&self, f: &mut fmt::Formatter<W>) -> fmt::Result {
        f.debug_struct("CompiledRegex")
            .field("flags", &self.flags)
            .field("units", &self.units)
            .field("insns", &self.insns.len())
            .field("brackets", &self.brackets.len())
            .field("loops", &self.loops)
            .field("groups", &self.groups)
            .finish()
    }
}
