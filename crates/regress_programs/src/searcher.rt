//! Many searches of one text, one after another, over a scratch that is kept.
ghost use Rattle.std.specs.Prelude.{◌≡◌, ℕ, IfOk, OnErr, option_map, slice_get};
ghost use Rattle.regress_meaning.specs.Table.{Table};
ghost use Rattle.regress_meaning.specs.Pattern.{Pattern};
ghost use Rattle.regress_meaning.specs.Flags.{Options};
ghost use Rattle.regress_meaning.specs.Matches.{match_list};
ghost use Rattle.regress_meaning.specs.Offsets.{Begins, told};
ghost use Rattle.regress_front.specs.Trees.{Tree};
ghost use Rattle.regress_match.specs.Slots.{Fills};
ghost use Rattle.regress_engine_code.specs.Standing.{target_of};
ghost use Rattle.regress_engine_input.specs.Views.{ucs2, utf8, utf16};
ghost use Rattle.regress_engine_search.specs.Search.{IsMadeOf};
ghost use Rattle.regress_programs.specs.Made.{IsMadeOf-prop};

use crate::compiled::Compiled;
use crate::slots::{Anchored, next_into};
use regress_engine_exec::{BacktrackExecutor, Scratch};
use regress_engine_inputs::{Ucs2Input, Utf8Input, Utf16Input};
use regress_engine_search::{ExecutorInput, Shown};
use regress_match::Range;
use std::alloc::{AllocError, Global};

/// Searches one text for the matches of a compiled pattern, as often as is asked.
#[derive(Debug, Drop)]
pub struct Searcher<'r, Input: Shown> {
    executor: BacktrackExecutor<'r, Input>,
    ghost made: { IsMadeOf executor.context.program.now (Input.shown executor.context.input) } by { IsMadeOf-prop executor.context.program.now (Input.shown executor.context.input) },
}

impl<'r, Input: ExecutorInput> Searcher<'r, Input> {
    ghost use Rattle.regress_programs.specs.Filling.{SlotsAreAtPlaces};
    ghost use Rattle.regress_programs.specs.Programs.{items_of_tree};
    ghost use Rattle.regress_programs.specs.Searchers.{SearchesByTree, SearchesFor, program_by, reading_by, view_by};

    /// The first match from `start` on, written to `slots` as `Regex::find_into` writes it ("RegExpBuiltinExec"): slot 0 gets the range
    /// of the match, slot i that of group i, as many as there is room for, and a slot behind the last group gets `None`. `start` and
    /// ranges are in bytes of a text, and in units of 16-bit units. It answers the range of the match, or `None` where there is none;
    /// then the slots stay as they were.
    ///
    /// Asks that a search may begin at `start`, as `is_start` and `is_unit_start` tell. Past the end there is none. Errs where
    /// memory is refused alone, and then the slots stay as they were; it may be asked again.
    ///
    /// ```rust
    /// let mut searcher = Searcher::over_utf8(alloc, &compiled, Scratch::new(alloc), "xaab");
    /// let mut slots = [None, None];
    /// let range = searcher.find_into(0, &mut slots)?; // for `(a+)b` 1..4, and `slots[1]` is `Some(1..3)`
    /// ```
    pub fn find_into(
        &mut self,
        start: usize,
        slots: &mut [Option<Range>],
    ) -> Result<Option<Range>, AllocError>
        requires { (place : ℕ) × Begins (reading_by self.old) start place }
        ensures found { (t : Table) → (o : Options) → (p : Pattern) → SearchesFor self.old t o p →
            (place : ℕ) → Begins (reading_by self.old) start place →
            IfOk result (λ found. Fills (option_map (told (reading_by self.old)) (slice_get (match_list t o p (reading_by self.old).points place) 0)) found slots.old slots.new) }
        ensures found_of_tree { (n : ℕ) → (t : Tree) → SearchesByTree self.old n t →
            (place : ℕ) → Begins (reading_by self.old) start place →
            IfOk result (λ found. Fills (option_map (told (reading_by self.old)) (slice_get (items_of_tree (target_of (program_by self.old)) n t (reading_by self.old).points place) 0)) found slots.old slots.new) }
        ensures inside { IfOk result (λ found. SlotsAreAtPlaces (reading_by self.old) found slots.new) }
        ensures untouched { OnErr result (slots.new ≡ slots.old) }
        ensures kept { (program_by self.new ≡ program_by self.old) × (view_by self.new ≡ view_by self.old) }
    {
        next_into(&mut self.executor, Anchored::No, start, slots)
    }

    /// The room that its searches leave to others.
    ///
    /// ```rust
    /// let searcher = Searcher::over_utf8(alloc, &compiled, Scratch::new(alloc), "xaab");
    /// let scratch = searcher.into_scratch();
    /// ```
    pub fn into_scratch(self) -> Scratch {
        self.executor.into_scratch()
    }
}

impl<'r, 't> Searcher<'r, Utf8Input<'r, 't>> {
    ghost use Rattle.regress_programs.specs.Searchers.{IsSearcherOf};

    /// A searcher of a text: many searches of one text are quicker so. Offsets are in bytes. What they need room for is the scratch, which
    /// `into_scratch` gives back.
    ///
    /// ```rust
    /// let mut searcher = Searcher::over_utf8(alloc, &compiled, Scratch::new(alloc), "xaab");
    /// ```
    pub fn over_utf8(alloc: Global, compiled: &'r Compiled, scratch: Scratch, text: &'t str) -> Self
        ensures { IsSearcherOf compiled.now.byte_program utf8 text.now result }
    {
        let program = &compiled.byte_program;
        let input = Utf8Input::new(text, program.flags().is_unicode(), program.tables());
        let executor = BacktrackExecutor::with_scratch(alloc, program, input, scratch);
        Searcher { executor }
    }
}

impl<'r, 't> Searcher<'r, Utf16Input<'r, 't>> {
    ghost use Rattle.regress_programs.specs.Searchers.{IsSearcherOf};

    /// A searcher of units of UTF-16, where a high one before a low one is one character. Offsets are in units. What its searches need room
    /// for is the scratch, which `into_scratch` gives back.
    ///
    /// ```rust
    /// let mut searcher = Searcher::over_utf16(alloc, &compiled, Scratch::new(alloc), &[0xD83D, 0xDE00]);
    /// ```
    pub fn over_utf16(
        alloc: Global,
        compiled: &'r Compiled,
        scratch: Scratch,
        units: &'t [u16],
    ) -> Self
        ensures { IsSearcherOf compiled.now.unit_program utf16 units.now result }
    {
        let program = &compiled.unit_program;
        let input = Utf16Input::new(units, program.flags().is_unicode(), program.tables());
        let executor = BacktrackExecutor::with_scratch(alloc, program, input, scratch);
        Searcher { executor }
    }
}

impl<'r, 't> Searcher<'r, Ucs2Input<'r, 't>> {
    ghost use Rattle.regress_programs.specs.Searchers.{IsSearcherOf};

    /// A searcher of 16-bit units that are each one character. Offsets are in units. What its searches need room for is the scratch, which
    /// `into_scratch` gives back.
    ///
    /// ```rust
    /// let mut searcher = Searcher::over_ucs2(alloc, &compiled, Scratch::new(alloc), &[0xD83D, 0xDE00]);
    /// ```
    pub fn over_ucs2(
        alloc: Global,
        compiled: &'r Compiled,
        scratch: Scratch,
        units: &'t [u16],
    ) -> Self
        ensures { IsSearcherOf compiled.now.unit_program ucs2 units.now result }
    {
        let program = &compiled.unit_program;
        let input = Ucs2Input::new(units, program.flags().is_unicode(), program.tables());
        let executor = BacktrackExecutor::with_scratch(alloc, program, input, scratch);
        Searcher { executor }
    }
}
