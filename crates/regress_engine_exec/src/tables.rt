//! The tables by which a search without a bound goes on after very many steps.
ghost use Rattle.std.specs.Prelude.{◌≡◌, Some, IfOk, IfSome, map};
ghost use Rattle.regress_engine_code.specs.Standing.{program_of};
ghost use Rattle.regress_engine_input.specs.Views.{reading_of};
ghost use Rattle.regress_engine_runs.specs.Meets.{IsAtPlace};
ghost use Rattle.regress_engine_search.specs.Contexts.{IsAnswerIn, IsFoundIn};
ghost use Rattle.regress_engine_search.specs.StateViews.{marks_of};
ghost use Rattle.regress_engine_exec.specs.Turned.{GoesOnBy};

use crate::turning::{MOST_TOLD, fits_told};
use regress_engine_insn::Insn;
use regress_engine_linear::{LinearTable, MOST_ADDRESSES};
use regress_engine_search::{ExecutorInput, SearchContext, StepsLeft};
use regress_engine_walks::TextTable;
use regress_front_core::GroupData;
use std::alloc::{AllocError, Global};

/// The table of a program that is linear, and that of a text.
#[derive(Debug, Drop)]
pub struct Tables {
    /// The program's.
    pub(crate) table: LinearTable,
    /// The text's.
    pub(crate) told: TextTable,
}

impl Tables {
    /// The tables of the program and the text of a search, if the program is linear and the text's takes no more than `MOST_TOLD` bits. It
    /// errs where memory is refused.
    pub(crate) fn of<Input: ExecutorInput>(
        alloc: Global,
        context: &SearchContext<'_, Input>,
    ) -> Result<Option<Tables>, AllocError>
        ensures { IfOk result (λ made. IfSome made (GoesOnBy (program_of context.now.program.now) (Input.view context.now.input))) }
    {
        let program = context.program;
        let Some(table) = LinearTable::of(alloc, program.insns(), program.loops() as usize)? else {
            return Ok(None);
        };
        if !fits_told(&table, context.text_len()) {
            return Ok(None);
        }
        let mut steps = 0;
        let told = TextTable::of(alloc, &table, context, &mut steps)?;
        Ok(Some(Tables { table, told }))
    }

    /// Searches from an offset on. It answers the offset from which the first run has an answer, and where that ends; the answer's groups
    /// are written. It errs where memory is refused.
    pub(crate) fn first_from<Input: ExecutorInput>(
        &self,
        context: &SearchContext<'_, Input>,
        groups: &mut Vec<GroupData<usize>>,
        offset: usize,
    ) -> Result<Option<(usize, usize)>, AllocError>
        requires tables { GoesOnBy (program_of context.now.program.now) (Input.view context.now.input) self.now }
        requires place { IsAtPlace (reading_of (Input.view context.now.input)) offset }
        ensures found { IfOk result (λ found. IsFoundIn Input.view context.now offset found (map marks_of groups.new.items)) }
    {
        let mut steps = 0;
        self.told
            .first_from(&self.table, context, offset, groups, &mut steps)
    }

    /// Runs the program from an offset. It answers where the run's answer ends, whose groups are written. It errs where memory is refused.
    pub(crate) fn run_from<Input: ExecutorInput>(
        &self,
        context: &SearchContext<'_, Input>,
        groups: &mut Vec<GroupData<usize>>,
        offset: usize,
    ) -> Result<Option<usize>, AllocError>
        requires tables { GoesOnBy (program_of context.now.program.now) (Input.view context.now.input) self.now }
        requires place { IsAtPlace (reading_of (Input.view context.now.input)) offset }
        ensures answer { IfOk result (λ end. IsAnswerIn Input.view context.now offset end (map marks_of groups.new.items)) }
    {
        let mut steps = 0;
        self.told
            .run_from(&self.table, context, offset, groups, &mut steps)
    }
}

/// Whether something is repeated inside of a lookaround or an atomic group, whose contents may then be run again and again at length.
fn repeats_inside(insns: &[Insn]) -> bool {
    let mut end = 0;
    for at in 0..insns.len() {
        match &insns[at] {
            Insn::Lookahead { continuation, .. }
            | Insn::Lookbehind { continuation, .. }
            | Insn::Atomic { continuation, .. } => end = end.max(*continuation as usize),
            Insn::EnterLoop(_) | Insn::Loop1CharBody { .. } if at < end => return true,
            _ => {}
        }
    }
    false
}

/// How many steps the searches in a text are counted before there are tables: one for each address of the program at each offset and at 64
/// more, about as many as it takes to make the text's, if the tables may fit and something is repeated inside of a lookaround or an atomic
/// group. Without that what is remembered of failures is enough, so that there is no need to count.
pub(crate) fn patience<Input: ExecutorInput>(context: &SearchContext<'_, Input>) -> StepsLeft {
    let program = context.program;
    if !program.has_submatches() || !repeats_inside(program.insns()) {
        return StepsLeft(0);
    }
    let count = program.insns().len();
    let units = context.text_len();
    let bits = count.saturating_mul(units.saturating_add(1));
    if count > MOST_ADDRESSES || bits > MOST_TOLD {
        return StepsLeft(0);
    }
    StepsLeft(count.saturating_mul(units.saturating_add(64)))
}
