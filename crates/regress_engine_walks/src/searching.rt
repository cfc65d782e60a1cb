//! Searches of a linear program in a text by a table of answers.
ghost use Rattle.std.specs.Prelude.{◌≡◌, ◌-◌, ◌^◌, ◌<◌, ◌+◌, ◌≤◌, suc, IfOk, OnOk, length, map};
ghost use Rattle.regress_engine_code.specs.Standing.{program_of};
ghost use Rattle.regress_engine_input.specs.Views.{reading_of};
ghost use Rattle.regress_engine_runs.specs.Meets.{IsAtPlace};
ghost use Rattle.regress_engine_search.specs.Contexts.{IsAnswerIn, IsFoundIn};
ghost use Rattle.regress_engine_search.specs.StateViews.{marks_of};
ghost use Rattle.regress_engine_linear.specs.Linear.{IsLinear, too_long};
ghost use Rattle.regress_engine_linear.specs.LinearViews.{flow_in, heights_in};
ghost use Rattle.regress_engine_answers.specs.Filling.{fill_steps};
ghost use Rattle.regress_engine_walks.specs.Searched.{IsTold, StepsTo, from_start};

use crate::places::next_place;
use crate::walking::follow;
use regress_engine_advance::beside;
use regress_engine_answers::{Answering, Answers};
use regress_engine_linear::LinearTable;
use regress_engine_search::{ExecutorInput, SearchContext};
use regress_front_core::GroupData;
use std::alloc::{AllocError, Global};

/// A table that tells of a linear program and a text from where runs have answers: of each address and each offset.
#[derive(Debug)]
pub struct TextTable {
    /// What it tells.
    pub(crate) answers: Answers,
    /// As many groups as the program has, none of which took anything.
    pub(crate) blank: Vec<GroupData<usize>>,
}

// By hand, so that a caller's proof passes over one call where a table goes out of scope, and not over each of its rows.
impl Drop for TextTable {
    fn drop(self) {
        let TextTable {
            answers: _,
            blank: _,
        } = self;
    }
}

/// As many groups, none of which took anything. It errs where memory is refused.
fn blank_groups(alloc: Global, count: usize) -> Result<Vec<GroupData<usize>>, AllocError>
    ensures { IfOk result (λ groups. length groups.items ≡ count) }
{
    let mut groups = Vec::new(alloc);
    groups.resize(count, GroupData::new())?;
    Ok(groups)
}

impl TextTable {
    /// The table of a text. It counts at most two steps for each address at each offset. It errs where memory is refused: it takes a bit or two for
    /// each.
    ///
    /// Asks that the program is linear, as its table says, and that the text has no more units than there may be.
    ///
    /// ```rust
    /// let mut steps = 0;
    /// let told = TextTable::of(alloc, &table, &context, &mut steps)?;
    /// ```
    pub fn of<Input: ExecutorInput>(
        alloc: Global,
        table: &LinearTable,
        context: &SearchContext<'_, Input>,
        steps: &mut usize,
    ) -> Result<TextTable, AllocError>
        requires linear { IsLinear (flow_in table.now) (heights_in table.now) (program_of context.now.program.now) }
        requires short { suc (length (Input.view context.now.input).units) < too_long }
        ensures told { IfOk result (IsTold table.now (program_of context.now.program.now) (Input.view context.now.input)) }
        ensures counted { OnOk result (steps.new ≤ steps.old + fill_steps table.now (Input.view context.now.input)) }
    {
        let blank = blank_groups(alloc, context.program.groups() as usize)?;
        let answering = Answering {
            program: context.program,
            input: context.input,
            groups: &blank,
        };
        let answers = answering.answers(alloc, table, steps)?;
        Ok(TextTable { answers, blank })
    }

    /// The end of the run from an offset, whose groups it writes, where that run has an answer. It counts each instruction that is done. It
    /// errs where memory is refused.
    ///
    /// Asks that the offset is that of a place of the text, and that the table is that of the program and the text.
    ///
    /// ```rust
    /// let end = told.run_from(&table, &context, 0, &mut groups, &mut steps)?;
    /// ```
    pub fn run_from<Input: ExecutorInput>(
        &self,
        table: &LinearTable,
        context: &SearchContext<'_, Input>,
        start: usize,
        groups: &mut Vec<GroupData<usize>>,
        steps: &mut usize,
    ) -> Result<Option<usize>, AllocError>
        requires linear { IsLinear (flow_in table.now) (heights_in table.now) (program_of context.now.program.now) }
        requires short { suc (length (Input.view context.now.input).units) < too_long }
        requires told { IsTold table.now (program_of context.now.program.now) (Input.view context.now.input) self.now }
        requires place { IsAtPlace (reading_of (Input.view context.now.input)) start }
        ensures answer { IfOk result (λ found. IsAnswerIn Input.view context.now start found (map marks_of groups.new.items)) }
        ensures counted { IfOk result (λ found. StepsTo table.now (Input.view context.now.input) steps.old steps.new (from_start start found)) }
    {
        if !self.answers.are_told(0, start) {
            return Ok(None);
        }
        let answering = Answering {
            program: context.program,
            input: context.input,
            groups: &self.blank,
        };
        let end = follow(&answering, table, &self.answers, start, groups, steps)?;
        Ok(Some(end))
    }

    /// The first place from an offset on from which a run has an answer, and where that ends; its groups are written. It counts each
    /// instruction that is done. It errs where memory is refused.
    ///
    /// Asks that the offset is that of a place of the text, and that the table is that of the program and the text.
    ///
    /// ```rust
    /// let found = told.first_from(&table, &context, 0, &mut groups, &mut steps)?;
    /// ```
    pub fn first_from<Input: ExecutorInput>(
        &self,
        table: &LinearTable,
        context: &SearchContext<'_, Input>,
        offset: usize,
        groups: &mut Vec<GroupData<usize>>,
        steps: &mut usize,
    ) -> Result<Option<(usize, usize)>, AllocError>
        requires linear { IsLinear (flow_in table.now) (heights_in table.now) (program_of context.now.program.now) }
        requires short { suc (length (Input.view context.now.input).units) < too_long }
        requires told { IsTold table.now (program_of context.now.program.now) (Input.view context.now.input) self.now }
        requires place { IsAtPlace (reading_of (Input.view context.now.input)) offset }
        ensures found { IfOk result (λ found. IsFoundIn Input.view context.now offset found (map marks_of groups.new.items)) }
        ensures counted { IfOk result (StepsTo table.now (Input.view context.now.input) steps.old steps.new) }
    {
        let mut from = offset;
        'places: loop {
            let Some(start) = next_place(context, from) else {
                return Ok(None);
            };
            if let Some(end) = self.run_from(table, context, start, groups, steps)? {
                return Ok(Some((start, end)));
            }
            let Some((_, behind)) = beside(&context.input, true, start) else {
                return Ok(None);
            };
            from = behind;
        }
    }
}
