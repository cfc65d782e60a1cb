//! What searches turn to where no more steps may be counted.
ghost use Rattle.std.specs.Prelude.{◌≡◌, ◌≤◌, true, false, Some, None, IfOk, OnOk, IfSome, is_some, map, option_copied};
ghost use Rattle.regress_engine_code.specs.Standing.{program_of};
ghost use Rattle.regress_engine_input.specs.Views.{reading_of};
ghost use Rattle.regress_engine_runs.specs.Meets.{IsAtPlace};
ghost use Rattle.regress_engine_search.specs.Contexts.{IsAnswerIn, IsFoundIn};
ghost use Rattle.regress_engine_search.specs.StateViews.{marks_of};
ghost use Rattle.regress_engine_walks.specs.Searched.{from_start};
ghost use Rattle.regress_engine_exec.specs.Turned.{CountsTold, Turns, enough_by, fits_told, linear_steps, may_turn, told_steps};

use crate::budget::SearchBudget;
use regress_engine_linear::LinearTable;
use regress_engine_search::{ExecutorInput, SearchContext};
use regress_engine_walks::TextTable;
use regress_front_core::GroupData;
use std::alloc::{AllocError, Global};

/// What is told of the offsets of a text takes at most so many bits: 64 MB.
pub const MOST_TOLD: usize = 1 << 29;

/// While that is made where runs end is kept for each address inside of an atomic group at each offset: so many at most, of 16 bytes each, and
/// as many for the exits of one-character loops.
pub const MOST_KEPT: usize = 1 << 23;

/// So many steps for each address of a program, at each offset of a text and at 64 more, are enough for all searches for the matches of a
/// linear program.
pub const LINEAR_STEPS: usize = 4;

/// Whether what is told of a text of so many units takes no more, a bit for each address of a program at each offset, and what is kept meanwhile
/// does not.
pub(crate) fn fits_told(table: &LinearTable, units: usize) -> bool
    ensures { result ≡ fits_told table.now units }
{
    units < MOST_TOLD
        && (table.count().saturating_mul(units + 1) <= MOST_TOLD
            && table.inside().saturating_mul(units + 1) <= MOST_KEPT)
}

/// How many steps are enough for all searches for the matches of a linear program in a text of so many units: an executor with so many or
/// more turns to tables after them. `None` where what is told of the text would take more than `MOST_TOLD` bits, or what is kept meanwhile more than
/// `MOST_KEPT` offsets.
///
/// ```rust
/// let steps = linear_steps(&table, text.len());
/// ```
pub fn linear_steps(table: &LinearTable, units: usize) -> Option<usize>
    ensures { result ≡ linear_steps table.now units }
{
    if !fits_told(table, units) {
        return None;
    }
    Some(LINEAR_STEPS * (table.count() * (units + 64)))
}

/// The table of a program that is linear, and that of a text, where it was made.
#[derive(Debug, Drop)]
pub struct Turning<'r> {
    /// The program's.
    pub(crate) table: &'r LinearTable,
    /// The text's.
    pub(crate) told: Option<TextTable>,
    /// How many steps it took to make that, and to search by it.
    pub(crate) steps: usize,
}

/// What searches in a text of so many units turn to, if they are given the table of their program and the budget has enough steps, to which
/// it is lowered; else they turn to nothing, and the budget stays as it was.
pub(crate) fn turning_over<'r, B: SearchBudget>(
    table: Option<&'r LinearTable>,
    units: usize,
    budget: &mut B,
) -> Option<Turning<'r>>
    ensures turns { is_some result ≡ may_turn (option_copied table.entry) units (B.left budget.old) }
    ensures kept { is_some result ≡ false → budget.new ≡ budget.old }
    ensures lowered { is_some result ≡ true → B.left budget.new ≡ enough_by (option_copied table.entry) units }
    ensures table { IfSome result (λ t. (option_copied table.entry ≡ Some t.table.now) × (fits_told t.table.now units ≡ true)) }
    ensures untold { IfSome result (λ t. (t.told ≡ None) × (t.steps ≡ 0)) }
{
    let table = table?;
    let steps = linear_steps(table, units)?;
    budget.lower(steps).then_some(Turning {
        table,
        told: None,
        steps: 0,
    })
}

impl<'r> Turning<'r> {
    /// Makes the table of the text, where it is not there yet. It counts its steps, and errs where memory is refused.
    fn tell<Input: ExecutorInput>(
        &mut self,
        alloc: Global,
        context: &SearchContext<'_, Input>,
    ) -> Result<(), AllocError>
        requires turns { Turns (program_of context.now.program.now) (Input.view context.now.input) self.old }
        ensures told { OnOk result (is_some self.new.told ≡ true) }
        ensures turns { Turns (program_of context.now.program.now) (Input.view context.now.input) self.new }
        ensures table { self.new.table.now ≡ self.old.table.now }
        ensures counted { OnOk result (told_steps (Input.view context.now.input) self.new ≤ told_steps (Input.view context.now.input) self.old) }
    {
        if self.told.is_none() {
            let told = TextTable::of(alloc, self.table, context, &mut self.steps)?;
            self.told = Some(told);
        }
        Ok(())
    }

    /// Searches from an offset on by the table of the text, which is made and kept where it is not there yet. It answers the offset from
    /// which the first run has an answer, and where that ends; the answer's groups are written. It errs where memory is refused.
    pub(crate) fn first_from<Input: ExecutorInput>(
        &mut self,
        alloc: Global,
        context: &SearchContext<'_, Input>,
        groups: &mut Vec<GroupData<usize>>,
        offset: usize,
    ) -> Result<Option<(usize, usize)>, AllocError>
        requires turns { Turns (program_of context.now.program.now) (Input.view context.now.input) self.old }
        requires place { IsAtPlace (reading_of (Input.view context.now.input)) offset }
        ensures found { IfOk result (λ found. IsFoundIn Input.view context.now offset found (map marks_of groups.new.items)) }
        ensures turns { Turns (program_of context.now.program.now) (Input.view context.now.input) self.new }
        ensures table { self.new.table.now ≡ self.old.table.now }
        ensures counted { IfOk result (CountsTold (Input.view context.now.input) self.old self.new) }
    {
        self.tell(alloc, context)?;
        match &self.told {
            Some(told) => told.first_from(self.table, context, offset, groups, &mut self.steps),
            None => unreachable!(),
        }
    }

    /// Runs the program from an offset by the table of the text, which is made and kept where it is not there yet. It answers where the
    /// run's answer ends, whose groups are written. It errs where memory is refused.
    pub(crate) fn run_from<Input: ExecutorInput>(
        &mut self,
        alloc: Global,
        context: &SearchContext<'_, Input>,
        groups: &mut Vec<GroupData<usize>>,
        offset: usize,
    ) -> Result<Option<usize>, AllocError>
        requires turns { Turns (program_of context.now.program.now) (Input.view context.now.input) self.old }
        requires place { IsAtPlace (reading_of (Input.view context.now.input)) offset }
        ensures answer { IfOk result (λ end. IsAnswerIn Input.view context.now offset end (map marks_of groups.new.items)) }
        ensures turns { Turns (program_of context.now.program.now) (Input.view context.now.input) self.new }
        ensures table { self.new.table.now ≡ self.old.table.now }
        ensures counted { IfOk result (λ end. CountsTold (Input.view context.now.input) self.old self.new (from_start offset end)) }
    {
        self.tell(alloc, context)?;
        match &self.told {
            Some(told) => told.run_from(self.table, context, offset, groups, &mut self.steps),
            None => unreachable!(),
        }
    }
}
