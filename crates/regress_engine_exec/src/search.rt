//! The search for the first place from which a run has an answer.
ghost use Rattle.std.specs.Prelude.{◌≡◌, ◌≤◌, ◌+◌, ◌||◌, false, true, length, Some, option_copied, option_map, IfOk, IfErr, IfSome, OnErr};
ghost use Rattle.regress_match.specs.GroupViews.{names_of_match};
ghost use Rattle.regress_match.specs.Views.{item_of};
ghost use Rattle.regress_engine_code.specs.Standing.{names_of, program_of};
ghost use Rattle.regress_front_core.specs.FlagWords.{options};
ghost use Rattle.regress_meaning.specs.Flags.{is_unicode};
ghost use Rattle.regress_front_tables.specs.TableViews.{table};
ghost use Rattle.regress_engine_input.specs.Views.{reading_of, utf8};
ghost use Rattle.regress_engine_runs.specs.Meets.{IsAtPlace};
ghost use Rattle.regress_engine_search.specs.Contexts.{IsAnswerIn, IsFoundIn};
ghost use Rattle.regress_engine_search.specs.Search.{IsMadeOf, IsItemAtPlaces};
ghost use Rattle.regress_engine_attempt.specs.Attempts.{Remembers, world_of};
ghost use Rattle.regress_engine_exec.specs.Turned.{NeverOver, TellsLinear, TurnsTo, enough_by, ends, filled_by, may_turn};

use crate::budget::SearchBudget;
use crate::finding::{first_from, run_from};
use crate::scratch::Scratch;
use crate::tables::{Tables, patience};
use crate::turning::{Turning, turning_over};
use regress_engine_attempt::Remembered;
use regress_engine_code::CompiledRegex;
use regress_engine_inputs::Utf8Input;
use regress_engine_linear::LinearTable;
use regress_engine_search::{
    Ended, ExecutorInput, SearchContext, Shown, StepsLeft, Unbounded, fill_slots,
};
use regress_match::{Match, MatchProducer, Range};
use std::alloc::{AllocError, Global};

/// Finds the matches of a program in a text, and counts the steps of all its searches against a budget. It holds one state and one
/// stack of what is to be undone, its scratch, and what it remembers of failures; it keeps these from one search to the next, and no
/// call of it calls it again.
#[derive(Debug, Drop)]
pub struct Backtracker<'r, Input: Shown, B> {
    alloc: Global,
    pub(crate) context: SearchContext<'r, Input>,
    scratch: Scratch,
    remembered: Remembered,
    budget: B,
    turning: Option<Turning<'r>>,
    /// How many steps may still be counted before it has tables, if it is to have some.
    patience: StepsLeft,
    tables: Option<Tables>,
    ghost so: { ∥ Remembers (world_of context.program.now (Input.shown context.input)) remembered ∥₁ },
    ghost turns: { ∥ TurnsTo (program_of context.program.now) (Input.shown context.input) turning tables ∥₁ },
}

/// Finds the matches of a program in a text, however many steps that takes. If the program is linear and something is repeated inside of one of
/// its lookarounds or atomic groups, its searches go on by a table of the text once they took a step for each of its addresses at each offset
/// and at 64 more, so that their time grows as the text does.
pub type BacktrackExecutor<'r, Input> = Backtracker<'r, Input, Unbounded>;

/// Finds the matches of a program in a text, as `BacktrackExecutor` does, in so many steps for all its searches. A search that would
/// take more errs with `TooManySteps`: only where its runs take at least as many steps as were left, counted as below. Or it goes on by a
/// table, where the executor turns to one (`with_budget`).
///
/// A step does the instruction of one state, or drops the state, and one more is counted for each 64 units that a one-character loop
/// passes over. What looks for the next place where a match may begin is not counted.
pub type BoundedExecutor<'r, Input> = Backtracker<'r, Input, StepsLeft>;

impl<'r, Input: ExecutorInput> BacktrackExecutor<'r, Input> {
    /// The executor of a program over a text.
    ///
    /// Asks that the program is made for the text: of units over UTF-16 and UCS-2, else of bytes, with the text's tables and
    /// mode.
    ///
    /// ```rust
    /// let mut executor = BacktrackExecutor::with_input(alloc, &program, input);
    /// ```
    pub fn with_input(alloc: Global, program: &'r CompiledRegex, input: Input) -> Self
        requires made { IsMadeOf program.now (Input.view input) }
        ensures program { (⟦<BacktrackExecutor<'r, Input> as MatchProducer>⟧.search_of result).compiled ≡ program.entry.now }
        ensures text { (⟦<BacktrackExecutor<'r, Input> as MatchProducer>⟧.search_of result).view ≡ Input.view input }
    {
        BacktrackExecutor::with_scratch(alloc, program, input, Scratch::new(alloc))
    }

    /// The executor of a program over a text, as `with_input` makes it, with room that other searches have left.
    ///
    /// Asks that the program is made for the text: of units over UTF-16 and UCS-2, else of bytes, with the text's tables and
    /// mode.
    ///
    /// ```rust
    /// let mut executor = BacktrackExecutor::with_scratch(alloc, &program, input, scratch);
    /// ```
    pub fn with_scratch(
        alloc: Global,
        program: &'r CompiledRegex,
        input: Input,
        scratch: Scratch,
    ) -> Self
        requires made { IsMadeOf program.now (Input.view input) }
        ensures program { (⟦<BacktrackExecutor<'r, Input> as MatchProducer>⟧.search_of result).compiled ≡ program.entry.now }
        ensures text { (⟦<BacktrackExecutor<'r, Input> as MatchProducer>⟧.search_of result).view ≡ Input.view input }
    {
        Backtracker::with_budget(alloc, program, None, input, scratch, Unbounded)
    }
}

impl<'r, Input: ExecutorInput> BoundedExecutor<'r, Input> {
    ghost use Rattle.regress_engine_exec.specs.Searches.{steps_of};

    /// How many steps its searches may still take.
    ///
    /// ```rust
    /// let left = executor.steps_left();
    /// ```
    pub fn steps_left(&self) -> usize
        ensures { result ≡ steps_of self.now }
    {
        self.budget.0
    }
}

impl<'r, Input: ExecutorInput, B: SearchBudget> Backtracker<'r, Input, B> {
    ghost use Rattle.regress_engine_exec.specs.Searches.{FindsIn, HasOutcome, RunCounts, RunStops, SearchCounts, SearchStops, WritesFound, WritesOutcome, budget_of, groups_in, program_in, search_in, table_in, table_steps_of, tabled_in, turns_in, walked_in};

    /// The executor of a program over a text, with room that other searches have left, and a budget for all its searches. If it is given the
    /// table of its program and the budget has enough steps (`linear_steps`), the budget is lowered to these, and where no more may be counted
    /// its searches go on by a table of the text, at most a step for each of its bits, and none errs with `TooManySteps`.
    ///
    /// Asks that the program is made for the text: of units over UTF-16 and UCS-2, else of bytes, with the text's tables and
    /// mode; and that it is linear by its table, if one is given.
    ///
    /// ```rust
    /// let budget = StepsLeft(1_000_000);
    /// let mut executor = Backtracker::with_budget(alloc, &program, None, input, scratch, budget);
    /// ```
    pub fn with_budget(
        alloc: Global,
        program: &'r CompiledRegex,
        table: Option<&'r LinearTable>,
        input: Input,
        scratch: Scratch,
        budget: B,
    ) -> Self
        requires made { IsMadeOf program.now (Input.view input) }
        requires linear { TellsLinear (program_of program.now) (option_copied table) }
        ensures program { (search_in result).compiled ≡ program.entry.now }
        ensures text { (search_in result).view ≡ Input.view input }
        ensures turns { turns_in result ≡ may_turn (option_copied table.entry) (length (Input.view input).units) (B.left budget) }
        ensures budget { turns_in result ≡ false → budget_of result ≡ budget }
        ensures lowered { turns_in result ≡ true → B.left (budget_of result) ≡ enough_by (option_copied table.entry) (length (Input.view input).units) }
        ensures table { turns_in result ≡ true → table_in result ≡ option_copied table.entry }
        ensures tabled { tabled_in result ≡ filled_by (table_in result) (Input.view input) }
    {
        let context = SearchContext::new(program, input);
        let units = context.text_len();
        let remembered = Remembered::new(alloc, units);
        let mut budget = budget;
        let turning = turning_over(table, units, &mut budget);
        let patience = match budget.over() {
            Some(_) => StepsLeft(0),
            None => patience(&context),
        };
        Backtracker {
            alloc,
            context,
            scratch,
            remembered,
            budget,
            turning,
            patience,
            tables: None,
        }
    }

    /// The room that its searches leave to others.
    ///
    /// ```rust
    /// let scratch = executor.into_scratch();
    /// ```
    pub fn into_scratch(self) -> Scratch {
        self.scratch
    }

    /// How many steps its searches took by tables, of the program and of the text, to which they turn where no more may be counted against the
    /// budget: at most one for each address of the program at each offset of the text, to make the text's, one for each that a walk along a match
    /// passes, and from the start of the text one more for each. Of a whole iteration they are no more than the steps that are enough
    /// (`linear_steps`).
    ///
    /// ```rust
    /// let steps = executor.table_steps();
    /// ```
    pub fn table_steps(&self) -> usize
        ensures { result ≡ table_steps_of self.now }
    {
        match &self.turning {
            Some(turning) => turning.steps,
            None => 0,
        }
    }

    /// Whether it has turned to a table of the text.
    fn has_turned(&self) -> bool
        ensures { result ≡ true → turns_in self.now ≡ true }
    {
        match &self.turning {
            Some(turning) => turning.told.is_some(),
            None => false,
        }
    }

    /// The error of a search where no more steps may be counted.
    fn too_many_steps(&self) -> B::Error
        requires { B.left (budget_of self.now) ≡ Some 0 }
        ensures { B.is_over result }
    {
        match self.budget.over() {
            Some(error) => error,
            None => unreachable!(),
        }
    }

    /// Makes tables, if the program is linear, the text's fits, and memory is granted.
    fn make_tables(&mut self)
        ensures budget { budget_of self.new ≡ budget_of self.old }
        ensures kept { self.new.context ≡ self.old.context }
        ensures turns { turns_in self.new ≡ turns_in self.old }
        ensures table { table_in self.new ≡ table_in self.old }
        ensures tabled { tabled_in self.new ≡ tabled_in self.old }
    {
        self.tables = Tables::of(self.alloc, &self.context).unwrap_or(None);
    }

    /// Searches from an offset on by as many steps as there is patience for; where there is none any more, it makes tables and answers nothing.
    /// It is apart so that no other search makes room for it.
    #[inline(never)]
    fn search_counted(
        &mut self,
        offset: usize,
    ) -> Result<Option<Option<(usize, usize)>>, AllocError>
        requires { IsAtPlace (reading_of (Input.view self.old.context.input)) offset }
        ensures found { IfOk result (λ ended. IfSome ended (λ found. IsFoundIn Input.view self.old.context offset found (groups_in self.new))) }
        ensures budget { budget_of self.new ≡ budget_of self.old }
        ensures kept { self.new.context ≡ self.old.context }
        ensures turns { turns_in self.new ≡ turns_in self.old }
        ensures table { table_in self.new ≡ table_in self.old }
        ensures tabled { tabled_in self.new ≡ tabled_in self.old }
    {
        let ended = first_from(
            &self.context,
            &mut self.scratch,
            &mut self.remembered,
            &mut self.patience,
            offset,
        )?;
        if let Ended::With(found) = ended {
            return Ok(Some(found));
        }
        self.make_tables();
        Ok(None)
    }

    /// Searches from an offset on, as long as there is patience; else, and where there is none any more, nothing is answered.
    #[inline(always)]
    fn search_in_time(
        &mut self,
        offset: usize,
    ) -> Result<Option<Option<(usize, usize)>>, AllocError>
        requires { IsAtPlace (reading_of (Input.view self.old.context.input)) offset }
        ensures found { IfOk result (λ ended. IfSome ended (λ found. IsFoundIn Input.view self.old.context offset found (groups_in self.new))) }
        ensures budget { budget_of self.new ≡ budget_of self.old }
        ensures kept { self.new.context ≡ self.old.context }
        ensures turns { turns_in self.new ≡ turns_in self.old }
        ensures table { table_in self.new ≡ table_in self.old }
        ensures tabled { tabled_in self.new ≡ tabled_in self.old }
    {
        if self.patience.0 == 0 {
            return Ok(None);
        }
        self.search_counted(offset)
    }

    /// Runs the program from an offset, as long as there is patience; else, and where there is none any more, nothing is answered.
    fn run_in_time(&mut self, offset: usize) -> Result<Option<Option<usize>>, AllocError>
        requires { IsAtPlace (reading_of (Input.view self.old.context.input)) offset }
        ensures answer { IfOk result (λ ended. IfSome ended (λ end. IsAnswerIn Input.view self.old.context offset end (groups_in self.new))) }
        ensures budget { budget_of self.new ≡ budget_of self.old }
        ensures kept { self.new.context ≡ self.old.context }
        ensures turns { turns_in self.new ≡ turns_in self.old }
        ensures table { table_in self.new ≡ table_in self.old }
        ensures tabled { tabled_in self.new ≡ tabled_in self.old }
    {
        if self.patience.0 == 0 {
            return Ok(None);
        }
        let ended = run_from(
            &self.context,
            &mut self.scratch,
            &mut self.remembered,
            &mut self.patience,
            offset,
        )?;
        if let Ended::With(end) = ended {
            return Ok(Some(end));
        }
        self.make_tables();
        Ok(None)
    }

    /// Searches from an offset on by its tables, if it has some; else, and where memory is refused, nothing is answered.
    #[inline(always)]
    fn search_by_tables(&mut self, offset: usize) -> Option<Option<(usize, usize)>>
        requires { IsAtPlace (reading_of (Input.view self.old.context.input)) offset }
        ensures found { IfSome result (λ found. IsFoundIn Input.view self.old.context offset found (groups_in self.new)) }
        ensures budget { budget_of self.new ≡ budget_of self.old }
        ensures kept { self.new.context ≡ self.old.context }
        ensures turns { turns_in self.new ≡ turns_in self.old }
        ensures table { table_in self.new ≡ table_in self.old }
        ensures tabled { tabled_in self.new ≡ tabled_in self.old }
    {
        let Some(tables) = &self.tables else {
            return None;
        };
        let groups = &mut self.scratch.memory.groups;
        if let Ok(found) = tables.first_from(&self.context, groups, offset) {
            return Some(found);
        }
        self.tables = None;
        None
    }

    /// Runs the program from an offset by its tables, if it has some; else, and where memory is refused, nothing is answered.
    fn run_by_tables(&mut self, offset: usize) -> Option<Option<usize>>
        requires { IsAtPlace (reading_of (Input.view self.old.context.input)) offset }
        ensures answer { IfSome result (λ end. IsAnswerIn Input.view self.old.context offset end (groups_in self.new)) }
        ensures budget { budget_of self.new ≡ budget_of self.old }
        ensures kept { self.new.context ≡ self.old.context }
        ensures turns { turns_in self.new ≡ turns_in self.old }
        ensures table { table_in self.new ≡ table_in self.old }
        ensures tabled { tabled_in self.new ≡ tabled_in self.old }
    {
        let Some(tables) = &self.tables else {
            return None;
        };
        let groups = &mut self.scratch.memory.groups;
        if let Ok(end) = tables.run_from(&self.context, groups, offset) {
            return Some(end);
        }
        self.tables = None;
        None
    }

    /// Searches from an offset on by tables, if it turns to them; else no more steps may be counted, and it errs since there would be too
    /// many. It answers as `search` does.
    fn search_told(&mut self, offset: usize) -> Result<Option<(usize, usize)>, B::Error>
        requires place { IsAtPlace (reading_of (Input.view self.old.context.input)) offset }
        requires over { turns_in self.old ≡ false → B.left (budget_of self.old) ≡ Some 0 }
        ensures found { IfOk result (λ found. IsFoundIn Input.view self.old.context offset found (groups_in self.new)) }
        ensures never { IfErr result (NeverOver B.is_over (turns_in self.old)) }
        ensures budget { budget_of self.new ≡ budget_of self.old }
        ensures kept { self.new.context ≡ self.old.context }
        ensures turns { turns_in self.new ≡ turns_in self.old }
        ensures table { table_in self.new ≡ table_in self.old }
        ensures tabled { IfOk result (λ found. tabled_in self.new ≤ tabled_in self.old + walked_in self.old found) }
    {
        let Some(turning) = &mut self.turning else {
            return Err(self.too_many_steps());
        };
        let found = turning.first_from(
            self.alloc,
            &self.context,
            &mut self.scratch.memory.groups,
            offset,
        )?;
        Ok(found)
    }

    /// Runs the program from an offset by tables, if it turns to them, as `search_told` searches. It answers as `run_at` does.
    fn run_told(&mut self, offset: usize) -> Result<Option<usize>, B::Error>
        requires place { IsAtPlace (reading_of (Input.view self.old.context.input)) offset }
        requires over { turns_in self.old ≡ false → B.left (budget_of self.old) ≡ Some 0 }
        ensures answer { IfOk result (λ end. IsAnswerIn Input.view self.old.context offset end (groups_in self.new)) }
        ensures never { IfErr result (NeverOver B.is_over (turns_in self.old)) }
        ensures budget { budget_of self.new ≡ budget_of self.old }
        ensures kept { self.new.context ≡ self.old.context }
        ensures turns { turns_in self.new ≡ turns_in self.old }
    {
        let Some(turning) = &mut self.turning else {
            return Err(self.too_many_steps());
        };
        let end = turning.run_from(
            self.alloc,
            &self.context,
            &mut self.scratch.memory.groups,
            offset,
        )?;
        Ok(end)
    }

    /// Searches from an offset on. It answers the offset from which the first run has an answer, and where that ends; the answer's
    /// groups are then held.
    fn search(&mut self, offset: usize) -> Result<Option<(usize, usize)>, B::Error>
        requires { IsAtPlace (reading_of (Input.view self.old.context.input)) offset }
        ensures found { IfOk result (λ found. IsFoundIn Input.view self.old.context offset found (groups_in self.new)) }
        ensures counted { IfOk result (λ _. SearchCounts Input.view B.left offset self.old self.new) }
        ensures stopped { IfErr result (λ e. B.is_over e → SearchStops Input.view B.left offset self.old self.new) }
        ensures never { IfErr result (NeverOver B.is_over (turns_in self.old)) }
        ensures kept { self.new.context ≡ self.old.context }
        ensures turns { turns_in self.new ≡ turns_in self.old }
        ensures table { table_in self.new ≡ table_in self.old }
        ensures tabled { IfOk result (λ found. tabled_in self.new ≤ tabled_in self.old + walked_in self.old found) }
    {
        if let Some(found) = self.search_in_time(offset)? {
            return Ok(found);
        }
        if let Some(found) = self.search_by_tables(offset) {
            return Ok(found);
        }
        if self.has_turned() {
            return self.search_told(offset);
        }
        let ended = first_from(
            &self.context,
            &mut self.scratch,
            &mut self.remembered,
            &mut self.budget,
            offset,
        )?;
        match ended {
            Ended::With(found) => Ok(found),
            Ended::TooManySteps => self.search_told(offset),
        }
    }

    /// Runs the program from an offset. It answers where the run's answer ends, whose groups are then held.
    fn run_at(&mut self, offset: usize) -> Result<Option<usize>, B::Error>
        requires { IsAtPlace (reading_of (Input.view self.old.context.input)) offset }
        ensures answer { IfOk result (λ end. IsAnswerIn Input.view self.old.context offset end (groups_in self.new)) }
        ensures counted { IfOk result (λ _. RunCounts Input.view B.left offset self.old self.new) }
        ensures stopped { IfErr result (λ e. B.is_over e → RunStops Input.view B.left offset self.old self.new) }
        ensures never { IfErr result (NeverOver B.is_over (turns_in self.old)) }
        ensures kept { self.new.context ≡ self.old.context }
        ensures turns { turns_in self.new ≡ turns_in self.old }
    {
        if let Some(end) = self.run_in_time(offset)? {
            return Ok(end);
        }
        if let Some(end) = self.run_by_tables(offset) {
            return Ok(end);
        }
        if self.has_turned() {
            return self.run_told(offset);
        }
        let ended = run_from(
            &self.context,
            &mut self.scratch,
            &mut self.remembered,
            &mut self.budget,
            offset,
        )?;
        match ended {
            Ended::With(end) => Ok(end),
            Ended::TooManySteps => self.run_told(offset),
        }
    }

    /// The match at the least place from an offset on: that of the program's run from there, begun at the first instruction
    /// with nothing set ("RegExpBuiltinExec"). `None` where no run from there on has an answer. It errs where memory is
    /// refused alone, and may then be asked again.
    ///
    /// Asks that the offset is that of a place of the text.
    ///
    /// ```rust
    /// let found = executor.find_from(0)?;
    /// ```
    pub fn find_from(&mut self, offset: usize) -> Result<Option<Match>, B::Error>
        requires { IsAtPlace (reading_of (Input.view self.old.context.input)) offset }
        ensures found { IfOk result (λ found. FindsIn Input.view self.old offset (option_map item_of found)) }
        ensures inside { IfOk result (λ found. IfSome found (λ m. IsItemAtPlaces (reading_of (Input.view self.old.context.input)) (item_of m))) }
        ensures named { IfOk result (λ found. IfSome found (λ m. names_of_match m ≡ names_of self.old.context.program.now)) }
        ensures counted { IfOk result (λ _. SearchCounts Input.view B.left offset self.old self.new) }
        ensures stopped { IfErr result (λ e. B.is_over e → SearchStops Input.view B.left offset self.old self.new) }
        ensures never { IfErr result (NeverOver B.is_over (turns_in self.old)) }
        ensures kept { self.new.context ≡ self.old.context }
        ensures turns { turns_in self.new ≡ turns_in self.old }
        ensures table { table_in self.new ≡ table_in self.old }
        ensures tabled { IfOk result (λ found. tabled_in self.new ≤ tabled_in self.old + walked_in self.old (option_map (λ m. ends (item_of m)) found)) }
    {
        let Some((start, end)) = self.search(offset)? else {
            return Ok(None);
        };
        let found = self
            .context
            .match_of(self.alloc, start..end, &self.scratch.memory.groups)?;
        Ok(Some(found))
    }

    /// Finds what `find_from` does, and writes it to `slots`: the range of the match, then that of each group, as many as there is
    /// room for, and behind the last group `None`. It answers the range of the match; where there is none it answers `None`, and
    /// the slots stay as they were, as they do where memory is refused. Only the scratch may grow, what is remembered of failures
    /// once runs have gone back often, and the tables that are made after very many steps: it asks for no other memory.
    ///
    /// Asks that the offset is that of a place of the text.
    ///
    /// ```rust
    /// let mut slots = [None, None];
    /// let range = executor.find_into(0, &mut slots)?;
    /// ```
    pub fn find_into(
        &mut self,
        offset: usize,
        slots: &mut [Option<Range>],
    ) -> Result<Option<Range>, B::Error>
        requires { IsAtPlace (reading_of (Input.view self.old.context.input)) offset }
        ensures found { IfOk result (λ found. WritesFound Input.view self.old offset found slots.old slots.new) }
        ensures untouched { OnErr result (slots.new ≡ slots.old) }
        ensures counted { IfOk result (λ _. SearchCounts Input.view B.left offset self.old self.new) }
        ensures stopped { IfErr result (λ e. B.is_over e → SearchStops Input.view B.left offset self.old self.new) }
        ensures never { IfErr result (NeverOver B.is_over (turns_in self.old)) }
        ensures kept { self.new.context ≡ self.old.context }
        ensures turns { turns_in self.new ≡ turns_in self.old }
    {
        let Some((start, end)) = self.search(offset)? else {
            return Ok(None);
        };
        fill_slots(start..end, &self.scratch.memory.groups, slots);
        Ok(Some(start..end))
    }

    /// The match that begins at an offset: that of the program's run from there, begun at the first instruction with nothing
    /// set, as a sticky search asks ("RegExpBuiltinExec"). `None` where that run has no answer; no other place is looked at. It
    /// errs where memory is refused alone, and may then be asked again.
    ///
    /// Asks that the offset is that of a place of the text.
    ///
    /// ```rust
    /// let found = executor.match_at(3)?;
    /// ```
    pub fn match_at(&mut self, offset: usize) -> Result<Option<Match>, B::Error>
        requires { IsAtPlace (reading_of (Input.view self.old.context.input)) offset }
        ensures outcome { IfOk result (λ found. HasOutcome Input.view self.old offset (option_map item_of found)) }
        ensures inside { IfOk result (λ found. IfSome found (λ m. IsItemAtPlaces (reading_of (Input.view self.old.context.input)) (item_of m))) }
        ensures named { IfOk result (λ found. IfSome found (λ m. names_of_match m ≡ names_of self.old.context.program.now)) }
        ensures counted { IfOk result (λ _. RunCounts Input.view B.left offset self.old self.new) }
        ensures stopped { IfErr result (λ e. B.is_over e → RunStops Input.view B.left offset self.old self.new) }
        ensures never { IfErr result (NeverOver B.is_over (turns_in self.old)) }
        ensures kept { self.new.context ≡ self.old.context }
        ensures turns { turns_in self.new ≡ turns_in self.old }
    {
        let Some(end) = self.run_at(offset)? else {
            return Ok(None);
        };
        let found = self
            .context
            .match_of(self.alloc, offset..end, &self.scratch.memory.groups)?;
        Ok(Some(found))
    }

    /// Finds what `match_at` does, and writes it to `slots` as `find_into` does.
    ///
    /// Asks that the offset is that of a place of the text.
    ///
    /// ```rust
    /// let mut slots = [None, None];
    /// let range = executor.match_into(3, &mut slots)?;
    /// ```
    pub fn match_into(
        &mut self,
        offset: usize,
        slots: &mut [Option<Range>],
    ) -> Result<Option<Range>, B::Error>
        requires { IsAtPlace (reading_of (Input.view self.old.context.input)) offset }
        ensures outcome { IfOk result (λ found. WritesOutcome Input.view self.old offset found slots.old slots.new) }
        ensures untouched { OnErr result (slots.new ≡ slots.old) }
        ensures counted { IfOk result (λ _. RunCounts Input.view B.left offset self.old self.new) }
        ensures stopped { IfErr result (λ e. B.is_over e → RunStops Input.view B.left offset self.old self.new) }
        ensures never { IfErr result (NeverOver B.is_over (turns_in self.old)) }
        ensures kept { self.new.context ≡ self.old.context }
        ensures turns { turns_in self.new ≡ turns_in self.old }
    {
        let Some(end) = self.run_at(offset)? else {
            return Ok(None);
        };
        fill_slots(offset..end, &self.scratch.memory.groups, slots);
        Ok(Some(offset..end))
    }
}

impl<'r, 't> BacktrackExecutor<'r, Utf8Input<'r, 't>> {
    /// The executor of a program over a text of UTF-8, with the program's tables and mode.
    ///
    /// Asks that the program is one of bytes.
    ///
    /// ```rust
    /// let mut executor = BacktrackExecutor::new(alloc, &program, "aab");
    /// ```
    pub fn new(alloc: Global, program: &'r CompiledRegex, text: &'t str) -> Self
        requires bytes { program.now.units ≡ false }
        ensures program { (⟦<BacktrackExecutor<'r, Utf8Input<'r, 't>> as MatchProducer>⟧.search_of result).compiled ≡ program.entry.now }
        ensures text { (⟦<BacktrackExecutor<'r, Utf8Input<'r, 't>> as MatchProducer>⟧.search_of result).view ≡ record { kind = utf8; units = text.now; table = table program.entry.now.tables; unicode = is_unicode (options program.entry.now.flags) } }
    {
        let unicode = program.flags().is_unicode();
        let input = Utf8Input::new(text, unicode, program.tables());
        BacktrackExecutor::with_input(alloc, program, input)
    }
}
