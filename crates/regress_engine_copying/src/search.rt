//! The search for the first place from which a run has an answer.
ghost use Rattle.std.specs.Prelude.{◌≡◌, option_map, IfOk, IfSome};
ghost use Rattle.regress_match.specs.GroupViews.{names_of_match};
ghost use Rattle.regress_match.specs.Views.{item_of};
ghost use Rattle.regress_engine_code.specs.Standing.{names_of, program_of};
ghost use Rattle.regress_engine_input.specs.Views.{input_of, reading_of};
ghost use Rattle.regress_engine_runs.specs.Items.{Finds};
ghost use Rattle.regress_engine_runs.specs.Meets.{IsAtPlace};
ghost use Rattle.regress_engine_search.specs.Answering.{IsFound, IsOutcome};
ghost use Rattle.regress_engine_search.specs.Search.{IsMadeOf, IsItemAtPlaces};
ghost use Rattle.regress_engine_copying.specs.StateOf.{groups_of};

use crate::attempt::Attempt;
use crate::stack::Stack;
use crate::state::State;
use regress_engine_advance::any;
use regress_engine_code::CompiledRegex;
use regress_engine_search::{ExecutorInput, SearchContext, Shown};
use regress_match::{Match, MatchProducer};
use std::alloc::{AllocError, Global};

/// Finds the matches of a program in a text. It holds a stack of whole states, each with loops and groups of its own, and no call
/// of it calls it again.
#[derive(Debug, Drop)]
pub struct PikeVMExecutor<'r, Input: Shown> {
    alloc: Global,
    pub(crate) context: SearchContext<'r, Input>,
    stack: Stack,
    ends: Vec<usize>,
}

impl<'r, Input: ExecutorInput> PikeVMExecutor<'r, Input> {
    /// The executor of a program over a text.
    ///
    /// Asks that the program is made for the text: of units over UTF-16 and UCS-2, else of bytes, with the text's tables and
    /// mode.
    ///
    /// ```rust
    /// let mut executor = PikeVMExecutor::with_input(alloc, &program, input);
    /// ```
    pub fn with_input(alloc: Global, program: &'r CompiledRegex, input: Input) -> Self
        requires made { IsMadeOf program.now (Input.view input) }
        ensures program { (⟦<PikeVMExecutor<'r, Input> as MatchProducer>⟧.search_of result).compiled ≡ program.entry.now }
        ensures text { (⟦<PikeVMExecutor<'r, Input> as MatchProducer>⟧.search_of result).view ≡ Input.view input }
    {
        PikeVMExecutor {
            alloc,
            context: SearchContext::new(program, input),
            stack: Stack::new(alloc),
            ends: Vec::new(alloc),
        }
    }

    /// Searches from an offset on, where the text goes on as the program's start predicate says. It answers the offset from
    /// which the first run has an answer, and the state that is the answer.
    fn search(&mut self, offset: usize) -> Result<Option<(usize, State)>, AllocError>
        requires { IsAtPlace (reading_of (Input.view self.old.context.input)) offset }
        ensures found { IfOk result (λ found. IsFound (program_of self.old.context.program.now) (input_of (Input.view self.old.context.input)) offset (option_map (λ x. (x.0, x.1.offset)) found) (groups_of (option_map (λ x. x.1) found))) }
        ensures kept { self.new.context ≡ self.old.context }
    {
        let context = &self.context;
        let mut from = offset;
        'places: loop {
            let Some(start) = context.next_start(from) else {
                return Ok(None);
            };
            let attempt = Attempt {
                program: context.program,
                input: context.input,
                start,
            };
            if let Some(found) = attempt.run(self.alloc, &mut self.stack, &mut self.ends)? {
                return Ok(Some((start, found)));
            }
            let Some(behind) = any(&attempt.input, true, start) else {
                return Ok(None);
            };
            from = behind;
        }
    }

    /// The match at the least place from an offset on: that of the program's run from there, begun at the first instruction
    /// with nothing set ("RegExpBuiltinExec"). `None` where no run from there on has an answer. It errs where memory is
    /// refused alone, and may then be asked again.
    ///
    /// Asks that the offset is that of a place of the text.
    ///
    /// ```rust
    /// let found = executor.find_from(0)?;
    /// ```
    pub fn find_from(&mut self, offset: usize) -> Result<Option<Match>, AllocError>
        requires { IsAtPlace (reading_of (Input.view self.old.context.input)) offset }
        ensures found { IfOk result (λ found. Finds (program_of self.old.context.program.now) (input_of (Input.view self.old.context.input)) offset (option_map item_of found)) }
        ensures inside { IfOk result (λ found. IfSome found (λ m. IsItemAtPlaces (reading_of (Input.view self.old.context.input)) (item_of m))) }
        ensures named { IfOk result (λ found. IfSome found (λ m. names_of_match m ≡ names_of self.old.context.program.now)) }
        ensures kept { self.new.context ≡ self.old.context }
    {
        let Some((start, state)) = self.search(offset)? else {
            return Ok(None);
        };
        let range = start..state.offset;
        let found = self.context.match_of(self.alloc, range, &state.groups)?;
        Ok(Some(found))
    }

    /// The match that begins at an offset: that of the program's run from there, begun at the first instruction with nothing
    /// set, as a sticky search asks ("RegExpBuiltinExec"). `None` where that run has no answer; no other place is looked at. It
    /// errs where memory is refused alone, and may then be asked again.
    ///
    /// Asks that the offset is that of a place of the text.
    ///
    /// ```rust
    /// let found = executor.match_at(3)?;
    /// ```
    pub fn match_at(&mut self, offset: usize) -> Result<Option<Match>, AllocError>
        requires { IsAtPlace (reading_of (Input.view self.old.context.input)) offset }
        ensures outcome { IfOk result (λ found. IsOutcome (program_of self.old.context.program.now) (input_of (Input.view self.old.context.input)) offset (option_map item_of found)) }
        ensures inside { IfOk result (λ found. IfSome found (λ m. IsItemAtPlaces (reading_of (Input.view self.old.context.input)) (item_of m))) }
        ensures named { IfOk result (λ found. IfSome found (λ m. names_of_match m ≡ names_of self.old.context.program.now)) }
        ensures kept { self.new.context ≡ self.old.context }
    {
        let attempt = Attempt {
            program: self.context.program,
            input: self.context.input,
            start: offset,
        };
        let Some(state) = attempt.run(self.alloc, &mut self.stack, &mut self.ends)? else {
            return Ok(None);
        };
        let range = offset..state.offset;
        let found = self.context.match_of(self.alloc, range, &state.groups)?;
        Ok(Some(found))
    }
}
