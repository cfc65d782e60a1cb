//! What a search is of: a program, and a text.
ghost use Rattle.std.specs.Prelude.{◌≡◌, length, option_map, IfOk};
ghost use Rattle.regress_meaning.specs.Meaning.{Forward};
ghost use Rattle.regress_match.specs.GroupViews.{names_of_match};
ghost use Rattle.regress_match.specs.Views.{item_of};
ghost use Rattle.regress_engine_input.specs.Views.{CanRead, input_of, reading_of};
ghost use Rattle.regress_engine_code.specs.Standing.{names_of, program_of};
ghost use Rattle.regress_engine_runs.specs.Items.{goes_on};
ghost use Rattle.regress_engine_runs.specs.Meets.{IsAtPlace};
ghost use Rattle.regress_engine_search.specs.Search.{IsSearchable, IsMadeOf, IsItemAtPlaces};
ghost use Rattle.regress_engine_search.specs.Prefiltering.{IsNextHit};
ghost use Rattle.regress_engine_search.specs.Skipping.{IsNextStart, MaySkip};
ghost use Rattle.regress_engine_search.specs.SearchProps.{IsSearchable-prop, MaySkip-prop};
ghost use Rattle.regress_engine_search.specs.StateViews.{item_with};

use crate::captured::captures;
use crate::prefilter::Prefilter;
use crate::shown::{ExecutorInput, Shown};
use regress_engine_code::CompiledRegex;
use regress_engine_input::{InputIndexer, PositionType};
use regress_front_core::GroupData;
use regress_match::{Match, Range};
use std::alloc::{AllocError, Global};

/// A program, and a text that may be searched with it.
#[derive(Debug, Drop)]
pub struct SearchContext<'r, Input: Shown> {
    pub program: &'r CompiledRegex,
    pub input: Input,
    pub prefilter: Prefilter<'r>,
    pub ghost searchable: { IsSearchable (program_of program.now) (Input.shown input) } by { IsSearchable-prop (program_of program.now) (Input.shown input) },
    pub ghost skips: { MaySkip (program_of program.now) prefilter.start.now (Input.shown input) } by { MaySkip-prop (program_of program.now) prefilter.start.now (Input.shown input) },
}

impl<'r, Input: ExecutorInput> SearchContext<'r, Input> {
    /// A program, and a text that is searched with it.
    ///
    /// Asks that the program is made for the text: of units over UTF-16 and UCS-2, else of bytes, with the text's tables and
    /// mode.
    ///
    /// ```rust
    /// let context = SearchContext::new(&program, input);
    /// ```
    pub fn new(program: &'r CompiledRegex, input: Input) -> Self
        requires { IsMadeOf program.now (Input.view input) }
        ensures program { result.program ≡ program.entry }
        ensures input { result.input ≡ input }
    {
        SearchContext {
            program,
            input,
            prefilter: Prefilter::new(program.start_pred()),
        }
    }

    /// How many units the text has.
    ///
    /// ```rust
    /// let end = context.text_len();
    /// ```
    pub fn text_len(&self) -> usize
        ensures { result ≡ length (Input.view self.now.input).units }
    {
        self.input.pos_to_offset(self.input.right_end())
    }

    /// The least offset from one on at which the text goes on as the start predicate says: at no place before it has a run of
    /// the program an answer, so that a search goes on there. `None` where there is none, and no match.
    ///
    /// Asks that the offset is that of a place of the text.
    ///
    /// ```rust
    /// let start = context.next_start(0);
    /// ```
    pub fn next_start(&self, offset: usize) -> Option<usize>
        requires { IsAtPlace (reading_of (Input.view self.now.input)) offset }
        ensures hit { IsNextHit self.now.prefilter.start.now (Input.view self.now.input).units offset result }
        ensures start { IsNextStart (program_of self.now.program.now) (Input.view self.now.input) offset result }
    {
        match self.input.bytes() {
            Some(bytes) => self.prefilter.find_from(bytes, offset),
            None => {
                let units = self.input.units()?;
                self.prefilter.find_from_units(units, offset)
            }
        }
    }

    /// The offset behind the character that begins at one, or `None` where the text ends there.
    fn behind(&self, offset: usize) -> Option<usize>
        requires { CanRead (Input.view self.now.input) offset }
        ensures { result ≡ option_map (λ x. x.1) ((input_of (Input.view self.now.input)).next Forward offset) }
    {
        let position = <Input::Position as PositionType>::new(offset);
        let behind = self.input.next_right_pos(position)?;
        Some(self.input.pos_to_offset(behind))
    }

    /// The match of a range and of groups, with the program's names. Its one error is that memory is refused.
    ///
    /// ```rust
    /// let found = context.match_of(alloc, start..end, &groups)?;
    /// ```
    pub fn match_of(
        &self,
        alloc: Global,
        range: Range,
        groups: &[GroupData<usize>],
    ) -> Result<Match, AllocError>
        ensures item { IfOk result (λ found. item_of found ≡ item_with range.start range.end groups.now) }
        ensures named { IfOk result (λ found. names_of_match found ≡ names_of self.now.program.now) }
    {
        let captures = captures(alloc, groups)?;
        let names = self.program.shared_group_names()?;
        Ok(Match::new(range, captures, names))
    }

    /// Where a search goes on behind a match: where the match ends, or behind an empty match behind the next character;
    /// `None` where no character follows ("AdvanceStringIndex").
    ///
    /// Asks that the match is one in this text: its ends, and those of its groups, are offsets of places.
    ///
    /// ```rust
    /// let next = context.goes_on(&found);
    /// ```
    pub fn goes_on(&self, found: &Match) -> Option<usize>
        requires { IsItemAtPlaces (reading_of (Input.view self.now.input)) (item_of found.now) }
        ensures { result ≡ goes_on (program_of self.now.program.now) (input_of (Input.view self.now.input)) (item_of found.now) }
    {
        let end = found.end();
        if found.start() == end {
            self.behind(end)
        } else {
            Some(end)
        }
    }
}
