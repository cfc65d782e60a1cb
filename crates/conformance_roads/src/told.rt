//! Searches by the table of a text, where the program is linear, from the beginning of the text on.
ghost use Rattle.std.specs.Prelude.{◌≡◌, ◌<◌, suc, true, length, IfOk, IfSome};
ghost use Rattle.regress_match.specs.Views.{item_of};
ghost use Rattle.regress_engine_input.specs.Views.{reading_of};
ghost use Rattle.regress_engine_code.specs.Standing.{program_of};
ghost use Rattle.regress_engine_runs.specs.Meets.{IsAtPlace};
ghost use Rattle.regress_engine_search.specs.Search.{IsItemAtPlaces, IsMadeOf};
ghost use Rattle.regress_engine_linear.specs.Linear.{IsLinear, too_long};
ghost use Rattle.regress_engine_linear.specs.LinearViews.{flow_in, heights_in};
ghost use Rattle.regress_engine_walks.specs.Searched.{IsTold};

use crate::calls::push_match;
use crate::report::Report;
use regress::backends::{AsciiInput, Utf8Input};
use regress::{CompiledRegex, Match, Regex, is_ascii_text};
use regress_engine_inputs::{Ucs2Input, Utf16Input};
use regress_engine_linear::LinearTable;
use regress_engine_search::{ExecutorInput, SearchContext};
use regress_engine_walks::TextTable;
use std::alloc::{AllocError, Global};

/// A table tells of fewer addresses and offsets.
const MOST_TOLD: usize = 2_000;

/// The table by which a program is linear, where it is.
fn linear_table(alloc: Global, program: &CompiledRegex) -> Result<Option<LinearTable>, AllocError>
    ensures { IfOk result (λ found. IfSome found (λ table. IsLinear (flow_in table) (heights_in table) (program_of program.now))) }
{
    LinearTable::of(alloc, program.insns(), program.loops() as usize)
}

/// The first match from an offset on.
fn first_told<Input: ExecutorInput>(
    alloc: Global,
    table: &LinearTable,
    told: &TextTable,
    context: &SearchContext<'_, Input>,
    offset: usize,
) -> Result<Option<Match>, AllocError>
    requires linear { IsLinear (flow_in table.now) (heights_in table.now) (program_of context.now.program.now) }
    requires short { suc (length (Input.view context.now.input).units) < too_long }
    requires told { IsTold table.now (program_of context.now.program.now) (Input.view context.now.input) told.now }
    requires place { IsAtPlace (reading_of (Input.view context.now.input)) offset }
    ensures inside { IfOk result (λ found. IfSome found (λ m. IsItemAtPlaces (reading_of (Input.view context.now.input)) (item_of m))) }
{
    let mut groups = Vec::new(alloc);
    let mut steps = 0;
    let found = told.first_from(table, context, offset, &mut groups, &mut steps)?;
    let Some((start, end)) = found else {
        return Ok(None);
    };
    let found = context.match_of(alloc, start..end, &groups)?;
    Ok(Some(found))
}

/// The matches in a text.
fn told_matches<Input: ExecutorInput>(
    alloc: Global,
    program: &CompiledRegex,
    table: &LinearTable,
    input: Input,
) -> Result<String, AllocError>
    requires made { IsMadeOf program.now (Input.view input) }
    requires linear { IsLinear (flow_in table.now) (heights_in table.now) (program_of program.now) }
    requires short { suc (length (Input.view input).units) < too_long }
{
    let context = SearchContext::new(program, input);
    let mut steps = 0;
    let text_table = TextTable::of(alloc, table, &context, &mut steps)?;
    let mut told = String::new(alloc);
    let mut next = Some(0);
    for _ in 0..=context.text_len() {
        let Some(offset) = next else {
            break;
        };
        let Some(found) = first_told(alloc, table, &text_table, &context, offset)? else {
            break;
        };
        push_match(&mut told, &found)?;
        next = context.goes_on(&found);
    }
    Ok(told)
}

/// Whether the table of a text of so many units is small.
fn is_small(table: &LinearTable, units: usize) -> bool
    ensures { result ≡ true → suc units < too_long }
{
    units < MOST_TOLD && table.count().saturating_mul(units) < MOST_TOLD
}

/// Tries a text by a table, where the program of bytes is linear.
pub(crate) fn try_table(
    report: &mut Report,
    alloc: Global,
    regex: &Regex,
    text: &str,
    expected: &str,
) -> Result<(), AllocError> {
    let program = &regex.compiled().byte_program;
    let Some(table) = linear_table(alloc, program)? else {
        return Ok(());
    };
    if !is_small(&table, text.len()) {
        return Ok(());
    }
    let unicode = program.flags().is_unicode();
    let input = Utf8Input::new(text, unicode, program.tables());
    let told = told_matches(alloc, program, &table, input);
    report.compare("by a table", expected, told)?;
    if !is_ascii_text(text) {
        return Ok(());
    }
    let input = AsciiInput::new(text, unicode, program.tables());
    let told = told_matches(alloc, program, &table, input);
    report.compare("ASCII by a table", expected, told)
}

/// Tries units by a table, where the program of units is linear: as UTF-16, and where a list is told of units that are each a character
/// also as these.
pub(crate) fn try_table_of_units(
    report: &mut Report,
    alloc: Global,
    regex: &Regex,
    units: &[u16],
    in_utf16: &str,
    in_ucs2: Option<&str>,
) -> Result<(), AllocError> {
    let program = &regex.compiled().unit_program;
    let Some(table) = linear_table(alloc, program)? else {
        return Ok(());
    };
    if !is_small(&table, units.len()) {
        return Ok(());
    }
    let unicode = program.flags().is_unicode();
    let input = Utf16Input::new(units, unicode, program.tables());
    let told = told_matches(alloc, program, &table, input);
    report.compare("UTF-16 by a table", in_utf16, told)?;
    let Some(expected) = in_ucs2 else {
        return Ok(());
    };
    let input = Ucs2Input::new(units, unicode, program.tables());
    let told = told_matches(alloc, program, &table, input);
    report.compare("UCS-2 by a table", expected, told)
}
