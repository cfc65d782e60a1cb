//! Rows, tried by every road.

use crate::calls::{
    ascii_matches, between_ends, bounded_matches, compiled, compiled_points, copying_ascii_matches,
    copying_matches, copying_ucs2_matches, copying_utf16_matches, default_matches, find_into,
    is_match, match_at, match_into, of_programs, ucs2_matches, undoing_matches, units_program,
    utf16_matches, whole_text,
};
use crate::report::{Report, told_error};
use crate::told::{try_table, try_table_of_units};
use crate::works::{
    all_expanded, all_replaced, all_replaced_with, all_templated, escaped, expanded, first_parts,
    names, parts, refusal, replaced, replaced_with, syntax_refusal, templated,
};
use conformance_rows::{
    Expected, Item, Pattern, Replacing, Row, RowError, Work, read_row, tail, told, told_in_units,
    units_before,
};
use regress::{CompiledRegex, Error, Flags, Regex, Tables, is_ascii_text, is_start};
use std::alloc::{AllocError, Global};

/// How many characters a text has at most that is searched from each of its places.
const SHORT: usize = 12;

/// How many characters a pattern has at most by which a text is searched from each of its places: the search by a longer one, as
/// where groups nest as deep as they may, takes long.
const SHORT_PATTERN: usize = 1000;

/// Compiles the pattern of a row: as a text, where it is one.
fn compiled_pattern(
    alloc: Global,
    pattern: &Pattern,
    flags: Flags,
    tables: &Tables,
) -> Result<Regex, Error> {
    match &pattern.text {
        Some(text) if pattern.whole => whole_text(alloc, text.as_str(), flags, tables),
        Some(text) => compiled(alloc, text.as_str(), flags, tables),
        None => compiled_points(alloc, &pattern.points, flags, tables),
    }
}

/// Tries every way of compiling a pattern that is refused.
fn try_refused(
    report: &mut Report,
    alloc: Global,
    pattern: &Pattern,
    flags: Flags,
    tables: &Tables,
    expected: &str,
) -> Result<(), AllocError> {
    let points = &pattern.points;
    let outcome = compiled_points(alloc, points, flags, tables);
    report.compare("from_unicode", expected, refusal(alloc, outcome))?;
    let outcome = of_programs(alloc, pattern, flags, tables);
    report.compare("try_parse and emit", expected, refusal(alloc, outcome))?;
    let Some(text) = &pattern.text else {
        return Ok(());
    };
    let text = text.as_str();
    let outcome = compiled(alloc, text, flags, tables);
    report.compare("with_flags", expected, refusal(alloc, outcome))?;
    let outcome = whole_text(alloc, text, flags, tables);
    report.compare("whole_text", expected, refusal(alloc, outcome))?;
    if expected == "!TooLarge" {
        return Ok(());
    }
    report.compare(
        "syntax_error",
        expected,
        syntax_refusal(alloc, text, flags, tables),
    )
}

/// Tries what searches a text from a start on.
fn try_text(
    report: &mut Report,
    alloc: Global,
    regex: &Regex,
    text: &str,
    start: usize,
    expected: &str,
) -> Result<(), AllocError> {
    let some = if expected.is_empty() { "false" } else { "true" };
    report.compare(
        "find_from",
        expected,
        default_matches(alloc, regex, text, start),
    )?;
    report.compare(
        "find_from within usize::MAX steps",
        expected,
        bounded_matches(alloc, regex, text, start, usize::MAX),
    )?;
    report.compare(
        "find by undoing",
        expected,
        undoing_matches(alloc, regex, text, start),
    )?;
    report.compare(
        "find by copying",
        expected,
        copying_matches(alloc, regex, text, start),
    )?;
    report.compare("is_match", some, is_match(alloc, regex, text, start))?;
    if !is_ascii_text(text) {
        return Ok(());
    }
    report.compare(
        "find_from_ascii",
        expected,
        ascii_matches(alloc, regex, text, start),
    )?;
    report.compare(
        "find_ascii by copying",
        expected,
        copying_ascii_matches(alloc, regex, text, start),
    )
}

/// Tries a pattern that is linear: within as many steps as are enough, and by a table of the text.
fn try_linear(
    report: &mut Report,
    alloc: Global,
    regex: &Regex,
    text: &str,
    start: usize,
    expected: &str,
) -> Result<(), AllocError> {
    let Ok(mut regex) = regex.try_clone() else {
        return Err(AllocError);
    };
    regex.learn_linear();
    let Some(steps) = regex.linear_steps(text.len()) else {
        return Ok(());
    };
    let told = bounded_matches(alloc, &regex, text, start, steps);
    report.compare("find_from within enough steps", expected, told)?;
    if start > 0 {
        return Ok(());
    }
    try_table(report, alloc, &regex, text, expected)
}

/// Of what is left of a list, its first item; none where there is none.
fn first(rest: &[Item]) -> &[Item] {
    rest.get(..1).unwrap_or(rest)
}

/// Of what is left of a list from a place on, the match that begins there; none where the first begins later.
fn beginning(rest: &[Item], place: usize) -> &[Item] {
    match rest.first() {
        Some(item) if item.range.start == place => first(rest),
        _ => &[],
    }
}

/// Tries searches from a place, and for the match that begins there, by what is left of the list.
fn try_place(
    report: &mut Report,
    alloc: Global,
    regex: &Regex,
    text: &str,
    place: usize,
    rest: &[Item],
) -> Result<(), AllocError> {
    let list = told(alloc, rest)?;
    let found = default_matches(alloc, regex, text, place);
    report.compare("find_from a place", list.as_str(), found)?;
    let list = told(alloc, first(rest))?;
    let found = find_into(alloc, regex, text, place);
    report.compare("find_into", list.as_str(), found)?;
    let list = told(alloc, beginning(rest, place))?;
    let found = match_at(alloc, regex, text, place);
    report.compare("match_at", list.as_str(), found)?;
    let found = match_into(alloc, regex, text, place);
    report.compare("match_into", list.as_str(), found)
}

/// Tries a short text from each place from which the list tells what is left.
fn try_tails(
    report: &mut Report,
    alloc: Global,
    regex: &Regex,
    text: &str,
    start: usize,
    items: &[Item],
) -> Result<(), AllocError> {
    if text.chars().count() > SHORT {
        return Ok(());
    }
    for place in start..text.len().saturating_add(2) {
        if let Some(rest) = tail(items, place) {
            if is_start(text, place) {
                try_place(report, alloc, regex, text, place, rest)?;
            }
        }
    }
    Ok(())
}

/// Tries a copy of a regex, and the regex of two programs that were emitted.
fn try_copies(
    report: &mut Report,
    alloc: Global,
    regex: &Regex,
    programs: Result<Regex, Error>,
    text: &str,
    start: usize,
    expected: &str,
) -> Result<(), AllocError> {
    let Ok(copy) = regex.try_clone() else {
        return Err(AllocError);
    };
    report.compare(
        "try_clone",
        expected,
        default_matches(alloc, &copy, text, start),
    )?;
    match programs {
        Ok(regex) => report.compare(
            "from_programs",
            expected,
            default_matches(alloc, &regex, text, start),
        ),
        Err(error) => report.compare("from_programs", "a regex", told_error(alloc, &error)),
    }
}

/// Tries what a pattern over a whole text is written as.
fn try_written(
    report: &mut Report,
    alloc: Global,
    pattern: &Pattern,
    flags: Flags,
    tables: &Tables,
    text: &str,
    expected: &str,
) -> Result<(), AllocError> {
    let Some(source) = &pattern.text else {
        return Ok(());
    };
    match between_ends(alloc, source.as_str(), flags, tables) {
        Ok(regex) => report.compare(
            "^(?:..)$",
            expected,
            default_matches(alloc, &regex, text, 0),
        ),
        Err(error) => report.compare("^(?:..)$", "a regex", told_error(alloc, &error)),
    }
}

/// What is expected of searches in 16-bit units from a start on.
#[derive(Drop)]
struct InUnits<'r> {
    units: &'r [u16],
    start: usize,
    /// The list where they are UTF-16.
    utf16: String,
    /// The list where each is a character; `None` where a row tells none.
    ucs2: Option<String>,
}

/// Tries searches in 16-bit units.
fn try_units(
    report: &mut Report,
    alloc: Global,
    regex: &Regex,
    searched: &InUnits<'_>,
) -> Result<(), AllocError> {
    let units = searched.units;
    let start = searched.start;
    let told = utf16_matches(alloc, regex, units, start);
    report.compare("find_from_utf16", searched.utf16.as_str(), told)?;
    match &searched.ucs2 {
        Some(ucs2) => {
            let told = ucs2_matches(alloc, regex, units, start);
            report.compare("find_from_ucs2", ucs2.as_str(), told)
        }
        None => Ok(()),
    }
}

/// Tries searches from the beginning of 16-bit units by a table of them, where the pattern is linear.
fn try_linear_units(
    report: &mut Report,
    alloc: Global,
    regex: &Regex,
    searched: &InUnits<'_>,
) -> Result<(), AllocError> {
    if searched.start > 0 {
        return Ok(());
    }
    let utf16 = searched.utf16.as_str();
    let ucs2 = searched.ucs2.as_deref();
    try_table_of_units(report, alloc, regex, searched.units, utf16, ucs2)
}

/// Tries searches from the beginning of 16-bit units by the executor that copies.
fn try_copying_units(
    report: &mut Report,
    alloc: Global,
    program: Result<CompiledRegex, Error>,
    searched: &InUnits<'_>,
) -> Result<(), AllocError> {
    let program = match program {
        Ok(program) => program,
        Err(error) => return report.compare("emit_units", "a program", told_error(alloc, &error)),
    };
    if searched.start > 0 {
        return Ok(());
    }
    let told = copying_utf16_matches(alloc, &program, searched.units);
    report.compare("UTF-16 by copying", searched.utf16.as_str(), told)?;
    match &searched.ucs2 {
        Some(ucs2) => {
            let told = copying_ucs2_matches(alloc, &program, searched.units);
            report.compare("UCS-2 by copying", ucs2.as_str(), told)
        }
        None => Ok(()),
    }
}

/// Whether each code point is a character of one unit.
fn is_one_unit_each(points: &[u32]) -> bool {
    points.iter().all(|point| *point < 0xD800 || (0xE000..0x10000).contains(point))
}

/// The list in units that are each a character; `None` where the text or the pattern holds a character of two.
fn ucs2_list(
    alloc: Global,
    text: &str,
    units: &[u16],
    pattern: &[u32],
    items: &[Item],
) -> Result<Option<String>, AllocError> {
    if units.len() > text.chars().count() || !is_one_unit_each(pattern) {
        return Ok(None);
    }
    Ok(Some(told_in_units(alloc, text, items)?))
}

/// Tries a search in a text by every road.
fn try_matches(
    report: &mut Report,
    alloc: Global,
    regex: &Regex,
    row: &Row,
    flags: Flags,
    tables: &Tables,
) -> Result<(), AllocError> {
    let Work::Matches {
        text,
        units,
        expected: Expected::List(items),
        start,
    } = &row.work
    else {
        return Ok(());
    };
    let text = text.as_str();
    let list = told(alloc, items)?;
    let points = &row.pattern.points;
    let utf16 = told_in_units(alloc, text, items)?;
    let ucs2 = ucs2_list(alloc, text, units, points, items)?;
    let programs = of_programs(alloc, &row.pattern, flags, tables);
    if row.pattern.whole && *start == 0 {
        try_written(
            report,
            alloc,
            &row.pattern,
            flags,
            tables,
            text,
            list.as_str(),
        )?;
    }
    try_text(report, alloc, regex, text, *start, list.as_str())?;
    try_linear(report, alloc, regex, text, *start, list.as_str())?;
    if points.len() <= SHORT_PATTERN {
        try_tails(report, alloc, regex, text, *start, items)?;
    }
    try_copies(report, alloc, regex, programs, text, *start, list.as_str())?;
    let start = units_before(text, *start);
    let searched = InUnits {
        units,
        start,
        utf16,
        ucs2,
    };
    try_units(report, alloc, regex, &searched)?;
    try_linear_units(report, alloc, regex, &searched)?;
    try_copying_units(
        report,
        alloc,
        units_program(alloc, &row.pattern, flags, tables),
        &searched,
    )
}

/// Tries a row of units.
fn try_unit_row(
    report: &mut Report,
    alloc: Global,
    regex: &Regex,
    row: &Row,
    flags: Flags,
    tables: &Tables,
) -> Result<(), AllocError> {
    let Work::Units {
        units,
        utf16,
        ucs2,
        start,
    } = &row.work
    else {
        return Ok(());
    };
    let utf16 = told(alloc, utf16)?;
    let ucs2 = Some(told(alloc, ucs2)?);
    let start = *start;
    let searched = InUnits {
        units,
        start,
        utf16,
        ucs2,
    };
    let program = units_program(alloc, &row.pattern, flags, tables);
    try_units(report, alloc, regex, &searched)?;
    try_linear_units(report, alloc, regex, &searched)?;
    try_copying_units(report, alloc, program, &searched)
}

/// What closures come to, which put in the replacement text where it holds no `$`, and else the match itself.
fn by_closure(replacing: &Replacing) -> &str {
    if replacing.replacement.contains('$') {
        replacing.text.as_str()
    } else {
        replacing.expected.as_str()
    }
}

/// Tries a text with its first match replaced by a text of the library's own language, and by a closure.
fn try_replaced(
    report: &mut Report,
    alloc: Global,
    regex: &Regex,
    replacing: &Replacing,
) -> Result<(), AllocError> {
    let text = replacing.text.as_str();
    let new = replacing.replacement.as_str();
    report.compare(
        "replace",
        replacing.expected.as_str(),
        replaced(regex, text, new),
    )?;
    let told = replaced_with(alloc, regex, text, new);
    report.compare("replace_with", by_closure(replacing), told)
}

/// Tries a text with all its matches replaced, in the same way.
fn try_all_replaced(
    report: &mut Report,
    alloc: Global,
    regex: &Regex,
    replacing: &Replacing,
) -> Result<(), AllocError> {
    let text = replacing.text.as_str();
    let new = replacing.replacement.as_str();
    report.compare(
        "replace_all",
        replacing.expected.as_str(),
        all_replaced(regex, text, new),
    )?;
    let told = all_replaced_with(alloc, regex, text, new);
    report.compare("replace_all_with", by_closure(replacing), told)
}

/// Tries a text with its first match replaced by a template of the standard, and what the template is at that match.
fn try_templated(
    report: &mut Report,
    alloc: Global,
    regex: &Regex,
    replacing: &Replacing,
) -> Result<(), AllocError> {
    let text = replacing.text.as_str();
    let template = replacing.replacement.as_str();
    let expected = replacing.expected.as_str();
    report.compare("replace_as", expected, templated(regex, text, template))?;
    report.compare("expand", expected, expanded(alloc, regex, text, template))
}

/// Tries a text with all its matches replaced, in the same way.
fn try_all_templated(
    report: &mut Report,
    alloc: Global,
    regex: &Regex,
    replacing: &Replacing,
) -> Result<(), AllocError> {
    let text = replacing.text.as_str();
    let template = replacing.replacement.as_str();
    let expected = replacing.expected.as_str();
    report.compare(
        "replace_all_as",
        expected,
        all_templated(regex, text, template),
    )?;
    report.compare(
        "expand",
        expected,
        all_expanded(alloc, regex, text, template),
    )
}

/// Tries the parts of a text.
fn try_parts(
    report: &mut Report,
    alloc: Global,
    regex: &Regex,
    text: &str,
    expected: &str,
) -> Result<(), AllocError> {
    report.compare("split", expected, parts(alloc, regex, text))?;
    report.compare(
        "splitn",
        expected,
        first_parts(alloc, regex, text, usize::MAX),
    )
}

/// Tries what is made of matches.
fn try_made(
    report: &mut Report,
    alloc: Global,
    regex: &Regex,
    work: &Work,
) -> Result<(), AllocError> {
    match work {
        Work::Names { text, expected } => {
            report.compare(
                "named_groups",
                expected.as_str(),
                names(alloc, regex, text.as_str()),
            )
        }
        Work::Replace(replacing) => try_replaced(report, alloc, regex, replacing),
        Work::ReplaceAll(replacing) => try_all_replaced(report, alloc, regex, replacing),
        Work::ReplaceAs(replacing) => try_templated(report, alloc, regex, replacing),
        Work::ReplaceAllAs(replacing) => try_all_templated(report, alloc, regex, replacing),
        Work::Split {
            text,
            parts: expected,
        } => { try_parts(report, alloc, regex, text.as_str(), expected.as_str()) }
        Work::SplitN {
            text,
            limit,
            parts: expected,
        } => {
            report.compare(
                "splitn",
                expected.as_str(),
                first_parts(alloc, regex, text.as_str(), *limit),
            )
        }
        _ => Ok(()),
    }
}

/// Tries a row under flags.
fn try_under(
    report: &mut Report,
    alloc: Global,
    row: &Row,
    flags: Flags,
    tables: &Tables,
) -> Result<(), AllocError> {
    if let Work::Matches {
        expected: Expected::Refused(expected),
        ..
    } = &row.work
    {
        return try_refused(
            report,
            alloc,
            &row.pattern,
            flags,
            tables,
            expected.as_str(),
        );
    }
    let regex = match compiled_pattern(alloc, &row.pattern, flags, tables) {
        Ok(regex) => regex,
        Err(error) => return report.compare("compiling", "a regex", told_error(alloc, &error)),
    };
    match &row.work {
        Work::Matches { .. } => try_matches(report, alloc, &regex, row, flags, tables),
        Work::Units { .. } => try_unit_row(report, alloc, &regex, row, flags, tables),
        work => try_made(report, alloc, &regex, work),
    }
}

/// Tries a row, with trees that are rewritten and with trees as they are read.
fn try_row(
    report: &mut Report,
    alloc: Global,
    row: &Row,
    tables: &Tables,
) -> Result<(), AllocError> {
    if let Work::Escape { text, expected } = &row.work {
        return report.compare("escape", expected.as_str(), escaped(alloc, text.as_str()));
    }
    let mut flags = Flags::from(row.flags.as_str());
    try_under(report, alloc, row, flags, tables)?;
    flags.no_opt = true;
    report.set_no_opt();
    try_under(report, alloc, row, flags, tables)
}

/// Tries a line, where it is a row.
fn try_line(
    report: &mut Report,
    alloc: Global,
    line: &str,
    tables: &Tables,
) -> Result<(), AllocError> {
    match read_row(alloc, line) {
        Ok(row) => try_row(report, alloc, &row, tables),
        Err(RowError::OutOfMemory) => Err(AllocError),
        Err(error) => report.compare("reading", "a row", format!(in alloc; "{error}")),
    }
}

/// Tries each row of a text by every road. Lines that begin with `#` are comments. Errs where memory is refused.
///
/// ```rust
/// let report = try_rows(alloc, "# Groups\ni\t(A)|b\tab\t0..1 0..1|1..2 -", &tables)?; // 1 row, none wrong
/// ```
pub fn try_rows(alloc: Global, rows: &str, tables: &Tables) -> Result<Report, AllocError> {
    let mut report = Report::new(alloc);
    for (index, line) in rows.lines().enumerate() {
        if !line.starts_with('#') {
            report.begin(index.saturating_add(1));
            try_line(&mut report, alloc, line, tables)?;
        }
    }
    Ok(report)
}
