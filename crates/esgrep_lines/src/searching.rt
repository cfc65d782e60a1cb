//! A search of one text.
ghost use Rattle.std.specs.Prelude.{◌≡◌, ◌≢◌, ◌≤◌, ◌<◌, ◌^◌, ◌++◌, ◌∷◌, ◌&&◌, ◌||◌, ◌-◌, ◌+◌, ◌↔◌, ℕ, List, Option, [], true, false, nat_lt, length, map, All, vec_len, IfOk, OnOk, IsErrOf, IsOkUnless, string_bytes, if◌then◌else◌};
ghost use Rattle.std.specs.Io.KnownBytes.{Appends, append_known};
ghost use Rattle.esgrep_rows.specs.Lines as line_words;
ghost use Rattle.esgrep_rows.specs.Lines.{byte_of, lines, body};
ghost use Rattle.esgrep_rows.specs.Found.{Found, Find, Seen, but_for, found_of, LieInOrder};
ghost use Rattle.esgrep_rows.specs.Rows as row_words;
ghost use Rattle.esgrep_rows.specs.Rows.{selected_row, selected_lines, found_at_line};
ghost use Rattle.esgrep_rows.specs.Views.{puts_matches, template_text};
ghost use Rattle.esgrep_rows.specs.Values.{line_of, progress_of};
ghost use Rattle.esgrep_lines.specs.Output.{output_of, summary, summary_of, all_rows, told_count, count_of, needed, count_from};
ghost use Rattle.esgrep_lines.specs.Putting.{has_failed, written, put_out, AppendsFront, IsBeginning};
ghost use Rattle.esgrep_lines.specs.GivenUp.{AreGivenUp, Notes, TellsAt};

use crate::finder::{FindError, Finder};
use crate::output::{Output, Unwritten};
use crate::passing::{pass, pass_over};
use esgrep_rows::{Line, Mode, Options, Progress, Rows, Shown, body_of, first_line};
use regress_front_core::Error;
use regress_match::Match;
use std::alloc::{AllocError, Global};
use std::io::Write;
use std::{error, fmt};

/// Why a search ends without its whole output.
#[derive(Clone, Copy, Debug, PartialEq, Eq)]
pub enum SearchError {
    /// Writing the output failed.
    Write,
    /// A request for memory was refused.
    OutOfMemory,
}

impl fmt::Display for SearchError {
    fn fmt<W: fmt::Write>(&self, f: &mut fmt::Formatter<W>) -> fmt::Result {
        match self {
            SearchError::Write => f.write_str("write failed"),
            SearchError::OutOfMemory => f.write_str("out of memory"),
        }
    }
}

impl error::Error for SearchError {}

impl From<Error> for SearchError {
    ghost use Rattle.esgrep_lines.specs.declared.searching.SearchError.TheVariants.{OutOfMemory};

    ghost from_gives = { λ _ e. e ≡ OutOfMemory };

    fn from(_refused: Error) -> SearchError {
        SearchError::OutOfMemory
    }
}

impl From<AllocError> for SearchError {
    ghost use Rattle.esgrep_lines.specs.declared.searching.SearchError.TheVariants.{OutOfMemory};

    ghost from_gives = { λ _ e. e ≡ OutOfMemory };

    fn from(_refused: AllocError) -> SearchError {
        SearchError::OutOfMemory
    }
}

impl From<Unwritten> for SearchError {
    ghost use Rattle.esgrep_lines.specs.declared.searching.SearchError.TheVariants.{Write};

    ghost from_gives = { λ _ e. e ≡ Write };

    fn from(_failed: Unwritten) -> SearchError {
        SearchError::Write
    }
}

/// Searches a text, puts out what the options say, and answers how many lines are selected; where only that there is one matters,
/// at most one. A line whose search was given up is not selected; the offsets of such lines are put into `given_up`, in the place
/// of what was there.
///
/// Asks that no write has failed. Errs where one fails, and where memory is refused; then a beginning of this was put out.
///
/// ```rust
/// let count = search(alloc, &patterns, &Shown::itself(), &options, "notes.txt", text, &mut given_up, &mut output)?;
/// ```
pub fn search<F: Finder, W: Write + Drop>(
    alloc: Global,
    finder: &F,
    shown: &Shown<'_>,
    options: &Options,
    name: &str,
    text: &str,
    given_up: &mut Vec<usize>,
    output: &mut Output<W>,
) -> Result<usize, SearchError>
    requires { has_failed output.old ≡ false }
    ensures put { (find : Find) → F.finds finder.now (template_text shown.now) find →
        OnOk result (Appends (put_out W.contents output.old) (put_out W.contents output.new) (output_of options.now options.now.mode (but_for given_up.new.items find) name.now text.now)) }
    ensures count { (find : Find) → F.finds finder.now (template_text shown.now) find →
        IfOk result (λ count. count ≡ count_of options.now (but_for given_up.new.items find) text.now) }
    ensures refused { (find : Find) → F.finds finder.now (template_text shown.now) find → IsErrOf result SearchError.OutOfMemory →
        AppendsFront (put_out W.contents output.old) (put_out W.contents output.new) (output_of options.now options.now.mode (but_for given_up.new.items find) name.now text.now) }
    ensures unwritten { (find : Find) → F.finds finder.now (template_text shown.now) find → IsErrOf result SearchError.Write →
        IsBeginning (written W.contents output.new) (append_known (put_out W.contents output.old) (output_of options.now options.now.mode (but_for given_up.new.items find) name.now text.now)) }
    ensures given { AreGivenUp (F.gives_up finder.now) options.now.ending text.now given_up.new.items }
    ensures failure { (has_failed output.new ≡ true) ↔ IsErrOf result SearchError.Write }
{
    given_up.clear();
    let rows = Rows {
        options: *options,
        name,
    };
    match options.mode {
        Mode::Lines | Mode::Matches => put_rows(alloc, finder, shown, rows, text, given_up, output),
        _ => put_summary(alloc, finder, rows, text, given_up, output),
    }
}

/// Notes a line whose search was given up, which is not selected. Another error stays one.
fn give_up(error: FindError, start: usize, given_up: &mut Vec<usize>) -> Result<bool, Error>
    ensures noted { Notes (error ≡ FindError.GivenUp) start given_up.old.items given_up.new.items }
    ensures unselected { IfOk result (λ selected. (selected ≡ false) × (given_up.new.items ≡ given_up.old.items ++ start ∷ [])) }
{
    match error {
        FindError::OutOfMemory => Err(Error::OutOfMemory),
        FindError::GivenUp => {
            given_up.push(start)?;
            Ok(false)
        }
    }
}

/// Whether the line that begins at `start` is selected.
fn is_selected<F: Finder>(
    finder: &F,
    options: &Options,
    start: usize,
    line: &str,
    given_up: &mut Vec<usize>,
) -> Result<bool, Error>
    requires low { All (λ at. at < start) given_up.old.items }
    ensures noted { Notes (F.gives_up finder.now (body options.now.ending line.now)) start given_up.old.items given_up.new.items }
    ensures selected { (template : Option (List ℕ)) → (seen : Seen) → F.finds finder.now template seen.find → TellsAt seen given_up.new.items start →
        IfOk result (λ selected. selected ≡ row_words.is_selected options.now seen start line.now) }
{
    match finder.is_match(start, body_of(line, options.ending)) {
        Ok(is_match) => Ok(is_match != options.invert),
        Err(error) => give_up(error, start, given_up),
    }
}

/// How many lines of a text are selected, counted up to `most`.
fn count_selected<F: Finder>(
    finder: &F,
    options: &Options,
    text: &str,
    most: usize,
    given_up: &mut Vec<usize>,
) -> Result<usize, Error>
    requires none { given_up.old.items ≡ [] }
    ensures count { (template : Option (List ℕ)) → (find : Find) → F.finds finder.now template find →
        IfOk result (λ count. count ≡ count_from options.now (but_for given_up.new.items find) most 0 (lines (byte_of options.now.ending) text.now)) }
    ensures given { AreGivenUp (F.gives_up finder.now) options.now.ending text.now given_up.new.items }
{
    let mut count = 0;
    let mut start = 0;
    let mut rest = text;
    while count < most && !rest.is_empty() {
        let (line, behind) = first_line(rest, options.ending);
        let selected = is_selected(finder, options, start, line, given_up)?;
        count += usize::from(selected);
        let (passed, further) = pass(finder, options, count < most, behind);
        start += line.len() + passed.len();
        rest = further;
    }
    Ok(count)
}

/// Appends what is put out where so many lines are selected and none is shown.
fn push_summary(row: &mut String, rows: Rows<'_>, count: usize) -> Result<(), AllocError>
    ensures { OnOk result (string_bytes row.new ≡ string_bytes row.old ++ summary rows.entry.options rows.entry.name.now rows.entry.options.mode count) }
{
    match rows.options.mode {
        Mode::Count => rows.push_count(row, count),
        Mode::WithMatch if count > 0 => rows.push_name_row(row),
        Mode::WithoutMatch if count == 0 => rows.push_name_row(row),
        _ => Ok(()),
    }
}

/// How many lines are counted at most: where only that there is one matters, one.
fn needed(options: &Options) -> usize
    ensures { result ≡ needed options.now.mode options.now.most }
{
    match options.mode {
        Mode::Lines | Mode::Matches | Mode::Count => options.most,
        Mode::WithMatch | Mode::WithoutMatch | Mode::Quiet => options.most.min(1),
    }
}

/// How many lines of a text are selected; where only that there is one matters, at most one. A line whose search was given up is not
/// selected; the offsets of such lines are put into `given_up`, in the place of what was there.
///
/// Errs where memory is refused alone.
///
/// ```rust
/// let selected = count(&patterns, &options, text, &mut given_up)?;
/// ```
pub fn count<F: Finder>(
    finder: &F,
    options: &Options,
    text: &str,
    given_up: &mut Vec<usize>,
) -> Result<usize, SearchError>
    ensures count { (template : Option (List ℕ)) → (find : Find) → F.finds finder.now template find →
        IfOk result (λ count. count ≡ count_of options.now (but_for given_up.new.items find) text.now) }
    ensures given { AreGivenUp (F.gives_up finder.now) options.now.ending text.now given_up.new.items }
    ensures refused { IsOkUnless result SearchError.OutOfMemory }
{
    given_up.clear();
    let most = needed(options);
    let selected = count_selected(finder, options, text, most, given_up)?;
    Ok(selected)
}

/// Puts out what is told of a text of this name in which so many lines are selected: their number, or the name where some or none are.
///
/// Asks that no write has failed. Errs where one fails, and where memory is refused; then nothing was put out.
///
/// ```rust
/// put_count(alloc, &options, "notes.txt", 2, &mut output)?; // by `-c` the row `2`
/// ```
pub fn put_count<W: Write + Drop>(
    alloc: Global,
    options: &Options,
    name: &str,
    count: usize,
    output: &mut Output<W>,
) -> Result<(), SearchError>
    requires { has_failed output.old ≡ false }
    ensures put { OnOk result (Appends (put_out W.contents output.old) (put_out W.contents output.new) (summary options.now name.now options.now.mode count)) }
    ensures refused { IsErrOf result SearchError.OutOfMemory → output.new ≡ output.old }
    ensures unwritten { IsErrOf result SearchError.Write →
        IsBeginning (written W.contents output.new) (append_known (put_out W.contents output.old) (summary options.now name.now options.now.mode count)) }
    ensures failure { (has_failed output.new ≡ true) ↔ IsErrOf result SearchError.Write }
{
    let rows = Rows {
        options: *options,
        name,
    };
    let mut row = String::new(alloc);
    push_summary(&mut row, rows, count)?;
    output.put(row.as_bytes())?;
    Ok(())
}

/// Puts out how many lines of a text are selected, or its name where some or none are, and answers how many.
fn put_summary<F: Finder, W: Write + Drop>(
    alloc: Global,
    finder: &F,
    rows: Rows<'_>,
    text: &str,
    given_up: &mut Vec<usize>,
    output: &mut Output<W>,
) -> Result<usize, SearchError>
    requires sound { has_failed output.old ≡ false }
    requires none { given_up.old.items ≡ [] }
    ensures put { (template : Option (List ℕ)) → (find : Find) → F.finds finder.now template find →
        OnOk result (Appends (put_out W.contents output.old) (put_out W.contents output.new) (summary_of rows.entry.options (but_for given_up.new.items find) rows.entry.name.now text.now)) }
    ensures count { (template : Option (List ℕ)) → (find : Find) → F.finds finder.now template find →
        IfOk result (λ count. count ≡ count_of rows.entry.options (but_for given_up.new.items find) text.now) }
    ensures refused { IsErrOf result SearchError.OutOfMemory → output.new ≡ output.old }
    ensures unwritten { (template : Option (List ℕ)) → (find : Find) → F.finds finder.now template find → IsErrOf result SearchError.Write →
        IsBeginning (written W.contents output.new) (append_known (put_out W.contents output.old) (summary_of rows.entry.options (but_for given_up.new.items find) rows.entry.name.now text.now)) }
    ensures given { AreGivenUp (F.gives_up finder.now) rows.entry.options.ending text.now given_up.new.items }
    ensures failure { (has_failed output.new ≡ true) ↔ IsErrOf result SearchError.Write }
{
    let count = count(finder, &rows.options, text, given_up)?;
    put_count(alloc, &rows.options, rows.name, count, output)?;
    Ok(count)
}

/// Whether what is put out for a selected line depends on its matches.
fn puts_founds(options: &Options) -> bool
    ensures { result ≡ (puts_matches options.now.mode || options.now.rewrites) }
{
    options.mode.puts_matches() || options.rewrites
}

/// Whether a line is selected. Its matches are put into `founds`, where what is put out depends on them.
fn select<F: Finder>(
    finder: &F,
    options: &Options,
    line: Line<'_>,
    founds: &mut Vec<Match>,
    given_up: &mut Vec<usize>,
) -> Result<bool, Error>
    requires low { All (λ at. at < line.start) given_up.old.items }
    ensures noted { Notes (F.gives_up finder.now (body options.now.ending line.entry.text.now)) line.entry.start given_up.old.items given_up.new.items }
    ensures selected { (template : Option (List ℕ)) → (seen : Seen) → F.finds finder.now template seen.find → TellsAt seen given_up.new.items line.entry.start →
        IfOk result (λ selected. selected ≡ row_words.is_selected options.now seen line.entry.start line.entry.text.now) }
    ensures found { (puts_matches options.now.mode || options.now.rewrites) ≡ true →
        (template : Option (List ℕ)) → (seen : Seen) → F.finds finder.now template seen.find → IfOk result (λ selected. selected ≡ true →
        map (found_of template (body options.now.ending line.entry.text.now)) founds.new.items ≡ found_at_line options.now seen line.entry.start line.entry.text.now) }
    ensures order { (puts_matches options.now.mode || options.now.rewrites) ≡ true →
        IfOk result (λ selected. selected ≡ true → LieInOrder (body options.now.ending line.entry.text.now) 0 founds.new.items) }
{
    if !puts_founds(options) {
        return is_selected(finder, options, line.start, line.text, given_up);
    }
    match finder.find_into(line.start, body_of(line.text, options.ending), founds) {
        Ok(()) => Ok(founds.is_empty() == options.invert),
        Err(error) => give_up(error, line.start, given_up),
    }
}

/// Appends what is put out for a selected line, in which these matches were found where that depends on them.
fn push_selected(
    shown: &Shown<'_>,
    rows: Rows<'_>,
    row: &mut String,
    line: Line<'_>,
    founds: &[Match],
) -> Result<(), Error>
    requires fits { line.start + length line.text.now < 2 ^ 64 }
    requires order { (puts_matches rows.options.mode || rows.options.rewrites) ≡ true → LieInOrder (body rows.options.ending line.text.now) 0 founds.now }
    ensures { (found : List Found) →
        ((puts_matches rows.entry.options.mode || rows.entry.options.rewrites) ≡ true →
        map (found_of (template_text shown.now) (body rows.entry.options.ending line.entry.text.now)) founds.now ≡ found) →
        OnOk result (string_bytes row.new ≡ string_bytes row.old ++ selected_row rows.entry.options rows.entry.name.now (line_of line.entry) found) }
{
    if puts_founds(&rows.options) {
        return rows.push_selected(row, shown, line, founds);
    }
    rows.push_line(row, line)?;
    Ok(())
}

/// Appends what is put out for a line, and goes on to the next. Answers whether it is selected, where it may be.
fn push_step<'t, F: Finder>(
    finder: &F,
    shown: &Shown<'_>,
    rows: Rows<'_>,
    may_select: bool,
    row: &mut String,
    line: Line<'t>,
    progress: &mut Progress<'t>,
    founds: &mut Vec<Match>,
    given_up: &mut Vec<usize>,
) -> Result<bool, Error>
    requires fits { line.start + length line.text.now < 2 ^ 64 }
    requires low { All (λ at. at < line.start) given_up.old.items }
    requires few { vec_len progress.old.held ≤ rows.options.before }
    ensures noted { Notes (F.gives_up finder.now (body rows.entry.options.ending line.entry.text.now)) line.entry.start given_up.old.items given_up.new.items }
    ensures few { OnOk result (vec_len progress.new.held ≤ rows.entry.options.before) }
    ensures selected { (seen : Seen) → F.finds finder.now (template_text shown.now) seen.find → TellsAt seen given_up.new.items line.entry.start →
        IfOk result (λ selected. selected ≡ (may_select && row_words.is_selected rows.entry.options seen line.entry.start line.entry.text.now)) }
    ensures pushed { (seen : Seen) → F.finds finder.now (template_text shown.now) seen.find → TellsAt seen given_up.new.items line.entry.start → (most : ℕ) → (more : List line_words.Line) → nat_lt 0 most ≡ may_select →
        IfOk result (λ selected. string_bytes row.new ++ row_words.rows rows.entry.options seen rows.entry.name.now (if selected then most - 1 else most) (progress_of progress.new) more
        ≡ string_bytes row.old ++ row_words.rows rows.entry.options seen rows.entry.name.now most (progress_of progress.old) (line_of line.entry ∷ more)) }
{
    let options = &rows.options;
    if may_select && select(finder, options, line, founds, given_up)? {
        rows.push_before(row, progress)?;
        push_selected(shown, rows, row, line, founds)?;
        progress.follow(options.after);
        return Ok(true);
    }
    if progress.behind > 0 {
        rows.push_near(row, line)?;
        progress.follow(progress.behind - 1);
    } else {
        progress.hold(line, options.before)?;
    }
    Ok(false)
}

/// Puts out the rows of a text, and answers how many lines are selected.
fn put_rows<F: Finder, W: Write + Drop>(
    alloc: Global,
    finder: &F,
    shown: &Shown<'_>,
    rows: Rows<'_>,
    text: &str,
    given_up: &mut Vec<usize>,
    output: &mut Output<W>,
) -> Result<usize, SearchError>
    requires sound { has_failed output.old ≡ false }
    requires none { given_up.old.items ≡ [] }
    ensures put { (find : Find) → F.finds finder.now (template_text shown.now) find →
        OnOk result (Appends (put_out W.contents output.old) (put_out W.contents output.new) (all_rows rows.entry.options (but_for given_up.new.items find) rows.entry.name.now text.now)) }
    ensures count { (find : Find) → F.finds finder.now (template_text shown.now) find →
        IfOk result (λ count. count ≡ length (selected_lines rows.entry.options (but_for given_up.new.items find) text.now)) }
    ensures refused { (find : Find) → F.finds finder.now (template_text shown.now) find → IsErrOf result SearchError.OutOfMemory →
        AppendsFront (put_out W.contents output.old) (put_out W.contents output.new) (all_rows rows.entry.options (but_for given_up.new.items find) rows.entry.name.now text.now) }
    ensures unwritten { (find : Find) → F.finds finder.now (template_text shown.now) find → IsErrOf result SearchError.Write →
        IsBeginning (written W.contents output.new) (append_known (put_out W.contents output.old) (all_rows rows.entry.options (but_for given_up.new.items find) rows.entry.name.now text.now)) }
    ensures given { AreGivenUp (F.gives_up finder.now) rows.entry.options.ending text.now given_up.new.items }
    ensures failure { (has_failed output.new ≡ true) ↔ IsErrOf result SearchError.Write }
{
    let options = rows.options;
    let mut row = String::new(alloc);
    let mut founds = Vec::new(alloc);
    let mut progress = Progress::new(alloc);
    let mut count = 0;
    let mut number = 1;
    let mut start = 0;
    let mut rest = text;
    while !rest.is_empty() && (count < rows.options.most || progress.behind > 0) {
        let (first, behind) = first_line(rest, rows.options.ending);
        let line = Line {
            number,
            start,
            text: first,
        };
        row.clear();
        let selected = push_step(
            finder,
            shown,
            rows,
            count < rows.options.most,
            &mut row,
            line,
            &mut progress,
            &mut founds,
            given_up,
        )?;
        output.put(row.as_bytes())?;
        count += usize::from(selected);
        let may_select = count < rows.options.most;
        let passed = pass_over(finder, rows, may_select, &mut progress, behind);
        number += 1 + passed.lines;
        start += first.len() + passed.bytes;
        rest = passed.rest;
    }
    Ok(count)
}
