//! Lines that need no search, since no match begins in them.
ghost use Rattle.std.specs.Prelude.{◌≡◌, ◌+◌, ◌≤◌, ◌++◌, ℕ, List, Option, length, vec_len, if◌then◌else◌};
ghost use Rattle.esgrep_rows.specs.Lines.{byte_of, lines, numbered};
ghost use Rattle.esgrep_rows.specs.Found.{Seen};
ghost use Rattle.esgrep_rows.specs.Rows as row_words;
ghost use Rattle.esgrep_rows.specs.Values.{progress_of};
ghost use Rattle.esgrep_lines.specs.Passing.{AreUnselected};
ghost use Rattle.esgrep_lines.specs.Output.{count_from};
ghost use Rattle.esgrep_lines.specs.GivenUp.{IsBehind};

use crate::finder::Finder;
use esgrep_rows::{Options, Progress, Rows, count_lines, lines_before};

/// The lines in front that are known not to be selected, where any may be, and the text behind them.
pub(crate) fn pass<'t, F: Finder>(
    finder: &F,
    options: &Options,
    may_select: bool,
    text: &'t str,
) -> (&'t str, &'t str)
    ensures lines { lines (byte_of options.now.ending) text.now ≡ lines (byte_of options.now.ending) result.0.now ++ lines (byte_of options.now.ending) result.1.now }
    ensures whole { text.now ≡ result.0.now ++ result.1.now }
    ensures unselected { (template : Option (List ℕ)) → (seen : Seen) → F.finds finder.now template seen.find →
        AreUnselected options.now seen (lines (byte_of options.now.ending) result.0.now) }
{
    if may_select && !options.invert {
        lines_before(text, finder.candidate(text), options.ending)
    } else {
        ("", text)
    }
}

/// How many lines a text has, where numbers of lines are put out.
fn told_lines(text: &str, options: &Options) -> usize
    ensures value { result ≡ (if options.now.numbers then length (lines (byte_of options.now.ending) text.now) else 0) }
    ensures few { result ≤ length text.now }
{
    if options.numbers {
        count_lines(text, options.ending)
    } else {
        0
    }
}

/// Lines that were passed over.
#[derive(Clone, Copy, Debug)]
pub(crate) struct Passed<'t> {
    /// How many they are, where numbers of lines are put out.
    pub(crate) lines: usize,
    /// Of how many bytes.
    pub(crate) bytes: usize,
    /// The text behind them.
    pub(crate) rest: &'t str,
}

/// Passes over the lines in front that are known not to be selected, where none of them is put out.
///
/// Asks that no more lines are held back than stand before a selected one.
pub(crate) fn pass_over<'t, F: Finder>(
    finder: &F,
    rows: Rows<'_>,
    may_select: bool,
    progress: &mut Progress<'_>,
    text: &'t str,
) -> Passed<'t>
    requires few { vec_len progress.old.held ≤ rows.options.before }
    ensures few { vec_len progress.new.held ≤ rows.entry.options.before }
    ensures size { result.bytes + length result.rest.now ≡ length text.now }
    ensures count { result.lines ≤ result.bytes }
    ensures lines { IsBehind rows.entry.options.ending text.now result.bytes result.rest.now }
    ensures rows { (template : Option (List ℕ)) → (seen : Seen) → F.finds finder.now template seen.find → (name : List ℕ) → (most number start : ℕ) →
        row_words.rows rows.entry.options seen name most (progress_of progress.new) (numbered (number + result.lines) (start + result.bytes) (lines (byte_of rows.entry.options.ending) result.rest.now))
        ≡ row_words.rows rows.entry.options seen name most (progress_of progress.old) (numbered number start (lines (byte_of rows.entry.options.ending) text.now)) }
    ensures counted { (template : Option (List ℕ)) → (seen : Seen) → F.finds finder.now template seen.find → (most start : ℕ) →
        count_from rows.entry.options seen most (start + result.bytes) (lines (byte_of rows.entry.options.ending) result.rest.now)
        ≡ count_from rows.entry.options seen most start (lines (byte_of rows.entry.options.ending) text.now) }
{
    let options = &rows.options;
    if options.before > 0 || progress.behind > 0 {
        return Passed {
            lines: 0,
            bytes: 0,
            rest: text,
        };
    }
    let (passed, rest) = pass(finder, options, may_select, text);
    if passed.is_empty() {
        return Passed {
            lines: 0,
            bytes: 0,
            rest,
        };
    }
    progress.leave_out();
    Passed {
        lines: told_lines(passed, options),
        bytes: passed.len(),
        rest,
    }
}
