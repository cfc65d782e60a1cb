//! The rows that are put out for lines.
ghost use Rattle.std.specs.Prelude.{◌≡◌, ◌+◌, ◌<◌, ◌^◌, ◌++◌, ◌∷◌, [], false, List, All, length, map, flat_map, codes, if◌then◌else◌, OnOk, IsOkUnless, string_bytes};
ghost use Rattle.esgrep_rows.specs.Lines.{tail, body};
ghost use Rattle.regress_match.specs.TextRanges.{LiesInText};
ghost use Rattle.esgrep_rows.specs.Found.{Found, found_of, rewritten, LieInOrder};
ghost use Rattle.esgrep_rows.specs.Rows.{match_row, painted, number_field, name_field, front, line_row, near_row, selected_row, before_row, name_row, count_row};
ghost use Rattle.esgrep_rows.specs.Views.{puts_matches, template_text};
ghost use Rattle.esgrep_rows.specs.Values.{line_of, progress_of};

use crate::line::{Line, body_of, end_of, is_ended};
use crate::options::Options;
use crate::progress::Progress;
use crate::shown::Shown;
use regress_front_core::Error;
use regress_match::Match;
use std::alloc::AllocError;

/// The colours of a terminal: of names, of numbers, and of the marks behind them.
const NAME: &str = "35";

const NUMBER: &str = "32";

const MARK: &str = "36";

/// Where rows are made: what is asked of them, and the name of the text.
#[derive(Clone, Copy, Debug)]
pub struct Rows<'n> {
    /// What is asked of them.
    pub options: Options,
    /// The name of the text.
    pub name: &'n str,
}

impl Rows<'_> {
    /// Appends a text between the codes of a colour, where colours are wanted.
    fn push_painted(&self, row: &mut String, colour: &str, text: &str) -> Result<(), AllocError>
        ensures { OnOk result (string_bytes row.new ≡ string_bytes row.old ++ painted self.now.options colour.now text.now) }
    {
        if self.options.colored {
            write!(row, "\u{1b}[{colour}m{text}\u{1b}[m")
        } else {
            row.push_str(text)
        }
    }

    /// Appends a number and the mark behind it.
    fn push_number(&self, row: &mut String, mark: &str, number: usize) -> Result<(), AllocError>
        ensures { OnOk result (string_bytes row.new ≡ string_bytes row.old ++ number_field self.now.options mark.now number) }
    {
        if self.options.colored {
            write!(row, "\u{1b}[{NUMBER}m{number}\u{1b}[m")?;
        } else {
            write!(row, "{number}")?;
        }
        self.push_painted(row, MARK, mark)
    }

    /// Appends the name and the mark behind it, or a NUL.
    fn push_name(&self, row: &mut String, mark: &str) -> Result<(), AllocError>
        ensures { OnOk result (string_bytes row.new ≡ string_bytes row.old ++ name_field self.now.options mark.now self.now.name.now) }
    {
        self.push_painted(row, NAME, self.name)?;
        if self.options.nul_behind_names {
            row.push('\0')
        } else {
            self.push_painted(row, MARK, mark)
        }
    }

    /// Appends the name and the mark behind it, where names are wanted.
    fn push_name_if_wanted(&self, row: &mut String, mark: &str) -> Result<(), AllocError>
        ensures { OnOk result (string_bytes row.new ≡ string_bytes row.old
            ++ (if self.now.options.names then name_field self.now.options mark.now self.now.name.now else [])) }
    {
        if self.options.names {
            self.push_name(row, mark)
        } else {
            Ok(())
        }
    }

    /// Appends a number and the mark behind it, where that is wanted.
    fn push_number_if(
        &self,
        row: &mut String,
        wanted: bool,
        mark: &str,
        number: usize,
    ) -> Result<(), AllocError>
        ensures { OnOk result (string_bytes row.new ≡ string_bytes row.old
            ++ (if wanted then number_field self.now.options mark.now number else [])) }
    {
        if wanted {
            self.push_number(row, mark, number)
        } else {
            Ok(())
        }
    }

    /// Appends what stands in front of a row.
    fn push_front(
        &self,
        row: &mut String,
        mark: &str,
        number: usize,
        offset: usize,
    ) -> Result<(), AllocError>
        ensures { OnOk result (string_bytes row.new ≡ string_bytes row.old ++ front self.now.options mark.now self.now.name.now number offset) }
    {
        self.push_name_if_wanted(row, mark)?;
        self.push_number_if(row, self.options.numbers, mark, number)?;
        self.push_number_if(row, self.options.offsets, mark, offset)
    }

    /// Appends how a line ends where it is put out.
    fn push_tail(&self, row: &mut String, line: &str) -> Result<(), AllocError>
        ensures { OnOk result (string_bytes row.new ≡ string_bytes row.old ++ tail self.now.options.ending line.now) }
    {
        let ending = self.options.ending;
        row.push_str(end_of(line, ending))?;
        if is_ended(line, ending) {
            Ok(())
        } else {
            row.push(ending.character())
        }
    }

    /// Appends the row of a line, with this text in the place of its own.
    fn push_row(
        &self,
        row: &mut String,
        mark: &str,
        line: Line<'_>,
        text: &str,
    ) -> Result<(), AllocError>
        ensures { OnOk result (string_bytes row.new ≡ string_bytes row.old
            ++ line_row self.now.options mark.now self.now.name.now (line_of line.entry) text.now) }
    {
        self.push_front(row, mark, line.number, line.start)?;
        row.push_str(text)?;
        self.push_tail(row, line.text)
    }

    /// Appends the row of a line near a selected one. Errs where memory is refused alone.
    ///
    /// ```rust
    /// rows.push_near(&mut row, line)?; // appends "7-a line\n", where numbers are wanted
    /// ```
    pub fn push_near(&self, row: &mut String, line: Line<'_>) -> Result<(), AllocError>
        ensures { OnOk result (string_bytes row.new ≡ string_bytes row.old ++ near_row self.now.options self.now.name.now (line_of line.entry)) }
    {
        if self.options.mode.puts_matches() {
            return Ok(());
        }
        self.push_row(row, "-", line, body_of(line.text, self.options.ending))
    }

    /// Appends `--` where a group of lines ended before.
    fn push_separator(&self, row: &mut String, has_gap: bool) -> Result<(), AllocError>
        ensures { OnOk result (string_bytes row.new ≡ string_bytes row.old
            ++ (if has_gap then painted self.now.options (codes "36") (codes "--") ++ codes "\n" else [])) }
    {
        if has_gap {
            self.push_painted(row, MARK, "--")?;
            row.push('\n')
        } else {
            Ok(())
        }
    }

    /// Appends what stands before a selected line: `--` between groups of lines, and the lines before it. Errs where memory is
    /// refused alone.
    ///
    /// ```rust
    /// rows.push_before(&mut row, &progress)?;
    /// ```
    pub fn push_before(&self, row: &mut String, progress: &Progress<'_>) -> Result<(), AllocError>
        ensures { OnOk result (string_bytes row.new ≡ string_bytes row.old ++ before_row self.now.options self.now.name.now (progress_of progress.now)) }
    {
        let has_gap = self.options.parts_groups && progress.is_begun && progress.has_gap;
        self.push_separator(row, has_gap)?;
        for line in &progress.held {
            self.push_near(row, *line)?;
        }
        Ok(())
    }

    /// Appends the row of a selected line as it stands. Asks that lines are put out, and nothing in the place of matches. Errs
    /// where memory is refused alone.
    ///
    /// ```rust
    /// rows.push_line(&mut row, line)?; // appends "7:a line\n", where numbers are wanted
    /// ```
    pub fn push_line(&self, row: &mut String, line: Line<'_>) -> Result<(), AllocError>
        requires lines { puts_matches self.now.options.mode ≡ false }
        requires plain { self.now.options.rewrites ≡ false }
        ensures { (founds : List Found) → OnOk result (string_bytes row.new ≡ string_bytes row.old
            ++ selected_row self.now.options self.now.name.now (line_of line.entry) founds) }
    {
        self.push_row(row, ":", line, body_of(line.text, self.options.ending))
    }

    /// Appends the row of a match.
    fn push_match(
        &self,
        row: &mut String,
        shown: &Shown<'_>,
        line: Line<'_>,
        found: &Match,
    ) -> Result<(), Error>
        requires fits { line.start + length line.text.now < 2 ^ 64 }
        requires inside { LiesInText (body self.now.options.ending line.text.now) found.now }
        ensures pushed { OnOk result (string_bytes row.new ≡ string_bytes row.old
            ++ match_row self.now.options self.now.name.now (line_of line.entry)
            (found_of (template_text shown.now) (body self.now.options.ending line.entry.text.now) found.now)) }
        ensures refused { IsOkUnless result Error.OutOfMemory }
    {
        let body = body_of(line.text, self.options.ending);
        if found.start() < found.end() {
            self.push_front(row, ":", line.number, line.start + found.start())?;
            shown.push(found, body, row)?;
            row.push(self.options.ending.character())?;
        }
        Ok(())
    }

    /// Appends a row for each match.
    fn push_matches(
        &self,
        row: &mut String,
        shown: &Shown<'_>,
        line: Line<'_>,
        founds: &[Match],
    ) -> Result<(), Error>
        requires fits { line.start + length line.text.now < 2 ^ 64 }
        requires inside { All (LiesInText (body self.now.options.ending line.text.now)) founds.now }
        ensures pushed { OnOk result (string_bytes row.new ≡ string_bytes row.old
            ++ flat_map (match_row self.now.options self.now.name.now (line_of line.entry))
            (map (found_of (template_text shown.now) (body self.now.options.ending line.entry.text.now)) founds.now)) }
        ensures refused { IsOkUnless result Error.OutOfMemory }
    {
        for found in founds {
            self.push_match(row, shown, line, found)?;
        }
        Ok(())
    }

    /// Appends what is put out for a selected line in which these matches were found.
    ///
    /// Asks that the matches lie in what is searched of the line one behind the other, and that an offset of the line's end is a
    /// `usize`. Errs with `OutOfMemory` alone.
    ///
    /// ```rust
    /// rows.push_selected(&mut row, &shown, line, &founds)?;
    /// ```
    pub fn push_selected(
        &self,
        row: &mut String,
        shown: &Shown<'_>,
        line: Line<'_>,
        founds: &[Match],
    ) -> Result<(), Error>
        requires fits { line.start + length line.text.now < 2 ^ 64 }
        requires order { LieInOrder (body self.now.options.ending line.text.now) 0 founds.now }
        ensures pushed { OnOk result (string_bytes row.new ≡ string_bytes row.old
            ++ selected_row self.now.options self.now.name.now (line_of line.entry)
            (map (found_of (template_text shown.now) (body self.now.options.ending line.entry.text.now)) founds.now)) }
        ensures refused { IsOkUnless result Error.OutOfMemory }
    {
        if self.options.mode.puts_matches() {
            return self.push_matches(row, shown, line, founds);
        }
        let body = body_of(line.text, self.options.ending);
        self.push_front(row, ":", line.number, line.start)?;
        if self.options.rewrites {
            push_rewritten(row, shown, body, founds)?;
        } else {
            row.push_str(body)?;
        }
        self.push_tail(row, line.text)?;
        Ok(())
    }

    /// Appends the name on a line of its own. Errs where memory is refused alone.
    ///
    /// ```rust
    /// rows.push_name_row(&mut row)?; // appends "notes.txt\n"
    /// ```
    pub fn push_name_row(&self, row: &mut String) -> Result<(), AllocError>
        ensures { OnOk result (string_bytes row.new ≡ string_bytes row.old ++ name_row self.now.options self.now.name.now) }
    {
        self.push_painted(row, NAME, self.name)?;
        if self.options.nul_behind_names {
            row.push('\0')
        } else {
            row.push('\n')
        }
    }

    /// Appends how many lines were selected. Errs where memory is refused alone.
    ///
    /// ```rust
    /// rows.push_count(&mut row, 3)?; // appends "notes.txt:3\n", where names are wanted
    /// ```
    pub fn push_count(&self, row: &mut String, count: usize) -> Result<(), AllocError>
        ensures { OnOk result (string_bytes row.new ≡ string_bytes row.old ++ count_row self.now.options self.now.name.now count) }
    {
        self.push_name_if_wanted(row, ":")?;
        write!(row, "{count}\n")
    }
}

/// Appends a text with what is shown in the place of each match.
fn push_rewritten(
    row: &mut String,
    shown: &Shown<'_>,
    text: &str,
    founds: &[Match],
) -> Result<(), Error>
    requires { LieInOrder text.now 0 founds.now }
    ensures pushed { OnOk result (string_bytes row.new ≡ string_bytes row.old ++ rewritten text.now (map (found_of (template_text shown.now) text.now) founds.now)) }
    ensures refused { IsOkUnless result Error.OutOfMemory }
{
    let mut behind = 0;
    for found in founds {
        row.push_str(&text[behind..found.start()])?;
        shown.push(found, text, row)?;
        behind = found.end();
    }
    row.push_str(&text[behind..])?;
    Ok(())
}
