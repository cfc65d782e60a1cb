//! What the roads answered, and where they differ from the rows.

use regress::Error;
use std::alloc::{AllocError, Global};
use std::fmt;

/// How many rows were tried, and what came of them.
#[derive(Drop)]
pub struct Report {
    /// How many rows there are, those among them that can't be read.
    pub rows: usize,
    /// How many answers were compared.
    pub answers: usize,
    /// How many of these differ from what the row tells.
    pub wrong: usize,
    /// A line for each that differs.
    pub lines: String,
    line: usize,
    no_opt: bool,
}

/// The last line: `N rows, M answers, K wrong`.
impl fmt::Display for Report {
    fn fmt<W: fmt::Write>(&self, f: &mut fmt::Formatter<W>) -> fmt::Result {
        let Report {
            rows,
            answers,
            wrong,
            ..
        } = self;
        write!(f, "{rows} rows, {answers} answers, {wrong} wrong")
    }
}

/// An error as rows tell it.
pub(crate) fn told_error(alloc: Global, error: &Error) -> Result<String, AllocError> {
    let name = match error {
        Error::Syntax { text } => return format!(in alloc; "!Syntax {text}"),
        Error::TooDeep => "!TooDeep",
        Error::TooManyGroups => "!TooManyGroups",
        Error::TooManyLoops => "!TooManyLoops",
        Error::TooLarge => "!TooLarge",
        Error::OutOfMemory => "!OutOfMemory",
    };
    String::from_str(alloc, name)
}

/// Whether what was told is what a row expects. `!Syntax` expects any error of syntax.
fn is_expected(expected: &str, told: &str) -> bool {
    told == expected || expected == "!Syntax" && told.starts_with("!Syntax ")
}

impl Report {
    /// A report of no rows.
    pub(crate) fn new(alloc: Global) -> Report {
        Report {
            rows: 0,
            answers: 0,
            wrong: 0,
            lines: String::new(alloc),
            line: 0,
            no_opt: false,
        }
    }

    /// Goes on to another line.
    pub(crate) fn begin(&mut self, line: usize) {
        self.rows = self.rows.saturating_add(1);
        self.line = line;
        self.no_opt = false;
    }

    /// Goes on with trees that are not rewritten.
    pub(crate) fn set_no_opt(&mut self) {
        self.no_opt = true;
    }

    /// Compares what a road told, where no memory was refused, with what is expected of it.
    pub(crate) fn compare(
        &mut self,
        road: &str,
        expected: &str,
        told: Result<String, AllocError>,
    ) -> Result<(), AllocError> {
        match told {
            Ok(told) => self.compare_told(road, expected, told.as_str()),
            Err(_) => self.compare_told(road, expected, "!OutOfMemory"),
        }
    }

    /// Compares what a road told with what is expected of it.
    fn compare_told(&mut self, road: &str, expected: &str, told: &str) -> Result<(), AllocError> {
        self.answers = self.answers.saturating_add(1);
        if is_expected(expected, told) {
            return Ok(());
        }
        self.wrong = self.wrong.saturating_add(1);
        let line = self.line;
        let no_opt = if self.no_opt { ", no_opt" } else { "" };
        write!(
            self.lines,
            "line {line}, {road}{no_opt}: expected <{expected}>, told <{told}>\n"
        )
    }
}
