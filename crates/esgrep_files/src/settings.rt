//! What a command line asks for.

use clap::ArgMatches;
use esgrep_rows::{Ending, Mode, Options};
use regress::DEFAULT_LIMIT;
use std::alloc::{AllocError, Global};

/// When rows are in colours.
#[derive(Clone, Copy, Debug, PartialEq, Eq)]
pub(crate) enum Coloring {
    Always,
    Never,
    /// Where standard output is a terminal, and the environment has no `NO_COLOR`.
    Auto,
}

/// What to do with a file that is not text.
#[derive(Clone, Copy, Debug, PartialEq, Eq)]
pub(crate) enum NoText {
    /// Say whether it matches, and nothing of its lines.
    Told,
    /// Pass over it.
    Skipped,
    /// Search it as text, with U+FFFD for what is no character.
    Searched,
}

/// What a command line asks for.
#[derive(Debug, Drop)]
pub(crate) struct Settings<'a> {
    /// How a text is searched and put out. Whether names stand in front of rows, and colours, are found out later.
    pub options: Options,
    pub patterns: Vec<&'a str>,
    pub pattern_files: Vec<&'a str>,
    pub paths: Vec<&'a str>,
    pub flags: &'a str,
    pub ignore_case: bool,
    pub fixed: bool,
    pub words: bool,
    pub whole_lines: bool,
    /// How many instructions a program of a pattern may have.
    pub size_limit: usize,
    /// How many steps each search may take, where there is a bound.
    pub max_steps: Option<usize>,
    pub multiline: bool,
    pub replacement: Option<&'a str>,
    pub groups: bool,
    pub named: Option<bool>,
    pub coloring: Coloring,
    pub recursive: bool,
    pub include: Vec<&'a str>,
    pub exclude: Vec<&'a str>,
    pub no_text: NoText,
    pub silent: bool,
    pub by_row: bool,
    pub stats: bool,
    pub progress: bool,
}

/// All values of an option.
fn values<'a>(
    alloc: Global,
    matches: &ArgMatches<'a>,
    id: &str,
) -> Result<Vec<&'a str>, AllocError> {
    let mut values = Vec::new(alloc);
    if let Some(texts) = matches.get_strs(id) {
        values.extend_from_slice(texts)?;
    }
    Ok(values)
}

/// The number that is an option's value.
fn number(matches: &ArgMatches<'_>, id: &str) -> Option<usize> {
    let count = matches.get_one::<u32>(id)?;
    Some(count as usize)
}

/// What is put out: of `-q`, `-l`, `-L`, `-c` and `-o` the first that is there.
fn mode(matches: &ArgMatches<'_>) -> Mode {
    if matches.get_flag("quiet") {
        Mode::Quiet
    } else if matches.get_flag("files-with-matches") {
        Mode::WithMatch
    } else if matches.get_flag("files-without-match") {
        Mode::WithoutMatch
    } else if matches.get_flag("count") {
        Mode::Count
    } else if matches.get_flag("only-matching") {
        Mode::Matches
    } else {
        Mode::Lines
    }
}

/// How a text is searched and put out.
fn options(matches: &ArgMatches<'_>) -> Options {
    let around = number(matches, "context");
    let before = number(matches, "before-context").or(around);
    let after = number(matches, "after-context").or(around);
    Options {
        mode: mode(matches),
        ending: if matches.get_flag("null-data") {
            Ending::Nul
        } else {
            Ending::Newline
        },
        invert: matches.get_flag("invert-match"),
        most: number(matches, "max-count").unwrap_or(usize::MAX),
        rewrites: matches.contains_id("replace"),
        before: before.unwrap_or(0),
        after: after.unwrap_or(0),
        parts_groups: before.is_some() || after.is_some(),
        names: false,
        nul_behind_names: matches.get_flag("null"),
        numbers: matches.get_flag("line-number"),
        offsets: matches.get_flag("byte-offset"),
        colored: false,
    }
}

/// When rows are in colours.
fn coloring_of(matches: &ArgMatches<'_>) -> Coloring {
    match matches.get_str("color") {
        Some("always") => Coloring::Always,
        Some("never") => Coloring::Never,
        _ => Coloring::Auto,
    }
}

/// Whether names stand in front of rows, where the command line says so.
fn named(matches: &ArgMatches<'_>) -> Option<bool> {
    if matches.get_flag("no-filename") {
        Some(false)
    } else if matches.get_flag("with-filename") {
        Some(true)
    } else {
        None
    }
}

impl<'a> Settings<'a> {
    /// What a command line asks for. Where no option gives a pattern, the first word is one; `None` where there is none either.
    pub fn new(
        alloc: Global,
        matches: &ArgMatches<'a>,
    ) -> Result<Option<Settings<'a>>, AllocError> {
        let mut patterns = values(alloc, matches, "regexp")?;
        let pattern_files = values(alloc, matches, "file")?;
        let mut paths = values(alloc, matches, "words")?;
        if patterns.is_empty() && pattern_files.is_empty() {
            if paths.is_empty() {
                return Ok(None);
            }
            patterns.push(paths.remove(0))?;
        }
        Ok(Some(Settings {
            options: options(matches),
            patterns,
            pattern_files,
            paths,
            flags: matches.get_str("flags").unwrap_or("u"),
            ignore_case: matches.get_flag("ignore-case"),
            fixed: matches.get_flag("fixed-strings"),
            words: matches.get_flag("word-regexp"),
            whole_lines: matches.get_flag("line-regexp"),
            size_limit: number(matches, "regex-size-limit").unwrap_or(DEFAULT_LIMIT),
            max_steps: number(matches, "max-steps"),
            multiline: matches.get_flag("multiline"),
            replacement: matches.get_str("replace"),
            groups: matches.get_flag("groups"),
            named: named(matches),
            coloring: coloring_of(matches),
            recursive: matches.get_flag("recursive"),
            include: values(alloc, matches, "include")?,
            exclude: values(alloc, matches, "exclude")?,
            no_text: if matches.get_flag("text") {
                NoText::Searched
            } else if matches.get_flag("skip-binary") {
                NoText::Skipped
            } else {
                NoText::Told
            },
            silent: matches.get_flag("no-messages"),
            by_row: matches.get_flag("line-buffered"),
            stats: matches.get_flag("stats"),
            progress: matches.get_flag("progress"),
        }))
    }
}
