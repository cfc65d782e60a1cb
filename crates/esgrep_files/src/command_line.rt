//! The command line, as `clap` reads it and as `--help` shows it.

use clap::{Arg, ArgAction, Command, value_parser};
use std::alloc::{AllocError, Global};

/// The program's version, and the toolchain that it is proved and built with: `tools/esgrep` compares it with `rt version`.
const VERSION: &str = "0.1.0 (rattle-kit-13f logic dac8208d650f15bf)";

/// What `--help` says first.
const ABOUT: &str =
    "Searches files for lines with a match of a pattern of ECMAScript, and prints them.

Patterns are those of JavaScript's RegExp with the flag u, over Unicode's tables. Without FILE standard
input is searched, or with -r the folder where it runs; - stands for standard input.";

/// What `--help` says last.
const EXAMPLES: &str = "Examples:
  esgrep 'TODO|FIXME' notes.txt             the lines of a file with one of two words
  esgrep -rn --include '*.rs' 'unsafe \\{'    those of a folder, with their numbers
  esgrep -o '\\p{Script=Greek}+'             each run of Greek letters in standard input
  esgrep -i -c straße a.txt b.txt           how many lines of each file have the word in any case
  esgrep '(\\d+)-(\\d+)' --replace '$2/$1'    lines with each match rewritten

Exit status: 0 where a line was selected, 1 where none was, 2 on an error.";

/// An option without a value, named by a word.
fn word<'a>(alloc: Global, name: &'a str, help: &'a str) -> Arg<'a> {
    Arg::new(alloc, name)
        .long(name)
        .help(help)
        .action(ArgAction::SetTrue)
}

/// An option without a value, named by a letter or a word.
fn flag<'a>(alloc: Global, letter: char, name: &'a str, help: &'a str) -> Arg<'a> {
    word(alloc, name, help).short(letter)
}

/// An option with a value, named by a word.
fn option<'a>(alloc: Global, name: &'a str, value: &'a str, help: &'a str) -> Arg<'a> {
    word(alloc, name, help)
        .value_name(value)
        .action(ArgAction::Set)
}

/// An option whose value is a number, named by a letter or a word.
fn count<'a>(alloc: Global, letter: char, name: &'a str, help: &'a str) -> Arg<'a> {
    option(alloc, name, "N", help)
        .short(letter)
        .value_parser(value_parser!(u32))
}

/// The command line.
///
/// ```rust
/// let matches = command(alloc)?.try_get_matches_from(words.as_slice());
/// ```
pub fn command<'a>(alloc: Global) -> Result<Command<'a>, AllocError> {
    let help = word(alloc, "help", "Print this help").action(ArgAction::Help);
    let words = Arg::new(alloc, "words")
        .value_name("PATTERN] [FILE")
        .num_args(0..)
        .help("The pattern, unless -e or -f gives it, and the files and folders that are searched");
    let named = Command::new(alloc, "esgrep")
        .version(VERSION)
        .about(ABOUT)
        .after_help(EXAMPLES)
        .override_usage(
            "esgrep [OPTIONS] PATTERN [FILE..]\n       esgrep [OPTIONS] -e PATTERN.. [FILE..]\n       esgrep [OPTIONS] -f FILE [FILE..]",
        )
        .disable_help_flag(true)
        .args_override_self(true)
        .arg(words)?;
    let seeking = with_patterns(alloc, named)?;
    let showing = with_output(alloc, seeking)?;
    with_files(alloc, with_rows(alloc, showing)?)?.arg(help)
}

/// The options that say what is searched for.
fn with_patterns<'a>(alloc: Global, command: Command<'a>) -> Result<Command<'a>, AllocError> {
    let pattern = option(
        alloc,
        "regexp",
        "PATTERN",
        "Search for this pattern; each of several is searched for alone",
    )
    .short('e')
    .action(ArgAction::Append)
    .allow_hyphen_values(true);
    let file = option(
        alloc,
        "file",
        "FILE",
        "Search for the patterns in a file, each on a line",
    )
    .short('f')
    .action(ArgAction::Append);
    let flags = option(
        alloc,
        "flags",
        "LETTERS",
        "The flags of the patterns, in the place of u",
    )
    .allow_hyphen_values(true);
    let size_limit = option(
        alloc,
        "regex-size-limit",
        "N",
        "Refuse a pattern that may become more than N instructions, in the place of 1000000",
    )
    .value_parser(value_parser!(u32));
    let max_steps = option(
        alloc,
        "max-steps",
        "N",
        "Give up each search that would take more than N steps, tell of its line, and go on",
    )
    .value_parser(value_parser!(u32));
    command
        .arg(pattern)?
        .arg(file)?
        .arg(flag(alloc, 'F', "fixed-strings", "A pattern is the text itself"))?
        .arg(flag(alloc, 'i', "ignore-case", "Ignore case"))?
        .arg(flag(
            alloc,
            'w',
            "word-regexp",
            "No word character stands before or behind a match",
        ))?
        .arg(flag(alloc, 'x', "line-regexp", "A match takes the whole line"))?
        .arg(flags)?
        .arg(size_limit)?
        .arg(max_steps)?
        .arg(flag(
            alloc,
            'U',
            "multiline",
            "A match may cross lines, and all lines that it touches are selected",
        ))?
        .arg(flag(
            alloc,
            'v',
            "invert-match",
            "Select the lines without a match",
        ))?
        .arg(count(
            alloc,
            'm',
            "max-count",
            "Stop behind so many selected lines of each file",
        ))
}

/// The options that say what is put out.
fn with_output<'a>(alloc: Global, command: Command<'a>) -> Result<Command<'a>, AllocError> {
    let replacement = option(
        alloc,
        "replace",
        "TEXT",
        "Put out TEXT in the place of each match; in it $& and $1 are the match and its first group",
    )
    .allow_hyphen_values(true);
    command
        .arg(flag(alloc, 'c', "count", "Put out how many lines are selected"))?
        .arg(flag(
            alloc,
            'l',
            "files-with-matches",
            "Put out the names of files with a selected line",
        ))?
        .arg(flag(
            alloc,
            'L',
            "files-without-match",
            "Put out the names of files without one",
        ))?
        .arg(flag(
            alloc,
            'o',
            "only-matching",
            "Put out each match, not the line",
        ))?
        .arg(flag(
            alloc,
            'q',
            "quiet",
            "Put out nothing, and stop at the first selected line",
        ))?
        .arg(replacement)?
        .arg(word(
            alloc,
            "groups",
            "Put out a line of JSON for each match, with its groups",
        ))?
        .arg(word(
            alloc,
            "stats",
            "Tell at the end how much was searched and selected, on standard error",
        ))?
        .arg(word(
            alloc,
            "progress",
            "Tell while searching how much was, on standard error",
        ))
}

/// The options that say what rows look like.
fn with_rows<'a>(alloc: Global, command: Command<'a>) -> Result<Command<'a>, AllocError> {
    let color = option(
        alloc,
        "color",
        "WHEN",
        "Whether names, numbers and matches are in colours: always, never or auto",
    )
    .alias("colour")?
    .value_parser(["always", "never", "auto"].as_slice())
    .num_args(0..=1)
    .require_equals(true)
    .default_missing_value("auto");
    command
        .arg(flag(alloc, 'n', "line-number", "Put out the number of each line"))?
        .arg(flag(
            alloc,
            'b',
            "byte-offset",
            "Put out the offset in bytes of each line, with -o of each match",
        ))?
        .arg(flag(
            alloc,
            'H',
            "with-filename",
            "Put out the name of the file in front of each row",
        ))?
        .arg(flag(alloc, 'h', "no-filename", "Never put it out"))?
        .arg(count(
            alloc,
            'A',
            "after-context",
            "Put out so many lines behind each selected one",
        ))?
        .arg(count(
            alloc,
            'B',
            "before-context",
            "Put out so many lines before it",
        ))?
        .arg(count(
            alloc,
            'C',
            "context",
            "Put out so many lines before and behind it; -3 is -C 3",
        ))?
        .arg(color)?
        .arg(flag(alloc, 'Z', "null", "A NUL stands behind the name of a file"))?
        .arg(word(alloc, "line-buffered", "Write each row at once"))
}

/// The options that say what is searched.
fn with_files<'a>(alloc: Global, command: Command<'a>) -> Result<Command<'a>, AllocError> {
    let include = option(
        alloc,
        "include",
        "GLOB",
        "In folders search the files with such a name alone",
    )
    .action(ArgAction::Append);
    let exclude = option(
        alloc,
        "exclude",
        "GLOB",
        "In folders pass over the files with such a name",
    )
    .action(ArgAction::Append);
    command
        .arg(flag(
            alloc,
            'r',
            "recursive",
            "Search the files in a folder, and in those in it",
        ))?
        .arg(include)?
        .arg(exclude)?
        .arg(flag(
            alloc,
            'a',
            "text",
            "Search binary files, and those that are not UTF-8, as text",
        ))?
        .arg(flag(alloc, 'I', "skip-binary", "Pass over binary files"))?
        .arg(flag(
            alloc,
            'z',
            "null-data",
            "Lines end by a NUL, not by a newline",
        ))?
        .arg(flag(
            alloc,
            's',
            "no-messages",
            "Tell of no file that can't be read",
        ))
}
