//! The whole program.

use crate::command_line::command;
use crate::compiling::regexes;
use crate::files::{Chosen, Kind, joined, kind_of, last_name, names_in};
use crate::globs::Globs;
use crate::groups::GroupRows;
use crate::line_buffer::LineBuffer;
use crate::refusal::Refusal;
use crate::settings::{Coloring, NoText, Settings};
use crate::texts::{Content, DECIDING, content_of, is_binary, text_of};
use crate::words::read_contexts;
use esgrep_lines::{
    FindError, Output, SearchError, Unwritten, count, goes_by_pieces, put_count, search,
};
use esgrep_patterns::{Patterns, parts_of};
use esgrep_rows::{Ending, Mode, Options, Shown};
use memchr::memchr_iter;
use regress_replacing::Template;
use std::alloc::{AllocError, AllocFailed, Global};
use std::fmt::Display;
use std::fs::{File, OpenFile};
use std::io::{ErrorKind, Read, Write};
use std::process::ExitCode;
use std::rt::Runtime;
use std::{env, io, mem};

/// How standard input is named.
const STANDARD_INPUT: &str = "(standard input)";

/// The exit status on an error.
const TROUBLE: u8 = 2;

/// How the whole search stands.
#[derive(Clone, Copy, Debug, Default)]
struct Tally {
    /// How many lines were selected.
    selected: usize,
    /// How many texts were searched, and of how many bytes.
    texts: usize,
    bytes: usize,
    /// Whether something could not be searched.
    has_trouble: bool,
}

/// Why a search ends before its end.
#[derive(Clone, Copy, Debug, PartialEq, Eq)]
enum Stop {
    /// A line is selected, and nothing else is asked.
    Found,
    /// Output can't be written.
    Unwritten,
    OutOfMemory,
}

impl From<AllocError> for Stop {
    fn from(_refused: AllocError) -> Stop {
        Stop::OutOfMemory
    }
}

impl<T: Drop> From<AllocFailed<T>> for Stop {
    fn from(_refused: AllocFailed<T>) -> Stop {
        Stop::OutOfMemory
    }
}

impl From<Unwritten> for Stop {
    fn from(_failed: Unwritten) -> Stop {
        Stop::Unwritten
    }
}

impl From<SearchError> for Stop {
    fn from(error: SearchError) -> Stop {
        match error {
            SearchError::Write => Stop::Unwritten,
            SearchError::OutOfMemory => Stop::OutOfMemory,
        }
    }
}

impl From<Refusal> for Stop {
    fn from(_refusal: Refusal) -> Stop {
        Stop::OutOfMemory
    }
}

/// A search of files.
#[derive(Drop)]
struct Search<'r, 's, 'a, 't, 'p, R: Runtime + AllocGlobal, W: Write + Drop> {
    rt: &'r R,
    settings: &'s Settings<'a>,
    options: Options,
    patterns: Patterns<'p>,
    shown: Shown<'t>,
    chosen: Chosen,
    output: Output<W>,
    lines: LineBuffer,
    tally: Tally,
}

/// The whole program: searches what the command line asks for, and answers the exit status.
///
/// `is_terminal` says whether standard output is a terminal.
///
/// ```rust
/// let status = run(&rt, rt.stdout().is_terminal());
/// ```
pub fn run<R: Runtime + AllocGlobal>(rt: &R, is_terminal: bool) -> ExitCode {
    let status = match with_words(rt, is_terminal) {
        Ok(status) => status,
        Err(refusal) => {
            // Where standard error can't be written either, the status alone tells of the error.
            let _ = eprintln!(rt; "esgrep: {refusal}");
            TROUBLE
        }
    };
    ExitCode::from(status)
}

/// Reads the words of the command line, and does what they ask for.
fn with_words<R: Runtime + AllocGlobal>(rt: &R, is_terminal: bool) -> Result<u8, Refusal> {
    let alloc = rt.alloc();
    let words = read_contexts(alloc, env::args(rt)?.collect(alloc)?)?;
    with_command_line(rt, &words, is_terminal)
}

/// Does what the words of a command line ask for.
fn with_command_line<R: Runtime + AllocGlobal>(
    rt: &R,
    words: &[String],
    is_terminal: bool,
) -> Result<u8, Refusal> {
    let alloc = rt.alloc();
    let matches = match command(alloc)?.try_get_matches_from(words) {
        Ok(matches) => matches,
        Err(error) => {
            error.print(rt)?;
            return Ok(if error.use_stderr() { TROUBLE } else { 0 });
        }
    };
    match Settings::new(alloc, &matches)? {
        Some(settings) => with_settings(rt, &settings, is_terminal),
        None => Err(Refusal::Told(String::from_str(alloc, "no pattern: see esgrep --help")?)),
    }
}

/// Whether rows are in colours.
fn is_colored<R: Runtime + AllocGlobal>(rt: &R, coloring: Coloring, is_terminal: bool) -> bool {
    match coloring {
        Coloring::Always => true,
        Coloring::Never => false,
        Coloring::Auto => is_terminal && env::var(rt, "NO_COLOR").is_err(),
    }
}

/// What is shown of a match: nothing else than its text where neither a replacement text nor colours are asked for.
fn template_text(
    alloc: Global,
    settings: &Settings<'_>,
    colored: bool,
) -> Result<Option<String>, AllocError> {
    let shown = match settings.replacement {
        Some(text) => text,
        None if colored => "$&",
        None => return Ok(None),
    };
    Ok(Some(if colored {
        format!(in alloc; "\u{1b}[1;31m{shown}\u{1b}[m")?
    } else {
        String::from_str(alloc, shown)?
    }))
}

/// What is shown of a match by the text of a template, if there is one.
fn shown_by<'t>(alloc: Global, template: &'t Option<String>) -> Result<Shown<'t>, Refusal> {
    match template {
        Some(text) => Ok(Shown::by(Template::new(alloc, text.as_str())?)),
        None => Ok(Shown::itself()),
    }
}

/// Compiles the patterns, and searches.
fn with_settings<R: Runtime + AllocGlobal>(
    rt: &R,
    settings: &Settings<'_>,
    is_terminal: bool,
) -> Result<u8, Refusal> {
    let alloc = rt.alloc();
    if settings.multiline && settings.replacement.is_some() {
        return Err(Refusal::Told(String::from_str(alloc, "--replace does not go with -U")?));
    }
    if settings.max_steps == Some(0) {
        return Err(Refusal::Told(String::from_str(alloc, "--max-steps is 1 at least")?));
    }
    let regexes = regexes(rt, settings)?;
    let colored = is_colored(rt, settings.coloring, is_terminal);
    let template = template_text(alloc, settings, colored)?;
    let rewrites = template.is_some();
    let shown = shown_by(alloc, &template)?;
    let has_several = settings.recursive || settings.paths.len() > 1;
    let options = Options {
        names: settings.named.unwrap_or(has_several),
        rewrites,
        colored,
        ..settings.options
    };
    let mut files = Search {
        rt,
        settings,
        options,
        patterns: Patterns::new(&regexes, settings.max_steps),
        shown,
        chosen: Chosen {
            include: Globs::new(alloc, &settings.include)?,
            exclude: Globs::new(alloc, &settings.exclude)?,
        },
        output: Output::new(alloc, io::writer(rt), settings.by_row),
        lines: LineBuffer::new(alloc, options.ending.byte()),
        tally: Tally::default(),
    };
    let stop = files.search_all();
    Ok(files.finished(stop))
}

impl<'r, 's, 'a, 't, 'p, R: Runtime + AllocGlobal, W: Write + Drop> Search<
    'r,
    's,
    'a,
    't,
    'p,
    R,
    W,
> {
    /// Tells of a file that can't be searched.
    fn tell(&mut self, path: &str, message: &(impl Display + Drop)) {
        self.tally.has_trouble = true;
        if !self.settings.silent {
            let rt = self.rt;
            let _ = eprintln!(rt; "esgrep: {path}: {message}");
        }
    }

    /// Tells of a file that can't be searched, and goes on with the others.
    fn pass(&mut self, path: &str, message: &(impl Display + Drop)) -> Result<(), Stop> {
        self.tell(path, message);
        Ok(())
    }

    /// Tells of the lines of a text that begin at these offsets, each behind the one before: their search was given up.
    fn tell_given_up(&mut self, name: &str, text: &str, given_up: &[usize]) {
        let rt = self.rt;
        let steps = self.settings.max_steps.unwrap_or(0);
        let mut number: usize = 1;
        let mut behind = 0;
        for start in given_up {
            let passed = text.as_bytes().get(behind..*start).unwrap_or(&[]);
            let ends = memchr_iter(self.options.ending.byte(), passed).count();
            number = number.saturating_add(ends);
            behind = *start;
            self.tally.has_trouble = true;
            if !self.settings.silent {
                let _ = eprintln!(rt;
                    "esgrep: {name}:{number}: the search was given up after {steps} steps"
                );
            }
        }
    }

    /// Searches all that the command line names.
    fn search_all(&mut self) -> Result<(), Stop> {
        let settings = self.settings;
        if settings.paths.is_empty() {
            return if settings.recursive {
                self.search_tree("")
            } else {
                self.search_input()
            };
        }
        for path in &settings.paths {
            if *path == "-" {
                self.search_input()?;
            } else {
                self.search_path(path)?;
            }
        }
        Ok(())
    }

    /// Searches what the command line names: a file, or by `-r` a folder. Links are followed.
    fn search_path(&mut self, path: &str) -> Result<(), Stop> {
        match kind_of(self.rt, path, true) {
            Ok(Kind::Folder) if self.settings.recursive => self.search_tree(path),
            Ok(Kind::Folder) => self.pass(path, &"is a folder: use -r"),
            Ok(_) => self.search_file(path),
            Err(error) => self.pass(path, &error),
        }
    }

    /// Searches the files in a folder and in those in it, sorted by name. Links are not followed.
    fn search_tree(&mut self, root: &str) -> Result<(), Stop> {
        let alloc = self.rt.alloc();
        let mut waiting = Vec::new(alloc);
        waiting.push(String::from_str(alloc, root)?)?;
        for step in 0..u64::MAX {
            let Some(path) = waiting.pop() else {
                break;
            };
            let kind = if step == 0 {
                Ok(Kind::Folder)
            } else {
                kind_of(self.rt, path.as_str(), false)
            };
            match kind {
                Ok(Kind::Folder) => self.add_names(path.as_str(), &mut waiting)?,
                Ok(Kind::File) if self.chosen.takes(last_name(path.as_str()))? => {
                    self.search_file(path.as_str())?;
                }
                Ok(_) => {}
                Err(error) => self.tell(path.as_str(), &error),
            }
        }
        Ok(())
    }

    /// Adds what is in a folder to the paths that wait, the first by name last.
    fn add_names(&mut self, folder: &str, waiting: &mut Vec<String>) -> Result<(), Stop> {
        let alloc = self.rt.alloc();
        match names_in(self.rt, folder) {
            Ok((names, unread)) => {
                if let Some(error) = unread {
                    self.tell(folder, &error);
                }
                for name in names.iter().rev() {
                    waiting.push(joined(alloc, folder, name.as_str())?)?;
                }
            }
            Err(error) => self.tell(folder, &error),
        }
        Ok(())
    }

    /// Whether what is put out for a text is what is put out for its pieces, one behind the other.
    fn goes_by_pieces(&self) -> bool {
        !self.settings.multiline
            && !self.settings.groups
            && self.settings.max_steps.is_none()
            && goes_by_pieces(&self.options)
    }

    /// Searches a file.
    fn search_file(&mut self, path: &str) -> Result<(), Stop> {
        match File::open(self.rt, path) {
            Ok(mut file) => {
                let len = file.metadata().map_or(0, |metadata| metadata.len());
                self.search_reader(path, &mut file, usize::try_from(len).unwrap_or(0))
            }
            Err(error) => self.pass(path, &error),
        }
    }

    /// Searches standard input.
    fn search_input(&mut self) -> Result<(), Stop> {
        let mut input = self.rt.reader();
        self.search_reader(STANDARD_INPUT, &mut input, 0)
    }

    /// Searches what a reader gives, which may be so many bytes. Where it is read as a whole, room for them is asked for at once, and for
    /// one more, so that the read that meets the end asks for none; where that is refused, room grows with what is read.
    fn search_reader<F: Read>(
        &mut self,
        name: &str,
        reader: &mut F,
        len: usize,
    ) -> Result<(), Stop> {
        if self.goes_by_pieces() {
            return self.search_by_pieces(name, reader);
        }
        let mut bytes = Vec::new(self.rt.alloc());
        let _ = bytes.try_reserve_exact(len.saturating_add(1));
        self.search_rest(name, reader, bytes)
    }

    /// Searches at once what was read, and what is left.
    fn search_rest<F: Read>(
        &mut self,
        name: &str,
        reader: &mut F,
        mut bytes: Vec<u8>,
    ) -> Result<(), Stop> {
        match reader.read_to_end(&mut bytes) {
            Ok(_) => self.search_bytes(name, &bytes),
            Err(error) => self.pass(name, &error),
        }
    }

    /// Searches a file piece by piece, unless it is binary.
    fn search_by_pieces<F: Read>(&mut self, name: &str, file: &mut F) -> Result<(), Stop> {
        let alloc = self.rt.alloc();
        let mut lines = mem::replace(&mut self.lines, LineBuffer::new(alloc, 0));
        lines.clear();
        let is_told = self.settings.no_text != NoText::Searched;
        let result = match lines.fill(file, DECIDING) {
            Err(error) => self.pass(name, &error),
            Ok(()) if is_told && is_binary(lines.bytes(), self.options.ending) => {
                self.search_rest(name, file, lines.bytes().to_vec(alloc)?)
            }
            Ok(()) => self.search_pieces(name, file, &mut lines),
        };
        self.lines = lines;
        result
    }

    /// Searches the pieces of a file, of which the first was read.
    fn search_pieces<F: Read>(
        &mut self,
        name: &str,
        file: &mut F,
        lines: &mut LineBuffer,
    ) -> Result<(), Stop> {
        self.tally.texts = self.tally.texts.saturating_add(1);
        // Of these only that one line is selected matters.
        let mode = self.options.mode;
        let needs_one = matches!(mode, Mode::WithMatch | Mode::WithoutMatch | Mode::Quiet);
        let mut count: usize = 0;
        let mut passed: usize = 0;
        for _ in 0..u64::MAX {
            let piece = lines.whole_lines();
            let len = piece.len();
            let (selected, is_text) = self.search_piece(name, passed, piece)?;
            count = count.saturating_add(selected);
            passed = passed.saturating_add(len);
            if !is_text || lines.is_ended() || (needs_one && count > 0) {
                break;
            }
            if let Err(error) = lines.pass(file, len) {
                self.tell(name, &error);
                break;
            }
        }
        self.tally.bytes = self.tally.bytes.saturating_add(passed);
        self.finish_pieces(name, count)
    }

    /// Searches a piece of a file, in front of which so many bytes stand. Answers how many lines are selected, and whether all of it
    /// is text.
    fn search_piece(
        &mut self,
        name: &str,
        passed: usize,
        piece: &[u8],
    ) -> Result<(usize, bool), Stop> {
        let ending = self.options.ending;
        match text_of(self.rt.alloc(), piece, ending, self.settings.no_text)? {
            Content::Lossy(text) => Ok((self.put_piece(name, text.as_str())?, true)),
            Content::Text(text) => Ok((self.put_piece(name, text)?, true)),
            Content::NotUtf8(text, offset) => {
                let selected = self.put_piece(name, text)?;
                let wrong = passed.saturating_add(offset);
                self.tell(name, &format_args!("not UTF-8 from byte {wrong} on"));
                Ok((selected, false))
            }
            Content::Binary(_) | Content::Skipped => Ok((0, true)),
        }
    }

    /// Puts out the rows of a piece of a text, where rows are asked for, and answers how many lines are selected.
    fn put_piece(&mut self, name: &str, text: &str) -> Result<usize, Stop> {
        match self.options.mode {
            Mode::Lines | Mode::Matches => self.put_lines_alone(self.options, name, text),
            _ => {
                let mut given_up = Vec::new(self.rt.alloc());
                Ok(count(&self.patterns, &self.options, text, &mut given_up)?)
            }
        }
    }

    /// Puts out what is told of all pieces of a text, in which so many lines are selected.
    fn finish_pieces(&mut self, name: &str, count: usize) -> Result<(), Stop> {
        self.tally.selected = self.tally.selected.saturating_add(count);
        if !matches!(self.options.mode, Mode::Lines | Mode::Matches) {
            if self.output.failed() {
                return Err(Stop::Unwritten);
            }
            let (alloc, output) = (self.rt.alloc(), &mut self.output);
            put_count(alloc, &self.options, name, count, output)?;
        }
        self.searched()
    }

    /// Searches what was read, as far as it is text.
    fn search_bytes(&mut self, name: &str, bytes: &[u8]) -> Result<(), Stop> {
        let Options { ending, .. } = self.options;
        let content = content_of(self.rt.alloc(), bytes, ending, self.settings.no_text)?;
        self.search_content(name, bytes.len(), content)
    }

    /// Searches what a file of so many bytes holds.
    fn search_content(
        &mut self,
        name: &str,
        length: usize,
        content: Content<'_>,
    ) -> Result<(), Stop> {
        self.tally.texts = self.tally.texts.saturating_add(1);
        self.tally.bytes = self.tally.bytes.saturating_add(length);
        match content {
            Content::Text(text) => self.search_text(name, text)?,
            Content::Lossy(text) => self.search_text(name, text.as_str())?,
            Content::Binary(text) => self.search_binary(name, text.as_str())?,
            Content::Skipped => {}
            Content::NotUtf8(text, offset) => {
                self.search_text(name, text)?;
                self.tell(name, &format_args!("not UTF-8 from byte {offset} on"));
            }
        }
        self.searched()
    }

    /// A file was searched: tells how much was, and ends the search where nothing else is asked.
    fn searched(&self) -> Result<(), Stop> {
        self.report();
        if self.options.mode == Mode::Quiet && self.tally.selected > 0 {
            return Err(Stop::Found);
        }
        Ok(())
    }

    /// Searches a text.
    fn search_text(&mut self, name: &str, text: &str) -> Result<(), Stop> {
        let count = if self.settings.groups {
            self.put_groups(name, text)?
        } else {
            self.put_lines(self.options, name, text)?
        };
        self.tally.selected = self.tally.selected.saturating_add(count);
        Ok(())
    }

    /// Puts out the rows of a text, and answers how many lines are selected.
    fn put_lines(&mut self, options: Options, name: &str, text: &str) -> Result<usize, Stop> {
        if self.settings.multiline {
            self.put_joined_lines(options, name, text)
        } else {
            self.put_lines_alone(options, name, text)
        }
    }

    /// The same where each line is searched alone.
    fn put_lines_alone(&mut self, options: Options, name: &str, text: &str) -> Result<usize, Stop> {
        if self.output.failed() {
            return Err(Stop::Unwritten);
        }
        let (alloc, shown) = (self.rt.alloc(), &self.shown);
        let (patterns, output) = (&self.patterns, &mut self.output);
        let mut given_up = Vec::new(alloc);
        let count = search(
            alloc,
            patterns,
            shown,
            &options,
            name,
            text,
            &mut given_up,
            output,
        )?;
        self.tell_given_up(name, text, &given_up);
        Ok(count)
    }

    /// The same where a match may cross lines: the text is searched at once. Where that is given up, none of its lines is selected,
    /// and it is told by its first one.
    fn put_joined_lines(
        &mut self,
        options: Options,
        name: &str,
        text: &str,
    ) -> Result<usize, Stop> {
        let alloc = self.rt.alloc();
        let parts = match parts_of(alloc, &self.patterns, text, options.ending) {
            Ok(parts) => parts,
            Err(FindError::OutOfMemory) => return Err(Stop::OutOfMemory),
            Err(FindError::GivenUp) => {
                self.tell_given_up(name, text, &[0]);
                return self.put_lines_alone(options, name, "");
            }
        };
        if self.output.failed() {
            return Err(Stop::Unwritten);
        }
        let (shown, output) = (&self.shown, &mut self.output);
        let mut given_up = Vec::new(alloc);
        Ok(search(
            alloc,
            &parts,
            shown,
            &options,
            name,
            text,
            &mut given_up,
            output,
        )?)
    }

    /// Puts out a line of JSON for each match in a text, and answers how many lines have one; with `-U` how many matches there are.
    fn put_groups(&mut self, name: &str, text: &str) -> Result<usize, Stop> {
        let mut found = GroupRows::new(self.rt.alloc(), &self.patterns, &self.options, name);
        let count = if self.settings.multiline {
            found.push_whole(text)?
        } else {
            found.push_of_lines(text)?
        };
        let GroupRows { rows, given_up, .. } = found;
        if self.output.failed() {
            return Err(Stop::Unwritten);
        }
        self.output.put(rows.as_bytes())?;
        self.tell_given_up(name, text, &given_up);
        Ok(count)
    }

    /// Searches a binary file, of which no row is put out.
    fn search_binary(&mut self, name: &str, text: &str) -> Result<(), Stop> {
        let mode = match self.options.mode {
            Mode::Lines | Mode::Matches => Mode::Quiet,
            mode => mode,
        };
        let options = Options {
            mode,
            ..self.options
        };
        let count = self.put_lines(options, name, text)?;
        self.tally.selected = self.tally.selected.saturating_add(count);
        if count > 0 && mode != self.options.mode && !self.output.failed() {
            let row = format!(in self.rt.alloc(); "Binary file {name} matches\n")?;
            self.output.put(row.as_bytes())?;
        }
        Ok(())
    }

    /// Tells how much was searched, where that is asked for while searching.
    fn report(&self) {
        if self.settings.progress {
            let rt = self.rt;
            let Tally {
                texts,
                bytes,
                selected,
                ..
            } = self.tally;
            let _ = eprintln!(rt; "esgrep: {texts} files, {bytes} bytes, {selected} lines");
        }
    }

    /// Writes what waits, tells of what went wrong, and answers the exit status.
    fn finished(&mut self, stop: Result<(), Stop>) -> u8 {
        let rt = self.rt;
        let is_written = !self.output.failed() && self.output.flush().is_ok();
        let failure = self.output.failure();
        if !is_written && failure != Some(ErrorKind::BrokenPipe) {
            self.tally.has_trouble = true;
            let _ = eprintln!(rt; "esgrep: write failed");
        }
        if stop == Err(Stop::OutOfMemory) {
            self.tally.has_trouble = true;
            let _ = eprintln!(rt; "esgrep: out of memory");
        }
        let Tally {
            selected,
            texts,
            bytes,
            has_trouble,
        } = self.tally;
        if self.settings.stats {
            let _ = eprintln!(rt;
                "{selected} lines selected\n{texts} files searched\n{bytes} bytes searched"
            );
        }
        let is_quiet = self.options.mode == Mode::Quiet && selected > 0;
        if has_trouble && !is_quiet {
            TROUBLE
        } else if selected > 0 {
            0
        } else {
            1
        }
    }
}
