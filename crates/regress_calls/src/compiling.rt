//! Patterns that are compiled for a caller.
ghost use Rattle.std.specs.Prelude.{◌≡◌, IfOk, IfErr, OnOk, OnErr, chars};
ghost use Rattle.regress_meaning.specs.Flags.{options_of};
ghost use Rattle.regress_meaning.specs.TableParts.{TableParts as Parts, table_of};
ghost use Rattle.regress_front.specs.FlagWords.{options};
ghost use Rattle.regress_front.specs.TableViews.{table};
ghost use Rattle.regress.specs.declared.api.Regex.{Regex as RegexValue};
ghost use Rattle.regress.specs.Limited.{MayRefuseWithin};
ghost use Rattle.regress_calls.specs.Codes.{of_compile_error};
ghost use Rattle.regress_calls.specs.Compiling.{IsCompiled, MayRefuseFlags, MayRefuseCompile, MayRefusePoints, is_whole, meant, points_of_source};
ghost use Rattle.regress_calls.specs.Handles.{OfPattern, OfTables, content};

use crate::held::Held;
use crate::sharing::tables_in;
use crate::slot::Slot;
use crate::text::utf8;
use regress::{
    CompileError, Error, FlagError, Flags, Regex, Tables, syntax_error, syntax_error_in_units,
};
use regress_call_errors::CallError;
use std::alloc::{AllocError, Global};
use std::sync::Arc;

/// A pattern as a caller hands it in.
#[derive(Clone, Copy, Debug)]
pub enum Source<'p> {
    /// UTF-8; places are in bytes.
    Utf8(&'p str),
    /// 16-bit units, as script interpreters have them; places are in units.
    Units(&'p [u16]),
    /// UTF-8, of a pattern that is to match whole texts alone; places are in bytes.
    Whole(&'p str),
}

/// Why a pattern is not compiled.
#[derive(Clone, Debug, Drop)]
pub struct Refusal {
    /// Which error it is.
    pub error: CallError,
    /// Where reading stopped, in bytes or units of the pattern, for `Syntax`; where the letter stands in the flags, for an error
    /// of a flag; else 0.
    pub place: usize,
    /// What is wrong, in ASCII.
    pub text: &'static str,
}

impl Refusal {
    /// A refusal with the text that its error has.
    fn new(error: CallError, place: usize) -> Refusal
        ensures { result.error ≡ error }
    {
        Refusal {
            error,
            place,
            text: error.text(),
        }
    }
}

impl From<CallError> for Refusal {
    ghost use Rattle.std.specs.Prelude.{◌≡◌};

    ghost from_gives = { λ refused r. r.error ≡ refused };

    fn from(refused: CallError) -> Refusal {
        Refusal::new(refused, 0)
    }
}

/// The offset at which a letter stands in a word: that of the first, or of the second where it is repeated.
fn letter_place(letters: &str, letter: char, is_repeated: bool) -> usize {
    let mut before = 0;
    for (at, other) in letters.char_indices() {
        if other == letter && (before == 1 || !is_repeated) {
            return at;
        }
        if other == letter {
            before = 1;
        }
    }
    0
}

/// The flags that a word sets, or why it is none.
fn read_flags(letters: &str) -> Result<Flags, Refusal>
    ensures read { IfOk result (λ flags. options flags ≡ options_of (chars letters.now)) }
    ensures refused { IfErr result (λ e. MayRefuseFlags letters.now e.error) }
{
    match Flags::parse(letters) {
        Ok(script) => Ok(script.flags),
        Err(refused) => {
            let place = match &refused {
                FlagError::Unknown { letter } => letter_place(letters, *letter, false),
                FlagError::Repeated { letter } => letter_place(letters, *letter, true),
                FlagError::BothUnicodeModes => 0,
            };
            Err(Refusal::new(CallError::from(refused), place))
        }
    }
}

impl Source<'_> {
    /// Compiles it within a limit.
    fn compile(
        &self,
        alloc: Global,
        flags: Flags,
        tables: &Tables,
        limit: usize,
    ) -> Result<Regex, CompileError>
        ensures compiled { IfOk result (λ r. IsCompiled limit (is_whole self.now) (points_of_source self.now (options flags)) (table tables.now) (options flags) r) }
        ensures refused { IfErr result (MayRefuseWithin limit (meant (is_whole self.now)) (table tables.now) (options flags) (points_of_source self.now (options flags))) }
    {
        match self {
            Source::Utf8(text) => Regex::with_limit(alloc, text, flags, tables, limit),
            Source::Units(units) => {
                Regex::from_utf16_with_limit(alloc, units, flags, tables, limit)
            }
            Source::Whole(text) => Regex::whole_text_with_limit(alloc, text, flags, tables, limit),
        }
    }

    /// Where reading it stops, if it is no pattern: in bytes of a text, and in units.
    fn place(&self, alloc: Global, flags: Flags, tables: &Tables) -> Result<usize, Error> {
        let found = match self {
            Source::Utf8(text) | Source::Whole(text) => {
                syntax_error(alloc, text, flags, tables)?.map(|found| found.offset)
            }
            Source::Units(units) => {
                syntax_error_in_units(alloc, units, flags, tables)?.map(|found| found.unit_offset)
            }
        };
        Ok(found.unwrap_or(0))
    }
}

/// The refusal of a pattern that was not compiled, with its place. Where memory is refused while that is sought, it is 0.
fn refused(
    alloc: Global,
    source: &Source<'_>,
    flags: Flags,
    tables: &Tables,
    error: CompileError,
) -> Refusal
    ensures { result.error ≡ of_compile_error error }
{
    let CompileError::Pattern(Error::Syntax { text }) = error else {
        return Refusal::new(CallError::from(error), 0);
    };
    Refusal {
        error: CallError::Syntax,
        place: source.place(alloc, flags, tables).unwrap_or(0),
        text,
    }
}

/// The pattern that is compiled from a source, with flags and tables, within a limit.
fn compiled(
    alloc: Global,
    source: &Source<'_>,
    flags: Flags,
    tables: &Tables,
    limit: usize,
) -> Result<Box<Held>, Refusal>
    ensures compiled { IfOk result (λ held. (r : RegexValue) × (content (Some held.value) ≡ OfPattern r)
        × IsCompiled limit (is_whole source.now) (points_of_source source.now (options flags)) (table tables.now) (options flags) r) }
    ensures refused { IfErr result (λ e. MayRefusePoints limit (is_whole source.now) (table tables.now) (options flags) (points_of_source source.now (options flags)) e.error) }
{
    match source.compile(alloc, flags, tables, limit) {
        Ok(regex) => Ok(boxed(alloc, regex)?),
        Err(error) => Err(refused(alloc, source, flags, tables, error)),
    }
}

/// A pattern as it is held.
fn boxed(alloc: Global, regex: Regex) -> Result<Box<Held>, CallError>
    ensures held { IfOk result (λ held. content (Some held.value) ≡ OfPattern regex) }
    ensures refused { IfErr result (λ e. e ≡ CallError.OutOfMemory) }
{
    let shared = Arc::new(alloc, regex)?;
    let held = Box::new(alloc, Held::Pattern(shared))?;
    Ok(held)
}

/// Compiles a pattern ("RegExpInitialize") with the tables that a handle holds, and puts it into another. `letters` are flags as
/// ECMAScript has them. Neither program of it may have more instructions than the limit; `DEFAULT_LIMIT` is one for patterns of
/// strangers.
///
/// Refused as `WrongHandle` where no tables are held, as `NotUtf8` or an error of flags where the letters are no flags, as
/// `PastLimit` exactly where the pattern may have more instructions, and else as `Regex::with_flags` says.
pub fn compile(
    alloc: Global,
    source: Source<'_>,
    letters: &[u8],
    limit: usize,
    tables: &mut Slot,
    out: &mut Slot,
) -> Result<(), Refusal>
    ensures compiled { (ps : Parts) → content tables.old.held ≡ OfTables ps →
        OnOk result ((r : RegexValue) × (content out.new.held ≡ OfPattern r)
        × IsCompiled limit (is_whole source.entry) (points_of_source source.entry (options_of (chars letters.now))) (table_of ps) (options_of (chars letters.now)) r) }
    ensures kept { content tables.new.held ≡ content tables.old.held }
    ensures refused { IfErr result (λ e. MayRefuseCompile (content tables.old.held) limit (is_whole source.entry) (points_of_source source.entry) letters.now e.error) }
    ensures untouched { OnErr result (content out.new.held ≡ content out.old.held) }
{
    let known = tables_in(alloc, tables)?;
    let flags = read_flags(utf8(letters)?)?;
    match compiled(alloc, &source, flags, &known, limit) {
        Ok(held) => {
            out.put(alloc, held);
            Ok(())
        }
        Err(refused) => Err(refused),
    }
}
