//! The program, and one run of it.
ghost use Rattle.std.specs.Prelude.{◌≡◌, ◌≢◌, ◌↔◌, ◌⊎◌, ◌++◌, ℕ, [], take, true, false, Some, Result, chars, string_bytes, IsUtf8, OnOk, OnErr, IfOk, IfErr, IfSome, IsErrOf, is_err};
ghost use Rattle.std.specs.IoError.{error_kind};
ghost use Rattle.std.specs.Vec.Iter.{into_iter_items};
ghost use Rattle.std.specs.Io.KnownBytes.{Appends};
ghost use Rattle.regress_meaning.specs.Table.{Table};
ghost use Rattle.regress_meaning.specs.Pattern.{Pattern};
ghost use Rattle.regress_meaning.specs.Flags.{Options, options_of};
ghost use Rattle.regress_front_core.specs.declared.error.Error as library;
ghost use Rattle.regress_front_core.specs.declared.error.Error.TheVariants as library_error;
ghost use Rattle.regress.specs.Standing.{StandsFor};
ghost use Rattle.regress.specs.Refusing.{MayRefuseRegex};
ghost use Rattle.regress_program.specs.Answering.{Asks, Runs};
ghost use Rattle.regress_program.specs.Endings.{ending_of};
ghost use Rattle.regress_program.specs.Words.{request_of};
ghost use Rattle.regress_program.specs.Running.{small, output, AppendsFront, Waits, Accepted, Searched};

use crate::ending::Ending;
use crate::error::ToolError;
use crate::lines::push_line;
use crate::sink::Sink;
use crate::source::{Failed, Source};
use crate::words::{Request, read_words};
use regress::{Flags, Regex, Tables};
use std::alloc::Global;
use std::env::Args;
use std::io;
use std::io::ErrorKind;

/// How many bytes are asked for at a time.
const CHUNK: usize = 4096;

/// With how many bytes that wait to be written no line waits any more.
const PENDING: usize = 65536;

/// The whole program: reads its words, runs, and tells how it ends.
///
/// `words` are those of the command line, as `std::env::args` gives them: the program's own name, FLAGS and PATTERN. Asks
/// that neither stream has failed. Where there are other words, or none can be read, neither stream is touched.
///
/// ```rust
/// let ending = answer(rt.alloc(), env::args(&rt), &mut source, &mut sink);
/// let status = ending.status();
/// ```
pub fn answer<R: Source, W: Sink>(
    alloc: Global,
    words: io::Result<Args>,
    source: &mut R,
    sink: &mut W,
) -> Ending
    requires source { R.failed source.old ≡ false }
    requires sink { W.failed sink.old ≡ false }

    // Two words are run, and how that ends is told.
    ensures asked { (request : Request) → Asks words request
        → (outcome : Result (Unit {0}) ToolError) × (result ≡ ending_of outcome)
        × Runs R.left R.failed W.written W.failed (string_bytes request.flags) (string_bytes request.pattern)
        source.old source.new sink.old sink.new outcome }

    // Any other number of words is wrong, and so are words that can't be read.
    ensures wrong_words { IfOk words (λ ws. request_of (into_iter_items ws) ≡ Err Ending.WrongWords
        → (result ≡ Ending.WrongWords) × (source.new ≡ source.old) × (sink.new ≡ sink.old)) }
    ensures unread { IfErr words (λ e. (source.new ≡ source.old) × (sink.new ≡ sink.old)
        × ((result ≡ Ending.Failed ToolError.OutOfMemory) ↔ (error_kind e ≡ ErrorKind.OutOfMemory))
        × ((result ≡ Ending.WrongWords) ↔ (error_kind e ≢ ErrorKind.OutOfMemory))) }
{
    match read_words(words) {
        Ok(request) => {
            let Request { flags, pattern } = request;
            Ending::from(run(alloc, source, sink, flags.as_str(), pattern.as_str()))
        }
        Err(ending) => ending,
    }
}

/// Reads all input, and writes a line for each match of a pattern in it, as [`push_line`] makes it.
///
/// `flags` is a flags word, `pattern` the pattern as it stands; the tables are the small ones. Asks that neither stream has
/// failed. The errors are found in this order: a text that is no pattern or passes a limit, before anything is read; a read
/// that fails; input that is not UTF-8; then a write that fails. A request for memory may be refused at any time, and over a
/// source that never ends one is. After a write that fails, a beginning of the output was written.
///
/// ```rust
/// run(alloc, &mut source, &mut sink, "i", "(a)b")?;       // of `xAB` it writes `1..3 1..2`
/// ```
pub fn run<R: Source, W: Sink>(
    alloc: Global,
    source: &mut R,
    sink: &mut W,
    flags: &str,
    pattern: &str,
) -> Result<(), ToolError>
    requires source { R.failed source.old ≡ false }
    requires sink { W.failed sink.old ≡ false }
    ensures ok { OnOk result (IfSome (R.left source.old) (λ input.
        Searched flags.now pattern.now input (R.left source.new)
        (Appends (W.written sink.old) (W.written sink.new)))) }

    // An error of the pattern is found first.
    ensures pattern { (e : library.Error) → IsErrOf result (ToolError.Pattern e)
        → MayRefuseRegex small (options_of (chars flags.now)) (chars pattern.now) e × (e ≢ library_error.OutOfMemory)
        × (source.new ≡ source.old) × (sink.new ≡ sink.old) }

    // Then a read that fails, and then what is not UTF-8.
    ensures read { IsErrOf result ToolError.Read ↔ (R.failed source.new ≡ true) }
    ensures on_read { IsErrOf result ToolError.Read → Accepted flags.now pattern.now × (sink.new ≡ sink.old) }
    ensures not_utf8 { IsErrOf result ToolError.NotUtf8 → Accepted flags.now pattern.now × (sink.new ≡ sink.old)
        × IfSome (R.left source.old) (λ input. (R.left source.new ≡ Some []) × ¬ IsUtf8 input) }

    // Then a write that fails.
    ensures write { IsErrOf result ToolError.Write ↔ (W.failed sink.new ≡ true) }
    ensures on_write { IsErrOf result ToolError.Write → IfSome (R.left source.old) (λ input.
        Searched flags.now pattern.now input (R.left source.new)
        (AppendsFront (W.written sink.old) (W.written sink.new))) }

    // Memory may be refused before anything is written, or after a beginning of the output.
    ensures out_of_memory { IsErrOf result ToolError.OutOfMemory
        → (sink.new ≡ sink.old) ⊎ IfSome (R.left source.old) (λ input.
        Searched flags.now pattern.now input (R.left source.new)
        (AppendsFront (W.written sink.old) (W.written sink.new))) }
{
    let Ok(tables) = Tables::small(alloc) else {
        return Err(ToolError::OutOfMemory);
    };
    let regex = Regex::with_flags(alloc, pattern, Flags::from(flags), &tables)?;
    let bytes = read_all(alloc, source)?;
    let Ok(text) = str::from_utf8(bytes.as_slice()) else {
        return Err(ToolError::NotUtf8);
    };
    write_lines(alloc, &regex, text, sink)
}

/// Writes a line for each match in a text. On an error, a beginning of them was written: where memory was refused, the lines of
/// all matches that were found before.
fn write_lines<W: Sink>(
    alloc: Global,
    regex: &Regex,
    text: &str,
    sink: &mut W,
) -> Result<(), ToolError>
    requires { W.failed sink.old ≡ false }
    ensures ok { (t : Table) → (o : Options) → (p : Pattern) → StandsFor regex.now t o p
        → OnOk result (Appends (W.written sink.old) (W.written sink.new) (output t o p text.now)) }
    ensures err { (t : Table) → (o : Options) → (p : Pattern) → StandsFor regex.now t o p
        → OnErr result (AppendsFront (W.written sink.old) (W.written sink.new) (output t o p text.now)) }
    ensures write { IsErrOf result ToolError.Write ↔ (W.failed sink.new ≡ true) }
    ensures errors { IfErr result (λ e. (e ≡ ToolError.Write) ⊎ (e ≡ ToolError.OutOfMemory)) }
{
    let mut pending = Vec::new(alloc);
    let found = put_lines(alloc, regex, text, sink, &mut pending);
    if !sink.failed() && put_all(sink, &pending).is_err() {
        return Err(ToolError::Write);
    }
    found
}

/// Puts a line for each match in a text behind the bytes that wait to be written, of which there are none yet. What no longer
/// waits was written.
fn put_lines<W: Sink>(
    alloc: Global,
    regex: &Regex,
    text: &str,
    sink: &mut W,
    pending: &mut Vec<u8>,
) -> Result<(), ToolError>
    requires sink { W.failed sink.old ≡ false }
    requires pending { pending.old.items ≡ [] }
    ensures ok { (t : Table) → (o : Options) → (p : Pattern) → StandsFor regex.now t o p
        → OnOk result (Waits (W.written sink.old) (W.written sink.new) pending.new.items (output t o p text.now)) }
    ensures refused { (t : Table) → (o : Options) → (p : Pattern) → StandsFor regex.now t o p → IsErrOf result ToolError.OutOfMemory
        → (count : ℕ) × Waits (W.written sink.old) (W.written sink.new) pending.new.items (take count (output t o p text.now)) }
    ensures failed { (t : Table) → (o : Options) → (p : Pattern) → StandsFor regex.now t o p → IsErrOf result ToolError.Write
        → AppendsFront (W.written sink.old) (W.written sink.new) (output t o p text.now) }
    ensures write { IsErrOf result ToolError.Write ↔ (W.failed sink.new ≡ true) }
    ensures errors { IfErr result (λ e. (e ≡ ToolError.Write) ⊎ (e ≡ ToolError.OutOfMemory)) }
{
    let mut line = String::new(alloc);
    for found in regex.find_iter(text)? {
        let found = found?;
        line.clear();
        push_line(&mut line, &found)?;
        if put_line(sink, pending, line.as_bytes()).is_err() {
            return Err(ToolError::Write);
        }
    }
    Ok(())
}

/// Puts a line behind the bytes that wait to be written. Where these are many, or memory for the line is refused, writes them
/// and the line. On an error, a beginning of them was written.
fn put_line<W: Sink>(sink: &mut W, pending: &mut Vec<u8>, line: &[u8]) -> Result<(), Failed>
    requires { W.failed sink.old ≡ false }
    ensures ok { OnOk result (Waits (W.written sink.old) (W.written sink.new) pending.new.items (pending.old.items ++ line.now)) }
    ensures err { OnErr result (AppendsFront (W.written sink.old) (W.written sink.new) (pending.old.items ++ line.now)) }
    ensures failure { W.failed sink.new ≡ is_err result }
{
    if pending.len() < PENDING && pending.extend_from_slice(line).is_ok() {
        return Ok(());
    }
    put_all(sink, pending)?;
    pending.clear();
    put_all(sink, line)
}

/// Reads all that is left. Each read but the last adds to the buffer, so over a source that never ends memory is refused.
fn read_all<R: Source>(alloc: Global, source: &mut R) -> Result<Vec<u8>, ToolError>
    requires { R.failed source.old ≡ false }
    ensures read { IfOk result (λ bytes. IfSome (R.left source.old) (λ input. (bytes.items ≡ input) × (R.left source.new ≡ Some []))) }
    ensures failure { IsErrOf result ToolError.Read ↔ (R.failed source.new ≡ true) }
    ensures errors { IfErr result (λ e. (e ≡ ToolError.Read) ⊎ (e ≡ ToolError.OutOfMemory)) }
{
    let mut bytes = Vec::new(alloc);
    let mut chunk = [0; CHUNK];
    loop {
        match source.take(&mut chunk) {
            Ok(0) => return Ok(bytes),
            Ok(count) => bytes.extend_from_slice(&chunk[..count])?,
            Err(Failed) => return Err(ToolError::Read),
        }
    }
}

/// Writes all bytes. On an error, a beginning of them was written.
fn put_all<W: Sink>(sink: &mut W, bytes: &[u8]) -> Result<(), Failed>
    requires { W.failed sink.old ≡ false }
    ensures ok { OnOk result (Appends (W.written sink.old) (W.written sink.new) bytes.now) }
    ensures err { OnErr result (AppendsFront (W.written sink.old) (W.written sink.new) bytes.now) }
    ensures failure { W.failed sink.new ≡ is_err result }
{
    let mut done = 0;
    while done < bytes.len() {
        done += sink.put(&bytes[done..])?;
    }
    Ok(())
}
