//! What the program's calls promise: each function states a promise, and its body is the call that keeps it.
ghost use Rattle.std.specs.Prelude.{◌≡◌, ◌≢◌, ◌↔◌, ◌⊎◌, [], true, false, Some, Result, chars, string_bytes, IsUtf8, OnOk, IfSome, IsErrOf};
ghost use Rattle.std.specs.Io.KnownBytes.{Appends};
ghost use Rattle.regress_meaning.specs.Flags.{options_of};
ghost use Rattle.regress_front_core.specs.declared.error.Error as library;
ghost use Rattle.regress_front_core.specs.declared.error.Error.TheVariants as library_error;
ghost use Rattle.regress.specs.Refusing.{MayRefuseRegex};
ghost use Rattle.regress_program.specs.Answering.{Asks, Runs};
ghost use Rattle.regress_program.specs.Endings.{ending_of};
ghost use Rattle.regress_program.specs.Running.{small, AppendsFront, Accepted, Searched};

use regress_program::{Ending, Request, Sink, Source, ToolError, answer, run};
use std::alloc::Global;
use std::env::Args;
use std::io;

/// A run of a pattern: all is read, and the lines of all matches are written and nothing else, or it errs so.
fn lines_of_matches<R: Source, W: Sink>(
    alloc: Global,
    source: &mut R,
    sink: &mut W,
    flags: &str,
    pattern: &str,
) -> Result<(), ToolError>
    requires source { R.failed source.old ≡ false }
    requires sink { W.failed sink.old ≡ false }
    ensures ok { OnOk result (IfSome (R.left source.old) (λ input.
        Searched flags.now pattern.now input (R.left source.new)
        (Appends (W.written sink.old) (W.written sink.new)))) }
    ensures pattern { (e : library.Error) → IsErrOf result (ToolError.Pattern e)
        → MayRefuseRegex small (options_of (chars flags.now)) (chars pattern.now) e × (e ≢ library_error.OutOfMemory)
        × (source.new ≡ source.old) × (sink.new ≡ sink.old) }
    ensures read { IsErrOf result ToolError.Read ↔ (R.failed source.new ≡ true) }
    ensures on_read { IsErrOf result ToolError.Read → Accepted flags.now pattern.now × (sink.new ≡ sink.old) }
    ensures not_utf8 { IsErrOf result ToolError.NotUtf8 → Accepted flags.now pattern.now × (sink.new ≡ sink.old)
        × IfSome (R.left source.old) (λ input. (R.left source.new ≡ Some []) × ¬ IsUtf8 input) }
    ensures write { IsErrOf result ToolError.Write ↔ (W.failed sink.new ≡ true) }
    ensures on_write { IsErrOf result ToolError.Write → IfSome (R.left source.old) (λ input.
        Searched flags.now pattern.now input (R.left source.new)
        (AppendsFront (W.written sink.old) (W.written sink.new))) }
    ensures out_of_memory { IsErrOf result ToolError.OutOfMemory
        → (sink.new ≡ sink.old) ⊎ IfSome (R.left source.old) (λ input.
        Searched flags.now pattern.now input (R.left source.new)
        (AppendsFront (W.written sink.old) (W.written sink.new))) }
{
    run(alloc, source, sink, flags, pattern)
}

/// The whole program: exactly two words are run.
fn whole<R: Source, W: Sink>(
    alloc: Global,
    words: io::Result<Args>,
    source: &mut R,
    sink: &mut W,
) -> Ending
    requires source { R.failed source.old ≡ false }
    requires sink { W.failed sink.old ≡ false }
    ensures { (request : Request) → Asks words request
        → (outcome : Result (Unit {0}) ToolError) × (result ≡ ending_of outcome)
        × Runs R.left R.failed W.written W.failed (string_bytes request.flags) (string_bytes request.pattern)
        source.old source.new sink.old sink.new outcome }
{
    answer(alloc, words, source, sink)
}
