//! Where the output goes.
ghost use Rattle.std.specs.Prelude.{◌≡◌, ◌<◌, Bool, false, Option, List, ℕ, length, is_err, IfOk};
ghost use Rattle.std.specs.Io.{WritesAtMost};
ghost use Rattle.std.specs.Io.KnownBytes.{WriteAppends};

use crate::source::Failed;
use std::io::Write;

/// Where bytes are written to.
pub trait Sink {
    // The bytes that were written, where they are known.
    ghost written: { Self → Option (List ℕ) };

    // Whether a write has failed.
    ghost failed: { Self → Bool };

    /// Whether a write has failed.
    fn failed(&self) -> bool
        ensures { result ≡ failed self.now };

    /// Writes bytes from the front of a slice, and answers how many: at least one of a slice that isn't empty.
    ///
    /// Asks that no write has failed. Errs where this one does, and then it wrote no byte.
    ///
    /// ```rust
    /// let count = sink.put(line.as_bytes())?; // the first `count` bytes of the line were written
    /// ```
    fn put(&mut self, bytes: &[u8]) -> Result<usize, Failed>
        requires { failed self.old ≡ false }
        ensures bound { WritesAtMost result bytes.now }
        ensures some { IfOk result (λ count. 0 < length bytes.now → 0 < count) }
        ensures bytes { WriteAppends (written self.old) (written self.new) result bytes.now }
        ensures failure { failed self.new ≡ is_err result };
}

/// A writer of std as a sink. What was written is known where the writer tells its bytes.
#[derive(Drop)]
pub struct StdSink<W: Write> {
    writer: W,
    has_failed: bool,
}

impl<W: Write> StdSink<W> {
    ghost use Rattle.regress_program.specs.Streams.{writer_of, write_failed};

    /// A sink over a writer. None of its writes has failed.
    ///
    /// ```rust
    /// let mut sink = StdSink::new(rt.stdout());
    /// ```
    pub fn new(writer: W) -> StdSink<W>
        ensures writer { writer_of result ≡ writer }
        ensures fresh { write_failed result ≡ false }
    {
        StdSink {
            writer,
            has_failed: false,
        }
    }
}

/// Any error of the writer is a failure, an interruption too, and so is a write that takes no byte of some.
impl<W: Write> Sink for StdSink<W> {
    ghost use Rattle.regress_program.specs.Streams.{writer_of, write_failed};

    ghost written = { λ s. W.contents (writer_of s) };

    ghost failed = { write_failed };

    fn failed(&self) -> bool {
        self.has_failed
    }

    fn put(&mut self, bytes: &[u8]) -> Result<usize, Failed> {
        match self.writer.write(bytes) {
            Ok(count) if count > 0 || bytes.is_empty() => Ok(count),
            _ => {
                self.has_failed = true;
                Err(Failed)
            }
        }
    }
}
