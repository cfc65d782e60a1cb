//! Where the input comes from.
ghost use Rattle.std.specs.Prelude.{◌≡◌, Bool, false, Option, List, ℕ, is_err};
ghost use Rattle.std.specs.Io.{ReadsAtMost};
ghost use Rattle.std.specs.Io.KnownBytes.{ReadConsumes};

use std::io::Read;

/// A read or a write failed.
#[derive(Clone, Copy, Debug, PartialEq, Eq)]
pub struct Failed;

/// Where bytes are read from.
pub trait Source {
    // The bytes that are left, where they are known.
    ghost left: { Self → Option (List ℕ) };

    // Whether a read has failed.
    ghost failed: { Self → Bool };

    /// Whether a read has failed.
    fn failed(&self) -> bool
        ensures { result ≡ failed self.now };

    /// Reads bytes into the front of a buffer, and answers how many: 0 only at the end, and where the buffer is empty.
    ///
    /// Asks that no read has failed. Errs where this one does, and then it took no byte.
    ///
    /// ```rust
    /// let count = source.take(&mut chunk)?; // the first `count` bytes of `chunk` are the next of the input
    /// ```
    fn take(&mut self, buffer: &mut [u8]) -> Result<usize, Failed>
        requires { failed self.old ≡ false }
        ensures bound { ReadsAtMost result buffer.new }
        ensures bytes { ReadConsumes (left self.old) (left self.new) result buffer.new }
        ensures failure { failed self.new ≡ is_err result };
}

/// A reader of std as a source. What it has left is known where the reader tells its bytes.
#[derive(Drop)]
pub struct StdSource<R: Read> {
    reader: R,
    has_failed: bool,
}

impl<R: Read> StdSource<R> {
    ghost use Rattle.regress_program.specs.Streams.{reader_of, read_failed};

    /// A source over a reader. None of its reads has failed.
    ///
    /// ```rust
    /// let mut source = StdSource::new(rt.stdin());
    /// ```
    pub fn new(reader: R) -> StdSource<R>
        ensures reader { reader_of result ≡ reader }
        ensures fresh { read_failed result ≡ false }
    {
        StdSource {
            reader,
            has_failed: false,
        }
    }
}

/// Any error of the reader is a failure, an interruption too.
impl<R: Read> Source for StdSource<R> {
    ghost use Rattle.regress_program.specs.Streams.{reader_of, read_failed};

    ghost left = { λ s. R.remaining (reader_of s) };

    ghost failed = { read_failed };

    fn failed(&self) -> bool {
        self.has_failed
    }

    fn take(&mut self, buffer: &mut [u8]) -> Result<usize, Failed> {
        match self.reader.read(buffer) {
            Ok(count) => Ok(count),
            Err(_) => {
                self.has_failed = true;
                Err(Failed)
            }
        }
    }
}
