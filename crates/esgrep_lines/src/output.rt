//! Where rows are put out.
ghost use Rattle.std.specs.Prelude.{◌≡◌, false, [], is_err, OnOk, OnErr};
ghost use Rattle.std.specs.Io.KnownBytes.{Appends, append_known};

use std::alloc::Global;
use std::io::{ErrorKind, Write};

/// With how many bytes that wait to be written no row waits any more.
const PENDING: usize = 65536;

/// A write failed.
#[derive(Clone, Copy, Debug, PartialEq, Eq)]
pub struct Unwritten;

/// Rows on their way to a writer. They wait until there are many, and are then written at once, whole rows always.
#[derive(Drop)]
pub struct Output<W: Write + Drop> {
    writer: W,
    pending: Vec<u8>,
    room: usize,
    failure: Option<ErrorKind>,
}

impl<W: Write + Drop> Output<W> {
    ghost use Rattle.esgrep_lines.specs.Putting.{has_failed, written, put_out, IsBeginning};

    /// Rows on their way to a writer. None waits yet. Each row is written at once where `by_row` says so.
    ///
    /// ```rust
    /// let mut output = Output::new(rt.alloc(), rt.stdout(), false);
    /// ```
    pub fn new(alloc: Global, writer: W, by_row: bool) -> Output<W>
        ensures nothing { put_out W.contents result ≡ append_known (W.contents writer) [] }
        ensures sound { has_failed result ≡ false }
    {
        Output {
            writer,
            pending: Vec::new(alloc),
            room: if by_row { 0 } else { PENDING },
            failure: None,
        }
    }

    /// Whether a write has failed.
    ///
    /// ```rust
    /// let is_lost = output.failed(); // nothing can be put out any more
    /// ```
    pub fn failed(&self) -> bool
        ensures { result ≡ has_failed self.now }
    {
        self.failure.is_some()
    }

    /// With what a write failed.
    ///
    /// ```rust
    /// let is_closed = output.failure() == Some(ErrorKind::BrokenPipe);
    /// ```
    pub fn failure(&self) -> Option<ErrorKind> {
        self.failure
    }

    /// Puts out a row. Asks that no write has failed. Errs where one fails now; then a beginning of all that was put out, this
    /// row too, was written.
    ///
    /// ```rust
    /// output.put(b"a line\n")?;
    /// ```
    pub fn put(&mut self, row: &[u8]) -> Result<(), Unwritten>
        requires { has_failed self.old ≡ false }
        ensures ok { OnOk result (Appends (put_out W.contents self.old) (put_out W.contents self.new) row.now) }
        ensures err { OnErr result (IsBeginning (written W.contents self.new) (append_known (put_out W.contents self.old) row.now)) }
        ensures failure { has_failed self.new ≡ is_err result }
    {
        if self.pending.len() < self.room && self.pending.extend_from_slice(row).is_ok() {
            return Ok(());
        }
        self.flush()?;
        self.write(row)
    }

    /// Writes bytes behind those that were written. Asks that none wait.
    fn write(&mut self, bytes: &[u8]) -> Result<(), Unwritten>
        requires none { self.old.pending.items ≡ [] }
        requires sound { has_failed self.old ≡ false }
        ensures ok { OnOk result (Appends (put_out W.contents self.old) (put_out W.contents self.new) bytes.now) }
        ensures err { OnErr result (IsBeginning (written W.contents self.new) (append_known (put_out W.contents self.old) bytes.now)) }
        ensures failure { has_failed self.new ≡ is_err result }
    {
        if let Err(kind) = write_all(&mut self.writer, bytes) {
            self.failure = Some(kind);
            return Err(Unwritten);
        }
        Ok(())
    }

    /// Writes all rows that wait. Asks that no write has failed. Errs where one fails now; then a beginning of all that was put
    /// out was written.
    ///
    /// ```rust
    /// output.flush()?;
    /// ```
    pub fn flush(&mut self) -> Result<(), Unwritten>
        requires { has_failed self.old ≡ false }
        ensures none { OnOk result (self.new.pending.items ≡ []) }
        ensures same { OnOk result (Appends (put_out W.contents self.old) (put_out W.contents self.new) []) }
        ensures err { OnErr result (IsBeginning (written W.contents self.new) (put_out W.contents self.old)) }
        ensures failure { has_failed self.new ≡ is_err result }
    {
        if let Err(kind) = write_all(&mut self.writer, &self.pending) {
            self.failure = Some(kind);
            return Err(Unwritten);
        }
        self.pending.clear();
        Ok(())
    }
}

ghost use Rattle.esgrep_lines.specs.Putting.{AppendsFront};

/// Writes all bytes. On an error, a beginning of them was written.
fn write_all<W: Write>(writer: &mut W, bytes: &[u8]) -> Result<(), ErrorKind>
    ensures ok { OnOk result (Appends (W.contents writer.old) (W.contents writer.new) bytes.now) }
    ensures err { OnErr result (AppendsFront (W.contents writer.old) (W.contents writer.new) bytes.now) }
{
    let mut done = 0;
    while done < bytes.len() {
        match writer.write(&bytes[done..]) {
            Ok(0) => return Err(ErrorKind::WriteZero),
            Ok(count) => done += count,
            Err(error) => return Err(error.kind()),
        }
    }
    Ok(())
}
