//! The program's runs over streams that fail, that are long, or that give and take little at a time.

use regress_program::{Failed, Sink, Source, StdSink, StdSource, ToolError, run};
use std::alloc::{AllocError, Global};
use std::io;
use std::io::{ErrorKind, Read, Write};
use std::test::Fail;

/// A reader and a writer over memory. Each call gives or takes so many bytes at most; one call fails with an error of a kind,
/// and those behind it would go on.
#[derive(Drop)]
struct Faulty {
    given: Vec<u8>,
    at: usize,
    taken: Vec<u8>,
    most: usize,
    calls: usize,
    failing_call: usize,
    kind: ErrorKind,
}

impl Faulty {
    /// Gives these bytes, so many a call; the call of this number fails. Calls are counted from 1.
    fn new(
        alloc: Global,
        bytes: &[u8],
        most: usize,
        failing_call: usize,
        kind: ErrorKind,
    ) -> Result<Faulty, AllocError> {
        let mut given = Vec::new(alloc);
        given.extend_from_slice(bytes)?;
        Ok(Faulty {
            given,
            at: 0,
            taken: Vec::new(alloc),
            most,
            calls: 0,
            failing_call,
            kind,
        })
    }

    /// Whether its own failing call has been made.
    fn has_failed(&self) -> bool {
        0 < self.failing_call && self.failing_call <= self.calls
    }

    fn count_call(&mut self) -> io::Result<()> {
        self.calls = self.calls.saturating_add(1);
        if self.calls == self.failing_call {
            return Err(io::Error::from(self.kind));
        }
        Ok(())
    }
}

impl Read for Faulty {
    fn read(&mut self, buffer: &mut [u8]) -> io::Result<usize> {
        self.count_call()?;
        let most = self.most.min(buffer.len());
        let at = self.at.min(self.given.len());
        let mut rest = &self.given.as_slice()[at..];
        let count = rest.read(&mut buffer[..most])?;
        self.at = at.saturating_add(count);
        Ok(count)
    }
}

impl Write for Faulty {
    fn write(&mut self, bytes: &[u8]) -> io::Result<usize> {
        self.count_call()?;
        let most = self.most.min(bytes.len());
        self.taken.extend_from_slice(&bytes[..most])?;
        Ok(most)
    }

    fn flush(&mut self) -> io::Result<()> {
        Ok(())
    }
}

/// Runs a pattern from a reader to a writer; `None` where what the streams say of themselves is not what is answered.
fn run_over(
    alloc: Global,
    pattern: &str,
    reader: &mut Faulty,
    writer: &mut Faulty,
) -> Option<Result<(), ToolError>> {
    let mut source = StdSource::new(&mut *reader);
    let mut sink = StdSink::new(&mut *writer);
    let result = run(alloc, &mut source, &mut sink, "", pattern);
    let has_read_failed = result == Err(ToolError::Read);
    let has_write_failed = result == Err(ToolError::Write);
    let is_told = source.failed() == has_read_failed && sink.failed() == has_write_failed;
    if is_told && reader.has_failed() == has_read_failed {
        Some(result)
    } else {
        None
    }
}

/// A run: how many bytes are read and taken a call, which read and which write fails, what has to be answered and written, and
/// how often is read and written.
#[derive(Clone, Copy)]
struct Case<'a> {
    pattern: &'a str,
    input: &'a [u8],
    given: usize,
    failing_read: usize,
    taken: usize,
    failing_write: usize,
    answer: &'a Result<(), ToolError>,
    written: &'a str,
    reads: usize,
    writes: usize,
}

/// Whether a run ends so where calls fail with an error of this kind.
fn ends_so(alloc: Global, case: &Case<'_>, kind: ErrorKind) -> Result<bool, AllocError> {
    let mut reader = Faulty::new(alloc, case.input, case.given, case.failing_read, kind)?;
    let mut writer = Faulty::new(alloc, b"", case.taken, case.failing_write, kind)?;
    let answer = run_over(alloc, case.pattern, &mut reader, &mut writer);
    let is_answered = answer.as_ref() == Some(case.answer);
    let is_written = writer.taken.as_slice() == case.written.as_bytes();
    Ok(is_answered && is_written && reader.calls == case.reads && writer.calls == case.writes)
}

const NO_PATTERN: ToolError = ToolError::Pattern(regress::Error::Syntax {
    text: "Unbalanced parenthesis",
});

/// A run of `(a)` over `ab`, a byte a call.
const WHOLE: Case<'static> = Case {
    pattern: "(a)",
    input: b"ab",
    given: 1,
    failing_read: 0,
    taken: 1,
    failing_write: 0,
    answer: &Ok(()),
    written: "0..1 0..1\n",
    reads: 3,
    writes: 10,
};

/// The same, with a writer that fails at its third call.
const FAILED_WRITE: Case<'static> = Case {
    failing_write: 3,
    answer: &Err(ToolError::Write),
    written: "0.",
    writes: 3,
    ..WHOLE
};

/// The same, with a writer that takes no byte.
const NO_WRITE: Case<'static> = Case {
    taken: 0,
    answer: &Err(ToolError::Write),
    written: "",
    writes: 1,
    ..WHOLE
};

/// The same, with a reader that fails after a byte.
const FAILED_READ: Case<'static> = Case {
    failing_read: 2,
    answer: &Err(ToolError::Read),
    written: "",
    reads: 2,
    writes: 0,
    ..WHOLE
};

/// Input that is not UTF-8.
const NOT_UTF8: Case<'static> = Case {
    input: b"a\xff",
    answer: &Err(ToolError::NotUtf8),
    written: "",
    writes: 0,
    ..WHOLE
};

/// No pattern: neither stream is touched, though each fails at its first call.
const REFUSED: Case<'static> = Case {
    pattern: "(a",
    failing_read: 1,
    failing_write: 1,
    answer: &Err(NO_PATTERN),
    written: "",
    reads: 0,
    writes: 0,
    ..WHOLE
};

/// The one byte FF, which is not UTF-8 either.
const ONE_BYTE: Case<'static> = Case {
    input: b"\xff",
    reads: 2,
    ..NOT_UTF8
};

const CASES: &[Case<'static>] = &[
    WHOLE,
    FAILED_WRITE,
    NO_WRITE,
    FAILED_READ,
    NOT_UTF8,
    ONE_BYTE,
    REFUSED,
];

/// Runs each case, with failures of a kind.
fn try_cases(alloc: Global, kind: ErrorKind) -> Result<(), Fail> {
    for (row, case) in CASES.iter().enumerate() {
        if !ends_so(alloc, case, kind)? {
            return Err(Fail::new(row));
        }
    }
    Ok(())
}

// An error of any kind is a failure, one that is named after an interruption too.
#[test]
fn streams_that_fail_are_told(rt: HostRuntime) -> Result<(), Fail> {
    try_cases(rt.alloc(), ErrorKind::Interrupted)?;
    try_cases(rt.alloc(), ErrorKind::PermissionDenied)
}

/// One byte more than three chunks of the program.
static LONG: [u8; 12289] = [b'a'; 12289];

/// The lines of the matches of `a` in a text of so many of it.
fn lines_of_letters(alloc: Global, count: usize) -> Result<String, AllocError> {
    let mut lines = String::new(alloc);
    for end in 1..count.saturating_add(1) {
        write!(lines, "{}..{end}\n", end.saturating_sub(1))?;
    }
    Ok(lines)
}

/// The length of an input, how often is read, the write that fails, how many bytes are written, and how often is written: lines
/// wait until they are 64 KiB.
const MANY_LINES: &[(usize, usize, usize, usize, usize)] = &[
    (4095, 2, 0, 42828, 1),
    (4096, 2, 0, 42839, 1),
    (4097, 3, 0, 42850, 1),
    (6000, 3, 0, 63783, 1),
    (12289, 5, 0, 137541, 5),
    (1000, 2, 1, 0, 1),
    (12289, 5, 3, 65554, 3),
];

#[test]
fn many_lines_are_few_writes(rt: HostRuntime) -> Result<(), Fail> {
    for (length, reads, failing_write, count, writes) in MANY_LINES {
        let input = &LONG[..LONG.len().min(*length)];
        let lines = lines_of_letters(rt.alloc(), *length)?;
        let is_whole = *failing_write == 0;
        let answer = if is_whole {
            Ok(())
        } else {
            Err(ToolError::Write)
        };
        let case = Case {
            pattern: "a",
            input,
            given: usize::MAX,
            taken: usize::MAX,
            failing_write: *failing_write,
            answer: &answer,
            written: lines.as_str().get(..*count).ok_or(AllocError)?,
            reads: *reads,
            writes: *writes,
            ..WHOLE
        };
        if !ends_so(rt.alloc(), &case, ErrorKind::Other)? {
            return Err(Fail::new(*length));
        }
    }
    Ok(())
}

#[test]
fn an_empty_write_passes(rt: HostRuntime) -> Result<(), Fail> {
    let mut sink = StdSink::new(Faulty::new(rt.alloc(), b"", 0, 0, ErrorKind::Other)?);
    assert!(rt; sink.put(&[]) == Ok(0) && !sink.failed());
    assert!(rt; sink.put(b"a") == Err(Failed) && sink.failed());
    Ok(())
}
