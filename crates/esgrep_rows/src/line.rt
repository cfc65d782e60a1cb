//! The lines of a text.
ghost use Rattle.std.specs.Prelude.{◌≡◌, ◌≢◌, ◌<◌, ◌≤◌, ◌++◌, ◌∷◌, [], length, take, drop, All, IfSome};
ghost use Rattle.std.specs.Str.{IsCharBoundary};
ghost use Rattle.esgrep_rows.specs.Lines.{lines, byte_of, body_len, body, is_last, EndsBefore};

use crate::ending::Ending;
use memchr::{memchr, memchr_iter, memrchr};

/// A line of a text.
#[derive(Clone, Copy, Debug)]
pub struct Line<'t> {
    /// Its number, from 1.
    pub number: usize,
    /// The offset of its first byte.
    pub start: usize,
    /// The line, with what ends it.
    pub text: &'t str,
}

/// The first line of a text, with what ends it, and the text behind it. Asks that the text is not empty.
///
/// ```rust
/// let (line, rest) = first_line("a\nb\n", Ending::Newline); // `a\n` and `b\n`
/// ```
pub fn first_line(text: &str, ending: Ending) -> (&str, &str)
    requires { text.now ≢ [] }
    ensures first { lines (byte_of ending) text.now ≡ result.0.now ∷ lines (byte_of ending) result.1.now }
    ensures whole { text.now ≡ result.0.now ++ result.1.now }
    ensures some { 0 < length result.0.now }
{
    match memchr(ending.byte(), text.as_bytes()) {
        Some(at) => text.split_at(at + 1),
        None => (text, ""),
    }
}

/// How many lines a text has.
///
/// ```rust
/// let count = count_lines("one\ntwo", Ending::Newline); // 2
/// ```
pub fn count_lines(text: &str, ending: Ending) -> usize
    ensures value { result ≡ length (lines (byte_of ending) text.now) }
    ensures few { result ≤ length text.now }
{
    let ends = memchr_iter(ending.byte(), text.as_bytes()).count();
    if text.is_empty() || is_ended(text, ending) {
        ends
    } else {
        ends + 1
    }
}

/// The lines in front of the one in which an offset lies, and the text from that line on. Without an offset these are all lines, and
/// no text.
///
/// Asks that the offset lies in the text, or at its end.
///
/// ```rust
/// let (passed, rest) = lines_before("a\nb\nxyz\n", Some(5), Ending::Newline); // `a\nb\n` and `xyz\n`
/// ```
pub fn lines_before(text: &str, at: Option<usize>, ending: Ending) -> (&str, &str)
    requires { IfSome at (λ at. at ≤ length text.now) }
    ensures lines { lines (byte_of ending) text.now ≡ lines (byte_of ending) result.0.now ++ lines (byte_of ending) result.1.now }
    ensures whole { text.now ≡ result.0.now ++ result.1.now }
    ensures before { All (λ line. EndsBefore text.now at (body ending line)) (lines (byte_of ending) result.0.now) }
{
    match at {
        Some(at) => text.split_at(line_start(text, at, ending)),
        None => (text, ""),
    }
}

/// Where a line begins, told by the offset of one of its bytes.
fn line_start(text: &str, at: usize, ending: Ending) -> usize
    requires { at ≤ length text.now }
    ensures bound { result ≤ at }
    ensures boundary { IsCharBoundary text.now result }
    ensures lines { lines (byte_of ending) text.now ≡ lines (byte_of ending) (take result text.now) ++ lines (byte_of ending) (drop result text.now) }
{
    match memrchr(ending.byte(), &text.as_bytes()[..at]) {
        Some(end) => end + 1,
        None => 0,
    }
}

/// Whether the last of some bytes is this one.
fn ends_in(bytes: &[u8], last: u8) -> bool
    ensures { result ≡ is_last last bytes.now }
{
    !bytes.is_empty() && bytes[bytes.len() - 1] == last
}

/// How many bytes of a line are searched.
fn body_len(line: &str, ending: Ending) -> usize
    ensures value { result ≡ body_len ending line.now }
    ensures bound { result ≤ length line.now }
    ensures boundary { IsCharBoundary line.now result }
{
    let bytes = line.as_bytes();
    if !ends_in(bytes, ending.byte()) {
        return bytes.len();
    }
    let len = bytes.len() - 1;
    if ending == Ending::Newline && ends_in(&bytes[..len], b'\r') {
        len - 1
    } else {
        len
    }
}

/// What is searched of a line: all but what ends it.
///
/// ```rust
/// let body = body_of("a line\r\n", Ending::Newline); // `a line`
/// ```
pub fn body_of(line: &str, ending: Ending) -> &str
    ensures { result.now ≡ body ending line.now }
{
    &line[..body_len(line, ending)]
}

/// What ends a line.
pub(crate) fn end_of(line: &str, ending: Ending) -> &str
    ensures { result.now ≡ drop (body_len ending line.now) line.now }
{
    &line[body_len(line, ending)..]
}

/// Whether a line ends by the byte that ends lines; the last of a text need not.
pub(crate) fn is_ended(line: &str, ending: Ending) -> bool
    ensures { result ≡ is_last (byte_of ending) line.now }
{
    ends_in(line.as_bytes(), ending.byte())
}
