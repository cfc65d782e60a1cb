//! Texts that are searched.
ghost use Rattle.std.specs.Prelude.{◌≡◌, ◌↔◌, ◌+◌, ◌<◌, ◌≤◌, ◌^◌, ℕ, IsTrue, IfOk, IfErr, None, chars, length};
ghost use Rattle.std.specs.Str.{IsUtf8};
ghost use Rattle.regress_meaning.specs.Laws.{IsItemInside};
ghost use Rattle.regress_meaning.specs.Matches.{Item, next_place};
ghost use Rattle.regress_meaning.specs.Offsets.{Begins, characters, of_ucs2, of_utf8, of_utf16, offset};
ghost use Rattle.regress_calls.specs.Texts.{EndsAtStart, IsRangeOf, reading_of_text};

use regress::{Range, is_start, is_unit_start};
use regress_call_errors::CallError;

/// A text to be searched, of one of four kinds.
#[derive(Clone, Copy, Debug)]
pub enum Text<'t> {
    /// UTF-8; offsets are in bytes.
    Utf8(&'t str),
    /// ASCII; offsets are in bytes.
    Ascii(&'t str),
    /// 16-bit units, of which a high one before a low one is one character; offsets are in units.
    Utf16(&'t [u16]),
    /// 16-bit units that are one character each; offsets are in units.
    Ucs2(&'t [u16]),
}

/// The bytes as a text, where they are UTF-8.
///
/// ```rust
/// let text = utf8(b"\xFF"); // `Err(CallError::NotUtf8)`
/// ```
pub fn utf8(bytes: &[u8]) -> Result<&str, CallError>
    ensures text { IfOk result (λ text. text.now ≡ bytes.now) }
    ensures refused { IfErr result (λ e. (e ≡ CallError.NotUtf8) × ¬ (IsUtf8 bytes.now)) }
{
    match std::str::from_utf8(bytes) {
        Ok(text) => Ok(text),
        Err(_) => Err(CallError::NotUtf8),
    }
}

/// How many bytes a text has: the offset of its end.
fn len_in_bytes(text: &str) -> usize
    ensures end { offset (of_utf8 text.now) (length (chars text.now)) ≡ result }
    ensures small { result < 2 ^ 63 }
{
    text.len()
}

/// How many units there are: the offset of their end, in pairs and one by one.
fn len_in_units(units: &[u16]) -> usize
    ensures utf16 { offset (of_utf16 units.now) (length (characters units.now)) ≡ result }
    ensures ucs2 { offset (of_ucs2 units.now) (length units.now) ≡ result }
    ensures small { result < 2 ^ 63 }
{
    units.len()
}

impl Text<'_> {
    /// Whether a search may begin at an offset: at a boundary between characters, or past the end.
    ///
    /// ```rust
    /// let inside = Text::Utf8("é").is_start(1); // false
    /// ```
    pub fn is_start(&self, start: usize) -> bool
        ensures { IsTrue result ↔ ((place : ℕ) × Begins (reading_of_text self.now) start place) }
    {
        match self {
            Text::Utf8(text) | Text::Ascii(text) => is_start(text, start),
            Text::Utf16(units) => is_unit_start(units, start),
            Text::Ucs2(_) => true,
        }
    }

    /// How many bytes or units it has.
    fn len(&self) -> usize
        ensures end { offset (reading_of_text self.now) (length (reading_of_text self.now).points) ≡ result }
        ensures small { result < 2 ^ 63 }
    {
        match self {
            Text::Utf8(text) | Text::Ascii(text) => len_in_bytes(text),
            Text::Utf16(units) | Text::Ucs2(units) => len_in_units(units),
        }
    }

    /// A start past the end.
    fn past_end(&self) -> usize
        ensures { Begins (reading_of_text self.now) result (length (reading_of_text self.now).points + 1) }
    {
        let end = self.len();
        prove!(end < usize::MAX);
        usize::MAX
    }

    /// The next start behind one: at the end of its character, or past the end of the text.
    fn start_after(&self, at: usize) -> usize
        ensures next { (p : ℕ) → p ≤ length (reading_of_text self.now).points → offset (reading_of_text self.now) p ≡ at → Begins (reading_of_text self.now) result (p + 1) }
        ensures start { (place : ℕ) × Begins (reading_of_text self.now) result place }
    {
        let next = at.saturating_add(1);
        for start in next..self.len() {
            if self.is_start(start) {
                return start;
            }
        }
        next.max(self.len())
    }

    /// Where a search goes on behind what it found ("AdvanceStringIndex"): at the end of a match, or where that is empty, at the
    /// next start; past the end where nothing was found.
    pub(crate) fn start_behind(&self, found: &Option<Range>) -> usize
        requires { EndsAtStart (reading_of_text self.now) found.now }
        ensures next { (i : Item) → IsItemInside (reading_of_text self.now).points i → IsRangeOf (reading_of_text self.now) i found.now → Begins (reading_of_text self.now) result (next_place i) }
        ensures past { found.now ≡ None → Begins (reading_of_text self.now) result (length (reading_of_text self.now).points + 1) }
        ensures start { (place : ℕ) × Begins (reading_of_text self.now) result place }
    {
        match found {
            Some(range) if range.start != range.end => range.end,
            Some(range) => self.start_after(range.end),
            None => self.past_end(),
        }
    }
}
