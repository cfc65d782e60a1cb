//! Numbers and quantifiers of a pattern, and escapes that write a code point by its number.
ghost use Rattle.std.specs.Prelude.{◌≡◌, ◌≤◌, true, min, if◌then◌else◌};
ghost use Rattle.regress_meaning.specs.Text.{is_at, between};
ghost use Rattle.regress_meaning.specs.Class.{is_digit};
ghost use Rattle.regress_meaning.specs.Tokens.{is_octal, is_hex, is_high, is_low, digit_value, number_of, greatest, bounds_at, hex_at, low_half, pair_at, braces_at, unicode_escape, octal_at};
ghost use Rattle.regress_front_tokens.specs.Readings.{IsReading};
ghost use Rattle.regress_front_tokens.specs.Words.{count_at, braced_at, bounds_view, quantifier_at, quantifier_view};

use crate::cursor::Cursor;
use regress_front_tables::{CODE_POINT_MAX, CodePoint, Quantifier};

/// Whether the code point is a decimal digit.
fn is_decimal_digit(point: CodePoint) -> bool
    ensures { result ≡ is_digit point }
{
    matches!(char::from_u32(point), Some('0'..='9'))
}

/// Whether the code point is an octal digit.
fn is_octal_digit(point: CodePoint) -> bool
    ensures { result ≡ is_octal point }
{
    matches!(char::from_u32(point), Some('0'..='7'))
}

/// Whether the code point is a hexadecimal digit.
fn is_hex_digit(point: CodePoint) -> bool
    ensures { result ≡ is_hex point }
{
    matches!(
        char::from_u32(point),
        Some('0'..='9' | 'A'..='F' | 'a'..='f')
    )
}

/// Whether the code point is the first half of a surrogate pair.
fn is_high_surrogate(point: CodePoint) -> bool
    ensures { result ≡ is_high point }
{
    (0xD800..=0xDBFF).contains(&point)
}

/// Whether the code point is the second half of a surrogate pair.
fn is_low_surrogate(point: CodePoint) -> bool
    ensures { result ≡ is_low point }
{
    (0xDC00..=0xDFFF).contains(&point)
}

/// The value of a digit.
fn digit_value(point: CodePoint) -> usize
    ensures { result ≡ digit_value point }
{
    let letter_before = match char::from_u32(point) {
        Some('0'..='9') => 0x30,
        _ if point < 0x60 => 0x37,
        _ => 0x57,
    };
    point.saturating_sub(letter_before) as usize
}

/// The number that digits write, which stops at the greatest `usize`.
fn number_of(radix: usize, digits: &[CodePoint]) -> usize
    ensures { result ≡ min (number_of radix digits.now) greatest }
{
    digits.iter().fold(0, |number: usize, digit| {
        number
            .saturating_mul(radix)
            .saturating_add(digit_value(*digit))
    })
}

impl Cursor<'_> {
    ghost use Rattle.regress_front_tokens.specs.Cursors.{unread, SameText};

    /// Whether the next code point is a decimal digit.
    pub(crate) fn is_at_digit(&self) -> bool
        ensures { result ≡ is_at is_digit (unread self.now) }
    {
        self.peek().is_some_and(is_decimal_digit)
    }

    /// Decimal digits, at least one, as a number, which stops at the greatest `usize` ("DecimalDigits").
    pub(crate) fn decimal(&mut self) -> Option<usize>
        ensures read { IsReading (λ n. n) count_at (unread self.old) result (unread self.new) }
        ensures kept { SameText self.old self.new }
    {
        let digits = self.take_while(is_decimal_digit);
        if digits.is_empty() {
            return None;
        }
        Some(number_of(10, digits))
    }

    /// A quantifier, with the mark that makes it lazy. Counts stop at the greatest `usize`, and the first may be above the
    /// second ("Quantifier"). Before `{2,3}?` `cursor.quantifier()` is that of 2 to 3, not greedy.
    pub fn quantifier(&mut self) -> Option<Quantifier>
        ensures read { IsReading quantifier_view quantifier_at (unread self.old) result (unread self.new) }
        ensures kept { SameText self.old self.new }
    {
        let (min, max) = self.bounds()?;
        let greedy = !self.eat('?');
        Some(Quantifier::new(min, max.unwrap_or(usize::MAX), greedy))
    }

    /// How often a quantifier repeats: at least, and at most, if there is a limit ("QuantifierPrefix").
    fn bounds(&mut self) -> Option<(usize, Option<usize>)>
        ensures read { IsReading bounds_view bounds_at (unread self.old) result (unread self.new) }
        ensures kept { SameText self.old self.new }
    {
        if self.eat('*') {
            return Some((0, None));
        }
        if self.eat('+') {
            return Some((1, None));
        }
        if self.eat('?') {
            return Some((0, Some(1)));
        }
        let mut ahead = *self;
        if !ahead.eat('{') {
            return None;
        }
        let bounds = ahead.braced_bounds()?;
        *self = ahead;
        Some(bounds)
    }

    /// Behind `{`: the counts of a quantifier, up to `}`.
    fn braced_bounds(&mut self) -> Option<(usize, Option<usize>)>
        ensures read { IsReading bounds_view braced_at (unread self.old) result (unread self.new) }
        ensures kept { SameText self.old self.new }
    {
        let mut ahead = *self;
        let least = ahead.decimal()?;
        let most = if !ahead.eat(',') {
            Some(least)
        } else if ahead.is_at('}') {
            None
        } else {
            Some(ahead.decimal()?)
        };
        if !ahead.eat('}') {
            return None;
        }
        *self = ahead;
        Some((least, most))
    }

    /// So many hexadecimal digits ("HexEscapeSequence", "Hex4Digits").
    pub(crate) fn hex(&mut self, count: usize) -> Option<CodePoint>
        requires { count ≤ 8 }
        ensures read { IsReading (λ c. c) (hex_at count) (unread self.old) result (unread self.new) }
        ensures kept { SameText self.old self.new }
    {
        let mut ahead = *self;
        let digits = ahead.take_up_to(count, is_hex_digit);
        if digits.len() != count {
            return None;
        }
        *self = ahead;
        Some(number_of(16, digits) as CodePoint)
    }

    /// Behind `\u` and the digits of a pair's first half: `\u` and those of a second half, as the code point of both.
    fn low_half(&mut self, high: CodePoint) -> Option<CodePoint>
        requires { is_high high ≡ true }
        ensures read { IsReading (λ c. c) (low_half high) (unread self.old) result (unread self.new) }
        ensures kept { SameText self.old self.new }
    {
        let mut ahead = *self;
        if !ahead.eat('\\') || !ahead.eat('u') {
            return None;
        }
        let low = ahead.hex(4)?;
        if !is_low_surrogate(low) {
            return None;
        }
        *self = ahead;
        Some(0x1_0000 + (high - 0xD800) * 0x400 + (low - 0xDC00))
    }

    /// Behind `\u`: four hexadecimal digits. Where they and those of a second `\u` are a surrogate pair, the code point of both.
    pub(crate) fn unicode_pair(&mut self) -> Option<CodePoint>
        ensures read { IsReading (λ c. c) pair_at (unread self.old) result (unread self.new) }
        ensures kept { SameText self.old self.new }
    {
        let unit = self.hex(4)?;
        if !is_high_surrogate(unit) {
            return Some(unit);
        }
        Some(self.low_half(unit).unwrap_or(unit))
    }

    /// Behind `\u`: `{`, hexadecimal digits, at least one, and `}`. They write no more than the greatest code point.
    pub(crate) fn braced(&mut self) -> Option<CodePoint>
        ensures read { IsReading (λ c. c) braces_at (unread self.old) result (unread self.new) }
        ensures kept { SameText self.old self.new }
    {
        let mut ahead = *self;
        if !ahead.eat('{') {
            return None;
        }
        let digits = ahead.take_while(is_hex_digit);
        let value = number_of(16, digits);
        if digits.is_empty() || value > CODE_POINT_MAX as usize || !ahead.eat('}') {
            return None;
        }
        *self = ahead;
        Some(value as CodePoint)
    }

    /// Behind `\u`, in Unicode mode and in a group's name: a code point in braces, or as four digits, or as a surrogate pair
    /// ("RegExpUnicodeEscapeSequence").
    pub(crate) fn unicode_escape(&mut self) -> Option<CodePoint>
        ensures read { IsReading (λ c. c) unicode_escape (unread self.old) result (unread self.new) }
        ensures kept { SameText self.old self.new }
    {
        match self.braced() {
            None => self.unicode_pair(),
            found => found,
        }
    }

    /// How many digits an octal escape has here at most.
    fn most_octal_digits(&self) -> usize
        ensures { result ≡ (if is_at (between 0x30 0x33) (unread self.now) then 3 else 2) }
    {
        match self.peek().and_then(char::from_u32) {
            Some('0'..='3') => 3,
            _ => 2,
        }
    }

    /// As many octal digits as stand here, at least one: up to three where the first is 0 to 3, and else up to two
    /// ("LegacyOctalEscapeSequence").
    pub(crate) fn octal(&mut self) -> Option<CodePoint>
        ensures read { IsReading (λ c. c) octal_at (unread self.old) result (unread self.new) }
        ensures kept { SameText self.old self.new }
    {
        let digits = self.take_up_to(self.most_octal_digits(), is_octal_digit);
        if digits.is_empty() {
            return None;
        }
        Some(number_of(8, digits) as CodePoint)
    }
}
