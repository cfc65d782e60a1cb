//! A place in a pattern, from which it is read.
ghost use Rattle.std.specs.Prelude.{◌≡◌, ◌≤◌, ◌<◌, ◌==◌, ℕ, Bool, length, drop, slice_get, if◌then◌else◌};
ghost use Rattle.std.specs.List.{prefix_len};
ghost use Rattle.regress_meaning.specs.Text.{is_at, holds, span, span_up_to};
ghost use Rattle.regress_front_tokens.specs.Readings.{IsNext, Tells};

use regress_front_tables::CodePoint;

/// Whether the code point is one of these characters of ASCII: `is_one_of(0x6D, "ims")` is true.
pub fn is_one_of(point: CodePoint, marks: &str) -> bool
    ensures { result ≡ holds marks.now point }
{
    marks.bytes().any(|mark| CodePoint::from(mark) == point)
}

/// How many code points at the front of a text pass the test.
fn front_length<F: Fn(CodePoint) -> bool>(points: &[CodePoint], test: F) -> usize
    requires { F.IsAlwaysCallable test }
    ensures within { result ≤ length points.now }
    ensures count { (passes : ℕ → Bool) → Tells (F.post test) passes → result ≡ prefix_len passes points.now }
{
    points
        .iter()
        .position(|point| !test(*point))
        .unwrap_or(points.len())
}

/// The code points of a pattern, and how far they are read.
#[derive(Debug, Clone, Copy, Drop)]
pub struct Cursor<'p> {
    points: &'p [CodePoint],
    position: usize,
    ghost within: { position ≤ length points.now },
}

impl<'p> Cursor<'p> {
    ghost use Rattle.regress_front_tokens.specs.Cursors.{unread, SameText};

    /// A cursor at the beginning of a text: `Cursor::new(&[0x61, 0x2A])` stands before the `a` of `a*`.
    pub fn new(points: &'p [CodePoint]) -> Self
        ensures { unread result ≡ points.now }
    {
        Cursor {
            points,
            position: 0,
        }
    }

    /// How many code points are still to be read: `cursor.remaining()` is 2 before `a*`.
    pub fn remaining(&self) -> usize
        ensures { result ≡ length (unread self.now) }
    {
        self.points.len() - self.position
    }

    /// The next code point, if there is one: `cursor.peek()` is `Some(0x61)` before `a*`.
    pub fn peek(&self) -> Option<CodePoint>
        ensures { result ≡ slice_get (unread self.now) 0 }
    {
        self.points.get(self.position).copied()
    }

    /// The code point so many places behind the next one, if there is one: `cursor.peek_at(1)` is `Some(0x2A)` before `a*`.
    pub fn peek_at(&self, distance: usize) -> Option<CodePoint>
        ensures { result ≡ slice_get (unread self.now) distance }
    {
        self.points
            .get(self.position..)
            .and_then(|rest| rest.get(distance).copied())
    }

    /// Whether the next code point is this character: `cursor.is_at('a')` is true before `a*`.
    pub fn is_at(&self, mark: char) -> bool
        ensures { result ≡ is_at (λ c. c == mark) (unread self.now) }
    {
        self.peek() == Some(CodePoint::from(mark))
    }

    /// Whether the next code point is one of these characters of ASCII: `cursor.is_at_any("*+?")` is false before `a*`.
    pub fn is_at_any(&self, marks: &str) -> bool
        ensures { result ≡ is_at (λ c. holds marks.now c) (unread self.now) }
    {
        self.peek().is_some_and(|point| is_one_of(point, marks))
    }

    /// Goes on behind the next code point: after `cursor.bump()` before `a*` the `*` is next.
    pub fn bump(&mut self)
        requires { 0 < length (unread self.old) }
        ensures read { unread self.new ≡ drop 1 (unread self.old) }
        ensures kept { SameText self.old self.new }
    {
        self.position += 1;
    }

    /// The next code point, if there is one: `cursor.next()` is `Some(0x61)` before `a*`. Goes on behind it.
    pub fn next(&mut self) -> Option<CodePoint>
        ensures read { IsNext (unread self.old) result (unread self.new) }
        ensures kept { SameText self.old self.new }
    {
        let point = self.peek()?;
        self.bump();
        Some(point)
    }

    /// Whether the next code point is this character, as `cursor.eat('a')` tells before `a*`. Goes on behind it, if so.
    pub fn eat(&mut self, mark: char) -> bool
        ensures found { result ≡ is_at (λ c. c == mark) (unread self.old) }
        ensures read { unread self.new ≡ (if result then drop 1 (unread self.old) else unread self.old) }
        ensures kept { SameText self.old self.new }
    {
        let found = self.is_at(mark);
        if found {
            self.bump();
        }
        found
    }

    /// As many code points as pass the test, as `cursor.take_while(is_decimal_digit)` the `12` of `12a`. Goes on behind them.
    pub fn take_while<F: Fn(CodePoint) -> bool>(&mut self, test: F) -> &'p [CodePoint]
        requires { F.IsAlwaysCallable test }
        ensures read { (passes : ℕ → Bool) → Tells (F.post test) passes
            → span passes (unread self.old) ≡ (result.now, unread self.new) }
        ensures kept { SameText self.old self.new }
    {
        let rest = &self.points[self.position..];
        let count = front_length(rest, test);
        self.position += count;
        &rest[..count]
    }

    /// As many code points as pass the test, but at most so many, as `cursor.take_up_to(1, is_decimal_digit)` the `1` of `12a`.
    /// Goes on behind them.
    pub fn take_up_to<F: Fn(CodePoint) -> bool>(&mut self, most: usize, test: F) -> &'p [CodePoint]
        requires { F.IsAlwaysCallable test }
        ensures read { (passes : ℕ → Bool) → Tells (F.post test) passes
            → span_up_to most passes (unread self.old) ≡ (result.now, unread self.new) }
        ensures kept { SameText self.old self.new }
    {
        let rest = &self.points[self.position..];
        let count = front_length(&rest[..most.min(rest.len())], test);
        self.position += count;
        &rest[..count]
    }
}
