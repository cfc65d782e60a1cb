//! Escapes of a pattern: what stands behind a backslash.
ghost use Rattle.std.specs.Prelude.{◌≡◌, ℕ, ◌==◌, Bool, true, IfOk, IfErr, option_map};
ghost use Rattle.regress_meaning.specs.Text.{◌∈◌, is_at};
ghost use Rattle.regress_meaning.specs.Class.{is_digit, is_letter};
ghost use Rattle.regress_meaning.specs.Tokens.{point, control, class_letter, control_letter, property_at, named_reference, octal_or_digit, decimal_escape, identity, escape_at, class_escape_at};
ghost use Rattle.regress_front_tokens.specs.Readings.{Tells, IsReading, IsRead};
ghost use Rattle.regress_front_tokens.specs.Escapes.{class_control, mode_view, escape_view, from_first, HasFewGroups};
ghost use Rattle.regress_front_tokens.specs.Trees.{class_view};

use crate::cursor::{Cursor, is_one_of};
use crate::mode::Mode;
use crate::syntax::Class;
use regress_front_tables::{CodePoint, Error, is_ascii_word};
use std::alloc::{AllocError, Global};
use std::rc::RcSlice;

/// Why an escape is refused.
pub const INVALID_ESCAPE: &str = "Invalid escape";

/// Why a reference is refused.
const INVALID_REFERENCE: &str = "Invalid backreference";

/// What an escape stands for.
#[derive(Debug, Drop)]
pub enum Escape {
    /// A code point.
    Point(CodePoint),
    /// A class.
    Set(Class),
    /// Groups, by their numbers from 0.
    Groups(RcSlice<u16>),
}

/// Whether the code point is a letter of ASCII.
fn is_ascii_letter(point: CodePoint) -> bool
    ensures { result ≡ is_letter point }
{
    matches!(char::from_u32(point), Some('A'..='Z' | 'a'..='z'))
}

/// What `\f`, `\n`, `\r`, `\t` and `\v` stand for ("ControlEscape").
fn control(letter: CodePoint) -> Option<CodePoint>
    ensures { result ≡ control letter }
{
    match char::from_u32(letter) {
        Some('f') => Some(0xC),
        Some('n') => Some(0xA),
        Some('r') => Some(0xD),
        Some('t') => Some(9),
        Some('v') => Some(0xB),
        _ => None,
    }
}

/// What `\d`, `\D`, `\s`, `\S`, `\w` and `\W` stand for ("CharacterClassEscape").
fn class_letter(alloc: Global, letter: CodePoint) -> Result<Option<Class>, AllocError>
    ensures { IfOk result (λ class. class_letter letter ≡ option_map class_view class) }
{
    Ok(Some(match char::from_u32(letter) {
        Some('d') => Class::Digits,
        Some('D') => Class::Complement(Box::new(alloc, Class::Digits)?),
        Some('s') => Class::Spaces,
        Some('S') => Class::Complement(Box::new(alloc, Class::Spaces)?),
        Some('w') => Class::Words,
        Some('W') => Class::Complement(Box::new(alloc, Class::Words)?),
        _ => return Ok(None),
    }))
}

impl Cursor<'_> {
    ghost use Rattle.regress_front_tokens.specs.Cursors.{unread, SameText};

    /// Behind the backslash, outside a class, but for `\b` and `\B` ("AtomEscape"). A syntax error where no escape stands here.
    /// Before `x41` `cursor.escape(alloc, &mode)?` is `Escape::Point(0x41)`.
    pub fn escape(&mut self, alloc: Global, mode: &Mode) -> Result<Escape, Error>
        requires { HasFewGroups mode.now }
        ensures read { IsRead escape_view (escape_at (mode_view mode.now)) (unread self.old) result (unread self.new) }
        ensures kept { SameText self.old self.new }
    {
        let mut ahead = *self;
        let Some(letter) = ahead.next() else {
            return Err(Error::Syntax {
                text: INVALID_ESCAPE,
            });
        };
        if let Some(class) = class_letter(alloc, letter)? {
            *self = ahead;
            return Ok(Escape::Set(class));
        }
        if let Some(point) = control(letter) {
            *self = ahead;
            return Ok(Escape::Point(point));
        }
        if self.is_at('c') {
            return self.control_escape(mode);
        }
        if self.is_at_digit() {
            return self.number_escape(alloc, mode);
        }
        if self.is_at_any("xu") {
            return self.hex_escape(mode);
        }
        if self.is_at_any("kpP") {
            return self.name_escape(alloc, mode);
        }
        self.identity(mode)
    }

    /// Behind the backslash, in a class without `v` ("ClassEscape"). A syntax error where no escape stands here. Before `b`
    /// `cursor.class_escape(alloc, &mode)?` is `Escape::Point(8)`.
    pub fn class_escape(&mut self, alloc: Global, mode: &Mode) -> Result<Escape, Error>
        requires { HasFewGroups mode.now }
        ensures read { IsRead escape_view (class_escape_at (mode_view mode.now)) (unread self.old) result (unread self.new) }
        ensures kept { SameText self.old self.new }
    {
        if self.eat('b') {
            return Ok(Escape::Point(8));
        }
        if self.eat('-') {
            return Ok(Escape::Point(CodePoint::from('-')));
        }
        if let Some(point) = self.class_control(mode) {
            return Ok(Escape::Point(point));
        }
        if self.is_at_digit() && !self.is_at('0') {
            return self.octal_or_digit(mode, INVALID_ESCAPE);
        }
        if !self.is_at('k') {
            return self.escape(alloc, mode);
        }
        if mode.named {
            return Err(Error::Syntax {
                text: INVALID_ESCAPE,
            });
        }
        self.bump();
        Ok(Escape::Point(CodePoint::from('k')))
    }

    /// In a class, without Unicode mode: `c` and a letter, a digit or `_`.
    fn class_control(&mut self, mode: &Mode) -> Option<CodePoint>
        ensures read { IsReading (λ c. point c) (class_control (mode_view mode.now)) (unread self.old) result (unread self.new) }
        ensures kept { SameText self.old self.new }
    {
        let mut ahead = *self;
        if mode.unicode || !ahead.eat('c') {
            return None;
        }
        let point = ahead.control_letter(|point| is_ascii_word(point))?;
        *self = ahead;
        Some(point)
    }

    /// Behind `\c`: a code point that passes, as its value modulo 32.
    fn control_letter<F: Fn(CodePoint) -> bool>(&mut self, test: F) -> Option<CodePoint>
        requires { F.IsAlwaysCallable test }
        ensures read { (passes : ℕ → Bool) → Tells (F.post test) passes
            → IsReading (λ c. point c) (control_letter passes) (unread self.old) result (unread self.new) }
        ensures kept { SameText self.old self.new }
    {
        let mut ahead = *self;
        let letter = ahead.next()?;
        if !test(letter) {
            return None;
        }
        *self = ahead;
        Some(letter % 32)
    }

    /// At the `c` of an escape: a control letter, or without Unicode mode the backslash alone.
    fn control_escape(&mut self, mode: &Mode) -> Result<Escape, Error>
        requires { is_at (λ c. c == 0x63) (unread self.old) ≡ true }
        ensures read { IsRead escape_view (escape_at (mode_view mode.now)) (unread self.old) result (unread self.new) }
        ensures kept { SameText self.old self.new }
    {
        let mut ahead = *self;
        ahead.bump();
        if let Some(point) = ahead.control_letter(is_ascii_letter) {
            *self = ahead;
            return Ok(Escape::Point(point));
        }
        if mode.unicode {
            return Err(Error::Syntax {
                text: INVALID_ESCAPE,
            });
        }
        Ok(Escape::Point(CodePoint::from('\\')))
    }

    /// At the first digit of an escape: `\0`, a group by its number, or an octal number.
    fn number_escape(&mut self, alloc: Global, mode: &Mode) -> Result<Escape, Error>
        requires few { HasFewGroups mode.now }
        requires digit { is_at is_digit (unread self.old) ≡ true }
        ensures read { IsRead escape_view (escape_at (mode_view mode.now)) (unread self.old) result (unread self.new) }
        ensures kept { SameText self.old self.new }
    {
        let mut ahead = *self;
        if !ahead.eat('0') {
            return self.decimal_escape(alloc, mode);
        }
        if ahead.is_at_digit() {
            return self.octal_or_digit(mode, INVALID_ESCAPE);
        }
        *self = ahead;
        Ok(Escape::Point(0))
    }

    /// At the `x` or `u` of an escape: a code point by its digits, or the letter itself.
    fn hex_escape(&mut self, mode: &Mode) -> Result<Escape, Error>
        requires { is_at (λ c. c ∈ "xu") (unread self.old) ≡ true }
        ensures read { IsRead escape_view (escape_at (mode_view mode.now)) (unread self.old) result (unread self.new) }
        ensures kept { SameText self.old self.new }
    {
        let mut ahead = *self;
        let point = if ahead.eat('x') {
            ahead.hex(2)
        } else {
            ahead.bump();
            if mode.unicode {
                ahead.unicode_escape()
            } else {
                ahead.hex(4)
            }
        };
        match point {
            Some(point) => {
                *self = ahead;
                Ok(Escape::Point(point))
            }
            None => self.identity(mode),
        }
    }

    /// At the `k`, `p` or `P` of an escape: the groups of a name, a property, or the letter itself.
    fn name_escape(&mut self, alloc: Global, mode: &Mode) -> Result<Escape, Error>
        requires few { HasFewGroups mode.now }
        requires letter { is_at (λ c. c ∈ "kpP") (unread self.old) ≡ true }
        ensures read { IsRead escape_view (escape_at (mode_view mode.now)) (unread self.old) result (unread self.new) }
        ensures kept { SameText self.old self.new }
    {
        let mut ahead = *self;
        if ahead.eat('k') {
            *self = ahead;
            if mode.named {
                return self.named_reference(alloc, mode);
            }
            return Ok(Escape::Point(CodePoint::from('k')));
        }
        if !mode.unicode {
            return self.identity(mode);
        }
        Ok(Escape::Set(self.property(alloc, mode)?))
    }

    /// Behind `\k`: the groups of a name that some group has.
    fn named_reference(&mut self, alloc: Global, mode: &Mode) -> Result<Escape, Error>
        requires { HasFewGroups mode.now }
        ensures read { IsRead escape_view (named_reference (mode_view mode.now)) (unread self.old) result (unread self.new) }
        ensures kept { SameText self.old self.new }
    {
        if !self.eat('<') {
            return Err(Error::Syntax {
                text: INVALID_ESCAPE,
            });
        }
        let name = self.name(alloc, mode.tables)?;
        let groups = mode.groups.of(alloc, &name)?;
        if groups.is_empty() {
            return Err(Error::Syntax {
                text: INVALID_REFERENCE,
            });
        }
        Ok(Escape::Groups(groups))
    }

    /// At the letter of `\p` or `\P`, in Unicode mode: the class of a property, or with `v` of one of strings
    /// ("CharacterClassEscape").
    fn property(&mut self, alloc: Global, mode: &Mode) -> Result<Class, Error>
        ensures read { IsRead class_view (from_first (property_at (mode_view mode.now))) (unread self.old) result (unread self.new) }
        ensures kept { SameText self.old self.new }
    {
        let is_positive = self.is_at('p');
        self.next();
        let key = self.key(alloc)?;
        if mode.tables.property(&key).is_some() {
            let property = Class::Property(key);
            if is_positive {
                return Ok(property);
            }
            return Ok(Class::Complement(Box::new(alloc, property)?));
        }
        if is_positive && mode.sets && mode.tables.sequences(&key).is_some() {
            return Ok(Class::Sequences(key));
        }
        Err(Error::Syntax {
            text: "Invalid property",
        })
    }

    /// A number: the group, where there are so many, and else an octal number or a digit ("DecimalEscape").
    fn decimal_escape(&mut self, alloc: Global, mode: &Mode) -> Result<Escape, Error>
        requires { HasFewGroups mode.now }
        ensures read { IsRead escape_view (from_first (decimal_escape (mode_view mode.now))) (unread self.old) result (unread self.new) }
        ensures kept { SameText self.old self.new }
    {
        let mut ahead = *self;
        let Some(number) = ahead.decimal() else {
            return Err(Error::Syntax {
                text: INVALID_ESCAPE,
            });
        };
        if number <= mode.names.len() {
            *self = ahead;
            let group = number.saturating_sub(1) as u16;
            return Ok(Escape::Groups(RcSlice::from_slice(alloc, &[group])?));
        }
        self.octal_or_digit(mode, INVALID_REFERENCE)
    }

    /// A decimal escape that is no group: an octal number or the digit itself. In Unicode mode a syntax error, with this text.
    fn octal_or_digit(&mut self, mode: &Mode, refusal: &'static str) -> Result<Escape, Error>
        ensures read { IsRead escape_view (from_first (octal_or_digit (mode_view mode.now))) (unread self.old) result (unread self.new) }
        ensures kept { SameText self.old self.new }
    {
        if mode.unicode {
            return Err(Error::Syntax { text: refusal });
        }
        if let Some(point) = self.octal() {
            return Ok(Escape::Point(point));
        }
        match self.next() {
            Some(point) => Ok(Escape::Point(point)),
            None => Err(Error::Syntax {
                text: INVALID_ESCAPE,
            }),
        }
    }

    /// The code point itself; in Unicode mode only a syntax character ("IdentityEscape").
    fn identity(&mut self, mode: &Mode) -> Result<Escape, Error>
        ensures read { IsRead escape_view (from_first (identity (mode_view mode.now))) (unread self.old) result (unread self.new) }
        ensures kept { SameText self.old self.new }
    {
        match self.next() {
            Some(point) if !mode.unicode || is_one_of(point, "^$\\.*+?()[]{}|/") => {
                Ok(Escape::Point(point))
            }
            _ => Err(Error::Syntax {
                text: INVALID_ESCAPE,
            }),
        }
    }
}
