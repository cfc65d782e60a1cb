//! Names of groups, and keys of properties.
ghost use Rattle.std.specs.Prelude.{◌≡◌, ◌++◌, [], ◌∷◌, OnOk, IfOk};
ghost use Rattle.regress_meaning.specs.Text.{is_at};
ghost use Rattle.regress_meaning.specs.Tokens.{name_point, name_at, key_at};
ghost use Rattle.regress_meaning.specs.Class.{is_ascii_word};
ghost use Rattle.regress_front_tables.specs.TableViews.{table};
ghost use Rattle.regress_front_tokens.specs.Readings.{IsReading, IsRead};
ghost use Rattle.regress_front_tokens.specs.Words.{key_of, characters_of, code_points_of};

use crate::cursor::Cursor;
use crate::mode::{begins_name, continues_name};
use regress_front_tables::{CaptureGroupName, CodePoint, Error, Tables, is_ascii_word};
use std::alloc::{AllocError, Global};

/// Adds a code point to a text, if it is a character.
fn push_point(text: &mut String, point: CodePoint) -> Result<(), AllocError>
    ensures { OnOk result (code_points_of text.new ≡ code_points_of text.old ++ characters_of (point ∷ [])) }
{
    if let Some(letter) = char::from_u32(point) {
        text.push(letter)?;
    }
    Ok(())
}

/// Adds code points to a text, those that are characters.
fn push_points(text: &mut String, points: &[CodePoint]) -> Result<(), AllocError>
    ensures { OnOk result (code_points_of text.new ≡ code_points_of text.old ++ characters_of points.now) }
{
    for point in points {
        push_point(text, *point)?;
    }
    Ok(())
}

impl<'p> Cursor<'p> {
    ghost use Rattle.regress_front_tokens.specs.Cursors.{unread, SameText};

    /// Whether the next code point is an ASCII letter, a digit or `_`.
    pub(crate) fn is_at_word(&self) -> bool
        ensures { result ≡ is_at is_ascii_word (unread self.now) }
    {
        self.peek().is_some_and(|point| is_ascii_word(point))
    }

    /// One code point of a group's name, as it stands or as `\u..`.
    fn name_point(&mut self) -> Option<CodePoint>
        ensures read { IsReading (λ c. c) name_point (unread self.old) result (unread self.new) }
        ensures kept { SameText self.old self.new }
    {
        let mut ahead = *self;
        if !ahead.eat('\\') {
            return self.next();
        }
        if !ahead.eat('u') {
            return None;
        }
        let point = ahead.unicode_escape()?;
        *self = ahead;
        Some(point)
    }

    /// Behind `<`: a group's name and `>` ("GroupName"), if they stand here.
    pub(crate) fn try_name(
        &mut self,
        alloc: Global,
        tables: &Tables,
    ) -> Result<Option<CaptureGroupName>, AllocError>
        ensures read { IfOk result (λ name. IsReading code_points_of (name_at (table tables.now)) (unread self.old) name (unread self.new)) }
        ensures kept { SameText self.old self.new }
    {
        regress_meaning::reading_leaves_less();
        let mut ahead = *self;
        let mut name = CaptureGroupName::new(alloc);
        match ahead.name_point() {
            Some(point) if begins_name(tables, point) => push_point(&mut name, point)?,
            _ => return Ok(None),
        }
        while !ahead.eat('>') {
            match ahead.name_point() {
                Some(point) if continues_name(tables, point) => push_point(&mut name, point)?,
                _ => return Ok(None),
            }
        }
        *self = ahead;
        Ok(Some(name))
    }

    /// Behind `<`: a group's name and `>` ("GroupName"). A syntax error where they don't stand here. Before `year>` the answer of
    /// `cursor.name(alloc, tables)?` is `year`.
    pub fn name(&mut self, alloc: Global, tables: &Tables) -> Result<CaptureGroupName, Error>
        ensures read { IsRead code_points_of (name_at (table tables.now)) (unread self.old) result (unread self.new) }
        ensures kept { SameText self.old self.new }
    {
        self.try_name(alloc, tables)?.ok_or(Error::Syntax {
            text: "Invalid group name",
        })
    }

    /// Behind `\p`: the name between braces, and the value behind it if there is a `=`, both of ASCII letters, digits and `_`.
    fn key_parts(&mut self) -> Option<(&'p [CodePoint], Option<&'p [CodePoint]>)>
        ensures read { IsReading key_of key_at (unread self.old) result (unread self.new) }
        ensures kept { SameText self.old self.new }
    {
        let mut ahead = *self;
        if !ahead.eat('{') {
            return None;
        }
        let name = ahead.take_while(|point| is_ascii_word(point));
        if name.is_empty() {
            return None;
        }
        if ahead.eat('}') {
            *self = ahead;
            return Some((name, None));
        }
        if !ahead.eat('=') {
            return None;
        }
        let value = ahead.take_while(|point| is_ascii_word(point));
        if value.is_empty() || !ahead.eat('}') {
            return None;
        }
        *self = ahead;
        Some((name, Some(value)))
    }

    /// Behind `\p`: a property's key, the text between braces: a name, or a name, `=` and a value
    /// ("UnicodePropertyValueExpression"). A syntax error where none stands here.
    pub(crate) fn key(&mut self, alloc: Global) -> Result<String, Error>
        ensures read { IsRead code_points_of key_at (unread self.old) result (unread self.new) }
        ensures kept { SameText self.old self.new }
    {
        let Some((name, value)) = self.key_parts() else {
            return Err(Error::Syntax {
                text: "Invalid property",
            });
        };
        let mut key = String::new(alloc);
        push_points(&mut key, name)?;
        if let Some(value) = value {
            key.push('=')?;
            push_points(&mut key, value)?;
        }
        Ok(key)
    }
}
