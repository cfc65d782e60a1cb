//! The members of a class without `v`.
ghost use Rattle.std.specs.Prelude.{◌≡◌};
ghost use Rattle.regress_meaning.specs.Grammar.{class_of, member_class, dash_before_member};
ghost use Rattle.regress_meaning.specs.ReadingClass.{read_member};
ghost use Rattle.regress_front_tokens.specs.Readings.{IsRead};
ghost use Rattle.regress_front_tokens.specs.Escapes.{mode_view, escape_view, HasFewGroups};
ghost use Rattle.regress_front_tokens.specs.Trees.{class_view};
ghost use Rattle.regress_front_classes.specs.Classes.{point_of, members_at, AddsDashed};
ghost use Rattle.regress_front_tokens.specs.Cursors.{unread, SameText};

use regress_front_tables::{CodePoint, Error};
use regress_front_tokens::{Class, Cursor, Escape, Mode};
use std::alloc::Global;

/// Why a class is refused that has no closing bracket.
pub(crate) const UNBALANCED_BRACKET: &str = "Unbalanced bracket";

/// Why any other class is refused.
pub(crate) const INVALID_CLASS: &str = "Invalid class";

/// The class of one code point.
pub(crate) fn class_of(point: CodePoint) -> Class
    ensures { class_view result ≡ class_of point }
{
    Class::Range {
        first: point,
        last: point,
    }
}

/// The code point that a member is, if it is one.
fn point_of(member: &Escape) -> Option<CodePoint>
    ensures { result ≡ point_of (escape_view member.now) }
{
    match member {
        Escape::Point(point) => Some(*point),
        Escape::Set(_) => None,
        Escape::Groups(_) => None,
    }
}

/// The class of a member.
fn member_class(alloc: Global, member: Escape) -> Class
    ensures { class_view result ≡ member_class (escape_view member) }
{
    match member {
        Escape::Point(point) => class_of(point),
        Escape::Set(class) => class,
        Escape::Groups(_) => Class::Union(Vec::new(alloc)),
    }
}

/// Adds two members with a dash between them: the range of two code points, and else without Unicode mode both members and
/// the dash. A syntax error where the range is out of order, and in Unicode mode where one is a set.
fn push_dashed(
    alloc: Global,
    members: &mut Vec<Class>,
    mode: &Mode,
    first: Escape,
    last: Escape,
) -> Result<(), Error>
    ensures { AddsDashed (mode_view mode.now) (escape_view first) (escape_view last) members.old.items members.new.items result }
{
    if let Some((start, end)) = point_of(&first).zip(point_of(&last)) {
        if end < start {
            return Err(Error::Syntax {
                text: INVALID_CLASS,
            });
        }
        members.push(Class::Range {
            first: start,
            last: end,
        })?;
        return Ok(());
    }
    if mode.unicode {
        return Err(Error::Syntax {
            text: INVALID_CLASS,
        });
    }
    members.push(member_class(alloc, first))?;
    members.push(class_of(CodePoint::from('-')))?;
    members.push(member_class(alloc, last))?;
    Ok(())
}

/// Whether a dash stands here and behind it one more member.
fn is_before_member(cursor: &Cursor) -> bool
    ensures { result ≡ dash_before_member (unread cursor.now) }
{
    cursor.is_at('-') && cursor.peek_at(1) != Some(CodePoint::from(']'))
}

/// One member of a class: a code point or an escape ("ClassAtom"). A syntax error where none stands here.
fn member(cursor: &mut Cursor, alloc: Global, mode: &Mode) -> Result<Escape, Error>
    requires { HasFewGroups mode.now }
    ensures read { IsRead escape_view (read_member (mode_view mode.now)) (unread cursor.old) result (unread cursor.new) }
    ensures kept { SameText cursor.old cursor.new }
{
    if cursor.eat('\\') {
        return cursor.class_escape(alloc, mode);
    }
    if cursor.is_at(']') {
        return Err(Error::Syntax {
            text: INVALID_CLASS,
        });
    }
    let Some(point) = cursor.next() else {
        return Err(Error::Syntax {
            text: UNBALANCED_BRACKET,
        });
    };
    Ok(Escape::Point(point))
}

/// The members of a class up to the closing bracket, as their union. Goes on behind the bracket ("NonemptyClassRanges").
/// A syntax error where a range is out of order, an escape is none or there is no bracket.
#[inline(never)]
pub(crate) fn members(cursor: &mut Cursor, alloc: Global, mode: &Mode) -> Result<Class, Error>
    requires { HasFewGroups mode.now }
    ensures read { IsRead class_view (members_at (mode_view mode.now)) (unread cursor.old) result (unread cursor.new) }
    ensures kept { SameText cursor.old cursor.new }
{
    regress_meaning::reading_leaves_less();
    let mut members = Vec::new(alloc);
    while !cursor.eat(']') {
        let first = member(cursor, alloc, mode)?;
        if is_before_member(cursor) {
            cursor.bump();
            let last = member(cursor, alloc, mode)?;
            push_dashed(alloc, &mut members, mode, first, last)?;
        } else {
            members.push(member_class(alloc, first))?;
        }
    }
    Ok(Class::Union(members))
}
