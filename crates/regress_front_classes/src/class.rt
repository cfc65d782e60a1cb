//! Classes behind their opening bracket, and the contents of one with `v`.
ghost use Rattle.std.specs.Prelude.{◌≡◌, ◌≤◌, ◌+◌, ◌==◌, ◌++◌, ◌∷◌, [], ℕ, Bool, true, not, length, IfOk, OnOk, drop, is_some, slice_get, if◌then◌else◌};
ghost use Rattle.std.specs.List.{list_any, list_all};
ghost use Rattle.regress_meaning.specs.Text.{◌∈◌, is_at};
ghost use Rattle.regress_meaning.specs.Class.{may_hold_strings, nested};
ghost use Rattle.regress_meaning.specs.Grammar.{reserved_pair};
ghost use Rattle.regress_meaning.specs.Limits.{class_depth, greatest_depth};
ghost use Rattle.regress_meaning.specs.ReadingClass.{closes_class, two_at, opens_strings, item_class, read_set_escape, read_set_atom, read_set_character, read_range, union_from, set_string_at, set_strings_at, operand_at, contents_at, union_at, intersection_at, difference_at, read_class};
ghost use Rattle.regress_front_tokens.specs.Readings.{IsRead, IsReading};
ghost use Rattle.regress_front_tokens.specs.Escapes.{mode_view, HasFewGroups};
ghost use Rattle.regress_front_tokens.specs.Trees.{class_view};
ghost use Rattle.regress_front_classes.specs.Classes.{boxed_view, item_view, item_depth, members_at, only_point, mark_at, string_view, strings_view};
ghost use Rattle.regress_front_classes.specs.Nesting.{IsNested, IsClassAnswer, IsBracketAnswer, unboxed};
ghost use Rattle.regress_front_tokens.specs.Cursors.{unread, SameText};

use crate::class_ranges::{INVALID_CLASS, UNBALANCED_BRACKET, class_of, members};
use regress_front_tables::{CodePoint, Error, MAX_NESTING_DEPTH};
use regress_front_tokens::{Class, Cursor, Escape, INVALID_ESCAPE, Mode, is_one_of};
use std::alloc::{AllocError, Global};

/// What stands side by side in a class.
#[derive(Debug, Drop)]
enum SetItem {
    /// A code point, which may begin a range.
    Point(CodePoint),
    /// Any other operand.
    Set(Box<Class>),
}

impl SetItem {
    /// The code point that the item is, if it is one.
    fn point(&self) -> Option<CodePoint>
        ensures { result ≡ only_point (item_view self.now) }
    {
        match self {
            SetItem::Point(point) => Some(*point),
            SetItem::Set(_) => None,
        }
    }

    /// The class of the item.
    fn into_class(self) -> Class
        ensures { class_view result ≡ item_class (item_view self) }
    {
        match self {
            SetItem::Point(point) => class_of(point),
            SetItem::Set(class) => Box::into_inner(class),
        }
    }
}

// Recursion through brackets goes 256 levels deep. So that none of its functions has room on the stack for what others need
// only in passing, those that end before the next level are kept out of line, and classes go from level to level in boxes.

/// The class in a box.
#[inline(never)]
fn in_box(alloc: Global, class: Class) -> Result<Box<Class>, AllocError>
    ensures { IfOk result (λ boxed. boxed.value ≡ class) }
{
    Ok(Box::new(alloc, class)?)
}

/// The class of members side by side, in a box.
#[inline(never)]
fn boxed_union(alloc: Global, members: Vec<Class>) -> Result<Box<Class>, AllocError>
    ensures { IfOk result (λ boxed. boxed.value ≡ Class.Union members) }
{
    Ok(Box::new(alloc, Class::Union(members))?)
}

/// The class of strings, in a box.
#[inline(never)]
fn boxed_strings(alloc: Global, strings: Vec<Vec<CodePoint>>) -> Result<Box<Class>, AllocError>
    ensures { IfOk result (λ boxed. boxed.value ≡ Class.Strings strings) }
{
    Ok(Box::new(alloc, Class::Strings(strings))?)
}

/// Adds a class behind others.
#[inline(never)]
fn push(classes: &mut Vec<Class>, class: Class) -> Result<(), AllocError>
    ensures { OnOk result (classes.new.items ≡ classes.old.items ++ (class ∷ [])) }
{
    Ok(classes.push(class)?)
}

/// The class of an item, in a box.
#[inline(never)]
fn boxed(alloc: Global, item: SetItem) -> Result<Box<Class>, AllocError>
    ensures { IfOk result (λ class. class_view class.value ≡ item_class (item_view item)) }
{
    match item {
        SetItem::Point(point) => in_box(alloc, class_of(point)),
        SetItem::Set(class) => Ok(class),
    }
}

/// A class in brackets of its own.
#[inline(never)]
fn nested(alloc: Global, negated: bool, contents: Box<Class>) -> Result<Box<Class>, AllocError>
    ensures { IfOk result (λ class. class_view class.value ≡ nested negated (class_view contents.value)) }
{
    in_box(alloc, Class::Nested { negated, contents })
}

/// Whether the class may, by its form, hold a string that is no single code point ("MayContainStrings").
#[cycle(may_hold)]
pub(crate) fn may_hold_strings(class: &Class) -> bool
    ensures { result ≡ may_hold_strings (class_view class.now) }
{
    match class {
        Class::Sequences(_) => true,
        Class::Strings(strings) => one_is_no_character(strings),
        Class::Union(members) => one_may_hold_strings(members),
        Class::Intersection(first, others) => {
            may_hold_strings(first) && all_may_hold_strings(others)
        }
        Class::Difference(first, _) => may_hold_strings(first),
        Class::Nested { contents, .. } => may_hold_strings(contents),
        _ => false,
    }
}

/// Whether one of the strings is no single code point.
fn one_is_no_character(strings: &[Vec<CodePoint>]) -> bool
    ensures { result ≡ list_any (λ s. not (length s.items == 1)) strings.now }
{
    strings.iter().any(|string| string.len() != 1)
}

/// Whether one of the classes may hold such a string.
#[cycle(may_hold)]
fn one_may_hold_strings(classes: &[Class]) -> bool
    ensures { result ≡ list_any (λ c. may_hold_strings (class_view c)) classes.now }
{
    for class in classes {
        if may_hold_strings(class) {
            return true;
        }
    }
    false
}

/// Whether each of the classes may.
#[cycle(may_hold)]
fn all_may_hold_strings(classes: &[Class]) -> bool
    ensures { result ≡ list_all (λ c. may_hold_strings (class_view c)) classes.now }
{
    for class in classes {
        if !may_hold_strings(class) {
            return false;
        }
    }
    true
}

/// Behind an opening bracket: whether the class is negated, and its class ("CharacterClass"). Goes on behind the closing
/// bracket; `nesting` counts the parentheses and brackets that are open around the class. A syntax error where it is
/// none; `TooDeep` where too many are open. Before `^a]b` `bracketed_class(&mut cursor, alloc, &mode, 0)?` is true and the class
/// of `a`, and the cursor stands before `b`.
pub fn bracketed_class(
    cursor: &mut Cursor,
    alloc: Global,
    mode: &Mode,
    nesting: u32,
) -> Result<(bool, Class), Error>
    requires few { HasFewGroups mode.now }
    requires shallow { nesting ≤ 256 }
    ensures read { IsBracketAnswer nesting (mode_view mode.now) (unread cursor.old) result (unread cursor.new) }
    ensures kept { SameText cursor.old cursor.new }
{
    let (negated, class) = bracketed(cursor, alloc, mode, nesting)?;
    Ok((negated, Box::into_inner(class)))
}

/// The same, with the class in a box.
#[cycle(class)]
#[inline(never)]
fn bracketed(
    cursor: &mut Cursor,
    alloc: Global,
    mode: &Mode,
    nesting: u32,
) -> Result<(bool, Box<Class>), Error>
    requires few { HasFewGroups mode.now }
    requires shallow { nesting ≤ 256 }
    ensures read { IsBracketAnswer nesting (mode_view mode.now) (unread cursor.old) (unboxed result) (unread cursor.new) }
    ensures kept { SameText cursor.old cursor.new }
{
    if nesting == MAX_NESTING_DEPTH {
        return Err(Error::TooDeep);
    }
    let negated = cursor.eat('^');
    let class = class_contents(cursor, alloc, mode, nesting + 1)?;
    if negated && may_hold_strings(&class) {
        return Err(Error::Syntax {
            text: INVALID_CLASS,
        });
    }
    Ok((negated, class))
}

/// Behind an opening bracket and its `^`: the class ("ClassContents"). Goes on behind the closing bracket; `nesting`
/// counts the class's own bracket too. A syntax error where it is none; `TooDeep` where an inner class nests too deeply.
#[cycle(class)]
pub(crate) fn class_contents(
    cursor: &mut Cursor,
    alloc: Global,
    mode: &Mode,
    nesting: u32,
) -> Result<Box<Class>, Error>
    requires few { HasFewGroups mode.now }
    requires shallow { nesting ≤ 256 }
    ensures read { IsClassAnswer nesting (read_class (mode_view mode.now)) (unread cursor.old) result (unread cursor.new) }
    ensures kept { SameText cursor.old cursor.new }
{
    regress_meaning::contents_go_by_steps();
    if !mode.sets {
        return boxed_members(cursor, alloc, mode);
    }
    let class = set_contents(cursor, alloc, mode, nesting)?;
    cursor.bump();
    Ok(class)
}

/// The members of a class without `v`, in a box.
#[inline(never)]
fn boxed_members(cursor: &mut Cursor, alloc: Global, mode: &Mode) -> Result<Box<Class>, Error>
    requires { HasFewGroups mode.now }
    ensures read { IsRead boxed_view (members_at (mode_view mode.now)) (unread cursor.old) result (unread cursor.new) }
    ensures kept { SameText cursor.old cursor.new }
{
    let class = members(cursor, alloc, mode)?;
    Ok(in_box(alloc, class)?)
}

/// Why the class is refused that can't go on here.
fn class_error(cursor: &Cursor) -> &'static str
    ensures { result.now ≡ (if is_some (slice_get (unread cursor.now) 0) then INVALID_CLASS.now else UNBALANCED_BRACKET.now) }
{
    if cursor.peek().is_some() {
        INVALID_CLASS
    } else {
        UNBALANCED_BRACKET
    }
}

/// Whether this character stands here twice.
fn is_at_pair(cursor: &Cursor, mark: char) -> bool
    ensures { result ≡ two_at mark mark (unread cursor.now) }
{
    cursor.is_at(mark) && cursor.peek_at(1) == Some(CodePoint::from(mark))
}

/// Whether this character stands here twice. Goes on behind both, if so.
fn eat_pair(cursor: &mut Cursor, mark: char) -> bool
    ensures found { result ≡ two_at mark mark (unread cursor.old) }
    ensures read { unread cursor.new ≡ (if result then drop 2 (unread cursor.old) else unread cursor.old) }
    ensures kept { SameText cursor.old cursor.new }
{
    let found = is_at_pair(cursor, mark);
    if found {
        cursor.bump();
        cursor.bump();
    }
    found
}

/// The next code point, if it is one of these characters of ASCII. Goes on behind it, if so.
fn eat_any(cursor: &mut Cursor, marks: &str) -> Option<CodePoint>
    ensures read { IsReading (λ c. c) (mark_at marks.now) (unread cursor.old) result (unread cursor.new) }
    ensures kept { SameText cursor.old cursor.new }
{
    let mark = cursor.peek().filter(|mark| is_one_of(*mark, marks))?;
    cursor.bump();
    Some(mark)
}

/// Whether `\q{` stands here. Goes on behind it, if so.
fn eat_opening_of_strings(cursor: &mut Cursor) -> bool
    ensures found { result ≡ opens_strings (unread cursor.old) }
    ensures read { unread cursor.new ≡ (if result then drop 3 (unread cursor.old) else unread cursor.old) }
    ensures kept { SameText cursor.old cursor.new }
{
    let mut ahead = *cursor;
    let found = ahead.eat('\\') && ahead.eat('q') && ahead.eat('{');
    if found {
        *cursor = ahead;
    }
    found
}

/// Behind a backslash ("ClassSetCharacter", "CharacterClassEscape"). A syntax error where no escape stands here; a reference is
/// none in a class.
fn set_escape(cursor: &mut Cursor, alloc: Global, mode: &Mode) -> Result<SetItem, Error>
    requires { HasFewGroups mode.now }
    ensures read { IsRead item_view (read_set_escape (mode_view mode.now)) (unread cursor.old) result (unread cursor.new) }
    ensures kept { SameText cursor.old cursor.new }
{
    if cursor.eat('b') {
        return Ok(SetItem::Point(8));
    }
    if let Some(mark) = eat_any(cursor, "&-!#%,:;<=>@`~") {
        return Ok(SetItem::Point(mark));
    }
    let refers = cursor.is_at_any("k123456789");
    match cursor.escape(alloc, mode) {
        Ok(Escape::Point(point)) => Ok(SetItem::Point(point)),
        Ok(Escape::Set(class)) => {
            let class = in_box(alloc, class)?;
            Ok(SetItem::Set(class))
        }
        Ok(Escape::Groups(_)) => Err(Error::Syntax {
            text: INVALID_ESCAPE,
        }),
        Err(Error::Syntax { .. }) if refers => Err(Error::Syntax {
            text: INVALID_ESCAPE,
        }),
        Err(error) => Err(error),
    }
}

/// A code point, or the class of an escape. A syntax error where neither stands here.
#[inline(never)]
fn set_item(cursor: &mut Cursor, alloc: Global, mode: &Mode) -> Result<SetItem, Error>
    requires { HasFewGroups mode.now }
    ensures read { IsRead item_view (read_set_atom (mode_view mode.now)) (unread cursor.old) result (unread cursor.new) }
    ensures kept { SameText cursor.old cursor.new }
{
    if cursor.eat('\\') {
        return set_escape(cursor, alloc, mode);
    }
    if cursor.is_at_any("()[]{}/-\\|") || is_at_reserved_pair(cursor) {
        return Err(Error::Syntax {
            text: INVALID_CLASS,
        });
    }
    let Some(point) = cursor.next() else {
        return Err(Error::Syntax {
            text: UNBALANCED_BRACKET,
        });
    };
    Ok(SetItem::Point(point))
}

/// Whether a mark stands here twice that is kept for later ("ClassSetReservedDoublePunctuator").
fn is_at_reserved_pair(cursor: &Cursor) -> bool
    ensures { result ≡ reserved_pair (unread cursor.now) }
{
    cursor.is_at_any("&!#$%*+,.:;<=>?@^`~") && cursor.peek_at(1) == cursor.peek()
}

/// A code point ("ClassSetCharacter"). A syntax error where none stands here.
fn set_character(cursor: &mut Cursor, alloc: Global, mode: &Mode) -> Result<CodePoint, Error>
    requires { HasFewGroups mode.now }
    ensures read { IsRead (λ c. c) (read_set_character (mode_view mode.now)) (unread cursor.old) result (unread cursor.new) }
    ensures kept { SameText cursor.old cursor.new }
{
    let item = set_item(cursor, alloc, mode)?;
    item.point().ok_or(Error::Syntax {
        text: INVALID_CLASS,
    })
}

/// A string of `\q{..}`, up to `|` or `}` ("ClassString"). A syntax error where a code point in it is none.
fn set_string(cursor: &mut Cursor, alloc: Global, mode: &Mode) -> Result<Vec<CodePoint>, Error>
    requires { HasFewGroups mode.now }
    ensures read { IsRead string_view (set_string_at (mode_view mode.now)) (unread cursor.old) result (unread cursor.new) }
    ensures ended { OnOk result (is_at (λ c. c ∈ "|}") (unread cursor.new) ≡ true) }
    ensures kept { SameText cursor.old cursor.new }
{
    regress_meaning::contents_go_by_steps();
    let mut string = Vec::new(alloc);
    while !cursor.is_at_any("|}") {
        let point = set_character(cursor, alloc, mode)?;
        string.push(point)?;
    }
    Ok(string)
}

/// Behind `\q{`: the strings, up to the brace ("ClassStringDisjunction"). A syntax error where one of them is none.
#[inline(never)]
fn set_strings(
    cursor: &mut Cursor,
    alloc: Global,
    mode: &Mode,
) -> Result<Vec<Vec<CodePoint>>, Error>
    requires { HasFewGroups mode.now }
    ensures read { IsRead strings_view (set_strings_at (mode_view mode.now)) (unread cursor.old) result (unread cursor.new) }
    ensures kept { SameText cursor.old cursor.new }
{
    regress_meaning::contents_go_by_steps();
    let mut strings = Vec::new(alloc);
    loop {
        let string = set_string(cursor, alloc, mode)?;
        strings.push(string)?;
        if !cursor.eat('|') {
            break;
        }
    }
    cursor.bump();
    Ok(strings)
}

/// Behind an item of a union: the range that a dash makes of it, or its class ("ClassSetRange"). A syntax error where the
/// ends of a range are no code points or out of order.
#[inline(never)]
fn set_range(cursor: &mut Cursor, alloc: Global, mode: &Mode, item: SetItem) -> Result<Class, Error>
    requires { HasFewGroups mode.now }
    ensures read { IsRead class_view (read_range (mode_view mode.now) (item_view item)) (unread cursor.old) result (unread cursor.new) }
    ensures kept { SameText cursor.old cursor.new }
{
    if !cursor.eat('-') {
        return Ok(item.into_class());
    }
    let Some(first) = item.point() else {
        return Err(Error::Syntax {
            text: INVALID_CLASS,
        });
    };
    let last = set_character(cursor, alloc, mode)?;
    if last < first {
        return Err(Error::Syntax {
            text: INVALID_CLASS,
        });
    }
    Ok(Class::Range { first, last })
}

/// An inner class, strings, a code point or the class of an escape ("ClassSetOperand"). A syntax error where none of
/// them stands here; `TooDeep` where an inner class nests too deeply.
#[cycle(class)]
fn set_operand(
    cursor: &mut Cursor,
    alloc: Global,
    mode: &Mode,
    nesting: u32,
) -> Result<SetItem, Error>
    requires few { HasFewGroups mode.now }
    requires sets { mode.now.sets ≡ true }
    requires shallow { nesting ≤ 256 }
    ensures read { IsNested item_view item_depth nesting (operand_at (mode_view mode.now)) (unread cursor.old) result (unread cursor.new) }
    ensures kept { SameText cursor.old cursor.new }
{
    regress_meaning::contents_go_by_steps();
    if cursor.eat('[') {
        let (negated, contents) = bracketed(cursor, alloc, mode, nesting)?;
        let class = nested(alloc, negated, contents)?;
        return Ok(SetItem::Set(class));
    }
    if eat_opening_of_strings(cursor) {
        let strings = set_strings(cursor, alloc, mode)?;
        let class = boxed_strings(alloc, strings)?;
        return Ok(SetItem::Set(class));
    }
    set_item(cursor, alloc, mode)
}

/// The contents of a class with `v`, up to the closing bracket ("ClassSetExpression"); `nesting` counts the class's own
/// bracket too. A syntax error where they are none; `TooDeep` where an inner class nests too deeply.
#[cycle(class)]
pub(crate) fn set_contents(
    cursor: &mut Cursor,
    alloc: Global,
    mode: &Mode,
    nesting: u32,
) -> Result<Box<Class>, Error>
    requires few { HasFewGroups mode.now }
    requires sets { mode.now.sets ≡ true }
    requires shallow { nesting ≤ 256 }
    ensures read { IsClassAnswer nesting (contents_at (mode_view mode.now)) (unread cursor.old) result (unread cursor.new) }
    ensures ended { OnOk result (closes_class (unread cursor.new) ≡ true) }
    ensures kept { SameText cursor.old cursor.new }
{
    regress_meaning::contents_go_by_steps();
    if cursor.is_at(']') {
        return Ok(boxed_union(alloc, Vec::new(alloc))?);
    }
    let first = set_operand(cursor, alloc, mode, nesting)?;
    if is_at_pair(cursor, '&') {
        let first = boxed(alloc, first)?;
        return set_intersection(cursor, alloc, mode, nesting, first);
    }
    if is_at_pair(cursor, '-') {
        let first = boxed(alloc, first)?;
        return set_difference(cursor, alloc, mode, nesting, first);
    }
    set_union(cursor, alloc, mode, nesting, first)
}

/// Behind the first item of a union: that union ("ClassUnion").
#[cycle(class)]
#[inline(never)]
fn set_union(
    cursor: &mut Cursor,
    alloc: Global,
    mode: &Mode,
    nesting: u32,
    first: SetItem,
) -> Result<Box<Class>, Error>
    requires few { HasFewGroups mode.now }
    requires sets { mode.now.sets ≡ true }
    requires shallow { nesting ≤ 256 }
    requires deep { nesting + item_depth (item_view first) ≤ greatest_depth }
    ensures read { IsClassAnswer nesting (union_from (mode_view mode.now) (union_at (mode_view mode.now)) (item_view first)) (unread cursor.old) result (unread cursor.new) }
    ensures ended { OnOk result (closes_class (unread cursor.new) ≡ true) }
    ensures kept { SameText cursor.old cursor.new }
{
    regress_meaning::contents_go_by_steps();
    let mut members = Vec::new(alloc);
    let member = set_range(cursor, alloc, mode, first)?;
    push(&mut members, member)?;
    while !cursor.is_at(']') {
        let item = set_operand(cursor, alloc, mode, nesting)?;
        let member = set_range(cursor, alloc, mode, item)?;
        push(&mut members, member)?;
    }
    Ok(boxed_union(alloc, members)?)
}

/// At the first `&&`, behind the first operand: the intersection of all ("ClassIntersection").
#[cycle(class)]
#[inline(never)]
fn set_intersection(
    cursor: &mut Cursor,
    alloc: Global,
    mode: &Mode,
    nesting: u32,
    first: Box<Class>,
) -> Result<Box<Class>, Error>
    requires few { HasFewGroups mode.now }
    requires sets { mode.now.sets ≡ true }
    requires shallow { nesting ≤ 256 }
    requires deep { nesting + class_depth (class_view first.value) ≤ greatest_depth }
    ensures read { IsClassAnswer nesting (intersection_at (mode_view mode.now) (class_view first.value)) (unread cursor.old) result (unread cursor.new) }
    ensures ended { OnOk result (closes_class (unread cursor.new) ≡ true) }
    ensures kept { SameText cursor.old cursor.new }
{
    regress_meaning::contents_go_by_steps();
    let mut others = Vec::new(alloc);
    loop {
        if !eat_pair(cursor, '&') || cursor.is_at('&') {
            return Err(Error::Syntax {
                text: class_error(cursor),
            });
        }
        let next = set_operand(cursor, alloc, mode, nesting)?;
        push(&mut others, next.into_class())?;
        if cursor.is_at(']') {
            break;
        }
    }
    Ok(in_box(alloc, Class::Intersection(first, others))?)
}

/// At the first `--`, behind the first operand: what stands in that and in no other ("ClassSubtraction").
#[cycle(class)]
#[inline(never)]
fn set_difference(
    cursor: &mut Cursor,
    alloc: Global,
    mode: &Mode,
    nesting: u32,
    first: Box<Class>,
) -> Result<Box<Class>, Error>
    requires few { HasFewGroups mode.now }
    requires sets { mode.now.sets ≡ true }
    requires shallow { nesting ≤ 256 }
    requires deep { nesting + class_depth (class_view first.value) ≤ greatest_depth }
    ensures read { IsClassAnswer nesting (difference_at (mode_view mode.now) (class_view first.value)) (unread cursor.old) result (unread cursor.new) }
    ensures ended { OnOk result (closes_class (unread cursor.new) ≡ true) }
    ensures kept { SameText cursor.old cursor.new }
{
    regress_meaning::contents_go_by_steps();
    let mut others = Vec::new(alloc);
    loop {
        if !eat_pair(cursor, '-') {
            return Err(Error::Syntax {
                text: class_error(cursor),
            });
        }
        let next = set_operand(cursor, alloc, mode, nesting)?;
        push(&mut others, next.into_class())?;
        if cursor.is_at(']') {
            break;
        }
    }
    Ok(in_box(alloc, Class::Difference(first, others))?)
}
