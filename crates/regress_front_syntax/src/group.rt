//! What an opening parenthesis begins.
ghost use Rattle.std.specs.Prelude.{◌≡◌, ◌≤◌, ◌++◌, length, Some, OnOk};
ghost use Rattle.std.specs.List.{list_any};
ghost use Rattle.regress_meaning.specs.Text.{holds};
ghost use Rattle.regress_meaning.specs.Flags.{settings_of};
ghost use Rattle.regress_meaning.specs.Grammar.{is_flag, all_differ};
ghost use Rattle.regress_front_tokens.specs.Trees.{settings};
ghost use Rattle.regress_meaning.specs.Reading.{modifiers_at, angle_opening, question_opening, parenthesis_opening};
ghost use Rattle.regress_front_tokens.specs.Cursors.{unread, SameText};
ghost use Rattle.regress_front_tokens.specs.Escapes.{mode_view};
ghost use Rattle.regress_front_syntax.specs.Openings.{switched_off, IsOpening};

use regress_front_tables::{CaptureGroupID, CaptureGroupName, CodePoint, Error};
use regress_front_tokens::{Cursor, Mode, Modifiers, Syntax, is_one_of};
use std::alloc::Global;
use std::ops::Range;

/// What an opening parenthesis begins, up to the contents.
#[derive(Debug, Drop)]
pub(crate) enum Opening<'p> {
    /// A capturing group, with its name, if it has one.
    Capture(Option<CaptureGroupName>),
    /// `(?:`
    Group,
    /// `(?>`
    Atomic,
    /// `(?ims-ims:`, with the letters before the dash and behind it.
    Modified {
        on: &'p [CodePoint],
        off: &'p [CodePoint],
    },
    /// `(?=` and `(?!`
    Lookahead {
        negated: bool,
    },
    /// `(?<=` and `(?<!`
    Lookbehind {
        negated: bool,
    },
}

/// Whether modifiers may switch the letter.
fn is_flag(letter: CodePoint) -> bool
    ensures { result ≡ is_flag letter }
{
    is_one_of(letter, "ims")
}

/// Whether no letter stands twice.
fn all_differ(letters: &[CodePoint]) -> bool
    ensures { result ≡ all_differ letters.now }
{
    let mut rest = letters;
    while let Some((first, behind)) = rest.split_first() {
        if behind.contains(first) {
            return false;
        }
        rest = behind;
    }
    true
}

/// Whether a letter stands in both.
fn share_a_letter(on: &[CodePoint], off: &[CodePoint]) -> bool
    ensures { result ≡ list_any (λ letter. holds off.now letter) on.now }
{
    on.iter().any(|letter| off.contains(letter))
}

/// Whether no letter stands twice in both together.
fn differ(on: &[CodePoint], off: &[CodePoint]) -> bool
    ensures { result ≡ all_differ (on.now ++ off.now) }
{
    all_differ(on) && all_differ(off) && !share_a_letter(on, off)
}

/// What letters switch.
fn modifiers_of(letters: &[CodePoint]) -> Modifiers
    ensures { settings result ≡ settings_of letters.now }
{
    Modifiers {
        icase: letters.contains(&CodePoint::from('i')),
        multiline: letters.contains(&CodePoint::from('m')),
        dot_all: letters.contains(&CodePoint::from('s')),
    }
}

impl Opening<'_> {
    ghost use Rattle.regress_front_tokens.specs.Trees.{tree};
    ghost use Rattle.regress_front_tokens.specs.Ranges.{opens};
    ghost use Rattle.regress_front_syntax.specs.Openings.{is_capture, may_repeat, is_lookbehind, enclosed, opened_by};

    /// Whether it opens a capturing group.
    pub(crate) fn is_capture(&self) -> bool
        ensures { result ≡ is_capture self.now }
    {
        matches!(self, Opening::Capture(_))
    }

    /// Whether a quantifier may follow: behind a lookahead only without Unicode mode ("QuantifiableAssertion").
    pub(crate) fn may_repeat(&self, unicode: bool) -> bool
        ensures { result ≡ may_repeat unicode self.now }
    {
        match self {
            Opening::Lookahead { .. } => !unicode,
            Opening::Capture(_)
            | Opening::Group
            | Opening::Atomic
            | Opening::Modified { .. }
            | Opening::Lookbehind { .. } => true,
        }
    }

    /// Whether it opens a lookbehind.
    pub(crate) fn is_lookbehind(&self) -> bool
        ensures { result ≡ is_lookbehind self.now }
    {
        matches!(self, Opening::Lookbehind { .. })
    }

    /// The tree of contents behind the opening, with the numbers of the groups that both open; if it captures, the first is its
    /// own.
    pub(crate) fn enclose(
        self,
        enclosed_groups: Range<CaptureGroupID>,
        contents: Box<Syntax>,
    ) -> Syntax
        ensures same { tree result ≡ enclosed self.entry enclosed_groups.start (tree contents.value) }
        ensures ranges { opens contents.value (opened_by self.entry enclosed_groups.start) ≡ Some enclosed_groups.end
            → opens result enclosed_groups.start ≡ Some enclosed_groups.end }
    {
        match self {
            Opening::Capture(name) => Syntax::Capture {
                id: enclosed_groups.start,
                name,
                contents,
            },
            Opening::Group => Syntax::Group(contents),
            Opening::Atomic => Syntax::Atomic {
                contents,
                enclosed_groups,
            },
            Opening::Modified { on, off } => Syntax::Modified {
                on: modifiers_of(on),
                off: modifiers_of(off),
                contents,
            },
            Opening::Lookahead { negated } => Syntax::Look {
                negated,
                backward: false,
                contents,
                enclosed_groups,
            },
            Opening::Lookbehind { negated } => Syntax::Look {
                negated,
                backward: true,
                contents,
                enclosed_groups,
            },
        }
    }
}

/// Behind `(`: what it opens ("Atom", "Assertion"). A syntax error where that is nothing.
#[inline(never)]
pub(crate) fn read_opening<'p>(
    cursor: &mut Cursor<'p>,
    alloc: Global,
    mode: &Mode,
) -> Result<Opening<'p>, Error>
    ensures read { IsOpening (parenthesis_opening (mode_view mode.now) (unread cursor.old)) result (unread cursor.new) }
    ensures kept { SameText cursor.old cursor.new }
    ensures progress { OnOk result (length (unread cursor.new) ≤ length (unread cursor.old)) }
{
    if cursor.eat('?') {
        return question_opening(cursor, alloc, mode);
    }
    Ok(Opening::Capture(None))
}

/// Behind `(?`: what it opens.
fn question_opening<'p>(
    cursor: &mut Cursor<'p>,
    alloc: Global,
    mode: &Mode,
) -> Result<Opening<'p>, Error>
    ensures read { IsOpening (question_opening (mode_view mode.now) (unread cursor.old)) result (unread cursor.new) }
    ensures kept { SameText cursor.old cursor.new }
    ensures progress { OnOk result (length (unread cursor.new) ≤ length (unread cursor.old)) }
{
    if cursor.is_at_any("=!") {
        let negated = cursor.is_at('!');
        cursor.bump();
        return Ok(Opening::Lookahead { negated });
    }
    if cursor.eat(':') {
        return Ok(Opening::Group);
    }
    if cursor.eat('>') {
        return Ok(Opening::Atomic);
    }
    if cursor.eat('<') {
        return angle_opening(cursor, alloc, mode);
    }
    modifiers(cursor)
}

/// Behind `(?<`: a lookbehind, or a group with a name ("GroupSpecifier").
fn angle_opening<'p>(
    cursor: &mut Cursor<'p>,
    alloc: Global,
    mode: &Mode,
) -> Result<Opening<'p>, Error>
    ensures read { IsOpening (angle_opening (mode_view mode.now) (unread cursor.old)) result (unread cursor.new) }
    ensures kept { SameText cursor.old cursor.new }
    ensures progress { OnOk result (length (unread cursor.new) ≤ length (unread cursor.old)) }
{
    regress_meaning::reading_leaves_less();
    if cursor.is_at_any("=!") {
        let negated = cursor.is_at('!');
        cursor.bump();
        return Ok(Opening::Lookbehind { negated });
    }
    let name = cursor.name(alloc, mode.tables)?;
    Ok(Opening::Capture(Some(name)))
}

/// Behind `(?`: letters that are switched on, perhaps a dash and letters that are switched off, and `:`. Each letter is one
/// of `i`, `m` and `s`, and stands once; there is at least one ("RegularExpressionModifiers").
fn modifiers<'p>(cursor: &mut Cursor<'p>) -> Result<Opening<'p>, Error>
    ensures read { IsOpening (modifiers_at (unread cursor.old)) result (unread cursor.new) }
    ensures kept { SameText cursor.old cursor.new }
    ensures progress { OnOk result (length (unread cursor.new) ≤ length (unread cursor.old)) }
{
    if !cursor.is_at_any("ims-") {
        return Err(Error::Syntax {
            text: "Invalid group",
        });
    }
    let on = cursor.take_while(is_flag);
    let off = switched_off(cursor);
    let is_empty = on.is_empty() && off.is_empty();
    if is_empty || !differ(on, off) || !cursor.eat(':') {
        return Err(Error::Syntax {
            text: "Invalid modifiers",
        });
    }
    Ok(Opening::Modified { on, off })
}

/// A dash and the letters behind it, if a dash stands here.
fn switched_off<'p>(cursor: &mut Cursor<'p>) -> &'p [CodePoint]
    ensures read { switched_off (unread cursor.old) ≡ (result.now, unread cursor.new) }
    ensures kept { SameText cursor.old cursor.new }
{
    if cursor.eat('-') {
        cursor.take_while(is_flag)
    } else {
        cursor.take_up_to(0, is_flag)
    }
}
