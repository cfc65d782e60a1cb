//! The groups of a pattern, found by a scan of its text before its tree is known.
ghost use Rattle.std.specs.Prelude.{◌≡◌, ◌==◌, not, false, OnOk, IfOk, IfErr, if◌then◌else◌};
ghost use Rattle.regress_meaning.specs.Grammar.{opens_name, holds_a_name, mode_of};
ghost use Rattle.regress_meaning.specs.Scan.{after_escape, opened_groups, group_names, scanned_names};
ghost use Rattle.regress_front_core.specs.FlagWords.{options};
ghost use Rattle.regress_front_tables.specs.TableViews.{table};
ghost use Rattle.regress_front_tokens.specs.Escapes.{mode_view, texts, opened};

use crate::cursor::Cursor;
use crate::groups::GroupsByName;
use crate::mode::Mode;
use regress_front_tables::{CaptureGroupName, CodePoint, Error, Flags, Tables};
use std::alloc::{AllocError, Global};

/// Whether a scan stands in a class behind the code point. Brackets inside a class are not paired.
fn is_in_class_behind(in_class: bool, point: CodePoint) -> bool
    ensures { result ≡ (if in_class then not (point == 0x5D) else point == 0x5B) }
{
    match char::from_u32(point) {
        Some('[') => true,
        Some(']') => false,
        _ => in_class,
    }
}

/// Whether an opening `(?<` that begins no lookbehind stands in the text outside a class. A backslash and what follows it are
/// passed over ("ParsePattern", where it asks whether there are group names).
fn holds_a_name(points: &[CodePoint]) -> bool
    ensures { result ≡ holds_a_name false false points.now }
{
    let mut cursor = Cursor::new(points);
    let mut in_class = false;
    while in_class || !cursor.opens_name() {
        let Some(point) = cursor.next() else {
            return false;
        };
        if point == CodePoint::from('\\') {
            cursor.next();
        }
        in_class = is_in_class_behind(in_class, point);
    }
    true
}

/// The name of each group that the text opens, in order, empty where it has none. `named`: names are read.
fn group_names(
    alloc: Global,
    points: &[CodePoint],
    tables: &Tables,
    named: bool,
) -> Result<Vec<CaptureGroupName>, AllocError>
    ensures { IfOk result (λ names. texts names ≡ group_names (table tables.now) named false 0 points.now) }
{
    let mut names = Vec::new(alloc);
    let mut cursor = Cursor::new(points);
    let mut in_class = false;
    while let Some(point) = cursor.next() {
        if in_class {
            if point == CodePoint::from('\\') {
                cursor.next();
            }
        } else if let Some(name) = cursor.opened_group(alloc, tables, named, point)? {
            names.push(name)?;
        }
        in_class = is_in_class_behind(in_class, point);
    }
    Ok(names)
}

/// The mode of a pattern's text with flags ("ParsePattern"): Unicode mode where these set it. So
/// `mode_of(alloc, &points, Flags::default(), &tables)?` is none. `OutOfMemory` is the only error.
pub fn mode_of<'t>(
    alloc: Global,
    points: &[CodePoint],
    flags: Flags,
    tables: &'t Tables,
) -> Result<Mode<'t>, Error>
    ensures ok { IfOk result (λ mode. mode_view mode
        ≡ mode_of (table tables.now) (options flags) points.now (scanned_names (table tables.now) (options flags) points.now)) }
    ensures err { IfErr result (λ e. e ≡ Error.OutOfMemory) }
{
    let unicode = flags.is_unicode();
    let named = unicode || holds_a_name(points);
    let names = group_names(alloc, points, tables, named)?;
    let groups = GroupsByName::new(alloc, &names)?;
    Ok(Mode {
        tables,
        unicode,
        sets: flags.unicode_sets,
        named,
        names,
        groups,
    })
}

impl Cursor<'_> {
    ghost use Rattle.regress_front_tokens.specs.Cursors.{unread, SameText};

    /// Whether an opening `(?<` that begins no lookbehind stands here.
    fn opens_name(&self) -> bool
        ensures { result ≡ opens_name (unread self.now) }
    {
        let mut ahead = *self;
        ahead.eat('(') && ahead.eat('?') && ahead.eat('<') && !ahead.is_at_any("=!")
    }

    /// Behind a backslash outside a class: goes on behind the code point that stands here, or behind a whole `k<name>`, where
    /// names are read.
    fn pass_escape(&mut self, alloc: Global, tables: &Tables, named: bool) -> Result<(), AllocError>
        ensures { OnOk result (unread self.new ≡ after_escape (table tables.now) named (unread self.old)) }
    {
        let mut ahead = *self;
        if named && ahead.eat('k') && ahead.eat('<') && ahead.try_name(alloc, tables)?.is_some() {
            *self = ahead;
        } else {
            self.next();
        }
        Ok(())
    }

    /// Behind `(`: the name of the group that is opened, empty where it has none, and nothing where the parenthesis opens no
    /// capturing group. Goes on behind the name.
    fn group_name(
        &mut self,
        alloc: Global,
        tables: &Tables,
    ) -> Result<Option<CaptureGroupName>, AllocError>
        ensures { IfOk result (λ name. opened_groups (table tables.now) false 0x28 (unread self.old) ≡ (opened name, unread self.new)) }
    {
        let mut ahead = *self;
        if !ahead.eat('?') {
            return Ok(Some(CaptureGroupName::new(alloc)));
        }
        if !ahead.eat('<') || ahead.is_at_any("=!") {
            return Ok(None);
        }
        let name = ahead.try_name(alloc, tables)?;
        if name.is_some() {
            *self = ahead;
        }
        Ok(name)
    }

    /// Behind a code point outside a class: the name of the group that it opens, if it opens one. Goes on behind all that is
    /// passed over with it.
    fn opened_group(
        &mut self,
        alloc: Global,
        tables: &Tables,
        named: bool,
        point: CodePoint,
    ) -> Result<Option<CaptureGroupName>, AllocError>
        ensures { IfOk result (λ name. opened_groups (table tables.now) named point (unread self.old) ≡ (opened name, unread self.new)) }
    {
        if point == CodePoint::from('\\') {
            self.pass_escape(alloc, tables, named)?;
            return Ok(None);
        }
        if point != CodePoint::from('(') {
            return Ok(None);
        }
        self.group_name(alloc, tables)
    }
}
