//! Replacement templates of the standard: read once, and written at each match.
ghost use Rattle.std.specs.Prelude.{◌≡◌, ◌∷◌, ◌++◌, ◌<◌, ◌≤◌, ℕ, Bool, true, false, List, [], length, option_map, IfOk, OnOk, OnSome, IsOkUnless, string_bytes};
ghost use Rattle.regress_meaning.specs.Matches.{Item};
ghost use Rattle.regress_match.specs.Views.{item_of};
ghost use Rattle.regress_match.specs.GroupViews.{names_of_match};
ghost use Rattle.regress_match.specs.TextRanges.{LiesInText};
ghost use Rattle.regress_replacing.specs.Substitution.{substitution};
ghost use Rattle.regress_replacing.specs.TemplateParts.{mark_gives, part_gives, BeginsWith, AreOfTemplate};

use crate::digits::{Digits, digits_at, digits_give};
use crate::names::{is_some_named, text_taken};
use regress_front_core::Error;
use regress_match::Match;
use std::alloc::Global;

/// A part of a template.
#[derive(Debug, Drop)]
enum Part<'p> {
    /// This text.
    Text(&'p str),
    /// What stands before the match.
    Before,
    /// The text of the match.
    Matched,
    /// What stands behind the match.
    Behind,
    /// The text of the group whose number these digits write, as far as there is such a group.
    Numbered(Digits<'p>),
    /// The text of the first group with this name that took part.
    Named(&'p str),
}

/// What a `$` stands for before this character, where the two have a meaning by themselves.
fn mark<'p>(character: u8) -> Option<Part<'p>>
    ensures gives { (names : List (List ℕ)) → (text : List ℕ) → (i : Item) →
        option_map (part_gives names text i) result ≡ mark_gives text i character }
    ensures ascii { OnSome result (character < 128) }
{
    match character {
        b'$' => Some(Part::Text("$")),
        b'`' => Some(Part::Before),
        b'&' => Some(Part::Matched),
        b'\'' => Some(Part::Behind),
        _ => None,
    }
}

/// What a `$` stands for, and the text behind that: `behind` is what stands behind the `$`. A `$<` has a meaning only where some
/// group has a name.
fn reference<'p>(behind: &'p str, is_named: bool) -> (Part<'p>, &'p str)
    ensures begins { BeginsWith is_named (0x24 ∷ behind.now) result.0 result.1.now }
    ensures shorter { length result.1.now ≤ length behind.now }
{
    let Some(first) = behind.as_bytes().first() else {
        return (Part::Text("$"), behind);
    };
    if let Some(part) = mark(*first) {
        return (part, &behind[1..]);
    }
    if first.is_ascii_digit() {
        let (digits, rest) = digits_at(behind);
        return (Part::Numbered(digits), rest);
    }
    if *first == b'<' && is_named {
        if let Some((name, rest)) = behind[1..].split_once('>') {
            return (Part::Named(name), rest);
        }
    }
    (Part::Text("$"), behind)
}

/// The parts of a template, for matches of a pattern in which some group has a name, or in which none has.
fn parts<'p>(alloc: Global, source: &'p str, is_named: bool) -> Result<Vec<Part<'p>>, Error>
    ensures read { IfOk result (λ ps. AreOfTemplate is_named source.now ps.items) }
    ensures refused { IsOkUnless result Error.OutOfMemory }
{
    let mut parts = Vec::new(alloc);
    let mut rest = source;
    while let Some((plain, behind)) = rest.split_once('$') {
        parts.push(Part::Text(plain))?;
        let (part, left) = reference(behind, is_named);
        parts.push(part)?;
        rest = left;
    }
    parts.push(Part::Text(rest))?;
    Ok(parts)
}

/// Adds to `written` what a part gives at a match in a text.
fn push_part(part: &Part<'_>, found: &Match, text: &str, written: &mut String) -> Result<(), Error>
    requires { LiesInText text.now found.now }
    ensures added { OnOk result (string_bytes written.new ≡ string_bytes written.old
        ++ part_gives (names_of_match found.now) text.now (item_of found.now) part.now) }
    ensures refused { IsOkUnless result Error.OutOfMemory }
{
    match part {
        Part::Text(given) => written.push_str(given)?,
        Part::Before => written.push_str(&text[..found.start()])?,
        Part::Matched => written.push_str(found.as_str(text))?,
        Part::Behind => written.push_str(&text[found.end()..])?,
        Part::Numbered(digits) => {
            let (given, left) = digits_give(digits, found, text);
            written.push_str(given)?;
            written.push_str(left)?;
        }
        Part::Named(name) => written.push_str(text_taken(found, text, name))?,
    }
    Ok(())
}

/// A replacement template of the standard that was read ("GetSubstitution"): `$$` stands for `$`, `$&` for the text of the match,
/// `` $` `` for what stands before the match and `$'` for what stands behind it, `$` and one or two digits for the text of the
/// group with that number, counted from 1, and `$<name>` for the text of the group with that name that took part. A group that
/// took no part has no text, and so has a name that no group has. All else stands for itself: also `$` and digits where no
/// group has that number, and `$<` where no group has a name.
#[derive(Debug, Drop)]
pub struct Template<'p> {
    named: Vec<Part<'p>>,
    unnamed: Vec<Part<'p>>,
    source: &'p str,
    ghost read_named: { AreOfTemplate true source.now named.items },
    ghost read_unnamed: { AreOfTemplate false source.now unnamed.items },
}

impl<'p> Template<'p> {
    ghost use Rattle.regress_replacing.specs.TemplateViews.{template_of};

    /// Reads a template, for matches of any pattern.
    ///
    /// Errs with `OutOfMemory` alone.
    ///
    /// ```rust
    /// let template = Template::new(alloc, "$2/$1")?;
    /// ```
    pub fn new(alloc: Global, source: &'p str) -> Result<Template<'p>, Error>
        ensures read { IfOk result (λ t. template_of t ≡ source.now) }
        ensures refused { IsOkUnless result Error.OutOfMemory }
    {
        let named = parts(alloc, source, true)?;
        let unnamed = parts(alloc, source, false)?;
        Ok(Template {
            named,
            unnamed,
            source,
        })
    }

    /// The parts, for matches of a pattern in which some group has a name, or in which none has.
    fn parts(&self, is_named: bool) -> &[Part<'p>]
        ensures { AreOfTemplate is_named (template_of self.now) result.now }
    {
        if is_named { &self.named } else { &self.unnamed }
    }

    /// Adds to `written` what the template stands for at a match.
    ///
    /// Asks that the match lies in `text`, as one that was found there does. Errs with `OutOfMemory` alone; then a part of it
    /// may have been added.
    ///
    /// ```rust
    /// template.write(&found, text, &mut written)?;
    /// ```
    pub fn write(&self, found: &Match, text: &str, written: &mut String) -> Result<(), Error>
        requires { LiesInText text.now found.now }
        ensures added { OnOk result (string_bytes written.new ≡ string_bytes written.old
            ++ substitution (names_of_match found.now) (template_of self.now) text.now (item_of found.now)) }
        ensures refused { IsOkUnless result Error.OutOfMemory }
    {
        for part in self.parts(is_some_named(found)) {
            push_part(part, found, text, written)?;
        }
        Ok(())
    }
}
