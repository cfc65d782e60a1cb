//! Names that stand twice in a pattern.
ghost use Rattle.std.specs.Prelude.{◌≡◌, Some, map, IfOk};
ghost use Rattle.regress_meaning.specs.Pattern.{capture};
ghost use Rattle.regress_meaning.specs.Grammar.{names_apart};
ghost use Rattle.regress_front_tokens.specs.Trees.{tree, trees_of, sequence_of, choice_of};
ghost use Rattle.regress_front_tokens.specs.Words.{code_points_of};
ghost use Rattle.regress_front_syntax.specs.Names.{AreJoined, IsAdding, IsNaming};

use regress_front_tables::CaptureGroupName;
use regress_front_tokens::{Syntax, Term};
use std::alloc::{AllocError, Global};
use std::collections::BTreeSet;
use std::mem::swap;

/// Names of groups.
type Names<'s> = BTreeSet<&'s CaptureGroupName, Global>;

/// The names of both, and whether no name stands in both.
fn joined<'s>(mut names: Names<'s>, mut more: Names<'s>) -> Result<(Names<'s>, bool), AllocError>
    ensures { IfOk result (λ (all, apart). AreJoined names.entry more.entry all apart) }
{
    let apart = names.is_disjoint(&more);
    // The fewer names go to the others, so that none is moved often.
    if names.len() < more.len() {
        swap(&mut names, &mut more);
    }
    names.append(&mut more)?;
    Ok((names, apart))
}

/// The names with one more; nothing where it is among them.
#[inline(never)]
fn with_name<'s>(
    mut names: Names<'s>,
    name: &'s CaptureGroupName,
) -> Result<Option<Names<'s>>, AllocError>
    ensures { IfOk result (IsAdding names.entry (code_points_of name.now)) }
{
    if names.insert(name)? {
        Ok(Some(names))
    } else {
        Ok(None)
    }
}

/// The names of a tree's groups; nothing where some name stands twice but in different alternatives of one disjunction.
#[cycle(naming)]
fn names_in<'s>(alloc: Global, syntax: &'s Syntax) -> Result<Option<Names<'s>>, AllocError>
    ensures { IfOk result (IsNaming (tree syntax.now)) }
{
    match syntax {
        Syntax::Alternative(terms) => names_in_terms(alloc, terms),
        Syntax::Disjunction(arms) => names_in_arms(alloc, arms),
        Syntax::Capture {
            name: Some(name),
            contents,
            ..
        } => names_in_named(alloc, name, contents),
        Syntax::Capture { contents, .. }
        | Syntax::Group(contents)
        | Syntax::Atomic { contents, .. }
        | Syntax::Modified { contents, .. }
        | Syntax::Look { contents, .. }
        | Syntax::Loop {
            loopee: contents,
            ..
        } => names_in(alloc, contents),
        Syntax::Character(_)
        | Syntax::Any
        | Syntax::Class { .. }
        | Syntax::ClassEscape(_)
        | Syntax::Reference(_)
        | Syntax::LineStart
        | Syntax::LineEnd
        | Syntax::WordBoundary { .. } => Ok(Some(Names::new(alloc))),
    }
}

/// The same of terms one after another. A text has no names.
#[cycle(naming)]
#[inline(never)]
fn names_in_terms<'s>(
    alloc: Global,
    terms: &'s [Term<Syntax>],
) -> Result<Option<Names<'s>>, AllocError>
    ensures { IfOk result (IsNaming (sequence_of (trees_of terms.now))) }
{
    let mut names = Names::new(alloc);
    for term in terms {
        let Term::One(term) = term else {
            continue;
        };
        let Some(more) = names_in(alloc, term)? else {
            return Ok(None);
        };
        let (all, apart) = joined(names, more)?;
        if !apart {
            return Ok(None);
        }
        names = all;
    }
    Ok(Some(names))
}

/// The same of alternatives, each of which may have the names of the others.
#[cycle(naming)]
#[inline(never)]
fn names_in_arms<'s>(alloc: Global, arms: &'s [Syntax]) -> Result<Option<Names<'s>>, AllocError>
    ensures { IfOk result (IsNaming (choice_of (map tree arms.now))) }
{
    let mut names = Names::new(alloc);
    for arm in arms {
        let Some(more) = names_in(alloc, arm)? else {
            return Ok(None);
        };
        (names, _) = joined(names, more)?;
    }
    Ok(Some(names))
}

/// The same of a capturing group with a name; the empty text is none.
#[cycle(naming)]
#[inline(never)]
fn names_in_named<'s>(
    alloc: Global,
    name: &'s CaptureGroupName,
    contents: &'s Syntax,
) -> Result<Option<Names<'s>>, AllocError>
    ensures { IfOk result (IsNaming (capture 0 (Some (code_points_of name.now)) (tree contents.now))) }
{
    if name.is_empty() {
        return names_in(alloc, contents);
    }
    match names_in(alloc, contents)? {
        Some(names) => with_name(names, name),
        None => Ok(None),
    }
}

/// Whether no name of a group stands twice but in different alternatives of one disjunction ("MightBothParticipate").
pub(crate) fn names_are_apart(alloc: Global, syntax: &Syntax) -> Result<bool, AllocError>
    ensures { IfOk result (λ apart. apart ≡ names_apart (tree syntax.now)) }
{
    Ok(names_in(alloc, syntax)?.is_some())
}
