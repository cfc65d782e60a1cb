//! Syntax trees, each part on a line of its own, indented by how many stand above it.

use crate::classes::{push_name, push_quantifier};
use crate::texts::{indent, push_interval, push_point, push_text};
use regress_front::CodePoint;
use regress_front_tokens::{Class, Modifiers, Syntax, Term};
use std::alloc::{AllocError, Global};

/// A part that stands below `depth` others, and all below it.
#[cycle(syntax)]
pub(crate) fn push_syntax(
    alloc: Global,
    out: &mut String,
    syntax: &Syntax,
    depth: usize,
) -> Result<(), AllocError> {
    indent(out, depth)?;
    push_head(out, syntax)?;
    out.push('\n')?;
    push_below(alloc, out, syntax, depth.saturating_add(1))
}

/// The parts right below a part, with all below them, each below `depth` others.
#[cycle(syntax)]
fn push_below(
    alloc: Global,
    out: &mut String,
    syntax: &Syntax,
    depth: usize,
) -> Result<(), AllocError> {
    match syntax {
        Syntax::Class { class, .. } | Syntax::ClassEscape(class) => {
            push_class(alloc, out, class, depth)
        }
        Syntax::Alternative(terms) => push_terms(alloc, out, terms, depth),
        Syntax::Disjunction(arms) => {
            for arm in arms {
                push_syntax(alloc, out, arm, depth)?;
            }
            Ok(())
        }
        Syntax::Capture { contents, .. }
        | Syntax::Group(contents)
        | Syntax::Atomic { contents, .. }
        | Syntax::Modified { contents, .. }
        | Syntax::Look { contents, .. }
        | Syntax::Loop {
            loopee: contents,
            ..
        } => push_syntax(alloc, out, contents, depth),
        _ => Ok(()),
    }
}

/// The terms of an alternative.
#[cycle(syntax)]
fn push_terms(
    alloc: Global,
    out: &mut String,
    terms: &Vec<Term<Syntax>>,
    depth: usize,
) -> Result<(), AllocError> {
    for term in terms {
        match term {
            Term::Text(points) => push_characters(alloc, out, points, depth)?,
            Term::One(syntax) => push_syntax(alloc, out, syntax, depth)?,
        }
    }
    Ok(())
}

/// Characters side by side.
fn push_characters(
    alloc: Global,
    out: &mut String,
    points: &[CodePoint],
    depth: usize,
) -> Result<(), AllocError> {
    indent(out, depth)?;
    out.push_str("Text ")?;
    push_text(alloc, out, points)?;
    out.push('\n')
}

/// A part without those below it.
fn push_head(out: &mut String, syntax: &Syntax) -> Result<(), AllocError> {
    match syntax {
        Syntax::Alternative(_) => out.push_str("Alternative"),
        Syntax::Disjunction(_) => out.push_str("Disjunction"),
        Syntax::ClassEscape(_) => out.push_str("ClassEscape"),
        Syntax::Group(_) => out.push_str("Group"),
        Syntax::Atomic { .. } => out.push_str("Atomic"),
        Syntax::Class { negated, .. } => write!(out, "Class {{ negated: {negated} }}"),
        Syntax::Look {
            negated,
            backward,
            ..
        } => write!(out, "Look {{ negated: {negated}, backward: {backward} }}"),
        Syntax::Character(point) => {
            out.push_str("Character ")?;
            push_point(out, *point)
        }
        other => push_numbered(out, other),
    }
}

/// The same of what has groups, modifiers or a count.
fn push_numbered(out: &mut String, syntax: &Syntax) -> Result<(), AllocError> {
    match syntax {
        Syntax::Capture { id, name, .. } => {
            write!(out, "Capture {id}")?;
            push_name(out, name)
        }
        Syntax::Modified { on, off, .. } => {
            out.push_str("Modified")?;
            push_letters(out, " on", *on)?;
            push_letters(out, " off", *off)
        }
        Syntax::Loop {
            quant,
            enclosed_groups,
            ..
        } => {
            out.push_str("Loop ")?;
            push_quantifier(out, quant)?;
            write!(out, " groups {enclosed_groups:?}")
        }
        other => write!(out, "{other:?}"),
    }
}

/// What is done with modifiers, and their letters, each behind a space.
fn push_letters(out: &mut String, verb: &str, letters: Modifiers) -> Result<(), AllocError> {
    out.push_str(verb)?;
    out.push_str(if letters.icase { " i" } else { "" })?;
    out.push_str(if letters.multiline { " m" } else { "" })?;
    out.push_str(if letters.dot_all { " s" } else { "" })
}

/// A class that stands below `depth` parts, and all below it.
#[cycle(class)]
fn push_class(
    alloc: Global,
    out: &mut String,
    class: &Class,
    depth: usize,
) -> Result<(), AllocError> {
    indent(out, depth)?;
    push_class_head(alloc, out, class)?;
    out.push('\n')?;
    push_members(alloc, out, class, depth.saturating_add(1))
}

/// The classes right below a class, with all below them, each below `depth` parts.
#[cycle(class)]
fn push_members(
    alloc: Global,
    out: &mut String,
    class: &Class,
    depth: usize,
) -> Result<(), AllocError> {
    match class {
        Class::Union(members) => push_classes(alloc, out, members, depth),
        Class::Intersection(first, others) | Class::Difference(first, others) => {
            push_class(alloc, out, first, depth)?;
            push_classes(alloc, out, others, depth)
        }
        Class::Complement(contents) | Class::Nested { contents, .. } => {
            push_class(alloc, out, contents, depth)
        }
        _ => Ok(()),
    }
}

/// Classes, each below `depth` parts.
#[cycle(class)]
fn push_classes(
    alloc: Global,
    out: &mut String,
    classes: &Vec<Class>,
    depth: usize,
) -> Result<(), AllocError> {
    for class in classes {
        push_class(alloc, out, class, depth)?;
    }
    Ok(())
}

/// A class without those below it.
fn push_class_head(alloc: Global, out: &mut String, class: &Class) -> Result<(), AllocError> {
    match class {
        Class::Union(_) => out.push_str("Union"),
        Class::Intersection(..) => out.push_str("Intersection"),
        Class::Difference(..) => out.push_str("Difference"),
        Class::Complement(_) => out.push_str("Complement"),
        Class::Nested { negated, .. } => write!(out, "Nested {{ negated: {negated} }}"),
        Class::Range { first, last } => {
            out.push_str("Range ")?;
            push_interval(out, *first, *last)
        }
        Class::Strings(strings) => push_strings(alloc, out, strings),
        other => write!(out, "{other:?}"),
    }
}

/// Strings of a class as texts.
fn push_strings(
    alloc: Global,
    out: &mut String,
    strings: &[Vec<CodePoint>],
) -> Result<(), AllocError> {
    out.push_str("Strings")?;
    for string in strings {
        out.push(' ')?;
        push_text(alloc, out, string)?;
    }
    Ok(())
}
