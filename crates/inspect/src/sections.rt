//! What is printed of a pattern, each section under its heading.

use crate::forms::{Forms, compile};
use crate::programs::{push_first_bytes, push_program, push_start};
use crate::request::Request;
use crate::syntax::push_syntax;
use crate::texts::push_quoted;
use crate::trees::push_node;
use regress_engine_code::CompiledRegex;
use regress_engine_linear::LinearTable;
use regress_front::ir::Regex;
use regress_front::{CaptureGroupName, Tables};
use std::alloc::{AllocError, Global};

/// A part of what is printed.
#[derive(Clone, Copy)]
enum Section {
    Syntax,
    Tree,
    Rewritten,
    Predicate,
    Program,
    FirstBytes,
    Units,
    Groups,
    Sizes,
    Linear,
}

/// The sections in their order, with how a line names them, and their headings.
const SECTIONS: &[(Section, &str, &str)] = &[
    (Section::Syntax, "syntax", "  syntax tree\n"),
    (Section::Tree, "tree", "  tree\n"),
    (Section::Rewritten, "rewritten", "  rewritten tree\n"),
    (Section::Predicate, "predicate", "  start predicate\n"),
    (Section::Program, "program", "  program of bytes\n"),
    (
        Section::FirstBytes,
        "first_bytes",
        "  first bytes of each address\n",
    ),
    (Section::Units, "units", "  program of units\n"),
    (Section::Groups, "groups", "  groups and names\n"),
    (Section::Sizes, "sizes", "  sizes\n"),
    (Section::Linear, "linear", "  linear\n"),
];

/// How deep the first line of a section is indented, in steps.
const MARGIN: usize = 2;

/// What is printed where a section is as the one that it is made of.
const SAME: &str = "    the same\n";

/// All sections that are asked for, or why the pattern is refused.
pub(crate) fn push_request(
    alloc: Global,
    out: &mut String,
    request: &Request<'_>,
    tables: &Tables,
) -> Result<(), AllocError> {
    match compile(alloc, &request.points, request.flags, tables) {
        Ok(forms) => push_sections(alloc, out, request, &forms),
        Err(error) => write!(out, "  error: {error}\n"),
    }
}

/// The sections that are asked for.
fn push_sections(
    alloc: Global,
    out: &mut String,
    request: &Request<'_>,
    forms: &Forms<'_>,
) -> Result<(), AllocError> {
    for (section, name, heading) in SECTIONS {
        if request.shows(*name) {
            out.push_str(*heading)?;
            push_section(alloc, out, *section, request, forms)?;
        }
    }
    Ok(())
}

/// One section.
fn push_section(
    alloc: Global,
    out: &mut String,
    section: Section,
    request: &Request<'_>,
    forms: &Forms<'_>,
) -> Result<(), AllocError> {
    match section {
        Section::Syntax => push_syntax(alloc, out, &forms.syntax, MARGIN),
        Section::Tree => push_node(alloc, out, &forms.tree.node, MARGIN),
        Section::Rewritten => push_rewritten(alloc, out, forms, request.shows("tree")),
        Section::Predicate => push_predicate(alloc, out, &forms.program),
        Section::Program => push_program(alloc, out, &forms.program),
        Section::FirstBytes => push_first_bytes(alloc, out, &forms.program),
        Section::Units => push_units(alloc, out, forms, request.shows("program")),
        Section::Groups => push_groups(out, forms.program.group_names()),
        Section::Sizes => push_sizes(alloc, out, forms),
        Section::Linear => push_linear(alloc, out, forms),
    }
}

/// A tree as it is printed.
fn tree_text(alloc: Global, regex: &Regex<'_>) -> Result<String, AllocError> {
    let mut text = String::new(alloc);
    push_node(alloc, &mut text, &regex.node, MARGIN)?;
    Ok(text)
}

/// A program as it is printed.
fn program_text(alloc: Global, program: &CompiledRegex) -> Result<String, AllocError> {
    let mut text = String::new(alloc);
    push_program(alloc, &mut text, program)?;
    Ok(text)
}

/// The rewritten tree, unless the tree above it is the same.
fn push_rewritten(
    alloc: Global,
    out: &mut String,
    forms: &Forms<'_>,
    below_tree: bool,
) -> Result<(), AllocError> {
    let text = tree_text(alloc, &forms.rewritten)?;
    if below_tree && text == tree_text(alloc, &forms.tree)? {
        return out.push_str(SAME);
    }
    out.push_str(text.as_str())
}

/// The program of units, unless the program of bytes above it is the same.
fn push_units(
    alloc: Global,
    out: &mut String,
    forms: &Forms<'_>,
    below_program: bool,
) -> Result<(), AllocError> {
    let text = program_text(alloc, &forms.units)?;
    if below_program && text == program_text(alloc, &forms.program)? {
        return out.push_str(SAME);
    }
    out.push_str(text.as_str())
}

/// Where a match may begin.
fn push_predicate(
    alloc: Global,
    out: &mut String,
    program: &CompiledRegex,
) -> Result<(), AllocError> {
    out.push_str("    ")?;
    push_start(alloc, out, program.start_pred())?;
    out.push('\n')
}

/// The groups by their numbers from 1, each with its name, if it has one.
fn push_groups(out: &mut String, names: &[CaptureGroupName]) -> Result<(), AllocError> {
    for (index, name) in names.iter().enumerate() {
        let number = index.saturating_add(1);
        write!(out, "    {number} ")?;
        push_quoted(out, name.as_str())?;
        out.push('\n')?;
    }
    Ok(())
}

/// How many nodes a tree has: each is printed on a line of its own.
fn node_count(alloc: Global, regex: &Regex<'_>) -> Result<usize, AllocError> {
    Ok(tree_text(alloc, regex)?.lines().count())
}

/// How much there is of everything.
fn push_sizes(alloc: Global, out: &mut String, forms: &Forms<'_>) -> Result<(), AllocError> {
    let points = forms.length;
    let nodes = node_count(alloc, &forms.tree)?;
    let left = node_count(alloc, &forms.rewritten)?;
    write!(
        out,
        "    code points {points}, nodes {nodes}, rewritten {left}\n"
    )?;
    push_program_sizes(out, "of bytes", &forms.program)?;
    push_program_sizes(out, "of units", &forms.units)
}

/// How much there is of everything in a program.
fn push_program_sizes(
    out: &mut String,
    kind: &str,
    program: &CompiledRegex,
) -> Result<(), AllocError> {
    let insns = program.insns().len();
    let brackets = program.brackets().len();
    let loops = program.loops();
    let groups = program.groups();
    write!(
        out,
        "    {kind}: instructions {insns}, brackets {brackets}, loops {loops}, groups {groups}\n"
    )
}

/// Whether each program is linear.
fn push_linear(alloc: Global, out: &mut String, forms: &Forms<'_>) -> Result<(), AllocError> {
    push_program_linear(alloc, out, "rewritten, of bytes", &forms.program)?;
    push_program_linear(alloc, out, "as parsed, of units", &forms.units)
}

/// Whether a program is.
fn push_program_linear(
    alloc: Global,
    out: &mut String,
    kind: &str,
    program: &CompiledRegex,
) -> Result<(), AllocError> {
    let found = LinearTable::of(alloc, program.insns(), program.loops() as usize)?;
    let answer = if found.is_some() { "yes" } else { "no" };
    write!(out, "    {kind}: {answer}\n")
}
