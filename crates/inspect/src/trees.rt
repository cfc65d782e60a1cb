//! Trees of nodes, each node on a line of its own, indented by how many stand above it.

use crate::classes::{push_bracket, push_name, push_quantifier};
use crate::texts::{indent, push_bytes, push_literal, push_point, push_points, push_text};
use regress_front::{CodePoint, Node};
use std::alloc::{AllocError, Global};
use std::boxed::BoxedSlice;

/// A node that stands below `depth` others, and all below it.
#[cycle(nodes)]
pub(crate) fn push_node(
    alloc: Global,
    out: &mut String,
    node: &Node,
    depth: usize,
) -> Result<(), AllocError> {
    indent(out, depth)?;
    push_head(alloc, out, node)?;
    out.push('\n')?;
    push_below(alloc, out, node, depth.saturating_add(1))
}

/// The nodes right below a node, with all below them, each below `depth` others.
#[cycle(nodes)]
fn push_below(
    alloc: Global,
    out: &mut String,
    node: &Node,
    depth: usize,
) -> Result<(), AllocError> {
    match node {
        Node::Cat(parts) => {
            for part in parts {
                push_node(alloc, out, part, depth)?;
            }
            Ok(())
        }
        Node::Alt(first, second) => {
            push_node(alloc, out, first, depth)?;
            push_node(alloc, out, second, depth)
        }
        Node::CaptureGroup { contents, .. }
        | Node::LookaroundAssertion { contents, .. }
        | Node::AtomicGroup { contents, .. } => push_node(alloc, out, contents, depth),
        Node::Loop { loopee, .. } | Node::Loop1CharBody { loopee, .. } => {
            push_node(alloc, out, loopee, depth)
        }
        _ => Ok(()),
    }
}

/// A node without those below it.
fn push_head(alloc: Global, out: &mut String, node: &Node) -> Result<(), AllocError> {
    match node {
        Node::Cat(_) => out.push_str("Cat"),
        Node::Alt(..) => out.push_str("Alt"),
        Node::CaptureGroup { id, name, .. } => {
            write!(out, "CaptureGroup {id}")?;
            push_name(out, name)
        }
        Node::LookaroundAssertion {
            negate,
            backwards,
            start_group,
            end_group,
            ..
        } => write!(
            out,
            "LookaroundAssertion {{ negate: {negate}, backwards: {backwards} }} groups {start_group}..{end_group}"
        ),
        Node::AtomicGroup {
            start_group,
            end_group,
            ..
        } => write!(out, "AtomicGroup groups {start_group}..{end_group}"),
        Node::Loop {
            quant,
            enclosed_groups,
            ..
        } => {
            out.push_str("Loop ")?;
            push_quantifier(out, quant)?;
            write!(out, " groups {enclosed_groups:?}")
        }
        Node::Loop1CharBody { quant, .. } => {
            out.push_str("Loop1CharBody ")?;
            push_quantifier(out, quant)
        }
        leaf => push_leaf(alloc, out, leaf),
    }
}

/// A node that has none below it.
fn push_leaf(alloc: Global, out: &mut String, node: &Node) -> Result<(), AllocError> {
    match node {
        Node::Char { c } => {
            out.push_str("Char ")?;
            push_point(out, *c)
        }
        Node::ByteSequence(bytes) => {
            out.push_str("ByteSequence ")?;
            push_literal(out, bytes)
        }
        Node::ByteSet(bytes) => {
            out.push_str("ByteSet ")?;
            push_bytes(out, bytes)
        }
        Node::CharSet(points) => {
            out.push_str("CharSet ")?;
            push_points(out, points)
        }
        Node::Bracket(contents) => {
            out.push_str("Bracket ")?;
            push_bracket(out, contents)
        }
        Node::StringSet {
            alternatives,
            icase,
        } => {
            write!(out, "StringSet {{ icase: {icase} }}")?;
            push_strings(alloc, out, alternatives)
        }
        other => write!(out, "{other:?}"),
    }
}

/// Strings as texts, with a space before each.
fn push_strings(
    alloc: Global,
    out: &mut String,
    strings: &[BoxedSlice<CodePoint>],
) -> Result<(), AllocError> {
    for string in strings {
        out.push(' ')?;
        push_text(alloc, out, string)?;
    }
    Ok(())
}
