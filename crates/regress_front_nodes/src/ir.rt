//! A tree with what it is read by.

use crate::node::Node;
use regress_front_tables::{Flags, Tables};
use std::fmt;

/// A pattern's tree, with its flags and the tables of case and properties, as `try_parse` of `regress_front_tree` makes it.
///
/// ```rust
/// let shown = regex.to_string(alloc)?; // the nodes of the tree, each on a line of its own
/// ```
#[derive(Drop)]
pub struct Regex<'u> {
    /// The tree.
    pub node: Node,
    /// The flags.
    pub flags: Flags,
    /// The tables.
    pub tables: &'u Tables,
}

/// The nodes of the tree, each on a line of its own, indented by how many stand above.
impl<'u> fmt::Display for Regex<'u> {
    fn fmt<W: fmt::Write>(&self, f: &mut fmt::Formatter<W>) -> fmt::Result {
        write_node(&self.node, 0, f)
    }
}

/// Writes a node that stands below `depth` others, and all below it.
#[cycle(write)]
fn write_node<W: fmt::Write>(node: &Node, depth: usize, f: &mut fmt::Formatter<W>) -> fmt::Result {
    for _ in 0..depth {
        f.write_str("  ")?;
    }
    write_head(node, f)?;
    f.write_str("\n")?;
    write_below(node, depth.saturating_add(1), f)
}

/// Writes a node without those below it.
fn write_head<W: fmt::Write>(node: &Node, f: &mut fmt::Formatter<W>) -> fmt::Result {
    match node {
        Node::Cat(_) => f.write_str("Cat"),
        Node::Alt(..) => f.write_str("Alt"),
        Node::CaptureGroup { id, .. } => write!(f, "CaptureGroup {id}"),
        Node::LookaroundAssertion {
            negate,
            backwards,
            ..
        } => write!(
            f,
            "LookaroundAssertion {{ negate: {negate}, backwards: {backwards} }}"
        ),
        Node::AtomicGroup { .. } => f.write_str("AtomicGroup"),
        Node::Loop { quant, .. } => write!(f, "Loop {quant:?}"),
        Node::Loop1CharBody { quant, .. } => write!(f, "Loop1CharBody {quant:?}"),
        leaf => write!(f, "{leaf:?}"),
    }
}

/// Writes the nodes right below a node, each below `depth` others.
#[cycle(write)]
fn write_below<W: fmt::Write>(node: &Node, depth: usize, f: &mut fmt::Formatter<W>) -> fmt::Result {
    match node {
        Node::Cat(parts) => {
            for part in parts {
                write_node(part, depth, f)?;
            }
            Ok(())
        }
        Node::Alt(first, second) => {
            write_node(first, depth, f)?;
            write_node(second, depth, f)
        }
        Node::CaptureGroup { contents, .. }
        | Node::LookaroundAssertion { contents, .. }
        | Node::AtomicGroup { contents, .. } => write_node(contents, depth, f),
        Node::Loop { loopee, .. } | Node::Loop1CharBody { loopee, .. } => {
            write_node(loopee, depth, f)
        }
        _ => Ok(()),
    }
}
