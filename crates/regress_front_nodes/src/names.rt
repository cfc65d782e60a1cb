//! The names of the capture groups of a tree.
ghost use Rattle.std.specs.Prelude.{◌≡◌, ◌<◌, [], unwrap_or, option_map, chars, IfOk, OnOk};
ghost use Rattle.std.specs.String.{string_bytes};
ghost use Rattle.regress_front_nodes.specs.Trees.{tree};
ghost use Rattle.regress_front_nodes.specs.Names.{placed, names_with, names_in, name_texts};

use crate::node::Node;
use regress_front_tables::CaptureGroupName;
use std::alloc::{AllocError, Global};

impl Node {
    /// The name of each capture group by its number, empty where it has none: of `(a)(?<n>b)` the empty text and `n`. Of groups
    /// that have the same number the last one names it, and a number that no group has is named by the empty text.
    ///
    /// ```rust
    /// let names = node.group_names(alloc)?;
    /// ```
    pub fn group_names(&self, alloc: Global) -> Result<Vec<CaptureGroupName>, AllocError>
        ensures { IfOk result (λ names. name_texts names ≡ names_in (tree self.now)) }
    {
        let mut names = Vec::new(alloc);
        add_names(self, alloc, &mut names)?;
        Ok(names)
    }
}

/// Adds the names of the groups in a node to those of others.
fn add_names(
    node: &Node,
    alloc: Global,
    names: &mut Vec<CaptureGroupName>,
) -> Result<(), AllocError>
    ensures { OnOk result (name_texts names.new ≡ names_with (name_texts names.old) (tree node.now)) }
{
    match node {
        Node::Cat(parts) => {
            for part in parts {
                add_names(part, alloc, names)?;
            }
            Ok(())
        }
        Node::Alt(first, second) => {
            add_names(first, alloc, names)?;
            add_names(second, alloc, names)
        }
        Node::CaptureGroup { id, contents, name } => {
            place(alloc, usize::from(*id), name, names)?;
            add_names(contents, alloc, names)
        }
        Node::LookaroundAssertion { contents, .. } | Node::AtomicGroup { contents, .. } => {
            add_names(contents, alloc, names)
        }
        Node::Loop { loopee, .. } | Node::Loop1CharBody { loopee, .. } => {
            add_names(loopee, alloc, names)
        }
        _ => Ok(()),
    }
}

/// Puts a group's name in the place of its number, behind at least so many others, which are empty where there were none.
fn place(
    alloc: Global,
    number: usize,
    name: &Option<CaptureGroupName>,
    names: &mut Vec<CaptureGroupName>,
) -> Result<(), AllocError>
    requires { number < 0x1_0000 }
    ensures { OnOk result (name_texts names.new
        ≡ placed number (unwrap_or (option_map (λ text. chars (string_bytes text)) name.now) []) (name_texts names.old)) }
{
    while names.len() <= number {
        names.push(String::new(alloc))?;
    }
    let text = text_of(alloc, name)?;
    names[number] = text;
    Ok(())
}

/// A group's name as a text of its own, which is empty where it has none.
fn text_of(alloc: Global, name: &Option<CaptureGroupName>) -> Result<CaptureGroupName, AllocError>
    ensures { IfOk result (λ text. chars (string_bytes text)
        ≡ unwrap_or (option_map (λ text. chars (string_bytes text)) name.now) []) }
{
    match name {
        Some(name) => name.clone(),
        None => Ok(String::new(alloc)),
    }
}
