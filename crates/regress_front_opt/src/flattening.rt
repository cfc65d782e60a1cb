//! Sequences in sequences.
ghost use Rattle.std.specs.Prelude.{◌≡◌, ◌+◌, ◌++◌, ◌≤◌, [], ◌∷◌, map, min, vec_len, OnOk, OnErr};
ghost use Rattle.std.specs.Vec.{vec_capacity};
ghost use Rattle.std.specs.List.{list_any};
ghost use Rattle.regress_meaning.specs.Tokens.{greatest};
ghost use Rattle.regress_front_nodes.specs.Trees.{tree};
ghost use Rattle.regress_front_rules.specs.NormalForm.{has_loose_part};
ghost use Rattle.regress_front_opt.specs.Shapes.{is_loose, flattened, room_of, room_of_all};

use crate::action::PassAction;
use crate::passing::Pass;
use regress_front_nodes::{Node, NodeList};
use regress_front_tables::Error;
use std::alloc::{AllocError, Global};
use std::mem;

/// A `Cat` among the parts of a `Cat` gives its parts in its place, and `Empty` is left out.
#[derive(Drop)]
pub struct FlattenedCats;

/// Whether a node is a `Cat` or `Empty`.
fn is_loose_node(node: &Node) -> bool
    ensures { result ≡ is_loose (tree node.now) }
{
    node.is_cat() || node.is_empty()
}

/// Whether one of the parts is a `Cat` or `Empty`.
fn some_loose(parts: &[Node]) -> bool
    ensures { result ≡ list_any is_loose (map tree parts.now) }
{
    for part in parts {
        if is_loose_node(part) {
            return true;
        }
    }
    false
}

/// Whether a node is a `Cat` with a `Cat` or `Empty` among its parts.
fn has_loose(node: &Node) -> bool
    ensures { result ≡ has_loose_part (tree node.now) }
{
    match node {
        Node::Cat(parts) => some_loose(parts),
        _ => false,
    }
}

/// How many parts stand in the place of a part.
fn room(part: &Node) -> usize
    ensures { result ≡ room_of (tree part.now) }
{
    match part {
        Node::Cat(inner) => inner.len(),
        _ => 1,
    }
}

/// How many parts stand in the places of all parts, as far as a `usize` counts.
fn room_of_parts(parts: &[Node]) -> usize
    ensures { result ≡ min (room_of_all (map tree parts.now)) greatest }
{
    let mut total: usize = 0;
    for part in parts {
        total = total.saturating_add(room(part));
    }
    total
}

/// Moves a part, or the parts of a `Cat`, behind others, where there is room for them.
fn move_behind(flat: &mut NodeList, part: Node)
    requires { vec_len flat.old + room_of (tree part) ≤ vec_capacity flat.old }
    ensures items { map tree flat.new.items ≡ map tree flat.old.items ++ flattened (tree part ∷ []) }
    ensures len { vec_len flat.new ≤ vec_len flat.old + room_of (tree part) }
    ensures capacity { vec_capacity flat.old ≤ vec_capacity flat.new }
{
    match part {
        Node::Empty => {}
        Node::Cat(mut inner) => {
            if flat.append(&mut inner).is_err() {
                unreachable!();
            }
        }
        other => flat.push_reserved(other),
    }
}

/// Puts the parts of `Cat`s in their places, and leaves `Empty` out. Where memory is refused, nothing is moved.
fn flatten(alloc: Global, parts: &mut NodeList) -> Result<(), AllocError>
    ensures moved { OnOk result (map tree parts.new.items ≡ flattened (map tree parts.old.items)) }
    ensures kept { OnErr result (parts.new.items ≡ parts.old.items) }
{
    let mut flat = Vec::with_capacity(alloc, room_of_parts(parts))?;
    for part in parts.iter_mut() {
        move_behind(&mut flat, mem::replace(part, Node::Empty));
    }
    *parts = flat;
    Ok(())
}

impl Pass for FlattenedCats {
    ghost broken = { has_loose_part };

    fn rewrite(
        &self,
        alloc: Global,
        _in_lookbehind: bool,
        node: &mut Node,
    ) -> Result<PassAction, Error> {
        if !has_loose(node) {
            return Ok(PassAction::Keep);
        }
        match mem::replace(node, Node::Empty) {
            Node::Cat(mut parts) => {
                let outcome = flatten(alloc, &mut parts);
                *node = Node::Cat(parts);
                outcome?;
                Ok(PassAction::Modified)
            }
            _ => unreachable!(),
        }
    }
}
