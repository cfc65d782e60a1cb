//! Walks over trees, and what else is asked of nodes.
ghost use Rattle.std.specs.Prelude.{◌≤◌};
ghost use Rattle.regress_front_nodes.specs.Trees.{tree};
ghost use Rattle.regress_front_nodes.specs.Forms.{nesting};

use regress_front_core::{IP, LoopID};
use regress_front_nodes::{Node, Piece, Walk, lower_code_point_sequence, walk, walk_mut};
use regress_front_tables::{CodePoint, Error, Tables};
use std::alloc::Global;
use std::test::Fail;

/// A letter for the kind of a node; `a` and `b` for themselves.
fn kind(node: &Node) -> char {
    match node {
        Node::Cat(_) => 'c',
        Node::LookaroundAssertion { .. } => 'l',
        Node::Char { c: 0x61 } => 'a',
        Node::Char { .. } => 'b',
        Node::Goal => 'g',
        _ => 'o',
    }
}

fn look(alloc: Global, backwards: bool, contents: Node) -> Result<Node, Error> {
    Ok(Node::LookaroundAssertion {
        negate: false,
        backwards,
        start_group: 0,
        end_group: 0,
        contents: Box::new(alloc, contents)?,
    })
}

/// The tree of `a(?<=(?=a))` and the goal.
fn letters(alloc: Global) -> Result<Node, Error> {
    let ahead = look(alloc, false, Node::Char { c: 0x61 })?;
    let behind = look(alloc, true, ahead)?;
    Ok(Node::Cat(vec![in alloc; Node::Char { c: 0x61 }, behind, Node::Goal]?))
}

/// What a walk tells at a visit: the kind of the node, the nodes above, whether it is read backwards.
type Visit = (char, usize, bool);

/// The visits of a walk that passes over what stands below the nodes of one kind.
fn visits(postorder: bool, node: &Node, passed: char) -> [Option<Visit>; 6] {
    let mut visits = [None; 6];
    let mut count = 0;
    walk(
        postorder,
        true,
        node,
        &mut |node: &Node, walk: &mut Walk| {
            if count < 6 {
                visits[count] = Some((kind(node), walk.depth, walk.in_lookbehind));
                count += 1;
            }
            walk.skip_children = kind(node) == passed;
        },
    );
    visits
}

const WHOLE: Option<Visit> = Some(('c', 0, false));

const LETTER: Option<Visit> = Some(('a', 1, false));

const BEHIND: Option<Visit> = Some(('l', 1, false));

const AHEAD: Option<Visit> = Some(('l', 2, true));

const INNER: Option<Visit> = Some(('a', 3, false));

const GOAL: Option<Visit> = Some(('g', 1, false));

#[test]
fn nodes_are_visited_in_order(rt: HostRuntime) -> Result<(), Fail> {
    let node = letters(rt.alloc())?;
    assert!(rt; visits(false, &node, '-') == [WHOLE, LETTER, BEHIND, AHEAD, INNER, GOAL]);
    assert!(rt; visits(true, &node, 'c') == [LETTER, INNER, AHEAD, BEHIND, GOAL, WHOLE]);
    assert!(rt; visits(false, &node, 'l') == [WHOLE, LETTER, BEHIND, GOAL, None, None]);
    Ok(())
}

/// Turns `a` into `b`, and leaves all else.
fn turn(node: &mut Node)
    ensures { nesting (tree node.new) ≤ nesting (tree node.old) }
{
    if let Node::Char { c } = node {
        if *c == 0x61 {
            *c = 0x62;
        }
    }
}

/// Turns each `a` into `b`, and passes over what stands below a lookaround.
fn turn_all(postorder: bool, node: &mut Node) {
    walk_mut(
        postorder,
        true,
        node,
        &mut |node: &mut Node, walk: &mut Walk|
            ensures { nesting (tree node.new) ≤ nesting (tree node.old) }
        {
            turn(node);
            walk.skip_children = matches!(node, Node::LookaroundAssertion { .. });
        },
    );
}

/// The kinds of the first letter and of the last in a tree whose letters are turned: the last stands below a lookaround, which is
/// passed over unless it is visited behind what stands below it.
fn turned(alloc: Global, postorder: bool) -> Result<[Option<char>; 2], Error> {
    let mut node = letters(alloc)?;
    turn_all(postorder, &mut node);
    let [_, first, _, _, last, _] = visits(false, &node, '-');
    Ok([first.map(|visit| visit.0), last.map(|visit| visit.0)])
}

#[test]
fn what_is_passed_over_stays(rt: HostRuntime) -> Result<(), Fail> {
    assert!(rt; turned(rt.alloc(), false)? == [Some('b'), Some('a')]);
    assert!(rt; turned(rt.alloc(), true)? == [Some('b'), Some('b')]);
    Ok(())
}

/// Whether the parts of a `Cat` are turned.
fn turns(alloc: Global, in_lookbehind: bool) -> Result<bool, Error> {
    let walk = Walk {
        skip_children: false,
        depth: 0,
        in_lookbehind,
        unicode: false,
    };
    let mut node = letters(alloc)?;
    node.reverse_cats(&walk);
    Ok(visits(false, &node, '-')[1] == GOAL)
}

#[test]
fn parts_are_turned_in_a_lookbehind(rt: HostRuntime) -> Result<(), Fail> {
    assert!(rt; turns(rt.alloc(), true)? && !turns(rt.alloc(), false)?);
    Ok(())
}

/// The nodes of the pieces of `1k`, where case is ignored in Unicode mode.
fn pieces(alloc: Global, tables: &Tables) -> Result<String, Error> {
    let points: [CodePoint; 2] = [0x31, 0x6B];
    let pieces = lower_code_point_sequence(alloc, &points, true, true, tables)?;
    let nodes = Piece::into_nodes(alloc, pieces)?;
    Ok(format!(in alloc; "{nodes:?}")?)
}

#[test]
fn pieces_are_nodes(rt: HostRuntime) -> Result<(), Fail> {
    let tables = Tables::small(rt.alloc())?;
    let told = pieces(rt.alloc(), &tables)?;
    assert!(rt; told.as_str() == "[ByteSequence([49]), CharSet([75, 107, 8490])]");
    Ok(())
}

#[test]
fn numbers_of_loops_and_of_instructions_are_wide_enough(rt: HostRuntime) -> Result<(), Fail> {
    let last: LoopID = 65_535;
    let far: IP = 4_294_967_295;
    assert!(rt; u32::from(last) == 0xFFFF && far as u64 == 0xFFFF_FFFF);
    Ok(())
}
