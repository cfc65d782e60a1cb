//! A pass over all nodes of a tree.
ghost use Rattle.std.specs.Prelude.{map};
ghost use Rattle.regress_front_nodes.specs.Trees.{tree, cat_of, alt};
ghost use Rattle.regress_front_nodes.specs.TreeMeaning.{direction};
ghost use Rattle.regress_front_rules.specs.Rules.{HasLaws};
ghost use Rattle.regress_front_opt.specs.Passes.{IsVisited, IsVisitedBelow, IsVisitedHere};

use crate::action::PassAction;
use crate::passing::Pass;
use regress_front_nodes::Node;
use regress_front_tables::Error;
use std::alloc::Global;

/// Rewrites all nodes of a tree, and answers whether one was changed.
///
/// Each node is rewritten after those below it, or `from_above` before them, and then none below one that was changed.
/// `in_lookbehind` tells whether the tree itself stands in a lookbehind. It errs where memory is refused.
/// `visit(&SpelledChars, alloc, false, false, &mut node)?` is true where some `Char` became a literal.
#[cycle(visit)]
pub fn visit<P: Pass>(
    pass: &P,
    alloc: Global,
    from_above: bool,
    in_lookbehind: bool,
    node: &mut Node,
) -> Result<bool, Error>
    requires { HasLaws (tree node.old) }
    ensures { IsVisited (direction in_lookbehind) P.broken (tree node.old) (tree node.new) result }
{
    if from_above {
        return visit_from_above(pass, alloc, in_lookbehind, node);
    }
    let below = visit_below(pass, alloc, false, in_lookbehind, node)?;
    let here = visit_here(pass, alloc, in_lookbehind, node)?;
    Ok(below | here)
}

/// Rewrites one node, and where it was not changed all below it, from above.
#[cycle(visit)]
fn visit_from_above<P: Pass>(
    pass: &P,
    alloc: Global,
    in_lookbehind: bool,
    node: &mut Node,
) -> Result<bool, Error>
    requires { HasLaws (tree node.old) }
    ensures { IsVisited (direction in_lookbehind) P.broken (tree node.old) (tree node.new) result }
{
    if visit_here(pass, alloc, in_lookbehind, node)? {
        return Ok(true);
    }
    visit_below(pass, alloc, true, in_lookbehind, node)
}

/// Rewrites one node, and none below it.
fn visit_here<P: Pass>(
    pass: &P,
    alloc: Global,
    in_lookbehind: bool,
    node: &mut Node,
) -> Result<bool, Error>
    requires { HasLaws (tree node.old) }
    ensures { IsVisitedHere (direction in_lookbehind) P.broken (tree node.old) (tree node.new) result }
{
    match pass.rewrite(alloc, in_lookbehind, node)? {
        PassAction::Keep => Ok(false),
        PassAction::Modified => Ok(true),
        PassAction::Remove => {
            *node = Node::Empty;
            Ok(true)
        }
        PassAction::Replace(other) => {
            *node = other;
            Ok(true)
        }
    }
}

/// Rewrites all nodes below one.
#[cycle(visit)]
fn visit_below<P: Pass>(
    pass: &P,
    alloc: Global,
    from_above: bool,
    in_lookbehind: bool,
    node: &mut Node,
) -> Result<bool, Error>
    requires { HasLaws (tree node.old) }
    ensures { IsVisitedBelow (direction in_lookbehind) P.broken (tree node.old) (tree node.new) result }
{
    match node {
        Node::Cat(parts) => visit_parts(pass, alloc, from_above, in_lookbehind, parts),
        Node::Alt(first, second) => visit_arms(
            pass,
            alloc,
            from_above,
            in_lookbehind,
            first,
            second,
        ),
        Node::LookaroundAssertion {
            backwards,
            contents,
            ..
        } => visit(pass, alloc, from_above, *backwards, contents),
        Node::CaptureGroup { contents, .. } => visit(
            pass,
            alloc,
            from_above,
            in_lookbehind,
            contents,
        ),
        Node::AtomicGroup { contents, .. } => visit(
            pass,
            alloc,
            from_above,
            in_lookbehind,
            contents,
        ),
        Node::Loop { loopee, .. } => visit(pass, alloc, from_above, in_lookbehind, loopee),
        Node::Loop1CharBody { loopee, .. } => visit(pass, alloc, from_above, in_lookbehind, loopee),
        Node::Empty
        | Node::Goal
        | Node::Char { .. }
        | Node::ByteSequence(_)
        | Node::ByteSet(_)
        | Node::CharSet(_)
        | Node::MatchAny
        | Node::MatchAnyExceptLineTerminator
        | Node::Anchor { .. }
        | Node::WordBoundary { .. }
        | Node::BackRef { .. }
        | Node::Bracket(_)
        | Node::StringSet { .. } => Ok(false),
    }
}

/// Rewrites all nodes of the parts of a `Cat`.
#[cycle(visit)]
fn visit_parts<P: Pass>(
    pass: &P,
    alloc: Global,
    from_above: bool,
    in_lookbehind: bool,
    parts: &mut [Node],
) -> Result<bool, Error>
    requires { HasLaws (cat_of (map tree parts.old)) }
    ensures { IsVisitedBelow (direction in_lookbehind) P.broken (cat_of (map tree parts.old)) (cat_of (map tree parts.new)) result }
{
    let mut changed = false;
    for part in parts {
        changed |= visit(pass, alloc, from_above, in_lookbehind, part)?;
    }
    Ok(changed)
}

/// Rewrites all nodes of the two arms of an `Alt`.
#[cycle(visit)]
fn visit_arms<P: Pass>(
    pass: &P,
    alloc: Global,
    from_above: bool,
    in_lookbehind: bool,
    first: &mut Node,
    second: &mut Node,
) -> Result<bool, Error>
    requires { HasLaws (alt (tree first.old) (tree second.old)) }
    ensures { IsVisitedBelow (direction in_lookbehind) P.broken (alt (tree first.old) (tree second.old)) (alt (tree first.new) (tree second.new)) result }
{
    let begun = visit(pass, alloc, from_above, in_lookbehind, first)?;
    let ended = visit(pass, alloc, from_above, in_lookbehind, second)?;
    Ok(begun | ended)
}
