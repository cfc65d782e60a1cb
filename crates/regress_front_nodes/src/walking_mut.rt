//! Walks over the nodes of a tree that may change it.
ghost use Rattle.std.specs.Prelude.{◌≡◌, ◌≤◌, ℕ, suc, min, false, [], ◌∷◌};
ghost use Rattle.regress_meaning.specs.Tokens.{greatest};
ghost use Rattle.regress_front_nodes.specs.Trees.{tree};
ghost use Rattle.regress_front_nodes.specs.Forms.{nesting, shell};
ghost use Rattle.regress_front_nodes.specs.Changes.{ChangingWalks, LeavesNoneDeeper};
ghost use Rattle.regress_front_nodes.specs.Walks.{below, backward_below};

use crate::node::Node;
use crate::visit::Walk;
use crate::walking::Mode;

/// Calls `func` once for each node of a tree, which it may change, from left to right, in postorder after all nodes below
/// it, and else before.
///
/// In preorder the nodes below a node for which `func` set `skip_children` are passed over. Nothing else that it writes
/// to the `Walk` is taken back. `unicode` is handed on to each visit.
///
/// In preorder it is what `func` leaves of a node that is walked on below it, so there `func` may leave no node deeper than
/// it was; else the walk might not end.
///
/// ```rust
/// walk_mut(true, unicode, &mut node, &mut |node: &mut Node, _walk: &mut Walk| {
///     if node.match_always_fails() {
///         *node = Node::make_always_fails(alloc);
///     }
/// });
/// ```
pub fn walk_mut<F>(postorder: bool, unicode: bool, node: &mut Node, func: &mut F)
where
    F: FnMut(&mut Node, &mut Walk),
    requires callable { F.IsAlwaysCallable func.old }
    requires no_deeper { postorder ≡ false → LeavesNoneDeeper F.FnMut }
    ensures { ChangingWalks F.FnMut postorder unicode 0 false func.old (node.old ∷ []) (node.new ∷ []) func.new }
{
    visit_mut(Mode { postorder, unicode }, 0, false, node, func);
}

/// Visits a node below `depth` others, and all below it.
#[cycle(walk_mut)]
fn visit_mut<F>(mode: Mode, depth: usize, in_lookbehind: bool, node: &mut Node, func: &mut F)
where
    F: FnMut(&mut Node, &mut Walk),
    requires callable { F.IsAlwaysCallable func.old }
    requires no_deeper { mode.postorder ≡ false → LeavesNoneDeeper F.FnMut }
    ensures visited { (d : ℕ) → depth ≡ min d greatest →
        ChangingWalks F.FnMut mode.postorder mode.unicode d in_lookbehind func.old (node.old ∷ []) (node.new ∷ []) func.new }
    ensures callable { F.IsAlwaysCallable func.new }
{
    let mut walk = Walk {
        skip_children: false,
        depth,
        in_lookbehind,
        unicode: mode.unicode,
    };
    if mode.postorder {
        visit_below_mut(mode, depth, in_lookbehind, node, func);
        func(node, &mut walk);
        return;
    }
    func(node, &mut walk);
    if !walk.skip_children {
        visit_below_mut(mode, depth, in_lookbehind, node, func);
    }
}

/// Visits all nodes below a node that stands itself below `depth` others.
#[cycle(walk_mut)]
fn visit_below_mut<F>(mode: Mode, depth: usize, in_lookbehind: bool, node: &mut Node, func: &mut F)
where
    F: FnMut(&mut Node, &mut Walk),
    requires callable { F.IsAlwaysCallable func.old }
    requires no_deeper { mode.postorder ≡ false → LeavesNoneDeeper F.FnMut }
    ensures visited { (d : ℕ) → depth ≡ min d greatest →
        ChangingWalks F.FnMut mode.postorder mode.unicode (suc d) (backward_below node.old in_lookbehind) func.old (below node.old) (below node.new) func.new }
    ensures kept { shell (tree node.new) ≡ shell (tree node.old) }
    ensures callable { F.IsAlwaysCallable func.new }
{
    let deeper = depth.saturating_add(1);
    match node {
        Node::Cat(parts) => {
            for part in parts.iter_mut() {
                visit_mut(mode, deeper, in_lookbehind, part, func);
            }
        }
        Node::Alt(first, second) => {
            visit_mut(mode, deeper, in_lookbehind, first, func);
            visit_mut(mode, deeper, in_lookbehind, second, func);
        }
        Node::LookaroundAssertion {
            backwards,
            contents,
            ..
        } => visit_mut(mode, deeper, *backwards, contents, func),
        Node::CaptureGroup { contents, .. } => {
            visit_mut(mode, deeper, in_lookbehind, contents, func);
        }
        Node::AtomicGroup { contents, .. } => {
            visit_mut(mode, deeper, in_lookbehind, contents, func);
        }
        Node::Loop { loopee, .. } => visit_mut(mode, deeper, in_lookbehind, loopee, func),
        Node::Loop1CharBody { loopee, .. } => visit_mut(mode, deeper, in_lookbehind, loopee, func),
        _ => {}
    }
}
