//! Walks over the nodes of a tree.
ghost use Rattle.std.specs.Prelude.{◌≡◌, ℕ, suc, min, false, [], ◌∷◌};
ghost use Rattle.regress_meaning.specs.Tokens.{greatest};
ghost use Rattle.regress_front_nodes.specs.Walks.{Walks, below, backward_below};

use crate::node::Node;
use crate::visit::Walk;

/// How a walk goes.
#[derive(Clone, Copy)]
pub(crate) struct Mode {
    /// Whether a node is visited after all nodes below it.
    pub postorder: bool,
    /// What each visit is told of Unicode mode.
    pub unicode: bool,
}

/// Calls `func` once for each node of a tree, from left to right, in postorder after all nodes below it, and else before.
///
/// In preorder the nodes below a node for which `func` set `skip_children` are passed over. Whatever else it writes to the
/// `Walk` is dropped. `unicode` is handed on to each visit.
///
/// ```rust
/// let mut loops: u64 = 0;
/// walk(false, unicode, &node, &mut |node: &Node, _walk: &mut Walk| {
///     if matches!(node, Node::Loop { .. }) {
///         loops = loops.saturating_add(1);
///     }
/// });
/// ```
pub fn walk<F>(postorder: bool, unicode: bool, node: &Node, func: &mut F)
where
    F: FnMut(&Node, &mut Walk),
    requires { F.IsAlwaysCallable func.old }
    ensures { Walks F.FnMut postorder unicode 0 false func.old (node.now ∷ []) func.new }
{
    visit(Mode { postorder, unicode }, 0, false, node, func);
}

/// Visits a node below `depth` others, and all below it.
#[cycle(walk)]
fn visit<F>(mode: Mode, depth: usize, in_lookbehind: bool, node: &Node, func: &mut F)
where
    F: FnMut(&Node, &mut Walk),
    requires { F.IsAlwaysCallable func.old }
    ensures visited { (d : ℕ) → depth ≡ min d greatest →
        Walks F.FnMut mode.postorder mode.unicode d in_lookbehind func.old (node.now ∷ []) func.new }
    ensures callable { F.IsAlwaysCallable func.new }
{
    let mut walk = Walk {
        skip_children: false,
        depth,
        in_lookbehind,
        unicode: mode.unicode,
    };
    if mode.postorder {
        visit_below(mode, depth, in_lookbehind, node, func);
        func(node, &mut walk);
        return;
    }
    func(node, &mut walk);
    if !walk.skip_children {
        visit_below(mode, depth, in_lookbehind, node, func);
    }
}

/// Visits all nodes below a node that stands itself below `depth` others.
#[cycle(walk)]
fn visit_below<F>(mode: Mode, depth: usize, in_lookbehind: bool, node: &Node, func: &mut F)
where
    F: FnMut(&Node, &mut Walk),
    requires { F.IsAlwaysCallable func.old }
    ensures visited { (d : ℕ) → depth ≡ min d greatest →
        Walks F.FnMut mode.postorder mode.unicode (suc d) (backward_below node.now in_lookbehind) func.old (below node.now) func.new }
    ensures callable { F.IsAlwaysCallable func.new }
{
    let deeper = depth.saturating_add(1);
    match node {
        Node::Cat(parts) => {
            for part in parts {
                visit(mode, deeper, in_lookbehind, part, func);
            }
        }
        Node::Alt(first, second) => {
            visit(mode, deeper, in_lookbehind, first, func);
            visit(mode, deeper, in_lookbehind, second, func);
        }
        Node::LookaroundAssertion {
            backwards,
            contents,
            ..
        } => visit(mode, deeper, *backwards, contents, func),
        Node::CaptureGroup { contents, .. } | Node::AtomicGroup { contents, .. } => {
            visit(mode, deeper, in_lookbehind, contents, func);
        }
        Node::Loop { loopee, .. } | Node::Loop1CharBody { loopee, .. } => {
            visit(mode, deeper, in_lookbehind, loopee, func);
        }
        _ => {}
    }
}
