//! What a pass answers.

use regress_front_nodes::Node;

/// What a pass did with a node, or wants done with it.
#[derive(Debug, Drop)]
pub enum PassAction {
    /// The node is as it was, and the pass has nothing to do there.
    Keep,
    /// The pass has changed the node in its place.
    Modified,
    /// `Empty` is to stand in the node's place.
    Remove,
    /// This node is to stand in its place.
    Replace(Node),
}
