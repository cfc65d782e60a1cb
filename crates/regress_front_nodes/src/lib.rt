//! The tree that the engine rewrites and emits: its nodes, what they mean, and walks over them.
#![tactic(auto)]

mod alike;
mod copy;
pub mod ir;
mod laws;
mod names;
mod node;
mod piece;
mod visit;
mod walking;
mod walking_mut;

pub use alike::alike_parts_make_alike_wholes;
pub use laws::nodes_stand_for_trees;
pub use node::{AnchorType, BracketContents, Node, NodeList};
pub use piece::{
    Piece, ascii_bytes, lower_code_point_sequence, pieces_match_their_string,
    try_lower_code_point_sequence,
};
pub use regress_front_tables::Quantifier;
pub use visit::Walk;
pub use walking::walk;
pub use walking_mut::walk_mut;
