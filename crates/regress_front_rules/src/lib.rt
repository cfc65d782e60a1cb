//! How trees of nodes may be rewritten: the normal form, the rules, and the laws that each rule keeps what a tree means.
//! Nothing here runs: each function is a law, and its contract states it.
#![tactic(auto)]

mod laws;

pub use laws::{
    broken_nodes_are_redexes, normal_forms_are_reached, rules_are_right, rules_keep_the_rest,
    trees_nest_less_than_their_size, trees_of_nodes_are_listed, wholes_are_right,
};
