//! The way along what is told to have an answer, through a linear program and a text.
#![tactic(auto)]

mod station;

pub use station::Station;
