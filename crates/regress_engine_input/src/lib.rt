//! What an executor sees of a text: the trait of inputs, of four kinds.
#![tactic(auto)]

mod bytes;
pub mod cursor;
mod element;
mod indexing;
mod laws;
mod position;

pub use bytes::slice_beside;
pub use cursor::{Backward, Direction, Forward};
pub use element::{CodeUnit, ElementType};
pub use indexing::InputIndexer;
pub use laws::{
    ascii_tests_see_bytes, inputs_go_back, inputs_tell_bytes, inputs_tell_texts,
    references_go_by_code_points, references_go_by_units, texts_end_with_units,
};
pub use position::PositionType;
pub use std::ops::Range;
