//! The names that the standard gives properties and their values.
pub(crate) mod binary;
pub(crate) mod category;
pub(crate) mod script;
