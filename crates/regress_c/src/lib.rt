//! The library for C: one export for each call of the header, `bindings/c/regress.h`. What each does is in `regress_calls`.
#![tactic(auto)]

mod asking;
mod codes;
mod compiling;
mod finding;
mod handles;
mod many;
mod matching;
mod pattern_error;
mod testing;
mod texts;
