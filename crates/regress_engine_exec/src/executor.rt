//! The executor that undoes, of a program of bytes and a text alone.
use crate::search::BacktrackExecutor;
use regress_engine_code::CompiledRegex;
use regress_engine_inputs::{AsciiInput, Utf8Input};
use regress_engine_search::{AnyText, AsciiText, Executor};
use std::alloc::{AllocError, Global};

impl<'t> Executor<'t> for BacktrackExecutor<'t, Utf8Input<'t, 't>> {
    type AsAscii = BacktrackExecutor<'t, AsciiInput<'t, 't>>;

    type Text = AnyText;

    fn new(alloc: Global, program: &'t CompiledRegex, text: &'t str) -> Result<Self, AllocError> {
        let input = Utf8Input::new(text, program.flags().is_unicode(), program.tables());
        Ok(BacktrackExecutor::with_input(alloc, program, input))
    }
}

impl<'t> Executor<'t> for BacktrackExecutor<'t, AsciiInput<'t, 't>> {
    type AsAscii = BacktrackExecutor<'t, AsciiInput<'t, 't>>;

    type Text = AsciiText;

    fn new(alloc: Global, program: &'t CompiledRegex, text: &'t str) -> Result<Self, AllocError> {
        let input = AsciiInput::new(text, program.flags().is_unicode(), program.tables());
        Ok(BacktrackExecutor::with_input(alloc, program, input))
    }
}
