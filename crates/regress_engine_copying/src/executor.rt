//! The copying executor, of a program of bytes and a text alone.
use crate::search::PikeVMExecutor;
use regress_engine_code::CompiledRegex;
use regress_engine_inputs::{AsciiInput, Utf8Input};
use regress_engine_search::{AnyText, AsciiText, Executor};
use std::alloc::{AllocError, Global};

impl<'t> Executor<'t> for PikeVMExecutor<'t, Utf8Input<'t, 't>> {
    type AsAscii = PikeVMExecutor<'t, AsciiInput<'t, 't>>;

    type Text = AnyText;

    fn new(alloc: Global, program: &'t CompiledRegex, text: &'t str) -> Result<Self, AllocError> {
        let input = Utf8Input::new(text, program.flags().is_unicode(), program.tables());
        Ok(PikeVMExecutor::with_input(alloc, program, input))
    }
}

impl<'t> Executor<'t> for PikeVMExecutor<'t, AsciiInput<'t, 't>> {
    type AsAscii = PikeVMExecutor<'t, AsciiInput<'t, 't>>;

    type Text = AsciiText;

    fn new(alloc: Global, program: &'t CompiledRegex, text: &'t str) -> Result<Self, AllocError> {
        let input = AsciiInput::new(text, program.flags().is_unicode(), program.tables());
        Ok(PikeVMExecutor::with_input(alloc, program, input))
    }
}
