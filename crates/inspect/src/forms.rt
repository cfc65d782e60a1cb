//! A pattern in all its forms.

use crate::compiling::{byte_program, parsed, rewritten, unit_program};
use regress_engine_code::CompiledRegex;
use regress_front::ir::Regex;
use regress_front::{CodePoint, Error, Flags, Tables, are_code_points, parse};
use regress_front_tokens::Syntax;
use std::alloc::Global;

/// A pattern in all its forms.
#[derive(Drop)]
pub(crate) struct Forms<'t> {
    /// How many code points it has.
    pub(crate) length: usize,
    /// Its syntax tree.
    pub(crate) syntax: Syntax,
    /// Its tree.
    pub(crate) tree: Regex<'t>,
    /// The same rewritten, where the flags don't ask that it stays as it is.
    pub(crate) rewritten: Regex<'t>,
    /// The program of bytes of the rewritten tree.
    pub(crate) program: CompiledRegex,
    /// The program of units of the tree.
    pub(crate) units: CompiledRegex,
}

/// The syntax tree of a pattern. It promises nothing, so what calls it has little to prove.
fn syntax_of(
    alloc: Global,
    points: &[CodePoint],
    flags: Flags,
    tables: &Tables,
) -> Result<Syntax, Error> {
    parse(alloc, points, flags, tables)
}

/// A pattern in all its forms. Errs where it is refused.
pub(crate) fn compile<'t>(
    alloc: Global,
    points: &[CodePoint],
    flags: Flags,
    tables: &'t Tables,
) -> Result<Forms<'t>, Error> {
    if !are_code_points(points) {
        return Err(Error::Syntax {
            text: "a number is no code point",
        });
    }
    let syntax = syntax_of(alloc, points, flags, tables)?;
    let tree = parsed(alloc, points, flags, tables)?;
    let units = unit_program(alloc, &tree)?;
    let rewritten = rewritten(alloc, points, flags, tables)?;
    let program = byte_program(alloc, &rewritten)?;
    Ok(Forms {
        length: points.len(),
        syntax,
        tree,
        rewritten,
        program,
        units,
    })
}
