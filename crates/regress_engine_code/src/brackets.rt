//! The instructions of brackets.
ghost use Rattle.std.specs.Prelude.{◌≡◌, ℕ, Bool, map, IfSome, IfOk, IfErr, OnOk};
ghost use Rattle.regress_meaning.specs.Text.{holds};
ghost use Rattle.regress_front_bytes.specs.ByteSets.{members};
ghost use Rattle.regress_front_bytes.specs.Bitmaps.{ascii_bitmap_contains};
ghost use Rattle.regress_front_sets.specs.Intervals.{ends_of};
ghost use Rattle.regress_front_nodes.specs.Trees.{bracket};
ghost use Rattle.regress_front_nodes.specs.TreeMeaning.{bracket_has};
ghost use Rattle.regress_engine_insn.specs.ProgramViews.{bracket_ends};
ghost use Rattle.regress_engine_code.specs.Written.{written, MayRefuse};
ghost use Rattle.regress_engine_code.specs.Emitting.{Emits};
ghost use Rattle.regress_engine_code.specs.Told.{IsToldAscii, AreToldAscii};

use crate::code::Code;
use crate::emitter::Emitter;
use regress_engine_insn::Insn;
use regress_front_bytes::AsciiBitmap;
use regress_front_core::Error;
use regress_front_nodes::BracketContents;
use std::alloc::{AllocError, Global};

/// The characters of a bracket that is not inverted, where all of them are ASCII.
fn ascii_bitmap(contents: &BracketContents) -> Option<AsciiBitmap>
    ensures { IfSome result (λ bitmap. (c : ℕ) →
        holds (members (ascii_bitmap_contains bitmap)) c ≡ bracket_has contents.now.invert (ends_of contents.now.cps.intervals.items) c) }
{
    if contents.invert || !contents.cps.is_ascii() {
        return None;
    }
    Some(contents.cps.ascii_members())
}

/// The characters of ASCII that a bracket matches.
fn ascii_matched(contents: &BracketContents) -> AsciiBitmap
    ensures { IsToldAscii contents.now result }
{
    let members = contents.cps.ascii_members();
    if contents.invert {
        members.inverted()
    } else {
        members
    }
}

/// The characters of ASCII that each bracket matches.
pub(crate) fn ascii_of_each(
    alloc: Global,
    brackets: &[BracketContents],
) -> Result<Vec<AsciiBitmap>, AllocError>
    ensures { IfOk result (λ told. AreToldAscii (map bracket_ends brackets.now) told.items) }
{
    let mut told = Vec::new(alloc);
    for contents in brackets {
        told.push(ascii_matched(contents))?;
    }
    Ok(told)
}

/// Brackets of the same characters.
pub(crate) fn copies_of(
    alloc: Global,
    brackets: &[BracketContents],
) -> Result<Vec<BracketContents>, AllocError>
    ensures { IfOk result (λ copies. map bracket_ends copies.items ≡ map bracket_ends brackets.now) }
{
    let mut copies = Vec::new(alloc);
    for contents in brackets {
        copies.push(contents.copy(alloc)?)?;
    }
    Ok(copies)
}

impl<'u> Emitter<'u> {
    /// Writes a bracket: as a bitmap where its characters are ASCII. `OutOfMemory` is the only error.
    pub(crate) fn bracket(&self, code: &mut Code, contents: &BracketContents) -> Result<(), Error>
        ensures added { OnOk result ((backward : Bool) → Emits self.now backward
            (bracket contents.now.invert (ends_of contents.now.cps.intervals.items)) (written code.old) (written code.new)) }
        ensures refused { IfErr result (MayRefuse 0 0) }
    {
        if let Some(bitmap) = ascii_bitmap(contents) {
            return code.push(Insn::AsciiBracket(bitmap));
        }
        let index = code.add_bracket(contents.copy(self.alloc)?)?;
        code.push(Insn::Bracket(index))
    }
}
