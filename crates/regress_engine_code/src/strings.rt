//! The instructions of literals and of sets of strings.
ghost use Rattle.std.specs.Prelude.{◌≡◌, ◌≤◌, List, ℕ, map, All, IfOk, IfErr, OnOk};
ghost use Rattle.std.specs.Box.{boxed_slice_items};
ghost use Rattle.std.specs.Str.{IsUtf8};
ghost use Rattle.regress_meaning.specs.TableParts.{is_code_point};
ghost use Rattle.regress_front_tables.specs.TableViews.{table};
ghost use Rattle.regress_front_nodes.specs.Trees.{bytes, string_set};
ghost use Rattle.regress_front_nodes.specs.Forms.{in_reading_order};
ghost use Rattle.regress_front_nodes.specs.Pieces.{piece_tree, pieces_of};
ghost use Rattle.regress_front_nodes.specs.WellFormed.{AreLawful};
ghost use Rattle.regress_engine_insn.specs.Instructions.{Program};
ghost use Rattle.regress_engine_insn.specs.InsnViews.{instruction};
ghost use Rattle.regress_engine_insn.specs.Layout.{piece_code, string_code};
ghost use Rattle.regress_engine_code.specs.Written.{written, MayRefuse};
ghost use Rattle.regress_engine_code.specs.Emitting.{target, OpensArms, RefusesArms, Emits, Refuses};

use crate::code::Code;
use crate::emitter::Emitter;
use crate::leaves::{byte_set, char_set, literal, push_literal};
use regress_engine_insn::Insn;
use regress_front_core::Error;
use regress_front_nodes::{Piece, lower_code_point_sequence};
use regress_front_tables::CodePoint;
use std::boxed::BoxedSlice;

impl<'u> Emitter<'u> {
    /// Writes a literal. `OutOfMemory` is the only error.
    pub(crate) fn literal(&self, code: &mut Code, text: &[u8], backward: bool) -> Result<(), Error>
        requires { IsUtf8 text.now }
        ensures added { OnOk result (Emits self.now backward (bytes text.now) (written code.old) (written code.new)) }
        ensures refused { IfErr result (MayRefuse 0 0) }
    {
        push_literal(self.alloc, &mut code.insns, text, backward, self.units)?;
        Ok(())
    }

    /// The instructions of a piece of a string. `OutOfMemory` is the only error.
    fn piece(&self, piece: &Piece, backward: bool) -> Result<Vec<Insn>, Error>
        requires { AreLawful 0 (piece_tree piece.now) }
        ensures ok { IfOk result (λ insns. (program : Program) → program.units ≡ self.now.units →
            map instruction insns.items ≡ piece_code program backward (piece_tree piece.now)) }
        ensures err { IfErr result (MayRefuse 0 0) }
    {
        let insn = match piece {
            Piece::ByteSequence(bytes) => {
                return Ok(literal(self.alloc, bytes, backward, self.units)?);
            }
            Piece::Char(c) => Insn::Char(*c),
            Piece::ByteSet(bytes) => byte_set(bytes, self.units),
            Piece::CharSet(chars) => char_set(chars),
        };
        Ok(vec![in self.alloc; insn]?)
    }

    /// The pieces of a string, in the order of reading. `OutOfMemory` is the only error.
    fn pieces(&self, points: &[CodePoint], icase: bool, backward: bool) -> Result<Vec<Piece>, Error>
        requires { All is_code_point points.now }
        ensures ok { IfOk result (λ pieces. map piece_tree pieces.items
            ≡ in_reading_order backward (pieces_of (table self.now.tables.now) icase self.now.unicode points.now)) }
        ensures lawful { IfOk result (λ pieces. All (AreLawful 0) (map piece_tree pieces.items)) }
        ensures err { IfErr result (MayRefuse 0 0) }
    {
        let mut pieces = lower_code_point_sequence(
            self.alloc,
            points,
            icase,
            self.unicode,
            self.tables,
        )?;
        if backward {
            pieces.reverse();
        }
        Ok(pieces)
    }

    /// The instructions of a string, in the order of reading. `OutOfMemory` is the only error.
    fn string(&self, points: &[CodePoint], icase: bool, backward: bool) -> Result<Vec<Insn>, Error>
        requires { All is_code_point points.now }
        ensures ok { IfOk result (λ insns. (program : Program) → program.units ≡ self.now.units →
            map instruction insns.items ≡ string_code (target self.now program) backward icase points.now) }
        ensures err { IfErr result (MayRefuse 0 0) }
    {
        let pieces = self.pieces(points, icase, backward)?;
        let mut insns = Vec::new(self.alloc);
        for piece in &pieces {
            insns.append(&mut self.piece(piece, backward)?)?;
        }
        Ok(insns)
    }

    /// Writes all strings but the last, each with a branch to the next and a place for the jump to the end, whose addresses are
    /// the answer.
    fn arms(
        &self,
        code: &mut Code,
        strings: &[BoxedSlice<CodePoint>],
        icase: bool,
        backward: bool,
    ) -> Result<Vec<u32>, Error>
        requires { All (All is_code_point) (map boxed_slice_items strings.now) }
        ensures ok { IfOk result (λ jumps. OpensArms self.now backward icase (map boxed_slice_items strings.now) jumps.items (written code.old) (written code.new)) }
        ensures err { IfErr result (RefusesArms self.now icase (map boxed_slice_items strings.now) (written code.old)) }
    {
        let mut jumps = Vec::new(self.alloc);
        for string in strings {
            let insns = self.string(string, icase, backward)?;
            let secondary = code.address_behind(insns.len() + 2)?;
            code.push(Insn::Alt { secondary })?;
            code.append(insns)?;
            jumps.push(code.reserve()?)?;
        }
        Ok(jumps)
    }

    /// Writes a set of strings, the earlier preferred.
    pub(crate) fn strings(
        &self,
        code: &mut Code,
        alternatives: &[BoxedSlice<CodePoint>],
        icase: bool,
        backward: bool,
    ) -> Result<(), Error>
        requires { All (All is_code_point) (map boxed_slice_items alternatives.now) }
        ensures added { OnOk result (Emits self.now backward (string_set (map boxed_slice_items alternatives.now) icase) (written code.old) (written code.new)) }
        ensures refused { IfErr result (Refuses self.now (string_set (map boxed_slice_items alternatives.now) icase) (written code.old)) }
    {
        let Some((last, others)) = alternatives.split_last() else {
            return code.push(Insn::JustFail);
        };
        let jumps = self.arms(code, others, icase, backward)?;
        code.append(self.string(last, icase, backward)?)?;
        code.close(jumps)
    }
}
