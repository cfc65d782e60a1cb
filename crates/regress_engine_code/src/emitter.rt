//! From a tree to the instructions of a program.
ghost use Rattle.std.specs.Prelude.{◌≡◌, ℕ, Bool, true, List, Option, None, map, IfErr, OnOk};
ghost use Rattle.regress_front_core.specs.Quantifiers.{most};
ghost use Rattle.regress_front_nodes.specs.Trees.{tree, cat_of, alt, capture, loop, single_loop};
ghost use Rattle.regress_front_nodes.specs.Trees as node;
ghost use Rattle.regress_front_nodes.specs.Forms.{is_leaf};
ghost use Rattle.regress_engine_prefix.specs.Prefixes.{IsLawful};
ghost use Rattle.regress_engine_insn.specs.Instructions as code;
ghost use Rattle.regress_engine_insn.specs.InsnViews.{instruction};
ghost use Rattle.regress_engine_code.specs.Written.{written};
ghost use Rattle.regress_engine_code.specs.Emitting.{anchor_code, Emits, Refuses};

use crate::code::Code;
use crate::leaves::{byte_set, char_set};
use regress_engine_insn::Insn;
use regress_front_core::{CaptureGroupID, Error};
use regress_front_nodes::{AnchorType, Node, Quantifier};
use regress_front_tables::Tables;
use std::alloc::Global;
use std::ops::Range;

/// What holds for a whole program.
#[derive(Clone, Copy)]
pub(crate) struct Emitter<'u> {
    pub(crate) alloc: Global,
    pub(crate) tables: &'u Tables,
    /// The pattern is read in Unicode mode.
    pub(crate) unicode: bool,
    /// The program reads 16-bit units, or else bytes.
    pub(crate) units: bool,
}

/// An anchor.
fn anchor(anchor_type: AnchorType, multiline: bool) -> Insn
    ensures { instruction result ≡ anchor_code anchor_type multiline }
{
    match anchor_type {
        AnchorType::StartOfLine => Insn::StartOfLine { multiline },
        AnchorType::EndOfLine => Insn::EndOfLine { multiline },
    }
}

/// A boundary of words.
fn word_boundary(invert: bool, unicode_icase: bool) -> Insn
    ensures { instruction result ≡ code.boundary invert unicode_icase }
{
    if unicode_icase {
        Insn::WordBoundaryUnicodeICase { invert }
    } else {
        Insn::WordBoundary { invert }
    }
}

/// A lookaround over some groups, which goes on at an address.
fn look(negate: bool, backwards: bool, groups: Range<CaptureGroupID>, continuation: u32) -> Insn
    ensures { instruction result ≡ code.submatch (node.lookaround negate backwards) groups.start groups.end continuation }
{
    let Range {
        start: start_group,
        end: end_group,
    } = groups;
    if backwards {
        Insn::Lookbehind {
            negate,
            start_group,
            end_group,
            continuation,
        }
    } else {
        Insn::Lookahead {
            negate,
            start_group,
            end_group,
            continuation,
        }
    }
}

// What calls itself by the nesting of a pattern has small frames: what ends before the next level is kept out of line, and hands
// back what a register holds. What only tells the kinds of nodes apart stands in its callers, so that it has no frame.
impl<'u> Emitter<'u> {
    /// Writes a node. `backward` tells whether it stands in a lookbehind. It errs with `TooLarge` where an instruction has no
    /// address or a loop has no number, and with `OutOfMemory`.
    #[cycle(emit)]
    #[inline(always)]
    pub(crate) fn node(&self, code: &mut Code, node: &Node, backward: bool) -> Result<(), Error>
        requires { IsLawful (tree node.now) }
        ensures added { OnOk result (Emits self.now backward (tree node.now) (written code.old) (written code.new)) }
        ensures refused { IfErr result (Refuses self.now (tree node.now) (written code.old)) }
    {
        match node {
            Node::Cat(parts) => self.parts(code, parts, backward),
            Node::Alt(first, second) => self.alternation(code, first, second, backward),
            Node::CaptureGroup { id, contents, .. } => self.capture(code, *id, contents, backward),
            Node::LookaroundAssertion {
                negate,
                backwards,
                start_group,
                end_group,
                contents,
            } => self.lookaround(
                code,
                *negate,
                *backwards,
                *start_group..*end_group,
                contents,
            ),
            Node::AtomicGroup {
                start_group,
                end_group,
                contents,
            } => self.atomic_group(code, *start_group..*end_group, contents, backward),
            Node::Loop {
                loopee,
                quant,
                enclosed_groups,
            } => self.repetition(code, loopee, quant, enclosed_groups, backward),
            Node::Loop1CharBody { loopee, quant } => {
                self.single_repetition(code, loopee, quant, backward)
            }
            _ => self.leaf(code, node, backward),
        }
    }

    /// Writes a node of a kind that has no parts. `OutOfMemory` and `TooLarge` are errors as for any node.
    #[inline(never)]
    fn leaf(&self, code: &mut Code, node: &Node, backward: bool) -> Result<(), Error>
        requires lawful { IsLawful (tree node.now) }
        requires leaf { is_leaf (tree node.now) ≡ true }
        ensures added { OnOk result (Emits self.now backward (tree node.now) (written code.old) (written code.new)) }
        ensures refused { IfErr result (Refuses self.now (tree node.now) (written code.old)) }
    {
        match node {
            Node::Empty => Ok(()),
            Node::Goal => code.push(Insn::Goal),
            Node::Char { c } => code.push(Insn::Char(*c)),
            Node::ByteSequence(bytes) => self.literal(code, bytes, backward),
            Node::ByteSet(bytes) => code.push(byte_set(bytes, self.units)),
            Node::CharSet(chars) => code.push(char_set(chars)),
            Node::MatchAny => code.push(Insn::MatchAny),
            Node::MatchAnyExceptLineTerminator => code.push(Insn::MatchAnyExceptLineTerminator),
            Node::Anchor {
                anchor_type,
                multiline,
            } => code.push(anchor(*anchor_type, *multiline)),
            Node::WordBoundary {
                invert,
                unicode_icase,
            } => code.push(word_boundary(*invert, *unicode_icase)),
            Node::BackRef { group, icase } => code.push(Insn::BackRef {
                group: *group - 1,
                icase: *icase,
            }),
            Node::Bracket(contents) => self.bracket(code, contents),
            Node::StringSet {
                alternatives,
                icase,
            } => self.strings(code, alternatives, *icase, backward),
            _ => unreachable!(),
        }
    }

    /// Writes two alternatives, the first preferred.
    #[cycle(emit)]
    #[inline(never)]
    fn alternation(
        &self,
        code: &mut Code,
        first: &Node,
        second: &Node,
        backward: bool,
    ) -> Result<(), Error>
        requires { IsLawful (alt (tree first.now) (tree second.now)) }
        ensures added { OnOk result (Emits self.now backward (alt (tree first.now) (tree second.now)) (written code.old) (written code.new)) }
        ensures refused { IfErr result (Refuses self.now (alt (tree first.now) (tree second.now)) (written code.old)) }
    {
        let fork = code.reserve()?;
        self.node(code, first, backward)?;
        let jump = code.reserve()?;
        let secondary = code.next_address()?;
        self.node(code, second, backward)?;
        let target = code.next_address()?;
        code.change(jump, Insn::Jump { target });
        code.change(fork, Insn::Alt { secondary });
        Ok(())
    }

    /// Writes parts one after another, in the order in which they stand: in a lookbehind that is the order of reading.
    #[cycle(emit)]
    #[inline(never)]
    fn parts(&self, code: &mut Code, parts: &[Node], backward: bool) -> Result<(), Error>
        requires { IsLawful (cat_of (map tree parts.now)) }
        ensures added { OnOk result (Emits self.now backward (cat_of (map tree parts.now)) (written code.old) (written code.new)) }
        ensures refused { IfErr result (Refuses self.now (cat_of (map tree parts.now)) (written code.old)) }
    {
        for part in parts {
            self.node(code, part, backward)?;
        }
        Ok(())
    }

    /// Writes a group.
    #[cycle(emit)]
    #[inline(never)]
    fn capture(
        &self,
        code: &mut Code,
        id: CaptureGroupID,
        contents: &Node,
        backward: bool,
    ) -> Result<(), Error>
        requires { IsLawful (tree contents.now) }
        ensures added { OnOk result ((name : Option (List ℕ)) →
            Emits self.now backward (capture id name (tree contents.now)) (written code.old) (written code.new)) }
        ensures refused { IfErr result (Refuses self.now (capture id None (tree contents.now)) (written code.old)) }
    {
        code.begin_group(id)?;
        self.node(code, contents, backward)?;
        code.end_group(id)?;
        Ok(())
    }

    /// Writes a lookaround.
    #[cycle(emit)]
    #[inline(never)]
    fn lookaround(
        &self,
        code: &mut Code,
        negate: bool,
        backwards: bool,
        groups: Range<CaptureGroupID>,
        contents: &Node,
    ) -> Result<(), Error>
        requires { IsLawful (tree contents.now) }
        ensures added { OnOk result ((backward : Bool) →
            Emits self.now backward (node.submatch (node.lookaround negate backwards) groups.start groups.end (tree contents.now)) (written code.old) (written code.new)) }
        ensures refused { IfErr result (Refuses self.now (node.submatch (node.lookaround negate backwards) groups.start groups.end (tree contents.now)) (written code.old)) }
    {
        let at = code.reserve()?;
        self.node(code, contents, backwards)?;
        code.push_goal()?;
        let continuation = code.next_address()?;
        let insn = look(negate, backwards, groups, continuation);
        code.change(at, insn);
        Ok(())
    }

    /// Writes an atomic group.
    #[cycle(emit)]
    #[inline(never)]
    fn atomic_group(
        &self,
        code: &mut Code,
        groups: Range<CaptureGroupID>,
        contents: &Node,
        backward: bool,
    ) -> Result<(), Error>
        requires { IsLawful (tree contents.now) }
        ensures added { OnOk result (Emits self.now backward
            (node.submatch node.atomic groups.start groups.end (tree contents.now)) (written code.old) (written code.new)) }
        ensures refused { IfErr result (Refuses self.now (node.submatch node.atomic groups.start groups.end (tree contents.now)) (written code.old)) }
    {
        let at = code.reserve()?;
        self.node(code, contents, backward)?;
        code.push_goal()?;
        let continuation = code.next_address()?;
        let Range {
            start: start_group,
            end: end_group,
        } = groups;
        let insn = Insn::Atomic {
            start_group,
            end_group,
            continuation,
        };
        code.change(at, insn);
        Ok(())
    }

    /// Writes a repetition, which resets its groups as each iteration begins.
    #[cycle(emit)]
    #[inline(never)]
    fn repetition(
        &self,
        code: &mut Code,
        loopee: &Node,
        quant: &Quantifier,
        groups: &Range<CaptureGroupID>,
        backward: bool,
    ) -> Result<(), Error>
        requires { IsLawful (tree loopee.now) }
        ensures added { OnOk result (Emits self.now backward
            (loop (tree loopee.now) groups.now.start groups.now.end quant.now.min (most quant.now) quant.now.greedy) (written code.old) (written code.new)) }
        ensures refused { IfErr result (Refuses self.now
            (loop (tree loopee.now) groups.now.start groups.now.end quant.now.min (most quant.now) quant.now.greedy) (written code.old)) }
    {
        let loop_id = code.next_loop()?;
        let begin = code.reserve()?;
        code.push_resets(groups.start, groups.end)?;
        self.node(code, loopee, backward)?;
        code.push_again(begin)?;
        let exit = code.next_address()?;
        code.enter_loop(begin, loop_id, quant, exit);
        Ok(())
    }

    /// Writes a repetition of what takes exactly one character.
    #[cycle(emit)]
    #[inline(never)]
    fn single_repetition(
        &self,
        code: &mut Code,
        loopee: &Node,
        quant: &Quantifier,
        backward: bool,
    ) -> Result<(), Error>
        requires { IsLawful (single_loop (tree loopee.now) quant.now.min (most quant.now) quant.now.greedy) }
        ensures added { OnOk result (Emits self.now backward
            (single_loop (tree loopee.now) quant.now.min (most quant.now) quant.now.greedy) (written code.old) (written code.new)) }
        ensures refused { IfErr result (Refuses self.now
            (single_loop (tree loopee.now) quant.now.min (most quant.now) quant.now.greedy) (written code.old)) }
    {
        code.push_single_loop(quant)?;
        self.node(code, loopee, backward)
    }
}
