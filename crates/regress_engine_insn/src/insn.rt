//! The instructions of a program.
ghost use Rattle.std.specs.Prelude.{◌≡◌, nat_lt, length};
ghost use Rattle.regress_engine_insn.specs.Instructions.{bytes_in, is_byte_seq, surplus};
ghost use Rattle.regress_engine_insn.specs.InsnViews.{instruction};

use regress_front_bytes::{AsciiBitmap, ByteArraySet};
use regress_front_core::{CaptureGroupID, LoopID, MAX_CHAR_SET_LENGTH};
use regress_front_tables::CodePoint;

/// At most this many bytes are compared by one instruction.
pub const MAX_BYTE_SEQ_LENGTH: usize = 16;

/// A repetition, as the instruction that enters it has it.
#[derive(Debug, Clone, Copy)]
pub struct LoopFields {
    /// Its number among the loops of the program, from 0 in the order of their instructions.
    pub loop_id: LoopID,
    /// At least so many iterations.
    pub min_iters: usize,
    /// At most so many; `usize::MAX` is no limit.
    pub max_iters: usize,
    /// Whether one more iteration is preferred to leaving.
    pub greedy: bool,
    /// The address behind it.
    pub exit: u32,
}

impl LoopFields {
    /// How many iterations are taken as done where the repetition begins and so many units lie ahead: of the least number those
    /// beyond the units and one. One of those that are left takes nothing, and could be done as often.
    ///
    /// ```rust
    /// let count = repetition.surplus(text_len - offset);
    /// ```
    #[inline]
    pub fn surplus(&self, ahead: usize) -> usize
        ensures { result ≡ surplus self.now.min_iters ahead }
    {
        self.min_iters.saturating_sub(ahead).saturating_sub(1)
    }
}

/// An instruction. Addresses are indices of instructions, and capture groups are counted from 0.
///
/// Where nothing else is said, the next instruction is at the next address. What takes characters takes those ahead, and in
/// a lookbehind those behind, but the characters themselves always stand in the order of the text.
#[derive(Debug, Clone, Copy)]
pub enum Insn {
    /// The end: of the whole program, or of what a lookaround or an atomic group holds.
    Goal,
    /// One code point.
    Char(CodePoint),
    /// `^`: the text starts here, or in `multiline` a line.
    StartOfLine {
        multiline: bool,
    },
    /// `$`: the text ends here, or in `multiline` a line.
    EndOfLine {
        multiline: bool,
    },
    /// Any character.
    MatchAny,
    /// Any character but a line terminator.
    MatchAnyExceptLineTerminator,
    /// A repetition begins.
    EnterLoop(LoopFields),
    /// An iteration ends, of the repetition that begins at the address `begin`.
    LoopAgain {
        begin: u32,
    },
    /// The next instruction, which takes exactly one character, again and again. It goes on behind that instruction.
    Loop1CharBody {
        /// At least so often.
        min_iters: usize,
        /// At most so often; `usize::MAX` is no limit.
        max_iters: usize,
        /// Whether more is preferred to less.
        greedy: bool,
    },
    /// Goes on at the address `target`.
    Jump {
        target: u32,
    },
    /// Goes on at the next address, or else at the address `secondary`.
    Alt {
        secondary: u32,
    },
    /// A group begins.
    BeginCaptureGroup(CaptureGroupID),
    /// A group ends.
    EndCaptureGroup(CaptureGroupID),
    /// A group has taken nothing.
    ResetCaptureGroup(CaptureGroupID),
    /// What the group took, once more.
    BackRef {
        group: u32,
        icase: bool,
    },
    /// One character of the bracket with this index.
    Bracket(usize),
    /// One of these ASCII characters.
    AsciiBracket(AsciiBitmap),
    /// What stands ahead matches, or negated does not: the instructions behind this one, up to their `Goal`. The groups inside
    /// are those from `start_group` up to before `end_group`. It goes on at the address `continuation`.
    Lookahead {
        negate: bool,
        start_group: CaptureGroupID,
        end_group: CaptureGroupID,
        continuation: u32,
    },
    /// The same of what stands behind.
    Lookbehind {
        negate: bool,
        start_group: CaptureGroupID,
        end_group: CaptureGroupID,
        continuation: u32,
    },
    /// The instructions behind this one, up to their `Goal`, match in the direction in which it stands itself, and their first match
    /// alone is taken. The groups inside are those from `start_group` up to before `end_group`. It goes on at the address
    /// `continuation`, where they end.
    Atomic {
        start_group: CaptureGroupID,
        end_group: CaptureGroupID,
        continuation: u32,
    },
    /// A word starts or ends here; inverted, none does.
    WordBoundary {
        invert: bool,
    },
    /// The same in Unicode mode where case is ignored: more characters are of a word.
    WordBoundaryUnicodeICase {
        invert: bool,
    },
    /// One of these code points. Where there are fewer, the last stands in the places that are left.
    CharSet([CodePoint; MAX_CHAR_SET_LENGTH]),
    /// One of two ASCII characters.
    ByteSet2(ByteArraySet<[u8; 2]>),
    /// One of three ASCII characters.
    ByteSet3(ByteArraySet<[u8; 3]>),
    /// One of four ASCII characters.
    ByteSet4(ByteArraySet<[u8; 4]>),
    /// This byte.
    ByteSeq1([u8; 1]),
    /// These bytes.
    ByteSeq2([u8; 2]),
    /// These bytes.
    ByteSeq3([u8; 3]),
    /// These bytes.
    ByteSeq4([u8; 4]),
    /// These bytes.
    ByteSeq5([u8; 5]),
    /// These bytes.
    ByteSeq6([u8; 6]),
    /// These bytes.
    ByteSeq7([u8; 7]),
    /// These bytes.
    ByteSeq8([u8; 8]),
    /// These bytes.
    ByteSeq9([u8; 9]),
    /// These bytes.
    ByteSeq10([u8; 10]),
    /// These bytes.
    ByteSeq11([u8; 11]),
    /// These bytes.
    ByteSeq12([u8; 12]),
    /// These bytes.
    ByteSeq13([u8; 13]),
    /// These bytes.
    ByteSeq14([u8; 14]),
    /// These bytes.
    ByteSeq15([u8; 15]),
    /// These bytes.
    ByteSeq16([u8; 16]),
    /// Nothing matches.
    JustFail,
}

/// The bytes that an instruction takes, none where it takes no bytes.
///
/// ```rust
/// let bytes = bytes_of(&Insn::ByteSeq2(*b"ab")); // b"ab"
/// ```
#[inline(always)]
pub fn bytes_of(insn: &Insn) -> &[u8]
    ensures bytes { result.now ≡ bytes_in (instruction insn.now) }
    ensures some { is_byte_seq (instruction insn.now) ≡ nat_lt 0 (length result.now) }
{
    match insn {
        Insn::ByteSeq1(bytes) => bytes,
        Insn::ByteSeq2(bytes) => bytes,
        Insn::ByteSeq3(bytes) => bytes,
        Insn::ByteSeq4(bytes) => bytes,
        Insn::ByteSeq5(bytes) => bytes,
        Insn::ByteSeq6(bytes) => bytes,
        Insn::ByteSeq7(bytes) => bytes,
        Insn::ByteSeq8(bytes) => bytes,
        Insn::ByteSeq9(bytes) => bytes,
        Insn::ByteSeq10(bytes) => bytes,
        Insn::ByteSeq11(bytes) => bytes,
        Insn::ByteSeq12(bytes) => bytes,
        Insn::ByteSeq13(bytes) => bytes,
        Insn::ByteSeq14(bytes) => bytes,
        Insn::ByteSeq15(bytes) => bytes,
        Insn::ByteSeq16(bytes) => bytes,
        _ => &[],
    }
}
