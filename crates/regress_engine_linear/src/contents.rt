//! The test that a way through the contents of lookarounds is as short as they are, or that they are visited at most once, and that none leads
//! out of those of atomic groups.
ghost use Rattle.std.specs.Prelude.{◌≡◌, ◌&&◌, suc, ◌+◌, ◌-◌, ◌^◌, ◌<◌, false, if◌then◌else◌, length, map, nat_le, nat_lt, ◌||◌};
ghost use Rattle.regress_engine_insn.specs.Instructions.{Program};
ghost use Rattle.regress_engine_insn.specs.InsnViews.{instruction};
ghost use Rattle.regress_engine_memory.specs.Passing.{all_pass};
ghost use Rattle.regress_engine_linear.specs.Linear.{is_visited_once, leads_through, leaves_none, loop_size, repeats, repeats_inside, stays_inside};
ghost use Rattle.regress_engine_linear.specs.LinearTests.{AreOnce, are_allowed, are_short, have_ranks, is_asked, is_asked_inside, leaves_groups, may_loop};
ghost use Rattle.regress_engine_linear.specs.RankTables.{heights_of, rank_at};

use crate::ranks::RankTable;
use regress_engine_insn::Insn;

/// The contents of a lookaround or an atomic group: they stand between two addresses, and groups from the first up to before the last are
/// inside.
#[derive(Debug, Clone, Copy)]
struct Passage {
    /// The address before them.
    at: usize,
    /// The first group inside.
    first: usize,
    /// The group behind the last one inside.
    last: usize,
    /// The address behind them.
    end: usize,
}

/// What may be asked of each instruction inside of contents.
#[derive(Debug, Clone, Copy)]
enum Asked {
    /// It is no repetition, but of one character where such may stand, leads further and not past the end, and writes groups inside alone.
    Through {
        /// Whether loops of one character may stand inside.
        singles: bool,
    },
    /// Each address that it leads to is inside, and each group that it writes.
    Stay,
    /// It begins no repetition of more than one character.
    NoRepetition,
    /// It is no lookaround that leaves groups.
    NoGroups,
}

/// Whether an instruction begins a repetition of more than one character.
fn repeats(insn: &Insn) -> bool
    ensures { result ≡ repeats (instruction insn.now) }
{
    matches!(insn, Insn::EnterLoop(_))
}

/// Whether an instruction is no lookaround that leaves groups.
fn leaves_none(insn: &Insn) -> bool
    ensures { result ≡ leaves_none (instruction insn.now) }
{
    match insn {
        Insn::Lookahead {
            negate: false,
            start_group,
            end_group,
            ..
        }
        | Insn::Lookbehind {
            negate: false,
            start_group,
            end_group,
            ..
        } => *end_group <= *start_group,
        _ => true,
    }
}

impl Passage {
    /// Whether an address lies further than another, and inside.
    fn is_on(&self, from: usize, to: usize) -> bool
        ensures { result ≡ (nat_lt from to && nat_lt to self.now.end) }
    {
        from < to && to < self.end
    }

    /// Whether an address is inside.
    fn has(&self, to: usize) -> bool
        ensures { result ≡ (nat_lt self.now.at to && nat_lt to self.now.end) }
    {
        self.at < to && to < self.end
    }

    /// Whether a group is inside.
    fn holds(&self, group: usize) -> bool
        ensures { result ≡ (nat_le self.now.first group && nat_lt group self.now.last) }
    {
        self.first <= group && group < self.last
    }

    /// Whether all groups from the first up to before the last are.
    fn holds_all(&self, first: usize, last: usize) -> bool
        ensures { result ≡ (nat_le self.now.first first && nat_le last self.now.last) }
    {
        self.first <= first && last <= self.last
    }

    /// Whether what is matched by itself lies inside, from an address on up to another, with its groups.
    fn holds_inside(&self, at: usize, first: usize, last: usize, continuation: usize) -> bool
        requires { at + 1 < 2 ^ 64 }
        ensures { result ≡ (nat_lt (suc at) self.now.end && ((nat_lt at continuation && nat_lt continuation self.now.end)
            && (nat_le self.now.first first && nat_le last self.now.last))) }
    {
        at + 1 < self.end && (self.is_on(at, continuation) && self.holds_all(first, last))
    }

    /// Whether an instruction at an address inside is no repetition, but of one character where such may stand, leads further and not past the
    /// end, and writes groups inside alone.
    fn leads_through(&self, singles: bool, at: usize, insn: &Insn) -> bool
        requires { at + 2 < 2 ^ 64 }
        ensures { result ≡ leads_through singles self.now.first self.now.last self.now.end at (instruction insn.now) }
    {
        match insn {
            Insn::Goal | Insn::JustFail => true,
            Insn::BackRef { .. } | Insn::EnterLoop(_) | Insn::LoopAgain { .. } => false,
            Insn::Loop1CharBody { .. } => singles && at + 2 < self.end,
            Insn::Jump { target } => self.is_on(at, *target as usize),
            Insn::Alt { secondary } => at + 1 < self.end && self.is_on(at, *secondary as usize),
            Insn::BeginCaptureGroup(group)
            | Insn::EndCaptureGroup(group)
            | Insn::ResetCaptureGroup(group) => at + 1 < self.end && self.holds(*group as usize),
            Insn::Lookahead {
                start_group,
                end_group,
                continuation,
                ..
            }
            | Insn::Lookbehind {
                start_group,
                end_group,
                continuation,
                ..
            }
            | Insn::Atomic {
                start_group,
                end_group,
                continuation,
            } => self.holds_inside(
                at,
                *start_group as usize,
                *end_group as usize,
                *continuation as usize,
            ),
            _ => at + 1 < self.end,
        }
    }

    /// Whether each address that an instruction leads to is inside, and each group that it writes.
    fn stays_inside(&self, at: usize, insn: &Insn) -> bool
        requires { at + 2 < 2 ^ 64 }
        ensures { result ≡ stays_inside self.now.first self.now.last self.now.at self.now.end at (instruction insn.now) }
    {
        match insn {
            Insn::Goal | Insn::JustFail => true,
            Insn::BackRef { .. } => false,
            Insn::EnterLoop(repetition) => at + 1 < self.end && self.has(repetition.exit as usize),
            Insn::LoopAgain { begin } => self.has(*begin as usize),
            Insn::Loop1CharBody { .. } => at + 2 < self.end,
            Insn::Jump { target } => self.has(*target as usize),
            Insn::Alt { secondary } => at + 1 < self.end && self.has(*secondary as usize),
            Insn::BeginCaptureGroup(group)
            | Insn::EndCaptureGroup(group)
            | Insn::ResetCaptureGroup(group) => at + 1 < self.end && self.holds(*group as usize),
            Insn::Lookahead {
                start_group,
                end_group,
                continuation,
                ..
            }
            | Insn::Lookbehind {
                start_group,
                end_group,
                continuation,
                ..
            }
            | Insn::Atomic {
                start_group,
                end_group,
                continuation,
            } => {
                at + 1 < self.end
                    && (self.has(*continuation as usize)
                        && self.holds_all(*start_group as usize, *end_group as usize))
            }
            _ => at + 1 < self.end,
        }
    }

    /// Whether an instruction inside is as it is asked to be.
    fn is_asked(&self, asked: Asked, at: usize, insn: &Insn) -> bool
        requires { at + 2 < 2 ^ 64 }
        ensures { result ≡ is_asked asked self.now.at self.now.first self.now.last self.now.end at (instruction insn.now) }
    {
        match asked {
            Asked::Through { singles } => self.leads_through(singles, at, insn),
            Asked::Stay => self.stays_inside(at, insn),
            Asked::NoRepetition => !repeats(insn),
            Asked::NoGroups => leaves_none(insn),
        }
    }

    /// Whether each instruction inside is.
    fn are_asked(&self, asked: Asked, insns: &[Insn]) -> bool
        requires { self.now.at < length insns.now }
        ensures { (program : Program) → program.instructions ≡ map instruction insns.now
            → result ≡ all_pass (is_asked_inside asked self.now.at self.now.first self.now.last self.now.end) 0 program.instructions }
    {
        for at in self.at + 1..self.end.min(insns.len()) {
            if !self.is_asked(asked, at, &insns[at]) {
                return false;
            }
        }
        true
    }

    /// Whether there are contents, and each instruction inside is as it is asked to be.
    fn are_allowed(&self, asked: Asked, insns: &[Insn]) -> bool
        requires { self.now.at < length insns.now }
        ensures { (program : Program) → program.instructions ≡ map instruction insns.now
            → result ≡ (nat_lt (suc self.now.at) self.now.end && all_pass (is_asked_inside asked self.now.at self.now.first self.now.last self.now.end) 0 program.instructions) }
    {
        self.at + 1 < self.end && self.are_asked(asked, insns)
    }

    /// Whether a repetition of more than one character begins inside.
    fn repeats_inside(&self, insns: &[Insn]) -> bool
        requires { self.now.at < length insns.now }
        ensures { (program : Program) → program.instructions ≡ map instruction insns.now → result ≡ repeats_inside program self.now.at self.now.end }
    {
        !self.are_asked(Asked::NoRepetition, insns)
    }

    /// Whether any loops may stand inside: the contents are visited at most once, no way leads out of them, and no lookaround inside leaves
    /// groups.
    fn may_loop(&self, insns: &[Insn], once: bool) -> bool
        requires { self.now.at < length insns.now }
        ensures { (program : Program) → program.instructions ≡ map instruction insns.now
            → once ≡ is_visited_once program self.now.at → result ≡ may_loop program self.now.at self.now.end self.now.first self.now.last }
    {
        once && (self.are_allowed(Asked::Stay, insns) && self.are_asked(Asked::NoGroups, insns))
    }
}

/// So many addresses has a lookaround whose contents have loops, with its own, if it leaves groups.
fn loop_size(insns: &[Insn], at: usize, insn: &Insn) -> usize
    requires { at < length insns.now }
    ensures { (program : Program) → program.instructions ≡ map instruction insns.now → result ≡ loop_size program at (instruction insn.now) }
{
    match insn {
        Insn::Lookahead {
            negate: false,
            start_group,
            end_group,
            continuation,
        }
        | Insn::Lookbehind {
            negate: false,
            start_group,
            end_group,
            continuation,
        } => {
            let passage = Passage {
                at,
                first: *start_group as usize,
                last: *end_group as usize,
                end: *continuation as usize,
            };
            if passage.first < passage.last && passage.repeats_inside(insns) {
                passage.end.saturating_sub(at)
            } else {
                0
            }
        }
        _ => 0,
    }
}

/// Whether lookarounds whose contents have loops, and which leave groups, are together no longer than the program.
pub(crate) fn are_short(insns: &[Insn]) -> bool
    ensures { (program : Program) → program.instructions ≡ map instruction insns.now → result ≡ are_short program }
{
    let mut left = insns.len();
    for at in 0..insns.len() {
        let size = loop_size(insns, at, &insns[at]);
        if left < size {
            return false;
        }
        left -= size;
    }
    true
}

impl RankTable {
    /// Whether as many ranks lie between where contents stand and what is behind them as they have instructions.
    fn have_ranks(&self, at: usize, end: usize) -> bool
        ensures { result ≡ have_ranks (heights_of self.now) at end }
    {
        let low = self.rank(end);
        let high = self.rank(at);
        low <= high && end.saturating_sub(at) <= high - low
    }

    /// Whether contents may leave groups: they have loops and are visited at most once, or have none, and ranks enough.
    fn may_leave(&self, insns: &[Insn], once: bool, passage: Passage) -> bool
        requires { passage.at < length insns.now }
        ensures { (program : Program) → program.instructions ≡ map instruction insns.now → once ≡ is_visited_once program passage.at
            → result ≡ (if repeats_inside program passage.at passage.end then may_loop program passage.at passage.end passage.first passage.last
            else (are_allowed program false (is_visited_once program passage.at) passage.at passage.first passage.last passage.end
            && have_ranks (heights_of self.now) passage.at passage.end)) }
    {
        if passage.repeats_inside(insns) {
            passage.may_loop(insns, once)
        } else {
            passage.are_allowed(Asked::Through { singles: once }, insns)
                && self.have_ranks(passage.at, passage.end)
        }
    }

    /// Whether what a lookaround or an atomic group at an address leaves is as it has to be: the contents of a lookaround that are gone through
    /// have no loop, and ranks enough, or are visited at most once, and no way leads out of those of an atomic group. Of each address it is
    /// told whether it is visited at most once.
    fn leaves_groups(&self, insns: &[Insn], once: &[bool], at: usize, insn: &Insn) -> bool
        requires within { at < length insns.now }
        requires count { length once.now ≡ length insns.now }
        ensures { (program : Program) → program.instructions ≡ map instruction insns.now
            → AreOnce once.now program → result ≡ leaves_groups (heights_of self.now) program at (instruction insn.now) }
    {
        match insn {
            Insn::Lookahead {
                negate: false,
                start_group,
                end_group,
                continuation,
            }
            | Insn::Lookbehind {
                negate: false,
                start_group,
                end_group,
                continuation,
            } => {
                let passage = Passage {
                    at,
                    first: *start_group as usize,
                    last: *end_group as usize,
                    end: *continuation as usize,
                };
                passage.last <= passage.first || self.may_leave(insns, once[at], passage)
            }
            Insn::Atomic {
                start_group,
                end_group,
                continuation,
            } => {
                let passage = Passage {
                    at,
                    first: *start_group as usize,
                    last: *end_group as usize,
                    end: *continuation as usize,
                };
                passage.are_allowed(Asked::Stay, insns)
            }
            _ => true,
        }
    }

    /// Whether what each of them leaves is.
    pub(crate) fn leave_groups(&self, insns: &[Insn], once: &[bool]) -> bool
        requires { length once.now ≡ length insns.now }
        ensures { (program : Program) → program.instructions ≡ map instruction insns.now
            → AreOnce once.now program → result ≡ all_pass (leaves_groups (heights_of self.now) program) 0 program.instructions }
    {
        for at in 0..insns.len() {
            if !self.leaves_groups(insns, once, at, &insns[at]) {
                return false;
            }
        }
        true
    }
}
