//! Limits of patterns, and names of types.
ghost use Rattle.std.specs.Prelude.{◌≡◌};
ghost use Rattle.regress_meaning.specs.Limits.{greatest_depth, most_groups, most_quantifiers};
ghost use Rattle.regress_front_core.specs.Limits.{most_members};

/// A capture group's number, from 0 in order of opening.
pub type CaptureGroupID = u16;

/// A capture group's name.
pub type CaptureGroupName = String;

/// A loop's number.
pub type LoopID = u16;

/// The index of an instruction of a program.
pub type IP = usize;

/// At most this many capture groups stand in a pattern.
pub const MAX_CAPTURE_GROUPS: usize = 65535;

/// At most this many quantifiers stand in a pattern.
pub const MAX_LOOPS: usize = 65535;

/// At most this many groups, assertions and classes stand within one another.
pub const MAX_NESTING_DEPTH: u32 = 256;

/// How many characters a set of them has that is held in an array.
pub const MAX_CHAR_SET_LENGTH: usize = 4;

/// The limits are those that the definitions know.
pub fn limits_are_those_of_the_definitions()
    ensures groups { MAX_CAPTURE_GROUPS ≡ most_groups }
    ensures loops { MAX_LOOPS ≡ most_quantifiers }
    ensures depth { MAX_NESTING_DEPTH ≡ greatest_depth }
    ensures members { MAX_CHAR_SET_LENGTH ≡ most_members }
{}
