//! A regex of programs that were emitted.
ghost use Rattle.std.specs.Prelude.{◌≡◌, [], true, false};
ghost use Rattle.regress_meaning.specs.Table.{Table};
ghost use Rattle.regress_meaning.specs.Pattern.{Pattern};
ghost use Rattle.regress_meaning.specs.Flags.{Options};
ghost use Rattle.regress_engine_code.specs.Standing.{names_of, target_of};
ghost use Rattle.regress.specs.Programs.{IsProgramOf};
ghost use Rattle.regress.specs.Standing.{StandsFor, StandsInUnits, byte_target, unit_target, source_of, names_of_regex};

use crate::api::Regex;
use regress_engine_code::CompiledRegex;
use regress_programs::Compiled;
use std::alloc::Global;

impl Regex {
    /// A regex of two programs, which may be those of two patterns: searches in texts go by the program of bytes, searches in
    /// 16-bit units by that of units. Its groups are those of the program of bytes, and its text is empty. It takes no memory,
    /// and keeps the allocator for its searches.
    ///
    /// Asks for one program of each kind, as `is_unit_program` tells.
    ///
    /// ```rust
    /// let regex = Regex::from_programs(alloc, emit(alloc, &tree)?, emit_units(alloc, &tree)?);
    /// ```
    pub fn from_programs(
        alloc: Global,
        byte_program: CompiledRegex,
        unit_program: CompiledRegex,
    ) -> Regex
        requires of_bytes { byte_program.units ≡ false }
        requires of_units { unit_program.units ≡ true }
        ensures stands { (t : Table) → (o : Options) → (p : Pattern) → IsProgramOf byte_program t o p → StandsFor result t o p }
        ensures stands_in_units { (t : Table) → (o : Options) → (p : Pattern) → IsProgramOf unit_program t o p → StandsInUnits result t o p }
        ensures programs { (byte_target result ≡ target_of byte_program) × (unit_target result ≡ target_of unit_program) }
        ensures named { names_of_regex result ≡ names_of byte_program }
        ensures text { source_of result ≡ [] }
    {
        let compiled = Compiled::of_programs(byte_program, unit_program);
        Regex {
            alloc,
            source: None,
            compiled,
        }
    }
}
