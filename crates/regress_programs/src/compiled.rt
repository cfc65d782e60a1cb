//! The programs of a pattern.
ghost use Rattle.std.specs.Arc.{arc_value};
ghost use Rattle.std.specs.Prelude.{◌≡◌, ◌≤◌, ◌≢◌, ℕ, List, None, false, true, All, IfOk, IfErr, IsOkUnless, is_some, length, option_copied, option_map};
ghost use Rattle.regress_engine_code.specs.Standing.{IsCopyOf, program_of};
ghost use Rattle.regress_meaning.specs.Table.{Table};
ghost use Rattle.regress_meaning.specs.Pattern.{Pattern};
ghost use Rattle.regress_meaning.specs.Flags.{Options};
ghost use Rattle.regress_meaning.specs.WholeText.{whole_text};
ghost use Rattle.regress_front.specs.TableViews.{table};
ghost use Rattle.regress_front.specs.FlagWords.{options};
ghost use Rattle.regress_front.specs.RewritingLaws.{IsRewritten};
ghost use Rattle.regress_front.specs.Sizes.{spread};
ghost use Rattle.regress_front.specs.Trees.{tree};
ghost use Rattle.regress_front.specs.WellFormed.{IsWellFormed};
ghost use Rattle.regress_engine_exec.specs.Turned.{TellsLinear, enough_by};
ghost use Rattle.regress_programs.specs.Programs.{IsReadFrom, IsProgramOf, AreProgramsOf, AreProgramsWithin, HaveFewInstructions};
ghost use Rattle.regress_programs.specs.Refusing.{MayRefuseMade, MayRefuseMadeWithin, MayRefuseRegex, MayRefuseWholeText};

use regress_engine_code::{CompiledRegex, emit, emit_units};
use regress_engine_exec::linear_steps;
use regress_engine_linear::LinearTable;
use regress_engine_runs::spreads_bound_counts;
use regress_front::{
    Error, Flags, LimitError, Tables, ir, optimize, try_parse, try_parse_whole_text,
    try_parse_whole_text_within, try_parse_within,
};
use std::alloc::Global;
use std::sync::Arc;

/// The table by which a program is linear, where it is, and no request for memory is refused.
fn linear_table(alloc: Global, program: &CompiledRegex) -> Option<Arc<LinearTable>>
    ensures { TellsLinear (program_of program.now) (option_map arc_value result) }
{
    let made = LinearTable::of(alloc, program.insns(), program.loops() as usize);
    let Ok(Some(table)) = made else {
        return None;
    };
    let Ok(shared) = Arc::new(alloc, table) else {
        return None;
    };
    Some(shared)
}

/// The same table, for one more owner.
fn shared(table: &Option<Arc<LinearTable>>) -> Result<Option<Arc<LinearTable>>, Error>
    ensures same { IfOk result (λ copy. option_map arc_value copy ≡ option_map arc_value table.now) }
    ensures refused { IsOkUnless result Error.OutOfMemory }
{
    let Some(table) = table else {
        return Ok(None);
    };
    Ok(Some(Arc::try_clone(table)?))
}

/// The programs of a pattern: of bytes, and of units; and for each the table by which it is linear, once that is learned. Searches that may
/// take so many steps then turn to tables.
#[derive(Debug, Drop)]
pub struct Compiled {
    /// Of bytes, for texts of UTF-8 and ASCII.
    pub byte_program: CompiledRegex,
    /// Of 16-bit units.
    pub unit_program: CompiledRegex,
    byte_table: Option<Arc<LinearTable>>,
    unit_table: Option<Arc<LinearTable>>,
    ghost of_bytes: { byte_program.units ≡ false },
    ghost of_units: { unit_program.units ≡ true },
    ghost linear_bytes: { TellsLinear (program_of byte_program) (option_map arc_value byte_table) },
    ghost linear_units: { TellsLinear (program_of unit_program) (option_map arc_value unit_table) },
}

/// Rewrites a tree, unless its flags ask that it stays as it is.
fn rewrite(alloc: Global, regex: &mut ir::Regex<'_>) -> Result<(), Error>
    requires { (n : ℕ) × IsWellFormed n (tree regex.old.node) }
    ensures rewritten { (n : ℕ) → IsWellFormed n (tree regex.old.node) → IsRewritten n (tree regex.old.node) (tree regex.new.node) }
    ensures kept { (regex.new.flags ≡ regex.old.flags) × (regex.new.tables ≡ regex.old.tables) }
    ensures refused { IfErr result (λ e. e ≡ Error.OutOfMemory) }
{
    if regex.flags.no_opt {
        return Ok(());
    }
    optimize(alloc, regex)
}

impl Compiled {
    ghost use Rattle.regress_programs.specs.Tables.{byte_table_of, unit_table_of};

    /// Compiles a tree: it becomes both programs once it is rewritten, unless the flags ask that it is not.
    fn of_tree(alloc: Global, mut regex: ir::Regex<'_>) -> Result<Compiled, Error>
        requires { (n : ℕ) × IsWellFormed n (tree regex.node) }
        ensures accepted { (made : Pattern → Pattern) → (t : Table) → (o : Options) → (text : List ℕ) → (p : Pattern) → IsReadFrom made t o text p regex.entry →
            IfOk result (λ c. IsProgramOf c.byte_program t o (made p) × IsProgramOf c.unit_program t o (made p)) }
        ensures refused { (made : Pattern → Pattern) → (t : Table) → (o : Options) → (text : List ℕ) → (p : Pattern) → IsReadFrom made t o text p regex.entry →
            IfErr result (MayRefuseMade made t o text) }
        ensures fits { (made : Pattern → Pattern) → (t : Table) → (o : Options) → (text : List ℕ) → (p : Pattern) → IsReadFrom made t o text p regex.entry →
            o.sets ≡ false → length text ≤ 10000 → IfErr result (λ e. e ≢ Error.TooLarge) }
        ensures small { IfOk result (λ c. HaveFewInstructions (spread (tree regex.entry.node)) c.byte_program c.unit_program) }
    {
        spreads_bound_counts();
        rewrite(alloc, &mut regex)?;
        let unit_program = emit_units(alloc, &regex)?;
        let byte_program = emit(alloc, &regex)?;
        Ok(Compiled::of_programs(byte_program, unit_program))
    }

    /// Two programs, which may be those of two patterns. They are not known to be linear.
    ///
    /// Asks for one program of each kind.
    ///
    /// ```rust
    /// let byte_program = compiled.byte_program.try_clone(alloc)?;
    /// let unit_program = compiled.unit_program.try_clone(alloc)?;
    /// let again = Compiled::of_programs(byte_program, unit_program);
    /// ```
    pub fn of_programs(byte_program: CompiledRegex, unit_program: CompiledRegex) -> Compiled
        requires of_bytes { byte_program.units ≡ false }
        requires of_units { unit_program.units ≡ true }
        ensures bytes { result.byte_program ≡ byte_program }
        ensures units { result.unit_program ≡ unit_program }
        ensures unknown { (byte_table_of result ≡ None) × (unit_table_of result ≡ None) }
    {
        Compiled {
            byte_program,
            unit_program,
            byte_table: None,
            unit_table: None,
        }
    }

    /// Makes for each program the table by which it is linear, where it is and there is none yet. Where memory for that is refused, there is
    /// none.
    ///
    /// ```rust
    /// compiled.learn_linear(alloc);
    /// ```
    pub fn learn_linear(&mut self, alloc: Global)
        ensures bytes { self.new.byte_program ≡ self.old.byte_program }
        ensures units { self.new.unit_program ≡ self.old.unit_program }
        ensures kept_bytes { is_some (byte_table_of self.old) ≡ true → byte_table_of self.new ≡ byte_table_of self.old }
        ensures kept_units { is_some (unit_table_of self.old) ≡ true → unit_table_of self.new ≡ unit_table_of self.old }
    {
        if self.byte_table.is_none() {
            self.byte_table = linear_table(alloc, &self.byte_program);
        }
        if self.unit_table.is_none() {
            self.unit_table = linear_table(alloc, &self.unit_program);
        }
    }

    /// The table by which the program of bytes is linear, if it is known to be.
    ///
    /// ```rust
    /// let table = compiled.byte_table(); // for `a+` there is one
    /// ```
    pub fn byte_table(&self) -> Option<&LinearTable>
        ensures table { option_copied result ≡ byte_table_of self.now }
        ensures linear { TellsLinear (program_of self.now.byte_program) (option_copied result) }
    {
        match &self.byte_table {
            Some(table) => Some(table),
            None => None,
        }
    }

    /// The table by which the program of units is linear, if it is known to be.
    ///
    /// ```rust
    /// let table = compiled.unit_table(); // for `a+` there is one
    /// ```
    pub fn unit_table(&self) -> Option<&LinearTable>
        ensures table { option_copied result ≡ unit_table_of self.now }
        ensures linear { TellsLinear (program_of self.now.unit_program) (option_copied result) }
    {
        match &self.unit_table {
            Some(table) => Some(table),
            None => None,
        }
    }

    /// Compiles a pattern that is given as code points ("RegExpInitialize").
    ///
    /// Asks that all are code points. Refused as `Regex::with_flags` says.
    ///
    /// ```rust
    /// let compiled = Compiled::new(alloc, &[0x61, 0x2B], Flags::default(), &tables)?; // `a+`
    /// ```
    pub fn new(
        alloc: Global,
        points: &[u32],
        flags: Flags,
        tables: &Tables,
    ) -> Result<Compiled, Error>
        requires { All (λ c. c ≤ 0x10_FFFF) points.now }
        ensures accepted { IfOk result (λ c. AreProgramsOf (λ p. p) (table tables.now) (options flags) points.now c.byte_program c.unit_program) }
        ensures refused { IfErr result (MayRefuseRegex (table tables.now) (options flags) points.now) }
        ensures fits { (options flags).sets ≡ false → length points.now ≤ 10000 → IfErr result (λ e. e ≢ Error.TooLarge) }
    {
        let tree = try_parse(alloc, points, flags, tables)?;
        Compiled::of_tree(alloc, tree)
    }

    /// Compiles a pattern over a whole text: `(?-m:^)(?:P)(?-m:$)` for the pattern P.
    ///
    /// Asks that all are code points. Refused as `Regex::whole_text` says.
    ///
    /// ```rust
    /// let compiled = Compiled::whole_text(alloc, &[0x61, 0x2B], Flags::default(), &tables)?;
    /// ```
    pub fn whole_text(
        alloc: Global,
        points: &[u32],
        flags: Flags,
        tables: &Tables,
    ) -> Result<Compiled, Error>
        requires { All (λ c. c ≤ 0x10_FFFF) points.now }
        ensures accepted { IfOk result (λ c. AreProgramsOf whole_text (table tables.now) (options flags) points.now c.byte_program c.unit_program) }
        ensures refused { IfErr result (MayRefuseWholeText (table tables.now) (options flags) points.now) }
        ensures fits { (options flags).sets ≡ false → length points.now ≤ 10000 → IfErr result (λ e. e ≢ Error.TooLarge) }
    {
        let tree = try_parse_whole_text(alloc, points, flags, tables)?;
        Compiled::of_tree(alloc, tree)
    }

    /// Compiles a pattern as `new` does, if it costs no more than a limit, which is told before there is a tree.
    ///
    /// Asks that all are code points. Refused as `Regex::with_limit` says.
    ///
    /// ```rust
    /// let compiled = Compiled::new_within(alloc, &[0x61, 0x2B], Flags::default(), &tables, 1000)?; // `a+`
    /// ```
    pub fn new_within(
        alloc: Global,
        points: &[u32],
        flags: Flags,
        tables: &Tables,
        limit: usize,
    ) -> Result<Compiled, LimitError>
        requires { All (λ c. c ≤ 0x10_FFFF) points.now }
        ensures accepted { IfOk result (λ c. AreProgramsWithin limit (λ p. p) (table tables.now) (options flags) points.now c.byte_program c.unit_program) }
        ensures small { IfOk result (λ c. HaveFewInstructions limit c.byte_program c.unit_program) }
        ensures refused { IfErr result (MayRefuseMadeWithin limit (λ p. p) (table tables.now) (options flags) points.now) }
        ensures fits { (options flags).sets ≡ false → length points.now ≤ 10000 → IfErr result (λ e. e ≢ LimitError.Refused Error.TooLarge) }
    {
        let tree = try_parse_within(alloc, points, flags, tables, limit)?;
        Ok(Compiled::of_tree(alloc, tree)?)
    }

    /// Compiles a pattern over a whole text as `whole_text` does, if what is made of it costs no more than a limit.
    ///
    /// Asks that all are code points. Refused as `Regex::whole_text_with_limit` says.
    ///
    /// ```rust
    /// let compiled = Compiled::whole_text_within(alloc, &[0x61, 0x2B], Flags::default(), &tables, 1000)?;
    /// ```
    pub fn whole_text_within(
        alloc: Global,
        points: &[u32],
        flags: Flags,
        tables: &Tables,
        limit: usize,
    ) -> Result<Compiled, LimitError>
        requires { All (λ c. c ≤ 0x10_FFFF) points.now }
        ensures accepted { IfOk result (λ c. AreProgramsWithin limit whole_text (table tables.now) (options flags) points.now c.byte_program c.unit_program) }
        ensures small { IfOk result (λ c. HaveFewInstructions limit c.byte_program c.unit_program) }
        ensures refused { IfErr result (MayRefuseMadeWithin limit whole_text (table tables.now) (options flags) points.now) }
        ensures fits { (options flags).sets ≡ false → length points.now ≤ 10000 → IfErr result (λ e. e ≢ LimitError.Refused Error.TooLarge) }
    {
        let tree = try_parse_whole_text_within(alloc, points, flags, tables, limit)?;
        Ok(Compiled::of_tree(alloc, tree)?)
    }

    /// How many steps are enough for all searches with the program of bytes in a text of so many bytes; `None` where it isn't known to be
    /// linear, and where the table of the text would be too large.
    ///
    /// ```rust
    /// let steps = compiled.byte_steps(text.len());
    /// ```
    pub fn byte_steps(&self, units: usize) -> Option<usize>
        ensures { result ≡ enough_by (byte_table_of self.now) units }
    {
        linear_steps(self.byte_table()?, units)
    }

    /// The same with the program of units, in so many of them.
    ///
    /// ```rust
    /// let steps = compiled.unit_steps(1_000);
    /// ```
    pub fn unit_steps(&self, units: usize) -> Option<usize>
        ensures { result ≡ enough_by (unit_table_of self.now) units }
    {
        linear_steps(self.unit_table()?, units)
    }

    /// The same programs once more. Errs with `OutOfMemory` alone.
    ///
    /// ```rust
    /// let copy = compiled.try_clone(alloc)?;
    /// ```
    pub fn try_clone(&self, alloc: Global) -> Result<Compiled, Error>
        ensures bytes { IfOk result (λ c. IsCopyOf self.now.byte_program c.byte_program) }
        ensures units { IfOk result (λ c. IsCopyOf self.now.unit_program c.unit_program) }
        ensures tables { IfOk result (λ c. (byte_table_of c ≡ byte_table_of self.now) × (unit_table_of c ≡ unit_table_of self.now)) }
        ensures refused { IsOkUnless result Error.OutOfMemory }
    {
        let byte_table = shared(&self.byte_table)?;
        let unit_table = shared(&self.unit_table)?;
        let byte_program = self.byte_program.try_clone(alloc)?;
        let unit_program = self.unit_program.try_clone(alloc)?;
        Ok(Compiled {
            byte_program,
            unit_program,
            byte_table,
            unit_table,
        })
    }
}
