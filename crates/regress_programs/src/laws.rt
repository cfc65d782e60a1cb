//! Laws of programs, each the contract of a function with an empty body.
ghost use Rattle.std.specs.Prelude.{◌≡◌, ℕ, List};
ghost use Rattle.regress_meaning.specs.Table.{Table};
ghost use Rattle.regress_meaning.specs.Pattern.{Pattern};
ghost use Rattle.regress_meaning.specs.Flags.{Options};
ghost use Rattle.regress_front.specs.FlagWords.{options};
ghost use Rattle.regress_front.specs.Parsed.{IsTreeMade};
ghost use Rattle.regress_front.specs.TableViews.{table};
ghost use Rattle.regress_front.specs.Trees.{tree};
ghost use Rattle.regress_front_nodes.specs.declared.ir.Regex as ir;
ghost use Rattle.regress_engine_code.specs.Standing as code;
ghost use Rattle.regress_engine_code.specs.declared.compiled.CompiledRegex.{CompiledRegex};
ghost use Rattle.regress_programs.specs.Programs.{IsProgramOf, IsTreeFor};

/// A program that stands for the tree of a pattern is one of that pattern: what `emit` and `emit_units` make of what `try_parse`
/// reads, as it is or rewritten; and so for what `try_parse_whole_text` makes of the pattern.
pub fn programs_of_trees_are_of_patterns()
    ensures parsed { (made : Pattern → Pattern) → (t : Table) → (o : Options) → (text : List ℕ) → (p : Pattern) → (regex : ir.Regex) → IsTreeMade made t o text p (tree regex.node) → IsTreeFor made t o text p (tree regex.node) }
    ensures emitted { (made : Pattern → Pattern) → (t : Table) → (o : Options) → (text : List ℕ) → (p : Pattern) → (regex : ir.Regex) → IsTreeFor made t o text p (tree regex.node) →
        options regex.flags ≡ o → table regex.tables.now ≡ t →
        (compiled : CompiledRegex) → code.StandsFor regex compiled → IsProgramOf compiled t o (made p) }
{}
