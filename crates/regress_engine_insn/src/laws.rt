//! Laws of layouts, each the contract of a function with an empty body.
ghost use Rattle.std.specs.Prelude.{◌≡◌, ◌+◌, ℕ, Bool};
ghost use Rattle.regress_front_nodes.specs.Trees.{Tree};
ghost use Rattle.regress_front_nodes.specs.WellFormed.{AreLawful};
ghost use Rattle.regress_front_nodes.specs.Sizes.{loops};
ghost use Rattle.regress_engine_insn.specs.Counts.{count};
ghost use Rattle.regress_engine_insn.specs.Layout.{ProgramPoint, Target, Lies};

/// Between its program points a tree has as many instructions and loops as are written of it.
pub fn layouts_are_counted()
    ensures { (target : Target) → (n : ℕ) → (t : Tree) → AreLawful n t → (b : Bool) → (p q : ProgramPoint) → Lies target b t p q → (q.address ≡ p.address + count target.program.units target.table target.unicode t) × (q.loops ≡ p.loops + loops t) }
{}
