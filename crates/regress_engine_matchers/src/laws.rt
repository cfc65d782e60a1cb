//! A law of reading. Nothing here runs: the function states by its contract what holds of what an input shows.
ghost use Rattle.std.specs.Prelude.{◌≡◌, ℕ, List, Some};
ghost use Rattle.regress_meaning.specs.Meaning.{Direction};
ghost use Rattle.regress_meaning.specs.Steps.{literal};
ghost use Rattle.regress_engine_input.specs.Views.{View, AreOfKind, CanRead, LiesIn, input_of, unit_beside, past_unit};

/// Where characters may be read is in the text, and behind a character that is read from there they may be read too; behind a
/// byte or unit, and behind several, that stand beside an offset in the text is an offset in the text.
pub fn reads_stay_in_texts()
    ensures inside { (v : View) → AreOfKind v.kind v.units → (o : ℕ) → CanRead v o → LiesIn v o }
    ensures characters { (v : View) → AreOfKind v.kind v.units → (dir : Direction) → (o c q : ℕ) → CanRead v o → (input_of v).next dir o ≡ Some (c, q) → CanRead v q }
    ensures unit { (v : View) → (dir : Direction) → (o u : ℕ) → LiesIn v o → unit_beside v.units dir o ≡ Some u → LiesIn v (past_unit dir o) }
    ensures units { (v : View) → (dir : Direction) → (part : List ℕ) → (o q : ℕ) → LiesIn v o → literal (input_of v) dir part o ≡ Some q → LiesIn v q }
{}
