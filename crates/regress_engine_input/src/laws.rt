//! Laws of the inputs. Nothing here runs: each function states by its contract what holds of what an input shows.
ghost use Rattle.std.specs.Prelude.{◌≡◌, ◌≤◌, ◌-◌, ℕ, Bool, true, false, List, length, Some, option_map, chars, slice_range};
ghost use Rattle.std.specs.Str.{IsUtf8};
ghost use Rattle.regress_meaning.specs.Meaning.{Direction, Forward, Backward, beside, same_all};
ghost use Rattle.regress_meaning.specs.Offsets.{Reading, offset, of_utf8};
ghost use Rattle.regress_meaning.specs.Inputs.{Input, Tells, context_of, single_next, utf8_next};
ghost use Rattle.regress_meaning.specs.Steps.{passed, repeated};
ghost use Rattle.regress_front_nodes.specs.ByteInputs.{TellsBytes};
ghost use Rattle.regress_engine_input.specs.Views.{View, AreOfKind, CanRead, are_bytes, input_of, reading_of, units_repeated};
ghost use Rattle.regress_engine_input.specs.References.{placed_by};

/// Each input tells its text, from either side of each place, and characters may be read at each place.
pub fn inputs_tell_texts()
    ensures told { (v : View) → AreOfKind v.kind v.units → Tells (reading_of v) (input_of v) }
    ensures read { (v : View) → AreOfKind v.kind v.units → (p : ℕ) → p ≤ length (reading_of v).points → CanRead v (offset (reading_of v) p) }
{}

/// In an input of bytes the bytes of whole characters stand just where the characters do.
pub fn inputs_tell_bytes()
    ensures { (v : View) → AreOfKind v.kind v.units → are_bytes v.kind ≡ true → TellsBytes (reading_of v) (input_of v) }
{}

/// Behind a character that is read forward the same character is read backward.
pub fn inputs_go_back()
    ensures { (v : View) → AreOfKind v.kind v.units → (p c o : ℕ) → p ≤ length (reading_of v).points → (input_of v).next Forward (offset (reading_of v) p) ≡ Some (c, o) → (input_of v).next Backward o ≡ Some (c, offset (reading_of v) p) }
{}

/// The last place of a text has the number of its bytes or units as its offset.
pub fn texts_end_with_units()
    ensures { (v : View) → AreOfKind v.kind v.units → offset (reading_of v) (length (reading_of v).points) ≡ length v.units }
{}

/// A test that only ASCII passes may look at one byte of a text in UTF-8, on either side of a place.
pub fn ascii_tests_see_bytes()
    ensures { (bytes : List ℕ) → IsUtf8 bytes → (test : ℕ → Bool) → ((c : ℕ) → 0x80 ≤ c → test c ≡ false) → (dir : Direction) → (p : ℕ) → p ≤ length (chars bytes) → passed test (utf8_next bytes dir (offset (of_utf8 bytes) p)) ≡ passed test (single_next bytes dir (offset (of_utf8 bytes) p)) }
{}

/// What a group took between two places stands beside a third just where its code points do, and ends at a place.
pub fn references_go_by_code_points()
    ensures { (input : Input) → (reading : Reading) → Tells reading input → (icase : Bool) → (dir : Direction) → (a b p : ℕ) → a ≤ b → b ≤ length reading.points → p ≤ length reading.points → repeated input dir icase (Some (offset reading a, offset reading b)) (offset reading p) ≡ option_map (offset reading) (placed_by (same_all input.table input.unicode icase (slice_range reading.points a b)) (beside (context_of reading input) dir (b - a) p)) }
{}

/// Where case is regarded, that is just where its units stand, as `subrange_eq` compares them.
pub fn references_go_by_units()
    ensures { (v : View) → AreOfKind v.kind v.units → (dir : Direction) → (a b p : ℕ) → a ≤ b → b ≤ length (reading_of v).points → p ≤ length (reading_of v).points → repeated (input_of v) dir false (Some (offset (reading_of v) a, offset (reading_of v) b)) (offset (reading_of v) p) ≡ units_repeated v dir (offset (reading_of v) a) (offset (reading_of v) b) (offset (reading_of v) p) }
{}
