//! Texts that may be searched piece by piece.
ghost use Rattle.std.specs.Prelude.{◌≡◌, ◌↔◌, ℕ, List, true, IsTrue};
ghost use Rattle.esgrep_rows.specs.Found.{Find};
ghost use Rattle.esgrep_lines.specs.Pieces.{IsAnywhere, ArePieces, RowsGoByPieces, CountGoesByPieces, KnowsNoPlace, MayGoByPieces, puts_rows};

use esgrep_rows::{Mode, Options};

/// Whether rows of lines or of matches are put out.
fn puts_rows(mode: Mode) -> bool
    ensures { result ≡ puts_rows mode }
{
    matches!(mode, Mode::Lines | Mode::Matches)
}

/// Whether the rows of a text depend on nothing but the line that each is of.
fn knows_no_place(options: &Options) -> bool
    ensures { IsTrue result ↔ KnowsNoPlace options.now }
{
    options.before == 0
        && options.after == 0
        && !options.parts_groups
        && !options.numbers
        && !options.offsets
}

/// Whether a text may be searched piece by piece, where what is found in a line does not depend on where it stands: what is put out
/// for it is what is put out for its pieces, one behind the other, and so many lines are selected as in all of these. Each piece
/// but the last ends where a line does.
///
/// ```rust
/// let may_read_on = goes_by_pieces(&options); // with `numbers` false
/// ```
pub fn goes_by_pieces(options: &Options) -> bool
    ensures told { IsTrue result ↔ MayGoByPieces options.now }
    ensures rows { IsTrue result → puts_rows options.now.mode ≡ true → (find : Find) → IsAnywhere find → (name front rest : List ℕ) →
        ArePieces options.now front rest → RowsGoByPieces options.now find name front rest }
    ensures count { IsTrue result → (find : Find) → IsAnywhere find → (front rest : List ℕ) →
        ArePieces options.now front rest → CountGoesByPieces options.now find front rest }
{
    let is_whole = options.most == usize::MAX;
    if puts_rows(options.mode) {
        is_whole && knows_no_place(options)
    } else {
        is_whole
    }
}
