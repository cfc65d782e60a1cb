//! Replacement texts: read once, and written at each match.
ghost use Rattle.std.specs.Prelude.{◌≡◌, ◌∷◌, ◌++◌, ℕ, List, drop, IfOk, OnOk, IsOkUnless, string_bytes};
ghost use Rattle.std.specs.Char.{is_ascii_digit};
ghost use Rattle.regress_meaning.specs.Text.{is_at};
ghost use Rattle.regress_match.specs.Views.{item_of};
ghost use Rattle.regress_match.specs.GroupViews.{names_of_match};
ghost use Rattle.regress_match.specs.GroupRanges.{named};
ghost use Rattle.regress_match.specs.TextRanges.{LiesInText};
ghost use Rattle.regress_replacing.specs.Replacing.{number_after, at_dollar, range_of_number, part_at, expansion};
ghost use Rattle.regress_replacing.specs.Pieces.{piece_gives, AreReadFrom};

use regress_front_core::{Error, MAX_CAPTURE_GROUPS};
use regress_match::Match;
use std::alloc::Global;

/// A part of a replacement text.
#[derive(Debug, Drop)]
enum Piece<'p> {
    /// This text.
    Text(&'p str),
    /// The text of the group with this number, where 0 is the whole match.
    Numbered(usize),
    /// The text of the first group with this name.
    Named(&'p str),
}

/// Whether a text begins with a digit.
fn begins_with_digit(text: &str) -> bool
    ensures { result ≡ is_at is_ascii_digit text.now }
{
    match text.as_bytes() {
        [first, ..] => first.is_ascii_digit(),
        [] => false,
    }
}

/// The number that digits at the front of a text write, and what stands behind those that are taken: digits are, while the
/// number so far is at most 65535.
pub(crate) fn number(text: &str) -> (usize, &str)
    ensures number { result.0 ≡ (number_after 0 text.now).0 }
    ensures rest { result.1.now ≡ drop (number_after 0 text.now).1 text.now }
{
    let mut number = 0;
    for (index, digit) in text.as_bytes().iter().enumerate() {
        if !digit.is_ascii_digit() || number > MAX_CAPTURE_GROUPS {
            return (number, &text[index..]);
        }
        number = number * 10 + usize::from(*digit - b'0');
    }
    (number, "")
}

/// What a `$` stands for, and the text behind that: `text` begins with the `$`, and `behind` is what stands behind it.
fn reference<'p>(text: &'p str, behind: &'p str) -> (Piece<'p>, &'p str)
    requires { text.now ≡ 0x24 ∷ behind.now }
    ensures gives { (by_number : ℕ → List ℕ) → (by_name : List ℕ → List ℕ) →
        piece_gives by_number by_name result.0 ≡ (at_dollar by_number by_name behind.now).0 }
    ensures rest { (by_number : ℕ → List ℕ) → (by_name : List ℕ → List ℕ) →
        result.1.now ≡ drop (at_dollar by_number by_name behind.now).1 behind.now }
{
    if let Some(rest) = behind.strip_prefix('$') {
        return (Piece::Text("$"), rest);
    }
    if let Some(inside) = behind.strip_prefix('{') {
        return match inside.split_once('}') {
            Some((name, rest)) => (Piece::Named(name), rest),
            None => (Piece::Text(text), ""),
        };
    }
    if !begins_with_digit(behind) {
        return (Piece::Text("$"), behind);
    }
    let (number, rest) = number(behind);
    (Piece::Numbered(number), rest)
}

/// What a piece gives at a match in a text.
fn given<'t>(piece: &Piece<'t>, found: &Match, text: &'t str) -> &'t str
    requires { LiesInText text.now found.now }
    ensures { result.now ≡ piece_gives (λ n. part_at text.now (range_of_number (item_of found.now) n))
        (λ name. part_at text.now (named (names_of_match found.now) (item_of found.now).groups name)) piece.now }
{
    match piece {
        Piece::Text(given) => given,
        Piece::Numbered(number) => found.group_str(text, *number).unwrap_or(""),
        Piece::Named(name) => found.named_str(text, name).unwrap_or(""),
    }
}

/// A replacement text that was read ("GetSubstitution"): `$$` stands for `$`, `$` and digits for the text of the group with that
/// number, where 0 is the whole match, and `${name}` for the text of the first group with that name. A group that took no part
/// or is not there has no text. All else stands for itself.
#[derive(Debug, Drop)]
pub struct Replacement<'p> {
    pieces: Vec<Piece<'p>>,
    source: &'p str,
    ghost read: { AreReadFrom source.now pieces.items },
}

impl<'p> Replacement<'p> {
    ghost use Rattle.regress_replacing.specs.Views.{source_of};

    /// Reads a replacement text.
    ///
    /// Errs with `OutOfMemory` alone.
    ///
    /// ```rust
    /// let replacement = Replacement::new(alloc, "$2/$1")?;
    /// ```
    pub fn new(alloc: Global, source: &'p str) -> Result<Replacement<'p>, Error>
        ensures read { IfOk result (λ r. source_of r ≡ source.now) }
        ensures refused { IsOkUnless result Error.OutOfMemory }
    {
        let mut pieces = Vec::new(alloc);
        let mut rest = source;
        while let Some((plain, behind)) = rest.split_once('$') {
            pieces.push(Piece::Text(plain))?;
            let (piece, left) = reference(&rest[plain.len()..], behind);
            pieces.push(piece)?;
            rest = left;
        }
        pieces.push(Piece::Text(rest))?;
        Ok(Replacement { pieces, source })
    }

    /// Adds to `written` what the replacement text stands for at a match.
    ///
    /// Asks that the match lies in `text`, as one that was found there does. Errs with `OutOfMemory` alone; then a part of it
    /// may have been added.
    ///
    /// ```rust
    /// replacement.write(&found, text, &mut written)?;
    /// ```
    pub fn write(&self, found: &Match, text: &str, written: &mut String) -> Result<(), Error>
        requires { LiesInText text.now found.now }
        ensures added { OnOk result (string_bytes written.new ≡ string_bytes written.old
            ++ expansion (names_of_match found.now) (source_of self.now) text.now (item_of found.now)) }
        ensures refused { IsOkUnless result Error.OutOfMemory }
    {
        for piece in &self.pieces {
            written.push_str(given(piece, found, text))?;
        }
        Ok(())
    }
}
