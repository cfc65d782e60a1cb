//! The digits behind a `$` of a template.
ghost use Rattle.std.specs.Prelude.{◌≡◌, ◌∷◌, ◌++◌, ◌≤◌, ℕ, List, true, length, take, drop};
ghost use Rattle.std.specs.Char.{is_ascii_digit};
ghost use Rattle.regress_meaning.specs.Text.{is_at};
ghost use Rattle.regress_meaning.specs.Matches.{Item};
ghost use Rattle.regress_match.specs.Views.{item_of};
ghost use Rattle.regress_match.specs.GroupViews.{names_of_match};
ghost use Rattle.regress_match.specs.TextRanges.{LiesInText};
ghost use Rattle.regress_replacing.specs.Replacing.{number_after};
ghost use Rattle.regress_replacing.specs.Substitution.{number_read, substitution};
ghost use Rattle.regress_replacing.specs.Digits.{IsOneOrTwo, digits_give};

use crate::replacement::number;
use regress_match::Match;

/// One digit or two.
#[derive(Debug, Drop)]
pub(crate) struct Digits<'p> {
    text: &'p str,
    ghost few: { IsOneOrTwo text.now },
}

/// How many digits a text begins with, where it begins with one; two at most.
fn digit_count(text: &str) -> usize
    requires { is_at is_ascii_digit text.now ≡ true }
    ensures { result ≡ (number_after 0 (take 2 text.now)).1 }
{
    if let [_, second, ..] = text.as_bytes() {
        if second.is_ascii_digit() {
            return 2;
        }
    }
    1
}

/// The digits at the front of a text, two at most, and what stands behind them.
pub(crate) fn digits_at<'p>(text: &'p str) -> (Digits<'p>, &'p str)
    requires { is_at is_ascii_digit text.now ≡ true }
    ensures gives { (names : List (List ℕ)) → (searched : List ℕ) → (i : Item) →
        digits_give names searched i result.0.text.now ++ substitution names result.1.now searched i ≡ substitution names (0x24 ∷ text.now) searched i }
    ensures shorter { length result.1.now ≤ length text.now }
{
    let (digits, rest) = text.split_at(digit_count(text));
    (Digits { text: digits }, rest)
}

/// The number of a group, where there are so many, and the digits that are left: both digits are read, unless they write a
/// number past the last group.
fn group_number<'p>(digits: &Digits<'p>, groups: usize) -> (usize, &'p str)
    ensures number { result.0 ≡ (number_read groups digits.now.text.now).0 }
    ensures rest { result.1.now ≡ drop (number_read groups digits.now.text.now).1 digits.now.text.now }
{
    let (both, rest) = number(digits.text);
    if both <= groups {
        return (both, rest);
    }
    let (first, second) = digits.text.split_at(1);
    (number(first).0, second)
}

/// What a `$` and digits stand for at a match in a text, and the digits that stand for themselves behind that.
pub(crate) fn digits_give<'t>(
    digits: &Digits<'t>,
    found: &Match,
    text: &'t str,
) -> (&'t str, &'t str)
    requires { LiesInText text.now found.now }
    ensures { result.0.now ++ result.1.now ≡ digits_give (names_of_match found.now) text.now (item_of found.now) digits.now.text.now }
{
    let groups = found.captures.len();
    let (number, rest) = group_number(digits, groups);
    if number == 0 || number > groups {
        return ("$", digits.text);
    }
    (found.group_str(text, number).unwrap_or(""), rest)
}
