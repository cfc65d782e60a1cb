//! The named groups of a match, as templates ask for them.
ghost use Rattle.std.specs.Prelude.{◌≡◌};
ghost use Rattle.regress_match.specs.Views.{item_of};
ghost use Rattle.regress_match.specs.GroupViews.{names_of_match};
ghost use Rattle.regress_match.specs.NamedRanges.{named_taken};
ghost use Rattle.regress_match.specs.TextRanges.{LiesInText};
ghost use Rattle.regress_replacing.specs.Replacing.{part_at};
ghost use Rattle.regress_replacing.specs.Substitution.{is_some_named};

use regress_match::Match;

/// Whether some group of the pattern that found a match has a name.
pub(crate) fn is_some_named(found: &Match) -> bool
    ensures { result ≡ is_some_named (names_of_match found.now) }
{
    found
        .group_names()
        .iter()
        .any(|name| !name.as_str().is_empty())
}

/// The text of the first group with a name that took part; none has the empty text.
pub(crate) fn text_taken<'t>(found: &Match, text: &'t str, name: &str) -> &'t str
    requires { LiesInText text.now found.now }
    ensures { result.now ≡ part_at text.now (named_taken (names_of_match found.now) (item_of found.now).groups name.now) }
{
    match found.name(name) {
        Some(range) => &text[range],
        None => "",
    }
}
