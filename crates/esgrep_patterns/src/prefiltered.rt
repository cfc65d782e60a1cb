//! Regexes, and where a match of the only one may begin.
ghost use Rattle.std.specs.Prelude.{◌≡◌, true, IfSome};
ghost use Rattle.std.specs.Option.{ForSome};
ghost use Rattle.esgrep_patterns.specs.Candidates.{looks_ahead, start_of, IsOfOne};

use regress::Regex;
use regress_engine_prefix::StartPredicate;
use regress_engine_search::Prefilter;

/// Regexes, and what looks for where a match of the only one may begin.
#[derive(Drop)]
pub(crate) struct Prefiltered<'r> {
    pub regexes: &'r [Regex],
    /// There where there is one regex, and the bytes from an offset on tell whether a match of it may begin there.
    pub prefilter: Option<Prefilter<'r>>,
    ghost told: { ForSome prefilter (IsOfOne regexes.now) },
}

impl<'r> Prefiltered<'r> {
    /// These regexes.
    pub fn new(regexes: &'r [Regex]) -> Prefiltered<'r>
        ensures { result.regexes.now ≡ regexes.now }
    {
        let prefilter = match regexes {
            [regex] => prefilter_of(regex),
            _ => None,
        };
        Prefiltered { regexes, prefilter }
    }
}

/// Whether a start predicate speaks of the bytes from an offset on alone.
fn looks_ahead(start: &StartPredicate) -> bool
    ensures { result ≡ looks_ahead start.now }
{
    match start {
        StartPredicate::Arbitrary | StartPredicate::StartAnchored | StartPredicate::WordStart(_) =>
            false,
        _ => true,
    }
}

/// What looks for where a match of a regex may begin, where the bytes from there on tell it.
fn prefilter_of(regex: &Regex) -> Option<Prefilter<'_>>
    ensures { IfSome result (λ prefilter. (prefilter.start.now ≡ start_of regex.now) × (looks_ahead prefilter.start.now ≡ true)) }
{
    let start = regex.compiled().byte_program.start_pred();
    if looks_ahead(start) {
        Some(Prefilter::new(start))
    } else {
        None
    }
}
