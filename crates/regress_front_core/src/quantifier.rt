//! How often something is matched.
ghost use Rattle.std.specs.Prelude.{◌≡◌, ◌<◌};
ghost use Rattle.std.specs.Option.{ForSome};
ghost use Rattle.regress_meaning.specs.Tokens.{greatest};

/// How often something is matched one after another ("Quantifier").
///
/// No limit is always `None`, never `Some(usize::MAX)`: counts stop at `usize::MAX`, which is no limit, so two quantifiers
/// mean the same only if they are equal.
#[derive(Debug, Clone, Copy, Drop)]
pub struct Quantifier {
    /// At least so often.
    pub min: usize,
    /// At most so often; `None` for any number of times.
    pub max: Option<usize>,
    /// Whether more is preferred to less.
    pub greedy: bool,
    pub ghost limit: { ForSome max (λ most. most < greatest) },
}

impl Quantifier {
    ghost use Rattle.regress_front_core.specs.Quantifiers.{most};

    /// The quantifier of something that is matched at least `min` times and at most `max` times, where `usize::MAX` is no
    /// limit, and more is preferred to less if it is `greedy`. `a{2,3}?` has `Quantifier::new(2, 3, false)`, and `a*` has
    /// `Quantifier::new(0, usize::MAX, true)`, whose `max` is `None`.
    pub fn new(min: usize, max: usize, greedy: bool) -> Quantifier
        ensures min { result.min ≡ min }
        ensures most { most result ≡ max }
        ensures greedy { result.greedy ≡ greedy }
    {
        let max = if max < usize::MAX { Some(max) } else { None };
        Quantifier { min, max, greedy }
    }

    /// How often it may be matched at most: `max`, or `usize::MAX` where there is no limit. `Quantifier::new(2, 3, true).most()`
    /// is 3.
    pub fn most(self) -> usize
        ensures { result ≡ most self }
    {
        self.max.unwrap_or(usize::MAX)
    }
}
