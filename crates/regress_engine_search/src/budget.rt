//! How many steps runs may take.
ghost use Rattle.std.specs.Prelude.{◌≡◌, ◌+◌, ℕ, Option, None, Some, IfSome};
ghost use Rattle.regress_engine_search.specs.Budgets.{counted};

/// What the steps of runs are counted against.
pub trait Budget {
    // how many steps may still be counted, if there is a bound
    ghost left: { Self → Option ℕ };

    /// Counts a step and so many more, and answers whether all of them may still be counted. Where they may not, no step may be
    /// counted from then on. Where there is a bound, no more are to be counted then.
    ///
    /// ```rust
    /// let may_go_on = budget.count(&mut more);
    /// ```
    fn count(&mut self, more: &mut usize) -> bool
        ensures counted { (result, left self.new) ≡ counted (1 + more.old) (left self.old) }
        ensures over { IfSome (left self.new) (λ _. more.new ≡ 0) };
}

/// No bound: nothing is counted.
///
/// ```rust
/// let mut budget = Unbounded;
/// ```
#[derive(Clone, Copy, Debug)]
pub struct Unbounded;

impl Budget for Unbounded {
    ghost left = { λ b. None };

    #[inline(always)]
    fn count(&mut self, _more: &mut usize) -> bool {
        true
    }
}

/// So many steps may still be counted.
///
/// ```rust
/// let mut budget = StepsLeft(1_000_000);
/// ```
#[derive(Clone, Copy, Debug)]
pub struct StepsLeft(pub usize);

impl Budget for StepsLeft {
    ghost left = { λ b. Some b.0 };

    #[inline(always)]
    fn count(&mut self, more: &mut usize) -> bool {
        let may_go_on = *more < self.0;
        self.0 = self.0.saturating_sub(*more).saturating_sub(1);
        *more = 0;
        may_go_on
    }
}

/// How a run or a search ends.
///
/// ```rust
/// let ended = Ended::With(Some(3));
/// ```
#[derive(Clone, Copy, Debug)]
pub enum Ended<T> {
    /// It was made to its end: with an answer, or with none.
    With(Option<T>),
    /// No more steps may be counted.
    TooManySteps,
}
