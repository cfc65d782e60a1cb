//! Budgets of searches.
ghost use Rattle.std.specs.Prelude.{◌≡◌, false, true, Some, None, IfSome, alloc_error};
ghost use Rattle.regress_engine_exec.specs.Turned.{has_steps};

use crate::error::SearchError;
use regress_engine_search::{Budget, StepsLeft, Unbounded};
use std::alloc::AllocError;

/// What the steps of searches are counted against, with the error of a search that may take no more.
pub trait SearchBudget: Budget + Copy {
    /// Why a search ends early: refused memory is one reason.
    type Error: From<AllocError> + Drop;

    // the error says that no more steps may be counted
    ghost is_over: { Self.Error → Type 0 };

    /// The error of a search where no more steps may be counted; `None` where any number may.
    ///
    /// ```rust
    /// let error = budget.over();
    /// ```
    fn over(&self) -> Option<Self::Error>
        ensures over { IfSome result is_over }
        ensures none { result ≡ None → Self.left self.now ≡ Some 0 → ⊥ };

    /// Lowers the budget to so many steps, if it has so many and a bound. It answers whether it did; if not, the budget stays as it was.
    ///
    /// ```rust
    /// let mut budget = StepsLeft(1_000);
    /// let is_lowered = budget.lower(10);
    /// ```
    fn lower(&mut self, steps: usize) -> bool
        ensures lowered { result ≡ has_steps (Self.left self.old) steps }
        ensures left { result ≡ true → Self.left self.new ≡ Some steps }
        ensures kept { result ≡ false → self.new ≡ self.old };

    // that memory is refused says something else
    ghost refused: { (e : Self.Error) → Self.Error.from_gives alloc_error e → is_over e → ⊥ };
}

impl SearchBudget for Unbounded {
    type Error = AllocError;

    ghost is_over = { λ _. ⊥ };

    #[inline]
    fn over(&self) -> Option<AllocError> {
        None
    }

    fn lower(&mut self, _steps: usize) -> bool {
        false
    }

    ghost refused = { λ e from over. over };
}

impl SearchBudget for StepsLeft {
    ghost use Rattle.std.proofs.Common.{rules};
    ghost use Rattle.regress_engine_exec.specs.declared.error.SearchError.TheVariants.{TooManySteps};

    type Error = SearchError;

    ghost is_over = { λ e. e ≡ TooManySteps };

    #[inline]
    fn over(&self) -> Option<SearchError> {
        Some(SearchError::TooManySteps)
    }

    fn lower(&mut self, steps: usize) -> bool {
        if self.0 < steps {
            return false;
        }
        self.0 = steps;
        true
    }

    ghost refused = { Prim.search rules };
}
