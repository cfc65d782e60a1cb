//! Facts of addresses, of which each stands once for the addresses that share it.
ghost use Rattle.std.specs.Prelude.{◌≡◌, ◌<◌, length, All};

use crate::facts::Facts;
use std::alloc::{AllocError, Global};

/// Facts of each address of a program. A literal has an address for each character, and few characters, so addresses with the
/// same facts may share them.
#[derive(Debug, Drop)]
pub(crate) struct SharedFacts {
    facts: Vec<Facts>,
    /// Of each address, where its facts stand.
    places: Vec<u32>,
    ghost within: { All (λ k. k < length facts.items) places.items },
}

/// There is room for so many facts at first, so that a short program asks for memory once.
const FEW: usize = 16;

impl SharedFacts {
    ghost use Rattle.std.specs.Prelude.{ℕ, IfOk, OnOk, slice_set, get_or, replicate};
    ghost use Rattle.regress_engine_analysis.specs.Shared.{no_facts, shared};

    /// So many addresses with the same facts.
    pub(crate) fn new(alloc: Global, facts: Facts, count: usize) -> Result<SharedFacts, AllocError>
        ensures { IfOk result (λ s. shared s ≡ replicate count facts) }
    {
        let mut places = Vec::new(alloc);
        places.resize(count, 0)?;
        let mut shared = Vec::with_capacity(alloc, count.min(FEW) + 1)?;
        shared.push(facts)?;
        Ok(SharedFacts {
            facts: shared,
            places,
        })
    }

    /// How many addresses there are.
    #[inline(always)]
    pub(crate) fn len(&self) -> usize
        ensures { result ≡ length (shared self.now) }
    {
        self.places.len()
    }

    /// The facts of an address.
    #[inline(always)]
    pub(crate) fn at(&self, at: usize) -> &Facts
        requires { at < length (shared self.now) }
        ensures { result.now ≡ get_or (shared self.now) at no_facts }
    {
        &self.facts[self.places[at] as usize]
    }

    /// Gives an address facts of its own. It errs where memory is refused, and past 2^32 facts.
    pub(crate) fn put(&mut self, at: usize, facts: Facts) -> Result<(), AllocError>
        requires { at < length (shared self.old) }
        ensures { OnOk result (shared self.new ≡ slice_set (shared self.old) at facts) }
    {
        let Ok(place) = u32::try_from(self.facts.len()) else {
            return Err(AllocError);
        };
        self.facts.push(facts)?;
        self.places[at] = place;
        Ok(())
    }

    /// Gives an address the facts of another.
    pub(crate) fn share(&mut self, at: usize, other: usize)
        requires at { at < length (shared self.old) }
        requires other { other < length (shared self.old) }
        ensures { shared self.new ≡ slice_set (shared self.old) at (get_or (shared self.old) other no_facts) }
    {
        self.places[at] = self.places[other];
    }

    /// The same facts once more. It errs only where memory is refused.
    pub(crate) fn try_clone(&self, alloc: Global) -> Result<SharedFacts, AllocError>
        ensures { IfOk result (λ copy. shared copy ≡ shared self.now) }
    {
        Ok(SharedFacts {
            facts: self.facts.to_vec(alloc)?,
            places: self.places.to_vec(alloc)?,
        })
    }
}
