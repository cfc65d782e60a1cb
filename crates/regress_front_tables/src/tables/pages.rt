//! Numbers of code points, found by pages.
ghost use Rattle.std.specs.Prelude.{◌≡◌, ◌≤◌, ◌<◌, ◌+◌, ◌/◌, ◌%◌, ◌==◌, ℕ, All, vec_len, None, OnOk, option_map, slice_index_or, if◌then◌else◌};

use regress_front_sets::CodePoint;
use std::alloc::{AllocError, Global};

/// How many code points a page is about.
pub(crate) const PAGE_SIZE: u32 = 256;

/// How many pages all code points take.
pub(crate) const PAGE_COUNT: u32 = 4352;

/// The numbers of 256 code points, the first of which is a multiple of 256.
#[derive(Drop)]
pub(crate) struct Page {
    pub(crate) numbers: Vec<u32>,
    pub(crate) ghost full: { vec_len numbers ≡ 256 },
}

/// Numbers of code points. Only pages that are of use are kept.
#[derive(Drop)]
pub(crate) struct Pages {
    /// For each 256 code points which of the pages is theirs, counted from 1, and 0 where they have none.
    root: Vec<u16>,
    pages: Vec<Page>,
    ghost named: { All (λ k. k ≤ vec_len pages) root.items },
}

impl Pages {
    ghost use Rattle.regress_front_tables.specs.Pages.{number_at};

    /// No pages, for no code points.
    pub(crate) fn new(alloc: Global) -> Pages
        ensures root { vec_len result.root ≡ 0 }
        ensures pages { vec_len result.pages ≡ 0 }
        ensures numbers { (c : ℕ) → number_at result c ≡ None }
    {
        Pages {
            root: Vec::new(alloc),
            pages: Vec::new(alloc),
        }
    }

    /// Gives the next 256 code points a page, or none. Errs where memory is refused.
    pub(crate) fn push(&mut self, page: Option<Page>) -> Result<(), AllocError>
        requires { vec_len self.old.pages < 4352 }
        ensures root { OnOk result (vec_len self.new.root ≡ vec_len self.old.root + 1) }
        ensures pages { OnOk result (vec_len self.new.pages ≤ vec_len self.old.pages + 1) }
        ensures numbers { OnOk result ((c : ℕ) → number_at self.new c
            ≡ (if c / 256 == vec_len self.old.root then option_map (λ p. slice_index_or p.numbers.items (c % 256) 0) page
            else number_at self.old c)) }
    {
        let mut number = 0;
        if let Some(page) = page {
            self.pages.push(page)?;
            number = self.pages.len() as u16;
        }
        Ok(self.root.push(number)?)
    }

    /// Where their memory is from.
    pub(crate) fn allocator(&self) -> Global {
        *self.root.allocator()
    }

    /// How many pages are kept.
    pub(crate) fn count(&self) -> usize
        ensures { result ≡ vec_len self.now.pages }
    {
        self.pages.len()
    }

    /// The number of a code point, if it has a page.
    pub(crate) fn get(&self, c: CodePoint) -> Option<u32>
        ensures { result ≡ number_at self.now c }
    {
        match self.root.get((c / PAGE_SIZE) as usize) {
            Some(page) if *page > 0 => {
                Some(self.pages[*page as usize - 1].numbers[(c % PAGE_SIZE) as usize])
            }
            _ => None,
        }
    }
}
