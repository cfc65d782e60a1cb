//! A map of case, by pages.
ghost use Rattle.std.specs.Prelude.{◌≡◌, ◌<◌, ◌/◌, ◌%◌, ℕ, true, IfOk, option_map, unwrap_or, slice_index_or};
ghost use Rattle.regress_meaning.specs.TableParts.{image};
ghost use Rattle.regress_front_tables.specs.CaseMaps.{listed_image, told_at, pairs_in};
ghost use Rattle.regress_front_tables.specs.Folding.{IsCaseMap, IsCaseMap-prop, IsClass, IsClass-prop};
ghost use Rattle.regress_front_tables.specs.Classes.{class_at};

use super::classes::Classes;
use super::pages::{PAGE_COUNT, PAGE_SIZE, Page, Pages};
use regress_front_sets::CodePoint;
use std::alloc::{AllocError, Global};
use std::fmt;

/// A map of case: each code point has an image, mostly itself. It is made of pairs, each a code point with its image, and what
/// is in no pair is its own image.
#[derive(Drop)]
pub(crate) struct CaseMap {
    /// The image of each code point that is in a pair, counted from 1, and 0 for any other. Where no code point of a page is in
    /// a pair, there is no page.
    images: Pages,
    pub(crate) ghost lawful: { IsCaseMap (pairs_in images) } by { IsCaseMap-prop (pairs_in images) },
    ghost told: { (c : ℕ) → told_at images c ≡ listed_image (pairs_in images) c },
    /// The code points of each image that more than one has.
    classes: Classes,
    ghost gathered: { (to : ℕ) → IsClass (image (pairs_in images)) to (class_at classes to) } by { Prim.hlevel (IsClass-prop (image (pairs_in images))) },
}

impl CaseMap {
    ghost use Rattle.regress_front_tables.specs.MapViews.{pairs_of};

    /// The map with these pairs. Errs where memory is refused.
    pub(crate) fn new(
        alloc: Global,
        pairs: &[(CodePoint, CodePoint)],
    ) -> Result<CaseMap, AllocError>
        requires { IsCaseMap pairs.now }
        ensures { IfOk result (λ map. pairs_of map ≡ pairs.now) }
    {
        let images = image_pages(alloc, pairs)?;
        let classes = Classes::new(alloc, pairs)?;
        Ok(CaseMap { images, classes })
    }

    /// The image of a code point.
    pub(crate) fn image(&self, c: CodePoint) -> CodePoint
        ensures { result ≡ image (pairs_of self.now) c }
    {
        match self.images.get(c) {
            Some(image) if image > 0 => image - 1,
            _ => c,
        }
    }

    /// The code points with this image, from low to high, if they are more than one.
    pub(crate) fn class(&self, to: CodePoint) -> Option<&[CodePoint]>
        ensures { IsClass (image (pairs_of self.now)) to (option_map (λ members. members.now) result) }
    {
        self.classes.get(to)
    }

    /// Whether each code point of the page of this one is the only one with its image, so that no page is kept for it.
    pub(crate) fn is_alone(&self, c: CodePoint) -> bool
        ensures { result ≡ true → (d e : ℕ) → d / 256 ≡ c / 256
            → image (pairs_of self.now) e ≡ image (pairs_of self.now) d → e ≡ d }
    {
        self.images.get(c).is_none() && self.classes.is_unpaged(c)
    }

    /// Where its memory is from.
    pub(crate) fn allocator(&self) -> Global {
        self.images.allocator()
    }
}

/// How many pages and classes there are.
impl fmt::Debug for CaseMap {
    fn fmt<W: fmt::Write>(&self, f: &mut fmt::Formatter<W>) -> fmt::Result {
        f.debug_struct("CaseMap")
            .field("pages", &self.images.count())
            .field("classes", &self.classes.count())
            .finish()
    }
}

/// The images of the code points that are in pairs, counted from 1, by pages, and 0 for the others.
fn image_pages(alloc: Global, pairs: &[(CodePoint, CodePoint)]) -> Result<Pages, AllocError>
    requires { IsCaseMap pairs.now }
    ensures { IfOk result (λ images. (c : ℕ) → told_at images c ≡ listed_image pairs.now c) }
{
    let mut images = Pages::new(alloc);
    for n in 0..PAGE_COUNT {
        images.push(image_page(alloc, pairs, n)?)?;
    }
    Ok(images)
}

/// The images of the code points of a page, if one of them is in a pair.
fn image_page(
    alloc: Global,
    pairs: &[(CodePoint, CodePoint)],
    n: u32,
) -> Result<Option<Page>, AllocError>
    requires lawful { IsCaseMap pairs.now }
    requires place { n < 4352 }
    ensures { IfOk result (λ page. (c : ℕ) → c / 256 ≡ n
        → unwrap_or (option_map (λ p. slice_index_or p.numbers.items (c % 256) 0) page) 0 ≡ listed_image pairs.now c) }
{
    if let Err(_) = pairs.binary_search_by_key(&n, |pair| pair.0 / PAGE_SIZE) {
        return Ok(None);
    }
    let first = n * PAGE_SIZE;
    let numbers = (first..first + PAGE_SIZE)
        .map(|c| listed_image(pairs, c))
        .collect(alloc)?;
    Ok(Some(Page { numbers }))
}

/// The image of a code point that is in a pair, counted from 1, and 0 for any other.
fn listed_image(pairs: &[(CodePoint, CodePoint)], c: CodePoint) -> u32
    requires { IsCaseMap pairs.now }
    ensures { result ≡ listed_image pairs.now c }
{
    match pairs.binary_search_by_key(&c, |pair| pair.0) {
        Ok(place) => pairs[place].1 + 1,
        Err(_) => 0,
    }
}
