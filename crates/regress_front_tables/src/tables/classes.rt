//! The code points that have one image in a map of case.
ghost use Rattle.std.specs.Prelude.{◌≡◌, ◌≢◌, ◌==◌, ◌<◌, ◌≤◌, ◌/◌, ◌%◌, ℕ, All, IfOk, option_map, unwrap_or, vec_len, slice_index_or, length, None, true};
ghost use Rattle.std.specs.List.{Contains};
ghost use Rattle.std.specs.List.Sorted.{IsStrictlyIncreasing};
ghost use Rattle.regress_meaning.specs.Table.{code_points};
ghost use Rattle.regress_meaning.specs.TableParts.{image, is_code_point};
ghost use Rattle.regress_front_tables.specs.Folding.{IsCaseMap, IsClass, Lists, place_in};
ghost use Rattle.regress_front_tables.specs.Pages.{number_at};

use super::image::image;
use super::pages::{PAGE_COUNT, PAGE_SIZE, Page, Pages};
use regress_front_sets::{CODE_POINT_MAX, CodePoint};
use std::alloc::{AllocError, Global};

/// The classes of a map of case: the code points that have one image, where they are more than one.
#[derive(Drop)]
pub(crate) struct Classes {
    /// For the image of a class which of the lists has its members, counted from 1, and 0 for any other code point.
    numbers: Pages,
    /// The members of each class, from low to high.
    lists: Vec<Vec<CodePoint>>,
    ghost numbered: { (c : ℕ) → unwrap_or (number_at numbers c) 0 ≤ vec_len lists },
}

impl Classes {
    ghost use Rattle.regress_front_tables.specs.Classes.{class_at};

    /// The classes of the map with these pairs. Errs where memory is refused.
    pub(crate) fn new(
        alloc: Global,
        pairs: &[(CodePoint, CodePoint)],
    ) -> Result<Classes, AllocError>
        requires { IsCaseMap pairs.now }
        ensures { IfOk result (λ classes. (to : ℕ) → IsClass (image pairs.now) to (class_at classes to)) }
    {
        let images = shared_images(alloc, pairs)?;
        let numbers = number_pages(alloc, &images)?;
        let mut lists = Vec::new(alloc);
        for to in &images {
            lists.push(class_of(alloc, pairs, *to)?)?;
        }
        Ok(Classes { numbers, lists })
    }

    /// The code points that have this image, if they are more than one.
    pub(crate) fn get(&self, to: CodePoint) -> Option<&[CodePoint]>
        ensures { option_map (λ members. members.now) result ≡ class_at self.now to }
    {
        match self.numbers.get(to) {
            Some(number) if number > 0 => Some(self.lists[number as usize - 1].as_slice()),
            _ => None,
        }
    }

    /// How many classes there are.
    pub(crate) fn count(&self) -> usize
        ensures { result ≡ vec_len self.now.lists }
    {
        self.lists.len()
    }

    /// Whether no code point of the page of this one is the image of a class, so that no page is kept for it.
    pub(crate) fn is_unpaged(&self, c: CodePoint) -> bool
        ensures { result ≡ true → (d : ℕ) → d / 256 ≡ c / 256 → class_at self.now d ≡ None }
    {
        self.numbers.get(c).is_none()
    }
}

/// The images of other code points than themselves, from low to high.
fn shared_images(
    alloc: Global,
    pairs: &[(CodePoint, CodePoint)],
) -> Result<Vec<CodePoint>, AllocError>
    requires { IsCaseMap pairs.now }
    ensures rise { IfOk result (λ images. IsStrictlyIncreasing images.items) }
    ensures own { IfOk result (λ images. All (λ d. is_code_point d × (image pairs.now d ≡ d)) images.items) }
    ensures all { IfOk result (λ images. (c : ℕ) → image pairs.now c ≢ c → Contains images.items (image pairs.now c)) }
{
    let mut images: Vec<CodePoint> = pairs
        .iter()
        .filter(|pair| pair.0 != pair.1)
        .map(|pair| pair.1)
        .collect(alloc)?;
    images.sort_unstable();
    images.dedup();
    Ok(images)
}

/// The code points that a map takes to where it takes this one, from low to high.
fn class_of(
    alloc: Global,
    pairs: &[(CodePoint, CodePoint)],
    c: CodePoint,
) -> Result<Vec<CodePoint>, AllocError>
    requires lawful { IsCaseMap pairs.now }
    requires code_point { c ≤ CODE_POINT_MAX }
    ensures { IfOk result (λ cs. Lists (λ d. image pairs.now d == image pairs.now c) cs.items) }
{
    let to = image(pairs, c);
    let mut class: Vec<CodePoint> = pairs
        .iter()
        .filter(|pair| pair.1 == to)
        .map(|pair| pair.0)
        .collect(alloc)?;
    if let Err(place) = class.binary_search(&to) {
        class.insert(place, to)?;
    }
    Ok(class)
}

/// The places of code points in a list, counted from 1, by pages, and 0 for the others.
fn number_pages(alloc: Global, images: &[CodePoint]) -> Result<Pages, AllocError>
    requires rise { IsStrictlyIncreasing images.now }
    requires range { All (λ d. is_code_point d) images.now }
    ensures { IfOk result (λ numbers. (c : ℕ) → unwrap_or (number_at numbers c) 0 ≡ place_in images.now c) }
{
    let mut numbers = Pages::new(alloc);
    for n in 0..PAGE_COUNT {
        numbers.push(number_page(alloc, images, n)?)?;
    }
    Ok(numbers)
}

/// The places of the code points of a page in a list, if one of them is there.
fn number_page(alloc: Global, images: &[CodePoint], n: u32) -> Result<Option<Page>, AllocError>
    requires rise { IsStrictlyIncreasing images.now }
    requires few { length images.now ≤ code_points }
    requires place { n < 4352 }
    ensures { IfOk result (λ page. (c : ℕ) → c / 256 ≡ n
        → unwrap_or (option_map (λ p. slice_index_or p.numbers.items (c % 256) 0) page) 0 ≡ place_in images.now c) }
{
    if let Err(_) = images.binary_search_by_key(&n, |c| c / PAGE_SIZE) {
        return Ok(None);
    }
    let first = n * PAGE_SIZE;
    let numbers = (first..first + PAGE_SIZE)
        .map(|c| place(images, c))
        .collect(alloc)?;
    Ok(Some(Page { numbers }))
}

/// The place of a code point in a list, counted from 1, and 0 where it is not there.
fn place(images: &[CodePoint], c: CodePoint) -> u32
    requires rise { IsStrictlyIncreasing images.now }
    requires few { length images.now ≤ code_points }
    ensures { result ≡ place_in images.now c }
{
    match images.binary_search(&c) {
        Ok(place) => place as u32 + 1,
        Err(_) => 0,
    }
}
