//! Searches for the first byte of a set.
ghost use Rattle.std.specs.Prelude.{◌≡◌, ℕ, Bool, List, Option, Some, position};
ghost use Rattle.regress_meaning.specs.Text.{holds};

use regress_front_core::MAX_CHAR_SET_LENGTH;

/// What is looked for in bytes. It is found at an index or not at all.
pub trait ByteSearcher {
    // the index at which it is found in bytes
    ghost find_in: { Self → List ℕ → Option ℕ };

    /// The first index in `rhs` at which this is found, or `None` where it is nowhere. Of a set of bytes it is the first
    /// index of a member: `b"cb".find_in(b"abc")` is `Some(1)`.
    fn find_in(&self, rhs: &[u8]) -> Option<usize>
        ensures { result ≡ find_in self.now rhs.now };
}

/// A set of bytes.
pub trait ByteSet {
    // a byte is a member
    ghost contains: { Self → ℕ → Bool };

    /// Whether the byte `b` is a member. Of an `AsciiBitmap` the answer is false for all bytes from 0x80 on.
    fn contains(&self, b: u8) -> bool
        ensures { result ≡ contains self.now b };
}

/// A set of few bytes, held in an array.
pub trait SmallArraySet: Copy {
    // a byte is a member
    ghost contains: { Self → ℕ → Bool };

    /// Whether the byte `b` is a member, as `b'a'` is of `*b"ab"`.
    fn contains(self, b: u8) -> bool
        ensures { result ≡ contains self b };

    /// The first index in `rhs` of a member, or `None` where there is none: of `*b"xyc"` in `b"abc"` it is `Some(2)`.
    fn find_in(self, rhs: &[u8]) -> Option<usize>
        ensures { result ≡ position (contains self) rhs.now };
}

/// The set of the bytes in an array.
#[derive(Clone, Copy, Debug)]
pub struct ByteArraySet<ArraySet: SmallArraySet>(pub ArraySet);

/// The empty string, which is found at index 0 of all bytes, also of none.
#[derive(Clone, Copy, Debug)]
pub struct EmptyString;

/// The first index of a member, tested one after another.
fn first_of<Set: ByteSet>(set: &Set, bytes: &[u8]) -> Option<usize>
    ensures { result ≡ position (Set.contains set.now) bytes.now }
{
    bytes.iter().position(|b| set.contains(*b))
}

/// The first index of a member. Bytes are passed over by chunks of four, whose tests need not wait for one another.
pub(crate) fn find_by_fours<Set: ByteSet>(set: &Set, bytes: &[u8]) -> Option<usize>
    ensures { result ≡ position (Set.contains set.now) bytes.now }
{
    let mut rest = bytes;
    while let Some(([first, second, third, fourth], behind)) = rest.split_first_chunk::<4>() {
        if set.contains(*first)
            || set.contains(*second)
            || set.contains(*third)
            || set.contains(*fourth)
        {
            break;
        }
        rest = behind;
    }
    let index = first_of(set, rest)?;
    Some(bytes.len() - rest.len() + index)
}

/// Whether the character `c` is one of `set`: `charset_contains(&[0x41, 0x61, 0x61, 0x61], 0x61)` is true.
pub fn charset_contains(set: &[u32; MAX_CHAR_SET_LENGTH], c: u32) -> bool
    ensures { result ≡ holds set.now c }
{
    set.contains(&c)
}

impl ByteSet for [u8; 2] {
    ghost contains = { holds };

    fn contains(&self, b: u8) -> bool {
        let [first, second] = *self;
        b == first || b == second
    }
}

impl SmallArraySet for [u8; 2] {
    ghost contains = { holds };

    fn contains(self, b: u8) -> bool {
        ByteSet::contains(&self, b)
    }

    fn find_in(self, rhs: &[u8]) -> Option<usize> {
        find_by_fours(&self, rhs)
    }
}

impl ByteSet for [u8; 3] {
    ghost contains = { holds };

    fn contains(&self, b: u8) -> bool {
        let [first, second, third] = *self;
        b == first || b == second || b == third
    }
}

impl SmallArraySet for [u8; 3] {
    ghost contains = { holds };

    fn contains(self, b: u8) -> bool {
        ByteSet::contains(&self, b)
    }

    fn find_in(self, rhs: &[u8]) -> Option<usize> {
        find_by_fours(&self, rhs)
    }
}

impl ByteSet for [u8; 4] {
    ghost contains = { holds };

    fn contains(&self, b: u8) -> bool {
        let [first, second, third, fourth] = *self;
        b == first || b == second || b == third || b == fourth
    }
}

impl SmallArraySet for [u8; 4] {
    ghost contains = { holds };

    fn contains(self, b: u8) -> bool {
        ByteSet::contains(&self, b)
    }

    fn find_in(self, rhs: &[u8]) -> Option<usize> {
        find_by_fours(&self, rhs)
    }
}

impl<ArraySet: SmallArraySet> ByteArraySet<ArraySet> {
    /// Whether the byte `b` is a member: `ByteArraySet(*b"abc").contains(b'c')` is true.
    pub fn contains(self, b: u8) -> bool
        ensures { result ≡ ArraySet.contains self.0 b }
    {
        self.0.contains(b)
    }
}

impl<ArraySet: SmallArraySet> ByteSearcher for ByteArraySet<ArraySet> {
    ghost find_in = { λ set. position (ArraySet.contains set.0) };

    fn find_in(&self, rhs: &[u8]) -> Option<usize> {
        self.0.find_in(rhs)
    }
}

impl ByteSearcher for [u8; 1] {
    ghost find_in = { λ set. position (holds set) };

    fn find_in(&self, rhs: &[u8]) -> Option<usize> {
        rhs.iter().position(|b| self.as_slice().contains(b))
    }
}

impl ByteSearcher for [u8; 2] {
    ghost find_in = { λ set. position (holds set) };

    fn find_in(&self, rhs: &[u8]) -> Option<usize> {
        <[u8; 2] as SmallArraySet>::find_in(*self, rhs)
    }
}

impl ByteSearcher for [u8; 3] {
    ghost find_in = { λ set. position (holds set) };

    fn find_in(&self, rhs: &[u8]) -> Option<usize> {
        <[u8; 3] as SmallArraySet>::find_in(*self, rhs)
    }
}

impl ByteSearcher for EmptyString {
    ghost find_in = { λ _ _. Some 0 };

    fn find_in(&self, _rhs: &[u8]) -> Option<usize> {
        Some(0)
    }
}
