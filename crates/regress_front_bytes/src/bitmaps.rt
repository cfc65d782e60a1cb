//! Sets of bytes with a bit for each.
ghost use Rattle.std.specs.Prelude.{◌≡◌, ℕ, ◌<◌, ◌≤◌, ◌==◌, ◌||◌, not, false, length, position};
ghost use Rattle.regress_meaning.specs.Text.{holds};
ghost use Rattle.regress_front_bytes.specs.ByteSets.{has_bit, members};
ghost use Rattle.regress_front_bytes.specs.Bitmaps.{ascii_bitmap_contains, byte_bitmap_contains};

use crate::byte_search::{ByteSearcher, ByteSet, find_by_fours};

/// A set of bytes under 0x80, which is empty by default.
#[derive(Clone, Copy, Debug)]
pub struct AsciiBitmap([u8; 16]);

impl Default for AsciiBitmap {
    ghost is_default = { λ bitmap. (b : ℕ) → ascii_bitmap_contains bitmap b ≡ false };

    fn default() -> Self {
        AsciiBitmap([0; 16])
    }
}

impl AsciiBitmap {
    /// Adds the byte `val`, which is under 0x80. After `set.set(b'a')` the set holds `b'a'`.
    pub fn set(&mut self, val: u8)
        requires { val < 128 }
        ensures { (b : ℕ) → ascii_bitmap_contains self.new b
            ≡ ascii_bitmap_contains self.old b || val == b }
    {
        self.0[usize::from(val / 8)] |= 1 << (val % 8);
    }

    /// Its rows of eight bits: bit `b % 8` of the row `b / 8` is that of the byte `b`. A set of `b'a'` alone has the bit 1 in row 12.
    #[inline(always)]
    pub fn rows(&self) -> &[u8; 16]
        ensures { (b : ℕ) → ascii_bitmap_contains self.now b ≡ has_bit 8 result.now b }
    {
        &self.0
    }

    /// The set of the bytes under 0x80 that are no members: `AsciiBitmap::default().inverted()` holds all of these.
    pub fn inverted(&self) -> AsciiBitmap
        ensures { (b : ℕ) → b < 0x80 → ascii_bitmap_contains result b ≡ not (ascii_bitmap_contains self.now b) }
    {
        let mut inverted = *self;
        for row in inverted.0.iter_mut() {
            *row = !*row;
        }
        inverted
    }
}

impl ByteSet for AsciiBitmap {
    ghost contains = { ascii_bitmap_contains };

    fn contains(&self, b: u8) -> bool {
        b < 0x80 && self.0[usize::from(b / 8)] >> (b % 8) & 1 == 1
    }
}

/// The members of an `AsciiBitmap` are ASCII. Nothing here runs: the contract states it.
pub fn ascii_bitmap_holds_ascii(bitmap: &AsciiBitmap)
    ensures { (c : ℕ) → 0x80 ≤ c → ascii_bitmap_contains bitmap.now c ≡ false }
{
    let _rows = &bitmap.0;
}

/// A set of bytes, which is empty by default.
#[derive(Clone, Copy, Debug)]
pub struct ByteBitmap([u16; 16]);

impl Default for ByteBitmap {
    ghost is_default = { λ bitmap. (b : ℕ) → byte_bitmap_contains bitmap b ≡ false };

    fn default() -> Self {
        ByteBitmap([0; 16])
    }
}

impl ByteBitmap {
    /// The set of these bytes: `ByteBitmap::new(b"ab")` holds `b'a'` and `b'b'`.
    pub fn new(bytes: &[u8]) -> ByteBitmap
        ensures { (b : ℕ) → byte_bitmap_contains result b ≡ holds bytes.now b }
    {
        let mut bitmap = ByteBitmap::default();
        for byte in bytes {
            bitmap.set(*byte);
        }
        bitmap
    }

    /// Whether the byte `val` is a member: `ByteBitmap::new(b"ab").contains(b'b')` is true.
    pub fn contains(&self, val: u8) -> bool
        ensures { result ≡ byte_bitmap_contains self.now val }
    {
        self.0[usize::from(val / 16)] >> (val % 16) & 1 == 1
    }

    /// Its rows of sixteen bits: bit `b % 16` of the row `b / 16` is that of the byte `b`. `ByteBitmap::new(b"a")` has the bit 1 in row 6.
    #[inline(always)]
    pub fn rows(&self) -> &[u16; 16]
        ensures { (b : ℕ) → byte_bitmap_contains self.now b ≡ has_bit 16 result.now b }
    {
        &self.0
    }

    /// Adds the byte `val`. After `set.set(0xFF)` the set holds `0xFF`.
    pub fn set(&mut self, val: u8)
        ensures { (b : ℕ) → byte_bitmap_contains self.new b
            ≡ byte_bitmap_contains self.old b || val == b }
    {
        self.0[usize::from(val / 16)] |= 1 << (val % 16);
    }

    /// Adds the members of `rhs`. After `set.bitor(&ByteBitmap::new(b"ab"))` the set holds `b'a'` and `b'b'`.
    pub fn bitor(&mut self, rhs: &ByteBitmap)
        ensures { (b : ℕ) → byte_bitmap_contains self.new b
            ≡ byte_bitmap_contains self.old b || byte_bitmap_contains rhs.now b }
    {
        for (i, row) in rhs.0.iter().enumerate() {
            self.0[i] |= *row;
        }
    }

    /// Makes members of all bytes that were none, and of no other. It answers the set itself: of a set of two bytes
    /// `set.bitnot().count_bits()` is 254.
    pub fn bitnot(&mut self) -> &mut Self
        ensures same { result.ghost_name ≡ self.entry.ghost_name }
        ensures complement { (b : ℕ) → b < 256 →
            byte_bitmap_contains result.now b ≡ not (byte_bitmap_contains self.old b) }
    {
        for row in self.0.iter_mut() {
            *row = !*row;
        }
        self
    }

    /// How many members there are: `ByteBitmap::new(b"cac").count_bits()` is 2.
    pub fn count_bits(&self) -> u32
        ensures { result ≡ length (members (byte_bitmap_contains self.now)) }
    {
        let mut count = 0;
        for row in &self.0 {
            count += row.count_ones();
        }
        count
    }

    /// The members, ascending. `N` is how many there are: `ByteBitmap::new(b"cac").as_array::<2>()` is `*b"ac"`.
    pub fn as_array<const N: usize>(&self) -> [u8; N]
        requires { N ≡ length (members (byte_bitmap_contains self.now)) }
        ensures { result ≡ members (byte_bitmap_contains self.now) }
    {
        let mut array = [0; N];
        let mut filled = 0;
        for byte in 0..=u8::MAX {
            if self.contains(byte) {
                array[filled] = byte;
                filled += 1;
            }
        }
        array
    }
}

impl ByteSet for ByteBitmap {
    ghost contains = { byte_bitmap_contains };

    fn contains(&self, b: u8) -> bool {
        ByteBitmap::contains(self, b)
    }
}

impl ByteSearcher for ByteBitmap {
    ghost find_in = { λ bitmap. position (byte_bitmap_contains bitmap) };

    fn find_in(&self, rhs: &[u8]) -> Option<usize> {
        find_by_fours(self, rhs)
    }
}
