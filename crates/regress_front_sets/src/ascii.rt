//! The ASCII members of sets.
ghost use Rattle.std.specs.Prelude.{◌≡◌, ◌↔◌, ◌<◌, ◌||◌, ◌&&◌, ℕ, nat_lt, IsTrue};
ghost use Rattle.regress_front_bytes.specs.Bitmaps.{ascii_bitmap_contains};
ghost use Rattle.regress_front_sets.specs.Intervals.{in_interval};
ghost use Rattle.regress_front_sets.specs.Sets.{in_set};

use crate::code_point_set::CodePointSet;
use crate::interval::Interval;
use regress_front_bytes::{AsciiBitmap, ascii_bitmap_holds_ascii};

/// Adds the ASCII characters of an interval.
fn add_ascii(bitmap: &mut AsciiBitmap, interval: Interval)
    ensures { (b : ℕ) → b < 0x80 → ascii_bitmap_contains bitmap.new b ≡ ascii_bitmap_contains bitmap.old b || in_interval interval b }
{
    for point in interval.first..interval.last.min(0x7F) + 1 {
        bitmap.set(point as u8);
    }
}

impl CodePointSet {
    /// Whether all members are ASCII, as those of the empty set are: `CodePointSet::new(alloc).is_ascii()` is true.
    pub fn is_ascii(&self) -> bool
        ensures { IsTrue result ↔ ((c : ℕ) → IsTrue (in_set self.now c) → c < 0x80) }
    {
        match self.intervals().last() {
            Some(highest) => highest.last < 0x80,
            None => true,
        }
    }

    /// The members that are ASCII: of the set of 40 to 4FF (hexadecimal) they are those from `b'@'` on.
    pub fn ascii_members(&self) -> AsciiBitmap
        ensures { (c : ℕ) → ascii_bitmap_contains result c ≡ nat_lt c 0x80 && in_set self.now c }
    {
        let mut bitmap = AsciiBitmap::default();
        for interval in self.intervals() {
            if interval.first >= 0x80 {
                break;
            }
            add_ascii(&mut bitmap, *interval);
        }
        ascii_bitmap_holds_ascii(&bitmap);
        bitmap
    }
}
