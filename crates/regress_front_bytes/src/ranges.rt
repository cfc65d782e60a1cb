//! Short ranges of code points, and what folding makes of them.
ghost use Rattle.std.specs.Prelude.{◌≡◌, ℕ, ◌+◌, ◌<◌, ◌≤◌, ◌↔◌, ◌+ℤ◌, ◌≤ℤ◌, pos, IfSome, IsSome};
ghost use Rattle.regress_front_bytes.specs.FoldSteps.{IsStep, LandsWithin};

/// Code points that follow one another: at least one, and at most 4095.
#[derive(Debug, Clone, Copy)]
pub struct CodePointRange {
    /// The first of them.
    pub start: u32,
    /// How many there are.
    pub len: u32,
    pub ghost low: { start < 0x10_0000 },
    pub ghost not_empty: { 1 ≤ len },
    pub ghost short: { len ≤ 4095 },
}

impl CodePointRange {
    /// The `len` code points from `start` on: `CodePointRange::from(0x41, 26)` has the capital letters of ASCII.
    pub const fn from(start: u32, len: u32) -> Self
        requires low { start < 0x10_0000 }
        requires not_empty { 1 ≤ len }
        requires short { len ≤ 4095 }
        ensures start { result.start ≡ start }
        ensures len { result.len ≡ len }
    {
        CodePointRange { start, len }
    }

    /// The first code point: 41 (hexadecimal) of the capital letters of ASCII.
    pub const fn first(self) -> u32
        ensures { result ≡ self.start }
    {
        self.start
    }

    /// The last code point: 5A (hexadecimal) of the capital letters of ASCII.
    pub const fn last(self) -> u32
        ensures { result + 1 ≡ self.start + self.len }
    {
        self.first() + self.len - 1
    }
}

/// Code points that folding moves by one distance: every `modulo`-th of a range, from its first on.
#[derive(Debug, Clone, Copy)]
pub struct FoldRange {
    /// The range.
    pub range: CodePointRange,
    /// How far up they are moved; down where it is negative.
    pub delta: i32,
    /// How far apart they stand, at least 1.
    pub modulo: u8,
    pub ghost apart: { 1 ≤ modulo },
    pub ghost lands: { (c : ℕ) → IsStep range.start range.len modulo c → LandsWithin c delta },
}

impl FoldRange {
    /// Moves by `delta` every `modulo`-th of the `length` code points from `start` on: `FoldRange::from(0x41, 26, 32, 1)` moves
    /// the capital letters of ASCII to the small ones.
    pub const fn from(start: u32, length: u32, delta: i32, modulo: u8) -> Self
        requires low { start < 0x10_0000 }
        requires not_empty { 1 ≤ length }
        requires short { length ≤ 4095 }
        requires apart { 1 ≤ modulo }
        requires lands { (c : ℕ) → IsStep start length modulo c → LandsWithin c delta }
        ensures start { result.range.start ≡ start }
        ensures length { result.range.len ≡ length }
        ensures delta { result.delta ≡ delta }
        ensures modulo { result.modulo ≡ modulo }
    {
        FoldRange {
            range: CodePointRange::from(start, length),
            delta,
            modulo,
        }
    }

    /// Where folding moves the code point `c`, or `None` where this range leaves it alone:
    /// `FoldRange::from(0x41, 26, 32, 1).apply(0x4B)` is `Some(0x6B)`.
    pub fn apply(&self, c: u32) -> Option<u32>
        ensures when { IsSome result ↔ IsStep self.now.range.start self.now.range.len self.now.modulo c }
        ensures moved { IfSome result (λ d. pos d ≡ pos c +ℤ self.now.delta) }
    {
        let within = self.range.first() <= c && c <= self.range.last();
        if within && (c - self.range.first()) % u32::from(self.modulo) == 0 {
            Some((c as i32 + self.delta) as u32)
        } else {
            None
        }
    }
}
