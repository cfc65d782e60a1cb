//! Code points, and their bytes in UTF-8.
ghost use Rattle.std.specs.Prelude.{◌≡◌, ℕ, ◌+◌, ◌*◌, ◌%◌, ◌^◌, ◌<◌, ◌≤◌, ◌↔◌, [], ◌∷◌, All, IsTrue, Some, encode_utf8, slice_get};
ghost use Rattle.std.specs.Char.{IsScalar};
ghost use Rattle.regress_front_bytes.specs.Utf8Forms.{IsUtf8Form};

/// Whether all numbers are code points, at most 10FFFF: `are_code_points(&[0x61, 0x11_0000])` is false.
pub fn are_code_points(points: &[u32]) -> bool
    ensures { IsTrue result ↔ All (λ c. c ≤ 0x10_FFFF) points.now }
{
    points.iter().all(|c| *c <= 0x10_FFFF)
}

/// The first byte of a code point in UTF-8, where a surrogate takes three bytes: `utf8_first_byte(0x7FF)` is `0xDF`.
pub fn utf8_first_byte(cp: u32) -> u8
    requires { cp ≤ 0x10_FFFF }
    ensures { slice_get (encode_utf8 cp) 0 ≡ Some result }
{
    if cp < 0x80 {
        cp as u8
    } else if cp < 0x800 {
        0xC0 | (cp >> 6) as u8
    } else if cp < 0x1_0000 {
        0xE0 | (cp >> 12) as u8
    } else {
        0xF0 | (cp >> 18) as u8
    }
}

/// Whether the byte stands in a UTF-8 form behind its first byte: 80 to BF. `is_utf8_continuation(0xC0)` is false.
pub fn is_utf8_continuation(b: u8) -> bool
    ensures { IsTrue result ↔ ((0x80 ≤ b) × (b ≤ 0xBF)) }
{
    b & 0xC0 == 0x80
}

/// The code point whose UTF-8 form is these two bytes: `utf8_w2(0xC3, 0xA9)` is `0xE9`.
pub fn utf8_w2(b0: u8, b1: u8) -> u32
    requires { IsUtf8Form (b0 ∷ b1 ∷ []) }
    ensures { encode_utf8 result ≡ b0 ∷ b1 ∷ [] }
{
    with_continuation(u32::from(b0 & 0x1F), b1)
}

/// The code point, or the surrogate, whose UTF-8 form is these three bytes: `utf8_w3(0xE2, 0x82, 0xAC)` is `0x20AC`.
pub fn utf8_w3(b0: u8, b1: u8, b2: u8) -> u32
    requires { IsUtf8Form (b0 ∷ b1 ∷ b2 ∷ []) }
    ensures { encode_utf8 result ≡ b0 ∷ b1 ∷ b2 ∷ [] }
{
    with_continuation(with_continuation(u32::from(b0 & 0x0F), b1), b2)
}

/// The code point whose UTF-8 form is these four bytes: `utf8_w4(0xF0, 0x9F, 0x98, 0x80)` is `0x1_F600`.
pub fn utf8_w4(b0: u8, b1: u8, b2: u8, b3: u8) -> u32
    requires { IsUtf8Form (b0 ∷ b1 ∷ b2 ∷ b3 ∷ []) }
    ensures { encode_utf8 result ≡ b0 ∷ b1 ∷ b2 ∷ b3 ∷ [] }
{
    let first_three = with_continuation(with_continuation(u32::from(b0 & 0x07), b1), b2);
    with_continuation(first_three, b3)
}

/// The bits read so far, and behind them the six that a continuation byte carries.
fn with_continuation(bits: u32, b: u8) -> u32
    requires { bits < 2 ^ 26 }
    ensures { result ≡ bits * 64 + b % 64 }
{
    (bits << 6) | u32::from(b & 0x3F)
}

/// The character with this number, or U+FFFD where there is none: at a surrogate, and past 10FFFF. `to_char_sat(0x61)` is
/// `'a'`, `to_char_sat(0xD800)` is `'\u{FFFD}'`.
pub fn to_char_sat(c: u32) -> char
    ensures scalar { IsScalar c → result ≡ c }
    ensures other { ¬ IsScalar c → result ≡ 0xFFFD }
{
    char::from_u32(c).unwrap_or(char::REPLACEMENT_CHARACTER)
}
