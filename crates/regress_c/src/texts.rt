//! Texts that the caller vouches for.
ghost use Rattle.std.specs.Prelude.{◌≡◌};
ghost use Rattle.std.specs.Str.{IsAscii, IsUtf8};

use std::str::from_utf8_unchecked;

/// Bytes of UTF-8 as a text.
pub(crate) fn valid(bytes: &[u8]) -> &str
    requires { IsUtf8 bytes.now }
    ensures { result.now ≡ bytes.now }
{
    unsafe { from_utf8_unchecked(bytes) }
}

/// Bytes of ASCII as a text.
pub(crate) fn ascii(bytes: &[u8]) -> &str
    requires { IsAscii bytes.now }
    ensures { result.now ≡ bytes.now }
{
    unsafe { from_utf8_unchecked(bytes) }
}
