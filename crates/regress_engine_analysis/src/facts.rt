//! What is known of an address.

use regress_front_bytes::ByteBitmap;

/// Iterations of a repetition that are one character of a class each, as long as that takes one.
#[derive(Debug, Clone, Copy)]
pub struct Turn {
    /// The address where the repetition begins.
    pub begin: u32,
    /// The address where an iteration of it ends.
    pub again: u32,
}

/// What is known of an address besides the bytes with which a match may begin.
#[derive(Debug, Clone, Copy)]
pub enum Known {
    /// Nothing more.
    Nothing,
    /// Of a one-character loop: where the character is read that it repeats, no match can be reached behind it, so it gives
    /// nothing back.
    Possessive,
    /// Of two ways with which an iteration begins: the first is a class and nothing else, and where that takes a character no
    /// match can be reached by the second, nor behind the repetition.
    Turn(Turn),
    /// Of several ways: the number of the table that tells where it goes on by the character ahead.
    Ways(u32),
}

/// What is known of an address.
#[derive(Debug, Clone, Copy)]
pub struct Facts {
    /// The bytes with which a match from here may begin.
    pub first: ByteBitmap,
    /// What is known besides.
    pub known: Known,
}
