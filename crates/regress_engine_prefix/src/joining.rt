//! What holds of the matches of a choice.
ghost use Rattle.std.specs.Prelude.{◌≡◌, ◌≤◌, length, take, IfOk, IfSome};
ghost use Rattle.regress_engine_prefix.specs.Prefixes.{IsWeaker, LeadsCharacters, HasSecondByte};

use crate::prefix::Prefix;
use regress_front_bytes::ByteBitmap;
use std::alloc::{AllocError, Global};

/// How many bytes stand in front of both.
fn shared_len(first: &[u8], second: &[u8]) -> usize
    ensures first { result ≤ length first.now }
    ensures second { result ≤ length second.now }
    ensures shared { take result first.now ≡ take result second.now }
{
    for (i, byte) in first.iter().enumerate() {
        if i >= second.len() || second[i] != *byte {
            return i;
        }
    }
    first.len()
}

impl Prefix {
    /// The bytes that may stand first, where they are known.
    pub(crate) fn first_bytes(&self) -> Option<ByteBitmap>
        requires { LeadsCharacters self.now }
        ensures weaker { IfSome result (λ set. IsWeaker (Prefix.First set) self.now) }
        ensures leads { IfSome result (λ set. LeadsCharacters (Prefix.First set)) }
    {
        match self {
            Prefix::Bytes(bytes) => match bytes.first() {
                Some(byte) => Some(ByteBitmap::new(&[*byte])),
                None => None,
            },
            Prefix::First(set) => Some(*set),
            Prefix::Pair(first, _) => Some(*first),
            _ => None,
        }
    }

    /// The bytes that may stand second, where they are known.
    fn second_bytes(&self) -> Option<ByteBitmap>
        requires { LeadsCharacters self.now }
        ensures { IfSome result (HasSecondByte self.now) }
    {
        match self {
            Prefix::Bytes(bytes) => match bytes.get(1) {
                Some(byte) => Some(ByteBitmap::new(&[*byte])),
                None => None,
            },
            Prefix::Pair(_, second) => Some(*second),
            _ => None,
        }
    }
}

/// What holds where either of two holds, by the first and the second bytes of both.
fn by_first_bytes(first: &Prefix, second: &Prefix) -> Prefix
    requires first_leads { LeadsCharacters first.now }
    requires second_leads { LeadsCharacters second.now }
    ensures first { IsWeaker result first.now }
    ensures second { IsWeaker result second.now }
    ensures leads { LeadsCharacters result }
{
    let Some(mut set) = first.first_bytes() else {
        return Prefix::Unknown;
    };
    let Some(others) = second.first_bytes() else {
        return Prefix::Unknown;
    };
    set.bitor(&others);
    match (first.second_bytes(), second.second_bytes()) {
        (Some(mut behind), Some(others)) => {
            behind.bitor(&others);
            Prefix::Pair(set, behind)
        }
        _ => Prefix::First(set),
    }
}

/// What holds where either of two holds: two or more bytes in front of both, or else the first and the second bytes of both.
#[inline(never)]
pub(crate) fn either(alloc: Global, first: &Prefix, second: &Prefix) -> Result<Prefix, AllocError>
    requires first_leads { LeadsCharacters first.now }
    requires second_leads { LeadsCharacters second.now }
    ensures first { IfOk result (λ prefix. IsWeaker prefix first.now) }
    ensures second { IfOk result (λ prefix. IsWeaker prefix second.now) }
    ensures leads { IfOk result LeadsCharacters }
{
    match (first, second) {
        (Prefix::Still, Prefix::Still) => Ok(Prefix::Still),
        (Prefix::Start, Prefix::Start) => Ok(Prefix::Start),
        (Prefix::Bytes(front), Prefix::Bytes(other)) => {
            let shared = shared_len(front, other);
            if shared < 2 {
                return Ok(by_first_bytes(first, second));
            }
            Ok(Prefix::Bytes(front[..shared].to_vec(alloc)?))
        }
        _ => Ok(by_first_bytes(first, second)),
    }
}
