//! What callers of `regress_calls` do over slots, by public calls alone; the library itself is empty.
#![tactic(auto)]

#[cfg(test)]
mod asking;
#[cfg(test)]
mod finding;
#[cfg(test)]
mod refusals;
