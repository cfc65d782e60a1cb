//! Tests of the front, by its public calls alone: what no program prints, sizes that no row can hold, and each call that nothing
//! else makes; and the table of all of Unicode. The library itself is empty.
#![tactic(auto)]

#[cfg(test)]
mod all_unicode;
#[cfg(test)]
mod bytes;
#[cfg(test)]
mod figures;
#[cfg(test)]
mod flags;
#[cfg(test)]
mod nodes;
#[cfg(test)]
mod sets;
#[cfg(test)]
mod shown;
#[cfg(test)]
mod tables;
