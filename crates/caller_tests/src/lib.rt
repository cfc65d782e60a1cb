//! What callers of `regress` write: their loops over matches and parts, closures, named groups and tables, and what owns tables and a regex, each proved and run;
//! what the calls of `regress` promise; long patterns and texts. By public calls alone; the library itself is empty.
#![tactic(auto)]

#[cfg(test)]
mod asking;
#[cfg(test)]
mod bounded;
#[cfg(test)]
mod closures;
#[cfg(test)]
mod example;
#[cfg(test)]
mod limited;
#[cfg(test)]
mod loops;
#[cfg(test)]
mod matches;
#[cfg(test)]
mod named;
#[cfg(test)]
mod owning;
#[cfg(test)]
mod pointing;
#[cfg(test)]
mod promises;
#[cfg(test)]
mod refusals;
#[cfg(test)]
mod sizes;
#[cfg(test)]
mod slots;
#[cfg(test)]
mod sticky;
#[cfg(test)]
mod tables;
#[cfg(test)]
mod templates;
#[cfg(test)]
mod told;
#[cfg(test)]
mod units;
#[cfg(test)]
mod whole;
