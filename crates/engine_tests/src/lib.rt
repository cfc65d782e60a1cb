//! Tests of the engine's parts, by their public calls alone: what no program prints, sizes that no row can hold, both executors
//! beside the evaluator, and each call that nothing else makes. The library itself is empty.
#![tactic(auto)]

#[cfg(test)]
mod code;
#[cfg(test)]
mod evaluated;
#[cfg(test)]
mod failures;
#[cfg(test)]
mod found;
#[cfg(test)]
mod inputs;
#[cfg(test)]
mod long;
#[cfg(test)]
mod outcomes;
#[cfg(test)]
mod parsed;
#[cfg(test)]
mod plans;
#[cfg(test)]
mod positions;
#[cfg(test)]
mod rewriting;
#[cfg(test)]
mod singles;
