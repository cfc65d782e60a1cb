//! Rewrites a pattern's tree by passes over its nodes, so that it is searched faster and matches the same.
#![tactic(auto)]

mod action;
mod brackets;
mod cats;
mod chaining;
mod choices;
mod failing;
mod flattening;
mod idling;
mod joining;
mod letters;
mod passing;
mod rounds;
mod sharing;
mod single_loops;
mod sizes;
mod unrolling;
mod visiting;

pub use action::PassAction;
pub use brackets::SimpleBrackets;
pub use cats::ShortCats;
pub use chaining::Then;
pub use choices::EmptyChoices;
pub use failing::LostCats;
pub use flattening::FlattenedCats;
pub use idling::IdleLoops;
pub use joining::JoinedLiterals;
pub use letters::SpelledChars;
pub use passing::Pass;
pub use rounds::optimize;
pub use sharing::SharedWords;
pub use single_loops::SingleLoops;
pub use unrolling::UnrolledLoops;
pub use visiting::visit;
