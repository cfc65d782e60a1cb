//! Words that begin alike.
ghost use Rattle.std.specs.Prelude.{false};

use crate::action::PassAction;
use crate::passing::Pass;
use regress_front_nodes::Node;
use regress_front_tables::Error;
use regress_front_words::shared_words;
use std::alloc::Global;

/// In a choice between words those that begin alike share it: `case|do|catch` is `ca(?:se|tch)|do`. Each of its alternatives is
/// a literal, or empty, and it stands in no lookbehind.
#[derive(Drop)]
pub struct SharedWords;

impl Pass for SharedWords {
    ghost broken = { λ _. false };

    fn rewrite(
        &self,
        alloc: Global,
        in_lookbehind: bool,
        node: &mut Node,
    ) -> Result<PassAction, Error> {
        if in_lookbehind {
            return Ok(PassAction::Keep);
        }
        let Node::Alt(first, second) = &*node else {
            return Ok(PassAction::Keep);
        };
        match shared_words(alloc, first, second)? {
            Some(other) => Ok(PassAction::Replace(other)),
            None => Ok(PassAction::Keep),
        }
    }
}
