//! Passes one after another.
ghost use Rattle.std.specs.Prelude.{◌||◌};

use crate::action::PassAction;
use crate::passing::Pass;
use regress_front_nodes::Node;
use regress_front_tables::Error;
use std::alloc::Global;

/// At each node the first pass, and where it has nothing to do, the second.
#[derive(Drop)]
pub struct Then<A, B>(pub A, pub B);

impl<A: Pass, B: Pass> Pass for Then<A, B> {
    ghost broken = { λ t. A.broken t || B.broken t };

    fn rewrite(
        &self,
        alloc: Global,
        in_lookbehind: bool,
        node: &mut Node,
    ) -> Result<PassAction, Error> {
        match self.0.rewrite(alloc, in_lookbehind, node)? {
            PassAction::Keep => self.1.rewrite(alloc, in_lookbehind, node),
            action => Ok(action),
        }
    }
}
