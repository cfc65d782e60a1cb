//! Rounds of passes.
ghost use Rattle.std.specs.Prelude.{◌≡◌, ℕ, false, OnOk, IfErr};
ghost use Rattle.regress_meaning.specs.Meaning.{Forward};
ghost use Rattle.regress_front_nodes.specs.Trees.{tree};
ghost use Rattle.regress_front_nodes.specs.WellFormed.{IsWellFormed};
ghost use Rattle.regress_front_rules.specs.Laws.{IsRewritten};
ghost use Rattle.regress_front_rules.specs.NormalForm.{IsNormal};
ghost use Rattle.regress_front_rules.specs.Rules.{HasLaws, Reaches};
ghost use Rattle.regress_front_opt.specs.Passes.{IsRound, IsVisited};

use crate::brackets::SimpleBrackets;
use crate::cats::ShortCats;
use crate::chaining::Then;
use crate::choices::EmptyChoices;
use crate::failing::LostCats;
use crate::flattening::FlattenedCats;
use crate::idling::IdleLoops;
use crate::joining::JoinedLiterals;
use crate::letters::SpelledChars;
use crate::sharing::SharedWords;
use crate::single_loops::SingleLoops;
use crate::unrolling::UnrolledLoops;
use crate::visiting::visit;
use regress_front_nodes::Node;
use regress_front_nodes::ir::Regex;
use regress_front_tables::Error;
use std::alloc::Global;

/// Every pass once, over a whole tree. It answers whether it changed something.
fn round(alloc: Global, node: &mut Node) -> Result<bool, Error>
    requires { HasLaws (tree node.old) }
    ensures { IsRound (tree node.old) (tree node.new) result }
{
    let leaves = Then(SimpleBrackets, SpelledChars);
    let sequences = Then(FlattenedCats, Then(JoinedLiterals, ShortCats));
    let passes = Then(
        Then(leaves, Then(LostCats, Then(IdleLoops, UnrolledLoops))),
        Then(sequences, Then(EmptyChoices, SingleLoops)),
    );
    visit(&passes, alloc, false, false, node)
}

/// Rounds until nothing changes.
fn settle(alloc: Global, node: &mut Node) -> Result<(), Error>
    requires { HasLaws (tree node.old) }
    ensures reached { Reaches Forward (tree node.old) (tree node.new) }
    ensures normal { OnOk result (IsNormal (tree node.new)) }
    ensures refused { IfErr result (λ e. e ≡ Error.OutOfMemory) }
{
    while round(alloc, node)? {}
    Ok(())
}

/// Lets the words of each choice share what they begin with, and answers whether some do.
fn share(alloc: Global, node: &mut Node) -> Result<bool, Error>
    requires { HasLaws (tree node.old) }
    ensures { IsVisited Forward (λ _. false) (tree node.old) (tree node.new) result }
{
    visit(&SharedWords, alloc, true, false, node)
}

/// Rewrites a pattern's tree to one that is searched faster and matches the same.
///
/// Asks for a well-formed tree. It is rewritten in its place, in rounds, until no pass changes anything; then words share what
/// they begin with, and where some do rounds follow again. It errs with `Error::OutOfMemory` alone, and then the tree is
/// rewritten in part: it still matches the same.
///
/// ```rust
/// let mut regex = try_parse(alloc, &[0x61, 0x2A], Flags::default(), &tables)?; // /a*/
/// optimize(alloc, &mut regex)?; // a `Loop1CharBody` in place of the `Loop`
/// ```
pub fn optimize(alloc: Global, regex: &mut Regex) -> Result<(), Error>
    requires { (n : ℕ) × IsWellFormed n (tree regex.old.node) }
    ensures rewritten { (n : ℕ) → IsWellFormed n (tree regex.old.node) → IsRewritten n (tree regex.old.node) (tree regex.new.node) }
    ensures normal { OnOk result (IsNormal (tree regex.new.node)) }
    ensures kept { (regex.new.flags ≡ regex.old.flags) × (regex.new.tables ≡ regex.old.tables) }
    ensures refused { IfErr result (λ e. e ≡ Error.OutOfMemory) }
{
    settle(alloc, &mut regex.node)?;
    if share(alloc, &mut regex.node)? {
        settle(alloc, &mut regex.node)?;
    }
    Ok(())
}
