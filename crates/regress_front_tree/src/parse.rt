//! From a pattern's text to its tree.
ghost use Rattle.std.specs.Prelude.{◌≡◌, ◌+◌, ◌≤◌, ◌∷◌, [], ℕ, false, Some, All, IfOk, IfErr};
ghost use Rattle.regress_meaning.specs.Pattern.{Pattern};
ghost use Rattle.regress_meaning.specs.Flags.{first_settings, is_unicode};
ghost use Rattle.regress_front_tables.specs.TableViews.{table};
ghost use Rattle.regress_front_core.specs.FlagWords.{options};
ghost use Rattle.regress_front_core.specs.Refusals.{MayRefuse};
ghost use Rattle.regress_meaning.specs.WholeText.{whole_text};
ghost use Rattle.regress_front_tokens.specs.Trees as parsed;
ghost use Rattle.regress_front_tokens.specs.Ranges.{opens};
ghost use Rattle.regress_front_nodes.specs.Trees.{tree, goal, cat_of, anchor_of};
ghost use Rattle.regress_front_costs.specs.Costs.{cost, MayRefuseLarger, MayRefuseWithin};
ghost use Rattle.regress_front_tree.specs.Lowering.{Lowers};
ghost use Rattle.regress_front_tree.specs.Scopes.{settings_of, IsLowerable};
ghost use Rattle.regress_front_tree.specs.Parsed.{IsLoweredFrom, IsTreeOf, IsTreeOverText, IsTreeWithin, between_ends};

use crate::cheap::lowered_trees_are_cheap;
use crate::lowering::{Lowering, Scope};
use crate::wholes::lowered_trees_make_wholes;
use regress_front_costs::{LimitError, is_within};
use regress_front_nodes::ir::Regex;
use regress_front_nodes::{AnchorType, Node};
use regress_front_syntax::{Syntax, parse};
use regress_front_tables::{CodePoint, Error, Flags, Tables};
use std::alloc::{AllocError, Global};

/// What holds where no modifier has changed it and no lookbehind stands around ("RegExp Records").
fn first_scope(flags: Flags) -> Scope
    ensures settings { settings_of result ≡ first_settings (options flags) }
    ensures backward { result.backward ≡ false }
{
    Scope {
        icase: flags.icase,
        multiline: flags.multiline,
        dot_all: flags.dot_all,
        backward: false,
    }
}

/// The node that a syntax tree is lowered to.
fn lowered(
    alloc: Global,
    syntax: &Syntax,
    flags: Flags,
    tables: &Tables,
) -> Result<Node, AllocError>
    requires { IsLowerable (parsed.tree syntax.now) }
    ensures { IfOk result (λ node. (k : ℕ) → opens syntax.now 0 ≡ Some k →
        Lowers (table tables.now) (is_unicode (options flags)) false (first_settings (options flags)) 0 (parsed.tree syntax.now) (tree node) k) }
{
    let lowering = Lowering::new(alloc, tables, flags.is_unicode());
    let mut node = Node::Empty;
    lowering.lower(syntax, &first_scope(flags), &mut node)?;
    Ok(node)
}

/// The node that a pattern is lowered to ("ParsePattern", "RegExpInitialize").
fn read(alloc: Global, pattern: &[CodePoint], flags: Flags, tables: &Tables) -> Result<Node, Error>
    requires { All (λ c. c ≤ 0x10_FFFF) pattern.now }
    ensures lowered { IfOk result (λ node. (p : Pattern) × IsLoweredFrom (table tables.now) (options flags) pattern.now p (tree node)) }
    ensures refused { IfErr result (MayRefuse (table tables.now) (options flags) pattern.now) }
{
    regress_meaning::spelled_trees_hold_code_points();
    regress_meaning::spelled_names_are_not_empty();
    let syntax = parse(alloc, pattern, flags, tables)?;
    Ok(lowered(alloc, &syntax, flags, tables)?)
}

/// The same where the pattern, and so much around it, may cost no more than a limit: what it costs is known before a node is
/// made.
fn read_within(
    alloc: Global,
    pattern: &[CodePoint],
    flags: Flags,
    tables: &Tables,
    around: usize,
    limit: usize,
) -> Result<Node, LimitError>
    requires { All (λ c. c ≤ 0x10_FFFF) pattern.now }
    ensures lowered { IfOk result (λ node. (p : Pattern) × IsLoweredFrom (table tables.now) (options flags) pattern.now p (tree node)
        × (cost (table tables.now) p + around ≤ limit)) }
    ensures refused { IfErr result (MayRefuseLarger (λ p. cost (table tables.now) p + around) limit (table tables.now) (options flags) pattern.now) }
{
    regress_meaning::spelled_trees_hold_code_points();
    regress_meaning::spelled_names_are_not_empty();
    let syntax = parse(alloc, pattern, flags, tables)?;
    if !is_within(tables, &syntax, around, limit) {
        return Err(LimitError::PastLimit);
    }
    Ok(lowered(alloc, &syntax, flags, tables)?)
}

/// An assertion that the flag `m` doesn't change.
fn end_of_text(anchor_type: AnchorType) -> Node
    ensures { tree result ≡ anchor_of anchor_type false }
{
    Node::Anchor {
        anchor_type,
        multiline: false,
    }
}

/// A node between the start and the end of the text.
fn between_ends(alloc: Global, node: Node) -> Result<Node, AllocError>
    ensures { IfOk result (λ whole. tree whole ≡ between_ends (tree node)) }
{
    let start = end_of_text(AnchorType::StartOfLine);
    let end = end_of_text(AnchorType::EndOfLine);
    Ok(Node::Cat(vec![in alloc; start, node, end]?))
}

/// A node with the end of the whole behind it.
fn with_goal(alloc: Global, node: Node) -> Result<Node, AllocError>
    ensures { IfOk result (λ whole. tree whole ≡ cat_of (tree node ∷ goal ∷ [])) }
{
    Ok(Node::Cat(vec![in alloc; node, Node::Goal]?))
}

/// Reads a pattern, given as code points, under flags: the tree that it is rewritten and emitted from ("ParsePattern",
/// "RegExpInitialize").
///
/// Asks that all are code points, as `are_code_points` tells. It errs with `Syntax` where the text spells no pattern, with the
/// name of a limit that the pattern passes, and with `OutOfMemory`.
///
/// ```rust
/// let regex = try_parse(alloc, &[0x61, 0x2A], Flags::parse("i")?.flags, &tables)?; // /a*/i
/// let shown = regex.to_string(alloc)?; // a `Cat` of a `Loop` over a `CharSet` of `A` and `a`, and the `Goal`
/// ```
pub fn try_parse<'u>(
    alloc: Global,
    pattern: &[CodePoint],
    flags: Flags,
    tables: &'u Tables,
) -> Result<Regex<'u>, Error>
    requires { All (λ c. c ≤ 0x10_FFFF) pattern.now }
    ensures accepted { IfOk result (λ re. (p : Pattern) × IsTreeOf (table tables.now) (options flags) pattern.now p (tree re.node)) }
    ensures kept { IfOk result (λ re. (re.flags ≡ flags) × (re.tables.now ≡ tables.now)) }
    ensures refused { IfErr result (MayRefuse (table tables.now) (options flags) pattern.now) }
{
    lowered_trees_make_wholes();
    let node = read(alloc, pattern, flags, tables)?;
    let node = with_goal(alloc, node)?;
    Ok(Regex {
        node,
        flags,
        tables,
    })
}

/// Reads a pattern as `try_parse` does: the tree of the pattern between the start and the end of the text, which the flag `m`
/// doesn't change.
///
/// Asks what `try_parse` asks, and errs as it does: the pattern has to be one by itself, so `a)|(b` is none.
///
/// ```rust
/// let regex = try_parse_whole_text(alloc, &[0x61], Flags::parse("m")?.flags, &tables)?; // as /^(?:a)$/
/// ```
pub fn try_parse_whole_text<'u>(
    alloc: Global,
    pattern: &[CodePoint],
    flags: Flags,
    tables: &'u Tables,
) -> Result<Regex<'u>, Error>
    requires { All (λ c. c ≤ 0x10_FFFF) pattern.now }
    ensures accepted { IfOk result (λ re. (p : Pattern) × IsTreeOverText (table tables.now) (options flags) pattern.now p (tree re.node)) }
    ensures kept { IfOk result (λ re. (re.flags ≡ flags) × (re.tables.now ≡ tables.now)) }
    ensures refused { IfErr result (MayRefuse (table tables.now) (options flags) pattern.now) }
{
    lowered_trees_make_wholes();
    let node = read(alloc, pattern, flags, tables)?;
    let node = with_goal(alloc, between_ends(alloc, node)?)?;
    Ok(Regex {
        node,
        flags,
        tables,
    })
}

/// What the end of a whole costs, and the end of its parts.
const END_COST: usize = 2;

/// What the start and the end of a text cost around a pattern, and the end of the whole.
const ENDS_COST: usize = 7;

/// Reads a pattern as `try_parse` does, if it costs no more than a limit, which is told before there is a tree: a pattern of
/// 44 kilobytes may spell sixteen million references.
///
/// It costs about a node for each character, one for each group of a name that a reference tells, one for each group that a
/// repetition resets, and those of each copy that unrolling makes of a small body. The tree, rewritten or not, has no more nodes
/// than that, and a program of it at most two instructions for each.
///
/// Asks what `try_parse` asks. It errs with `PastLimit` where a text spells a pattern that costs more, and else with what
/// `try_parse` errs with.
///
/// ```rust
/// let regex = try_parse_within(alloc, &[0x61, 0x2A], Flags::default(), &tables, 1000)?; // `a*`
/// ```
pub fn try_parse_within<'u>(
    alloc: Global,
    pattern: &[CodePoint],
    flags: Flags,
    tables: &'u Tables,
    limit: usize,
) -> Result<Regex<'u>, LimitError>
    requires { All (λ c. c ≤ 0x10_FFFF) pattern.now }
    ensures accepted { IfOk result (λ re. (p : Pattern) × IsTreeWithin limit (λ p. p) (table tables.now) (options flags) pattern.now p (tree re.node)) }
    ensures kept { IfOk result (λ re. (re.flags ≡ flags) × (re.tables.now ≡ tables.now)) }
    ensures refused { IfErr result (MayRefuseWithin limit (λ p. p) (table tables.now) (options flags) pattern.now) }
{
    lowered_trees_make_wholes();
    lowered_trees_are_cheap();
    let node = read_within(alloc, pattern, flags, tables, END_COST, limit)?;
    let node = with_goal(alloc, node)?;
    Ok(Regex {
        node,
        flags,
        tables,
    })
}

/// Reads a pattern as `try_parse_whole_text` does, if what is made of it costs no more than a limit.
///
/// Asks what `try_parse_within` asks, and errs as it does.
///
/// ```rust
/// let regex = try_parse_whole_text_within(alloc, &[0x61], Flags::default(), &tables, 1000)?; // as /^(?:a)$/
/// ```
pub fn try_parse_whole_text_within<'u>(
    alloc: Global,
    pattern: &[CodePoint],
    flags: Flags,
    tables: &'u Tables,
    limit: usize,
) -> Result<Regex<'u>, LimitError>
    requires { All (λ c. c ≤ 0x10_FFFF) pattern.now }
    ensures accepted { IfOk result (λ re. (p : Pattern) × IsTreeWithin limit whole_text (table tables.now) (options flags) pattern.now p (tree re.node)) }
    ensures kept { IfOk result (λ re. (re.flags ≡ flags) × (re.tables.now ≡ tables.now)) }
    ensures refused { IfErr result (MayRefuseWithin limit whole_text (table tables.now) (options flags) pattern.now) }
{
    lowered_trees_make_wholes();
    lowered_trees_are_cheap();
    let node = read_within(alloc, pattern, flags, tables, ENDS_COST, limit)?;
    let node = with_goal(alloc, between_ends(alloc, node)?)?;
    Ok(Regex {
        node,
        flags,
        tables,
    })
}
