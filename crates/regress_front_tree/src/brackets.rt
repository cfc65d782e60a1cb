//! Nodes of characters and classes: what matches is closed where case is ignored.
ghost use Rattle.std.specs.Prelude.{◌≡◌, ℕ, Bool, ◌==◌, not, [], All, map, IfOk};
ghost use Rattle.std.specs.Box.{boxed_slice_items};
ghost use Rattle.regress_meaning.specs.Table.{Table};
ghost use Rattle.regress_meaning.specs.TableParts.{is_code_point};
ghost use Rattle.regress_meaning.specs.Class.{among};
ghost use Rattle.regress_meaning.specs.Pattern.{Settings};
ghost use Rattle.regress_meaning.specs.Meaning.{same, closed};
ghost use Rattle.regress_meaning.specs.Points.{ClassIsOfPoints};
ghost use Rattle.regress_front_sets.specs.Sets.{in_set};
ghost use Rattle.regress_front_tables.specs.TableViews.{table};
ghost use Rattle.regress_front_tokens.specs.Trees.{class_view};
ghost use Rattle.regress_front_nodes.specs.Trees.{tree};
ghost use Rattle.regress_front_nodes.specs.Characters.{Takes};
ghost use Rattle.regress_front_tree.specs.Lowering.{AreByLength, LowersClass, class_value, class_arms};
ghost use Rattle.regress_front_class_values.specs.ClassValues.{lists};

use crate::arms::alternatives;
use regress_front_class_values::class_value;
use regress_front_nodes::{BracketContents, Node, NodeList};
use regress_front_syntax::Class;
use regress_front_tables::{CodePoint, CodePointSet, Tables, try_closure, try_expand_code_point};
use std::alloc::{AllocError, Global};
use std::boxed::BoxedSlice;

/// What a character matches: itself, and where case is ignored all that are equal to it ("CharacterSetMatcher").
pub(crate) fn character_node(
    alloc: Global,
    tables: &Tables,
    unicode: bool,
    icase: bool,
    c: CodePoint,
) -> Result<Node, AllocError>
    requires { is_code_point c }
    ensures { (e : Settings) → e.icase ≡ icase → IfOk result (λ node. Takes (tree node) (same (table tables.now) unicode e.icase c)) }
{
    let points = try_expand_code_point(alloc, c, icase, unicode, tables)?;
    if points.len() == 1 {
        Ok(Node::Char { c })
    } else {
        Ok(Node::CharSet(points))
    }
}

/// A set, and where case is ignored all that a member is equal to ("CharacterSetMatcher").
fn closed(
    tables: &Tables,
    unicode: bool,
    icase: bool,
    set: CodePointSet,
) -> Result<CodePointSet, AllocError>
    ensures { (e : Settings) → e.icase ≡ icase → IfOk result (λ s. in_set s ≡ closed (table tables.now) unicode e.icase (in_set set)) }
{
    if icase {
        try_closure(set, unicode, tables)
    } else {
        Ok(set)
    }
}

/// What a class matches that begins with `^`: one character that is equal to no member ("CharacterClass").
pub(crate) fn negated_class_node(
    alloc: Global,
    tables: &Tables,
    unicode: bool,
    icase: bool,
    class: &Class,
) -> Result<Node, AllocError>
    requires { ClassIsOfPoints (class_view class.now) }
    ensures { (e : Settings) → e.icase ≡ icase → IfOk result (λ node.
        Takes (tree node) (λ d. not (closed (table tables.now) unicode e.icase (class_value (table tables.now) unicode e (class_view class.now)).singles d))) }
{
    let value = class_value(alloc, tables, unicode && icase, class)?;
    let members = closed(tables, unicode, icase, value.singles)?;
    Ok(Node::Bracket(BracketContents {
        invert: true,
        cps: members,
    }))
}

/// What a class matches that does not begin with `^`: one of its strings, the longest first ("CharacterClass",
/// "CompileAtom").
pub(crate) fn class_node(
    alloc: Global,
    tables: &Tables,
    unicode: bool,
    icase: bool,
    class: &Class,
) -> Result<Node, AllocError>
    requires { ClassIsOfPoints (class_view class.now) }
    ensures { (e : Settings) → e.icase ≡ icase → IfOk result (λ node. LowersClass (table tables.now) unicode e (class_view class.now) (tree node)) }
{
    let value = class_value(alloc, tables, unicode && icase, class)?;
    let cps = closed(tables, unicode, icase, value.singles)?;
    let characters = Node::Bracket(BracketContents { invert: false, cps });
    let has_empty = has_empty(&value.strings);
    let strings = by_length(alloc, value.strings)?;
    let arms = class_arms(alloc, icase, strings, characters, has_empty)?;
    alternatives(alloc, arms)
}

/// Whether the empty string is one of these.
fn has_empty(strings: &[Vec<CodePoint>]) -> bool
    ensures { result ≡ among (lists strings.now) [] }
{
    strings.iter().any(|string| string.is_empty())
}

/// The strings but the empty one, the longest first.
fn by_length(
    alloc: Global,
    strings: Vec<Vec<CodePoint>>,
) -> Result<Vec<BoxedSlice<CodePoint>>, AllocError>
    requires { All (All is_code_point) (lists strings.items) }
    ensures { IfOk result (λ sorted. AreByLength (map boxed_slice_items sorted.items) (lists strings.items)) }
{
    let mut longer = strings;
    longer.retain(|string| !string.is_empty());
    longer.sort_by(|a, b| b.len().cmp(&a.len()))?;
    boxed(alloc, longer)
}

/// The same strings, in slices of their own.
fn boxed(
    alloc: Global,
    strings: Vec<Vec<CodePoint>>,
) -> Result<Vec<BoxedSlice<CodePoint>>, AllocError>
    ensures { IfOk result (λ boxes. map boxed_slice_items boxes.items ≡ lists strings.items) }
{
    strings
        .into_iter()
        .map(|string| string.into_boxed_slice())
        .collect(alloc)
}

/// The arms of a class: its longer strings, if there are any, its single characters, and the empty string, if it is one of
/// its strings.
fn class_arms(
    alloc: Global,
    icase: bool,
    strings: Vec<BoxedSlice<CodePoint>>,
    characters: Node,
    has_empty: bool,
) -> Result<NodeList, AllocError>
    ensures { IfOk result (λ arms. map tree arms.items ≡ class_arms icase (map boxed_slice_items strings.items) (tree characters) has_empty) }
{
    let mut arms = Vec::new(alloc);
    if !strings.is_empty() {
        arms.push(Node::StringSet {
            alternatives: strings,
            icase,
        })?;
    }
    arms.push(characters)?;
    if has_empty {
        let empty = Vec::new(alloc).into_boxed_slice();
        arms.push(Node::StringSet {
            alternatives: vec![in alloc; empty]?,
            icase,
        })?;
    }
    Ok(arms)
}
