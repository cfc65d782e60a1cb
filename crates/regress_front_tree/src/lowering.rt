//! The second pass: from the syntax tree of a pattern to nodes.
ghost use Rattle.std.specs.Prelude.{◌≡◌, ◌<◌, ◌++◌, ◌∷◌, [], suc, Bool, length, map, option_map, All, IfOk, OnOk};
ghost use Rattle.regress_meaning.specs.TableParts.{is_code_point};
ghost use Rattle.regress_meaning.specs.Pattern as meaning;
ghost use Rattle.regress_meaning.specs.Meaning.{with};
ghost use Rattle.regress_meaning.specs.Points.{ClassIsOfPoints};
ghost use Rattle.regress_front_tokens.specs.Trees as parsed;
ghost use Rattle.regress_front_tokens.specs.Trees.{settings, class_view, choice_of};
ghost use Rattle.regress_front_tokens.specs.Ranges.{in_turn, with_range, opens, parts_of};
ghost use Rattle.regress_front_tokens.specs.Words.{code_points_of};
ghost use Rattle.regress_front_core.specs.Quantifiers.{most};
ghost use Rattle.regress_front_nodes.specs.Trees as nodes;
ghost use Rattle.regress_front_nodes.specs.Trees.{tree, anchor_of, empty, loop};
ghost use Rattle.regress_front_nodes.specs.Pieces.{piece_tree};
ghost use Rattle.regress_front_tables.specs.TableViews.{table};
ghost use Rattle.regress_front_tree.specs.Lowering.{HasArms, ArePieces};
ghost use Rattle.regress_front_nodes.specs.Forms.{cat_made, in_reading_order};
ghost use Rattle.regress_front_tree.specs.Scopes.{settings_of, IsLowerable, LowersInScope, LowersAllInScope, LowersTermsInScope, LowersAlone, AddsTextInScope};

use crate::arms::alternatives;
use crate::brackets::{character_node, class_node, negated_class_node};
use regress_front_nodes::{AnchorType, Node, NodeList, Piece, try_lower_code_point_sequence};
use regress_front_syntax::{Class, Modifiers, Quantifier, Syntax, Term};
use regress_front_tables::{CaptureGroupID, CaptureGroupName, CodePoint, Tables};
use std::alloc::{AllocError, Global};
use std::mem::replace;
use std::ops::Range;

/// What holds where a part of a pattern stands.
#[derive(Debug, Clone, Copy, Drop)]
pub(crate) struct Scope {
    /// Case is ignored.
    pub(crate) icase: bool,
    /// `^` and `$` also stand at line terminators.
    pub(crate) multiline: bool,
    /// `.` is any character, line terminators too.
    pub(crate) dot_all: bool,
    /// The part stands in a lookbehind, so it is read from right to left.
    pub(crate) backward: bool,
}

impl Scope {
    /// What holds inside modifiers ("UpdateModifiers").
    fn switched(self, on: Modifiers, off: Modifiers) -> Scope
        ensures settings { settings_of result ≡ with (settings on) (settings off) (settings_of self) }
        ensures backward { result.backward ≡ self.backward }
    {
        Scope {
            icase: (self.icase || on.icase) && !off.icase,
            multiline: (self.multiline || on.multiline) && !off.multiline,
            dot_all: (self.dot_all || on.dot_all) && !off.dot_all,
            backward: self.backward,
        }
    }
}

/// Nodes one after another as one node, in the order in which they are read; none is the empty text, and one is itself.
fn sequence(mut parts: NodeList, backward: bool) -> Node
    ensures { tree result ≡ cat_made (in_reading_order backward (map tree parts.items)) }
{
    if backward {
        parts.reverse();
    }
    if parts.len() > 1 {
        return Node::Cat(parts);
    }
    parts.pop().unwrap_or(Node::Empty)
}

/// A copy of a group's name, if it has one.
fn name_copy(
    alloc: Global,
    name: &Option<CaptureGroupName>,
) -> Result<Option<CaptureGroupName>, AllocError>
    ensures { IfOk result (λ copy. option_map code_points_of copy ≡ option_map code_points_of name.now) }
{
    match name {
        Some(name) => Ok(Some(CaptureGroupName::from_str(alloc, name)?)),
        None => Ok(None),
    }
}

/// Adds the node of a box behind others.
#[inline(never)]
fn push(nodes: &mut NodeList, node: Box<Node>) -> Result<(), AllocError>
    ensures { OnOk result (nodes.new.items ≡ nodes.old.items ++ (node.value ∷ [])) }
{
    Ok(nodes.push(Box::into_inner(node))?)
}

/// The pieces of a text: where no case is ignored one literal, but for surrogates.
fn text_pieces(
    alloc: Global,
    points: &[CodePoint],
    icase: bool,
    unicode: bool,
    tables: &Tables,
) -> Result<Vec<Piece>, AllocError>
    requires { All is_code_point points.now }
    ensures { IfOk result (λ pieces. ArePieces (table tables.now) unicode icase points.now (map piece_tree pieces.items)) }
{
    try_lower_code_point_sequence(alloc, points, icase, unicode, tables)
}

/// Puts nodes one after another in the place of one.
#[inline(never)]
fn line_up(parts: NodeList, backward: bool, node: &mut Node)
    ensures { tree node.new ≡ cat_made (in_reading_order backward (map tree parts.items)) }
{
    *node = sequence(parts, backward);
}

/// Puts the empty text in the place of a node.
#[inline(never)]
fn clear(node: &mut Node)
    ensures { tree node.new ≡ empty }
{
    *node = Node::Empty;
}

/// Puts alternatives in the place of a node.
#[inline(never)]
fn choose(alloc: Global, arms: NodeList, node: &mut Node) -> Result<(), AllocError>
    requires { 0 < length arms.items }
    ensures { OnOk result (HasArms (map tree arms.items) (tree node.new)) }
{
    *node = alternatives(alloc, arms)?;
    Ok(())
}

/// Puts a node into a capturing group, with a copy of its name.
#[inline(never)]
fn capture(
    alloc: Global,
    id: CaptureGroupID,
    name: &Option<CaptureGroupName>,
    node: &mut Node,
) -> Result<(), AllocError>
    ensures { OnOk result (tree node.new ≡ nodes.capture id (option_map code_points_of name.now) (tree node.old)) }
{
    let name = name_copy(alloc, name)?;
    let contents = Box::new(alloc, replace(node, Node::Empty))?;
    *node = Node::CaptureGroup { id, contents, name };
    Ok(())
}

/// Puts a node into a repetition.
#[inline(never)]
fn repeat(
    alloc: Global,
    quant: &Quantifier,
    groups: &Range<CaptureGroupID>,
    node: &mut Node,
) -> Result<(), AllocError>
    ensures { OnOk result (tree node.new ≡ loop (tree node.old) groups.now.start groups.now.end quant.now.min (most quant.now) quant.now.greedy) }
{
    let loopee = Box::new(alloc, replace(node, Node::Empty))?;
    *node = Node::Loop {
        loopee,
        quant: *quant,
        enclosed_groups: groups.start..groups.end,
    };
    Ok(())
}

/// Puts a node into a lookaround over some groups.
#[inline(never)]
fn look(
    alloc: Global,
    negate: bool,
    backwards: bool,
    groups: &Range<CaptureGroupID>,
    node: &mut Node,
) -> Result<(), AllocError>
    ensures { OnOk result (tree node.new ≡ nodes.submatch (nodes.lookaround negate backwards) groups.now.start groups.now.end (tree node.old)) }
{
    let contents = Box::new(alloc, replace(node, Node::Empty))?;
    *node = Node::LookaroundAssertion {
        negate,
        backwards,
        start_group: groups.start,
        end_group: groups.end,
        contents,
    };
    Ok(())
}

/// Puts a node into an atomic group over some groups.
#[inline(never)]
fn atomic(alloc: Global, groups: &Range<CaptureGroupID>, node: &mut Node) -> Result<(), AllocError>
    ensures { OnOk result (tree node.new ≡ nodes.submatch nodes.atomic groups.now.start groups.now.end (tree node.old)) }
{
    let contents = Box::new(alloc, replace(node, Node::Empty))?;
    *node = Node::AtomicGroup {
        start_group: groups.start,
        end_group: groups.end,
        contents,
    };
    Ok(())
}

/// What holds for the whole pattern.
#[derive(Drop)]
pub(crate) struct Lowering<'t> {
    alloc: Global,
    tables: &'t Tables,
    unicode: bool,
}

impl<'t> Lowering<'t> {
    /// For a pattern with these tables of case and properties, in Unicode mode or not.
    pub(crate) fn new(alloc: Global, tables: &'t Tables, unicode: bool) -> Self
        ensures tables { result.tables.now ≡ tables.now }
        ensures unicode { result.unicode ≡ unicode }
    {
        Lowering {
            alloc,
            tables,
            unicode,
        }
    }

    /// Lowers a part of the pattern, in place of `node` ("CompileSubpattern", "CompileAtom").
    ///
    /// Calls go as deep as the pattern nests. So the nodes are made in their place, and none is held on the stack by a function
    /// that goes deeper.
    #[cycle(lowering)]
    #[inline(never)]
    pub(crate) fn lower(
        &self,
        syntax: &Syntax,
        scope: &Scope,
        node: &mut Node,
    ) -> Result<(), AllocError>
        requires { IsLowerable (parsed.tree syntax.now) }
        ensures { OnOk result (LowersInScope self.now scope.now (opens syntax.now) (parsed.tree syntax.now) (tree node.new)) }
    {
        match syntax {
            Syntax::Character(point) => self.character(*point, scope, node),
            Syntax::Any => self.any(scope, node),
            Syntax::Class { negated, class } => self.class(*negated, class, scope, node),
            Syntax::ClassEscape(class) => self.class_escape(class, scope, node),
            Syntax::Alternative(terms) => self.alternative(terms, scope, node),
            Syntax::Disjunction(arms) => self.disjunction(arms, scope, node),
            Syntax::Capture { id, name, contents } => {
                self.capture(*id, name, contents, scope, node)
            }
            Syntax::Group(contents) => self.lower(contents, scope, node),
            Syntax::Atomic {
                contents,
                enclosed_groups,
            } => self.atomic_group(enclosed_groups, contents, scope, node),
            Syntax::Modified { on, off, contents } => {
                self.lower(contents, &scope.switched(*on, *off), node)
            }
            Syntax::Loop {
                loopee,
                quant,
                enclosed_groups,
            } => self.repetition(loopee, quant, enclosed_groups, scope, node),
            Syntax::Look {
                negated,
                backward,
                contents,
                enclosed_groups,
            } => self.lookaround(*negated, *backward, enclosed_groups, contents, scope, node),
            Syntax::Reference(groups) => self.reference(groups, scope, node),
            Syntax::LineStart => self.anchor(AnchorType::StartOfLine, scope, node),
            Syntax::LineEnd => self.anchor(AnchorType::EndOfLine, scope, node),
            Syntax::WordBoundary { negated } => self.word_boundary(*negated, scope, node),
        }
    }

    /// The nodes of parts, one by one in their order.
    #[cycle(lowering)]
    #[inline(never)]
    fn each(&self, parts: &[Syntax], scope: &Scope) -> Result<NodeList, AllocError>
        requires { All IsLowerable (map parsed.tree parts.now) }
        ensures lowered { IfOk result (λ nodes. LowersAllInScope self.now scope.now (in_turn (map opens parts.now)) (map parsed.tree parts.now) (map tree nodes.items)) }
        ensures count { IfOk result (λ nodes. length nodes.items ≡ length parts.now) }
    {
        let mut nodes = Vec::new(self.alloc);
        for part in parts {
            let mut node = Box::new(self.alloc, Node::Empty)?;
            self.lower(part, scope, &mut node)?;
            push(&mut nodes, node)?;
        }
        Ok(nodes)
    }

    /// The nodes of terms one after another, in the order of the text.
    #[cycle(lowering)]
    #[inline(never)]
    fn terms(&self, terms: &[Term<Syntax>], scope: &Scope) -> Result<NodeList, AllocError>
        requires { All IsLowerable (parsed.trees_of terms.now) }
        ensures { IfOk result (λ nodes. LowersTermsInScope self.now scope.now (in_turn (parts_of terms.now)) (parsed.trees_of terms.now) (map tree nodes.items)) }
    {
        let mut nodes = Vec::new(self.alloc);
        for term in terms {
            match term {
                Term::Text(points) => self.text(points, scope, &mut nodes)?,
                Term::One(term) => {
                    let mut node = Box::new(self.alloc, Node::Empty)?;
                    self.lower(term, scope, &mut node)?;
                    push(&mut nodes, node)?;
                }
            }
        }
        Ok(nodes)
    }

    /// Adds the nodes of a text behind others, in the order of the text.
    #[inline(never)]
    fn text(
        &self,
        points: &[CodePoint],
        scope: &Scope,
        nodes: &mut NodeList,
    ) -> Result<(), AllocError>
        requires { All is_code_point points.now }
        ensures { OnOk result (AddsTextInScope self.now scope.now points.now (map tree nodes.old.items) (map tree nodes.new.items)) }
    {
        let pieces = text_pieces(self.alloc, points, scope.icase, self.unicode, self.tables)?;
        for piece in pieces {
            nodes.push(Node::from(piece))?;
        }
        Ok(())
    }

    /// Lowers terms one after another ("Alternative").
    #[cycle(lowering)]
    #[inline(never)]
    fn alternative(
        &self,
        terms: &[Term<Syntax>],
        scope: &Scope,
        node: &mut Node,
    ) -> Result<(), AllocError>
        requires { All IsLowerable (parsed.trees_of terms.now) }
        ensures { OnOk result (LowersInScope self.now scope.now (in_turn (parts_of terms.now)) (parsed.sequence_of (parsed.trees_of terms.now)) (tree node.new)) }
    {
        let nodes = self.terms(terms, scope)?;
        line_up(nodes, scope.backward, node);
        Ok(())
    }

    /// Lowers alternatives ("Disjunction"); of none it is the empty text.
    #[cycle(lowering)]
    #[inline(never)]
    fn disjunction(&self, arms: &[Syntax], scope: &Scope, node: &mut Node) -> Result<(), AllocError>
        requires { All IsLowerable (map parsed.tree arms.now) }
        ensures { OnOk result (LowersInScope self.now scope.now (in_turn (map opens arms.now)) (choice_of (map parsed.tree arms.now)) (tree node.new)) }
    {
        if arms.is_empty() {
            clear(node);
            return Ok(());
        }
        let nodes = self.each(arms, scope)?;
        choose(self.alloc, nodes, node)
    }

    /// Lowers a capturing group.
    #[cycle(lowering)]
    #[inline(never)]
    fn capture(
        &self,
        id: CaptureGroupID,
        name: &Option<CaptureGroupName>,
        contents: &Syntax,
        scope: &Scope,
        node: &mut Node,
    ) -> Result<(), AllocError>
        requires { IsLowerable (meaning.capture id (option_map code_points_of name.now) (parsed.tree contents.now)) }
        ensures { OnOk result (LowersInScope self.now scope.now (λ k. opens contents.now (suc k))
            (meaning.capture id (option_map code_points_of name.now) (parsed.tree contents.now)) (tree node.new)) }
    {
        self.lower(contents, scope, node)?;
        capture(self.alloc, id, name, node)
    }

    /// Lowers a repetition.
    #[cycle(lowering)]
    #[inline(never)]
    fn repetition(
        &self,
        loopee: &Syntax,
        quant: &Quantifier,
        groups: &Range<CaptureGroupID>,
        scope: &Scope,
        node: &mut Node,
    ) -> Result<(), AllocError>
        requires { IsLowerable (parsed.tree loopee.now) }
        ensures { OnOk result (LowersInScope self.now scope.now (opens loopee.now)
            (meaning.repeated (parsed.tree loopee.now) groups.now.start groups.now.end quant.now.min (most quant.now) quant.now.greedy)
            (tree node.new)) }
    {
        self.lower(loopee, scope, node)?;
        repeat(self.alloc, quant, groups, node)
    }

    /// Lowers a lookaround.
    #[cycle(lowering)]
    #[inline(never)]
    fn lookaround(
        &self,
        negate: bool,
        backwards: bool,
        groups: &Range<CaptureGroupID>,
        contents: &Syntax,
        scope: &Scope,
        node: &mut Node,
    ) -> Result<(), AllocError>
        requires { IsLowerable (parsed.tree contents.now) }
        ensures { OnOk result (LowersInScope self.now scope.now (with_range groups.now.start groups.now.end (opens contents.now))
            (meaning.look negate backwards (parsed.tree contents.now)) (tree node.new)) }
    {
        let inside = Scope {
            backward: backwards,
            ..*scope
        };
        self.lower(contents, &inside, node)?;
        look(self.alloc, negate, backwards, groups, node)
    }

    /// Lowers an atomic group.
    #[cycle(lowering)]
    #[inline(never)]
    fn atomic_group(
        &self,
        groups: &Range<CaptureGroupID>,
        contents: &Syntax,
        scope: &Scope,
        node: &mut Node,
    ) -> Result<(), AllocError>
        requires { IsLowerable (parsed.tree contents.now) }
        ensures { OnOk result (LowersInScope self.now scope.now (with_range groups.now.start groups.now.end (opens contents.now))
            (meaning.atomic (parsed.tree contents.now)) (tree node.new)) }
    {
        self.lower(contents, scope, node)?;
        atomic(self.alloc, groups, node)
    }

    /// Lowers a character.
    #[inline(never)]
    fn character(&self, point: CodePoint, scope: &Scope, node: &mut Node) -> Result<(), AllocError>
        requires { is_code_point point }
        ensures { OnOk result (LowersAlone self.now scope.now (meaning.character point) (tree node.new)) }
    {
        *node = character_node(self.alloc, self.tables, self.unicode, scope.icase, point)?;
        Ok(())
    }

    /// Lowers `.`.
    #[inline(never)]
    fn any(&self, scope: &Scope, node: &mut Node) -> Result<(), AllocError>
        ensures { OnOk result (LowersAlone self.now scope.now meaning.any (tree node.new)) }
    {
        if scope.dot_all {
            *node = Node::MatchAny;
        } else {
            *node = Node::MatchAnyExceptLineTerminator;
        }
        Ok(())
    }

    /// Lowers a class in brackets.
    #[inline(never)]
    fn class(
        &self,
        negated: bool,
        class: &Class,
        scope: &Scope,
        node: &mut Node,
    ) -> Result<(), AllocError>
        requires { ClassIsOfPoints (class_view class.now) }
        ensures { OnOk result (LowersAlone self.now scope.now (meaning.class negated (class_view class.now)) (tree node.new)) }
    {
        if negated {
            let outside = negated_class_node(
                self.alloc,
                self.tables,
                self.unicode,
                scope.icase,
                class,
            )?;
            *node = outside;
            return Ok(());
        }
        let inside = class_node(self.alloc, self.tables, self.unicode, scope.icase, class)?;
        *node = inside;
        Ok(())
    }

    /// Lowers a class escape.
    #[inline(never)]
    fn class_escape(&self, class: &Class, scope: &Scope, node: &mut Node) -> Result<(), AllocError>
        requires { ClassIsOfPoints (class_view class.now) }
        ensures { OnOk result (LowersAlone self.now scope.now (meaning.class_escape (class_view class.now)) (tree node.new)) }
    {
        *node = class_node(self.alloc, self.tables, self.unicode, scope.icase, class)?;
        Ok(())
    }

    /// Lowers a reference: of each group one, the numbers of the nodes from 1.
    #[inline(never)]
    fn reference(&self, groups: &[u16], scope: &Scope, node: &mut Node) -> Result<(), AllocError>
        ensures { OnOk result (LowersAlone self.now scope.now (meaning.reference groups.now) (tree node.new)) }
    {
        let mut nodes = Vec::new(self.alloc);
        for group in groups {
            nodes.push(Node::BackRef {
                group: u32::from(*group) + 1,
                icase: scope.icase,
            })?;
        }
        *node = sequence(nodes, scope.backward);
        Ok(())
    }

    /// Lowers an anchor.
    #[inline(never)]
    fn anchor(
        &self,
        anchor_type: AnchorType,
        scope: &Scope,
        node: &mut Node,
    ) -> Result<(), AllocError>
        ensures { OnOk result (tree node.new ≡ anchor_of anchor_type scope.now.multiline) }
    {
        *node = Node::Anchor {
            anchor_type,
            multiline: scope.multiline,
        };
        Ok(())
    }

    /// Lowers a boundary of words.
    #[inline(never)]
    fn word_boundary(&self, negated: bool, scope: &Scope, node: &mut Node) -> Result<(), AllocError>
        ensures { OnOk result (LowersAlone self.now scope.now (meaning.word_boundary negated) (tree node.new)) }
    {
        *node = Node::WordBoundary {
            invert: negated,
            unicode_icase: self.unicode & scope.icase,
        };
        Ok(())
    }
}
