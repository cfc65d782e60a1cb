//! Copies of nodes.
ghost use Rattle.std.specs.Prelude.{◌≡◌, ◌≤◌, true, false, map, IfOk, IfErr};
ghost use Rattle.regress_front_sets.specs.Sets.{intervals_of};
ghost use Rattle.regress_front_nodes.specs.Trees.{tree};
ghost use Rattle.regress_front_nodes.specs.Forms.{deepest_copy, is_leaf};
ghost use Rattle.regress_front_nodes.specs.Copies.{IsCopy, IsBoxedCopy, AreCopies};

use crate::node::{BracketContents, Node, NodeList};
use regress_front_tables::{CodePointSet, Error};
use std::alloc::{AllocError, Global};

/// No node is copied to a place below more nodes than this.
const DEEPEST_COPY: usize = 1280;

impl BracketContents {
    /// A class of the same code points. It errs only where memory is refused.
    ///
    /// ```rust
    /// let twice = Node::Bracket(contents.copy(alloc)?);
    /// ```
    pub fn copy(&self, alloc: Global) -> Result<BracketContents, AllocError>
        ensures { IfOk result (λ copy. (copy.invert ≡ self.now.invert)
            × (intervals_of copy.cps ≡ intervals_of self.now.cps)) }
    {
        let intervals = self.cps.intervals().to_vec(alloc)?;
        Ok(BracketContents {
            invert: self.invert,
            cps: CodePointSet::from_sorted_disjoint_intervals(intervals),
        })
    }
}

impl Node {
    /// An equal node, to stand below `depth` others.
    ///
    /// `None` where some node of it would stand below more than 1280, or is a capture group, since no group may stand
    /// twice. It errs where memory is refused, with `Error::OutOfMemory`.
    ///
    /// ```rust
    /// let twice = match node.try_duplicate(alloc, depth)? {
    ///     Some(copy) => Node::Cat(vec![in alloc; node, copy]?),
    ///     None => node,
    /// };
    /// ```
    pub fn try_duplicate(&self, alloc: Global, depth: usize) -> Result<Option<Node>, Error>
        ensures copied { IfOk result (IsCopy depth (tree self.now)) }
        ensures refused { IfErr result (λ e. e ≡ Error.OutOfMemory) }
    {
        Ok(self.duplicate(alloc, depth)?)
    }

    /// `try_duplicate`, where the error is the allocator's: `node.duplicate(alloc, depth)?` in what fails with nothing but
    /// `AllocError`.
    #[cycle(copy)]
    pub fn duplicate(&self, alloc: Global, depth: usize) -> Result<Option<Node>, AllocError>
        ensures { IfOk result (IsCopy depth (tree self.now)) }
    {
        if depth > DEEPEST_COPY {
            return Ok(None);
        }
        if self.is_leaf() {
            return Ok(Some(self.copy_of_leaf(alloc)?));
        }
        self.copy_of_parts(alloc, depth)
    }

    /// Whether it is of a kind that has no parts.
    fn is_leaf(&self) -> bool
        ensures { result ≡ is_leaf (tree self.now) }
    {
        !matches!(
            self,
            Node::Cat(_)
                | Node::Alt(..)
                | Node::CaptureGroup { .. }
                | Node::LookaroundAssertion { .. }
                | Node::AtomicGroup { .. }
                | Node::Loop { .. }
                | Node::Loop1CharBody { .. }
        )
    }

    /// An equal node, of one without parts.
    fn copy_of_leaf(&self, alloc: Global) -> Result<Node, AllocError>
        requires { is_leaf (tree self.now) ≡ true }
        ensures { IfOk result (λ n. tree n ≡ tree self.now) }
    {
        match self {
            Node::Empty => Ok(Node::Empty),
            Node::Goal => Ok(Node::Goal),
            Node::Char { c } => Ok(Node::Char { c: *c }),
            Node::ByteSequence(bytes) => Ok(Node::ByteSequence(bytes.clone()?)),
            Node::ByteSet(bytes) => Ok(Node::ByteSet(bytes.clone()?)),
            Node::CharSet(chars) => Ok(Node::CharSet(chars.clone()?)),
            Node::MatchAny => Ok(Node::MatchAny),
            Node::MatchAnyExceptLineTerminator => Ok(Node::MatchAnyExceptLineTerminator),
            Node::Anchor {
                anchor_type,
                multiline,
            } => Ok(Node::Anchor {
                anchor_type: *anchor_type,
                multiline: *multiline,
            }),
            Node::WordBoundary {
                invert,
                unicode_icase,
            } => Ok(Node::WordBoundary {
                invert: *invert,
                unicode_icase: *unicode_icase,
            }),
            Node::BackRef { group, icase } => Ok(Node::BackRef {
                group: *group,
                icase: *icase,
            }),
            Node::Bracket(contents) => Ok(Node::Bracket(contents.copy(alloc)?)),
            Node::StringSet {
                alternatives,
                icase,
            } => Ok(Node::StringSet {
                alternatives: alternatives.clone()?,
                icase: *icase,
            }),
            _ => unreachable!(),
        }
    }

    /// An equal node, of one that has parts and stands below no more than 1280 others.
    ///
    /// `None` where some node of it would stand below more, or is a capture group.
    #[cycle(copy)]
    fn copy_of_parts(&self, alloc: Global, depth: usize) -> Result<Option<Node>, AllocError>
        requires shallow { depth ≤ deepest_copy }
        requires inner { is_leaf (tree self.now) ≡ false }
        ensures { IfOk result (IsCopy depth (tree self.now)) }
    {
        match self {
            Node::Cat(parts) => Ok(copies(parts, alloc, depth)?.map(Node::Cat)),
            Node::Alt(first, second) => {
                let Some(first) = boxed_copy(first, alloc, depth + 1)? else {
                    return Ok(None);
                };
                let Some(second) = boxed_copy(second, alloc, depth + 1)? else {
                    return Ok(None);
                };
                Ok(Some(Node::Alt(first, second)))
            }
            Node::LookaroundAssertion {
                negate,
                backwards,
                start_group,
                end_group,
                contents,
            } => Ok(boxed_copy(contents, alloc, depth + 1)?.map(|contents| {
                Node::LookaroundAssertion {
                    negate: *negate,
                    backwards: *backwards,
                    start_group: *start_group,
                    end_group: *end_group,
                    contents,
                }
            })),
            Node::AtomicGroup {
                start_group,
                end_group,
                contents,
            } => Ok(boxed_copy(contents, alloc, depth + 1)?.map(|contents| Node::AtomicGroup {
                start_group: *start_group,
                end_group: *end_group,
                contents,
            })),
            Node::Loop {
                loopee,
                quant,
                enclosed_groups,
            } => Ok(boxed_copy(loopee, alloc, depth + 1)?.map(|loopee| Node::Loop {
                loopee,
                quant: *quant,
                enclosed_groups: enclosed_groups.start..enclosed_groups.end,
            })),
            Node::Loop1CharBody { loopee, quant } => {
                Ok(boxed_copy(loopee, alloc, depth + 1)?.map(|loopee| Node::Loop1CharBody {
                    loopee,
                    quant: *quant,
                }))
            }
            _ => Ok(None),
        }
    }
}

/// A copy in a box, to stand below `depth` nodes.
#[cycle(copy)]
fn boxed_copy(node: &Node, alloc: Global, depth: usize) -> Result<Option<Box<Node>>, AllocError>
    ensures { IfOk result (IsBoxedCopy depth (tree node.now)) }
{
    match node.duplicate(alloc, depth)? {
        Some(copy) => Ok(Some(Box::new(alloc, copy)?)),
        None => Ok(None),
    }
}

/// Copies of the parts of a `Cat` that stands below `depth` nodes.
#[cycle(copy)]
fn copies(parts: &[Node], alloc: Global, depth: usize) -> Result<Option<NodeList>, AllocError>
    requires { depth ≤ deepest_copy }
    ensures { IfOk result (AreCopies depth (map tree parts.now)) }
{
    let mut copies = Vec::new(alloc);
    for part in parts {
        match part.duplicate(alloc, depth + 1)? {
            Some(copy) => copies.push(copy)?,
            None => return Ok(None),
        }
    }
    Ok(Some(copies))
}
