//! The nodes of a tree.
ghost use Rattle.std.specs.Prelude.{◌≡◌, ◌≤◌, ◌<◌, ◌+◌, [], length, All, IsTrue, IfOk, IfErr, None, if◌then◌else◌};
ghost use Rattle.regress_meaning.specs.TableParts.{is_code_point};
ghost use Rattle.regress_meaning.specs.Meaning.{Context, Direction, State};
ghost use Rattle.regress_front_sets.specs.Sets.{ends_in};
ghost use Rattle.regress_front_nodes.specs.Trees.{tree, char_set};
ghost use Rattle.regress_front_nodes.specs.TreeMeaning.{node_outcomes};
ghost use Rattle.regress_front_nodes.specs.Forms.{is_empty, is_cat, turned};
ghost use Rattle.regress_front_nodes.specs.Singles.{bracket_is_empty, always_fails, takes_one, is_one_character, IsOneFurther};

use crate::visit::Walk;
use regress_front_tables::{CaptureGroupID, CaptureGroupName, CodePoint, CodePointSet, Quantifier};
use std::alloc::Global;
use std::boxed::BoxedSlice;
use std::ops::Range;

/// Where an anchor holds.
#[derive(Debug, Clone, Copy, Drop)]
pub enum AnchorType {
    /// `^`: where a line starts.
    StartOfLine,
    /// `$`: where a line ends.
    EndOfLine,
}

/// What a class matches: one character of a set, or one character outside it.
#[derive(Debug, Drop)]
pub struct BracketContents {
    /// Whether the characters outside the set are matched.
    pub invert: bool,
    /// The set.
    pub cps: CodePointSet,
}

impl BracketContents {
    /// Whether no code point matches: `[]` and, inverted, a set of all code points.
    ///
    /// ```rust
    /// let none = BracketContents { invert: false, cps: CodePointSet::new(alloc) };
    /// let empty = none.is_empty(); // true
    /// ```
    pub fn is_empty(&self) -> bool
        ensures { result ≡ bracket_is_empty self.now.invert (ends_in self.now.cps) }
    {
        if self.invert {
            self.cps.inverted_interval_count() == 0
        } else {
            self.cps.intervals().is_empty()
        }
    }
}

/// Nodes one after another.
pub type NodeList = Vec<Node>;

/// A node of a tree, with all that stands below it.
///
/// Inside a lookbehind the parts of a `Cat` stand in reading order, from right to left of the text; the characters of a
/// byte literal, and of a string of a `StringSet`, always stand in the order of the text.
#[derive(Debug, Drop)]
pub enum Node {
    /// Matches the empty text.
    Empty,
    /// The end of the whole tree.
    Goal,
    /// One code point.
    Char {
        c: CodePoint,
    },
    /// Characters one after another, as their bytes in UTF-8: at least one, and each whole.
    ByteSequence(Vec<u8>),
    /// One of at most four ASCII characters.
    ByteSet(Vec<u8>),
    /// One of at most four code points.
    CharSet(Vec<CodePoint>),
    /// Parts one after another.
    Cat(NodeList),
    /// The first, or else the second.
    Alt(Box<Node>, Box<Node>),
    /// Any character.
    MatchAny,
    /// Any character but a line terminator.
    MatchAnyExceptLineTerminator,
    /// A line starts or ends here; where it is not `multiline`, the text does.
    Anchor {
        anchor_type: AnchorType,
        multiline: bool,
    },
    /// A word starts or ends here; inverted, none does. In `unicode_icase`, Unicode mode where case is ignored, more
    /// characters are of a word.
    WordBoundary {
        invert: bool,
        unicode_icase: bool,
    },
    /// A capture group, its number from 0, and its name, if it has one.
    CaptureGroup {
        id: CaptureGroupID,
        contents: Box<Node>,
        name: Option<CaptureGroupName>,
    },
    /// What a group took, once more; groups are counted from 1.
    BackRef {
        group: u32,
        icase: bool,
    },
    /// One character of a set.
    Bracket(BracketContents),
    /// One of some strings, the earlier preferred.
    StringSet {
        alternatives: Vec<BoxedSlice<CodePoint>>,
        icase: bool,
    },
    /// What stands ahead, or behind, matches; negated, it does not. The groups inside have the numbers from `start_group`
    /// up to `end_group`, without it.
    LookaroundAssertion {
        negate: bool,
        backwards: bool,
        start_group: CaptureGroupID,
        end_group: CaptureGroupID,
        contents: Box<Node>,
    },
    /// The contents match, and of the ways in which they do the first alone is taken. The groups inside have the numbers from
    /// `start_group` up to `end_group`, without it.
    AtomicGroup {
        start_group: CaptureGroupID,
        end_group: CaptureGroupID,
        contents: Box<Node>,
    },
    /// A repetition, and the numbers of the groups inside it.
    Loop {
        loopee: Box<Node>,
        quant: Quantifier,
        enclosed_groups: Range<CaptureGroupID>,
    },
    /// A repetition of what matches exactly one character.
    Loop1CharBody {
        loopee: Box<Node>,
        quant: Quantifier,
    },
}

/// Whether the bytes are the UTF-8 of one character.
fn is_one_char(bytes: &[u8]) -> bool
    ensures { result ≡ is_one_character bytes.now }
{
    match str::from_utf8(bytes) {
        Ok(text) => text.chars().count() == 1,
        Err(_) => false,
    }
}

impl Node {
    /// A node that matches nothing, a set of no code point: of `Node::make_always_fails(alloc)` `match_always_fails` is true.
    pub fn make_always_fails(alloc: Global) -> Node
        ensures { tree result ≡ char_set [] }
    {
        Node::CharSet(Vec::new(alloc))
    }

    /// Turns the parts of a `Cat` that stands in a lookbehind, so that they stand in the order in which they are read.
    ///
    /// Only this node is turned, and none below it. Any other node stays as it is. `w` tells whether it stands in a
    /// lookbehind, as a walk tells it.
    ///
    /// ```rust
    /// walk_mut(true, unicode, &mut node, &mut |node: &mut Node, w: &mut Walk| node.reverse_cats(w));
    /// ```
    pub fn reverse_cats(&mut self, w: &Walk)
        ensures { tree self.new ≡ (if w.now.in_lookbehind then turned (tree self.old) else tree self.old) }
    {
        if let Node::Cat(parts) = self
            && w.in_lookbehind
        {
            parts.reverse();
        }
    }

    /// Whether it is `Empty`: `Node::Empty.is_empty()`. A `Cat` without parts is not.
    pub fn is_empty(&self) -> bool
        ensures { result ≡ is_empty (tree self.now) }
    {
        matches!(self, Node::Empty)
    }

    /// Whether it is a `Cat`, also one without parts: `Node::Cat(Vec::new(alloc)).is_cat()`.
    pub fn is_cat(&self) -> bool
        ensures { result ≡ is_cat (tree self.now) }
    {
        matches!(self, Node::Cat(_))
    }

    /// Whether it is a character, a literal of one character, or a set that holds some character. Then whatever it
    /// matches is exactly one character, so a repetition of it may be a `Loop1CharBody`:
    /// `Node::MatchAny.matches_exactly_one_char()`.
    pub fn matches_exactly_one_char(&self) -> bool
        ensures form { result ≡ takes_one (tree self.now) }
        ensures steps { IsTrue result → (context : Context) (dir : Direction) (s : State) →
            All (IsOneFurther dir s) (node_outcomes context (tree self.now) dir s) }
    {
        match self {
            Node::Char { .. } | Node::MatchAny | Node::MatchAnyExceptLineTerminator => true,
            Node::ByteSequence(bytes) => is_one_char(bytes),
            Node::ByteSet(_) | Node::CharSet(_) | Node::Bracket(_) => !self.match_always_fails(),
            _ => false,
        }
    }

    /// Whether it is a set that holds no character. Then it matches nothing:
    /// `Node::make_always_fails(alloc).match_always_fails()`.
    pub fn match_always_fails(&self) -> bool
        ensures form { result ≡ always_fails (tree self.now) }
        ensures nothing { IsTrue result → (context : Context) (dir : Direction) (s : State) →
            All is_code_point context.text → s.place ≤ length context.text → node_outcomes context (tree self.now) dir s ≡ [] }
    {
        match self {
            Node::ByteSet(bytes) => bytes.is_empty(),
            Node::CharSet(chars) => chars.is_empty(),
            Node::Bracket(contents) => contents.is_empty(),
            _ => false,
        }
    }
}
