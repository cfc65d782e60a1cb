//! How trees are printed: `Display` of a tree, a line for each kind of node.

use regress_front_core::{Flags, Quantifier};
use regress_front_nodes::ir::Regex;
use regress_front_nodes::{AnchorType, BracketContents, Node, NodeList};
use regress_front_tables::{CODE_POINT_MAX, CodePointSet, Error, Interval, Tables};
use std::alloc::Global;
use std::test::Fail;

const GREEDY: Quantifier = Quantifier {
    min: 0,
    max: None,
    greedy: true,
};

/// A bracket that holds none of all code points.
fn bracket(alloc: Global) -> Result<Node, Error> {
    let mut cps = CodePointSet::new(alloc);
    cps.add(Interval {
        first: 0,
        last: CODE_POINT_MAX,
    })?;
    Ok(Node::Bracket(BracketContents { invert: true, cps }))
}

fn look(alloc: Global, backwards: bool, contents: Node) -> Result<Node, Error> {
    Ok(Node::LookaroundAssertion {
        negate: false,
        backwards,
        start_group: 0,
        end_group: 0,
        contents: Box::new(alloc, contents)?,
    })
}

fn group(alloc: Global, contents: Node) -> Result<Node, Error> {
    Ok(Node::CaptureGroup {
        id: 0,
        contents: Box::new(alloc, contents)?,
        name: None,
    })
}

fn repeated(alloc: Global, loopee: Node) -> Result<Node, Error> {
    Ok(Node::Loop {
        loopee: Box::new(alloc, loopee)?,
        quant: GREEDY,
        enclosed_groups: 0..0,
    })
}

/// The first of these nodes.
fn leaves(alloc: Global) -> Result<NodeList, Error> {
    let mut parts = vec![in alloc;
        Node::Empty,
        Node::Char { c: 0x61 },
        Node::ByteSequence(Vec::from_array(alloc, [0x61, 0x62])?),
        Node::ByteSet(Vec::from_array(alloc, [0x41, 0x61])?),
        Node::CharSet(Vec::from_array(alloc, [0x4B, 0x212A])?),
    ]?;
    parts.push(Node::Alt(
        Box::new(alloc, Node::MatchAny)?,
        Box::new(alloc, Node::MatchAnyExceptLineTerminator)?,
    ))?;
    parts.push(Node::Anchor {
        anchor_type: AnchorType::StartOfLine,
        multiline: true,
    })?;
    parts.push(Node::Anchor {
        anchor_type: AnchorType::EndOfLine,
        multiline: false,
    })?;
    Ok(parts)
}

/// A node of each kind below a `Cat`.
fn each_kind(alloc: Global) -> Result<Node, Error> {
    let mut parts = leaves(alloc)?;
    parts.push(Node::WordBoundary {
        invert: true,
        unicode_icase: false,
    })?;
    parts.push(group(alloc, Node::Empty)?)?;
    parts.push(Node::BackRef {
        group: 1,
        icase: true,
    })?;
    parts.push(bracket(alloc)?)?;
    parts.push(Node::StringSet {
        alternatives: vec![in alloc; Vec::from_array(alloc, [0x61])?.into_boxed_slice()]?,
        icase: false,
    })?;
    parts.push(look(alloc, true, Node::Empty)?)?;
    parts.push(repeated(alloc, Node::Empty)?)?;
    parts.push(Node::Loop1CharBody {
        loopee: Box::new(alloc, Node::MatchAny)?,
        quant: GREEDY,
    })?;
    parts.push(Node::Goal)?;
    Ok(Node::Cat(parts))
}

/// How a tree is printed.
fn printed(alloc: Global, node: Node) -> Result<String, Error> {
    let tables = Tables::small(alloc).map_err(|_| Error::OutOfMemory)?;
    let regex = Regex {
        node,
        flags: Flags::default(),
        tables: &tables,
    };
    Ok(regex.to_string(alloc)?)
}

const EACH_KIND: &str = "Cat
  Empty
  Char { c: 97 }
  ByteSequence([97, 98])
  ByteSet([65, 97])
  CharSet([75, 8490])
  Alt
    MatchAny
    MatchAnyExceptLineTerminator
  Anchor { anchor_type: StartOfLine, multiline: true }
  Anchor { anchor_type: EndOfLine, multiline: false }
  WordBoundary { invert: true, unicode_icase: false }
  CaptureGroup 0
    Empty
  BackRef { group: 1, icase: true }
  Bracket(BracketContents { invert: true, cps: CodePointSet { intervals: [Interval { first: 0, last: 1114111 }] } })
  StringSet { alternatives: [[97]], icase: false }
  LookaroundAssertion { negate: false, backwards: true }
    Empty
  Loop Quantifier { min: 0, max: None, greedy: true }
    Empty
  Loop1CharBody Quantifier { min: 0, max: None, greedy: true }
    MatchAny
  Goal
";

#[test]
fn each_node_has_its_line(rt: HostRuntime) -> Result<(), Fail> {
    let text = printed(rt.alloc(), each_kind(rt.alloc())?)?;
    assert!(rt; text.as_str() == EACH_KIND);
    Ok(())
}
