//! Long patterns, rewritten.

use crate::parsed::rewritten;
use regress_front_nodes::Node;
use regress_front_tables::Tables;
use std::alloc::Global;
use std::test::Fail;

/// How many bytes the literals among some parts have.
fn byte_count(parts: &[Node]) -> usize {
    let mut total: usize = 0;
    for part in parts {
        if let Node::ByteSequence(bytes) = part {
            total = total.saturating_add(bytes.len());
        }
    }
    total
}

/// How many parts the rewritten tree of a pattern has, which is a piece so many times, and how many bytes its literals have.
fn parts_and_bytes(alloc: Global, piece: &str, count: usize) -> Result<(usize, usize), Fail> {
    let tables = Tables::small(alloc)?;
    let pattern = piece.repeat(alloc, count)?;
    let regex = rewritten(alloc, pattern.as_str(), "", &tables)?;
    match &regex.node {
        Node::Cat(parts) => Ok((parts.len(), byte_count(parts))),
        _ => Err("no sequence".into()),
    }
}

/// Pieces, how often each is written, and how many parts and bytes the rewritten tree has.
const LONG: &[(&str, usize, usize, usize)] = &[
    ("a", 20_000, 2, 20_000),
    ("(?:ab)", 4_000, 2, 8_000),
    ("[ab]", 2_000, 2_001, 0),
    ("[a-z]", 2_000, 2_001, 0),
    ("a*", 2_000, 2_001, 0),
];

#[test]
fn long_patterns_are_rewritten(rt: HostRuntime) -> Result<(), Fail> {
    for (piece, count, parts, bytes) in LONG {
        if parts_and_bytes(rt.alloc(), piece, *count)? != (*parts, *bytes) {
            return Err(Fail::new(*piece));
        }
    }
    Ok(())
}
