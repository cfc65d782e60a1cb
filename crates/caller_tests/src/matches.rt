//! A match of one's own, and the iteration over its groups.

use regress::{Groups, Match, Range};
use std::alloc::{AllocError, Global};
use std::sync::ArcSlice;
use std::test::Fail;

/// A match at 1..6 whose first group has the range 1..3; its second took no part.
fn found(alloc: Global) -> Result<Match, AllocError> {
    let names = ArcSlice::from_vec(Vec::new(alloc))?;
    Ok(Match::new(1..6, vec![in alloc; Some(1..3), None]?, names))
}

/// Whether exactly these groups are left, as many as are told, and then nothing comes, however often it is asked for.
fn are_left(groups: &mut Groups<'_>, expected: &[Option<Range>]) -> bool {
    let count = expected.len();
    if groups.len() != count || groups.size_hint() != (count, Some(count)) {
        return false;
    }
    for range in expected {
        if groups.next().as_ref() != Some(range) {
            return false;
        }
    }
    groups.next().is_none() && groups.next().is_none()
}

#[test]
fn the_whole_match_and_then_each_group(rt: HostRuntime) -> Result<(), Fail> {
    let mut found = found(rt.alloc())?;
    let mut groups = found.groups();
    let whole = groups.next();
    let mut same = groups.clone()?;
    assert!(rt; whole == Some(Some(1..6)) && are_left(&mut groups, &[Some(1..3), None]));
    assert!(rt; are_left(&mut same, &[Some(1..3), None]));
    found.captures.clear();
    assert!(rt; found.group(0) == Some(1..6) && found.group(1).is_none());
    assert!(rt; are_left(&mut found.groups(), &[Some(1..6)]));
    Ok(())
}
