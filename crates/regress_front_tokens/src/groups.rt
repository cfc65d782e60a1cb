//! The groups of a pattern by their names.
ghost use Rattle.std.specs.Prelude.{◌≡◌, ◌≤◌, ℕ, List, IfOk, IsUtf8, chars, length, map};
ghost use Rattle.std.specs.Rc.{rc_slice_items};
ghost use Rattle.regress_meaning.specs.Tokens.{numbers_from};
ghost use Rattle.regress_front_tokens.specs.Groups.{IsIndex, numbers_listed, numbers_shared, numbers_under};
ghost use Rattle.regress_front_tokens.specs.Words.{code_points_of};

use regress_front_tables::{CaptureGroupName, MAX_CAPTURE_GROUPS};
use std::alloc::{AllocError, Global};
use std::collections::BTreeMap;
use std::rc::RcSlice;

/// The numbers of a pattern's groups, from 0, under their names. Each list is shared by all that refer to it.
#[derive(Debug, Drop)]
pub(crate) struct GroupsByName {
    numbers: BTreeMap<CaptureGroupName, RcSlice<u16>>,
}

/// The numbers of groups, from 0, under their names. Where the groups are more than a pattern may have, only so many are listed.
fn numbers_by_name(
    alloc: Global,
    names: &[CaptureGroupName],
) -> Result<BTreeMap<CaptureGroupName, Vec<u16>>, AllocError>
    ensures { IfOk result (λ lists. length names.now ≤ 65535 → (name : List ℕ) → IsUtf8 name
        → numbers_listed lists name ≡ numbers_from 0 (chars name) (map code_points_of names.now)) }
{
    let mut lists: BTreeMap<CaptureGroupName, Vec<u16>> = BTreeMap::new(alloc);
    let names = &names[..names.len().min(MAX_CAPTURE_GROUPS)];
    for (group, name) in names.iter().enumerate() {
        lists.entry(name.clone()?)?.or_default().push(group as u16)?;
    }
    Ok(lists)
}

/// The same lists, to be shared.
fn shared(
    alloc: Global,
    mut lists: BTreeMap<CaptureGroupName, Vec<u16>>,
) -> Result<BTreeMap<CaptureGroupName, RcSlice<u16>>, AllocError>
    ensures { IfOk result (λ numbers. (name : List ℕ) → numbers_shared numbers name ≡ numbers_listed lists name) }
{
    let mut numbers = BTreeMap::new(alloc);
    while let Some((name, list)) = lists.pop_first() {
        numbers.insert(name, RcSlice::from_vec(list)?)?;
    }
    Ok(numbers)
}

impl GroupsByName {
    /// The groups with these names, of which each is that of the group by its number. Where they are more than a pattern may
    /// have, only so many are held.
    pub(crate) fn new(alloc: Global, names: &[CaptureGroupName]) -> Result<GroupsByName, AllocError>
        ensures { IfOk result (λ groups. IsIndex groups names.now) }
    {
        let lists = numbers_by_name(alloc, names)?;
        Ok(GroupsByName {
            numbers: shared(alloc, lists)?,
        })
    }

    /// The numbers of the groups that have the name ("GroupSpecifiersThatMatch").
    pub(crate) fn of(&self, alloc: Global, name: &str) -> Result<RcSlice<u16>, AllocError>
        ensures { IfOk result (λ groups. rc_slice_items groups ≡ numbers_under self.now name.now) }
    {
        match self.numbers.get(name) {
            Some(numbers) => numbers.clone(),
            None => RcSlice::from_vec(Vec::new(alloc)),
        }
    }
}
