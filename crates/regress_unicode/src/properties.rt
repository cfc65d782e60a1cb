//! Properties of code points by their keys.
ghost use Rattle.std.specs.Prelude.{map, IfOk, IsOkUnless};
ghost use Rattle.regress_front_sets.specs.Intervals.{ends_of};
ghost use Rattle.regress_front_tables.specs.Entries.{entry_of};
ghost use Rattle.regress_unicode.specs.Keys.{key_sets, unicode_properties};
ghost use Rattle.regress_unicode.specs.Unicode.{HoldAll};

use crate::casefold::casefolded;
use crate::keys::unicode_keys;
use crate::sets::intervals;
use regress_front_tables::{Interval, TableError};
use std::alloc::Global;

/// All properties of code points, each under its key.
pub(crate) fn properties(alloc: Global) -> Result<Vec<(String, Vec<Interval>)>, TableError>
    ensures held { IfOk result (λ properties. HoldAll (map (entry_of (λ v. ends_of v.items)) properties.items) unicode_properties) }
    ensures refused { IsOkUnless result TableError.OutOfMemory }
{
    let mut properties = set_properties(alloc)?;
    let folded = casefolded(alloc)?;
    let again = Vec::from_slice(alloc, &folded)?;
    let name = String::from_str(alloc, "Changes_When_NFKC_Casefolded")?;
    let alias = String::from_str(alloc, "CWKCF")?;
    properties.push((name, folded))?;
    properties.push((alias, again))?;
    Ok(properties)
}

/// The properties that are sets of Unicode's data.
fn set_properties(alloc: Global) -> Result<Vec<(String, Vec<Interval>)>, TableError>
    ensures held { IfOk result (λ properties. HoldAll (map (entry_of (λ v. ends_of v.items)) properties.items) key_sets) }
    ensures refused { IsOkUnless result TableError.OutOfMemory }
{
    let mut properties = Vec::new(alloc);
    for (key, set) in unicode_keys(alloc)? {
        properties.push((key, intervals(alloc, set)?))?;
    }
    Ok(properties)
}
