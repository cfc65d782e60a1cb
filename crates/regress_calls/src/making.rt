//! What handles are filled with.
ghost use Rattle.std.specs.Prelude.{◌≡◌, IfOk, IfErr, None, OnOk, OnErr};
ghost use Rattle.std.specs.Arc.{arc_value};
ghost use Rattle.regress_meaning.specs.TableParts.{TableParts as Parts, small_parts, table_of};
ghost use Rattle.regress_front_tables.specs.TableViews.{table};
ghost use Rattle.regress_unicode.specs.Unicode.{IsUnicode};
ghost use Rattle.regress.specs.declared.api.Regex.{Regex as RegexValue};
ghost use Rattle.regress_calls.specs.Handles.{OfPattern, OfSearch, OfTables, HoldsShared, content};
ghost use Rattle.regress_calls.specs.Refusals.{MayRefuseMaking, MayRefuseCounted, MayRefuseSharing};

use crate::held::Held;
use crate::search::Search;
use crate::sharing::pattern_in;
use crate::slot::Slot;
use regress::{Regex, Tables};
use regress_call_errors::CallError;
use regress_unicode::unicode_tables;
use std::alloc::Global;
use std::sync::Arc;

/// Puts small tables into a handle. Errs with `OutOfMemory`.
pub fn put_small_tables(alloc: Global, out: &mut Slot) -> Result<(), CallError>
    ensures made { OnOk result ((ps : Parts) × (content out.new.held ≡ OfTables ps) × (table_of ps ≡ table_of small_parts)) }
    ensures refused { IfErr result (λ e. e ≡ CallError.OutOfMemory) }
    ensures untouched { OnErr result (content out.new.held ≡ content out.old.held) }
{
    let tables = Tables::small(alloc)?;
    let held = Box::new(alloc, Held::Tables(tables))?;
    out.put(alloc, held);
    Ok(())
}

/// Puts Unicode's tables into a handle. Errs with `OutOfMemory`; `BrokenTables` could come only if Unicode's data broke a law.
pub fn put_unicode_tables(alloc: Global, out: &mut Slot) -> Result<(), CallError>
    ensures made { OnOk result ((ps : Parts) × (content out.new.held ≡ OfTables ps) × IsUnicode ps) }
    ensures refused { IfErr result MayRefuseMaking }
    ensures untouched { OnErr result (content out.new.held ≡ content out.old.held) }
{
    let tables = unicode_tables(alloc)?;
    let held = Box::new(alloc, Held::Tables(tables))?;
    out.put(alloc, held);
    Ok(())
}

/// What is held, for one more owner, if it is shared.
fn shared(held: &Held) -> Result<Held, CallError>
    ensures shared { IfOk result (λ h. HoldsShared (content (Some held.now)) (content (Some h))) }
    ensures refused { IfErr result (MayRefuseSharing (content (Some held.now))) }
{
    match held {
        Held::Tables(tables) => Ok(Held::Tables(tables.try_clone()?)),
        Held::Pattern(regex) => Ok(Held::Pattern(Arc::try_clone(regex)?)),
        Held::Search(_) => Err(CallError::WrongHandle),
    }
}

/// Puts the pattern, or the tables, that a handle holds into another, for one more owner. Errs with `WrongHandle` where it holds
/// neither, and with `OutOfMemory`.
pub fn share(alloc: Global, slot: &mut Slot, out: &mut Slot) -> Result<(), CallError>
    ensures shared { OnOk result (HoldsShared (content slot.old.held) (content out.new.held)) }
    ensures kept { content slot.new.held ≡ content slot.old.held }
    ensures refused { IfErr result (MayRefuseSharing (content slot.old.held)) }
    ensures untouched { OnErr result (content out.new.held ≡ content out.old.held) }
{
    let held = slot.take(alloc).ok_or(CallError::WrongHandle)?;
    let owned = shared(&held);
    slot.put(alloc, held);
    let boxed = Box::new(alloc, owned?)?;
    out.put(alloc, boxed);
    Ok(())
}

/// A search of a pattern, as it is held.
fn searching(alloc: Global, regex: Arc<Regex>) -> Result<Box<Held>, CallError>
    ensures made { IfOk result (λ held. content (Some held.value) ≡ OfSearch (arc_value regex) None) }
    ensures refused { IfErr result (MayRefuseCounted (OfPattern (arc_value regex))) }
{
    let search = Search::new(alloc, regex)?;
    let held = Box::new(alloc, Held::Search(search))?;
    Ok(held)
}

/// Puts a search of the pattern that a handle holds into another. Errs with `WrongHandle` where it holds none, and with
/// `OutOfMemory`; with `TooManyGroups` only where a pattern had more than 65535 groups, and no compiled one has.
pub fn put_search(alloc: Global, pattern: &mut Slot, out: &mut Slot) -> Result<(), CallError>
    ensures made { OnOk result ((r : RegexValue) × (content pattern.old.held ≡ OfPattern r) × (content out.new.held ≡ OfSearch r None)) }
    ensures kept { content pattern.new.held ≡ content pattern.old.held }
    ensures refused { IfErr result (MayRefuseCounted (content pattern.old.held)) }
    ensures untouched { OnErr result (content out.new.held ≡ content out.old.held) }
{
    let regex = pattern_in(alloc, pattern)?;
    let held = searching(alloc, regex)?;
    out.put(alloc, held);
    Ok(())
}
