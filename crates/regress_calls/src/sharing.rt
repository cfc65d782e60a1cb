//! What handles hold, for one more owner.
ghost use Rattle.std.specs.Prelude.{◌≡◌, IfOk, IfErr, OnErr};
ghost use Rattle.std.specs.Arc.{arc_value};
ghost use Rattle.regress_front_tables.specs.TableViews.{parts};
ghost use Rattle.regress_calls.specs.Handles.{OfPattern, OfTables, content};
ghost use Rattle.regress_calls.specs.Learning.{HoldsSame};
ghost use Rattle.regress_calls.specs.Refusals.{MayRefusePattern, MayRefuseTables};

use crate::held::Held;
use crate::slot::Slot;
use regress::{Regex, Tables};
use regress_call_errors::CallError;
use std::alloc::Global;
use std::sync::Arc;

/// The pattern of what is held, for one more owner.
fn pattern_of(held: &Held) -> Result<Arc<Regex>, CallError>
    ensures shared { IfOk result (λ a. content (Some held.now) ≡ OfPattern (arc_value a)) }
    ensures refused { IfErr result (MayRefusePattern (content (Some held.now))) }
{
    match held {
        Held::Pattern(regex) => Ok(Arc::try_clone(regex)?),
        _ => Err(CallError::WrongHandle),
    }
}

/// The tables of what is held, for one more owner.
fn tables_of(held: &Held) -> Result<Tables, CallError>
    ensures shared { IfOk result (λ ts. content (Some held.now) ≡ OfTables (parts ts)) }
    ensures refused { IfErr result (MayRefuseTables (content (Some held.now))) }
{
    match held {
        Held::Tables(tables) => Ok(tables.try_clone()?),
        _ => Err(CallError::WrongHandle),
    }
}

/// The pattern that a handle holds, for one more owner. Refused as `WrongHandle` where it holds none, and as `OutOfMemory`
/// where so many share it that they can't be counted.
pub(crate) fn pattern_in(alloc: Global, slot: &mut Slot) -> Result<Arc<Regex>, CallError>
    ensures shared { IfOk result (λ a. content slot.old.held ≡ OfPattern (arc_value a)) }
    ensures kept { content slot.new.held ≡ content slot.old.held }
    ensures refused { IfErr result (MayRefusePattern (content slot.old.held)) }
{
    let held = slot.take(alloc).ok_or(CallError::WrongHandle)?;
    let shared = pattern_of(&held);
    slot.put(alloc, held);
    shared
}

/// The pattern that a handle holds once it is worked out whether that is linear, for one more owner. If it is, the handle holds it with what
/// was learned. Refused as `pattern_in` is, and as `OutOfMemory`.
pub(crate) fn learned_in(alloc: Global, slot: &mut Slot) -> Result<Arc<Regex>, CallError>
    ensures held { IfOk result (λ a. content slot.new.held ≡ OfPattern (arc_value a)) }
    ensures same { HoldsSame (content slot.old.held) (content slot.new.held) }
    ensures untouched { OnErr result (content slot.new.held ≡ content slot.old.held) }
    ensures refused { IfErr result (MayRefusePattern (content slot.old.held)) }
{
    let regex = pattern_in(alloc, slot)?;
    if regex.is_linear() {
        return Ok(regex);
    }
    let mut learned = regex.try_clone()?;
    if !learned.learn_linear() {
        return Ok(regex);
    }
    let shared = Arc::new(alloc, learned)?;
    let held = Box::new(alloc, Held::Pattern(Arc::try_clone(&shared)?))?;
    slot.put(alloc, held);
    Ok(shared)
}

/// The tables that a handle holds, for one more owner. Refused as `pattern_in` is.
pub(crate) fn tables_in(alloc: Global, slot: &mut Slot) -> Result<Tables, CallError>
    ensures shared { IfOk result (λ ts. content slot.old.held ≡ OfTables (parts ts)) }
    ensures kept { content slot.new.held ≡ content slot.old.held }
    ensures refused { IfErr result (MayRefuseTables (content slot.old.held)) }
{
    let held = slot.take(alloc).ok_or(CallError::WrongHandle)?;
    let shared = tables_of(&held);
    slot.put(alloc, held);
    shared
}
