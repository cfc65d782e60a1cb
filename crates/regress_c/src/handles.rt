//! Exports that fill handles and free them.
ghost use Rattle.std.specs.Prelude.{◌≡◌, ℕ, None, Option, pos};
ghost use Rattle.regress_meaning.specs.TableParts.{TableParts as Parts, small_parts, table_of};
ghost use Rattle.regress_unicode.specs.Unicode.{IsUnicode};
ghost use Rattle.regress.specs.declared.api.Regex.{Regex as RegexValue};
ghost use Rattle.regress_call_errors.specs.declared.call_error.CallError.TheVariants.{OutOfMemory};
ghost use Rattle.regress_calls.specs.Codes.{IfCount, IfError};
ghost use Rattle.regress_calls.specs.Handles.{HoldsShared, Nothing, OfPattern, OfSearch, OfTables, content};
ghost use Rattle.regress_calls.specs.Refusals.{MayRefuseBound, MayRefuseMaking, MayRefuseCounted, MayRefuseSharing};
ghost use Rattle.regress_calls.specs.Stopping.{bound_of};

use crate::codes::done_code;
use regress_calls::{
    Slot, free, put_search, put_small_tables, put_unicode_tables, set_max_steps, share,
};
use std::alloc::Global;

/// Frees what a handle holds, if it holds anything.
#[unsafe(no_mangle)]
pub extern "C" fn regress_raw_free(alloc: Global, handle: &mut Slot)
    ensures { content handle.new.held ≡ Nothing }
{
    free(alloc, handle);
}

/// Puts the pattern, or the tables, that a handle holds into another, for one more owner.
#[unsafe(no_mangle)]
pub extern "C" fn regress_raw_share(alloc: Global, handle: &mut Slot, out: &mut Slot) -> i32
    ensures shared { IfCount result (λ _. HoldsShared (content handle.old.held) (content out.new.held)) }
    ensures kept { content handle.new.held ≡ content handle.old.held }
    ensures refused { IfError result (MayRefuseSharing (content handle.old.held)) }
    ensures untouched { IfError result (λ _. content out.new.held ≡ content out.old.held) }
{
    done_code(share(alloc, handle, out))
}

/// Puts small tables into a handle.
#[unsafe(no_mangle)]
pub extern "C" fn regress_raw_tables_small(alloc: Global, out: &mut Slot) -> i32
    ensures made { IfCount result (λ _. (ps : Parts) × (content out.new.held ≡ OfTables ps) × (table_of ps ≡ table_of small_parts)) }
    ensures refused { IfError result (λ e. e ≡ OutOfMemory) }
    ensures untouched { IfError result (λ _. content out.new.held ≡ content out.old.held) }
{
    done_code(put_small_tables(alloc, out))
}

/// Puts Unicode's tables into a handle.
#[unsafe(no_mangle)]
pub extern "C" fn regress_raw_tables_unicode(alloc: Global, out: &mut Slot) -> i32
    ensures made { IfCount result (λ _. (ps : Parts) × (content out.new.held ≡ OfTables ps) × IsUnicode ps) }
    ensures refused { IfError result MayRefuseMaking }
    ensures untouched { IfError result (λ _. content out.new.held ≡ content out.old.held) }
{
    done_code(put_unicode_tables(alloc, out))
}

/// Puts a search of the pattern that a handle holds into another.
#[unsafe(no_mangle)]
pub extern "C" fn regress_raw_search_new(alloc: Global, pattern: &mut Slot, out: &mut Slot) -> i32
    ensures made { IfCount result (λ _. (r : RegexValue) × (content pattern.old.held ≡ OfPattern r) × (content out.new.held ≡ OfSearch r None)) }
    ensures kept { content pattern.new.held ≡ content pattern.old.held }
    ensures refused { IfError result (MayRefuseCounted (content pattern.old.held)) }
    ensures untouched { IfError result (λ _. content out.new.held ≡ content out.old.held) }
{
    done_code(put_search(alloc, pattern, out))
}

/// Bounds how many steps the search for a match may take by the search that a handle holds; the greatest number takes the bound
/// away.
#[unsafe(no_mangle)]
pub extern "C" fn regress_raw_search_set_max_steps(
    alloc: Global,
    search: &mut Slot,
    steps: usize,
) -> i32
    ensures set { (r : RegexValue) → (bound : Option ℕ) → content search.old.held ≡ OfSearch r bound →
        (result ≡ pos 0) × (content search.new.held ≡ OfSearch r (bound_of steps)) }
    ensures refused { IfError result (MayRefuseBound (content search.old.held)) }
    ensures untouched { IfError result (λ _. content search.new.held ≡ content search.old.held) }
{
    done_code(set_max_steps(alloc, search, steps))
}
