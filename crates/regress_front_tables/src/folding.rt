//! Code points where case is ignored: what they fold to, which fold alike, and sets closed under that.
ghost use Rattle.std.specs.Prelude.{◌≡◌, ◌+◌, ◌<◌, ◌≤◌, ◌==◌, ◌||◌, ℕ, Bool, true, false, ◌∷◌, [], vec_len, IfOk, OnOk, IsOkUnless};
ghost use Rattle.regress_meaning.specs.Text.{holds};
ghost use Rattle.regress_meaning.specs.Table.{canon, closure};
ghost use Rattle.regress_meaning.specs.TableParts.{image};
ghost use Rattle.regress_front_tables.specs.declared.tables.Tables.{Tables};
ghost use Rattle.regress_front_tables.specs.MapViews.{pairs_of};
ghost use Rattle.regress_front_tables.specs.TableViews.{table};
ghost use Rattle.regress_front_sets.specs.Sets.{in_set};
ghost use Rattle.regress_front_sets.specs.Intervals.{in_interval};
ghost use Rattle.regress_front_tables.specs.Folding.{Lists, Unites};

use crate::tables::Tables;
use crate::tables::case_map::CaseMap;
use crate::tables::pages::PAGE_SIZE;
use regress_front_sets::{CODE_POINT_MAX, CodePoint, CodePointSet, Error, Interval};
use std::alloc::{AllocError, Global};

/// The simple case folding of a code point, which is itself where it has no other ("Canonicalize"): `fold(&tables, 0x4B)` is
/// `0x6B`.
pub fn fold(tables: &Tables, c: CodePoint) -> CodePoint
    ensures { result ≡ (table tables.now).fold c }
{
    tables.fold(c)
}

/// The code points that fold to what this one folds to, from low to high ("Canonicalize", in Unicode mode). Where memory
/// is refused the error is `OutOfMemory`, and there is no other. Of the small table `unfold_char(alloc, 0x6B, &tables)?` holds
/// `0x4B`, `0x6B` and `0x212A`.
pub fn unfold_char(alloc: Global, c: CodePoint, tables: &Tables) -> Result<Vec<CodePoint>, Error>
    requires { c ≤ CODE_POINT_MAX }
    ensures members { IfOk result (λ cs. Lists (λ d. (table tables.now).fold d == (table tables.now).fold c) cs.items) }
    ensures refused { IsOkUnless result Error.OutOfMemory }
{
    Ok(sharing(alloc, map_of(tables, true), c)?)
}

/// All code points that fold to what a member of the set folds to ("CharacterSetMatcher", where case is ignored in Unicode
/// mode): of `k` alone `k`, `K` and the sign of kelvin. Where memory is refused the error is `OutOfMemory`, and there is no
/// other.
pub fn add_icase_code_points(set: CodePointSet, tables: &Tables) -> Result<CodePointSet, Error>
    ensures members { IfOk result (λ all. (c : ℕ) → in_set all c ≡ closure (table tables.now).fold (in_set set) c) }
    ensures refused { IsOkUnless result Error.OutOfMemory }
{
    closure(set, true, tables)
}

/// All code points that a member of the set stands for where case is ignored: those with its fold in Unicode mode, and else
/// those with its upper case ("CharacterSetMatcher"): of `k` alone `closure(set, false, &tables)?` holds `k` and `K`. Where
/// memory is refused the error is `OutOfMemory`, and there is no other.
pub fn closure(set: CodePointSet, unicode: bool, tables: &Tables) -> Result<CodePointSet, Error>
    ensures members { IfOk result (λ all. (c : ℕ) → in_set all c ≡ closure (canon (table tables.now) unicode) (in_set set) c) }
    ensures refused { IsOkUnless result Error.OutOfMemory }
{
    Ok(try_closure(set, unicode, tables)?)
}

/// `closure`, where the error is the allocator's: `try_closure(set, false, &tables)?` in what fails with nothing but `AllocError`.
pub fn try_closure(
    set: CodePointSet,
    unicode: bool,
    tables: &Tables,
) -> Result<CodePointSet, AllocError>
    ensures { IfOk result (λ all. (c : ℕ) → in_set all c ≡ closure (canon (table tables.now) unicode) (in_set set) c) }
{
    closed_by(set, map_of(tables, unicode))
}

/// The code points that a code point of a pattern stands for, from low to high: itself, or where case is ignored all with its
/// fold in Unicode mode, and else all with its upper case ("CharacterSetMatcher"). There are at most four. Where memory is
/// refused the error is `OutOfMemory`, and there is no other. `expand_code_point(alloc, 0x73, true, false, &tables)?` holds
/// `0x53` and `0x73`.
pub fn expand_code_point(
    alloc: Global,
    cp: CodePoint,
    icase: bool,
    unicode: bool,
    tables: &Tables,
) -> Result<Vec<CodePoint>, Error>
    requires { cp ≤ CODE_POINT_MAX }
    ensures alone { icase ≡ false → IfOk result (λ cs. cs.items ≡ cp ∷ []) }
    ensures all { icase ≡ true → IfOk result (λ cs. Lists (λ c. canon (table tables.now) unicode c == canon (table tables.now) unicode cp) cs.items) }
    ensures own { IfOk result (λ cs. holds cs.items cp ≡ true) }
    ensures few { IfOk result (λ cs. (0 < vec_len cs) × (vec_len cs ≤ 4)) }
    ensures refused { IsOkUnless result Error.OutOfMemory }
{
    Ok(try_expand_code_point(alloc, cp, icase, unicode, tables)?)
}

/// `expand_code_point`, where the error is the allocator's: `try_expand_code_point(alloc, 0x73, true, false, &tables)?` in what
/// fails with nothing but `AllocError`.
pub fn try_expand_code_point(
    alloc: Global,
    cp: CodePoint,
    icase: bool,
    unicode: bool,
    tables: &Tables,
) -> Result<Vec<CodePoint>, AllocError>
    requires { cp ≤ CODE_POINT_MAX }
    ensures alone { icase ≡ false → IfOk result (λ cs. cs.items ≡ cp ∷ []) }
    ensures all { icase ≡ true → IfOk result (λ cs. Lists (λ c. canon (table tables.now) unicode c == canon (table tables.now) unicode cp) cs.items) }
    ensures own { IfOk result (λ cs. holds cs.items cp ≡ true) }
    ensures few { IfOk result (λ cs. (0 < vec_len cs) × (vec_len cs ≤ 4)) }
{
    if icase {
        sharing(alloc, map_of(tables, unicode), cp)
    } else {
        Ok(vec![in alloc; cp]?)
    }
}

/// Folding applied twice is folding applied once, and so is upper case.
pub fn fold_is_idempotent()
    ensures fold { (tables : Tables) → (c : ℕ) → (table tables).fold ((table tables).fold c) ≡ (table tables).fold c }
    ensures upper { (tables : Tables) → (c : ℕ) → (table tables).upper ((table tables).upper c) ≡ (table tables).upper c }
{}

/// The map by which case is ignored: the fold in Unicode mode, and else the upper case.
fn map_of(tables: &Tables, unicode: bool) -> &CaseMap
    ensures { image (pairs_of result.now) ≡ canon (table tables.now) unicode }
{
    if unicode {
        &tables.known.fold
    } else {
        &tables.known.upper
    }
}

/// The code points that a map takes to where it takes this one, from low to high.
fn sharing(alloc: Global, map: &CaseMap, c: CodePoint) -> Result<Vec<CodePoint>, AllocError>
    requires { c ≤ CODE_POINT_MAX }
    ensures members { IfOk result (λ cs. Lists (λ d. image (pairs_of map.now) d == image (pairs_of map.now) c) cs.items) }
    ensures few { IfOk result (λ cs. (0 < vec_len cs) × (vec_len cs ≤ 4)) }
{
    Ok(match map.class(map.image(c)) {
        Some(members) => Vec::from_slice(alloc, members)?,
        None => vec![in alloc; c]?,
    })
}

/// The code points that a map takes to where it takes a member.
fn closed_by(set: CodePointSet, map: &CaseMap) -> Result<CodePointSet, AllocError>
    ensures { IfOk result (λ closed. (c : ℕ) → in_set closed c ≡ closure (image (pairs_of map.now)) (in_set set) c) }
{
    let mut added = CodePointSet::new(map.allocator());
    for interval in set.intervals() {
        add_classes(&mut added, &set, *interval, map)?;
    }
    let mut closed = set;
    closed.try_add_set(added)?;
    Ok(closed)
}

/// Adds what has the image of a code point of an interval, all of which is in a set, unless it is in the set as well.
fn add_classes(
    added: &mut CodePointSet,
    set: &CodePointSet,
    interval: Interval,
    map: &CaseMap,
) -> Result<(), AllocError>
    requires { (c : ℕ) → in_interval interval c ≡ true → in_set set.now c ≡ true }
    ensures { OnOk result (Unites (image (pairs_of map.now)) (in_interval interval)
        (λ c. in_set set.now c || in_set added.old c) (λ c. in_set set.now c || in_set added.new c)) }
{
    let mut c = interval.first;
    while c <= interval.last {
        if map.is_alone(c) {
            c = (c / PAGE_SIZE + 1) * PAGE_SIZE;
        } else {
            add_class(added, set, c, map)?;
            c += 1;
        }
    }
    Ok(())
}

/// Adds what has the image of a code point of a set, unless it is in the set as well.
fn add_class(
    added: &mut CodePointSet,
    set: &CodePointSet,
    c: CodePoint,
    map: &CaseMap,
) -> Result<(), AllocError>
    requires { in_set set.now c ≡ true }
    ensures { OnOk result (Unites (image (pairs_of map.now)) (λ d. d == c)
        (λ d. in_set set.now d || in_set added.old d) (λ d. in_set set.now d || in_set added.new d)) }
{
    if let Some(members) = map.class(map.image(c)) {
        for member in members {
            if !set.contains(*member) {
                added.try_add_one(*member)?;
            }
        }
    }
    Ok(())
}
