//! What is out of order in the parts of tables.
ghost use Rattle.std.specs.Prelude.{◌≡◌, IfNone, IfSome, map, option_map, chars};
ghost use Rattle.regress_meaning.specs.TableParts.{KeepsOrder, KeepsCanonical};
ghost use Rattle.regress_front_tables.specs.Parts.{parts_of};
ghost use Rattle.regress_front_sets.specs.Intervals.{ends_of};
ghost use Rattle.regress_front_tables.specs.declared.tables.law.TableLaw.TheVariants as law;
ghost use Rattle.regress_front_tables.specs.Breaking.{Tells, first_out_of_order, first_out_of_place, first_some, key_out_of_place};
ghost use Rattle.regress_front_tables.specs.Entries.{entry_of};

use super::parts::TableParts;
use regress_front_sets::{CodePoint, Interval};

/// The first code point mapped, in `fold` and else in `upper`, that does not rise above the one before it.
pub(crate) fn out_of_order(parts: &TableParts) -> Option<CodePoint>
    ensures kept { IfNone result (KeepsOrder (parts_of parts.now)) }
    ensures broken { IfSome result (λ c. Tells law.Order (parts_of parts.now) c) }
{
    first_out_of_order(&parts.fold).or_else(|| first_out_of_order(&parts.upper))
}

/// The start of the first interval, in `id_start`, `id_continue` and the properties, that meets the one before it or lies below.
pub(crate) fn out_of_place(parts: &TableParts) -> Option<CodePoint>
    ensures kept { IfNone result (KeepsCanonical (parts_of parts.now)) }
    ensures broken { IfSome result (λ c. Tells law.Canonical (parts_of parts.now) c) }
{
    first_out_of_place(&parts.id_start)
        .or_else(|| first_out_of_place(&parts.id_continue))
        .or_else(|| first_property_out_of_place(&parts.properties))
}

/// The start of the first interval of a property that does not lie above the one before it, with a code point between.
fn first_property_out_of_place(properties: &[(String, Vec<Interval>)]) -> Option<CodePoint>
    ensures { result ≡ first_some (map (λ e. first_out_of_place (ends_of e.1.items)) properties.now) }
{
    for (_, intervals) in properties {
        let told = first_out_of_place(intervals);
        if told.is_some() {
            return told;
        }
    }
    None
}

/// The key of the first property with an interval that does not lie above the one before it, with a code point between.
pub(crate) fn key_out_of_place(properties: &[(String, Vec<Interval>)]) -> Option<&str>
    ensures { option_map (λ key. chars key.now) result ≡ key_out_of_place (map (entry_of (λ v. ends_of v.items)) properties.now) }
{
    for (key, intervals) in properties {
        if first_out_of_place(intervals).is_some() {
            return Some(key.as_str());
        }
    }
    None
}

/// The first key that does not rise above the key before it.
fn first_out_of_order(pairs: &[(CodePoint, CodePoint)]) -> Option<CodePoint>
    ensures { result ≡ first_out_of_order pairs.now }
{
    let mut rest = pairs;
    while let [p, q, ..] = rest {
        if p.0 >= q.0 {
            return Some(q.0);
        }
        rest = &rest[1..];
    }
    None
}

/// The start of the first interval that does not lie above the one before it, with a code point between.
fn first_out_of_place(intervals: &[Interval]) -> Option<CodePoint>
    ensures { result ≡ first_out_of_place (ends_of intervals.now) }
{
    let mut rest = intervals;
    while let [i, j, ..] = rest {
        if i.last + 1 >= j.first {
            return Some(j.first);
        }
        rest = &rest[1..];
    }
    None
}
