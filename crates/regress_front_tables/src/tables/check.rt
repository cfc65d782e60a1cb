//! Whether parts of tables keep the laws.
ghost use Rattle.std.specs.Prelude.{◌+◌, OnOk, IfErr, IfNone, IfSome};
ghost use Rattle.regress_meaning.specs.TableParts.{IsLawful};
ghost use Rattle.regress_front_tables.specs.Parts.{parts_of};
ghost use Rattle.regress_front_tables.specs.Breaking.{Keeps, KeepsFirst, Tells, TellsBroken, rank};

use super::law::{TableError, TableLaw};
use super::order::{out_of_order, out_of_place};
use super::parts::TableParts;
use super::range::out_of_range;
use super::single::{
    mapped_to_surrogate, moved_twice, too_large_class, wrong_ascii_case, wrong_identifier,
};
use regress_front_sets::CodePoint;
use std::alloc::Global;

/// Tests the laws in their order. An error tells the first that is broken, or that a request for memory was refused.
pub(crate) fn check_laws(alloc: Global, parts: &TableParts) -> Result<(), TableError>
    ensures kept { OnOk result (IsLawful (parts_of parts.now)) }
    ensures broken { IfErr result (λ e. TellsBroken e (parts_of parts.now)) }
{
    refuse(parts, TableLaw::Range, out_of_range(parts))?;
    refuse(parts, TableLaw::Order, out_of_order(parts))?;
    refuse(parts, TableLaw::AsciiCase, wrong_ascii_case(parts))?;
    refuse(parts, TableLaw::Idempotent, moved_twice(parts))?;
    refuse(parts, TableLaw::ClassSize, too_large_class(alloc, parts)?)?;
    refuse(parts, TableLaw::Surrogate, mapped_to_surrogate(parts))?;
    refuse(parts, TableLaw::Canonical, out_of_place(parts))?;
    refuse(parts, TableLaw::Identifier, wrong_identifier(parts))
}

/// An error, if a code point is told for the law. All laws before it are kept.
fn refuse(parts: &TableParts, law: TableLaw, told: Option<CodePoint>) -> Result<(), TableError>
    requires earlier { KeepsFirst (rank law) (parts_of parts.now) }
    requires none { IfNone told (Keeps law (parts_of parts.now)) }
    requires some { IfSome told (λ c. Tells law (parts_of parts.now) c) }
    ensures kept { OnOk result (Keeps law (parts_of parts.now)) }
    ensures further { OnOk result (KeepsFirst (rank law + 1) (parts_of parts.now)) }
    ensures broken { IfErr result (λ e. TellsBroken e (parts_of parts.now)) }
{
    match told {
        Some(code_point) => Err(TableError::Broken { law, code_point }),
        None => Ok(()),
    }
}
