//! The laws of tables, and why no tables are made.
ghost use Rattle.std.specs.Prelude.{◌≡◌, ℕ, Some};
ghost use Rattle.regress_meaning.specs.TableParts.{TableParts, IsLawful};
ghost use Rattle.regress_front_tables.specs.declared.tables.law.TableLaw.{TableLaw};
ghost use Rattle.regress_front_tables.specs.Breaking.{Tells};
ghost use Rattle.regress_front_tables.specs.TableTexts.{law_text};

use regress_front_sets::CodePoint;
use std::alloc::{AllocError, AllocFailed};
use std::{error, fmt};

/// What is asked of the parts of tables.
#[derive(Debug, Clone, Drop, PartialEq, Eq, Hash)]
pub enum TableLaw {
    /// All code points in pairs and strings are up to `CODE_POINT_MAX`.
    Range,
    /// The first parts of the pairs of a map strictly rise.
    Order,
    /// For code points under 80 (hexadecimal) `fold` is ASCII's lower case, and `upper` its upper case.
    AsciiCase,
    /// Each map applied twice is the map applied once.
    Idempotent,
    /// At most four code points have the same image.
    ClassSize,
    /// What is no surrogate is not mapped to one.
    Surrogate,
    /// The intervals of each list rise, and between two of them lies a code point of neither.
    Canonical,
    /// Of ASCII, identifiers begin with letters alone and go on with letters, digits and `_`. They hold no surrogates.
    Identifier,
}

/// Why no tables are made.
#[derive(Debug, Clone, Drop, PartialEq, Eq, Hash)]
pub enum TableError {
    /// A law is broken.
    Broken {
        /// The first of the laws that is broken.
        law: TableLaw,
        /// The least code point that breaks it. Where entries are out of order: of the first such, the code point that is mapped, or
        /// the first of the interval. Where a class is too large: the code point that its members are mapped to.
        code_point: CodePoint,
    },
    /// A request for memory was refused.
    OutOfMemory,
}

/// Of lawful parts nothing is told, so no tables with such parts are refused.
pub fn lawful_parts_break_no_law()
    ensures { (parts : TableParts) → IsLawful parts → (law : TableLaw) → (c : ℕ) → Tells law parts c → ⊥ }
{}

/// The name of the law that is broken, and a few words on it, without the code point; or `out of memory`.
impl fmt::Display for TableError {
    ghost use Rattle.regress_front_tables.specs.TableTexts.{table_error_text};

    ghost output = { λ e. Some (table_error_text e) };

    fn fmt<W: fmt::Write>(&self, f: &mut fmt::Formatter<W>) -> fmt::Result {
        f.write_str(match self {
            TableError::Broken { law, .. } => law_text(law),
            TableError::OutOfMemory => "out of memory",
        })
    }
}

/// What is wrong with a table's parts that break the law, behind its name.
fn law_text(law: &TableLaw) -> &'static str
    ensures { result.now ≡ law_text law.now }
{
    match law {
        TableLaw::Range => "Range: the table has a number past the last code point",
        TableLaw::Order => "Order: the table's pairs are out of order",
        TableLaw::AsciiCase => "AsciiCase: the table's case of ASCII is wrong",
        TableLaw::Idempotent => "Idempotent: the table maps a code point twice",
        TableLaw::ClassSize => "ClassSize: the table maps too many code points to one",
        TableLaw::Surrogate => "Surrogate: the table maps a code point to a surrogate",
        TableLaw::Canonical =>
            "Canonical: the table's intervals are out of order, overlap or are adjacent",
        TableLaw::Identifier => "Identifier: the table's identifiers have a wrong code point",
    }
}

impl error::Error for TableError {}

impl From<AllocError> for TableError {
    ghost use Rattle.regress_front_tables.specs.declared.tables.law.TableError.TheVariants.{OutOfMemory};

    ghost from_gives = { λ _ e. e ≡ OutOfMemory };

    fn from(_refused: AllocError) -> TableError {
        TableError::OutOfMemory
    }
}

impl<T: Drop> From<AllocFailed<T>> for TableError {
    ghost use Rattle.regress_front_tables.specs.declared.tables.law.TableError.TheVariants.{OutOfMemory};

    ghost from_gives = { λ _ e. e ≡ OutOfMemory };

    fn from(_refused: AllocFailed<T>) -> TableError {
        TableError::OutOfMemory
    }
}
