//! What is out of range in the parts of tables.
ghost use Rattle.std.specs.Prelude.{◌≡◌, IfNone, IfSome, map};
ghost use Rattle.std.specs.List.{flat_map};
ghost use Rattle.regress_meaning.specs.TableParts.{KeepsRange};
ghost use Rattle.regress_front_tables.specs.Parts.{parts_of};
ghost use Rattle.regress_front_tables.specs.declared.tables.law.TableLaw.TheVariants.{Range};
ghost use Rattle.regress_front_tables.specs.Breaking.{Tells, least_past, numbers_of};

use super::parts::TableParts;
use super::single::least;
use regress_front_sets::{CODE_POINT_MAX, CodePoint};

/// The least number past the last code point, of all pairs and strings.
pub(crate) fn out_of_range(parts: &TableParts) -> Option<CodePoint>
    ensures kept { IfNone result (KeepsRange (parts_of parts.now)) }
    ensures broken { IfSome result (λ c. Tells Range (parts_of parts.now) c) }
{
    let pairs = least(past_in_pairs(&parts.fold), past_in_pairs(&parts.upper));
    least(pairs, past_in_sequences(&parts.sequences))
}

/// The least number past the last code point, of the pairs.
fn past_in_pairs(pairs: &[(CodePoint, CodePoint)]) -> Option<CodePoint>
    ensures { result ≡ least_past (numbers_of pairs.now) }
{
    let from = pairs.iter().map(|pair| pair.0);
    let to = pairs.iter().map(|pair| pair.1);
    from.chain(to).filter(|c| *c > CODE_POINT_MAX).min()
}

/// The least number past the last code point, of the strings of all keys.
fn past_in_sequences(sequences: &[(String, Vec<Vec<CodePoint>>)]) -> Option<CodePoint>
    ensures { result ≡ least_past (flat_map (λ e. flat_map (λ s. s.items) e.1.items) sequences.now) }
{
    sequences
        .iter()
        .filter_map(|entry| past_in_strings(&entry.1))
        .min()
}

/// The least number past the last code point, of the strings.
fn past_in_strings(strings: &[Vec<CodePoint>]) -> Option<CodePoint>
    ensures { result ≡ least_past (flat_map (λ s. s.items) strings.now) }
{
    let numbers = strings.iter().flatten().copied();
    numbers.filter(|c| *c > CODE_POINT_MAX).min()
}
