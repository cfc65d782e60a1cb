//! What tables are made of.
ghost use Rattle.std.specs.Prelude.{◌≡◌, ◌+◌, ◌^◌, ◌<◌, ◌≤◌, ◌∷◌, [], map, codes, IfOk, IsOkUnless};
ghost use Rattle.regress_meaning.specs.TableParts.{shifted, small_parts};
ghost use Rattle.regress_front_sets.specs.Intervals.{ends, ends_of};
ghost use Rattle.regress_front_tables.specs.Entries.{entry_of};

use super::law::TableError;
use super::order::key_out_of_place;
use regress_front_sets::{CODE_POINT_MAX, CodePoint, Interval};
use std::alloc::{AllocError, Global};

/// The parts of tables, as plain lists. `Tables::new` tests them.
#[derive(Debug, Drop)]
pub struct TableParts {
    /// Simple case folding: each code point that has another one, with that.
    pub fold: Vec<(CodePoint, CodePoint)>,
    /// Simple upper case: each code point that has another one, with that.
    pub upper: Vec<(CodePoint, CodePoint)>,
    /// The code points that an identifier may begin with.
    pub id_start: Vec<Interval>,
    /// The code points that an identifier may go on with.
    pub id_continue: Vec<Interval>,
    /// The properties of code points by their keys, the text between the braces of `\p{..}`.
    pub properties: Vec<(String, Vec<Interval>)>,
    /// The properties of strings by their keys.
    pub sequences: Vec<(String, Vec<Vec<CodePoint>>)>,
}

impl TableParts {
    ghost use Rattle.std.specs.Prelude.{option_map, chars};
    ghost use Rattle.regress_front_tables.specs.Parts.{parts_of};
    ghost use Rattle.regress_front_tables.specs.Breaking.{key_out_of_place};

    /// The parts of the small table: ASCII, a few letters beyond it and four keys. `TableParts::small(alloc)?.id_start` holds
    /// letters alone. The only error is `OutOfMemory`.
    pub fn small(alloc: Global) -> Result<TableParts, TableError>
        ensures small { IfOk result (λ parts. parts_of parts ≡ small_parts) }
        ensures refused { IsOkUnless result TableError.OutOfMemory }
    {
        Ok(TableParts {
            fold: small_fold(alloc)?,
            upper: small_upper(alloc)?,
            id_start: small_id_start(alloc)?,
            id_continue: small_id_continue(alloc)?,
            properties: small_properties(alloc)?,
            sequences: small_sequences(alloc)?,
        })
    }

    /// The key of the first property whose intervals don't rise, overlap or are adjacent, where there is one. Where `Tables::new`
    /// would tell the law `Canonical` and this is `None`, the intervals are those of an identifier's code points.
    ///
    /// ```rust
    /// let key = parts.key_out_of_place(); // `Some("ASCII")`, where that has the intervals 0 to 0x3F and 0x40 to 0x7F
    /// ```
    pub fn key_out_of_place(&self) -> Option<&str>
        ensures { option_map (λ key. chars key.now) result ≡ key_out_of_place (parts_of self.now).properties }
    {
        key_out_of_place(&self.properties)
    }
}

/// The 26 letters from the first on, each with what lies as far above the image of the first.
fn letters(
    alloc: Global,
    first: CodePoint,
    image: CodePoint,
) -> Result<Vec<(CodePoint, CodePoint)>, AllocError>
    requires first { first + 26 < 2 ^ 32 }
    requires image { image + 26 < 2 ^ 32 }
    ensures { IfOk result (λ pairs. pairs.items ≡ shifted first image 26) }
{
    (0..26).map(|k| (first + k, image + k)).collect(alloc)
}

fn small_fold(alloc: Global) -> Result<Vec<(CodePoint, CodePoint)>, AllocError>
    ensures { IfOk result (λ pairs. pairs.items ≡ small_parts.fold) }
{
    let mut pairs = letters(alloc, 0x41, 0x61)?;
    pairs.extend_from_slice(&[
        (0xC9, 0xE9),
        (0x17F, 0x73),
        (0x398, 0x3B8),
        (0x3A3, 0x3C3),
        (0x3C2, 0x3C3),
        (0x3D1, 0x3B8),
        (0x3F4, 0x3B8),
        (0x212A, 0x6B),
    ])?;
    Ok(pairs)
}

fn small_upper(alloc: Global) -> Result<Vec<(CodePoint, CodePoint)>, AllocError>
    ensures { IfOk result (λ pairs. pairs.items ≡ small_parts.upper) }
{
    let mut pairs = letters(alloc, 0x61, 0x41)?;
    pairs.extend_from_slice(&[
        (0xE9, 0xC9),
        (0x3B8, 0x398),
        (0x3C2, 0x3A3),
        (0x3C3, 0x3A3),
        (0x3D1, 0x398),
    ])?;
    Ok(pairs)
}

fn small_id_start(alloc: Global) -> Result<Vec<Interval>, AllocError>
    ensures { IfOk result (λ intervals. ends_of intervals.items ≡ small_parts.id_start) }
{
    Ok(vec![in alloc;
        interval(0x41, 0x5A),
        interval(0x61, 0x7A),
        interval(0xC9, 0xC9),
        interval(0xE9, 0xE9),
    ]?)
}

fn small_id_continue(alloc: Global) -> Result<Vec<Interval>, AllocError>
    ensures { IfOk result (λ intervals. ends_of intervals.items ≡ small_parts.id_continue) }
{
    Ok(vec![in alloc;
        interval(0x30, 0x39),
        interval(0x41, 0x5A),
        interval(0x5F, 0x5F),
        interval(0x61, 0x7A),
        interval(0xC9, 0xC9),
        interval(0xE9, 0xE9),
    ]?)
}

fn small_properties(alloc: Global) -> Result<Vec<(String, Vec<Interval>)>, AllocError>
    ensures { IfOk result (λ properties. map (entry_of (λ v. ends_of v.items)) properties.items ≡ small_parts.properties) }
{
    let all = vec![in alloc; interval(0, CODE_POINT_MAX)]?;
    let ascii = vec![in alloc; interval(0, 0x7F)]?;
    let hexadecimal_digits = vec![in alloc;
        interval(0x30, 0x39),
        interval(0x41, 0x46),
        interval(0x61, 0x66),
    ]?;
    Ok(vec![in alloc;
        (String::from_str(alloc, "Any")?, all),
        (String::from_str(alloc, "ASCII")?, ascii),
        (
            String::from_str(alloc, "ASCII_Hex_Digit")?,
            hexadecimal_digits
        ),
    ]?)
}

/// The interval with these ends.
fn interval(first: CodePoint, last: CodePoint) -> Interval
    requires ordered { first ≤ last }
    requires bounded { last ≤ CODE_POINT_MAX }
    ensures { ends result ≡ (first, last) }
{
    Interval { first, last }
}

fn small_sequences(alloc: Global) -> Result<Vec<(String, Vec<Vec<CodePoint>>)>, AllocError>
    ensures { IfOk result (λ sequences. map (entry_of (λ v. map (λ s. s.items) v.items)) sequences.items ≡ small_parts.sequences) }
{
    let keycaps = keycaps(alloc)?;
    Ok(vec![in alloc; (String::from_str(alloc, "Emoji_Keycap_Sequence")?, keycaps)]?)
}

/// The characters of a telephone's keys, each followed by what makes it a keycap.
fn keycaps(alloc: Global) -> Result<Vec<Vec<CodePoint>>, AllocError>
    ensures { IfOk result (λ strings. map (λ s. s.items) strings.items ≡ map (λ c. c ∷ 0xFE0F ∷ 0x20E3 ∷ []) (codes "#*0123456789")) }
{
    let mut strings = Vec::new(alloc);
    for key in b"#*0123456789" {
        strings.push(vec![in alloc; u32::from(*key), 0xFE0F, 0x20E3]?)?;
    }
    Ok(strings)
}
