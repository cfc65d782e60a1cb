//! Case and properties of code points.
ghost use Rattle.std.specs.Prelude.{◌≡◌, All, IfOk, map, chars, option_map, option_copied};
ghost use Rattle.std.specs.Arc.{arc_value};
ghost use Rattle.regress_meaning.specs.TableParts.{IsLawful, IntervalsRise, entry};
ghost use Rattle.regress_front_sets.specs.Props.{IsLawful-prop};
ghost use Rattle.regress_front_sets.specs.Intervals.{ends_of};
ghost use Rattle.regress_front_sets.specs.Sets.{ends_in};
ghost use Rattle.regress_front_tables.specs.Entries.{entry_of};
ghost use Rattle.regress_front_tables.specs.Listed.{parts_known};
ghost use Rattle.regress_front_tables.specs.Parts.{parts_of};

pub(crate) mod case_map;
mod check;
pub(crate) mod classes;
pub(crate) mod image;
pub(crate) mod law;
mod order;
pub(crate) mod pages;
pub(crate) mod parts;
mod range;
pub(crate) mod single;

use case_map::CaseMap;
use check::check_laws;
use law::TableError;
use parts::TableParts;
use regress_front_sets::{CodePoint, CodePointSet, Interval};
use std::alloc::{AllocError, Global};
use std::fmt;
use std::sync::Arc;

/// What tables know.
#[derive(Drop)]
pub(crate) struct Known {
    pub(crate) fold: CaseMap,
    pub(crate) upper: CaseMap,
    id_start: CodePointSet,
    id_continue: CodePointSet,
    properties: Vec<(String, CodePointSet)>,
    sequences: Vec<(String, Vec<Vec<CodePoint>>)>,
}

/// Case and properties of code points, which patterns are compiled by. They keep all laws (`TableLaw`). What they know is kept
/// once for all that share it, so tables, and what was compiled with them, may have one owner.
#[derive(Drop)]
pub struct Tables {
    pub(crate) known: Arc<Known>,
    pub ghost lawful: { IsLawful (parts_known (arc_value known)) } by { IsLawful-prop (parts_known (arc_value known)) },
}

impl Tables {
    ghost use Rattle.std.specs.Prelude.{IfErr, OnOk, IsOkUnless};
    ghost use Rattle.regress_meaning.specs.Table.{canon};
    ghost use Rattle.regress_meaning.specs.TableParts.{table_of, small_parts};
    ghost use Rattle.regress_front_sets.specs.Sets.{in_set};
    ghost use Rattle.regress_front_tables.specs.Breaking.{TellsBroken};
    ghost use Rattle.regress_front_tables.specs.TableViews.{known_by, table, parts as parts_in};

    /// The tables with these parts, if the parts keep all laws. Otherwise `Broken` tells the first law that they break, in
    /// the order of `TableLaw`. Where a request for memory is refused, the error is `OutOfMemory`.
    /// `Tables::new(alloc, parts)?` of what `TableParts::small(alloc)?` answers is the small table.
    pub fn new(alloc: Global, parts: TableParts) -> Result<Tables, TableError>
        ensures made { IfOk result (λ tables. parts_in tables ≡ parts_of parts) }
        ensures lawful { OnOk result (IsLawful (parts_of parts)) }
        ensures broken { IfErr result (λ e. TellsBroken e (parts_of parts)) }
    {
        check_laws(alloc, &parts)?;
        let known = known_of(alloc, parts)?;
        let shared = Arc::new(alloc, known)?;
        Ok(Tables { known: shared })
    }

    /// The small table, which knows ASCII, a few letters beyond it and four keys: `Tables::small(alloc)?`. The only error is
    /// `OutOfMemory`.
    pub fn small(alloc: Global) -> Result<Tables, TableError>
        ensures small { IfOk result (λ tables. table tables ≡ table_of small_parts) }
        ensures refused { IsOkUnless result TableError.OutOfMemory }
    {
        regress_meaning::small_parts_are_lawful();
        Tables::new(alloc, TableParts::small(alloc)?)
    }

    /// The same tables, for one more owner: nothing of what they know is copied. It errs only where so many share it that they
    /// can't be counted: `let shared = tables.try_clone()?`.
    pub fn try_clone(&self) -> Result<Tables, AllocError>
        ensures { IfOk result (λ shared. known_by shared ≡ known_by self.now) }
    {
        Ok(Tables {
            known: Arc::try_clone(&self.known)?,
        })
    }

    /// The simple case folding of a code point, which is itself where it has no other ("Canonicalize"): `tables.fold(0x4B)` is
    /// `0x6B`.
    pub fn fold(&self, c: CodePoint) -> CodePoint
        ensures { result ≡ (table self.now).fold c }
    {
        self.known.fold.image(c)
    }

    /// The simple upper case of a code point, which is itself where it has no other ("Canonicalize"): `tables.upper(0x6B)` is
    /// `0x4B`.
    pub fn upper(&self, c: CodePoint) -> CodePoint
        ensures { result ≡ (table self.now).upper c }
    {
        self.known.upper.image(c)
    }

    /// What two code points have alike where case is ignored: the fold in Unicode mode, and else the upper case
    /// ("Canonicalize"). `tables.canon(true, 0x4B)` is `0x6B`, `tables.canon(false, 0x4B)` is `0x4B`.
    pub fn canon(&self, unicode: bool, c: CodePoint) -> CodePoint
        ensures { result ≡ canon (table self.now) unicode c }
    {
        if unicode { self.fold(c) } else { self.upper(c) }
    }

    /// Whether an identifier may begin with the code point ("IdentifierStartChar", without `$` and `_`):
    /// `tables.id_start(0x30)` is false.
    pub fn id_start(&self, c: CodePoint) -> bool
        ensures { result ≡ (table self.now).is_id_start c }
    {
        self.known.id_start.contains(c)
    }

    /// Whether an identifier may go on with the code point ("IdentifierPartChar", without `$`): `tables.id_continue(0x30)` is
    /// true.
    pub fn id_continue(&self, c: CodePoint) -> bool
        ensures { result ≡ (table self.now).is_id_continue c }
    {
        self.known.id_continue.contains(c)
    }

    /// The code points with a property ("UnicodeMatchProperty"). The key is the text between the braces of `\p{..}`. The
    /// answer is `None` where no property of code points has that key, as for `tables.property("Basic_Emoji")`.
    pub fn property(&self, key: &str) -> Option<&CodePointSet>
        ensures { option_map (λ set. in_set set.now) result ≡ (table self.now).property (chars key.now) }
    {
        entry(&self.known.properties, key)
    }

    /// The strings with a property of strings ("UnicodeMatchProperty"), each as its code points. The key is the text between
    /// the braces of `\p{..}`, as in `tables.sequences("Emoji_Keycap_Sequence")`. The answer is `None` where no property of
    /// strings has that key.
    pub fn sequences(&self, key: &str) -> Option<&[Vec<CodePoint>]>
        ensures { option_map (λ strings. map (λ s. s.items) strings.now) result ≡ (table self.now).sequences (chars key.now) }
    {
        entry(&self.known.sequences, key).map(|strings| strings.as_slice())
    }
}

/// How much they know, and not what: of each map of case its pages and classes, of each set of identifiers its intervals, and
/// how many keys there are.
impl fmt::Debug for Tables {
    fn fmt<W: fmt::Write>(&self, f: &mut fmt::Formatter<W>) -> fmt::Result {
        f.debug_struct("Tables")
            .field("fold", &self.known.fold)
            .field("upper", &self.known.upper)
            .field("id_start", &self.known.id_start.intervals().len())
            .field("id_continue", &self.known.id_continue.intervals().len())
            .field("properties", &self.known.properties.len())
            .field("sequences", &self.known.sequences.len())
            .finish()
    }
}

/// What tables of parts that keep all laws know.
fn known_of(alloc: Global, parts: TableParts) -> Result<Known, AllocError>
    requires { IsLawful (parts_of parts) }
    ensures { IfOk result (λ known. parts_known known ≡ parts_of parts) }
{
    let properties = property_sets(alloc, parts.properties)?;
    Ok(Known {
        fold: CaseMap::new(alloc, &parts.fold)?,
        upper: CaseMap::new(alloc, &parts.upper)?,
        id_start: CodePointSet::from_sorted_disjoint_intervals(parts.id_start),
        id_continue: CodePointSet::from_sorted_disjoint_intervals(parts.id_continue),
        properties,
        sequences: parts.sequences,
    })
}

/// The properties, with a set for each list of intervals.
fn property_sets(
    alloc: Global,
    properties: Vec<(String, Vec<Interval>)>,
) -> Result<Vec<(String, CodePointSet)>, AllocError>
    requires { All (λ e. IntervalsRise (ends_of e.1.items)) properties.items }
    ensures { IfOk result (λ sets. map (entry_of ends_in) sets.items ≡ map (entry_of (λ v. ends_of v.items)) properties.items) }
{
    properties
        .into_iter()
        .map(|(key, intervals)| (key, CodePointSet::from_sorted_disjoint_intervals(intervals)))
        .collect(alloc)
}

/// What stands under a key, at its first entry.
fn entry<'a, T>(entries: &'a [(String, T)], key: &str) -> Option<&'a T>
    ensures { option_copied result ≡ entry (chars key.now) (map (entry_of (λ v. v)) entries.now) }
{
    entries.iter().find(|e| e.0.as_str() == key).map(|e| &e.1)
}
