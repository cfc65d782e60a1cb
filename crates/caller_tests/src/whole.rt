//! Patterns that have to match a whole text, as those of a validator.
ghost use Rattle.std.specs.Prelude.{◌↔◌, IsTrue, IfOk, chars};
ghost use Rattle.regress_meaning.specs.Pattern.{Pattern};
ghost use Rattle.regress_meaning.specs.Grammar.{Spells};
ghost use Rattle.regress_meaning.specs.WholeText.{MatchesWhole};
ghost use Rattle.regress_front.specs.FlagWords.{options};
ghost use Rattle.regress_front.specs.TableViews.{table};

use regress::{Error, Flags, Regex, Tables};
use std::alloc::Global;
use std::test::Fail;

/// Whether a text is one that a pattern describes: by some way to match it from the start of the text that ends at its end.
fn is_valid(
    alloc: Global,
    pattern: &str,
    flags: Flags,
    tables: &Tables,
    text: &str,
) -> Result<bool, Error>
    ensures { IfOk result (λ valid. (p : Pattern) × Spells (table tables.now) (options flags) (chars pattern.now) p
        × (IsTrue valid ↔ MatchesWhole (table tables.now) (options flags) p (chars text.now))) }
{
    regress_meaning::whole_texts_match_by_some_outcome();
    let regex = Regex::whole_text(alloc, pattern, flags, tables)?;
    let found = regex.is_match(text)?;
    Ok(found)
}

#[test]
fn any_way_to_match_counts(rt: HostRuntime) -> Result<(), Fail> {
    let alloc = rt.alloc();
    let tables = Tables::small(alloc)?;
    assert!(rt; is_valid(alloc, "a|ab", Flags::default(), &tables, "ab")?);
    assert!(rt; !is_valid(alloc, "a|ab", Flags::from("m"), &tables, "ab\nab")?);
    Ok(())
}
