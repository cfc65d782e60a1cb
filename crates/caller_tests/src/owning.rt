//! What owns tables, and a regex that was compiled with them.

use crate::told::{compiled, ends, first};
use regress::{Error, Match, Regex, Tables};
use std::alloc::Global;
use std::test::Fail;

/// Tables, and a regex that was compiled with them.
#[derive(Drop)]
struct Owner {
    tables: Tables,
    regex: Regex,
}

impl Owner {
    /// The owner of tables, and of a regex.
    fn new(alloc: Global, tables: Tables, pattern: &str) -> Result<Owner, Error> {
        let regex = compiled(alloc, pattern, "", &tables)?;
        Ok(Owner { tables, regex })
    }

    /// One more regex, compiled with the same tables.
    fn another(&self, alloc: Global, pattern: &str) -> Result<Regex, Error> {
        compiled(alloc, pattern, "", &self.tables)
    }

    /// The first match of its regex in a text.
    fn first(&self, text: &str) -> Result<Option<Match>, Error> {
        first(&self.regex, text)
    }
}

#[test]
fn a_struct_owns_tables_and_a_regex(rt: HostRuntime) -> Result<(), Fail> {
    let owner = Owner::new(rt.alloc(), Tables::small(rt.alloc())?, "a+b")?;
    assert!(rt; ends(owner.first("xaab")?) == Some((1, 4)));
    let another = owner.another(rt.alloc(), "x")?;
    drop(owner);
    assert!(rt; ends(first(&another, "aax")?) == Some((2, 3)));
    Ok(())
}
