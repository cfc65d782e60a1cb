//! Rewrites each date of the text on standard input, as `2025-12-31`, to `31.12.2025`, and prints the text.
#![tactic(auto)]

use anyhow::Result;
use regress::{Flags, Regex, Tables};
use std::io;

const DATE: &str = r"(?<year>\d{4})-(?<month>\d\d)-(?<day>\d\d)";

fn main(rt: HostRuntime) -> Result<()> {
    let text = io::read_to_string(rt.alloc(), rt.stdin())?;
    let tables = Tables::small(rt.alloc())?;
    let script = Flags::parse("u")?;
    let dates = Regex::with_flags(rt.alloc(), DATE, script.flags, &tables)?;
    let turned = dates.replace_all(text.as_str(), "${day}.${month}.${year}")?;
    rt.print(turned)?;
    Ok(())
}
