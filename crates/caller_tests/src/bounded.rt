//! Searches that may take so many steps, and no more. By their public calls, as callers would write them.
ghost use Rattle.std.specs.Prelude.{IsErrOf};

use crate::told::{compiled, ends};
use regress::{Match, Regex, SearchError, Tables, is_start};
use std::alloc::Global;
use std::test::Fail;

/// Ways of two kinds through each letter, and a back reference, so that no failure is remembered.
const SLOW: &str = r"((a|a)*)\1b";

/// The text of each match, found in so many steps for all of them.
fn parts<'t>(
    alloc: Global,
    regex: &Regex,
    text: &'t str,
    steps: usize,
) -> Result<Vec<&'t str>, SearchError> {
    let mut parts = Vec::new(alloc);
    for found in regex.within(steps).find_iter(text)? {
        if let Some(part) = text.get(found?.range()) {
            parts.push(part)?;
        }
    }
    Ok(parts)
}

/// The first match from an offset on, in so many steps; `None` inside a character too.
fn first_from(
    regex: &Regex,
    text: &str,
    start: usize,
    steps: usize,
) -> Result<Option<Match>, SearchError> {
    if !is_start(text, start) {
        return Ok(None);
    }
    regex
        .within(steps)
        .find_from(text, start)?
        .next()
        .transpose()
}

/// How many matches come before the search is given up, or the text ends.
fn count(regex: &Regex, text: &str, steps: usize) -> Result<usize, SearchError> {
    let mut count = 0usize;
    for found in regex.within(steps).find_iter(text)? {
        match found {
            Ok(_) => count = count.saturating_add(1),
            Err(SearchError::TooManySteps) => return Ok(count),
            Err(error) => return Err(error),
        }
    }
    Ok(count)
}

/// The text of each field of a line, in so many steps for all of them together.
fn fields<'t>(
    alloc: Global,
    regex: &Regex,
    line: &'t str,
    steps: usize,
) -> Result<Vec<&'t str>, SearchError> {
    let mut fields = Vec::new(alloc);
    for field in regex.within(steps).split(line)? {
        let field = field?;
        fields.push(field)?;
    }
    Ok(fields)
}

/// The first match of a linear pattern, in as many steps as are always enough; `None` of any other pattern.
fn first_linear(regex: &Regex, text: &str) -> Result<Option<Match>, SearchError>
    ensures { IsErrOf result SearchError.TooManySteps → ⊥ }
{
    let Some(steps) = regex.linear_steps(text.len()) else {
        return Ok(None);
    };
    regex.within(steps).find(text)
}

#[test]
fn a_search_that_takes_too_many_steps_is_given_up(rt: HostRuntime) -> Result<(), Fail> {
    let tables = Tables::small(rt.alloc())?;
    let slow = compiled(rt.alloc(), SLOW, "", &tables)?;
    let text = "a".repeat(rt.alloc(), 60)?;
    let found = slow.within(10_000).is_match(text.as_str());
    assert!(rt; found == Err(SearchError::TooManySteps));
    let found = slow.within(10_000).is_match("aab");
    assert!(rt; found == Ok(true));
    Ok(())
}

#[test]
fn a_search_in_enough_steps_answers_the_same(rt: HostRuntime) -> Result<(), Fail> {
    let tables = Tables::small(rt.alloc())?;
    let regex = compiled(rt.alloc(), "(é+)|a", "", &tables)?;
    let found = parts(rt.alloc(), &regex, "xaéé é", 1_000)?;
    assert!(rt; found.as_slice() == ["a", "éé", "é"].as_slice());
    let second = first_from(&regex, "xaéé é", 2, 1_000)?;
    assert!(rt; ends(second) == Some((2, 6)));
    Ok(())
}

#[test]
fn an_iteration_has_one_budget(rt: HostRuntime) -> Result<(), Fail> {
    let tables = Tables::small(rt.alloc())?;
    let regex = compiled(rt.alloc(), "[ab]+?", "", &tables)?;
    let text = "ab".repeat(rt.alloc(), 500)?;
    let few = count(&regex, text.as_str(), 500)?;
    let all = count(&regex, text.as_str(), 100_000)?;
    assert!(rt; few > 0 && few < 500 && all == 1_000);
    Ok(())
}

#[test]
fn no_step_is_enough_for_no_run(rt: HostRuntime) -> Result<(), Fail> {
    let tables = Tables::small(rt.alloc())?;
    let regex = compiled(rt.alloc(), "ab", "", &tables)?;
    assert!(rt; regex.within(0).is_match("ab") == Err(SearchError::TooManySteps));
    assert!(rt; regex.within(0).is_match("xyz") == Ok(false));
    Ok(())
}

#[test]
fn fields_in_so_many_steps(rt: HostRuntime) -> Result<(), Fail> {
    let tables = Tables::small(rt.alloc())?;
    let comma = compiled(rt.alloc(), ",", "", &tables)?;
    let told = fields(rt.alloc(), &comma, "é,b,,c", 1_000)?;
    assert!(rt; told.as_slice() == ["é", "b", "", "c"].as_slice());
    let mut two = comma.within(1_000).splitn("é,b,c", 2)?;
    assert!(rt; two.next().transpose()? == Some("é") && two.next().transpose()? == Some("b,c"));
    assert!(rt; two.next().is_none());
    Ok(())
}

#[test]
fn texts_in_so_many_steps(rt: HostRuntime) -> Result<(), Fail> {
    let tables = Tables::small(rt.alloc())?;
    let digits = compiled(rt.alloc(), "\\d", "", &tables)?;
    let bounded = digits.within(1_000);
    assert!(rt; bounded.replace("a1b2c3", "<$0>")?.as_str() == "a<1>b2c3");
    assert!(rt; bounded.replacen("a1b2c3", 2, "#")?.as_str() == "a#b#c3");
    assert!(rt; bounded.replace_all("a1b2c3", "")?.as_str() == "abc");
    let alloc = rt.alloc();
    let new = |_: &Match| -> Result<String, SearchError> { Ok(String::from_str(alloc, "$0")?) };
    assert!(rt; bounded.replace_with("a1b2", &new)?.as_str() == "a$0b2");
    assert!(rt; bounded.replace_all_with("a1b2", &new)?.as_str() == "a$0b$0");
    assert!(rt;
        matches!(
            &digits.within(0).replace("a1", "#"),
            Err(SearchError::TooManySteps)
        )
    );
    Ok(())
}

#[test]
fn a_linear_pattern_is_searched_in_enough_steps(rt: HostRuntime) -> Result<(), Fail> {
    let tables = Tables::small(rt.alloc())?;
    // From each letter the lookahead goes on to the end: without a table the steps grow as the square of the length.
    let mut regex = compiled(rt.alloc(), "(?:(?=(?:a|d)*b)a)*c", "", &tables)?;
    let mut text = "a".repeat(rt.alloc(), 2_000)?;
    text.push('b')?;
    assert!(rt; !regex.is_linear() && regex.linear_steps(text.len()) == None);
    assert!(rt; regex.learn_linear() && regex.is_linear());
    assert!(rt; ends(first_linear(&regex, text.as_str())?) == None);
    let enough = regex.linear_steps(text.len()).unwrap_or(0);
    assert!(rt; regex.within(enough).is_match(text.as_str()) == Ok(false));
    let fewer = enough.saturating_sub(1);
    assert!(rt; regex.within(fewer).is_match(text.as_str()) == Err(SearchError::TooManySteps));
    text.push('c')?;
    assert!(rt; ends(first_linear(&regex, text.as_str())?) == Some((2_001, 2_002)));
    Ok(())
}

#[test]
fn a_table_tells_what_groups_took(rt: HostRuntime) -> Result<(), Fail> {
    let tables = Tables::small(rt.alloc())?;
    // The first lookahead goes on to the end from each letter, so the search turns to a table. Then a walk writes the groups: through the
    // second lookahead, the atomic group and the lookbehind.
    let pattern = "(?:(?=(?:a|d)*b)(?=(a)|(d))a)*(?>(b)|c)(?<=(a)b)";
    let mut regex = compiled(rt.alloc(), pattern, "", &tables)?;
    let mut text = "a".repeat(rt.alloc(), 10_000)?;
    text.push('b')?;
    assert!(rt; regex.learn_linear());
    let fewer = regex
        .linear_steps(text.len())
        .unwrap_or(0)
        .saturating_sub(1);
    assert!(rt; regex.within(fewer).is_match(text.as_str()) == Err(SearchError::TooManySteps));
    let Some(found) = first_linear(&regex, text.as_str())? else {
        return Err(Fail::new(format!(in rt.alloc(); "no match")?));
    };
    assert!(rt; found.range() == (0..10_001) && found.group(1) == Some(9_999..10_000));
    assert!(rt; found.group(2).is_none() && found.group(3) == Some(10_000..10_001));
    assert!(rt; found.group(4) == Some(9_999..10_000));
    Ok(())
}
