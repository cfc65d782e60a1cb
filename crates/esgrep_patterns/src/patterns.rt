//! The patterns that are searched for.
ghost use Rattle.std.specs.Prelude.{◌≡◌, ◌≢◌, ◌≤◌, ◌<◌, ◌+◌, ◌↔◌, ℕ, List, Option, None, Some, [], length, map, chars, Any, IfOk, IfSome, IsErrOf, IsTrue, OnOk, IsOkUnless};
ghost use Rattle.regress_meaning.specs.Table.{Table};
ghost use Rattle.regress_meaning.specs.Pattern.{Pattern};
ghost use Rattle.regress_meaning.specs.Flags.{Options};
ghost use Rattle.regress_meaning.specs.Matches.{match_list, next_place};
ghost use Rattle.regress_meaning.specs.Offsets.{of_utf8, Begins};
ghost use Rattle.regress_match.specs.TextRanges.{LiesInText};
ghost use Rattle.regress.specs.Standing.{StandsFor, names_of_regex};
ghost use Rattle.regress.specs.Coming.{IsStart};
ghost use Rattle.esgrep_rows.specs.Found.{found_of, LieInOrder};
ghost use Rattle.esgrep_patterns.specs.Seeking.{Sought, Hit, sooner, first_hit, leftmost, found_in, found_of_several, regexes_of, steps_of, AreHits, BeginsInText, IsHit, Seeks, SeekAll, IsTooLong, GivesUp};

use crate::prefiltered::Prefiltered;
use esgrep_lines::{FindError, Finder};
use regress::{Match, Regex, SearchError, is_start};

/// Patterns, each searched for alone: what they find of one is its matches, of several from each place on the leftmost.
///
/// Where they have a number of steps, each search for the next match of a pattern is given up that would take more.
#[derive(Drop)]
pub struct Patterns<'r> {
    searched: Prefiltered<'r>,
    steps: Option<usize>,
}

impl<'r> Patterns<'r> {
    /// Patterns of these regexes, and how many steps each search may take, if there is a bound.
    ///
    /// ```rust
    /// let patterns = Patterns::new(from_ref(&regex), None);
    /// ```
    pub fn new(regexes: &'r [Regex], steps: Option<usize>) -> Patterns<'r>
        ensures regexes { regexes_of result ≡ regexes.now }
        ensures steps { steps_of result ≡ steps }
    {
        Patterns {
            searched: Prefiltered::new(regexes),
            steps,
        }
    }

    /// Appends all matches of several patterns: from each place on the leftmost.
    fn find_several_into(&self, text: &str, founds: &mut Vec<Match>) -> Result<(), FindError>
        requires { founds.old.items ≡ [] }
        ensures found { (ss : List Sought) → SeekAll (regexes_of self.now) ss → (template : Option (List ℕ)) →
            OnOk result (map (found_of template text.now) founds.new.items ≡ found_of_several ss template text.now) }
        ensures order { OnOk result (LieInOrder text.now 0 founds.new.items) }
        ensures given { IsErrOf result FindError.GivenUp → GivesUp self.now text.now }
    {
        let mut start = 0;
        while start <= text.len() {
            let Some(found) = self.leftmost(text, start)? else {
                break;
            };
            start = behind(text, &found);
            founds.push(found)?;
        }
        Ok(())
    }

    /// Of the first match of each pattern from `start` on the leftmost, and of those that begin there that of the first pattern.
    fn leftmost(&self, text: &str, start: usize) -> Result<Option<Match>, FindError>
        requires { IsStart text.now start }
        ensures found { (ss : List Sought) → SeekAll (regexes_of self.now) ss → (place : ℕ) → Begins (of_utf8 text.now) start place →
            IfOk result (λ found. AreHits text.now found (leftmost (chars text.now) ss place)) }
        ensures inside { IfOk result (λ found. IfSome found (BeginsInText text.now start)) }
        ensures given { IsErrOf result FindError.GivenUp → GivesUp self.now text.now }
    {
        let mut leftmost = None;
        for regex in self.searched.regexes {
            leftmost = sooner(leftmost, next_match(regex, self.steps, text, start)?);
        }
        Ok(leftmost)
    }
}

impl<'r> Finder for Patterns<'r> {
    ghost use Rattle.esgrep_patterns.specs.Seeking.{Finds, GivesUp};

    ghost finds = { Finds };

    ghost gives_up = { GivesUp };

    fn is_match(&self, _start: usize, text: &str) -> Result<bool, FindError> {
        if self.searched.regexes.len() == 1 {
            return has_match(&self.searched.regexes[0], self.steps, text);
        }
        is_any_match(&self.searched.regexes, self.steps, text)
    }

    fn find_into(
        &self,
        _start: usize,
        text: &str,
        founds: &mut Vec<Match>,
    ) -> Result<(), FindError> {
        founds.clear();
        if self.searched.regexes.len() == 1 && self.steps.is_none() {
            return find_one_into(&self.searched.regexes[0], text, founds);
        }
        self.find_several_into(text, founds)
    }

    fn candidate(&self, text: &str) -> Option<usize> {
        match &self.searched.prefilter {
            Some(prefilter) => prefilter.find_from(text.as_bytes(), 0),
            None => Some(0),
        }
    }
}

/// What ends a search that may take so many steps, as what ends that of a line.
fn given_up(error: SearchError) -> FindError
    ensures { result ≡ FindError.GivenUp → error ≡ SearchError.TooManySteps }
{
    match error {
        SearchError::OutOfMemory => FindError::OutOfMemory,
        SearchError::TooManySteps => FindError::GivenUp,
    }
}

/// Whether there is a match of a pattern.
fn has_match(regex: &Regex, steps: Option<usize>, text: &str) -> Result<bool, FindError>
    ensures found { (t : Table) → (o : Options) → (p : Pattern) → StandsFor regex.now t o p →
        IfOk result (λ found. IsTrue found ↔ (match_list t o p (chars text.now) 0 ≢ [])) }
    ensures given { IsErrOf result FindError.GivenUp → IsTooLong steps text.now regex.now }
{
    let Some(steps) = steps else {
        return Ok(regex.is_match(text)?);
    };
    match regex.within(steps).is_match(text) {
        Ok(found) => Ok(found),
        Err(error) => Err(given_up(error)),
    }
}

/// Whether there is a match of one of several patterns.
fn is_any_match(regexes: &[Regex], steps: Option<usize>, text: &str) -> Result<bool, FindError>
    ensures found { (ss : List Sought) → SeekAll regexes.now ss →
        IfOk result (λ found. IsTrue found ↔ (leftmost (chars text.now) ss 0 ≢ None)) }
    ensures given { IsErrOf result FindError.GivenUp → Any (IsTooLong steps text.now) regexes.now }
{
    for regex in regexes {
        if has_match(regex, steps, text)? {
            return Ok(true);
        }
    }
    Ok(false)
}

/// Appends all matches of a pattern.
fn find_one_into(regex: &Regex, text: &str, founds: &mut Vec<Match>) -> Result<(), FindError>
    requires { founds.old.items ≡ [] }
    ensures found { (t : Table) → (o : Options) → (p : Pattern) → StandsFor regex.now t o p → (template : Option (List ℕ)) →
        OnOk result (map (found_of template text.now) founds.new.items ≡ found_in t o p template (names_of_regex regex.now) text.now) }
    ensures order { OnOk result (LieInOrder text.now 0 founds.new.items) }
    ensures refused { IsOkUnless result FindError.OutOfMemory }
{
    for found in regex.find_iter(text)? {
        let found = found?;
        founds.push(found)?;
    }
    Ok(())
}

/// The first match of a pattern from `start` on.
fn next_match(
    regex: &Regex,
    steps: Option<usize>,
    text: &str,
    start: usize,
) -> Result<Option<Match>, FindError>
    requires { IsStart text.now start }
    ensures found { (s : Sought) → Seeks regex.now s → (place : ℕ) → Begins (of_utf8 text.now) start place →
        IfOk result (λ found. AreHits text.now found (first_hit (chars text.now) place s)) }
    ensures inside { IfOk result (λ found. IfSome found (BeginsInText text.now start)) }
    ensures given { IsErrOf result FindError.GivenUp → IsTooLong steps text.now regex.now }
{
    let Some(steps) = steps else {
        return first_from(regex, text, start);
    };
    match first_within(regex, steps, text, start) {
        Ok(found) => Ok(found),
        Err(error) => Err(given_up(error)),
    }
}

/// The first match of a pattern from `start` on, in however many steps.
fn first_from(regex: &Regex, text: &str, start: usize) -> Result<Option<Match>, FindError>
    requires { IsStart text.now start }
    ensures found { (s : Sought) → Seeks regex.now s → (place : ℕ) → Begins (of_utf8 text.now) start place →
        IfOk result (λ found. AreHits text.now found (first_hit (chars text.now) place s)) }
    ensures inside { IfOk result (λ found. IfSome found (BeginsInText text.now start)) }
    ensures refused { IsOkUnless result FindError.OutOfMemory }
{
    let Some(found) = regex.find_from(text, start)?.next().transpose()? else {
        return Ok(None);
    };
    if found.start() < start {
        return Ok(None);
    }
    Ok(Some(found))
}

/// The first match of a pattern from `start` on, in so many steps.
fn first_within(
    regex: &Regex,
    steps: usize,
    text: &str,
    start: usize,
) -> Result<Option<Match>, SearchError>
    requires { IsStart text.now start }
    ensures found { (s : Sought) → Seeks regex.now s → (place : ℕ) → Begins (of_utf8 text.now) start place →
        IfOk result (λ found. AreHits text.now found (first_hit (chars text.now) place s)) }
    ensures inside { IfOk result (λ found. IfSome found (BeginsInText text.now start)) }
    ensures stopped { IsErrOf result SearchError.TooManySteps → IsTooLong (Some steps) text.now regex.now }
{
    let bounded = regex.within(steps);
    let Some(found) = bounded.find_from(text, start)?.next().transpose()? else {
        return Ok(None);
    };
    if found.start() < start {
        return Ok(None);
    }
    Ok(Some(found))
}

/// The one of two matches that begins first; the first of them where both begin at one place.
fn sooner(first: Option<Match>, second: Option<Match>) -> Option<Match>
    ensures hits { (text : List ℕ) → (a b : Option Hit) → AreHits text first a → AreHits text second b → AreHits text result (sooner a b) }
    ensures inside { (text : List ℕ) → (start : ℕ) → IfSome first (BeginsInText text start) → IfSome second (BeginsInText text start)
        → IfSome result (BeginsInText text start) }
{
    match (first, second) {
        (Some(first), Some(second)) => {
            if second.start() < first.start() {
                Some(second)
            } else {
                Some(first)
            }
        }
        (None, second) => second,
        (first, None) => first,
    }
}

/// Where a search goes on behind a match: at its end, or a character later where it is empty.
fn behind(text: &str, found: &Match) -> usize
    requires { LiesInText text.now found.now }
    ensures next { (h : Hit) → IsHit text.now found.now h → Begins (of_utf8 text.now) result (next_place h.item) }
    ensures later { found.now.range.start < result }
    ensures after { found.now.range.end ≤ result }
    ensures start { result ≤ length text.now → IsStart text.now result }
{
    if found.start() < found.end() {
        return found.end();
    }
    let mut next = found.end() + 1;
    while next <= text.len() && !is_start(text, next) {
        next += 1;
    }
    next
}
