//! Texts with others in the place of their matches.
ghost use Rattle.std.specs.Prelude.{◌≡◌, ◌⊎◌, ◌++◌, ℕ, List, take, map, IfOk, IfErr, OnOk, alloc_error, string_bytes};
ghost use Rattle.std.specs.Fn.{FnReturnsAt, FnOnceReturnsAt};
ghost use Rattle.regress_meaning.specs.Laws.{ItemsRise};
ghost use Rattle.regress_match.specs.GroupViews.{names_of_match};
ghost use Rattle.regress_match.specs.TextRanges.{LiesInText};
ghost use Rattle.regress_match.specs.Views.{item_of};
ghost use Rattle.regress_replacing.specs.Replacing.{replaced};
ghost use Rattle.regress_replacing.specs.Syntax.{replacement_text};
ghost use Rattle.regress_replacing.specs.SyntaxViews.{syntax_of, text_of};
ghost use Rattle.regress_matched.specs.Answering.{AnswersEach, RefusesOne};
ghost use Rattle.regress_matched.specs.Giving.{Errs};

use crate::matches::TextMatches;
use regress_match::Match;
use regress_replacing::AnyReplacement;
use std::alloc::{AllocError, Global};

/// Adds a part of the text that is kept, and a new text behind it.
fn append<E: From<AllocError>>(written: &mut String, kept: &str, new: &str) -> Result<(), E>
    ensures added { OnOk result (string_bytes written.new ≡ string_bytes written.old ++ kept.now ++ new.now) }
    ensures refused { IfErr result (λ e. E.from_gives alloc_error e) }
{
    written.push_str(kept)?;
    written.push_str(new)?;
    Ok(())
}

/// Adds a part of the text that is kept, and behind it what a replacement text stands for at a match.
fn append_replacement<E: From<AllocError>>(
    written: &mut String,
    kept: &str,
    read: &AnyReplacement<'_>,
    found: &Match,
    text: &str,
) -> Result<(), E>
    requires { LiesInText text.now found.now }
    ensures added { OnOk result (string_bytes written.new ≡ string_bytes written.old ++ kept.now
        ++ replacement_text (syntax_of read.now) (names_of_match found.now) (text_of read.now) text.now (item_of found.now)) }
    ensures refused { IfErr result (λ e. E.from_gives alloc_error e) }
{
    written.push_str(kept)?;
    match read.write(found, text, written) {
        Ok(()) => Ok(()),
        Err(_) => Err(E::from(AllocError)),
    }
}

/// A text with its first matches, at most `limit`, replaced by what a replacement text that was read stands for there.
///
/// Asks that the matches are of the text and lie one behind the other. Errs where memory is refused, and where the matches err.
///
/// ```rust
/// let written = replace_first(alloc, matches, "a1b2c3", 2, &read)?; // for `\d` and `#` it is `a#b#c3`
/// ```
pub fn replace_first<M: TextMatches>(
    alloc: Global,
    mut matches: M,
    text: &str,
    limit: usize,
    read: &AnyReplacement<'_>,
) -> Result<String, M::Error>
    requires over { M.searched matches ≡ text.now }
    requires rise { ItemsRise (M.coming matches) }
    ensures replaced { let items = take limit (M.coming matches) in
        IfOk result (λ s. string_bytes s ≡ replaced text.now items (map (replacement_text (syntax_of read.now) (M.names matches) (text_of read.now) text.now) items)) }
    ensures refused { IfErr result (λ e. M.Error.from_gives alloc_error e ⊎ Errs M.gives matches e) }
{
    let mut written = String::new(alloc);
    let mut behind = 0;
    for _ in 0..limit {
        let Some(given) = matches.next_match() else {
            break;
        };
        let found = match given {
            Ok(found) => found,
            Err(error) => return Err(error),
        };
        append_replacement(
            &mut written,
            &text[behind..found.start()],
            read,
            &found,
            text,
        )?;
        behind = found.end();
    }
    append(&mut written, &text[behind..], "")?;
    Ok(written)
}

/// A text with each match replaced by what a replacement text that was read stands for there.
///
/// Asks that the matches are of the text and lie one behind the other. Errs where memory is refused, and where the matches err.
///
/// ```rust
/// let written = replace_each(alloc, matches, "a1b2", &read)?; // for `\d` and `#` it is `a#b#`
/// ```
pub fn replace_each<M: TextMatches>(
    alloc: Global,
    mut matches: M,
    text: &str,
    read: &AnyReplacement<'_>,
) -> Result<String, M::Error>
    requires over { M.searched matches ≡ text.now }
    requires rise { ItemsRise (M.coming matches) }
    ensures replaced { let items = M.coming matches in
        IfOk result (λ s. string_bytes s ≡ replaced text.now items (map (replacement_text (syntax_of read.now) (M.names matches) (text_of read.now) text.now) items)) }
    ensures refused { IfErr result (λ e. M.Error.from_gives alloc_error e ⊎ Errs M.gives matches e) }
{
    let mut written = String::new(alloc);
    let mut behind = 0;
    while let Some(given) = matches.next_match() {
        let found = match given {
            Ok(found) => found,
            Err(error) => return Err(error),
        };
        append_replacement(
            &mut written,
            &text[behind..found.start()],
            read,
            &found,
            text,
        )?;
        behind = found.end();
    }
    append(&mut written, &text[behind..], "")?;
    Ok(written)
}

/// A text with its first match replaced by the text that a closure answers to it, as it stands.
///
/// Asks that the matches are of the text and lie one behind the other, and that the closure may be called on any match. Errs with
/// what the closure errs with, and where memory is refused or the matches err, turned into the same type.
///
/// ```rust
/// let new = |_: &Match| -> Result<String, Error> { Ok(String::from_str(alloc, "#")?) };
/// let written = replace_with(alloc, matches, "a1b2", new)?; // for `\d` it is `a#b2`
/// ```
pub fn replace_with<M, E, F>(
    alloc: Global,
    mut matches: M,
    text: &str,
    with: F,
) -> Result<String, E>
where
    M: TextMatches,
    E: From<M::Error>,
    F: FnOnce(&Match) -> Result<String, E>,
    requires over { M.searched matches ≡ text.now }
    requires rise { ItemsRise (M.coming matches) }
    requires callable { F.IsAlwaysCallable with }
    ensures replaced { let items = take 1 (M.coming matches) in
        IfOk result (λ s. (news : List (List ℕ)) × AnswersEach (FnOnceReturnsAt F.FnOnce with) (M.names matches) items news
        × (string_bytes s ≡ replaced text.now items news)) }
    ensures refused { let items = take 1 (M.coming matches) in
        IfErr result (λ e. ((x : M.Error) × (M.Error.from_gives alloc_error x ⊎ Errs M.gives matches x) × E.from_gives x e)
        ⊎ RefusesOne (FnOnceReturnsAt F.FnOnce with) (M.names matches) items e) }
{
    let mut written = String::new(alloc);
    let Some(given) = matches.next_match() else {
        append::<M::Error>(&mut written, text, "")?;
        return Ok(written);
    };
    let found = given?;
    let answer = with(&found)?;
    append::<M::Error>(&mut written, &text[..found.start()], answer.as_str())?;
    append::<M::Error>(&mut written, &text[found.end()..], "")?;
    Ok(written)
}

/// A text with each match replaced by the text that a closure answers to it, as it stands. The closure is called on the matches
/// in order.
///
/// Asks that the matches are of the text and lie one behind the other, and that the closure may be called on any match. Errs with
/// the first error that the closure answers, and where memory is refused or the matches err, turned into the same type.
///
/// ```rust
/// let new = |_: &Match| -> Result<String, Error> { Ok(String::from_str(alloc, "#")?) };
/// let written = replace_all_with(alloc, matches, "a1b2", new)?; // for `\d` it is `a#b#`
/// ```
pub fn replace_all_with<M, E, F>(
    alloc: Global,
    mut matches: M,
    text: &str,
    with: F,
) -> Result<String, E>
where
    M: TextMatches,
    E: From<M::Error>,
    F: Fn(&Match) -> Result<String, E>,
    requires over { M.searched matches ≡ text.now }
    requires rise { ItemsRise (M.coming matches) }
    requires callable { F.IsAlwaysCallable with }
    ensures replaced { let items = M.coming matches in
        IfOk result (λ s. (news : List (List ℕ)) × AnswersEach (FnReturnsAt F.Fn with) (M.names matches) items news
        × (string_bytes s ≡ replaced text.now items news)) }
    ensures refused { let items = M.coming matches in
        IfErr result (λ e. ((x : M.Error) × (M.Error.from_gives alloc_error x ⊎ Errs M.gives matches x) × E.from_gives x e)
        ⊎ RefusesOne (FnReturnsAt F.Fn with) (M.names matches) items e) }
{
    let mut written = String::new(alloc);
    let mut behind = 0;
    while let Some(given) = matches.next_match() {
        let found = given?;
        let new = with(&found)?;
        append::<M::Error>(&mut written, &text[behind..found.start()], new.as_str())?;
        behind = found.end();
    }
    append::<M::Error>(&mut written, &text[behind..], "")?;
    Ok(written)
}
