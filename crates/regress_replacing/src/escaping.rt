//! Texts as patterns that stand for just these texts.
ghost use Rattle.std.specs.Prelude.{◌≡◌, ℕ, List, [], ◌∷◌, ◌++◌, chars, encode_utf8_all, string_bytes, IfOk, OnOk, IsOkUnless};
ghost use Rattle.regress_meaning.specs.Table.{Table};
ghost use Rattle.regress_meaning.specs.Pattern.{Pattern};
ghost use Rattle.regress_meaning.specs.Flags.{Options};
ghost use Rattle.regress_meaning.specs.Grammar.{Spells};
ghost use Rattle.regress_meaning.specs.Limits.{WithinLimits};
ghost use Rattle.regress_meaning.specs.Matches.{match_list};
ghost use Rattle.regress_meaning.specs.Literal.{is_syntax_character, escaped_text, literal_pattern, occurrences};

use regress_front_core::Error;
use std::alloc::{AllocError, Global};

/// Whether a character does not stand for itself in every pattern ("SyntaxCharacter").
fn is_syntax_character(c: char) -> bool
    ensures { result ≡ is_syntax_character c }
{
    matches!(
        c,
        '^' | '$' | '\\' | '.' | '*' | '+' | '?' | '(' | ')' | '[' | ']' | '{' | '}' | '|'
    )
}

/// Adds a character, behind a backslash where it is a syntax character.
fn push_escaped(escaped: &mut String, c: char) -> Result<(), AllocError>
    ensures { OnOk result (string_bytes escaped.new ≡ string_bytes escaped.old ++ encode_utf8_all (escaped_text (c ∷ []))) }
{
    if is_syntax_character(c) {
        escaped.push('\\')?;
    }
    escaped.push(c)?;
    Ok(())
}

/// The pattern that stands for a text as it is written: a backslash before each of `\ ^ $ . | ? * + ( ) [ ] { }`, nothing else
/// changed.
///
/// Compiled with any flags and any tables, it is accepted where memory is found, and finds just the occurrences of the text; where
/// case is ignored these are the places where each character stands up to its case. Errs with `OutOfMemory` alone.
///
/// ```rust
/// let pattern = escape(alloc, "a.b")?; // `a\.b`
/// ```
pub fn escape(alloc: Global, text: &str) -> Result<String, Error>
    ensures escaped { IfOk result (λ s. string_bytes s ≡ encode_utf8_all (escaped_text (chars text.now))) }
    ensures spells { IfOk result (λ s. (t : Table) → (o : Options) → Spells t o (chars (string_bytes s)) (literal_pattern (chars text.now))) }
    ensures within { IfOk result (λ _. WithinLimits (literal_pattern (chars text.now))) }
    ensures finds { IfOk result (λ s. (t : Table) → (o : Options) → (p : Pattern) → Spells t o (chars (string_bytes s)) p →
        (points : List ℕ) → (place : ℕ) → match_list t o p points place ≡ occurrences t o (chars text.now) points place) }
    ensures refused { IsOkUnless result Error.OutOfMemory }
{
    let mut escaped = String::with_capacity(alloc, text.len())?;
    for c in text.chars() {
        push_escaped(&mut escaped, c)?;
    }
    regress_meaning::escaped_texts_spell_literals();
    regress_meaning::spells_one_tree();
    regress_meaning::literals_match_their_occurrences();
    Ok(escaped)
}
