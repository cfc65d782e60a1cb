//! Replacement texts of either language.
ghost use Rattle.std.specs.Prelude.{◌≡◌, ◌++◌, IfOk, OnOk, IsOkUnless, string_bytes};
ghost use Rattle.regress_match.specs.Views.{item_of};
ghost use Rattle.regress_match.specs.GroupViews.{names_of_match};
ghost use Rattle.regress_match.specs.TextRanges.{LiesInText};
ghost use Rattle.regress_replacing.specs.Syntax.{replacement_text};
ghost use Rattle.regress_replacing.specs.SyntaxViews.{syntax_of, text_of};

use crate::replacement::Replacement;
use crate::syntax::ReplacementSyntax;
use crate::template::Template;
use regress_front_core::Error;
use regress_match::Match;
use std::alloc::Global;

/// A replacement text that was read, of either language.
#[derive(Debug, Drop)]
pub enum AnyReplacement<'p> {
    /// One of this library's own language.
    Regress(Replacement<'p>),
    /// One of the standard's.
    EcmaScript(Template<'p>),
}

impl<'p> AnyReplacement<'p> {
    /// Reads a replacement text that is written in a language.
    ///
    /// Errs with `OutOfMemory` alone.
    ///
    /// ```rust
    /// let replacement = AnyReplacement::new(alloc, "[$&]", ReplacementSyntax::EcmaScript)?;
    /// ```
    pub fn new(
        alloc: Global,
        source: &'p str,
        syntax: ReplacementSyntax,
    ) -> Result<AnyReplacement<'p>, Error>
        ensures read { IfOk result (λ r. text_of r ≡ source.now) }
        ensures language { IfOk result (λ r. syntax_of r ≡ syntax) }
        ensures refused { IsOkUnless result Error.OutOfMemory }
    {
        match syntax {
            ReplacementSyntax::Regress => {
                Ok(AnyReplacement::Regress(Replacement::new(alloc, source)?))
            }
            ReplacementSyntax::EcmaScript => {
                Ok(AnyReplacement::EcmaScript(Template::new(alloc, source)?))
            }
        }
    }

    /// Adds to `written` what the replacement text stands for at a match.
    ///
    /// Asks that the match lies in `text`, as one that was found there does. Errs with `OutOfMemory` alone; then a part of it
    /// may have been added.
    ///
    /// ```rust
    /// replacement.write(&found, text, &mut written)?;
    /// ```
    pub fn write(&self, found: &Match, text: &str, written: &mut String) -> Result<(), Error>
        requires { LiesInText text.now found.now }
        ensures added { OnOk result (string_bytes written.new ≡ string_bytes written.old
            ++ replacement_text (syntax_of self.now) (names_of_match found.now) (text_of self.now) text.now (item_of found.now)) }
        ensures refused { IsOkUnless result Error.OutOfMemory }
    {
        match self {
            AnyReplacement::Regress(replacement) => replacement.write(found, text, written),
            AnyReplacement::EcmaScript(template) => template.write(found, text, written),
        }
    }
}

/// What a replacement text that is written in a language stands for at a match.
///
/// Asks that the match lies in `text`, as one that was found there does. Errs with `OutOfMemory` alone.
///
/// ```rust
/// let swapped = expand(alloc, &found, text, "$2/$1", ReplacementSyntax::EcmaScript)?;
/// ```
pub fn expand(
    alloc: Global,
    found: &Match,
    text: &str,
    replacement: &str,
    syntax: ReplacementSyntax,
) -> Result<String, Error>
    requires { LiesInText text.now found.now }
    ensures expanded { IfOk result (λ s. string_bytes s
        ≡ replacement_text syntax (names_of_match found.now) replacement.now text.now (item_of found.now)) }
    ensures refused { IsOkUnless result Error.OutOfMemory }
{
    let mut written = String::new(alloc);
    let read = AnyReplacement::new(alloc, replacement, syntax)?;
    read.write(found, text, &mut written)?;
    Ok(written)
}
