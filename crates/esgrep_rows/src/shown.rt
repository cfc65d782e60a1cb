//! What is shown of a match.
ghost use Rattle.std.specs.Prelude.{◌≡◌, ◌++◌, None, Some, OnOk, IsOkUnless, string_bytes};
ghost use Rattle.regress_replacing.specs.TemplateViews.{template_of};
ghost use Rattle.regress_match.specs.TextRanges.{LiesInText};

use regress_front_core::Error;
use regress_match::Match;
use regress_replacing::Template;

/// What is shown of a match: its text, or what a replacement text of the standard's language gives.
#[derive(Debug, Drop)]
pub struct Shown<'t> {
    template: Option<Template<'t>>,
}

impl<'t> Shown<'t> {
    ghost use Rattle.esgrep_rows.specs.Found.{found_of};
    ghost use Rattle.esgrep_rows.specs.Views.{template_text};

    /// The text of a match.
    ///
    /// ```rust
    /// let shown = Shown::itself();
    /// ```
    pub fn itself() -> Shown<'t>
        ensures { template_text result ≡ None }
    {
        Shown { template: None }
    }

    /// What a replacement text gives.
    ///
    /// ```rust
    /// let shown = Shown::by(Template::new(alloc, "<$&>")?);
    /// ```
    pub fn by(template: Template<'t>) -> Shown<'t>
        ensures { template_text result ≡ Some (template_of template.entry) }
    {
        Shown {
            template: Some(template),
        }
    }

    /// Appends what is shown of a match.
    ///
    /// Asks that the match lies in `text`, as one that was found there does. Errs with `OutOfMemory` alone.
    ///
    /// ```rust
    /// shown.push(&found, "a line", &mut row)?;
    /// ```
    pub fn push(&self, found: &Match, text: &str, row: &mut String) -> Result<(), Error>
        requires { LiesInText text.now found.now }
        ensures shown { OnOk result (string_bytes row.new ≡ string_bytes row.old ++ (found_of (template_text self.now) text.now found.now).shown) }
        ensures refused { IsOkUnless result Error.OutOfMemory }
    {
        match &self.template {
            Some(template) => template.write(found, text, row),
            None => {
                row.push_str(found.as_str(text))?;
                Ok(())
            }
        }
    }
}
