//! The flags of a pattern.
ghost use Rattle.std.specs.Prelude.{◌≡◌, false, chars, Some, IfOk};
ghost use Rattle.std.specs.Iterator.{IsFinite};
ghost use Rattle.std.specs.Iterator.Runs.{WholeRun};
ghost use Rattle.std.specs.Result.{result_err};
ghost use Rattle.regress_front_core.specs.declared.flags.Flags.{Flags};
ghost use Rattle.regress_meaning.specs.Flags.{is_unicode};
ghost use Rattle.regress_front_core.specs.FlagWords.{options, flags_of, letters_of, letter_if, script_flags_of, word_error};

use crate::script_flags::{FlagError, ScriptFlags};
use std::fmt;

/// What holds for a whole pattern ("RegExp Records"). All flags are off by default.
#[derive(Clone, Copy, Debug, Default)]
pub struct Flags {
    /// `i`: case is ignored.
    pub icase: bool,
    /// `m`: `^` and `$` also stand at line terminators.
    pub multiline: bool,
    /// `s`: `.` is any character, line terminators too.
    pub dot_all: bool,
    /// The tree is not rewritten before it is run. No letter sets it.
    pub no_opt: bool,
    /// `u`: Unicode mode.
    pub unicode: bool,
    /// `v`: Unicode mode, with sets in classes.
    pub unicode_sets: bool,
}

impl Flags {
    /// The flags that a word sets, given as its code points: `i`, `m`, `s`, `u` and `v`, wherever they stand in it and
    /// however often. All else is skipped, and unlike in "RegExpInitialize" no word is an error: `Flags::new([0x69].into_iter())`
    /// sets `icase` alone.
    pub fn new<I: Iterator<Item = u32>>(letters: I) -> Flags
        requires can { I.can_next letters }
        requires ends { IsFinite (I.remaining letters) }
        ensures { WholeRun I.next_gives letters (λ run. result ≡ flags_of run.items) }
    {
        let mut flags = Flags::default();
        for letter in letters {
            match char::from_u32(letter) {
                Some('i') => flags.icase = true,
                Some('m') => flags.multiline = true,
                Some('s') => flags.dot_all = true,
                Some('u') => flags.unicode = true,
                Some('v') => flags.unicode_sets = true,
                _ => {}
            }
        }
        flags
    }

    /// What a word of flags sets, or why it is none ("RegExpInitialize"). Such a word is made of the letters `d`, `g`, `i`, `m`,
    /// `s`, `u`, `v` and `y`, none of them twice, and `u` and `v` not both. The first letter from the left that is no such
    /// letter, or that stands a second time, is told; where there is none, that `u` and `v` are both there.
    ///
    /// The flags of a word that is accepted are those that `Flags::from` reads from it.
    ///
    /// ```rust
    /// let script = Flags::parse("gi")?; // `script.global` and `script.flags.icase` are set, and nothing else
    /// let refused = Flags::parse("gig"); // `Err(FlagError::Repeated { letter: 'g' })`
    /// ```
    pub fn parse(word: &str) -> Result<ScriptFlags, FlagError>
        ensures accepted { IfOk result (λ script. script ≡ script_flags_of (chars word.now)) }
        ensures refused { result_err result ≡ word_error (chars word.now) }
    {
        let mut script = ScriptFlags::default();
        for letter in word.chars() {
            script.set(letter)?;
        }
        if script.flags.unicode && script.flags.unicode_sets {
            return Err(FlagError::BothUnicodeModes);
        }
        Ok(script)
    }

    /// Whether they set Unicode mode: `u` or `v` ("RegExp Records"). `Flags::parse("iv")?.flags.is_unicode()` is
    /// true.
    pub fn is_unicode(self) -> bool
        ensures { result ≡ is_unicode (options self) }
    {
        self.unicode || self.unicode_sets
    }
}

/// The flags that the letters of a word set. What it doesn't know it skips, as the crate does, so no word is an error:
/// `Flags::from("i, m")` sets `icase` and `multiline`. `Flags::parse` refuses such a word.
impl From<&str> for Flags {
    ghost from_gives = { λ text flags. flags ≡ flags_of (chars text.now) };

    fn from(text: &str) -> Flags {
        Flags::new(text.chars().map(u32::from))
    }
}

/// The letters of the flags that are set, in the order `misuv`, as `iv` for those of `Flags::parse("vi")?`. Nothing is
/// written for `no_opt`.
impl fmt::Display for Flags {
    ghost output = { λ flags. Some (letters_of flags) };

    fn fmt<W: fmt::Write>(&self, f: &mut fmt::Formatter<W>) -> fmt::Result {
        f.write_str(letter_if(self.multiline, "m"))?;
        f.write_str(letter_if(self.icase, "i"))?;
        f.write_str(letter_if(self.dot_all, "s"))?;
        f.write_str(letter_if(self.unicode, "u"))?;
        f.write_str(letter_if(self.unicode_sets, "v"))
    }
}

/// What is written for flags is read back as those flags, with `no_opt` off. The letters are one byte each.
pub fn flags_are_read_back()
    ensures read { (flags : Flags) → flags_of (letters_of flags) ≡ record flags { no_opt = false } }
    ensures text { (flags : Flags) → chars (letters_of flags) ≡ letters_of flags }
{}

/// The letter of a flag where the flag is set, and else nothing.
fn letter_if(is_set: bool, letter: &str) -> &str
    ensures { result.now ≡ letter_if is_set letter.now }
{
    if is_set { letter } else { "" }
}
