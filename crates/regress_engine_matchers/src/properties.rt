//! Properties of characters, by the kind of character that an input reads.
ghost use Rattle.std.specs.Prelude.{◌≡◌, ◌==◌, ℕ, Bool, true, Some};
ghost use Rattle.regress_meaning.specs.Table.{Table, canon};
ghost use Rattle.regress_meaning.specs.Class.{is_ascii_word, is_word};
ghost use Rattle.regress_meaning.specs.Meaning.{Direction, is_line_end};
ghost use Rattle.regress_meaning.specs.Steps.{point};
ghost use Rattle.regress_engine_input.specs.Views.{input_of};
ghost use Rattle.regress_front_sets.specs.Intervals.{ends_of};
ghost use Rattle.regress_front_nodes.specs.TreeMeaning.{bracket_has};
ghost use Rattle.regress_front_tables.specs.TableViews.{table};
ghost use Rattle.regress_engine_matchers.specs.AsciiCase.{ascii_canon};

use regress_engine_input::{ElementType, InputIndexer};
use regress_front_nodes::BracketContents;
use regress_front_tables::{Tables, is_ascii_word};

/// What is asked about the characters of an input.
pub trait CharProperties {
    /// A character.
    type Element: ElementType;

    // what two characters have alike where case is ignored, by the table and the mode
    ghost canon: { Table → Bool → ℕ → ℕ };

    /// What two characters have alike where case is ignored ("Canonicalize"): the fold in Unicode mode, and else the upper
    /// case, of ASCII by ASCII's own rules. `UTF8CharProperties::fold('K', true, &tables)` is `'k'`.
    fn fold(c: Self::Element, unicode: bool, tables: &Tables) -> Self::Element
        ensures { Self.Element.code result ≡ canon (table tables.now) unicode (Self.Element.code c) };

    /// Whether the character is an ASCII letter, a digit or `_`: what `\w` holds where case is not ignored
    /// ("WordCharacters"). `UTF8CharProperties::is_word_char('_')` is true.
    #[inline]
    fn is_word_char(c: Self::Element) -> bool
        ensures { result ≡ is_ascii_word (Self.Element.code c) }
    {
        is_ascii_word(c.as_u32())
    }

    /// Whether the character or its fold is an ASCII letter, a digit or `_`: what `\w` holds where case is ignored in Unicode
    /// mode ("WordCharacters"). By the small table `UTF8CharProperties::is_word_char_unicode_icase('\u{17F}', &tables)` is
    /// true.
    #[inline]
    #[tactic(auto, unfolding(regress_meaning::specs::Class::is_word))]
    fn is_word_char_unicode_icase(c: Self::Element, tables: &Tables) -> bool
        ensures { result ≡ is_word (table tables.now) true (Self.Element.code c) }
    {
        let code = c.as_u32();
        is_ascii_word(code) || is_ascii_word(tables.fold(code))
    }

    /// Whether the character ends a line ("LineTerminator"): `UTF8CharProperties::is_line_terminator('\n')` is true.
    #[inline]
    fn is_line_terminator(c: Self::Element) -> bool
        ensures { result ≡ is_line_end (Self.Element.code c) }
    {
        matches!(c.as_u32(), 0xA | 0xD | 0x2028 | 0x2029)
    }

    /// Whether a class matches the character: one of its set, or where it is inverted one outside. Where
    /// `bc` is `BracketContents { invert: true, cps }`, the answer is true of what `cps` does not contain.
    #[inline]
    fn bracket(bc: &BracketContents, c: Self::Element) -> bool
        ensures { result ≡ bracket_has bc.now.invert (ends_of bc.now.cps.intervals.items) (Self.Element.code c) }
    {
        bc.cps.contains(c.as_u32()) != bc.invert
    }
}

/// The properties of `char`s.
#[derive(Debug, Clone, Copy)]
pub struct UTF8CharProperties;

/// The properties of bytes of ASCII, whose case is ASCII's.
#[derive(Debug, Clone, Copy)]
pub struct ASCIICharProperties;

/// The properties of code points in 16-bit units, lone surrogates among them.
#[derive(Debug, Clone, Copy)]
pub struct Utf16CharProperties;

impl CharProperties for UTF8CharProperties {
    type Element = char;

    ghost canon = { canon };

    #[inline]
    fn fold(c: char, unicode: bool, tables: &Tables) -> char {
        char::from_u32(tables.canon(unicode, u32::from(c))).unwrap_or(c)
    }
}

impl CharProperties for ASCIICharProperties {
    type Element = u8;

    ghost canon = { ascii_canon };

    #[inline]
    fn fold(c: u8, unicode: bool, _tables: &Tables) -> u8 {
        if unicode {
            c.to_ascii_lowercase()
        } else {
            c.to_ascii_uppercase()
        }
    }
}

impl CharProperties for Utf16CharProperties {
    type Element = u32;

    ghost canon = { canon };

    #[inline]
    fn fold(c: u32, unicode: bool, tables: &Tables) -> u32 {
        tables.canon(unicode, c)
    }
}

/// An input whose characters have properties.
pub trait CharInput: InputIndexer {
    /// The properties of its characters.
    type CharProps: CharProperties<Element = Self::Element>;

    /// What a character of the text has alike with others where case is ignored, by its tables and mode: over UTF-8 in Unicode
    /// mode `input.fold('K')` is `'k'`.
    #[inline]
    fn fold(&self, c: Self::Element) -> Self::Element
        ensures { Self.Element.code result ≡ Self.CharProps.canon (Self.view self.now).table (Self.view self.now).unicode (Self.Element.code c) }
    {
        <Self::CharProps as CharProperties>::fold(c, self.unicode(), self.tables())
    }

    /// Whether two characters of the text are equal where case is ignored: over UTF-8 `input.fold_equals('k', 'K')` is true.
    #[inline]
    fn fold_equals(&self, c1: Self::Element, c2: Self::Element) -> bool
        ensures { result ≡ (Self.CharProps.canon (Self.view self.now).table (Self.view self.now).unicode (Self.Element.code c1)
            == Self.CharProps.canon (Self.view self.now).table (Self.view self.now).unicode (Self.Element.code c2)) }
    {
        c1 == c2 || self.fold(c1) == self.fold(c2)
    }

    // the properties of the characters that the text has are those of the table
    ghost canon_by_table: { (s : Self) (dir : Direction) (o c : ℕ) → point (input_of (Self.view s)) dir o ≡ Some c
        → Self.CharProps.canon (Self.view s).table (Self.view s).unicode c ≡ canon (input_of (Self.view s)).table (input_of (Self.view s)).unicode c };
}
