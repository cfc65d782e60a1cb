//! The names of general categories ("UnicodeMatchPropertyValue").
ghost use Rattle.std.specs.Prelude.{◌≡◌, map};
ghost use Rattle.regress_unicode.specs.Names.{category_names};
ghost use Rattle.regress_unicode.specs.Keys.{spelled};

use unicode::properties::{GeneralCategory, GeneralCategoryGroup};
use unicode::sets::Set;

/// The names of general categories and their groups, with their sets.
pub(crate) fn category_names() -> &'static [(&'static str, Set)]
    ensures { map (λ n. (n.0.now, n.1)) result.now ≡ spelled category_names }
{
    &CATEGORIES
}

static CATEGORIES: [(&str, Set); 80] = [
    ("C", Set::CategoryGroup(GeneralCategoryGroup::Other)),
    ("Other", Set::CategoryGroup(GeneralCategoryGroup::Other)),
    ("Cc", Set::Category(GeneralCategory::Control)),
    ("Control", Set::Category(GeneralCategory::Control)),
    ("cntrl", Set::Category(GeneralCategory::Control)),
    ("Cf", Set::Category(GeneralCategory::Format)),
    ("Format", Set::Category(GeneralCategory::Format)),
    ("Cn", Set::Category(GeneralCategory::Unassigned)),
    ("Unassigned", Set::Category(GeneralCategory::Unassigned)),
    ("Co", Set::Category(GeneralCategory::PrivateUse)),
    ("Private_Use", Set::Category(GeneralCategory::PrivateUse)),
    ("Cs", Set::Category(GeneralCategory::Surrogate)),
    ("Surrogate", Set::Category(GeneralCategory::Surrogate)),
    ("L", Set::CategoryGroup(GeneralCategoryGroup::Letter)),
    ("Letter", Set::CategoryGroup(GeneralCategoryGroup::Letter)),
    ("LC", Set::CategoryGroup(GeneralCategoryGroup::CasedLetter)),
    (
        "Cased_Letter",
        Set::CategoryGroup(GeneralCategoryGroup::CasedLetter),
    ),
    ("Ll", Set::Category(GeneralCategory::LowercaseLetter)),
    (
        "Lowercase_Letter",
        Set::Category(GeneralCategory::LowercaseLetter),
    ),
    ("Lm", Set::Category(GeneralCategory::ModifierLetter)),
    (
        "Modifier_Letter",
        Set::Category(GeneralCategory::ModifierLetter),
    ),
    ("Lo", Set::Category(GeneralCategory::OtherLetter)),
    ("Other_Letter", Set::Category(GeneralCategory::OtherLetter)),
    ("Lt", Set::Category(GeneralCategory::TitlecaseLetter)),
    (
        "Titlecase_Letter",
        Set::Category(GeneralCategory::TitlecaseLetter),
    ),
    ("Lu", Set::Category(GeneralCategory::UppercaseLetter)),
    (
        "Uppercase_Letter",
        Set::Category(GeneralCategory::UppercaseLetter),
    ),
    ("M", Set::CategoryGroup(GeneralCategoryGroup::Mark)),
    ("Mark", Set::CategoryGroup(GeneralCategoryGroup::Mark)),
    (
        "Combining_Mark",
        Set::CategoryGroup(GeneralCategoryGroup::Mark),
    ),
    ("Mc", Set::Category(GeneralCategory::SpacingMark)),
    ("Spacing_Mark", Set::Category(GeneralCategory::SpacingMark)),
    ("Me", Set::Category(GeneralCategory::EnclosingMark)),
    (
        "Enclosing_Mark",
        Set::Category(GeneralCategory::EnclosingMark),
    ),
    ("Mn", Set::Category(GeneralCategory::NonspacingMark)),
    (
        "Nonspacing_Mark",
        Set::Category(GeneralCategory::NonspacingMark),
    ),
    ("N", Set::CategoryGroup(GeneralCategoryGroup::Number)),
    ("Number", Set::CategoryGroup(GeneralCategoryGroup::Number)),
    ("Nd", Set::Category(GeneralCategory::DecimalNumber)),
    (
        "Decimal_Number",
        Set::Category(GeneralCategory::DecimalNumber),
    ),
    ("digit", Set::Category(GeneralCategory::DecimalNumber)),
    ("Nl", Set::Category(GeneralCategory::LetterNumber)),
    (
        "Letter_Number",
        Set::Category(GeneralCategory::LetterNumber),
    ),
    ("No", Set::Category(GeneralCategory::OtherNumber)),
    ("Other_Number", Set::Category(GeneralCategory::OtherNumber)),
    ("P", Set::CategoryGroup(GeneralCategoryGroup::Punctuation)),
    (
        "Punctuation",
        Set::CategoryGroup(GeneralCategoryGroup::Punctuation),
    ),
    (
        "punct",
        Set::CategoryGroup(GeneralCategoryGroup::Punctuation),
    ),
    ("Pc", Set::Category(GeneralCategory::ConnectorPunctuation)),
    (
        "Connector_Punctuation",
        Set::Category(GeneralCategory::ConnectorPunctuation),
    ),
    ("Pd", Set::Category(GeneralCategory::DashPunctuation)),
    (
        "Dash_Punctuation",
        Set::Category(GeneralCategory::DashPunctuation),
    ),
    ("Pe", Set::Category(GeneralCategory::ClosePunctuation)),
    (
        "Close_Punctuation",
        Set::Category(GeneralCategory::ClosePunctuation),
    ),
    ("Pf", Set::Category(GeneralCategory::FinalPunctuation)),
    (
        "Final_Punctuation",
        Set::Category(GeneralCategory::FinalPunctuation),
    ),
    ("Pi", Set::Category(GeneralCategory::InitialPunctuation)),
    (
        "Initial_Punctuation",
        Set::Category(GeneralCategory::InitialPunctuation),
    ),
    ("Po", Set::Category(GeneralCategory::OtherPunctuation)),
    (
        "Other_Punctuation",
        Set::Category(GeneralCategory::OtherPunctuation),
    ),
    ("Ps", Set::Category(GeneralCategory::OpenPunctuation)),
    (
        "Open_Punctuation",
        Set::Category(GeneralCategory::OpenPunctuation),
    ),
    ("S", Set::CategoryGroup(GeneralCategoryGroup::Symbol)),
    ("Symbol", Set::CategoryGroup(GeneralCategoryGroup::Symbol)),
    ("Sc", Set::Category(GeneralCategory::CurrencySymbol)),
    (
        "Currency_Symbol",
        Set::Category(GeneralCategory::CurrencySymbol),
    ),
    ("Sk", Set::Category(GeneralCategory::ModifierSymbol)),
    (
        "Modifier_Symbol",
        Set::Category(GeneralCategory::ModifierSymbol),
    ),
    ("Sm", Set::Category(GeneralCategory::MathSymbol)),
    ("Math_Symbol", Set::Category(GeneralCategory::MathSymbol)),
    ("So", Set::Category(GeneralCategory::OtherSymbol)),
    ("Other_Symbol", Set::Category(GeneralCategory::OtherSymbol)),
    ("Z", Set::CategoryGroup(GeneralCategoryGroup::Separator)),
    (
        "Separator",
        Set::CategoryGroup(GeneralCategoryGroup::Separator),
    ),
    ("Zl", Set::Category(GeneralCategory::LineSeparator)),
    (
        "Line_Separator",
        Set::Category(GeneralCategory::LineSeparator),
    ),
    ("Zp", Set::Category(GeneralCategory::ParagraphSeparator)),
    (
        "Paragraph_Separator",
        Set::Category(GeneralCategory::ParagraphSeparator),
    ),
    ("Zs", Set::Category(GeneralCategory::SpaceSeparator)),
    (
        "Space_Separator",
        Set::Category(GeneralCategory::SpaceSeparator),
    ),
];
