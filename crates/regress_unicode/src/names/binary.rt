//! The names of binary properties ("Binary Unicode property aliases").
ghost use Rattle.std.specs.Prelude.{◌≡◌, map};
ghost use Rattle.regress_unicode.specs.Names.{binary_names};
ghost use Rattle.regress_unicode.specs.Keys.{spelled};

use unicode::sets::{BinaryProperty, Set};

/// The names of binary properties, with their sets.
pub(crate) fn binary_names() -> &'static [(&'static str, Set)]
    ensures { map (λ n. (n.0.now, n.1)) result.now ≡ spelled binary_names }
{
    &BINARY
}

static BINARY: [(&str, Set); 96] = [
    ("Any", Set::Any),
    ("ASCII", Set::Ascii),
    ("Assigned", Set::Assigned),
    (
        "ASCII_Hex_Digit",
        Set::Binary(BinaryProperty::AsciiHexDigit),
    ),
    ("AHex", Set::Binary(BinaryProperty::AsciiHexDigit)),
    ("Alphabetic", Set::Binary(BinaryProperty::Alphabetic)),
    ("Alpha", Set::Binary(BinaryProperty::Alphabetic)),
    ("Bidi_Control", Set::Binary(BinaryProperty::BidiControl)),
    ("Bidi_C", Set::Binary(BinaryProperty::BidiControl)),
    ("Bidi_Mirrored", Set::Binary(BinaryProperty::BidiMirrored)),
    ("Bidi_M", Set::Binary(BinaryProperty::BidiMirrored)),
    ("Case_Ignorable", Set::Binary(BinaryProperty::CaseIgnorable)),
    ("CI", Set::Binary(BinaryProperty::CaseIgnorable)),
    ("Cased", Set::Binary(BinaryProperty::Cased)),
    (
        "Changes_When_Casefolded",
        Set::Binary(BinaryProperty::ChangesWhenCasefolded),
    ),
    ("CWCF", Set::Binary(BinaryProperty::ChangesWhenCasefolded)),
    (
        "Changes_When_Casemapped",
        Set::Binary(BinaryProperty::ChangesWhenCasemapped),
    ),
    ("CWCM", Set::Binary(BinaryProperty::ChangesWhenCasemapped)),
    (
        "Changes_When_Lowercased",
        Set::Binary(BinaryProperty::ChangesWhenLowercased),
    ),
    ("CWL", Set::Binary(BinaryProperty::ChangesWhenLowercased)),
    (
        "Changes_When_Titlecased",
        Set::Binary(BinaryProperty::ChangesWhenTitlecased),
    ),
    ("CWT", Set::Binary(BinaryProperty::ChangesWhenTitlecased)),
    (
        "Changes_When_Uppercased",
        Set::Binary(BinaryProperty::ChangesWhenUppercased),
    ),
    ("CWU", Set::Binary(BinaryProperty::ChangesWhenUppercased)),
    ("Dash", Set::Binary(BinaryProperty::Dash)),
    (
        "Default_Ignorable_Code_Point",
        Set::Binary(BinaryProperty::DefaultIgnorableCodePoint),
    ),
    ("DI", Set::Binary(BinaryProperty::DefaultIgnorableCodePoint)),
    ("Deprecated", Set::Binary(BinaryProperty::Deprecated)),
    ("Dep", Set::Binary(BinaryProperty::Deprecated)),
    ("Diacritic", Set::Binary(BinaryProperty::Diacritic)),
    ("Dia", Set::Binary(BinaryProperty::Diacritic)),
    ("Emoji", Set::Binary(BinaryProperty::Emoji)),
    (
        "Emoji_Component",
        Set::Binary(BinaryProperty::EmojiComponent),
    ),
    ("EComp", Set::Binary(BinaryProperty::EmojiComponent)),
    ("Emoji_Modifier", Set::Binary(BinaryProperty::EmojiModifier)),
    ("EMod", Set::Binary(BinaryProperty::EmojiModifier)),
    (
        "Emoji_Modifier_Base",
        Set::Binary(BinaryProperty::EmojiModifierBase),
    ),
    ("EBase", Set::Binary(BinaryProperty::EmojiModifierBase)),
    (
        "Emoji_Presentation",
        Set::Binary(BinaryProperty::EmojiPresentation),
    ),
    ("EPres", Set::Binary(BinaryProperty::EmojiPresentation)),
    (
        "Extended_Pictographic",
        Set::Binary(BinaryProperty::ExtendedPictographic),
    ),
    ("ExtPict", Set::Binary(BinaryProperty::ExtendedPictographic)),
    ("Extender", Set::Binary(BinaryProperty::Extender)),
    ("Ext", Set::Binary(BinaryProperty::Extender)),
    ("Grapheme_Base", Set::Binary(BinaryProperty::GraphemeBase)),
    ("Gr_Base", Set::Binary(BinaryProperty::GraphemeBase)),
    (
        "Grapheme_Extend",
        Set::Binary(BinaryProperty::GraphemeExtend),
    ),
    ("Gr_Ext", Set::Binary(BinaryProperty::GraphemeExtend)),
    ("Hex_Digit", Set::Binary(BinaryProperty::HexDigit)),
    ("Hex", Set::Binary(BinaryProperty::HexDigit)),
    (
        "IDS_Binary_Operator",
        Set::Binary(BinaryProperty::IdsBinaryOperator),
    ),
    ("IDSB", Set::Binary(BinaryProperty::IdsBinaryOperator)),
    (
        "IDS_Trinary_Operator",
        Set::Binary(BinaryProperty::IdsTrinaryOperator),
    ),
    ("IDST", Set::Binary(BinaryProperty::IdsTrinaryOperator)),
    ("ID_Continue", Set::Binary(BinaryProperty::IdContinue)),
    ("IDC", Set::Binary(BinaryProperty::IdContinue)),
    ("ID_Start", Set::Binary(BinaryProperty::IdStart)),
    ("IDS", Set::Binary(BinaryProperty::IdStart)),
    ("Ideographic", Set::Binary(BinaryProperty::Ideographic)),
    ("Ideo", Set::Binary(BinaryProperty::Ideographic)),
    ("Join_Control", Set::Binary(BinaryProperty::JoinControl)),
    ("Join_C", Set::Binary(BinaryProperty::JoinControl)),
    (
        "Logical_Order_Exception",
        Set::Binary(BinaryProperty::LogicalOrderException),
    ),
    ("LOE", Set::Binary(BinaryProperty::LogicalOrderException)),
    ("Lowercase", Set::Binary(BinaryProperty::Lowercase)),
    ("Lower", Set::Binary(BinaryProperty::Lowercase)),
    ("Math", Set::Binary(BinaryProperty::Math)),
    (
        "Noncharacter_Code_Point",
        Set::Binary(BinaryProperty::NoncharacterCodePoint),
    ),
    ("NChar", Set::Binary(BinaryProperty::NoncharacterCodePoint)),
    ("Pattern_Syntax", Set::Binary(BinaryProperty::PatternSyntax)),
    ("Pat_Syn", Set::Binary(BinaryProperty::PatternSyntax)),
    (
        "Pattern_White_Space",
        Set::Binary(BinaryProperty::PatternWhiteSpace),
    ),
    ("Pat_WS", Set::Binary(BinaryProperty::PatternWhiteSpace)),
    ("Quotation_Mark", Set::Binary(BinaryProperty::QuotationMark)),
    ("QMark", Set::Binary(BinaryProperty::QuotationMark)),
    ("Radical", Set::Binary(BinaryProperty::Radical)),
    (
        "Regional_Indicator",
        Set::Binary(BinaryProperty::RegionalIndicator),
    ),
    ("RI", Set::Binary(BinaryProperty::RegionalIndicator)),
    (
        "Sentence_Terminal",
        Set::Binary(BinaryProperty::SentenceTerminal),
    ),
    ("STerm", Set::Binary(BinaryProperty::SentenceTerminal)),
    ("Soft_Dotted", Set::Binary(BinaryProperty::SoftDotted)),
    ("SD", Set::Binary(BinaryProperty::SoftDotted)),
    (
        "Terminal_Punctuation",
        Set::Binary(BinaryProperty::TerminalPunctuation),
    ),
    ("Term", Set::Binary(BinaryProperty::TerminalPunctuation)),
    (
        "Unified_Ideograph",
        Set::Binary(BinaryProperty::UnifiedIdeograph),
    ),
    ("UIdeo", Set::Binary(BinaryProperty::UnifiedIdeograph)),
    ("Uppercase", Set::Binary(BinaryProperty::Uppercase)),
    ("Upper", Set::Binary(BinaryProperty::Uppercase)),
    (
        "Variation_Selector",
        Set::Binary(BinaryProperty::VariationSelector),
    ),
    ("VS", Set::Binary(BinaryProperty::VariationSelector)),
    ("White_Space", Set::Binary(BinaryProperty::WhiteSpace)),
    ("space", Set::Binary(BinaryProperty::WhiteSpace)),
    ("XID_Continue", Set::Binary(BinaryProperty::XidContinue)),
    ("XIDC", Set::Binary(BinaryProperty::XidContinue)),
    ("XID_Start", Set::Binary(BinaryProperty::XidStart)),
    ("XIDS", Set::Binary(BinaryProperty::XidStart)),
];
