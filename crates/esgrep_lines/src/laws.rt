//! A law of the parts of matches, the contract of a function with an empty body.
ghost use Rattle.esgrep_lines.specs.Laws.{TouchedLinesHaveParts};

/// In each line of a text a match has a part where it touches what is searched of the line. That the parts of the definition
/// begin and end between characters leaves none out there.
pub fn touched_lines_have_parts()
    ensures { TouchedLinesHaveParts }
{}
