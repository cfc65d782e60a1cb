//! Tests on single characters that no executor makes, each over a text in both directions.
ghost use Rattle.std.specs.Prelude.{◌≡◌, true};
ghost use Rattle.regress_engine_input.specs.Views.{CanRead, View, are_bytes};

use regress_engine_input::{Backward, Direction, Forward, InputIndexer, PositionType};
use regress_engine_inputs::Utf8Input;
use regress_engine_matchers::{
    Char, MatchByteArraySet, MatchByteSeq, PreparedBracket, SingleCharMatcher,
};
use regress_front_bytes::ByteArraySet;
use regress_front_nodes::BracketContents;
use regress_front_sets::CodePointSet;
use regress_front_tables::Tables;
use std::test::Fail;

/// An offset, and where the character beside it leads to, to the right and to the left, if it passes.
type Row = (usize, Option<usize>, Option<usize>);

/// Whether the character beside an offset passes, and leads to that offset; with none, whether no character there passes.
fn leads<Input: InputIndexer, Dir: Direction, Matcher: SingleCharMatcher<Input, Dir>>(
    matcher: &Matcher,
    input: &Input,
    dir: Dir,
    at: usize,
    to: Option<usize>,
) -> bool
    requires position { CanRead (Input.view input.now) at }
    requires suits { Matcher.Suits matcher.now (Input.view input.now) }
{
    let mut pos = <Input::Position as PositionType>::new(at);
    match (matcher.matches(input, dir, &mut pos), to) {
        (true, Some(end)) => pos == <Input::Position as PositionType>::new(end),
        (false, None) => true,
        _ => false,
    }
}

/// The same of one character.
fn char_leads<Input: InputIndexer, Dir: Direction>(
    c: Input::Element,
    input: &Input,
    dir: Dir,
    at: usize,
    to: Option<usize>,
) -> bool
    requires { CanRead (Input.view input.now) at }
{
    let matcher: Char<Input> = Char { c };
    leads(&matcher, input, dir, at, to)
}

/// The same of the bytes of one character.
fn spelled_leads<Input: InputIndexer, Dir: Direction>(
    character: &str,
    input: &Input,
    dir: Dir,
    at: usize,
    to: Option<usize>,
) -> bool
    requires position { CanRead (Input.view input.now) at }
    requires bytes { are_bytes (Input.view input.now).kind ≡ true }
{
    if character.is_empty() || character.chars().count() != 1 {
        return false;
    }
    leads(&MatchByteSeq(character.as_bytes()), input, dir, at, to)
}

// a letter, a line feed, a character of two bytes and one of four
const TEXT: &str = "a\n\u{E9}\u{1F600}";

const SECOND_LAST: &[Row] = &[
    (0, None, None),
    (1, None, None),
    (2, Some(4), None),
    (4, None, Some(2)),
    (8, None, None),
];

const MIDDLE: &[Row] = &[
    (0, None, None),
    (1, Some(2), None),
    (2, Some(4), Some(1)),
    (4, None, Some(2)),
    (8, None, None),
];

const ASCII: &[Row] = &[
    (0, Some(1), None),
    (1, Some(2), Some(0)),
    (2, None, Some(1)),
    (4, None, None),
    (8, None, None),
];

/// Whether all rows of the text are so in one direction, by a test that suits bytes.
fn text_leads<'u, Dir: Direction, Matcher: SingleCharMatcher<Utf8Input<'u, 'static>, Dir>>(
    matcher: &Matcher,
    _dir: Dir,
    rows: &[Row],
    tables: &'u Tables,
) -> bool
    requires { (v : View) → are_bytes v.kind ≡ true → Matcher.Suits matcher.now v }
{
    let input = Utf8Input::new(TEXT, true, tables);
    for (at, right, left) in rows {
        let to = if Dir::FORWARD { *right } else { *left };
        if !TEXT.is_char_boundary(*at) || !leads(matcher, &input, Dir::new(), *at, to) {
            return false;
        }
    }
    true
}

/// Whether the second last character is found by itself and by its bytes.
fn second_last_leads(rows: &[Row], tables: &Tables) -> bool {
    let input = Utf8Input::new(TEXT, true, tables);
    for (at, right, left) in rows {
        if !TEXT.is_char_boundary(*at)
            || !char_leads('\u{E9}', &input, Forward, *at, *right)
            || !char_leads('\u{E9}', &input, Backward, *at, *left)
            || !spelled_leads("\u{E9}", &input, Forward, *at, *right)
            || !spelled_leads("\u{E9}", &input, Backward, *at, *left)
        {
            return false;
        }
    }
    true
}

#[test]
fn single_characters_pass(rt: HostRuntime) -> Result<(), Fail> {
    let tables = Tables::small(rt.alloc())?;
    assert!(rt; second_last_leads(SECOND_LAST, &tables));
    let small = MatchByteArraySet(ByteArraySet(*b"a\n"));
    assert!(rt;
        text_leads(&small, Forward, ASCII, &tables) && text_leads(&small, Backward, ASCII, &tables)
    );
    let mut cps = CodePointSet::new(rt.alloc());
    cps.add_one(0x61)?;
    cps.add_one(0x1F600)?;
    let bc = BracketContents { invert: true, cps };
    let class = PreparedBracket::new(&bc);
    assert!(rt;
        text_leads(&class, Forward, MIDDLE, &tables)
            && text_leads(&class, Backward, MIDDLE, &tables)
    );
    Ok(())
}
