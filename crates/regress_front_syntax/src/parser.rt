//! The parser: a function for each construct of a pattern, which is read from the left with no way back.
ghost use Rattle.std.specs.Prelude.{◌≡◌, ◌==◌, ◌+◌, ◌<◌, ◌≤◌, ◌++◌, ◌∷◌, [], ℕ, suc, length, true, false, Some, is_some, OnOk, IfOk, IfErr, if◌then◌else◌};
ghost use Rattle.regress_meaning.specs.Text.{◌∈◌, is_at};
ghost use Rattle.regress_meaning.specs.Tokens.{bounds_at};
ghost use Rattle.regress_front_tokens.specs.Escapes.{escape_view, mode_view, HasFewGroups};
ghost use Rattle.regress_front_tokens.specs.Trees.{tree, trees_of};
ghost use Rattle.regress_front_tokens.specs.Ranges.{opens_none, in_turn, opens, parts_of};
ghost use Rattle.regress_meaning.specs.Pattern.{character};
ghost use Rattle.regress_meaning.specs.Grammar.{ends_alternative, tree_of};
ghost use Rattle.regress_meaning.specs.Reading.{disjunction_at, alternative_at, term_at};
ghost use Rattle.regress_meaning.specs.Reading.{escape_opening, class_opening, parenthesis_opening};
ghost use Rattle.regress_front_tokens.specs.Cursors.{unread};
ghost use Rattle.regress_front_tokens.specs.Words.{stands_for_itself};

use crate::apart::names_are_apart;
use crate::group::{Opening, read_opening};
use regress_front_classes::bracketed_class;
use regress_front_tables::{
    CodePoint, Error, MAX_CAPTURE_GROUPS, MAX_LOOPS, MAX_NESTING_DEPTH, Quantifier,
};
use regress_front_tokens::{Cursor, Escape, Mode, Syntax, Term};
use std::alloc::{AllocError, Global};

/// Why a quantifier is refused.
const INVALID_QUANTIFIER: &str = "Invalid quantifier";

/// Why a quantifier of one character is refused that has nothing before it.
const NOTHING_TO_REPEAT: &str = "Nothing to repeat";

/// Why a parenthesis without its partner is refused.
const UNBALANCED_PARENTHESIS: &str = "Unbalanced parenthesis";

/// Why a character is refused that may not stand where it does.
const UNEXPECTED_CHARACTER: &str = "Unexpected character";

/// The tree of an escape outside a class.
fn tree_of(escape: Escape) -> Syntax
    ensures same { tree result ≡ tree_of (escape_view escape) }
    ensures ranges { opens result ≡ opens_none }
{
    match escape {
        Escape::Point(point) => Syntax::Character(point),
        Escape::Set(class) => Syntax::ClassEscape(class),
        Escape::Groups(groups) => Syntax::Reference(groups),
    }
}

/// Whether a code point stands here that is a character by itself ("PatternCharacter", "ExtendedPatternCharacter").
fn is_at_pattern_character(cursor: &Cursor, unicode: bool) -> bool
    ensures { result ≡ stands_for_itself unicode (unread cursor.now) }
{
    if cursor.peek().is_none() {
        return false;
    }
    if unicode {
        return !cursor.is_at_any("^$\\.*+?()[]{}|");
    }
    if cursor.is_at('{') {
        let mut ahead = *cursor;
        return ahead.quantifier().is_none();
    }
    !cursor.is_at_any("^$\\.*+?()[|")
}

/// Why no term begins here.
fn misplacement(cursor: &Cursor) -> &'static str
    ensures { result.now ≡ (if is_at (λ c. c ∈ "*+?") (unread cursor.now) then NOTHING_TO_REPEAT.now
        else if is_some (bounds_at (unread cursor.now)) then INVALID_QUANTIFIER.now else UNEXPECTED_CHARACTER.now) }
{
    let mut ahead = *cursor;
    if cursor.is_at_any("*+?") {
        NOTHING_TO_REPEAT
    } else if ahead.quantifier().is_some() {
        INVALID_QUANTIFIER
    } else {
        UNEXPECTED_CHARACTER
    }
}

// Parsing calls itself 256 levels deep. So that none of its functions has room on the stack for what others need only in
// passing, those that end before the next level are kept out of line.

/// Adds a character behind other terms. With a character before it it makes a text.
fn push_character(
    alloc: Global,
    terms: &mut Vec<Term<Syntax>>,
    point: CodePoint,
) -> Result<(), AllocError>
    ensures trees { OnOk result (trees_of terms.new.items ≡ trees_of terms.old.items ++ (character point ∷ [])) }
    ensures parts { OnOk result (parts_of terms.new.items ≡ parts_of terms.old.items ++ (opens_none ∷ [])) }
{
    let last = match terms.pop() {
        None => Term::One(Syntax::Character(point)),
        Some(Term::Text(mut points)) => {
            points.push(point)?;
            Term::Text(points)
        }
        Some(Term::One(before)) => match before {
            Syntax::Character(first) => Term::Text(vec![in alloc; first, point]?),
            other => {
                terms.push(Term::One(other))?;
                Term::One(Syntax::Character(point))
            }
        },
    };
    Ok(terms.push(last)?)
}

/// Adds a term behind others.
#[inline(never)]
fn push(alloc: Global, terms: &mut Vec<Term<Syntax>>, term: Syntax) -> Result<(), AllocError>
    ensures trees { OnOk result (trees_of terms.new.items ≡ trees_of terms.old.items ++ (tree term ∷ [])) }
    ensures parts { OnOk result (parts_of terms.new.items ≡ parts_of terms.old.items ++ (opens term ∷ [])) }
{
    match term {
        Syntax::Character(point) => push_character(alloc, terms, point),
        term => Ok(terms.push(Term::One(term))?),
    }
}

/// Adds terms behind other alternatives, as one more.
#[inline(never)]
fn push_alternative(arms: &mut Vec<Syntax>, terms: Vec<Term<Syntax>>) -> Result<(), AllocError>
    ensures { OnOk result (arms.new.items ≡ arms.old.items ++ (Syntax.Alternative terms ∷ [])) }
{
    Ok(arms.push(Syntax::Alternative(terms))?)
}

/// The tree of alternatives, in a box.
#[inline(never)]
fn boxed_disjunction(alloc: Global, arms: Vec<Syntax>) -> Result<Box<Syntax>, AllocError>
    ensures { IfOk result (λ boxed. boxed.value ≡ Syntax.Disjunction arms) }
{
    Ok(Box::new(alloc, Syntax::Disjunction(arms))?)
}

/// How far a pattern is read, and how many groups were opened and quantifiers read so far.
#[derive(Drop)]
pub(crate) struct Parser<'p> {
    alloc: Global,
    cursor: Cursor<'p>,
    groups: u16,
    loops: u16,
    ghost few: { groups ≤ 65535 },
    ghost few_loops: { loops ≤ 65535 },
}

impl<'p> Parser<'p> {
    ghost use Rattle.regress_front_tokens.specs.Cursors.{unread};
    ghost use Rattle.regress_front_tokens.specs.Ranges.{HasRanges};
    ghost use Rattle.regress_front_syntax.specs.Openings.{opened_by};
    ghost use Rattle.regress_front_syntax.specs.Parsing.{place, Answers, AnswersBehind, term_by};
    ghost use Rattle.regress_front_syntax.specs.Parsing.{IsCoherent, IsQuantifier, IsRepetition, IsFinished, IsWholeAnswer, unboxed, as_alternative};
    ghost use Rattle.regress_front_syntax.specs.Parsing.{character_opening, contents_at, whole_at};

    /// A parser at the beginning of a text.
    pub(crate) fn new(alloc: Global, points: &'p [CodePoint]) -> Self
        ensures text { unread result.cursor ≡ points.now }
        ensures beginning { (result.groups ≡ 0) × (result.loops ≡ 0) }
    {
        Parser {
            alloc,
            cursor: Cursor::new(points),
            groups: 0,
            loops: 0,
        }
    }

    /// The whole pattern: a disjunction up to the end of the text, whose names stand apart ("Pattern").
    pub(crate) fn pattern(&mut self, mode: &Mode) -> Result<Syntax, Error>
        requires beginning { (self.old.groups ≡ 0) × (self.old.loops ≡ 0) }
        requires coherent { IsCoherent (mode_view mode.now) }
        requires few { HasFewGroups mode.now }
        ensures answer { IsWholeAnswer (whole_at (mode_view mode.now) (unread self.old.cursor)) (unread self.old.cursor) result }
        ensures ranges { IfOk result HasRanges }
    {
        regress_meaning::reading_goes_by_steps();
        let boxed = self.disjunction(mode, 0)?;
        let syntax = Box::into_inner(boxed);
        if self.cursor.peek().is_some() {
            return Err(Error::Syntax {
                text: UNBALANCED_PARENTHESIS,
            });
        }
        if !names_are_apart(self.alloc, &syntax)? {
            return Err(Error::Syntax {
                text: "Duplicate capture group name",
            });
        }
        Ok(syntax)
    }

    /// How many code points are still to be read.
    pub(crate) fn remaining(&self) -> usize
        ensures { result ≡ length (unread self.now.cursor) }
    {
        self.cursor.remaining()
    }

    /// Alternatives between `|`, inside so many parentheses ("Disjunction").
    #[cycle(parser)]
    #[inline(never)]
    fn disjunction(&mut self, mode: &Mode, nesting: u32) -> Result<Box<Syntax>, Error>
        requires shallow { nesting ≤ 256 }
        requires coherent { IsCoherent (mode_view mode.now) }
        requires few { HasFewGroups mode.now }
        ensures answer { Answers (disjunction_at (mode_view mode.now)) nesting self.old self.new (unboxed result) }
        ensures ranges { IfOk result (λ s. opens s.value self.old.groups ≡ Some self.new.groups) }
        ensures progress { OnOk result (length (unread self.new.cursor) ≤ length (unread self.old.cursor)) }
    {
        regress_meaning::reading_goes_by_steps();
        let mut arms = Vec::new(self.alloc);
        loop {
            let terms = self.alternative(mode, nesting)?;
            push_alternative(&mut arms, terms)?;
            if !self.cursor.eat('|') {
                break;
            }
        }
        Ok(boxed_disjunction(self.alloc, arms)?)
    }

    /// Whether an alternative ends here: the text does, or one of `|` and `)` stands here.
    fn ends_alternative(&self) -> bool
        ensures { result ≡ ends_alternative (unread self.now.cursor) }
    {
        self.cursor.peek().is_none() || self.cursor.is_at_any("|)")
    }

    /// Terms one after another ("Alternative").
    #[cycle(parser)]
    #[inline(never)]
    fn alternative(&mut self, mode: &Mode, nesting: u32) -> Result<Vec<Term<Syntax>>, Error>
        requires shallow { nesting ≤ 256 }
        requires coherent { IsCoherent (mode_view mode.now) }
        requires few { HasFewGroups mode.now }
        ensures answer { Answers (alternative_at (mode_view mode.now)) nesting self.old self.new (as_alternative result) }
        ensures ranges { IfOk result (λ terms. in_turn (parts_of terms.items) self.old.groups ≡ Some self.new.groups) }
        ensures progress { OnOk result (length (unread self.new.cursor) ≤ length (unread self.old.cursor)) }
    {
        regress_meaning::reading_goes_by_steps();
        let mut terms = Vec::new(self.alloc);
        while !self.ends_alternative() {
            // By `?` there would be room on the stack for the term more than once.
            match self.term(mode, nesting) {
                Ok(term) => push(self.alloc, &mut terms, term)?,
                Err(error) => return Err(error),
            }
        }
        Ok(terms)
    }

    /// An assertion, or an atom and the quantifier behind it if there is one ("Term").
    #[cycle(parser)]
    fn term(&mut self, mode: &Mode, nesting: u32) -> Result<Syntax, Error>
        requires shallow { nesting ≤ 256 }
        requires coherent { IsCoherent (mode_view mode.now) }
        requires few { HasFewGroups mode.now }
        ensures answer { Answers (term_at (mode_view mode.now)) nesting self.old self.new result }
        ensures ranges { IfOk result (λ s. opens s self.old.groups ≡ Some self.new.groups) }
        ensures progress { OnOk result (length (unread self.new.cursor) < length (unread self.old.cursor)) }
    {
        if self.cursor.eat('(') {
            return self.group(mode, nesting);
        }
        self.simple_term(mode, nesting)
    }

    /// A term that is no group: an assertion of one character, or an atom and the quantifier behind it if there is one.
    #[inline(never)]
    fn simple_term(&mut self, mode: &Mode, nesting: u32) -> Result<Syntax, Error>
        requires shallow { nesting ≤ 256 }
        requires few { HasFewGroups mode.now }
        requires no_group { is_at (λ c. c == 0x28) (unread self.old.cursor) ≡ false }
        ensures answer { Answers (term_at (mode_view mode.now)) nesting self.old self.new result }
        ensures ranges { IfOk result (λ s. opens s self.old.groups ≡ Some self.new.groups) }
        ensures progress { OnOk result (length (unread self.new.cursor) < length (unread self.old.cursor)) }
    {
        if self.cursor.eat('^') {
            return Ok(Syntax::LineStart);
        }
        if self.cursor.eat('$') {
            return Ok(Syntax::LineEnd);
        }
        if self.cursor.eat('\\') {
            return self.escape(mode);
        }
        if self.cursor.eat('.') {
            return self.repeated(Syntax::Any, self.groups, true);
        }
        if self.cursor.eat('[') {
            return self.class(mode, nesting);
        }
        self.character(mode)
    }

    /// Behind a backslash: `\b` or `\B`, or an escape and the quantifier behind it if there is one ("Assertion", "AtomEscape").
    fn escape(&mut self, mode: &Mode) -> Result<Syntax, Error>
        requires { HasFewGroups mode.now }
        ensures answer { (nesting : ℕ) → nesting ≤ 256
            → Answers (term_by escape_opening (mode_view mode.now)) nesting self.old self.new result }
        ensures ranges { IfOk result (λ s. opens s self.old.groups ≡ Some self.new.groups) }
        ensures progress { OnOk result (length (unread self.new.cursor) ≤ length (unread self.old.cursor)) }
    {
        regress_meaning::reading_leaves_less();
        if self.cursor.is_at_any("bB") {
            let negated = self.cursor.is_at('B');
            self.cursor.bump();
            return Ok(Syntax::WordBoundary { negated });
        }
        let escape = self.cursor.escape(self.alloc, mode)?;
        self.repeated(tree_of(escape), self.groups, true)
    }

    /// Behind `[`: a class, and the quantifier behind it if there is one ("CharacterClass").
    fn class(&mut self, mode: &Mode, nesting: u32) -> Result<Syntax, Error>
        requires shallow { nesting ≤ 256 }
        requires few { HasFewGroups mode.now }
        ensures answer { AnswersBehind 0x5B (term_by class_opening (mode_view mode.now)) nesting self.old self.new result }
        ensures ranges { IfOk result (λ s. opens s self.old.groups ≡ Some self.new.groups) }
        ensures progress { OnOk result (length (unread self.new.cursor) ≤ length (unread self.old.cursor)) }
    {
        regress_meaning::reading_leaves_less();
        let (negated, class) = bracketed_class(&mut self.cursor, self.alloc, mode, nesting)?;
        self.repeated(Syntax::Class { negated, class }, self.groups, true)
    }

    /// A code point that stands for itself, and the quantifier behind it if there is one ("PatternCharacter",
    /// "ExtendedPatternCharacter").
    fn character(&mut self, mode: &Mode) -> Result<Syntax, Error>
        ensures answer { (nesting : ℕ) → nesting ≤ 256
            → Answers (term_by character_opening (mode_view mode.now)) nesting self.old self.new result }
        ensures ranges { IfOk result (λ s. opens s self.old.groups ≡ Some self.new.groups) }
        ensures progress { OnOk result (length (unread self.new.cursor) < length (unread self.old.cursor)) }
    {
        if !is_at_pattern_character(&self.cursor, mode.unicode) {
            return Err(Error::Syntax {
                text: misplacement(&self.cursor),
            });
        }
        let Some(point) = self.cursor.next() else {
            return Err(Error::Syntax {
                text: UNEXPECTED_CHARACTER,
            });
        };
        self.repeated(Syntax::Character(point), self.groups, true)
    }

    /// Behind `(`: a group or a lookaround, and the quantifier behind it if there is one ("Atom", "Assertion").
    #[cycle(parser)]
    #[inline(never)]
    fn group(&mut self, mode: &Mode, nesting: u32) -> Result<Syntax, Error>
        requires shallow { nesting ≤ 256 }
        requires coherent { IsCoherent (mode_view mode.now) }
        requires few { HasFewGroups mode.now }
        ensures answer { AnswersBehind 0x28 (term_by parenthesis_opening (mode_view mode.now)) nesting self.old self.new result }
        ensures ranges { IfOk result (λ s. opens s self.old.groups ≡ Some self.new.groups) }
        ensures progress { OnOk result (length (unread self.new.cursor) ≤ length (unread self.old.cursor)) }
    {
        regress_meaning::reading_goes_by_steps();
        let opened = self.groups;
        let opening = read_opening(&mut self.cursor, self.alloc, mode)?;
        self.open(&opening)?;
        let contents = self.contents(mode, nesting)?;
        self.close(mode.unicode, opening, opened, contents)
    }

    /// Behind contents and their closing parenthesis: the group or lookaround, and the quantifier behind it if there is one. So
    /// many groups were opened before it.
    #[inline(never)]
    fn close(
        &mut self,
        unicode: bool,
        opening: Opening<'p>,
        opened: u16,
        contents: Box<Syntax>,
    ) -> Result<Syntax, Error>
        ensures answer { (nesting : ℕ) → IsFinished unicode opening.entry opened (tree contents.value) (place nesting self.old) (place nesting self.new) result }
        ensures ranges { IfOk result (λ s. opens contents.value (opened_by opening.entry opened) ≡ Some self.old.groups
            → opens s opened ≡ Some self.new.groups) }
        ensures progress { OnOk result (length (unread self.new.cursor) ≤ length (unread self.old.cursor)) }
    {
        let is_lookbehind = opening.is_lookbehind();
        let may_repeat = opening.may_repeat(unicode);
        let group = opening.enclose(opened..self.groups, contents);
        if is_lookbehind {
            return Ok(group);
        }
        self.repeated(group, opened, may_repeat)
    }

    /// Counts the group that is opened, if it captures.
    fn open(&mut self, opening: &Opening) -> Result<(), Error>
        ensures opened { OnOk result (self.new.groups ≡ opened_by opening.now self.old.groups) }
        ensures full { IfErr result (λ e. (e ≡ Error.TooManyGroups)
            × (opened_by opening.now self.old.groups ≡ suc self.old.groups) × (self.old.groups ≡ 65535)) }
        ensures kept { (unread self.new.cursor ≡ unread self.old.cursor) × (self.new.loops ≡ self.old.loops) }
    {
        if opening.is_capture() {
            if usize::from(self.groups) == MAX_CAPTURE_GROUPS {
                return Err(Error::TooManyGroups);
            }
            self.groups += 1;
        }
        Ok(())
    }

    /// The contents of parentheses and the closing one, inside so many others.
    #[cycle(parser)]
    fn contents(&mut self, mode: &Mode, nesting: u32) -> Result<Box<Syntax>, Error>
        requires shallow { nesting ≤ 256 }
        requires coherent { IsCoherent (mode_view mode.now) }
        requires few { HasFewGroups mode.now }
        ensures answer { Answers (contents_at (mode_view mode.now)) (nesting + 1) self.old self.new (unboxed result) }
        ensures ranges { IfOk result (λ s. opens s.value self.old.groups ≡ Some self.new.groups) }
        ensures progress { OnOk result (length (unread self.new.cursor) ≤ length (unread self.old.cursor)) }
    {
        if nesting == MAX_NESTING_DEPTH {
            return Err(Error::TooDeep);
        }
        let contents = self.disjunction(mode, nesting + 1)?;
        if !self.cursor.eat(')') {
            return Err(Error::Syntax {
                text: UNBALANCED_PARENTHESIS,
            });
        }
        Ok(contents)
    }

    /// With the quantifier that stands here, if one does: what was read is matched so often one after another ("Quantifier"). So
    /// many groups were opened before it. A syntax error where it may have none, and where the bounds are out of order.
    #[inline(never)]
    fn repeated(&mut self, atom: Syntax, opened: u16, allowed: bool) -> Result<Syntax, Error>
        ensures answer { (nesting : ℕ) → IsRepetition allowed opened (tree atom) (place nesting self.old) (place nesting self.new) result }
        ensures ranges { IfOk result (λ s. (k : ℕ) → opens atom k ≡ Some self.old.groups → opens s k ≡ Some self.new.groups) }
        ensures progress { OnOk result (length (unread self.new.cursor) ≤ length (unread self.old.cursor)) }
    {
        let Some(quant) = self.quantifier(allowed)? else {
            return Ok(atom);
        };
        Ok(Syntax::Loop {
            loopee: Box::new(self.alloc, atom)?,
            quant,
            enclosed_groups: opened..self.groups,
        })
    }

    /// The quantifier that stands here, if one does ("Quantifier"). A syntax error where none may stand, and where the bounds are
    /// out of order.
    fn quantifier(&mut self, allowed: bool) -> Result<Option<Quantifier>, Error>
        ensures answer { (nesting : ℕ) → IsQuantifier allowed (place nesting self.old) (place nesting self.new) result }
        ensures progress { OnOk result (length (unread self.new.cursor) ≤ length (unread self.old.cursor)) }
    {
        regress_meaning::reading_leaves_less();
        let Some(quant) = self.cursor.quantifier() else {
            return Ok(None);
        };
        if !allowed {
            return Err(Error::Syntax {
                text: NOTHING_TO_REPEAT,
            });
        }
        if quant.min > quant.max.unwrap_or(usize::MAX) {
            return Err(Error::Syntax {
                text: INVALID_QUANTIFIER,
            });
        }
        if usize::from(self.loops) == MAX_LOOPS {
            return Err(Error::TooManyLoops);
        }
        self.loops += 1;
        Ok(Some(quant))
    }
}
