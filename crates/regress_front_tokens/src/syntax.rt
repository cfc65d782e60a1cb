//! The syntax tree of a pattern, as the parser makes it.

use regress_front_tables::{CaptureGroupID, CaptureGroupName, CodePoint, Quantifier};
use std::ops::Range;
use std::rc::RcSlice;

/// What modifiers switch on, or off ("RegularExpressionModifiers").
#[derive(Debug, Clone, Copy, Drop)]
pub struct Modifiers {
    /// `i`: case is ignored.
    pub icase: bool,
    /// `m`: `^` and `$` also stand at line terminators.
    pub multiline: bool,
    /// `s`: `.` is any character, line terminators too.
    pub dot_all: bool,
}

/// What stands between the brackets of a class, or for a class escape ("CharacterClass", "ClassSetExpression").
#[derive(Debug, Drop)]
pub enum Class {
    /// The code points from one to another; a single one is a range of one.
    Range { first: CodePoint, last: CodePoint },
    /// `\d`
    Digits,
    /// `\s`
    Spaces,
    /// `\w`
    Words,
    /// A property of code points, by its key.
    Property(String),
    /// A property of strings, by its key.
    Sequences(String),
    /// `\q{..}`
    Strings(Vec<Vec<CodePoint>>),
    /// Members side by side.
    Union(Vec<Class>),
    /// What stands in the first and in each of the others.
    Intersection(Box<Class>, Vec<Class>),
    /// What stands in the first and in none of the others.
    Difference(Box<Class>, Vec<Class>),
    /// `\D`, `\S`, `\W`, `\P{..}`
    Complement(Box<Class>),
    /// `[..]` and `[^..]` inside a class.
    Nested { negated: bool, contents: Box<Class> },
}

/// What stands in an alternative, where a value of `T` is one term.
#[derive(Debug, Drop)]
pub enum Term<T> {
    /// Characters side by side, at least two: each is a term of its own.
    Text(Vec<CodePoint>),
    /// One term.
    One(T),
}

/// The tree of a pattern ("Patterns").
#[derive(Debug, Drop)]
pub enum Syntax {
    /// One code point.
    Character(CodePoint),
    /// `.`
    Any,
    /// `[..]` and `[^..]`
    Class {
        negated: bool,
        class: Class,
    },
    /// `\d`, `\P{..}` and their like, outside a class.
    ClassEscape(Class),
    /// Terms one after another.
    Alternative(Vec<Term<Syntax>>),
    /// Alternatives, at least one.
    Disjunction(Vec<Syntax>),
    /// A capturing group: its number from 0, its name, if it has one, and its contents.
    Capture {
        id: CaptureGroupID,
        name: Option<CaptureGroupName>,
        contents: Box<Syntax>,
    },
    /// `(?:..)`
    Group(Box<Syntax>),
    /// `(?>..)`, with the numbers of the groups inside, as a loop has them.
    Atomic {
        contents: Box<Syntax>,
        enclosed_groups: Range<u16>,
    },
    /// `(?i-m:..)`
    Modified {
        on: Modifiers,
        off: Modifiers,
        contents: Box<Syntax>,
    },
    /// What is repeated, how often, and the numbers of the groups inside: from the first up to the one behind the last.
    Loop {
        loopee: Box<Syntax>,
        quant: Quantifier,
        enclosed_groups: Range<u16>,
    },
    /// `(?=..)`, `(?!..)`, `(?<=..)`, `(?<!..)`, with the numbers of the groups inside, as a loop has them.
    Look {
        negated: bool,
        backward: bool,
        contents: Box<Syntax>,
        enclosed_groups: Range<u16>,
    },
    /// To groups by their numbers from 0: one, or those of a name, a list that all references by this name share.
    Reference(RcSlice<u16>),
    /// `^`
    LineStart,
    /// `$`
    LineEnd,
    /// `\b` and `\B`
    WordBoundary {
        negated: bool,
    },
}
