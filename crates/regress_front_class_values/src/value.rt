//! What a class stands for: a set of code points, and strings of other lengths.
ghost use Rattle.std.specs.Prelude.{◌≡◌, ◌≤◌, ℕ, false, [], ◌∷◌, ◌==◌, ◌&&◌, ◌||◌, not, length, map, fold, chars, All, unwrap_or, IfOk, OnOk};
ghost use Rattle.regress_meaning.specs.TableParts.{is_code_point, in_intervals, IntervalsRise};
ghost use Rattle.regress_meaning.specs.Class as meaning;
ghost use Rattle.regress_meaning.specs.Class.{Strings, intersection, difference, only, of_list, complement_of, is_digit, is_space, is_word, value_of};
ghost use Rattle.regress_meaning.specs.Points.{ClassIsOfPoints};
ghost use Rattle.regress_front_sets.specs.Intervals.{ends_of};
ghost use Rattle.regress_front_sets.specs.Sets.{in_set, intervals_of};
ghost use Rattle.regress_front_tables.specs.TableViews.{table};
ghost use Rattle.regress_front_tokens.specs.Trees.{class_view, union_of};

use regress_front_tables::{
    CodePoint, CodePointSet, Interval, Tables, digits, try_closure, whitespace, word_chars,
};
use regress_front_tokens::Class;
use std::alloc::{AllocError, Global};
use std::collections::BTreeSet;

/// The strings that a class stands for, before case is ignored ("CharSet").
#[derive(Debug, Drop)]
pub struct ClassValue {
    /// Those of one code point.
    pub singles: CodePointSet,
    /// The others, each as its code points.
    pub strings: Vec<Vec<CodePoint>>,
}

impl ClassValue {
    ghost use Rattle.regress_front_class_values.specs.ClassValues.{lists, strings_of, united, intersected, subtracted};

    /// Code points alone.
    fn of_points(alloc: Global, singles: CodePointSet) -> ClassValue
        ensures { strings_of result ≡ only (in_set singles) }
    {
        ClassValue {
            singles,
            strings: Vec::new(alloc),
        }
    }

    /// The strings of a list.
    #[inline(never)]
    fn of_strings(alloc: Global, strings: &[Vec<CodePoint>]) -> Result<ClassValue, AllocError>
        requires { All (All is_code_point) (lists strings.now) }
        ensures { IfOk result (λ value. strings_of value ≡ of_list (lists strings.now)) }
    {
        let mut value = ClassValue::of_points(alloc, CodePointSet::new(alloc));
        for string in strings {
            if string.len() == 1 {
                value.singles.try_add_one(string[0])?;
            } else {
                value.strings.push(Vec::from_slice(alloc, string)?)?;
            }
        }
        Ok(value)
    }

    /// How many intervals the code points take.
    fn interval_count(&self) -> usize
        ensures { result ≡ length (intervals_of self.now.singles) }
    {
        self.singles.intervals().len()
    }

    /// Adds the members of another value.
    fn add(&mut self, other: ClassValue) -> Result<(), AllocError>
        ensures { OnOk result (strings_of self.new ≡ united (strings_of self.old) (strings_of other)) }
    {
        let mut other = other;
        self.strings.append(&mut other.strings)?;
        self.singles.try_add_set(other.singles)
    }

    /// The members that are also members of another value ("ClassIntersection").
    #[inline(never)]
    fn intersection(self, alloc: Global, other: ClassValue) -> Result<ClassValue, AllocError>
        ensures { IfOk result (λ value. strings_of value ≡ intersected (strings_of self) (strings_of other)) }
    {
        let singles = without(&self.singles, other.singles.try_inverted()?)?;
        let others = string_set(alloc, other.strings)?;
        let mut strings = self.strings;
        strings.retain(|string| others.contains(string));
        Ok(ClassValue { singles, strings })
    }

    /// The members that are no members of another value ("ClassSubtraction").
    #[inline(never)]
    fn difference(self, alloc: Global, other: ClassValue) -> Result<ClassValue, AllocError>
        ensures { IfOk result (λ value. strings_of value ≡ subtracted (strings_of self) (strings_of other)) }
    {
        let singles = without(&self.singles, other.singles)?;
        let others = string_set(alloc, other.strings)?;
        let mut strings = self.strings;
        strings.retain(|string| !others.contains(string));
        Ok(ClassValue { singles, strings })
    }

    /// The code points that are no members ("CharacterComplement").
    #[inline(never)]
    fn complement(&self, alloc: Global) -> Result<ClassValue, AllocError>
        ensures { IfOk result (λ value. strings_of value ≡ complement_of (strings_of self.now)) }
    {
        let outside = self.singles.try_inverted()?;
        Ok(ClassValue::of_points(alloc, outside))
    }
}

ghost use Rattle.regress_front_class_values.specs.ClassValues.{lists, strings_of, united, all_united, HoldsStrings};

/// The strings as a set, in which each is looked up.
fn string_set(
    alloc: Global,
    strings: Vec<Vec<CodePoint>>,
) -> Result<BTreeSet<Vec<CodePoint>>, AllocError>
    ensures { IfOk result (λ set. HoldsStrings set (lists strings.items)) }
{
    strings.into_iter().collect(alloc)
}

/// The members of a set that are no members of another.
fn without(set: &CodePointSet, other: CodePointSet) -> Result<CodePointSet, AllocError>
    ensures { IfOk result (λ s. (c : ℕ) → in_set s c ≡ (in_set set.now c && not (in_set other c))) }
{
    let mut outside = set.try_inverted()?;
    outside.try_add_set(other)?;
    outside.try_inverted()
}

/// The set of the code points of intervals.
fn set_of(alloc: Global, intervals: &[Interval]) -> Result<CodePointSet, AllocError>
    requires { IntervalsRise (ends_of intervals.now) }
    ensures { IfOk result (λ s. in_set s ≡ in_intervals (ends_of intervals.now)) }
{
    let intervals = Vec::from_slice(alloc, intervals)?;
    Ok(CodePointSet::from_sorted_disjoint_intervals(intervals))
}

/// What `\w` holds; folded, in Unicode mode with case ignored, also what folds to such a character ("WordCharacters").
fn word_set(alloc: Global, tables: &Tables, folded: bool) -> Result<CodePointSet, AllocError>
    ensures { IfOk result (λ s. in_set s ≡ is_word (table tables.now) folded) }
{
    regress_front_tables::fold_is_idempotent();
    let words = set_of(alloc, &word_chars())?;
    if folded {
        try_closure(words, true, tables)
    } else {
        Ok(words)
    }
}

/// The code points with a property; none where no property has that key.
fn property_set(alloc: Global, tables: &Tables, key: &str) -> Result<CodePointSet, AllocError>
    ensures { IfOk result (λ s. in_set s ≡ unwrap_or ((table tables.now).property (chars key.now)) (λ c. false)) }
{
    match tables.property(key) {
        Some(set) => set_of(alloc, set.intervals()),
        None => Ok(CodePointSet::new(alloc)),
    }
}

/// The strings with a property; none where no property has that key.
#[inline(never)]
fn sequence_value(alloc: Global, tables: &Tables, key: &str) -> Result<ClassValue, AllocError>
    ensures { IfOk result (λ value. strings_of value ≡ of_list (unwrap_or ((table tables.now).sequences (chars key.now)) [])) }
{
    match tables.sequences(key) {
        Some(strings) => ClassValue::of_strings(alloc, strings),
        None => Ok(ClassValue::of_points(alloc, CodePointSet::new(alloc))),
    }
}

// Recursion through brackets goes 256 levels deep. So that none of its functions has room on the stack for what others need
// only in passing, those that end before the next level are kept out of line, and a value that waits for others is in a box.

/// The value of a range.
#[inline(never)]
fn range_value(alloc: Global, first: CodePoint, last: CodePoint) -> Result<ClassValue, AllocError>
    requires { IntervalsRise ((first, last) ∷ []) }
    ensures { IfOk result (λ value. strings_of value ≡ only (in_intervals ((first, last) ∷ []))) }
{
    let singles = set_of(alloc, &[Interval { first, last }])?;
    Ok(ClassValue::of_points(alloc, singles))
}

/// The value of `\d`.
#[inline(never)]
fn digit_value(alloc: Global) -> Result<ClassValue, AllocError>
    ensures { IfOk result (λ value. strings_of value ≡ only is_digit) }
{
    let singles = set_of(alloc, &digits())?;
    Ok(ClassValue::of_points(alloc, singles))
}

/// The value of `\s`.
#[inline(never)]
fn space_value(alloc: Global) -> Result<ClassValue, AllocError>
    ensures { IfOk result (λ value. strings_of value ≡ only is_space) }
{
    let singles = set_of(alloc, &whitespace())?;
    Ok(ClassValue::of_points(alloc, singles))
}

/// The value of `\w`.
#[inline(never)]
fn word_value(alloc: Global, tables: &Tables, folded: bool) -> Result<ClassValue, AllocError>
    ensures { IfOk result (λ value. strings_of value ≡ only (is_word (table tables.now) folded)) }
{
    let singles = word_set(alloc, tables, folded)?;
    Ok(ClassValue::of_points(alloc, singles))
}

/// The value of a property of code points.
#[inline(never)]
fn property_value(alloc: Global, tables: &Tables, key: &str) -> Result<ClassValue, AllocError>
    ensures { IfOk result (λ value. strings_of value ≡ only (unwrap_or ((table tables.now).property (chars key.now)) (λ c. false))) }
{
    let singles = property_set(alloc, tables, key)?;
    Ok(ClassValue::of_points(alloc, singles))
}

/// The strings that a class stands for, before case is ignored ("CompileToCharSet"). Folded: in Unicode mode, with case
/// ignored, where `\w` also holds what folds to a word character.
#[cycle(class_value)]
pub fn class_value(
    alloc: Global,
    tables: &Tables,
    folded: bool,
    class: &Class,
) -> Result<ClassValue, AllocError>
    requires { ClassIsOfPoints (class_view class.now) }
    ensures { IfOk result (λ value. strings_of value ≡ value_of (table tables.now) folded (class_view class.now)) }
{
    match class {
        Class::Range { first, last } => range_value(alloc, *first, *last),
        Class::Digits => digit_value(alloc),
        Class::Spaces => space_value(alloc),
        Class::Words => word_value(alloc, tables, folded),
        Class::Property(key) => property_value(alloc, tables, key),
        Class::Sequences(key) => sequence_value(alloc, tables, key),
        Class::Strings(strings) => ClassValue::of_strings(alloc, strings),
        Class::Union(members) => union_value(alloc, tables, folded, members),
        Class::Intersection(first, others) => {
            let first = boxed_value(alloc, tables, folded, first)?;
            intersected_value(alloc, tables, folded, first, others)
        }
        Class::Difference(first, others) => {
            let first = boxed_value(alloc, tables, folded, first)?;
            subtracted_value(alloc, tables, folded, first, others)
        }
        Class::Complement(contents) => complement_value(alloc, tables, folded, contents),
        Class::Nested { negated, contents } => {
            if *negated {
                complement_value(alloc, tables, folded, contents)
            } else {
                class_value(alloc, tables, folded, contents)
            }
        }
    }
}

/// The same, in a box.
#[cycle(class_value)]
#[inline(never)]
fn boxed_value(
    alloc: Global,
    tables: &Tables,
    folded: bool,
    class: &Class,
) -> Result<Box<ClassValue>, AllocError>
    requires { ClassIsOfPoints (class_view class.now) }
    ensures { IfOk result (λ value. strings_of value.value ≡ value_of (table tables.now) folded (class_view class.now)) }
{
    let value = class_value(alloc, tables, folded, class)?;
    Ok(Box::new(alloc, value)?)
}

/// The code points that a class does not hold ("CharacterComplement").
#[cycle(class_value)]
#[inline(never)]
fn complement_value(
    alloc: Global,
    tables: &Tables,
    folded: bool,
    class: &Class,
) -> Result<ClassValue, AllocError>
    requires { ClassIsOfPoints (class_view class.now) }
    ensures { IfOk result (λ value. strings_of value ≡ complement_of (value_of (table tables.now) folded (class_view class.now))) }
{
    let value = class_value(alloc, tables, folded, class)?;
    value.complement(alloc)
}

/// The strings that stand in the first set and in each of these classes ("CompileToCharSet").
#[cycle(class_value)]
#[inline(never)]
fn intersected_value(
    alloc: Global,
    tables: &Tables,
    folded: bool,
    first: Box<ClassValue>,
    others: &[Class],
) -> Result<ClassValue, AllocError>
    requires { All ClassIsOfPoints (map class_view others.now) }
    ensures { (c : meaning.Class) → strings_of first.value ≡ value_of (table tables.now) folded c → IfOk result (λ value.
        strings_of value ≡ value_of (table tables.now) folded (fold intersection c (map class_view others.now))) }
{
    let mut value = Box::into_inner(first);
    for other in others {
        let other = class_value(alloc, tables, folded, other)?;
        value = value.intersection(alloc, other)?;
    }
    Ok(value)
}

/// The strings that stand in the first set and in none of these classes ("CompileToCharSet").
#[cycle(class_value)]
#[inline(never)]
fn subtracted_value(
    alloc: Global,
    tables: &Tables,
    folded: bool,
    first: Box<ClassValue>,
    others: &[Class],
) -> Result<ClassValue, AllocError>
    requires { All ClassIsOfPoints (map class_view others.now) }
    ensures { (c : meaning.Class) → strings_of first.value ≡ value_of (table tables.now) folded c → IfOk result (λ value.
        strings_of value ≡ value_of (table tables.now) folded (fold difference c (map class_view others.now))) }
{
    let mut value = Box::into_inner(first);
    for other in others {
        let other = class_value(alloc, tables, folded, other)?;
        value = value.difference(alloc, other)?;
    }
    Ok(value)
}

/// The strings of classes side by side ("CompileToCharSet").
#[cycle(class_value)]
#[inline(never)]
fn union_value(
    alloc: Global,
    tables: &Tables,
    folded: bool,
    members: &[Class],
) -> Result<ClassValue, AllocError>
    requires { ClassIsOfPoints (union_of (map class_view members.now)) }
    ensures { IfOk result (λ value. strings_of value ≡ value_of (table tables.now) folded (union_of (map class_view members.now))) }
{
    let mut values = Vec::new(alloc);
    for member in members {
        let value = class_value(alloc, tables, folded, member)?;
        push_joined(&mut values, value)?;
    }
    joined(alloc, values)
}

/// Adds a value behind others, joined with those before it that are not much larger: each has then more than twice as many
/// intervals as the next. So a class of many members does not copy its whole union for each.
#[inline(never)]
fn push_joined(values: &mut Vec<ClassValue>, value: ClassValue) -> Result<(), AllocError>
    ensures { OnOk result (all_united values.new.items ≡ united (all_united values.old.items) (strings_of value)) }
{
    let mut value = value;
    while let Some(mut last) = values.pop() {
        if last.interval_count() / 2 > value.interval_count() {
            values.push(last)?;
            break;
        }
        last.add(value)?;
        value = last;
    }
    values.push(value)?;
    Ok(())
}

/// The members of all values.
#[inline(never)]
fn joined(alloc: Global, values: Vec<ClassValue>) -> Result<ClassValue, AllocError>
    ensures { IfOk result (λ value. strings_of value ≡ all_united values.items) }
{
    let mut values = values;
    let mut value = ClassValue::of_points(alloc, CodePointSet::new(alloc));
    while let Some(mut last) = values.pop() {
        last.add(value)?;
        value = last;
    }
    Ok(value)
}
