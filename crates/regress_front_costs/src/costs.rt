//! What a pattern costs, told of its syntax tree.
ghost use Rattle.std.specs.Prelude.{◌≡◌, ◌+◌, ◌-◌, [], chars, map, nat_le, sum_by, unwrap_or};
ghost use Rattle.regress_front_class_values.specs.ClassValues.{lists};
ghost use Rattle.regress_front_tables.specs.TableViews.{table};
ghost use Rattle.regress_front_tokens.specs.Trees.{tree, class_view, trees_of, choice_of};
ghost use Rattle.regress_front_nodes.specs.Sizes.{unrolling};
ghost use Rattle.regress_front_costs.specs.Costs.{Leaves, strings_cost, class_cost, cost};

use regress_front_tables::{CaptureGroupID, CodePoint, Tables};
use regress_front_tokens::{Class, Quantifier, Syntax, Term};
use std::ops::Range;

/// A body is unrolled at most this often.
const MOST_UNROLLED: usize = 5;

/// A body of more nodes is not unrolled.
const LARGEST_UNROLLED: usize = 1280;

/// What is left of an amount where strings are paid.
#[inline(never)]
fn strings_left(strings: &[Vec<CodePoint>], amount: usize) -> Option<usize>
    ensures { Leaves amount (strings_cost (lists strings.now)) result }
{
    let mut left = amount;
    for string in strings {
        left = left.checked_sub(string.len())?.checked_sub(3)?;
    }
    Some(left)
}

/// What is left of an amount where the strings with a property are paid.
#[inline(never)]
fn sequences_left(tables: &Tables, key: &str, amount: usize) -> Option<usize>
    ensures { Leaves amount (strings_cost (unwrap_or ((table tables.now).sequences (chars key.now)) [])) result }
{
    match tables.sequences(key) {
        Some(strings) => strings_left(strings, amount),
        None => Some(amount),
    }
}

/// What is left of an amount where a class is paid.
#[cycle(class_left)]
fn class_left(tables: &Tables, class: &Class, amount: usize) -> Option<usize>
    ensures { Leaves amount (class_cost (table tables.now) (class_view class.now)) result }
{
    match class {
        Class::Sequences(key) => sequences_left(tables, key, amount),
        Class::Strings(strings) => strings_left(strings, amount),
        Class::Union(members) => classes_left(tables, members, amount),
        Class::Intersection(first, others) => {
            classes_left(tables, others, class_left(tables, first, amount)?)
        }
        Class::Difference(first, others) => {
            classes_left(tables, others, class_left(tables, first, amount)?)
        }
        Class::Complement(contents) => class_left(tables, contents, amount),
        Class::Nested { contents, .. } => class_left(tables, contents, amount),
        Class::Range { .. } => Some(amount),
        Class::Digits => Some(amount),
        Class::Spaces => Some(amount),
        Class::Words => Some(amount),
        Class::Property(_) => Some(amount),
    }
}

/// What is left of an amount where classes are paid.
#[cycle(class_left)]
fn classes_left(tables: &Tables, classes: &[Class], amount: usize) -> Option<usize>
    ensures { Leaves amount (sum_by (class_cost (table tables.now)) (map class_view classes.now)) result }
{
    let mut left = amount;
    for class in classes {
        left = class_left(tables, class, left)?;
    }
    Some(left)
}

/// What unrolling may add to a repetition of a body that costs so much.
fn unrolling(quant: &Quantifier, body: usize) -> usize
    ensures { result ≡ unrolling quant.now.min body }
{
    if 1 <= quant.min && quant.min <= MOST_UNROLLED {
        quant.min * body.min(LARGEST_UNROLLED) + 1
    } else {
        0
    }
}

/// What is left of what its body has left, where a repetition is paid.
#[inline(never)]
fn repetition_left(
    quant: &Quantifier,
    groups: &Range<CaptureGroupID>,
    body: usize,
    left: usize,
) -> Option<usize>
    ensures { Leaves left (1 + (groups.now.end - groups.now.start) + unrolling quant.now.min body) result }
{
    let groups = usize::from(groups.end.saturating_sub(groups.start));
    left.checked_sub(1)?
        .checked_sub(groups)?
        .checked_sub(unrolling(quant, body))
}

/// What is left of an amount where a part of a pattern is paid. Calls go as deep as the pattern nests.
#[cycle(syntax_left)]
fn syntax_left(tables: &Tables, syntax: &Syntax, amount: usize) -> Option<usize>
    ensures { Leaves amount (cost (table tables.now) (tree syntax.now)) result }
{
    match syntax {
        Syntax::Character(_) => amount.checked_sub(1),
        Syntax::Any => amount.checked_sub(1),
        Syntax::Class { class, .. } => class_left(tables, class, amount)?.checked_sub(1),
        Syntax::ClassEscape(class) => class_left(tables, class, amount)?.checked_sub(1),
        Syntax::Alternative(terms) => terms_left(tables, terms, amount)?.checked_sub(1),
        Syntax::Disjunction(arms) => arms_left(tables, arms, amount),
        Syntax::Capture { contents, .. } => {
            syntax_left(tables, contents, amount)?.checked_sub(1)
        }
        Syntax::Group(contents) => syntax_left(tables, contents, amount),
        Syntax::Atomic { contents, .. } => syntax_left(tables, contents, amount)?.checked_sub(1),
        Syntax::Modified { contents, .. } => syntax_left(tables, contents, amount),
        Syntax::Loop {
            loopee,
            quant,
            enclosed_groups,
        } => {
            let left = syntax_left(tables, loopee, amount)?;
            repetition_left(quant, enclosed_groups, amount - left, left)
        }
        Syntax::Look { contents, .. } => syntax_left(tables, contents, amount)?.checked_sub(1),
        Syntax::Reference(groups) => amount.checked_sub(groups.len())?.checked_sub(1),
        Syntax::LineStart => amount.checked_sub(1),
        Syntax::LineEnd => amount.checked_sub(1),
        Syntax::WordBoundary { .. } => amount.checked_sub(1),
    }
}

/// What is left of an amount where terms are paid, one after another.
#[cycle(syntax_left)]
fn terms_left(tables: &Tables, terms: &[Term<Syntax>], amount: usize) -> Option<usize>
    ensures { Leaves amount (sum_by (cost (table tables.now)) (trees_of terms.now)) result }
{
    let mut left = amount;
    for term in terms {
        left = match term {
            Term::Text(points) => left.checked_sub(points.len())?,
            Term::One(term) => syntax_left(tables, term, left)?,
        };
    }
    Some(left)
}

/// What is left of an amount where alternatives are paid, each by itself.
#[cycle(syntax_left)]
fn each_left(tables: &Tables, parts: &[Syntax], amount: usize) -> Option<usize>
    ensures { Leaves amount (sum_by (cost (table tables.now)) (map tree parts.now)) result }
{
    let mut left = amount;
    for part in parts {
        left = syntax_left(tables, part, left)?;
    }
    Some(left)
}

/// What is left of an amount where a choice between alternatives is paid.
#[cycle(syntax_left)]
fn arms_left(tables: &Tables, arms: &[Syntax], amount: usize) -> Option<usize>
    ensures { Leaves amount (cost (table tables.now) (choice_of (map tree arms.now))) result }
{
    if arms.is_empty() {
        return amount.checked_sub(1);
    }
    each_left(tables, arms, amount)?.checked_sub(arms.len() - 1)
}

/// Whether a part of a pattern, and so much around it, costs no more than a limit. The count stops as soon as that is passed.
///
/// ```rust
/// let cheap = is_within(&tables, &syntax, 2, 1_000_000);
/// ```
pub fn is_within(tables: &Tables, syntax: &Syntax, around: usize, limit: usize) -> bool
    ensures { result ≡ nat_le (cost (table tables.now) (tree syntax.now) + around) limit }
{
    match syntax_left(tables, syntax, limit) {
        Some(left) => around <= left,
        None => false,
    }
}
