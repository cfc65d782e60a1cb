//! Searches by an executor of one's choice, and the parts by which a pattern is compiled.
ghost use Rattle.std.specs.Prelude.{◌≡◌, ℕ, IsTrue, IfOk, IfSome, chars, map};
ghost use Rattle.std.specs.Str.{IsAscii};
ghost use Rattle.regress_meaning.specs.Table.{Table};
ghost use Rattle.regress_meaning.specs.Pattern.{Pattern};
ghost use Rattle.regress_meaning.specs.Flags.{Options};
ghost use Rattle.regress_meaning.specs.Matches.{match_list};
ghost use Rattle.regress_meaning.specs.Offsets.{of_utf8, told, Begins};
ghost use Rattle.regress_match.specs.declared.found.Match.{Match};
ghost use Rattle.regress_match.specs.Iterating.{coming_on, position_of, producer_of};
ghost use Rattle.regress_match.specs.TextRanges.{IsMatchIn};
ghost use Rattle.regress_front.specs.Trees.{Tree};
ghost use Rattle.regress.specs.Standing.{StandsFor, HasTree, tree_list, names_of_regex};

use crate::api::Regex;
pub use regress_engine_code::{emit, emit_units};
pub use regress_engine_copying::PikeVMExecutor;
pub use regress_engine_inputs::{AsciiInput, Utf8Input};
pub use regress_engine_search::{AnyText, AsciiText, Executor, TextKind};
pub use regress_front::{optimize, try_parse, try_parse_whole_text};
pub use regress_match::{MatchProducer, Matches};
pub use regress_programs::BacktrackExecutor;
use std::alloc::AllocError;

/// The executor that the library's calls in texts go by.
pub type DefaultExecutor<'t> = BacktrackExecutor<'t, Utf8Input<'t, 't>>;

/// The executor that the library's calls in texts of ASCII go by.
pub type DefaultAsciiExecutor<'t> = BacktrackExecutor<'t, AsciiInput<'t, 't>>;

/// The matches in a text from `start` on, an offset in bytes, as the executor `E` finds them, their ranges told in bytes
/// ("RegExpBuiltinExec").
///
/// Asks that a search may begin there, as `is_start` tells, and that the text is ASCII where `E` asks for that, as
/// `is_ascii_text` tells. Past the end of the text there is none. It errs
/// where memory is refused alone.
///
/// ```rust
/// let first = backends::find::<DefaultExecutor>(&regex, "xaab", 0)?.next(); // for `a+b` the match at 1..4
/// ```
pub fn find<'t, E: Executor<'t>>(
    regex: &'t Regex,
    text: &'t str,
    start: usize,
) -> Result<Matches<E>, AllocError>
    requires start { (place : ℕ) × Begins (of_utf8 text.now) start place }
    requires ascii { IsTrue E.Text.ASCII_ONLY → IsAscii text.now }
    ensures matches { (t : Table) → (o : Options) → (p : Pattern) → StandsFor regex.now t o p →
        (place : ℕ) → Begins (of_utf8 text.now) start place →
        IfOk result (λ ms. coming_on (E.items_from (E.search_of (producer_of ms))) (position_of ms) ≡ map (told (of_utf8 text.now)) (match_list t o p (chars text.now) place)) }
    ensures matches_of_tree { (n : ℕ) → (t : Tree) → HasTree regex.now n t →
        (place : ℕ) → Begins (of_utf8 text.now) start place →
        IfOk result (λ ms. coming_on (E.items_from (E.search_of (producer_of ms))) (position_of ms) ≡ map (told (of_utf8 text.now)) (tree_list regex.now n t (chars text.now) place)) }
    ensures begins { IfOk result (λ ms. IfSome (position_of ms) (E.is_position (E.search_of (producer_of ms)))) }
    ensures inside { IfOk result (λ ms. (m : Match) → E.is_of_search (E.search_of (producer_of ms)) m → IsMatchIn text.now (names_of_regex regex.now) m) }
{
    let executor = E::new(regex.alloc, &regex.compiled.byte_program, text)?;
    Ok(Matches::new(executor, start))
}

/// The matches in a text of ASCII from `start` on, as the executor that goes as `E` does over ASCII finds them: `find` by it.
///
/// ```rust
/// let first = backends::find_ascii::<DefaultExecutor>(&regex, "xaab", 0)?.next(); // for `a+b` the match at 1..4
/// ```
pub fn find_ascii<'t, E: Executor<'t>>(
    regex: &'t Regex,
    text: &'t str,
    start: usize,
) -> Result<Matches<E::AsAscii>, AllocError>
where
    E::AsAscii: Executor<'t>,
    requires start { (place : ℕ) × Begins (of_utf8 text.now) start place }
    requires ascii { IsTrue E.AsAscii.Text.ASCII_ONLY → IsAscii text.now }
    ensures matches { (t : Table) → (o : Options) → (p : Pattern) → StandsFor regex.now t o p →
        (place : ℕ) → Begins (of_utf8 text.now) start place →
        IfOk result (λ ms. coming_on (E.AsAscii.items_from (E.AsAscii.search_of (producer_of ms))) (position_of ms) ≡ map (told (of_utf8 text.now)) (match_list t o p (chars text.now) place)) }
    ensures matches_of_tree { (n : ℕ) → (t : Tree) → HasTree regex.now n t →
        (place : ℕ) → Begins (of_utf8 text.now) start place →
        IfOk result (λ ms. coming_on (E.AsAscii.items_from (E.AsAscii.search_of (producer_of ms))) (position_of ms) ≡ map (told (of_utf8 text.now)) (tree_list regex.now n t (chars text.now) place)) }
    ensures begins { IfOk result (λ ms. IfSome (position_of ms) (E.AsAscii.is_position (E.AsAscii.search_of (producer_of ms)))) }
    ensures inside { IfOk result (λ ms. (m : Match) → E.AsAscii.is_of_search (E.AsAscii.search_of (producer_of ms)) m → IsMatchIn text.now (names_of_regex regex.now) m) }
{
    find::<E::AsAscii>(regex, text, start)
}
