//! The search for a compiled pattern in a text, by the evaluator.
ghost use Rattle.std.specs.Prelude.{◌≡◌, ◌<◌, ⊤, None, true, map, chars, encode_utf8_all, IfOk, IfSome, OnErr, IsOkUnless};
ghost use Rattle.std.specs.Str.{all_scalars};
ghost use Rattle.regress_front_nodes.specs.Trees.{tree};
ghost use Rattle.regress_front_nodes.specs.Names.{names_in};
ghost use Rattle.regress_match.specs.GroupNames.{shared_names};

use crate::evaluator::Evaluator;
use crate::text::Text;
use regress_front_nodes::Node;
use regress_front_tables::{CaptureGroupName, Error, Tables};
use regress_match::{Match, MatchProducer};
use std::alloc::Global;
use std::sync::ArcSlice;

/// A compiled pattern, as the evaluator takes it.
#[derive(Debug, Clone, Copy, Drop)]
pub struct CompiledPattern<'r> {
    /// The tree of the pattern.
    pub node: &'r Node,
    /// The tables by which classes and case are judged.
    pub tables: &'r Tables,
    /// Whether case is ignored as in Unicode mode.
    pub unicode: bool,
}

/// Finds the matches of a compiled pattern in a text by the evaluator. A position is a place, counted in code points.
#[derive(Debug, Drop)]
pub struct Search<'r> {
    alloc: Global,
    pattern: CompiledPattern<'r>,
    group_names: ArcSlice<CaptureGroupName>,
    text: Text,
    ghost characters: { all_scalars text.points.items ≡ true },
    ghost named: { map chars (shared_names group_names) ≡ names_in (tree pattern.node.now) },
}

impl<'r> Search<'r> {
    ghost use Rattle.regress_evaluator.specs.StateViews.{context_of};
    ghost use Rattle.regress_evaluator.specs.Searching.{pattern_of, points_of, names_of, searching, group_count_of, items_from, places_behind, IsMatchOf};
    ghost use Rattle.regress_match.specs.Iterating.{Finds};

    /// The search for a pattern in a text. Its matches have the names of the groups of the tree. Errs with `OutOfMemory` alone.
    ///
    /// ```rust
    /// let search = Search::new(alloc, pattern, "aab")?;
    /// ```
    pub fn new(
        alloc: Global,
        pattern: CompiledPattern<'r>,
        source: &str,
    ) -> Result<Search<'r>, Error>
        ensures over { IfOk result (λ s. (pattern_of s ≡ pattern.entry) × (points_of s ≡ chars source.now)) }
        ensures named { IfOk result (λ s. map chars (names_of s) ≡ names_in (tree pattern.entry.node.now)) }
        ensures refused { IsOkUnless result Error.OutOfMemory }
    {
        let group_names = ArcSlice::from_vec(pattern.node.group_names(alloc)?)?;
        let text = Text::new(alloc, source)?;
        Ok(Search {
            alloc,
            pattern,
            group_names,
            text,
        })
    }

    /// What the pattern is evaluated by in the text.
    fn evaluator(&self) -> Evaluator<'_>
        ensures context { context_of result ≡ searching (pattern_of self.now) (points_of self.now) }
        ensures text { result.points.now ≡ points_of self.now }
        ensures groups { result.group_count ≡ group_count_of self.now.pattern }
    {
        Evaluator {
            alloc: self.alloc,
            points: self.text.points(),
            tables: self.pattern.tables,
            unicode: self.pattern.unicode,
            group_count: self.group_names.len(),
        }
    }

    /// The first match from a place on, told in bytes, and in `next` the place to go on from.
    fn first_from(&self, position: usize, next: &mut Option<usize>) -> Result<Option<Match>, Error>
        ensures found { IfOk result (λ found. Finds (items_from self.now) (IsMatchOf self.now) position found next.new) }
        ensures nearer { IfSome next.new (λ p. places_behind self.now p < places_behind self.now position) }
        ensures last { OnErr result (next.new ≡ None) }
        ensures refused { IsOkUnless result Error.OutOfMemory }
    {
        *next = None;
        let Some(found) = self.evaluator().first_match(self.pattern.node, position)? else {
            return Ok(None);
        };
        let told = self.text.told(&found, self.group_names.clone()?)?;
        *next = found.place_after(self.text.points().len());
        Ok(Some(told))
    }
}

impl<'r> MatchProducer for Search<'r> {
    ghost use Rattle.regress_evaluator.specs.declared.search.Search.{Search};
    ghost use Rattle.regress_evaluator.specs.Searching.{items_from, places_behind, StartsAt, IsMatchOf};

    type Position = usize;

    ghost Search = { Search };

    ghost search_of = { λ s. s };

    ghost is_position = { λ _ _. ⊤ };

    ghost is_start = { λ _ _. ⊤ };

    ghost items_from = { items_from };

    ghost left_behind = { places_behind };

    ghost starts_at = { StartsAt };

    ghost is_of_search = { IsMatchOf };

    /// The place at an offset in bytes; `None` where no character begins and the text doesn't end there.
    fn initial_position(&self, offset: usize) -> Option<usize> {
        regress_meaning::offsets_rise();
        self.text.place(offset)
    }

    /// The first match from a place on, told in bytes ("RegExpBuiltinExec").
    fn next_match(
        &mut self,
        position: usize,
        next: &mut Option<usize>,
    ) -> Result<Option<Match>, Error> {
        self.first_from(position, next)
    }
}
