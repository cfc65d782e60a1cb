//! The evaluator: what a tree matches, on lists of states, as the definitions say it.
ghost use Rattle.std.specs.Prelude.{◌≡◌, ◌≤◌, if◌then◌else◌, length, map, option_map, chars, take, IfOk, IfSome};
ghost use Rattle.std.specs.Box.{boxed_slice_items};
ghost use Rattle.std.specs.List.{flat_map};
ghost use Rattle.regress_meaning.specs.Laws.{IsItemInside};
ghost use Rattle.regress_front_nodes.specs.Trees.{tree, cat_of, anchor_of, boundary, loop};
ghost use Rattle.regress_front_nodes.specs.TreeMeaning.{node_outcomes, literal_steps, alternatives};
ghost use Rattle.regress_meaning.specs.Meaning.{Forward, Backward, captured, looked};
ghost use Rattle.regress_front_core.specs.Quantifiers.{most};
ghost use Rattle.regress_front_nodes.specs.NodeMatches.{node_attempt, node_first_match};
ghost use Rattle.regress_evaluator.specs.PlaceViews.{item_of};
ghost use Rattle.regress_evaluator.specs.StateViews.{state_of, context_of, direction_of};

use crate::found::{Found, Places};
use crate::singles::Single;
use crate::state::State;
use crate::steps::Direction;
use crate::tasks::{Task, push_expansions, push_tasks};
use crate::utf8::characters;
use regress_front_nodes::{AnchorType, Node, Quantifier};
use regress_front_tables::{CaptureGroupID, CodePoint, Tables};
use std::alloc::{AllocError, Global};
use std::boxed::BoxedSlice;

/// A text to be searched, as code points, with the tables, the mode and the number of groups that hold for the whole
/// pattern. The text's places are counted from 0 to its length.
#[derive(Drop)]
pub(crate) struct Evaluator<'s> {
    pub(crate) alloc: Global,
    pub(crate) points: &'s [CodePoint],
    pub(crate) tables: &'s Tables,
    pub(crate) unicode: bool,
    pub(crate) group_count: usize,
}

impl<'s> Evaluator<'s> {
    /// The states that a tree leads to from a state, the most preferred first.
    #[cycle(evaluator)]
    fn outcomes(
        &self,
        node: &Node,
        direction: Direction,
        state: &State,
    ) -> Result<Vec<State>, AllocError>
        ensures { IfOk result (λ states. map state_of states.items
            ≡ node_outcomes (context_of self.now) (tree node.now) (direction_of direction) (state_of state.now)) }
    {
        match node {
            Node::Empty | Node::Goal => state.alone_at(state.place),
            Node::Char { c } => self.one(&Single::Char(*c), direction, state),
            Node::ByteSequence(bytes) => self.literal(bytes, direction, state),
            Node::ByteSet(bytes) => self.one(&Single::ByteSet(bytes), direction, state),
            Node::CharSet(points) => self.one(&Single::CharSet(points), direction, state),
            Node::Cat(parts) => self.outcomes_of_parts(parts, direction, state),
            Node::Alt(first, second) => {
                let mut states = self.outcomes(first, direction, state)?;
                states.append(&mut self.outcomes(second, direction, state)?)?;
                Ok(states)
            }
            Node::MatchAny => self.one(&Single::Any, direction, state),
            Node::MatchAnyExceptLineTerminator => self.one(&Single::AnyInLine, direction, state),
            Node::Anchor {
                anchor_type,
                multiline,
            } => self.anchor(*anchor_type, *multiline, direction, state),
            Node::WordBoundary {
                invert,
                unicode_icase,
            } => self.word_boundary(*invert, *unicode_icase, direction, state),
            Node::CaptureGroup { id, contents, .. } => self.outcomes_of_capture(
                *id, contents, direction, state,
            ),
            Node::BackRef { group, icase } => self.back_reference(*group, *icase, direction, state),
            Node::Bracket(contents) => self.one(&Single::Bracket(contents), direction, state),
            Node::StringSet {
                alternatives,
                icase,
            } => self.strings(alternatives, *icase, direction, state),
            Node::LookaroundAssertion {
                negate,
                backwards,
                contents,
                ..
            } => self.outcomes_of_look(*negate, *backwards, contents, state),
            Node::AtomicGroup { contents, .. } => {
                self.outcomes_of_atomic(contents, direction, state)
            }
            Node::Loop {
                loopee,
                quant,
                enclosed_groups,
            } => self.outcomes_of_loop(loopee, *quant, enclosed_groups, direction, state),
            Node::Loop1CharBody { loopee, quant } => self.outcomes_of_loop(
                loopee,
                *quant,
                &(0..0),
                direction,
                state,
            ),
        }
    }

    /// Steps over the characters of a byte literal.
    fn literal(
        &self,
        bytes: &[u8],
        direction: Direction,
        state: &State,
    ) -> Result<Vec<State>, AllocError>
        ensures { IfOk result (λ states. map state_of states.items
            ≡ literal_steps (context_of self.now) (direction_of direction) (chars bytes.now) (state_of state.now)) }
    {
        self.string(&characters(self.alloc, bytes)?, false, direction, state)
    }

    /// Steps over each of some strings, side by side.
    fn strings(
        &self,
        strings: &[BoxedSlice<CodePoint>],
        icase: bool,
        direction: Direction,
        state: &State,
    ) -> Result<Vec<State>, AllocError>
        ensures { IfOk result (λ states. map state_of states.items
            ≡ alternatives (context_of self.now) (direction_of direction) icase (map boxed_slice_items strings.now) (state_of state.now)) }
    {
        let mut all = Vec::new(self.alloc);
        for string in strings {
            all.append(&mut self.string(string, icase, direction, state)?)?;
        }
        Ok(all)
    }

    /// The state, where an anchor holds at its place.
    #[tactic(auto, unfolding(regress_front_nodes::specs::TreeMeaning::node_outcomes))]
    fn anchor(
        &self,
        anchor_type: AnchorType,
        multiline: bool,
        direction: Direction,
        state: &State,
    ) -> Result<Vec<State>, AllocError>
        ensures { IfOk result (λ states. map state_of states.items
            ≡ node_outcomes (context_of self.now) (anchor_of anchor_type multiline) (direction_of direction) (state_of state.now)) }
    {
        let holds = match anchor_type {
            AnchorType::StartOfLine => self.is_line_start(multiline, state.place),
            AnchorType::EndOfLine => self.is_at_line_end(multiline, state.place),
        };
        self.keep_if(holds, state)
    }

    /// The state, where a word starts or ends at its place; inverted, where none does.
    #[tactic(auto, unfolding(regress_front_nodes::specs::TreeMeaning::node_outcomes))]
    fn word_boundary(
        &self,
        invert: bool,
        folded: bool,
        direction: Direction,
        state: &State,
    ) -> Result<Vec<State>, AllocError>
        ensures { IfOk result (λ states. map state_of states.items
            ≡ node_outcomes (context_of self.now) (boundary invert folded) (direction_of direction) (state_of state.now)) }
    {
        self.keep_if(self.is_boundary(folded, state.place) != invert, state)
    }

    /// What a tree leads to from each state, one after another.
    #[cycle(evaluator)]
    fn outcomes_of_all(
        &self,
        node: &Node,
        direction: Direction,
        states: &[State],
    ) -> Result<Vec<State>, AllocError>
        ensures { IfOk result (λ all. map state_of all.items
            ≡ flat_map (node_outcomes (context_of self.now) (tree node.now) (direction_of direction)) (map state_of states.now)) }
    {
        let mut all = Vec::new(self.alloc);
        for state in states {
            all.append(&mut self.outcomes(node, direction, state)?)?;
        }
        Ok(all)
    }

    /// What parts lead to one after another.
    #[cycle(evaluator)]
    fn outcomes_of_parts(
        &self,
        parts: &[Node],
        direction: Direction,
        state: &State,
    ) -> Result<Vec<State>, AllocError>
        ensures { IfOk result (λ states. map state_of states.items
            ≡ node_outcomes (context_of self.now) (cat_of (map tree parts.now)) (direction_of direction) (state_of state.now)) }
    {
        let mut states = state.alone_at(state.place)?;
        for part in parts {
            states = self.outcomes_of_all(part, direction, &states)?;
        }
        Ok(states)
    }

    /// What a group's contents lead to, the group set.
    #[cycle(evaluator)]
    fn outcomes_of_capture(
        &self,
        group: CaptureGroupID,
        contents: &Node,
        direction: Direction,
        state: &State,
    ) -> Result<Vec<State>, AllocError>
        ensures { IfOk result (λ states. map state_of states.items
            ≡ map (captured group state.now.place)
            (node_outcomes (context_of self.now) (tree contents.now) (direction_of direction) (state_of state.now))) }
    {
        let mut states = self.outcomes(contents, direction, state)?;
        for found in states.iter_mut() {
            found.capture(group, state.place);
        }
        Ok(states)
    }

    /// The state with the groups of what stands ahead, or behind; negated, the state where nothing does
    /// ("CompileAssertion").
    #[cycle(evaluator)]
    fn outcomes_of_look(
        &self,
        negate: bool,
        backwards: bool,
        contents: &Node,
        state: &State,
    ) -> Result<Vec<State>, AllocError>
        ensures { IfOk result (λ states. map state_of states.items
            ≡ looked negate (state_of state.now)
            (node_outcomes (context_of self.now) (tree contents.now) (if backwards then Backward else Forward) (state_of state.now))) }
    {
        let direction = if backwards {
            Direction::Backward
        } else {
            Direction::Forward
        };
        let first = self
            .outcomes(contents, direction, state)?
            .into_iter()
            .next();
        match first {
            Some(found) if !negate => found.alone_at(state.place),
            None if negate => state.alone_at(state.place),
            _ => Ok(Vec::new(self.alloc)),
        }
    }

    /// The first of the states to which the contents of an atomic group lead, or nothing.
    #[cycle(evaluator)]
    fn outcomes_of_atomic(
        &self,
        contents: &Node,
        direction: Direction,
        state: &State,
    ) -> Result<Vec<State>, AllocError>
        ensures { IfOk result (λ states. map state_of states.items
            ≡ take 1 (node_outcomes (context_of self.now) (tree contents.now) (direction_of direction) (state_of state.now))) }
    {
        let mut states = self.outcomes(contents, direction, state)?;
        states.truncate(1);
        Ok(states)
    }

    /// What iterations of a tree lead to, the groups inside cleared before each ("RepeatMatcher").
    #[cycle(evaluator)]
    fn outcomes_of_loop(
        &self,
        loopee: &Node,
        quant: Quantifier,
        enclosed: &std::ops::Range<CaptureGroupID>,
        direction: Direction,
        state: &State,
    ) -> Result<Vec<State>, AllocError>
        ensures { IfOk result (λ states. map state_of states.items
            ≡ node_outcomes (context_of self.now)
            (loop (tree loopee.now) enclosed.now.start enclosed.now.end quant.min (most quant) quant.greedy)
            (direction_of direction) (state_of state.now)) }
    {
        let mut all = Vec::new(self.alloc);
        let left = quant.max.unwrap_or(usize::MAX);
        // A stack in place of a recursion: a repetition may run as often as the text is long.
        let mut tasks = Vec::new(self.alloc);
        push_expansions(&mut tasks, state.alone_at(state.place)?, left, quant.min)?;
        while let Some(task) = tasks.pop() {
            match task {
                Task::Emit(state) => all.push(state)?,
                Task::Expand { state, left: 0, .. } => all.push(state)?,
                Task::Expand { state, left, need } => {
                    let next = self.outcomes(loopee, direction, &state.cleared(enclosed)?)?;
                    push_tasks(&mut tasks, quant.greedy, state, next, left - 1, need)?;
                }
            }
        }
        Ok(all)
    }

    /// The most preferred match that begins at a place.
    fn attempt(&self, node: &Node, place: usize) -> Result<Option<Found>, AllocError>
        ensures value { IfOk result (λ found. option_map item_of found
            ≡ node_attempt (context_of self.now) self.now.group_count (tree node.now) place) }
        ensures inside { place ≤ length self.now.points.now →
            IfOk result (λ found. IfSome found (λ m. IsItemInside self.now.points.now (item_of m))) }
    {
        let groups = vec![in self.alloc; None; self.group_count]?;
        let states = self.outcomes(node, Direction::Forward, &State { place, groups })?;
        let Some(state) = states.into_iter().next() else {
            return Ok(None);
        };
        let span = Places {
            start: place,
            end: state.place,
        };
        Ok(Some(Found {
            span,
            groups: state.groups,
        }))
    }

    /// The match at the least place from `place` on that has one, told in places ("RegExpBuiltinExec").
    ///
    /// From a place past the end there is none. It errs where a request for memory is refused.
    pub(crate) fn first_match(&self, node: &Node, place: usize) -> Result<Option<Found>, AllocError>
        ensures value { IfOk result (λ found. option_map item_of found
            ≡ node_first_match (context_of self.now) self.now.group_count (tree node.now) place) }
        ensures inside { IfOk result
            (λ found. IfSome found (λ m. IsItemInside self.now.points.now (item_of m))) }
    {
        for start in place..=self.points.len() {
            if let Some(found) = self.attempt(node, start)? {
                return Ok(Some(found));
            }
        }
        Ok(None)
    }
}
