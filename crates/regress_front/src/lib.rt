//! The front of the engine: from a pattern's text to the tree of nodes that is emitted, rewritten or not, with all that stands
//! below it. A layer above names this crate alone.
//!
//! ```rust
//! use regress_front::{CodePoint, Error, Flags, Tables, are_code_points, optimize, try_parse};
//!
//! fn print(alloc: Global, pattern: &[CodePoint], flags: Flags) -> Result<String, Error> {
//!     if !are_code_points(pattern) {
//!         return Err(Error::Syntax { text: "no code point" });
//!     }
//!     let tables = Tables::small(alloc).map_err(|_| Error::OutOfMemory)?;
//!     let mut regex = try_parse(alloc, pattern, flags, &tables)?;
//!     optimize(alloc, &mut regex)?;
//!     Ok(regex.to_string(alloc)?)
//! }
//! ```
#![tactic(auto)]

pub use regress_front_bytes::AsciiBitmap;
pub use regress_front_bytes::ByteArraySet;
pub use regress_front_bytes::ByteBitmap;
pub use regress_front_bytes::ByteSearcher;
pub use regress_front_bytes::ByteSet;
pub use regress_front_bytes::CodePointRange;
pub use regress_front_bytes::EmptyString;
pub use regress_front_bytes::FoldRange;
pub use regress_front_bytes::MAX_CHAR_SET_LENGTH;
pub use regress_front_bytes::SmallArraySet;
pub use regress_front_bytes::are_code_points;
pub use regress_front_bytes::ascii_bitmap_holds_ascii;
pub use regress_front_bytes::charset_contains;
pub use regress_front_bytes::equal_range_by;
pub use regress_front_bytes::is_utf8_continuation;
pub use regress_front_bytes::to_char_sat;
pub use regress_front_bytes::utf8_first_byte;
pub use regress_front_bytes::utf8_w2;
pub use regress_front_bytes::utf8_w3;
pub use regress_front_bytes::utf8_w4;
pub use regress_front_core::CaptureGroupID;
pub use regress_front_core::CaptureGroupName;
pub use regress_front_core::Error;
pub use regress_front_core::FlagError;
pub use regress_front_core::Flags;
pub use regress_front_core::GroupData;
pub use regress_front_core::IP;
pub use regress_front_core::LoopData;
pub use regress_front_core::LoopID;
pub use regress_front_core::MAX_CAPTURE_GROUPS;
pub use regress_front_core::MAX_LOOPS;
pub use regress_front_core::MAX_NESTING_DEPTH;
pub use regress_front_core::Quantifier;
pub use regress_front_core::ScriptFlags;
pub use regress_front_core::flags_are_read_back;
pub use regress_front_core::limits_are_those_of_the_definitions;
pub use regress_front_costs::LimitError;
pub use regress_front_costs::is_within;
pub use regress_front_nodes::AnchorType;
pub use regress_front_nodes::BracketContents;
pub use regress_front_nodes::Node;
pub use regress_front_nodes::NodeList;
pub use regress_front_nodes::Piece;
pub use regress_front_nodes::Walk;
pub use regress_front_nodes::alike_parts_make_alike_wholes;
pub use regress_front_nodes::ascii_bytes;
pub use regress_front_nodes::ir;
pub use regress_front_nodes::lower_code_point_sequence;
pub use regress_front_nodes::nodes_stand_for_trees;
pub use regress_front_nodes::pieces_match_their_string;
pub use regress_front_nodes::walk;
pub use regress_front_nodes::walk_mut;
pub use regress_front_opt::PassAction;
pub use regress_front_opt::optimize;
pub use regress_front_rules::broken_nodes_are_redexes;
pub use regress_front_rules::normal_forms_are_reached;
pub use regress_front_rules::rules_are_right;
pub use regress_front_rules::rules_keep_the_rest;
pub use regress_front_rules::trees_nest_less_than_their_size;
pub use regress_front_rules::trees_of_nodes_are_listed;
pub use regress_front_rules::wholes_are_right;
pub use regress_front_sets::CODE_POINT_MAX;
pub use regress_front_sets::CharacterClassType;
pub use regress_front_sets::CodePoint;
pub use regress_front_sets::CodePointSet;
pub use regress_front_sets::CountedIntervals;
pub use regress_front_sets::DIGITS;
pub use regress_front_sets::Interval;
pub use regress_front_sets::LINE_TERMINATOR;
pub use regress_front_sets::Probes;
pub use regress_front_sets::WHITESPACE;
pub use regress_front_sets::WORD_CHARS;
pub use regress_front_sets::add_utf8_first_bytes_to_bitmap;
pub use regress_front_sets::bracket_index;
pub use regress_front_sets::digits;
pub use regress_front_sets::equal_members_equal_intervals;
pub use regress_front_sets::inverted_twice_is_the_same;
pub use regress_front_sets::is_ascii_word;
pub use regress_front_sets::line_terminator;
pub use regress_front_sets::whitespace;
pub use regress_front_sets::word_chars;
pub use regress_front_syntax::Class;
pub use regress_front_syntax::Modifiers;
pub use regress_front_syntax::Refused;
pub use regress_front_syntax::Syntax;
pub use regress_front_syntax::Term;
pub use regress_front_syntax::parse;
pub use regress_front_syntax::parse_telling_place;
pub use regress_front_tables::TableError;
pub use regress_front_tables::TableLaw;
pub use regress_front_tables::TableParts;
pub use regress_front_tables::Tables;
pub use regress_front_tables::add_icase_code_points;
pub use regress_front_tables::closure;
pub use regress_front_tables::expand_code_point;
pub use regress_front_tables::fold;
pub use regress_front_tables::fold_is_idempotent;
pub use regress_front_tables::lawful_parts_break_no_law;
pub use regress_front_tables::unfold_char;
pub use regress_front_tree::try_parse;
pub use regress_front_tree::try_parse_whole_text;
pub use regress_front_tree::try_parse_whole_text_within;
pub use regress_front_tree::try_parse_within;
