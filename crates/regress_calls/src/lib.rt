//! What each call of the library for C does, over slots that a caller in C holds.
#![tactic(auto)]

mod asking;
mod buffer;
mod calls;
mod compiling;
mod finding;
mod held;
mod making;
mod many;
mod numbers;
mod search;
mod sharing;
mod slot;
mod text;
mod text_range;

pub use asking::{
    error_text, escape, group_count, group_name, group_numbers, is_linear, linear_steps,
    pattern_text, replace, replace_all,
};
pub use buffer::copy_text;
pub use calls::{find, find_many, free, is_match, match_at, set_max_steps};
pub use compiling::{Refusal, Source, compile};
pub use held::Held;
pub use making::{put_search, put_small_tables, put_unicode_tables, share};
pub use regress::DEFAULT_LIMIT;
pub use regress_call_errors::{CallError, text_of_code};
pub use search::Search;
pub use slot::Slot;
pub use text::{Text, utf8};
pub use text_range::TextRange;
