//! A list of targets that are out of date, as data and in words.
//!
//! redo_ood makes it, and redo_page, redo_json and redo_dot show it in other forms.
//!
//! - `listed`: a target in a list; `text`: the lines of a list.
#![tactic(auto)]

mod listed;
mod text;

pub use listed::{Listed, State};
pub use text::text_of;
