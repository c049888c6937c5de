//! A report in few lines, for people: one for each target that was built, failed or is cyclic, and one that counts
//! them.
//!
//! [`short_text`] tells of a target what the report tells of it, without its record. Sources and targets that were
//! kept have no line.
//!
//! - `counts`: how many targets there are of each kind; `lines`: the lines.
#![tactic(auto)]

mod counts;
mod lines;

pub use counts::summary_words;
pub use lines::short_text;
