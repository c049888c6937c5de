//! A report, or a list of targets that are out of date, as JSON, for programs.
//!
//! [`json`] tells a report as one object and a newline: what was asked of the run; what became of each row, with what is
//! wrong with it, whether its script was begun and why, its rule, whether its file has changed, what blocks it, and its
//! record; rings; notes, also of files that the build doesn't need; and a summary. [`list_json`] tells a list in the
//! same form. `docs/report.schema.json` is the schema of both.
//!
//! A value that a row doesn't have is left out: `bytes` where there is no file, `reason` and `line` where nothing
//! failed or no line is named, `diagnosis` where there is none, `why` where the script wasn't begun, `rule` where there
//! is none, `changed` where nothing was built, `blocked_by` where it didn't fail because of another, `path_hex` where
//! the path is UTF-8. A diagnosis without a place has neither `file`, `line`, `column`, `length` nor `text`, and one
//! without words on what to do no `help`. A run over a bundle has no `directory`, and one without a clock no `began` or
//! no `milliseconds`. `column` and `length` count bytes. `rings`, and the lists of `notes`, are there where they are
//! empty, too.
//!
//! The text is written token by token with the toolchain's `json`, whose contracts say what text tokens have and that
//! it reads back as the same tokens. A value of `serde_json` sorts the members of an object by name and stands in
//! memory whole, while here they stand in the order of the schema.
//!
//! - `told`: the text of a report; `list`: that of a list; `run`: what was asked of a run;
//! - `rows`: a row; `outcomes`: how a target ended; `diagnoses`: what is wrong with it; `made`: its rule, whether its
//!   file has changed, what blocks it; `entries`: a record;
//! - `rings`: cyclic targets that ask for one another; `notes`: what is stale;
//! - `known`: what is known of the paths of rows;
//! - `paths`: paths that may not be UTF-8; `members`: the tokens' writer.
#![tactic(auto)]

mod diagnoses;
mod entries;
mod known;
mod list;
mod made;
mod members;
mod notes;
mod outcomes;
mod paths;
mod rings;
mod rows;
mod run;
mod told;

pub use list::list_json;
pub use told::{Told, json};
