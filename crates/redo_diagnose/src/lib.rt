//! What is wrong with each failed target of a build, where, and what to do: told after the build.
//!
//! [`diagnoses`] goes by the sources that a build had and by its report alone; the build keeps nothing for it. Of a
//! script that can't be read it asks redo_script for the place of the fault; a script that failed while it ran is run
//! again with the outcomes that the report has, and redo_step tells at which command and operand it ended.
//!
//! - `diagnosis`: a diagnosis as data; `finding`: those of a report; `behind`: how many targets wait behind a failed one;
//! - `answers`: the outcomes that a report has; `scripts`: a target's script, read and run again;
//! - `places`: places in a script's text; `reasons`: why a target failed, in the words of a report, and in which line;
//! - what is said: `said` (pieces), `bytes` (bytes that are refused), `commands` (their names and forms), `faults` (scripts
//!   that can't be read), `ends` (scripts that failed), `missing` (targets without a script), `near` (names that are near);
//! - `printed`: options behind `echo`, which prints them;
//! - `shown`: bytes as a reader may see them; `groups`: one fault of several targets; `text`: the lines.
#![tactic(auto)]

mod answers;
mod behind;
mod bytes;
mod commands;
mod diagnosis;
mod ends;
mod faults;
mod finding;
mod groups;
mod missing;
mod near;
mod places;
mod printed;
mod reasons;
mod said;
mod scripts;
mod shown;
mod text;

pub use diagnosis::{Diagnosed, Diagnosis, Place};
pub use finding::diagnoses;
pub use printed::{Echo, echoes};
pub use reasons::{line_named, why_text};
pub use shown::shown_lines;
pub use text::{Stand, text_of, text_of_rings};
