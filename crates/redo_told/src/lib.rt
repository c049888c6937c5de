//! What is told of a run besides its report, in each form that tells more than the report.
//!
//! - `run`: what was asked for, by which program and when;
//! - `rows`: which rule makes a row's target, and whether its file has changed; `blocked`: what blocks a target.
#![tactic(auto)]

mod blocked;
mod rows;
mod run;

pub use blocked::{blockers, failed_paths, is_blocked};
pub use rows::{is_changed, rule_of};
pub use run::RunInfo;
