//! Built files that a build no longer needs.
//!
//! A build leaves the file of a target that nothing asks for any more: it removes none. [`dead_plan`] finds these
//! files by the report of a build, as the plan of a clean that removes them alone.
#![tactic(auto)]

mod dead;
mod text;

pub use dead::dead_plan;
pub use text::dead_text;
