//! What is stale after a build, or soon will be.
//!
//! [`notes`] compares what a run took over from the last one with what the build came to: files that were taken for
//! sources although a rule would make them, and files of earlier runs that no run makes any more. [`shadowed`] has
//! all sources that have a rule, without a build, and [`shadowed_within`] those below some places.
//!
//! - `kinds`: the three kinds; `asked`: which paths a build has asked for; `finding`: what is found of each kind;
//! - `text`: the lines;
//! - [`laws`]: what notes depend on.
#![tactic(auto)]

mod asked;
mod finding;
mod kinds;
pub mod laws;
mod text;

pub use finding::{notes, shadowed, shadowed_within};
pub use kinds::{Notes, Unbuilt};
pub use text::{text_of, text_of_shadowed};
