//! Why each script of a build was begun, told after the build.
//!
//! [`reasons`] gives each begun script of a report its reason, and [`explain`] tells them, one a line. Both go by the
//! past of the tree that was built, by the request and by the report alone; the build keeps nothing for it.
//!
//! - `begun`: the begun scripts with their reasons; `text`: the same in words;
//! - `standing`: whether recorded entries stand; `outcomes`: what a report tells of a path.
#![tactic(auto)]

mod begun;
mod outcomes;
mod standing;
mod text;

pub use begun::{Begun, Reason, reasons};
pub use text::{change_words, create_words, explain, reason_words};
