//! What the book of the last run knows, building nothing.
//!
//! [`answer_to`] answers a [`Question`] over a past: which targets stand as they were left, which sources these
//! depend on, what a target depends on, and who needs a path.
//!
//! - `answers`: questions and answers; `text`: their lines;
//! - `standing`: targets that stand, and the sources that they depend on; `named`: which paths a record names;
//! - `users`: who names a path; `needing`: who needs it, to the end; `index`: a hint that keeps this quick;
//! - `nearest`: the nearest name;
//! - [`laws`]: what an answer depends on.
#![tactic(auto)]

mod answers;
mod index;
pub mod laws;
mod named;
mod nearest;
mod needing;
mod standing;
mod text;
mod users;

pub use answers::{Answer, Question, answer_to};
