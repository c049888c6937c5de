//! A source tree's scripts as rules, with the book of the last run and without, and the laws of builds by them.
//!
//! The definitions say how far each target of a tree comes under given answers: by its sources, the search for rules
//! and what scripts mean. They say what a build is given, and what it comes to. With the book of the last run, a
//! needed target is in check if it isn't requested and is as its record says, and its script is begun only once a
//! recorded entry falls. The laws of redo_build and redo_skip hold of any rules and sources that keep some
//! conditions; here trees are shown to keep them. So a build over a tree may skip scripts where its book is honest,
//! and leaves a true book where the last one was true. redo_core keeps and begins targets by these rules; of what
//! runs, only the judgement of a single entry is here.
//!
//! - `laws`: these laws, as contracts of functions that do nothing;
//! - `standing`: whether a recorded entry stands.
#![tactic(auto)]

pub mod laws;
mod standing;

pub use standing::{Alone, is_as_recorded, standing_alone};
