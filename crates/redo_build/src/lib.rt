//! The build as a recursion, and the laws of every build.
//!
//! The definitions say what a build is, over any rules. A recursion on depth gives what becomes of each target, from
//! the outcomes of the targets that it asks for. A schedule gives the states that a build can be in, for every order in
//! which scripts are taken and handed in and checks go on. The laws say that a finite depth is enough, and that every
//! order shows a part of that one build, and all of it at the end. Nothing here runs, and nothing depends on trees or
//! on the language of scripts: the crate stands on redo_record alone, for records and for the law of a target's
//! progress.
//!
//! - `laws`: what holds of every build and every order, as contracts of functions that do nothing.
#![tactic(auto)]

pub mod laws;
