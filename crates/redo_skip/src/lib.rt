//! A build with the book of the last run, over any sources, and the laws that make it safe to skip scripts.
//!
//! Before a target's script is begun, the entries that the book recorded for it are looked at in order. If all of
//! them stand, the target is kept; once one falls, its script is begun. The definitions state this as rules of
//! redo_build, so every law of builds and schedules holds for a build with a book, whatever the book says. The laws
//! here say more. If the book's records are honest, and the build without it keeps to the limit and has no cyclic
//! target, then a build with the book comes to the same targets, outcomes and records, and begins no other scripts.
//! The records of the new book are true if those of the last one were. Nothing here runs: redo_core keeps and begins
//! targets by these rules.
//!
//! - `laws`: what holds of every build with a book, as contracts of functions that do nothing.
#![tactic(auto)]

pub mod laws;
