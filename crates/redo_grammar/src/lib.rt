//! The language of build scripts once more, as relations: which text is a script, and with which tree; which fault
//! each other text has; where a text's tokens stop. Nothing here runs.
//!
//! `redo_script` reads a text as its definitions say, which are functions. The laws say that these functions and the
//! relations agree: so `parse` reads exactly the texts of the grammar, each as its one tree, and refuses each other
//! text with the fault that the tables have for it, at the place where the text first leaves the grammar.
//!
//! - `laws`: this, as contracts of functions that do nothing.
#![tactic(auto)]

pub mod laws;
