//! That a tree has one report, and that the books that runs leave can be trusted from run to run.
//!
//! Nothing here runs when redo does.
//!
//! - `laws`: these laws, as contracts of functions that do nothing;
//! - `both`: a build by one thread and the same by many, with the contract that they answer the same.
#![tactic(auto)]

pub mod both;
pub mod laws;
