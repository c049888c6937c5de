//! Why scripts were begun, and what is out of date: laws over trees as they were read and reports. Nothing here runs.
//!
//! What redo_why says of any sources holds of a tree with its book. By a report alone each begun script has its
//! reason, the same as by the outcomes of the build; and a list that was made of the tree tells which scripts the
//! report says were begun.
//!
//! - `laws`: both, as contracts of functions that do nothing.
#![tactic(auto)]

pub mod laws;
