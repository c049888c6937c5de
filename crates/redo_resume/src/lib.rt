//! What the run after a broken-off one comes to. Nothing here runs: [`laws`] has the law.
#![tactic(auto)]

pub mod laws;
