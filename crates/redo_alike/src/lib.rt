//! Which targets of a graph are alike, and how high each stands.
//!
//! [`group`] knows neither paths nor rules: its caller numbers them. It walks through the graph in depth, so that each
//! node comes behind all that it needs, unless a need closes a cycle. In this order each node gets its height, and its
//! group by its kind and the groups of its needs.
//!
//! - `graph`: nodes; `grouping`: [`group`];
//! - `order`: the order of the nodes; `heights`, `groups`: what each has in it; `known`: a table that fills.
#![tactic(auto)]

mod graph;
mod grouping;
mod groups;
mod heights;
mod known;
mod order;

pub use graph::{Kind, Node};
pub use grouping::{Grouped, group};
