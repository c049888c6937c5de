//! A report, or a list of targets that are out of date, as a graph, in the language of graphviz's `dot`.
//!
//! [`dot`] draws each row as a node, and each entry of a record as an edge from its target to the path that it names. A
//! target is a box: black if its script was begun, grey if it was kept, red if it failed, and orange if it is cyclic. A
//! source is plain text, and so is a path where nothing is. An edge is solid for `change` and dashed for `create`.
//! Candidates and rules, the `.do` files, are grey, and are left out unless they are wanted.
//!
//! [`list_dot`] draws each listed target as a box: black if a run begins its script, grey if it may be kept, red if it
//! has no rule any more, and orange if it waits for itself or a ring. Edges lead from one listed target to another.
//!
//! A name stands in quotes as a label shows it. In a path that isn't UTF-8, each byte from 128 on shows as the
//! character with that number.
//!
//! - `graph`: the whole text of a report; `edges`: the edges of a record; `list`: the text of a list;
//! - `names`: names in quotes.
#![tactic(auto)]

mod edges;
mod graph;
mod list;
mod names;

pub use graph::dot;
pub use list::list_dot;
