//! The heights and the groups of a graph.

ghost use Rattle.std.specs.Prelude.{◌≡◌, ◌<◌, ℕ, List, IfOk, All, Contains, length, slice_get};
ghost use Rattle.redo_alike.specs.Alike.{AreHeights, AreTogether, IsAlone, IsFree, IsGraph, IsOrder, NeedSameGroups, kind_of};

use crate::graph::Node;
use crate::groups::all_groups;
use crate::heights::all_heights;
use crate::order::post_order;
use std::alloc::{AllocError, Global};

/// What each node has, by its number.
#[derive(Drop)]
pub struct Grouped {
    /// How high it stands: 0 if it needs none, else above what it needs. Of the needs of a cycle not all count.
    pub heights: Vec<usize>,
    /// The number of its group, from 0 on.
    pub groups: Vec<usize>,
}

/// Puts those nodes of a graph together that are of one kind and need the same groups. A node is with no other if it is
/// to be alone, or if one of its needs has no group when it gets its own, since that need closes a cycle.
pub fn group(alloc: Global, nodes: &[Node]) -> Result<Grouped, AllocError>
    requires { IsGraph nodes.now }

    // Each node has a height and a group, both below the number of nodes. No number of a group is left out.
    ensures heights_size { IfOk result (λ grouped. length grouped.heights.items ≡ length nodes.now) }
    ensures heights_bound { IfOk result (λ grouped. All (λ h. h < length nodes.now) grouped.heights.items) }
    ensures groups_size { IfOk result (λ grouped. length grouped.groups.items ≡ length nodes.now) }
    ensures groups_bound { IfOk result (λ grouped. All (λ g. g < length nodes.now) grouped.groups.items) }
    ensures numbered { IfOk result (λ grouped. All (λ g. (other : ℕ) → other < g → Contains grouped.groups.items other) grouped.groups.items) }

    // In an order of the nodes, each is one higher than the highest of its needs that come before it.
    ensures heights { IfOk result (λ grouped. (order : List ℕ) × IsOrder nodes.now order × AreHeights nodes.now grouped.heights.items order) }

    // Those of a group are of one kind, and need the same groups.
    ensures same_kind { IfOk result (λ grouped. (a b : ℕ) → AreTogether grouped.groups.items a b →
        kind_of (slice_get nodes.now a) ≡ kind_of (slice_get nodes.now b)) }
    ensures same_needs { IfOk result (λ grouped. (a b : ℕ) → AreTogether grouped.groups.items a b →
        NeedSameGroups nodes.now grouped.groups.items a b) }

    // A node that is to be alone is with no other.
    ensures alone { IfOk result (λ grouped. (a b : ℕ) → AreTogether grouped.groups.items a b → IsAlone nodes.now a → a ≡ b) }

    // Two that may be put with others, are of one kind and need the same groups are together.
    ensures together { IfOk result (λ grouped. (a b : ℕ) → IsFree nodes.now a → IsFree nodes.now b →
        kind_of (slice_get nodes.now a) ≡ kind_of (slice_get nodes.now b) →
        NeedSameGroups nodes.now grouped.groups.items a b → AreTogether grouped.groups.items a b) }
{
    let order = post_order(alloc, nodes)?;
    let heights = all_heights(alloc, nodes, &order)?;
    let groups = all_groups(alloc, nodes, &order)?;
    Ok(Grouped { heights, groups })
}
