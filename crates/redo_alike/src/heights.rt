//! How high each node stands.

ghost use Rattle.std.specs.Prelude.{◌≡◌, ◌<◌, ◌≤◌, ◌+◌, ◌^◌, ◌⊎◌, ℕ, Some, IfOk, All, Contains, length, slice_get};
ghost use Rattle.redo_alike.specs.Alike.{IsGraph, IsOrder, AreHeights};
ghost use Rattle.redo_alike.specs.inside.Known.{known_at};

use crate::graph::Node;
use crate::known::all_known;
use std::alloc::{AllocError, Global};

/// The least height above all those of needs that are known.
fn height_above(needs: &[usize], known: &[Option<usize>]) -> usize
    requires within { (k m : ℕ) → slice_get needs.now k ≡ Some m → m < length known.now }
    requires fits { (m h : ℕ) → known_at known.now m ≡ Some h → h + 1 < 2 ^ 64 }
    ensures above { (m h : ℕ) → Contains needs.now m → known_at known.now m ≡ Some h → h < result }
    ensures least { (result ≡ 0) ⊎ ((m : ℕ) × (h : ℕ) × Contains needs.now m × (known_at known.now m ≡ Some h) × (result ≡ h + 1)) }
{
    let mut height = 0;
    for need in needs {
        if let Some(below) = known[*need] {
            height = height.max(below + 1);
        }
    }
    height
}

/// The height of each node.
pub(crate) fn all_heights(
    alloc: Global,
    nodes: &[Node],
    order: &[usize],
) -> Result<Vec<usize>, AllocError>
    requires graph { IsGraph nodes.now }
    requires order { IsOrder nodes.now order.now }
    requires size { length order.now ≤ length nodes.now }
    ensures size { IfOk result (λ heights. length heights.items ≡ length nodes.now) }
    ensures bound { IfOk result (λ heights. All (λ h. h < length nodes.now) heights.items) }
    ensures heights { IfOk result (λ heights. AreHeights nodes.now heights.items order.now) }
{
    let mut known = vec![in alloc; None; nodes.len()]?;
    for number in order {
        let height = height_above(&nodes[*number].needs, &known);
        known[*number] = Some(height);
    }
    all_known(alloc, &known)
}
