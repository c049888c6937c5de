//! The order of the nodes: a walk in depth leaves each behind all that it needs, unless a need closes a cycle.

ghost use Rattle.std.specs.Prelude.{◌≡◌, ◌<◌, ◌≤◌, ◌+◌, ◌*◌, ◌++◌, ◌∷◌, [], ℕ, true, false, Some, IfOk, IfSome, IfNone, OnOk, length, slice_get, slice_set};
ghost use Rattle.redo_alike.specs.Alike.{IsGraph, IsOrder};
ghost use Rattle.redo_alike.specs.inside.Walks.{AreSeen, IsWalk, seen_at, unseen_count};

use crate::graph::Node;
use std::alloc::{AllocError, Global};

/// A walk through a graph.
#[derive(Drop)]
struct Walk {
    seen: Vec<bool>,
    /// The place of the first need of each node that wasn't looked at.
    next: Vec<usize>,
    /// The nodes that the walk is in: each needs the one behind it.
    way: Vec<usize>,
    /// The nodes that it has left.
    left: Vec<usize>,
}

/// The place of the first need, from a place on, that wasn't seen.
fn next_unseen(needs: &[usize], seen: &[bool], from: usize) -> Option<usize>
    requires { (k m : ℕ) → slice_get needs.now k ≡ Some m → m < length seen.now }
    ensures found { IfSome result (λ place. (m : ℕ) × (slice_get needs.now place ≡ Some m) × (seen_at seen.now m ≡ false)) }
    ensures before { IfSome result (λ place. AreSeen needs.now seen.now from place) }
    ensures none { IfNone result (AreSeen needs.now seen.now from (length needs.now)) }
{
    for place in from..needs.len() {
        if !seen[needs[place]] {
            return Some(place);
        }
    }
    None
}

/// Enters a node that wasn't seen.
fn enter(walk: &mut Walk, number: usize) -> Result<(), AllocError>
    requires { number < length walk.old.seen.items }
    ensures way { OnOk result (walk.new.way.items ≡ walk.old.way.items ++ number ∷ []) }
    ensures seen { walk.new.seen.items ≡ slice_set walk.old.seen.items number true }
    ensures next { walk.new.next.items ≡ walk.old.next.items }
    ensures left { walk.new.left.items ≡ walk.old.left.items }
{
    walk.seen[number] = true;
    walk.way.push(number)?;
    Ok(())
}

/// Goes on from the last node of the way, which was taken off it: to its next need that wasn't seen. Else leaves it.
fn go_on(nodes: &[Node], walk: &mut Walk, here: usize) -> Result<(), AllocError>
    requires graph { IsGraph nodes.now }
    requires walk { IsWalk nodes.now walk.old.seen.items walk.old.next.items (walk.old.way.items ++ here ∷ []) walk.old.left.items }
    ensures walk { OnOk result (IsWalk nodes.now walk.new.seen.items walk.new.next.items walk.new.way.items walk.new.left.items) }
    ensures seen { OnOk result ((n : ℕ) → seen_at walk.old.seen.items n ≡ true → seen_at walk.new.seen.items n ≡ true) }
    ensures less { OnOk result (2 * unseen_count walk.new.seen.items + length walk.new.way.items
        ≤ 2 * unseen_count walk.old.seen.items + length walk.old.way.items) }
{
    let needs = &nodes[here].needs;
    match next_unseen(needs, &walk.seen, walk.next[here]) {
        Some(place) => {
            walk.next[here] = place + 1;
            walk.way.push(here)?;
            enter(walk, needs[place])?;
        }
        None => walk.left.push(here)?,
    }
    Ok(())
}

/// Walks from a node that wasn't seen until the walk has left it.
fn walk_from(nodes: &[Node], walk: &mut Walk, root: usize) -> Result<(), AllocError>
    requires graph { IsGraph nodes.now }
    requires within { root < length nodes.now }
    requires new { seen_at walk.old.seen.items root ≡ false }
    requires walk { IsWalk nodes.now walk.old.seen.items walk.old.next.items [] walk.old.left.items }
    requires way { walk.old.way.items ≡ [] }
    ensures walk { OnOk result (IsWalk nodes.now walk.new.seen.items walk.new.next.items [] walk.new.left.items) }
    ensures way { OnOk result (walk.new.way.items ≡ []) }
    ensures seen { OnOk result ((n : ℕ) → seen_at walk.old.seen.items n ≡ true → seen_at walk.new.seen.items n ≡ true) }
    ensures here { OnOk result (seen_at walk.new.seen.items root ≡ true) }
{
    enter(walk, root)?;
    while let Some(here) = walk.way.pop() {
        go_on(nodes, walk, here)?;
    }
    Ok(())
}

/// Each node, behind all of its needs but those that close a cycle.
pub(crate) fn post_order(alloc: Global, nodes: &[Node]) -> Result<Vec<usize>, AllocError>
    requires { IsGraph nodes.now }
    ensures order { IfOk result (λ order. IsOrder nodes.now order.items) }
    ensures size { IfOk result (λ order. length order.items ≤ length nodes.now) }
{
    let mut walk = Walk {
        seen: vec![in alloc; false; nodes.len()]?,
        next: vec![in alloc; 0; nodes.len()]?,
        way: Vec::new(alloc),
        left: Vec::with_capacity(alloc, nodes.len())?,
    };
    for root in 0..nodes.len() {
        if !walk.seen[root] {
            walk_from(nodes, &mut walk, root)?;
        }
    }
    Ok(walk.left)
}
