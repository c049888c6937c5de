//! Which nodes are in one group.

ghost use Rattle.std.specs.Prelude.{◌≡◌, ◌<◌, ◌≤◌, ℕ, Some, IfOk, IfSome, IfNone, Contains, None, length, slice_get};
ghost use Rattle.redo_alike.specs.Alike.{IsGraph, IsOrder};
ghost use Rattle.redo_alike.specs.inside.Known.{known_at};
ghost use Rattle.redo_alike.specs.inside.Groups.{AreGroups, AreGroupsOf, IsKey};

use crate::graph::{Kind, Node};
use crate::known::all_known;
use indexmap::IndexSet;
use std::alloc::{AllocError, Global};

/// What the nodes of a group have in common.
#[derive(PartialEq, Eq, Hash, Drop)]
pub(crate) enum Key {
    /// The node itself, which is with no other.
    Own(usize),
    /// The kind, and the groups of needs.
    Shared(Kind, Vec<usize>),
}

/// The groups of needs, from the least on, each once. `None` if a need has no group yet.
fn groups_below(
    alloc: Global,
    needs: &[usize],
    known: &[Option<usize>],
) -> Result<Option<Vec<usize>>, AllocError>
    requires { (k m : ℕ) → slice_get needs.now k ≡ Some m → m < length known.now }
    ensures groups { IfOk result (λ below. IfSome below (λ groups. AreGroupsOf needs.now (known_at known.now) groups.items)) }
    ensures known { IfOk result (λ below. IfSome below (λ groups. (m : ℕ) → Contains needs.now m → (g : ℕ) × (known_at known.now m ≡ Some g))) }
    ensures none { IfOk result (λ below. IfNone below ((m : ℕ) × Contains needs.now m × (known_at known.now m ≡ None))) }
{
    let mut below = Vec::with_capacity(alloc, needs.len())?;
    for need in needs {
        match known[*need] {
            Some(group) => below.push(group)?,
            None => return Ok(None),
        }
    }
    below.sort_unstable();
    below.dedup();
    Ok(Some(below))
}

/// The key of a node. Those before it have groups.
fn key_of(
    alloc: Global,
    nodes: &[Node],
    number: usize,
    known: &[Option<usize>],
) -> Result<Key, AllocError>
    requires graph { IsGraph nodes.now }
    requires within { number < length nodes.now }
    requires size { length known.now ≡ length nodes.now }
    ensures { IfOk result (λ key. IsKey nodes.now (known_at known.now) number key) }
{
    let node = &nodes[number];
    if node.alone {
        return Ok(Key::Own(number));
    }
    match groups_below(alloc, &node.needs, known)? {
        Some(groups) => Ok(Key::Shared(node.kind, groups)),
        None => Ok(Key::Own(number)),
    }
}

/// The group of each node.
pub(crate) fn all_groups(
    alloc: Global,
    nodes: &[Node],
    order: &[usize],
) -> Result<Vec<usize>, AllocError>
    requires graph { IsGraph nodes.now }
    requires order { IsOrder nodes.now order.now }
    requires size { length order.now ≤ length nodes.now }
    ensures { IfOk result (λ groups. AreGroups nodes.now groups.items) }
{
    let mut keys = IndexSet::new(alloc);
    let mut known = vec![in alloc; None; nodes.len()]?;
    for number in order {
        let key = key_of(alloc, nodes, *number, &known)?;
        let (group, _new) = keys.insert_full(key)?;
        known[*number] = Some(group);
    }
    all_known(alloc, &known)
}
