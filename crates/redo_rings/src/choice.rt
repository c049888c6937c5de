//! Which of the targets that one asks for a walk goes on to, so that rings are short.
//!
//! Targets that lead to each other are a group. A breadth-first search from each member, against the direction of asking,
//! finds one on a shortest ring of the group; from there it gives each member a shortest way back. That a walk goes on to
//! what is asked for is all that proofs know of a choice: a worse one would make a longer ring.

use crate::graph::Asks;
use crate::groups::{Caller, Callers, callers_of, groups};
use std::alloc::{AllocError, Global};

/// A shortest ring is looked for from at most so many members of a group, as each search may go through all of it.
const MOST_STARTS: usize = 1_000;

/// The members of a group.
#[derive(Drop)]
struct Members {
    list: Vec<usize>,
}

/// Numbers with those that ask for them, and the group of each.
#[derive(Drop)]
struct Grouped {
    callers: Vec<Callers>,
    groups: Vec<Option<usize>>,
    /// Those of each group.
    members: Vec<Members>,
}

impl Grouped {
    /// The group of a number.
    fn group_of(&self, number: usize) -> Option<usize> {
        *self.groups.get(number)?
    }

    /// Who asks for a number.
    fn callers(&self, number: usize) -> &[Caller] {
        match self.callers.get(number) {
            Some(callers) => &callers.list,
            None => &[],
        }
    }
}

/// The members of each group, by these groups of numbers.
fn members_of(alloc: Global, groups: &[Option<usize>]) -> Result<Vec<Members>, AllocError> {
    let mut all = Vec::with_capacity(alloc, groups.len())?;
    for _number in 0..groups.len() {
        let list = Vec::new(alloc);
        all.push(Members { list })?;
    }
    for (number, group) in groups.iter().enumerate() {
        if let Some(members) = group.and_then(|group| all.get_mut(group)) {
            members.list.push(number)?;
        }
    }
    Ok(all)
}

/// Marks a number as seen from a first one. Returns whether it wasn't.
fn see(seen: &mut [Option<usize>], number: usize, first: usize) -> bool {
    match seen.get_mut(number) {
        Some(mark) if *mark != Some(first) => {
            *mark = Some(first);
            true
        }
        _ => false,
    }
}

/// Adds who asks for a number in the group of the first and wasn't seen. Returns whether the first asks for it.
fn step_back(
    graph: &Grouped,
    seen: &mut [Option<usize>],
    first: usize,
    number: usize,
    next: &mut Vec<usize>,
) -> Result<bool, AllocError> {
    for caller in graph.callers(number) {
        if caller.number == first {
            return Ok(true);
        }
        if graph.group_of(caller.number) == graph.group_of(first)
            && see(seen, caller.number, first)
        {
            next.push(caller.number)?;
        }
    }
    Ok(false)
}

/// The length of a shortest ring through a number, if it is at most `most`.
fn ring_length(
    alloc: Global,
    graph: &Grouped,
    seen: &mut [Option<usize>],
    first: usize,
    most: usize,
) -> Result<Option<usize>, AllocError> {
    let mut level = Vec::new(alloc);
    level.push(first)?;
    for length in 0..most {
        let mut next = Vec::new(alloc);
        for number in &level {
            if step_back(graph, seen, first, *number, &mut next)? {
                return Ok(Some(length + 1));
            }
        }
        if next.is_empty() {
            break;
        }
        level = next;
    }
    Ok(None)
}

/// The member of a number's group that is on a shortest ring; the number itself, if none is on one.
fn start_of(
    alloc: Global,
    graph: &Grouped,
    seen: &mut [Option<usize>],
    number: usize,
) -> Result<usize, AllocError> {
    let mut least = usize::MAX;
    let mut start = number;
    let Some(members) = graph
        .group_of(number)
        .and_then(|group| graph.members.get(group))
    else {
        return Ok(start);
    };
    for member in members.list.iter().take(MOST_STARTS) {
        let most = least.saturating_sub(1);
        if let Some(length) = ring_length(alloc, graph, seen, *member, most)? {
            least = length;
            start = *member;
        }
    }
    Ok(start)
}

/// The place that a member of the group goes on at, if it had none. Returns whether it had none.
fn pick(picks: &mut [Option<usize>], caller: &Caller) -> bool {
    match picks.get_mut(caller.number) {
        Some(pick) => {
            if pick.is_some() {
                return false;
            }
            *pick = Some(caller.place);
            true
        }
        None => false,
    }
}

/// Picks the ways back to a group's first member.
fn pick_group(
    alloc: Global,
    graph: &Grouped,
    picks: &mut [Option<usize>],
    first: usize,
) -> Result<(), AllocError> {
    let group = graph.group_of(first);
    let mut queue = Vec::new(alloc);
    queue.push(first)?;
    for head in 0..picks.len() {
        if head >= queue.len() {
            break;
        }
        for caller in graph.callers(queue[head]) {
            let number = caller.number;
            if graph.group_of(number) == group && pick(picks, caller) && number != first {
                queue.push(number)?;
            }
        }
    }
    Ok(())
}

/// For each number the place of the one that a walk goes on to, among those that it asks for.
pub(crate) fn picks(alloc: Global, table: &[Asks]) -> Result<Vec<usize>, AllocError> {
    let callers = callers_of(alloc, table)?;
    let groups = groups(alloc, table, &callers)?;
    let members = members_of(alloc, &groups)?;
    let graph = Grouped {
        callers,
        groups,
        members,
    };
    let mut seen = vec![in alloc; None; table.len()]?;
    let mut picks = vec![in alloc; None; table.len()]?;
    for number in 0..table.len() {
        if picks[number].is_none() {
            let first = start_of(alloc, &graph, &mut seen, number)?;
            pick_group(alloc, &graph, &mut picks, first)?;
        }
    }
    picks.iter().map(|pick| pick.unwrap_or(0)).collect(alloc)
}
