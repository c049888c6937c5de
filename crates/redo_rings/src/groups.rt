//! Groups of numbers that lead to each other, by two searches in depth, each with a stack of its own.

use crate::graph::Asks;
use std::alloc::{AllocError, Global};

/// A number that asks for another, and the place of the other among those that it asks for.
#[derive(Clone, Copy)]
pub(crate) struct Caller {
    pub(crate) number: usize,
    pub(crate) place: usize,
}

/// Who asks for a number.
#[derive(Drop)]
pub(crate) struct Callers {
    pub(crate) list: Vec<Caller>,
}

/// Notes whom a number asks for.
fn add_callers(all: &mut [Callers], number: usize, asks: &Asks) -> Result<(), AllocError> {
    for place in 0..asks.numbers.len() {
        if let Some(callers) = all.get_mut(asks.numbers[place]) {
            callers.list.push(Caller { number, place })?;
        }
    }
    Ok(())
}

/// Who asks for each number.
pub(crate) fn callers_of(alloc: Global, table: &[Asks]) -> Result<Vec<Callers>, AllocError> {
    let mut all = Vec::with_capacity(alloc, table.len())?;
    for _number in 0..table.len() {
        let list = Vec::new(alloc);
        all.push(Callers { list })?;
    }
    for number in 0..table.len() {
        add_callers(&mut all, number, &table[number])?;
    }
    Ok(all)
}

/// Marks a number as seen; whether it wasn't.
fn see(seen: &mut [bool], number: usize) -> bool {
    match seen.get_mut(number) {
        Some(mark) => {
            let new = !*mark;
            *mark = true;
            new
        }
        None => false,
    }
}

/// The next number that one asks for and that wasn't seen, from a place on, with the place behind it. It is marked.
fn next_unseen(asks: &Asks, seen: &mut [bool], from: usize) -> Option<(usize, usize)> {
    for place in from..asks.numbers.len() {
        let number = asks.numbers[place];
        if see(seen, number) {
            return Some((place + 1, number));
        }
    }
    None
}

/// Adds the numbers that a root leads to, each behind those that it leads to and that weren't seen.
fn leave(
    alloc: Global,
    table: &[Asks],
    seen: &mut [bool],
    left: &mut Vec<usize>,
    root: usize,
) -> Result<(), AllocError> {
    let mut stack: Vec<(usize, usize)> = Vec::new(alloc);
    stack.push((root, 0))?;
    for _turn in 0..u64::MAX {
        let Some((number, from)) = stack.pop() else {
            break;
        };
        let Some(asks) = table.get(number) else {
            break;
        };
        match next_unseen(asks, seen, from) {
            Some((behind, child)) => {
                stack.push((number, behind))?;
                stack.push((child, 0))?;
            }
            None => left.push(number)?,
        }
    }
    Ok(())
}

/// Puts a number, and those without a group that lead to it, into a group.
fn gather(
    alloc: Global,
    callers: &[Callers],
    groups: &mut [Option<usize>],
    group: usize,
) -> Result<(), AllocError> {
    let mut stack = Vec::new(alloc);
    stack.push(group)?;
    for _turn in 0..u64::MAX {
        let Some(number) = stack.pop() else {
            break;
        };
        let Some(mark) = groups.get_mut(number) else {
            break;
        };
        if mark.is_some() {
            continue;
        }
        *mark = Some(group);
        if let Some(callers) = callers.get(number) {
            for caller in &callers.list {
                stack.push(caller.number)?;
            }
        }
    }
    Ok(())
}

/// The group of each number: two have the same if each leads to the other.
pub(crate) fn groups(
    alloc: Global,
    table: &[Asks],
    callers: &[Callers],
) -> Result<Vec<Option<usize>>, AllocError> {
    let mut seen = vec![in alloc; false; table.len()]?;
    let mut left = Vec::with_capacity(alloc, table.len())?;
    for root in 0..table.len() {
        if see(&mut seen, root) {
            leave(alloc, table, &mut seen, &mut left, root)?;
        }
    }
    let mut groups = vec![in alloc; None; table.len()]?;
    for number in left.iter().rev() {
        gather(alloc, callers, &mut groups, *number)?;
    }
    Ok(groups)
}
