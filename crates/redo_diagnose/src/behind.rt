//! How many targets wait behind one that failed.
//!
//! A target that failed with `depends` waits behind the first path in its record that failed: what its script asked for
//! before was there. Who waits behind a target that waits in turn is counted at the one that failed first.

use redo_names::PathMap;
use redo_path::Path;
use redo_record::{Dep, DepKind, Outcome, Why};
use redo_report::Row;
use std::alloc::{AllocError, Global};

/// A row may be so many steps behind the one that failed first, as a power of 2: no build needs more targets.
const DOUBLINGS: usize = 17;

/// The index of each row, by its path.
fn numbers_of(alloc: Global, rows: &[Row]) -> Result<PathMap<usize>, AllocError> {
    let mut numbers = PathMap::with_capacity(alloc, rows.len())?;
    for at in 0..rows.len() {
        numbers.insert(rows[at].path.clone()?, at)?;
    }
    Ok(numbers)
}

/// The row of an operand of redo-ifchange, if it failed.
fn failed_row(rows: &[Row], numbers: &PathMap<usize>, dep: &Dep) -> Option<usize> {
    if dep.kind != DepKind::Change {
        return None;
    }
    let at = *numbers.get(&dep.path)?;
    match rows.get(at) {
        Some(row) if row.outcome.has_failed() => Some(at),
        _ => None,
    }
}

/// The row behind which a row waits; itself, if it waits for none that failed.
fn before(rows: &[Row], numbers: &PathMap<usize>, at: usize, row: &Row) -> usize {
    if !matches!(row.outcome, Outcome::Failed(Why::Depends(_))) {
        return at;
    }
    for dep in row.deps.parts().own {
        if let Some(failed) = failed_row(rows, numbers, dep) {
            return failed;
        }
    }
    at
}

/// For each row twice as many steps as these.
fn doubled(alloc: Global, steps: &[usize]) -> Result<Vec<usize>, AllocError> {
    let mut far = Vec::with_capacity(alloc, steps.len())?;
    for to in steps {
        far.push(steps.get(*to).copied().unwrap_or(*to))?;
    }
    Ok(far)
}

/// Who waits behind each row.
#[derive(Drop)]
pub(crate) struct Behind {
    /// The index of each row, by its path.
    numbers: PathMap<usize>,
    waiting: Vec<usize>,
    askers: Vec<Option<usize>>,
}

impl Behind {
    /// How many others wait behind the row of a path, directly or through others.
    pub(crate) fn waiting(&self, path: &Path) -> usize {
        match self.numbers.get(path) {
            Some(number) => self.waiting.get(*number).copied().unwrap_or(0),
            None => 0,
        }
    }

    /// The index of the first row that waits for that of a path directly.
    pub(crate) fn asker(&self, path: &Path) -> Option<usize> {
        *self.askers.get(*self.numbers.get(path)?)?
    }
}

/// The first row that takes a step to each row.
fn askers(alloc: Global, steps: &[usize]) -> Result<Vec<Option<usize>>, AllocError> {
    let mut askers = Vec::with_capacity(alloc, steps.len())?;
    for _ in steps {
        askers.push(None)?;
    }
    for (at, to) in steps.iter().enumerate() {
        if let Some(asker) = askers.get_mut(*to) {
            if at != *to && asker.is_none() {
                *asker = Some(at);
            }
        }
    }
    Ok(askers)
}

/// How many rows lead to each other row.
fn counts(alloc: Global, steps: &[usize]) -> Result<Vec<usize>, AllocError> {
    let mut counts = Vec::with_capacity(alloc, steps.len())?;
    for _ in steps {
        counts.push(0)?;
    }
    for (at, to) in steps.iter().enumerate() {
        if let Some(count) = counts.get_mut(*to) {
            if at != *to {
                *count = usize::saturating_add(*count, 1);
            }
        }
    }
    Ok(counts)
}

/// Who waits behind each of these rows.
pub(crate) fn all_behind(alloc: Global, rows: &[Row]) -> Result<Behind, AllocError> {
    let numbers = numbers_of(alloc, rows)?;
    let mut steps = Vec::with_capacity(alloc, rows.len())?;
    for (at, row) in rows.iter().enumerate() {
        steps.push(before(rows, &numbers, at, row))?;
    }
    let askers = askers(alloc, &steps)?;
    for _ in 0..DOUBLINGS {
        steps = doubled(alloc, &steps)?;
    }
    let waiting = counts(alloc, &steps)?;
    Ok(Behind {
        numbers,
        waiting,
        askers,
    })
}
