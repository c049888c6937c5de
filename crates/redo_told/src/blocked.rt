//! What blocks a target: paths that it needs and that failed.

ghost use Rattle.std.specs.Prelude.{◌≡◌, ◌++◌, ◌||◌, List, ℕ, IfOk, OnOk, filter, flat_map};
ghost use Rattle.redo_names.specs.Paths.{is_among};
ghost use Rattle.redo_record.specs.Progress.{changes};
ghost use Rattle.redo_told.specs.Blocked.{blockers as blocking, failed_paths as paths_of_failed, is_blocked as is_behind};
ghost use Rattle.redo_told.specs.inside.Steps.{blocker, is_failed_at};

use redo_names::PathSet;
use redo_path::Path;
use redo_record::{Dep, DepKind, Outcome, Record, Why};
use redo_report::Row;
use std::alloc::{AllocError, Global};

/// Whether a target failed because something that it needs did.
pub fn is_blocked(outcome: &Outcome) -> bool
    ensures { result ≡ is_behind outcome.now }
{
    matches!(outcome, Outcome::Failed(Why::Depends(_)))
}

/// Adds the path of a row, if its target failed or is cyclic.
fn add_row(failed: &mut PathSet, row: &Row) -> Result<(), AllocError>
    ensures { OnOk result ((p : List ℕ) → is_among failed.new p ≡ (is_among failed.old p || is_failed_at p row.now)) }
{
    if row.outcome.has_failed() {
        failed.insert(row.path.clone()?)?;
    }
    Ok(())
}

/// The paths of the rows whose targets failed or are cyclic. It is made once for a report.
pub fn failed_paths(alloc: Global, rows: &[Row]) -> Result<PathSet, AllocError>
    ensures { IfOk result (λ failed. (p : List ℕ) → is_among failed p ≡ is_among (paths_of_failed rows.now) p) }
{
    let mut failed = PathSet::new(alloc);
    for row in rows {
        add_row(&mut failed, row)?;
    }
    Ok(failed)
}

/// Adds the path of an entry, if it is a change entry and the path is among these.
fn add_failed(paths: &mut Vec<Path>, failed: &PathSet, entry: &Dep) -> Result<(), AllocError>
    ensures { OnOk result (paths.new.items ≡ paths.old.items ++ blocker (is_among failed.now) entry.now) }
{
    if entry.kind == DepKind::Change && failed.contains(&entry.path) {
        paths.push(entry.path.clone()?)?;
    }
    Ok(())
}

/// The paths of the change entries among these that failed.
fn failed_of(alloc: Global, failed: &PathSet, entries: &[Dep]) -> Result<Vec<Path>, AllocError>
    ensures { IfOk result (λ paths. paths.items ≡ flat_map (blocker (is_among failed.now)) entries.now) }
{
    let mut paths = Vec::new(alloc);
    for entry in entries {
        add_failed(&mut paths, failed, entry)?;
    }
    Ok(paths)
}

/// The paths of a record's change entries that failed.
fn failed_in(alloc: Global, failed: &PathSet, deps: &Record) -> Result<Vec<Path>, AllocError>
    ensures { IfOk result (λ paths. paths.items ≡ filter (is_among failed.now) (changes deps.now)) }
{
    let entries = deps.entries(alloc)?;
    let paths = failed_of(alloc, failed, &entries)?;
    Ok(paths)
}

/// What a target needs and blocks it, in the order of its record: of one that failed because something that it needs
/// did, what failed or is cyclic; of any other target, nothing. `failed` are the report's failed paths.
pub fn blockers(alloc: Global, failed: &PathSet, row: &Row) -> Result<Vec<Path>, AllocError>
    ensures { IfOk result (λ paths. paths.items ≡ blocking (is_among failed.now) row.now) }
{
    if is_blocked(&row.outcome) {
        failed_in(alloc, failed, &row.deps)
    } else {
        Ok(Vec::new(alloc))
    }
}
