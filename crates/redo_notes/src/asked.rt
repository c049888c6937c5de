//! Which paths a build has asked for.

ghost use Rattle.std.specs.Prelude.{◌≡◌, ◌||◌, List, ℕ, IfOk, OnOk, option_copied};
ghost use Rattle.redo_names.specs.Paths.{is_among};
ghost use Rattle.redo_record.specs.Entries.{change_of};
ghost use Rattle.redo_record.specs.Progress.{changes};
ghost use Rattle.redo_notes.specs.Notes.{asks_for, is_asked};
ghost use Rattle.redo_notes.specs.inside.Changes.{is_change_of};

use redo_names::PathSet;
use redo_path::Path;
use redo_record::{Dep, DepKind};
use redo_report::Row;
use std::alloc::{AllocError, Global};

/// Adds the path of an entry, if it is a change entry.
fn add_change(asked: &mut PathSet, dep: &Dep) -> Result<(), AllocError>
    ensures { OnOk result ((path : List ℕ) → is_among asked.new path ≡ (is_among asked.old path || is_change_of path dep.now)) }
{
    match dep.kind {
        DepKind::Change => {
            asked.insert(dep.path.clone()?)?;
            Ok(())
        }
        DepKind::Create | DepKind::Always => Ok(()),
    }
}

/// Adds the paths of the change entries among these.
fn add_changes(asked: &mut PathSet, deps: &[Dep]) -> Result<(), AllocError>
    ensures { OnOk result ((path : List ℕ) → is_among asked.new path ≡
        (is_among asked.old path || is_among (changes deps.now) path)) }
{
    for dep in deps {
        add_change(asked, dep)?;
    }
    Ok(())
}

/// Adds the path of a rule's .do file, which is that of a change entry.
fn add_do_file(asked: &mut PathSet, do_file: Option<&Path>) -> Result<(), AllocError>
    ensures { OnOk result ((path : List ℕ) → is_among asked.new path ≡
        (is_among asked.old path || is_among (changes (change_of (option_copied do_file.entry))) path)) }
{
    match do_file {
        Some(path) => {
            asked.insert(path.clone()?)?;
            Ok(())
        }
        None => Ok(()),
    }
}

/// Adds the paths that a row's record has in change entries.
fn add_row(asked: &mut PathSet, row: &Row) -> Result<(), AllocError>
    ensures { OnOk result ((path : List ℕ) → is_among asked.new path ≡ (is_among asked.old path || asks_for path row.now)) }
{
    let parts = row.deps.parts();
    add_do_file(asked, parts.do_file)?;
    add_changes(asked, parts.own)?;
    Ok(())
}

/// The paths that a build has asked for: those that were requested, and those that the rows' records have in change
/// entries.
pub(crate) fn asked_by(alloc: Global, request: &[Path], rows: &[Row]) -> Result<PathSet, AllocError>
    ensures { IfOk result (λ asked. (path : List ℕ) → is_among asked path ≡ is_asked request.now rows.now path) }
{
    let mut asked = PathSet::of_paths(alloc, request)?;
    for row in rows {
        add_row(&mut asked, row)?;
    }
    Ok(asked)
}
