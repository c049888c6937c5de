//! Which files are dead.

ghost use Rattle.std.specs.Prelude.{◌≡◌, [], List, ℕ, None, IfOk, false, filter_map, map};
ghost use Rattle.redo_names.specs.Paths.{is_among};
ghost use Rattle.redo_report.specs.Reports.{row_paths};
ghost use Rattle.redo_book.specs.Book.{record_of};
ghost use Rattle.redo_dead.specs.Dead.{dead_files};
ghost use Rattle.redo_dead.specs.inside.Files.{dead_file};

use redo_book::BookRecord;
use redo_clean::{CleanPlan, generated_at};
use redo_names::PathSet;
use redo_past::Past;
use redo_path::Path;
use redo_report::{Report, Row};
use redo_tree::{Content, Tree};
use std::alloc::{AllocError, Global};

/// The paths of rows.
fn paths_of(alloc: Global, rows: &[Row]) -> Result<PathSet, AllocError>
    ensures { IfOk result (λ paths. (p : List ℕ) → is_among paths p ≡ is_among (map (λ row. row.path) rows.now) p) }
{
    let mut paths = PathSet::with_capacity(alloc, rows.len())?;
    for row in rows {
        paths.insert(row.path.clone()?)?;
    }
    Ok(paths)
}

/// The file at a record's target, if it is generated and the target isn't one of these.
fn dead_at(
    told: &PathSet,
    tree: &Tree,
    made: &BookRecord,
) -> Result<Option<(Path, Content)>, AllocError>
    ensures { IfOk result (λ file. file ≡ dead_file (is_among told.now) tree.now (record_of made.now)) }
{
    if told.contains(&made.target) {
        return Ok(None);
    }
    generated_at(tree, made)
}

/// The generated files of a past whose paths are none of these, in path order.
fn untold(alloc: Global, told: &PathSet, past: &Past) -> Result<Vec<(Path, Content)>, AllocError>
    ensures { IfOk result (λ dead. dead.items ≡ filter_map (dead_file (is_among told.now) past.now.tree) past.now.book) }
{
    let mut dead = Vec::new(alloc);
    for made in past.book().records() {
        if let Some(file) = dead_at(told, past.tree(), made)? {
            dead.push(file)?;
        }
    }
    Ok(dead)
}

/// Plans a clean of the generated files that a build doesn't need, by its report. `past` is that of the tree that was
/// built. The plan removes nothing else: what a broken-off run has left stays, and so does the book, which has the
/// records of other files.
pub fn dead_plan(alloc: Global, past: &Past, report: &Report) -> Result<CleanPlan, AllocError>
    ensures generated { IfOk result (λ plan. plan.generated.items ≡ dead_files past.now report.now) }
    ensures changed { IfOk result (λ plan. plan.changed.items ≡ []) }
    ensures book { IfOk result (λ plan. plan.book ≡ false) }
    ensures left { IfOk result (λ plan. plan.left ≡ None) }
{
    let told = paths_of(alloc, &report.rows)?;
    let generated = untold(alloc, &told, past)?;
    Ok(CleanPlan {
        left: None,
        over: false,
        generated,
        changed: Vec::new(alloc),
        book: false,
    })
}
