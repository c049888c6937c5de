//! What a clean would remove and keep.

ghost use Rattle.std.specs.Prelude.{◌≡◌, ◌↔◌, IfOk, IsTrue, None, false, is_some};
ghost use Rattle.redo_tree.specs.Tree.{file_at};
ghost use Rattle.redo_which.specs.Candidates.{book_path};
ghost use Rattle.redo_book.specs.Book.{record_of};
ghost use Rattle.redo_clean.specs.Planned.{changed_targets, generated_file, generated_files, is_changed as was_changed};

use redo_book::BookRecord;
use redo_dir::Left;
use redo_past::{Past, has_book, is_generated};
use redo_path::Path;
use redo_tree::{Content, Tree};
use std::alloc::{AllocError, Global};

/// What a clean would do to a directory.
#[derive(Drop)]
pub struct CleanPlan {
    /// What a run has left that was broken off, to be cleared away first.
    pub left: Option<Left>,
    /// Whether a file was listed in the book's place, before the tree was mended.
    pub over: bool,
    /// The generated files, in path order, with the bytes that each has to have to be removed.
    pub generated: Vec<(Path, Content)>,
    /// The targets whose files aren't as the last run left them, in path order. They stay.
    pub changed: Vec<Path>,
    /// Whether there is a book, which goes last.
    pub book: bool,
}

impl CleanPlan {
    /// Whether there is nothing to clean: no run has left a book or anything else.
    pub fn is_empty(&self) -> bool
        ensures { IsTrue result ↔ ((self.now.left ≡ None) × (self.now.book ≡ false)) }
    {
        self.left.is_none() && !self.book
    }
}

/// Whether a file stands at a record's target that isn't generated.
fn is_changed(tree: &Tree, made: &BookRecord) -> bool
    ensures { result ≡ was_changed tree.now (record_of made.now) }
{
    tree.content(&made.target).is_some() && !is_generated(tree, made)
}

/// The file at a record's target, if it is generated.
pub fn generated_at(tree: &Tree, made: &BookRecord) -> Result<Option<(Path, Content)>, AllocError>
    ensures { IfOk result (λ file. file ≡ generated_file tree.now (record_of made.now)) }
{
    if !is_generated(tree, made) {
        return Ok(None);
    }
    match tree.content(&made.target) {
        Some(content) => Ok(Some((made.target.clone()?, content.clone()?))),
        None => Ok(None),
    }
}

/// The generated files of a past, in path order.
fn files_of(alloc: Global, past: &Past) -> Result<Vec<(Path, Content)>, AllocError>
    ensures { IfOk result (λ files. files.items ≡ generated_files past.now) }
{
    let mut files = Vec::new(alloc);
    for made in past.book().records() {
        if let Some(file) = generated_at(past.tree(), made)? {
            files.push(file)?;
        }
    }
    Ok(files)
}

/// The targets of a past whose files were changed, in path order.
fn changed_of(alloc: Global, past: &Past) -> Result<Vec<Path>, AllocError>
    ensures { IfOk result (λ paths. paths.items ≡ changed_targets past.now) }
{
    let mut paths = Vec::new(alloc);
    for made in past.book().records() {
        if is_changed(past.tree(), made) {
            paths.push(made.target.clone()?)?;
        }
    }
    Ok(paths)
}

/// Plans the clean of a directory with this past. `left` is what mending its tree has found, and `over` says whether the
/// tree had a book before.
pub fn plan(
    alloc: Global,
    past: &Past,
    left: Option<Left>,
    over: bool,
) -> Result<CleanPlan, AllocError>
    ensures generated { IfOk result (λ plan. plan.generated.items ≡ generated_files past.now) }
    ensures changed { IfOk result (λ plan. plan.changed.items ≡ changed_targets past.now) }
    ensures book { IfOk result (λ plan. plan.book ≡ is_some (file_at past.now.tree book_path)) }
    ensures left { IfOk result (λ plan. plan.left ≡ left) }
    ensures over { IfOk result (λ plan. plan.over ≡ over) }
{
    let generated = files_of(alloc, past)?;
    let changed = changed_of(alloc, past)?;
    Ok(CleanPlan {
        left,
        over,
        generated,
        changed,
        book: has_book(past.tree()),
    })
}
