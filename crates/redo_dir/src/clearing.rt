//! What a run has left that was broken off, cleared away.

ghost use Rattle.std.specs.Prelude.{◌≡◌, ◌≤◌, ◌++◌, ◌∷◌, [], IfErr, IfSome, List, OnErr, OnOk, length, map, take, ℕ};
ghost use Rattle.redo_dir.specs.Stored.{Removes, put_of};
ghost use Rattle.redo_dir.specs.Storing.{IsSettled, IsUncleared, cleared_count, paths_to_clear, steps_to_clear};
ghost use Rattle.redo_dir.specs.inside.Batches.{BlamesCall};
ghost use Rattle.redo_dir.specs.inside.Clearing.{Leaves};
ghost use Rattle.redo_which.specs.Candidates.{book_path, journal_path};

use crate::StoreFault;
use crate::drafts::write_new;
use crate::unwritten::Unwritten;
use crate::work_dir::WorkDir;
use redo_path::Path;
use redo_tree::Content;
use redo_which::{BOOK, JOURNAL};
use std::alloc::Global;

/// What a run has left that was broken off. It is to be cleared away before anything is stored: first the book is put in
/// its place, then the own files are removed, in their order.
#[derive(Drop)]
pub struct Left {
    /// The journal's text, of which the names of temporary files have digits.
    pub journal: Content,
    /// The text of the book to put in the book's place, if another one or none stands there.
    pub book: Option<Content>,
    /// The program's own files: the temporary files in path order, then the journal.
    pub own: Vec<Path>,
    /// The journal and the files that stand as it tells. They are to be on the disk before the recovered book tells of
    /// them, too, and before the journal goes.
    pub to_settle: Vec<Path>,
}

/// Puts the recovered book in its place, once the files that it tells of are on the disk.
fn put_book<D: WorkDir>(
    dir: &mut D,
    alloc: Global,
    left: &Left,
    text: &Content,
    over: bool,
) -> Result<(), Unwritten>
    ensures put { OnOk result (D.done dir.new ≡ D.done dir.old ++ put_of (book_path, text.now) over ∷ []) }
    ensures settled { OnOk result (IsSettled D.done D.settled left.now.to_settle.items
        (D.done dir.old ++ put_of (book_path, text.now) over ∷ [])) }
    ensures kept { OnErr result (D.done dir.new ≡ D.done dir.old) }
    ensures refused { IfErr result (BlamesCall (λ path kind. (d : D) × D.refuses d path kind) book_path) }
{
    let path = Path::of_text(alloc, BOOK)?;
    dir.settle(alloc, &left.to_settle)?;
    dir.resume(alloc, &left.journal)?;
    let draft = write_new(dir, alloc, &path, text, 0)?;
    dir.put(draft, over)?;
    Ok(())
}

/// Removes one file; the journal once the files that it tells of are on the disk.
fn remove<D: WorkDir>(
    dir: &mut D,
    alloc: Global,
    path: &Path,
    to_settle: &[Path],
) -> Result<(), Unwritten>
    ensures removed { OnOk result (D.done dir.new ≡ D.done dir.old ++ Removes path.now ∷ []) }
    ensures kept { OnErr result (D.done dir.new ≡ D.done dir.old) }
    ensures settled { OnOk result (path.now ≡ journal_path → IsSettled D.done D.settled to_settle.now (D.done dir.new)) }
    ensures refused { IfErr result (BlamesCall (λ path kind. (d : D) × D.refuses d path kind) path.now) }
{
    if path.text() == JOURNAL {
        dir.settle(alloc, to_settle)?;
    }
    dir.remove(alloc, path)?;
    Ok(())
}

/// Removes the own files, and stops at the first that can't be removed. The fault tells how many steps were done since
/// the directory had so many.
fn remove_each<D: WorkDir>(
    dir: &mut D,
    alloc: Global,
    left: &Left,
    first: usize,
) -> Result<(), StoreFault>
    requires { first ≤ length (D.done dir.old) }
    ensures all { OnOk result (D.done dir.new ≡ D.done dir.old ++ map Removes left.now.own.items) }
    ensures settled { OnOk result ((others : List (List ℕ)) → left.now.own.items ≡ others ++ journal_path ∷ [] →
        IsSettled D.done D.settled left.now.to_settle.items (D.done dir.new)) }
    ensures part { IfErr result (Leaves (λ path kind. (d : D) × D.refuses d path kind)
        left.now.own.items first (D.done dir.old) (D.done dir.new)) }
{
    for path in &left.own {
        if let Err(why) = remove(dir, alloc, path, &left.to_settle) {
            return Err(why.at(dir.count() - first));
        }
    }
    Ok(())
}

/// Clears away what a run has left that was broken off, and stops at the first step that can't be done. `over` says
/// whether a file was listed in the book's place.
///
/// The journal goes last: until then the next run comes to the same book again, and knows the temporary files. In a
/// directory that waits for its files, those that the journal tells of are on the disk before it goes; and before the
/// recovered book is put, as neither that nor the journal tells of what stood there before them.
pub fn clear<D: WorkDir>(
    dir: &mut D,
    alloc: Global,
    left: &Left,
    over: bool,
) -> Result<(), StoreFault>
    ensures done { D.done dir.new ≡ D.done dir.old ++
        take (cleared_count result (paths_to_clear left.now.book left.now.own.items)) (steps_to_clear over left.now.book left.now.own.items) }
    ensures told { IfSome left.now.book (λ text. OnOk result (IsSettled D.done D.settled left.now.to_settle.items
        (D.done dir.old ++ put_of (book_path, text) over ∷ []))) }
    ensures settled { OnOk result ((others : List (List ℕ)) → left.now.own.items ≡ others ++ journal_path ∷ [] →
        IsSettled D.done D.settled left.now.to_settle.items (D.done dir.new)) }
    ensures refused { IfErr result (IsUncleared (λ path kind. (d : D) × D.refuses d path kind)
        (paths_to_clear left.now.book left.now.own.items)) }
{
    let first = dir.count();
    if let Some(text) = &left.book {
        if let Err(why) = put_book(dir, alloc, left, text, over) {
            return Err(why.at(0));
        }
    }
    remove_each(dir, alloc, left, first)
}
