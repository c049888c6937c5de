//! Files that are stored by a journal: a run that is broken off leaves nothing that the next one takes for another's.

ghost use Rattle.std.specs.Prelude.{◌≡◌, ◌++◌, IfErr, map, take};
ghost use Rattle.redo_dir.specs.Storing.{HasTextsByJournal, IsUnstoredByJournal, paths_to_store, steps_done, steps_to_store};

use crate::faults::JournalFault;
use crate::storing::{Writers, store_files};
use crate::unwritten::Unwritten;
use crate::work_dir::WorkDir;
use redo_path::Path;
use redo_tree::{Content, Tree};
use std::alloc::Global;
use std::thread::Threads;

/// What a run stores.
#[derive(Drop)]
pub struct ToStore {
    /// The text of the new book, which is that of the journal.
    pub book: Content,
    /// The other files, in path order.
    pub files: Vec<(Path, Content)>,
}

/// Stores files and the new book in a directory that was read as a tree, as [`store_files`] does. The new book is written
/// first, as the journal; once the files are stored, the journal becomes the book. Until then the old book stands, and
/// the journal tells of the files that were stored already. After a fault it stays there, for the next run.
pub fn store_by_journal<T: Threads + Sync, D: WorkDir + Sync>(
    writers: &Writers<'_, T>,
    dir: &mut D,
    alloc: Global,
    tree: &Tree,
    new: &ToStore,
) -> Result<(), JournalFault>
where
    D::Draft: Send,
    ensures text { HasTextsByJournal result (paths_to_store new.now.files.items) }
    ensures done { D.done dir.new ≡ D.done dir.old ++
        take (steps_done result new.now.files.items) (steps_to_store tree.now new.now.book new.now.files.items) }
    ensures refused { IfErr result (IsUnstoredByJournal (λ path kind. (d : D) × D.refuses d path kind)
        (paths_to_store new.now.files.items)) }
{
    if let Err(error) = dir.journal(alloc, &new.book) {
        return Err(JournalFault::Journal(error.kind()));
    }
    store_files(writers, dir, alloc, tree, &new.files)?;
    if let Err(error) = dir.finish(alloc) {
        let fault = Unwritten::of(error.kind()).at(new.files.len());
        return Err(JournalFault::File(fault));
    }
    Ok(())
}
