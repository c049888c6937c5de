//! The clean of a directory.

ghost use Rattle.std.specs.Prelude.{◌≡◌, ◌++◌, ◌∷◌, [], IfErr, IfOk, OnErr, OnOk, length, map};
ghost use Rattle.redo_dir.specs.Loaded.{Leads};
ghost use Rattle.redo_which.specs.Candidates.{book_path};
ghost use Rattle.redo_dir.specs.declared.work_dir.Seen.TheVariants as seen;
ghost use Rattle.redo_clean.specs.Cleaned.{AnsweredWhile, MeetFates, HasFate, IsBrokenOff, IsCleaned, IsUnclean};
ghost use Rattle.redo_clean.specs.Cleaned.{book_removal, clearing, removal, removals};
ghost use Rattle.redo_clean.specs.declared.fate.Fate.TheVariants.{Gone};
ghost use Rattle.redo_clean.specs.inside.Files.{IsFault, IsFaultAt, IsLeftFault};
ghost use Rattle.std.specs.declared.io.ErrorKind.TheVariants.{NotFound};

use crate::fate::Fate;
use crate::faults::CleanFault;
use crate::planning::CleanPlan;
use redo_dir::{DirView, Seen, WorkDir, clear};
use redo_path::Path;
use redo_tree::Content;
use redo_which::BOOK;
use std::alloc::Global;
use std::io::ErrorKind;

/// What is to become of a file at whose path a call was refused: one that isn't found is gone.
fn fate_unseen(kind: ErrorKind) -> Result<Fate, ErrorKind>
    ensures gone { IfOk result (λ fate. (fate ≡ Gone) × (kind ≡ NotFound)) }
    ensures refused { IfErr result (λ other. other ≡ kind) }
{
    match kind {
        ErrorKind::NotFound => Ok(Fate::Gone),
        kind => Err(kind),
    }
}

/// What is to become of a file that had this content and that was seen with this size.
fn fate_of_seen<D: DirView>(
    alloc: Global,
    dir: &D,
    path: &Path,
    content: &Content,
    size: u64,
) -> Result<Fate, ErrorKind>
    requires seen { D.looks dir.now path.now (seen.File size) }
    ensures fate { IfOk result (HasFate (Leads (D.looks dir.now) (D.reads dir.now)) (D.refuses dir.now) (path.now, content.now)) }
    ensures refused { IfErr result (D.refuses dir.now path.now) }
{
    match dir.read(alloc, path, size) {
        Ok(bytes) => {
            if bytes.as_slice() == content.bytes() {
                Ok(Fate::Removed)
            } else {
                Ok(Fate::Changed)
            }
        }
        Err(error) => fate_unseen(error.kind()),
    }
}

/// What is to become of a file that had this content, as it stands now.
fn fate_of<D: DirView>(
    alloc: Global,
    dir: &D,
    path: &Path,
    content: &Content,
) -> Result<Fate, ErrorKind>
    ensures fate { IfOk result (HasFate (Leads (D.looks dir.now) (D.reads dir.now)) (D.refuses dir.now) (path.now, content.now)) }
    ensures refused { IfErr result (D.refuses dir.now path.now) }
{
    match dir.look(alloc, path) {
        Ok(Seen::File(size)) => fate_of_seen(alloc, dir, path, content, size),
        Ok(Seen::Directory | Seen::Other) => Ok(Fate::NoFile),
        Err(error) => fate_unseen(error.kind()),
    }
}

/// Removes a file that had this content, if it still has it.
fn clean_file<D: WorkDir>(
    alloc: Global,
    dir: &mut D,
    path: &Path,
    content: &Content,
) -> Result<Fate, ErrorKind>
    ensures fate { IfOk result (HasFate (Leads (D.looks dir.old) (D.reads dir.old)) (D.refuses dir.old) (path.now, content.now)) }
    ensures removed { IfOk result (λ fate. D.done dir.new ≡ D.done dir.old ++ removal (path.now, content.now) fate) }
    ensures kept { OnErr result (D.done dir.new ≡ D.done dir.old) }
    ensures refused { IfErr result (D.refuses dir.old path.now) }
{
    let fate = match fate_of(alloc, dir, path, content) {
        Ok(fate) => fate,
        Err(kind) => return Err(kind),
    };
    if fate == Fate::Removed {
        if let Err(error) = dir.remove(alloc, path) {
            return Err(error.kind());
        }
    }
    Ok(fate)
}

/// The fault of a clean that a call at a path was refused to.
fn fault_at(path: &Path, kind: ErrorKind) -> CleanFault
    ensures { IsFault result path.now kind }
{
    match kind {
        ErrorKind::OutOfMemory => CleanFault::Memory,
        kind => match path.clone() {
            Ok(path) => CleanFault::Device(path, kind),
            Err(_) => CleanFault::Memory,
        },
    }
}

/// Removes each of these files that still has its bytes, and notes what became of them. It stops at the first at which a
/// call is refused.
fn clean_files<D: WorkDir>(
    alloc: Global,
    dir: &mut D,
    files: &[(Path, Content)],
    fates: &mut Vec<Fate>,
) -> Result<(), CleanFault>
    requires none { fates.old.items ≡ [] }
    ensures met { MeetFates (AnsweredWhile D.done (λ d. Leads (D.looks d) (D.reads d))) (AnsweredWhile D.done D.refuses)
        (D.done dir.old) files.now fates.new.items }
    ensures all { OnOk result (length fates.new.items ≡ length files.now) }
    ensures removed { D.done dir.new ≡ D.done dir.old ++ removals files.now fates.new.items }
    ensures fault { IfErr result (IsFaultAt (AnsweredWhile D.done D.refuses (D.done dir.new))
        (map (λ f. f.0) files.now) (length fates.new.items)) }
{
    for (path, content) in files {
        fates.reserve(1)?;
        match clean_file(alloc, dir, path, content) {
            Ok(fate) => fates.push_reserved(fate),
            Err(kind) => return Err(fault_at(path, kind)),
        }
    }
    Ok(())
}

/// Clears away what a run has left that was broken off.
fn clear_left<D: WorkDir>(alloc: Global, dir: &mut D, plan: &CleanPlan) -> Result<(), CleanFault>
    ensures cleared { OnOk result (D.done dir.new ≡ D.done dir.old ++ clearing plan.now) }
    ensures fault { IfErr result (IsLeftFault (λ fault. IsUnclean (λ path kind. (d : D) × D.refuses d path kind)
        plan.now (D.done dir.old) (D.done dir.new) fault)) }
{
    let Some(left) = &plan.left else {
        return Ok(());
    };
    match clear(dir, alloc, left, plan.over) {
        Ok(()) => Ok(()),
        Err(fault) => Err(CleanFault::Left(fault)),
    }
}

/// Removes the book, if there is one.
fn remove_book<D: WorkDir>(alloc: Global, dir: &mut D, has_book: bool) -> Result<(), CleanFault>
    ensures removed { OnOk result (D.done dir.new ≡ D.done dir.old ++ book_removal has_book) }
    ensures kept { OnErr result (D.done dir.new ≡ D.done dir.old) }
    ensures fault { IfErr result (IsFaultAt (D.refuses dir.old) (book_path ∷ []) 0) }
{
    if !has_book {
        return Ok(());
    }
    let path = Path::of_text(alloc, BOOK)?;
    match dir.remove(alloc, &path) {
        Ok(()) => Ok(()),
        Err(error) => Err(fault_at(&path, error.kind())),
    }
}

/// Cleans a directory as it is planned. First what a broken-off run has left is cleared away. Then each generated file
/// is looked at and read once more, and removed if it still has its bytes, and then the book is removed. Nothing else
/// is. `fates` is set to what became of the files, in the plan's order, and tells at a fault how far the clean has come.
///
/// The book goes last: a clean that is broken off leaves records of files that are gone, which the next clean or run takes
/// as they are.
pub fn clean<D: WorkDir>(
    alloc: Global,
    dir: &mut D,
    plan: &CleanPlan,
    fates: &mut Vec<Fate>,
) -> Result<(), CleanFault>
    ensures cleaned { OnOk result (IsCleaned (AnsweredWhile D.done (λ d. Leads (D.looks d) (D.reads d)))
        (AnsweredWhile D.done D.refuses) plan.now (D.done dir.old) (D.done dir.new) fates.new.items) }
    ensures fault { IfErr result (IsBrokenOff (AnsweredWhile D.done (λ d. Leads (D.looks d) (D.reads d)))
        (AnsweredWhile D.done D.refuses) plan.now (D.done dir.old) (D.done dir.new) fates.new.items) }
{
    fates.clear();
    clear_left(alloc, dir, plan)?;
    clean_files(alloc, dir, &plan.generated, fates)?;
    remove_book(alloc, dir, plan.book)?;
    Ok(())
}
