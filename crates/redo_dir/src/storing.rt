//! Storing files in a directory, each of which appears whole or not at all.

ghost use Rattle.std.specs.Prelude.{◌≡◌, ◌++◌, ◌∷◌, [], ◌<◌, IfErr, IfOk, OnErr, OnOk, length, map, take};
ghost use Rattle.redo_dir.specs.Stored.{HasTexts, IsUnstored, put_in, puts_in, stored_count};
ghost use Rattle.redo_dir.specs.inside.Batches.{Advances, Blames, IsFront, MeansText, Stops, asked, asked_of};

use crate::StoreFault;
use crate::batches::{FILES_OF_A_BATCH, front_of, threads_for};
use crate::drafts::{Draft, name_each, write_by};
use crate::unwritten::Unwritten;
use crate::work_dir::WorkDir;
use redo_path::Path;
use redo_tree::{Content, Tree};
use std::alloc::Global;
use std::thread::Threads;

/// The threads that write files.
#[derive(Drop)]
pub struct Writers<'a, T> {
    pub rt: &'a T,
    /// How many write at most. The caller's is one of them; zero counts as one.
    pub most: usize,
}

/// The draft of one file.
fn draft_of<F: Drop>(tree: &Tree, path: &Path, content: &Content) -> Result<Draft<F>, Unwritten>
    ensures text { MeansText result path.now }
    ensures plain { IfErr result (Blames (λ path kind. ⊥) path.now) }
    ensures draft { IfOk result (λ draft. asked_of draft ≡ put_in tree.now (path.now, content.now)) }
{
    if str::from_utf8(path.text()).is_err() {
        return Err(Unwritten::Name);
    }
    let over = tree.content(path).is_some();
    Ok(Draft::new(path.clone()?, content.clone()?, over))
}

/// Notes the draft of one file more.
fn add_draft<F: Drop>(
    drafts: &mut Vec<Draft<F>>,
    tree: &Tree,
    path: &Path,
    content: &Content,
) -> Result<(), Unwritten>
    ensures text { MeansText result path.now }
    ensures plain { IfErr result (Blames (λ path kind. ⊥) path.now) }
    ensures draft { OnOk result (asked drafts.new.items ≡
        asked drafts.old.items ++ put_in tree.now (path.now, content.now) ∷ []) }
    ensures kept { OnErr result (drafts.new.items ≡ drafts.old.items) }
{
    let draft = draft_of(tree, path, content)?;
    drafts.push(draft)?;
    Ok(())
}

/// Drafts of the first of some files, of as many as can be made; or why none of the very first can.
fn drafts_of<F: Drop>(
    alloc: Global,
    tree: &Tree,
    files: &[(Path, Content)],
) -> Result<Vec<Draft<F>>, Unwritten>
    requires { 0 < length files.now }
    ensures some { IfOk result (λ drafts. 0 < length drafts.items) }
    ensures front { IfOk result (λ drafts. IsFront tree.now files.now (asked drafts.items)) }
    ensures fault { IfErr result (Stops (λ path kind. ⊥) files.now 0) }
{
    let mut drafts = Vec::new(alloc);
    for (path, content) in files {
        if let Err(fault) = add_draft(&mut drafts, tree, path, content) {
            if drafts.is_empty() {
                return Err(fault);
            }
            // It comes first once those before it are stored.
            return Ok(drafts);
        }
    }
    Ok(drafts)
}

/// Stores files together: writes all of them, and then gives them their names. Those before one of which no draft can
/// be made are stored alone.
fn store_front<T: Threads + Sync, D: WorkDir + Sync>(
    writers: &Writers<'_, T>,
    dir: &mut D,
    alloc: Global,
    tree: &Tree,
    files: &[(Path, Content)],
) -> Result<(), Unwritten>
where
    D::Draft: Send,
    requires files { 0 < length files.now }
    ensures { Advances (λ path kind. (d : D) × D.refuses d path kind)
        tree.now files.now (D.done dir.old) (D.done dir.new) result }
{
    let mut drafts = drafts_of(alloc, tree, files)?;
    let threads = threads_for(writers.most, files);
    write_by(writers.rt, dir, alloc, threads, &mut drafts);
    name_each(dir, drafts)
}

/// Stores files in a directory that was read as a tree, in the order of the list, and stops at the first that can't be
/// stored. Those before it were; of it and of those behind it nothing is to be seen. The directories that the paths lie in
/// have to be there.
///
/// A file is written beside its place, under a temporary name, and then takes its place. So nobody reads half of it, a
/// link that stood there is replaced and not written through, and a hard link of the old file keeps the old bytes.
///
/// Where there is enough to do for several threads, a batch of files is written before the first of them takes its
/// place, so a run that is killed may leave a batch of temporary files. No path is to lie below another of the list:
/// there a fault may be of another kind, and a temporary file may stay behind a link that stood in the place of the
/// upper one.
pub fn store_files<T: Threads + Sync, D: WorkDir + Sync>(
    writers: &Writers<'_, T>,
    dir: &mut D,
    alloc: Global,
    tree: &Tree,
    files: &[(Path, Content)],
) -> Result<(), StoreFault>
where
    D::Draft: Send,
    ensures text { HasTexts result (map (λ file. file.0) files.now) }
    ensures stored { D.done dir.new ≡
        D.done dir.old ++ puts_in tree.now (take (stored_count result files.now) files.now) }
    ensures refused { IfErr result
        (IsUnstored (λ path kind. (d : D) × D.refuses d path kind) (map (λ file. file.0) files.now)) }
{
    let most = match threads_for(writers.most, files) {
        1 => 1,
        _ => FILES_OF_A_BATCH,
    };
    let before = dir.count();
    let mut stored = 0;
    while stored < files.len() {
        let front = front_of(&files[stored..], most);
        let outcome = store_front(writers, dir, alloc, tree, front);
        stored = dir.count() - before;
        if let Err(fault) = outcome {
            return Err(fault.at(stored));
        }
    }
    Ok(())
}
