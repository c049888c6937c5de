//! A directory as a tree: what was found there, with the contents of the files that are wanted.

ghost use Rattle.std.specs.List.{AllByRecursion};
ghost use Rattle.std.specs.Prelude.{◌≡◌, [], IfErr, IfOk, OnOk, Ok, map, ℕ};
ghost use Rattle.redo_tree.specs.Tree.{added, grown, top};
ghost use Rattle.redo_dir.specs.Loaded.{AreNamesIn, HasNames, HasTextPaths, IsListed, IsLoaded, IsUnloaded, Leads};
ghost use Rattle.redo_dir.specs.Loaded.{ReadIf, Unread, found_in, wants};
ghost use Rattle.redo_dir.specs.inside.Contents.{MakesNoTree, Refuses, WasAnswered, WasRefusedIn, bytes_read, clash_of};
ghost use Rattle.redo_dir.specs.inside.Contents.{entry_of};

use crate::LoadFault;
use crate::contents::{Place, Reading, Wanted, fill_by};
use crate::listing::{Names, list_names, refused};
use crate::work_dir::DirView;
use redo_names::PathSet;
use redo_path::Path;
use redo_tree::{Content, Tree, TreeFault};
use std::alloc::{AllocError, Global};
use std::io::ErrorKind;
use std::thread::Threads;

/// The fault of a path that the tree refused. Only a directory that changes meanwhile comes to one, as where a name is
/// listed twice.
fn clash(path: Path, fault: TreeFault) -> LoadFault
    ensures { result ≡ clash_of path fault }
{
    match fault {
        TreeFault::Memory => LoadFault::Memory,
        _ => LoadFault::Device(path, ErrorKind::InvalidData),
    }
}

/// The content that a tree is to have at a place: what was read there, or this one of no bytes.
fn content_in(place: &Place, empty: &Content) -> Result<Content, AllocError>
    requires empty { empty.now ≡ [] }
    ensures { IfOk result (λ content. content ≡ bytes_read place.now.content) }
{
    match &place.content {
        Ok(Some(content)) => content.clone(),
        _ => empty.clone(),
    }
}

/// Adds what was found at a place.
fn add_place(tree: &mut Tree, place: &Place, empty: &Content) -> Result<(), LoadFault>
    requires empty { empty.now ≡ [] }
    ensures added { OnOk result
        (added tree.old (entry_of place.now).0 (entry_of place.now).1 ≡ Ok tree.new) }
    ensures refused { IfErr result (Refuses tree.old (entry_of place.now)) }
{
    let outcome = match place.size {
        None => tree.add_dir(&place.path),
        Some(_) => tree.add_content(&place.path, content_in(place, empty)?),
    };
    match outcome {
        Ok(()) => Ok(()),
        Err(fault) => Err(clash(place.path.clone()?, fault)),
    }
}

/// The tree of what was found.
fn tree_of(alloc: Global, places: &[Place]) -> Result<Tree, LoadFault>
    ensures made { IfOk result (λ tree. grown top (map entry_of places.now) ≡ Ok tree) }
    ensures none { IfErr result (MakesNoTree (map entry_of places.now)) }
{
    let empty = Content::new(Vec::new(alloc))?;
    let mut tree = Tree::new(alloc)?;
    for place in places {
        add_place(&mut tree, place, &empty)?;
    }
    Ok(tree)
}

/// Refuses what was found where a file couldn't be read. The first such place is told.
fn check_read(places: &[Place]) -> Result<(), LoadFault>
    ensures all { OnOk result (AllByRecursion WasAnswered places.now) }
    ensures refused { IfErr result (WasRefusedIn places.now) }
{
    for place in places {
        if let Err(kind) = &place.content {
            return Err(refused(place.path.clone()?, *kind));
        }
    }
    Ok(())
}

/// Reads the files that are wanted, and makes a tree of all that was found.
fn tree_with<T: Threads + Sync, D: DirView + Sync>(
    rt: &T,
    dir: &D,
    alloc: Global,
    reading: Reading<'_>,
    places: &mut [Place],
) -> Result<Tree, LoadFault>
    ensures found { found_in places.new ≡ found_in places.old }
    ensures loaded { (passed : ℕ) → IsListed (D.lists dir.now) (D.looks dir.now) (found_in places.old) passed →
        IfOk result (λ tree. IsLoaded (D.lists dir.now)
        (Leads (D.looks dir.now) (ReadIf (wants reading.entry.wanted.now) (D.reads dir.now))) tree passed) }
    ensures text { HasTextPaths (found_in places.old) → IfOk result HasTextPaths }
    ensures fault { (passed : ℕ) → IsListed (D.lists dir.now) (D.looks dir.now) (found_in places.old) passed →
        IfErr result (IsUnloaded (D.lists dir.now)
        (Leads (D.looks dir.now) (ReadIf (wants reading.entry.wanted.now) (D.reads dir.now))) (D.refuses dir.now)) }
{
    fill_by(rt, dir, alloc, reading, places);
    check_read(places)?;
    tree_of(alloc, places)
}

impl Names {
    /// Reads the files that are wanted anew, by no more threads than have enough to do, and makes a tree of all that was
    /// found. Each other file is empty in it. Where several files can't be read, the one that was listed first is told.
    ///
    /// A file of any length is read, and its bytes are not copied.
    pub fn load<T: Threads + Sync, D: DirView + Sync>(
        &mut self,
        rt: &T,
        dir: &D,
        alloc: Global,
        reading: Reading<'_>,
    ) -> Result<Tree, LoadFault>
        requires names { AreNamesIn (D.lists dir.now) (D.looks dir.now) self.old }
        ensures names { AreNamesIn (D.lists dir.now) (D.looks dir.now) self.new }
        ensures passed { self.new.passed ≡ self.old.passed }
        ensures loaded { IfOk result (λ tree. IsLoaded (D.lists dir.now)
            (Leads (D.looks dir.now) (ReadIf (wants reading.entry.wanted.now) (D.reads dir.now))) tree self.old.passed) }
        ensures text { IfOk result HasTextPaths }
        ensures fault { IfErr result (IsUnloaded (D.lists dir.now)
            (Leads (D.looks dir.now) (ReadIf (wants reading.entry.wanted.now) (D.reads dir.now))) (D.refuses dir.now)) }
    {
        tree_with(rt, dir, alloc, reading, &mut self.found)
    }
}

/// Reads a directory with all that is below it, by at most N threads: what [`list_names`] finds, with the contents of all
/// files. Answers the tree and how many names were passed over.
pub fn load_dir<T: Threads + Sync, D: DirView + Sync>(
    rt: &T,
    dir: &D,
    alloc: Global,
    workers: usize,
) -> Result<(Tree, u64), LoadFault>
    ensures loaded { IfOk result (λ loaded.
        IsLoaded (D.lists dir.now) (Leads (D.looks dir.now) (D.reads dir.now)) loaded.0 loaded.1) }
    ensures text { IfOk result (λ loaded. HasTextPaths loaded.0) }
    ensures fault { IfErr result
        (IsUnloaded (D.lists dir.now) (Leads (D.looks dir.now) (D.reads dir.now)) (D.refuses dir.now)) }
{
    let mut names = list_names(rt, dir, alloc, workers)?;
    let wanted = Wanted {
        all: true,
        paths: PathSet::new(alloc),
    };
    let tree = names.load(
        rt,
        dir,
        alloc,
        Reading {
            workers,
            wanted: &wanted,
        },
    )?;
    Ok((tree, names.passed))
}

/// The tree that [`load_dir`] reads, with each file empty: no file is opened, so that one which can't be read refuses
/// nothing.
pub fn load_names<T: Threads + Sync, D: DirView + Sync>(
    rt: &T,
    dir: &D,
    alloc: Global,
    workers: usize,
) -> Result<(Tree, u64), LoadFault>
    ensures named { IfOk result (λ loaded. HasNames (D.lists dir.now) (D.looks dir.now) loaded.0 loaded.1) }
    ensures text { IfOk result (λ loaded. HasTextPaths loaded.0) }
    ensures fault { IfErr result
        (IsUnloaded (D.lists dir.now) (Leads (D.looks dir.now) Unread) (D.refuses dir.now)) }
{
    let mut names = list_names(rt, dir, alloc, workers)?;
    let wanted = Wanted {
        all: false,
        paths: PathSet::new(alloc),
    };
    let tree = names.load(
        rt,
        dir,
        alloc,
        Reading {
            workers,
            wanted: &wanted,
        },
    )?;
    Ok((tree, names.passed))
}
