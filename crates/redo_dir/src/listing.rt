//! What a directory has at which paths, found level by level: the directories of a level are listed, then their names are
//! looked at by several threads. The directories among them are the next level, so that no depth costs stack.

ghost use Rattle.std.specs.Prelude.{◌≡◌, [], ◌∷◌, IfErr, IfOk, OnOk, Some, option_map, string_bytes};
ghost use Rattle.std.specs.List.{FoldsTo};
ghost use Rattle.redo_dir.specs.Loaded.{AreNamesIn, IsRefusedBy, load_fault, names_in};
ghost use Rattle.redo_dir.specs.inside.Levels.{Breaks, BreaksIn, EntersNoted, ListsDir, ListsLevel, Notes, Receives};
ghost use Rattle.redo_dir.specs.inside.Levels.{ReceivesName, progress, taken_in, with_passed};

use crate::LoadFault;
use crate::contents::Place;
use crate::looking::{Name, look_by};
use crate::places::place_of;
use crate::work_dir::{DirView, Seen};
use redo_path::Path;
use std::alloc::{AllocError, Global};
use std::io::ErrorKind;
use std::mem;
use std::thread::Threads;

/// What was found so far.
#[derive(Drop)]
struct Walk {
    found: Vec<Place>,
    /// The directories whose names were not listed yet.
    waiting: Vec<Path>,
    /// The names that may stand in the tree and were not looked at yet.
    noted: Vec<Name>,
    passed: u64,
}

/// The directories and files that were found in a directory, in this order, and how many names were passed over.
#[derive(Drop)]
pub struct Names {
    pub found: Vec<Place>,
    pub passed: u64,
}

/// The fault of a call at a path that the system refused.
pub(crate) fn refused(path: Path, kind: ErrorKind) -> LoadFault
    ensures { result ≡ load_fault path kind }
{
    match kind {
        ErrorKind::OutOfMemory => LoadFault::Memory,
        kind => LoadFault::Device(path, kind),
    }
}

impl Walk {
    /// Nothing but the top directory.
    fn new(alloc: Global) -> Result<Walk, AllocError>
        ensures { IfOk result (λ walk. progress walk ≡
            record { found = []; waiting = [] ∷ []; noted = []; passed = 0 }) }
    {
        let mut waiting = Vec::new(alloc);
        waiting.push(Path::root())?;
        Ok(Walk {
            found: Vec::new(alloc),
            waiting,
            noted: Vec::new(alloc),
            passed: 0,
        })
    }

    /// Counts a name that no tree takes in.
    fn pass_over(&mut self)
        ensures { progress self.new ≡ with_passed (progress self.old) }
    {
        self.passed = self.passed.saturating_add(1);
    }

    /// Keeps a name for later, where it may stand in the tree, or passes over it.
    fn note_text(&mut self, alloc: Global, dir: &Path, name: &str) -> Result<(), AllocError>
        ensures { OnOk result (Notes dir.now (progress self.old) (Some name.now) (progress self.new)) }
    {
        match place_of(alloc, dir, name.as_bytes())? {
            Some(path) => self.noted.push(Name::new(path))?,
            None => self.pass_over(),
        }
        Ok(())
    }

    /// Keeps a name, or passes over it where it isn't text.
    fn note(&mut self, alloc: Global, dir: &Path, name: Option<String>) -> Result<(), AllocError>
        ensures { OnOk result (Notes dir.now (progress self.old) (option_map string_bytes name) (progress self.new)) }
    {
        match name {
            Some(name) => self.note_text(alloc, dir, &name),
            None => {
                self.pass_over();
                Ok(())
            }
        }
    }

    /// Keeps the names of a directory.
    fn note_names(
        &mut self,
        alloc: Global,
        dir: &Path,
        names: Vec<Option<String>>,
    ) -> Result<(), AllocError>
        ensures { OnOk result
            (FoldsTo (Notes dir.now) (progress self.old) (names_in names.items) (progress self.new)) }
    {
        'names: for name in names {
            self.note(alloc, dir, name)?;
        }
        Ok(())
    }

    /// Lists a directory, and keeps its names.
    fn list_dir<D: DirView>(&mut self, work: &D, alloc: Global, dir: Path) -> Result<(), LoadFault>
        ensures listed { OnOk result (ListsDir (D.lists work.now) (progress self.old) dir (progress self.new)) }
        ensures refused { IfErr result (IsRefusedBy (D.refuses work.now)) }
    {
        match work.list(alloc, &dir) {
            Ok(names) => {
                self.note_names(alloc, &dir, names)?;
                Ok(())
            }
            Err(error) => Err(refused(dir, error.kind())),
        }
    }

    /// Lists the directories of a level.
    fn list_level<D: DirView>(&mut self, work: &D, alloc: Global) -> Result<(), LoadFault>
        ensures listed { OnOk result (ListsLevel (D.lists work.now) (progress self.old) (progress self.new)) }
        ensures refused { IfErr result (IsRefusedBy (D.refuses work.now)) }
    {
        let dirs = mem::replace(&mut self.waiting, Vec::new(alloc));
        'dirs: for dir in dirs {
            self.list_dir(work, alloc, dir)?;
        }
        Ok(())
    }

    /// Adds a directory, whose names are then to be listed.
    fn add_dir(&mut self, path: Path) -> Result<(), AllocError>
        ensures { OnOk result (Receives (progress self.old) (progress self.new) path (Some None)) }
    {
        self.waiting.push(path.clone()?)?;
        self.found.push(Place::new(path, None))?;
        Ok(())
    }

    /// Adds a file.
    fn add_file(&mut self, path: Path, size: u64) -> Result<(), AllocError>
        ensures { OnOk result (Receives (progress self.old) (progress self.new) path (Some (Some size))) }
    {
        self.found.push(Place::new(path, Some(size)))?;
        Ok(())
    }

    /// Takes in what was seen at a path, or counts it.
    fn receive(&mut self, path: Path, seen: Seen) -> Result<(), AllocError>
        ensures { OnOk result (Receives (progress self.old) (progress self.new) path (taken_in seen)) }
    {
        match seen {
            Seen::Directory => self.add_dir(path),
            Seen::File(size) => self.add_file(path, size),
            Seen::Other => {
                self.pass_over();
                Ok(())
            }
        }
    }

    /// Takes in a name that was looked at.
    #[tactic(auto, using(crate::proofs::FailLemmas::breaks_call))]
    fn receive_name(&mut self, name: Name) -> Result<(), LoadFault>
        ensures some { OnOk result (ReceivesName (progress self.old) name (progress self.new)) }
        ensures broken { IfErr result (Breaks name) }
    {
        let Name { path, seen } = name;
        match seen {
            Ok(seen) => {
                self.receive(path, seen)?;
                Ok(())
            }
            Err(kind) => Err(refused(path, kind)),
        }
    }

    /// Takes in names that were looked at, in their order.
    fn receive_names(&mut self, names: Vec<Name>) -> Result<(), LoadFault>
        ensures all { OnOk result (FoldsTo ReceivesName (progress self.old) names.items (progress self.new)) }
        ensures stops { IfErr result (BreaksIn names.items) }
    {
        'names: for name in names {
            self.receive_name(name)?;
        }
        Ok(())
    }

    /// Has the names that were kept looked at, by at most N threads, and takes them in.
    fn enter_level<T: Threads + Sync, D: DirView + Sync>(
        &mut self,
        rt: &T,
        work: &D,
        alloc: Global,
        workers: usize,
    ) -> Result<(), LoadFault>
        ensures all { OnOk result (EntersNoted (D.looks work.now) (D.refuses work.now) (progress self.old) (progress self.new)) }
        ensures refused { IfErr result (IsRefusedBy (D.refuses work.now)) }
    {
        let mut names = mem::replace(&mut self.noted, Vec::new(alloc));
        look_by(rt, work, alloc, workers, &mut names);
        self.receive_names(names)
    }
}

/// Finds what a directory has, with all that is below it, by at most N threads, of which the caller's is one; a level with
/// few names is looked at by fewer, and zero workers count as one. No file is opened.
///
/// Passed over, and counted, are links, which are never followed, and what is neither a file nor a directory; names that
/// aren't text (UTF-8), that have a control byte or more than 255 bytes; and what has a path of more than 1,024 bytes.
/// What is below a directory that was passed over isn't looked at, and doesn't count.
///
/// A directory that others change meanwhile may be found as it never was. Where several places can't be looked at, the one
/// that was listed first is told, however many threads look.
pub fn list_names<T: Threads + Sync, D: DirView + Sync>(
    rt: &T,
    dir: &D,
    alloc: Global,
    workers: usize,
) -> Result<Names, LoadFault>
    ensures names { IfOk result (AreNamesIn (D.lists dir.now) (D.looks dir.now)) }
    ensures refused { IfErr result (IsRefusedBy (D.refuses dir.now)) }
{
    let mut walk = Walk::new(alloc)?;
    for _ in 0..u64::MAX {
        if walk.waiting.is_empty() {
            return Ok(Names {
                found: walk.found,
                passed: walk.passed,
            });
        }
        walk.list_level(dir, alloc)?;
        walk.enter_level(rt, dir, alloc, workers)?;
    }
    // No tree of so many levels fits into memory.
    Err(LoadFault::Memory)
}
