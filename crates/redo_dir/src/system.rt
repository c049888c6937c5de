//! A directory of the system, as a run works in it.

ghost use Rattle.std.specs.Path.{path_buf_bytes, path_join, path_with_file_name};
ghost use Rattle.std.specs.Prelude.{◌≡◌, ◌≢◌, ◌⊎◌, ◌++◌, ◌∷◌, ◌<◌, [], IfErr, IfOk, List, OnErr, OnOk, Bool, Option, Some, false, map, option_copied, string_bytes, true, vec_capacity, vec_len, ℕ};
ghost use Rattle.std.specs.IoError.{error_kind};
ghost use Rattle.std.specs.List.{AllByRecursion};
ghost use Rattle.std.specs.declared.io.ErrorKind.{ErrorKind};
ghost use Rattle.redo_dir.specs.Called.{HasDone, HasSettled, IsAmong, IsCovered, IsReady, IsSettling, IsWaitedAs, dir_changed};
ghost use Rattle.redo_dir.specs.Refused.{AnyFails, IsUnchanged, is_of_redo, is_of_redo_at_change};
ghost use Rattle.redo_dir.specs.Stored.{Finishes, IsNamed, Journals, Puts, Removes, put_of, step_of, steps_of};
ghost use Rattle.redo_which.specs.Candidates.{book_path, journal_path};

use crate::calls::{Calls, ClosedFile};
use crate::changes::Change;
use crate::lock::DirLock;
use crate::new_files::{NewContent, permissions_at, write_new};
use crate::own::Tag;
use crate::system_calls::SystemCalls;
use crate::view::SystemView;
use crate::waiting::{check_free, sync_each, sync_names};
use crate::work_dir::{DirView, Drafted, Seen, WorkDir};
use redo_path::Path;
use redo_tree::Content;
use redo_which::{BOOK, JOURNAL};
use std::alloc::{AllocError, Global};
use std::io;
use std::io::ErrorKind;
use std::path::PathBuf;
use std::rt::Files;

/// The names of the journal and of the book.
const JOURNAL_NAME: &str = ".redo-journal";

const BOOK_NAME: &str = ".redo-book";

/// A directory of the system that is changed.
#[derive(Drop)]
pub struct SystemDir<'a, C: Calls> {
    view: SystemView<'a, C>,
    /// Whether it waits until a file is on the disk before the file gets its name, and until the names are before it ends.
    synced: bool,
    tag: Option<Tag>,
    done: Vec<Change>,
    // What is noted as done is what the calls of the system come to.
    ghost told: { HasDone C.after C.Closed.stood view.top.now synced view.calls (steps_of done.items) },
}

/// A file of the system that was written under a temporary name.
#[derive(Drop)]
pub struct SystemDraft<'a, F: ClosedFile + Drop> {
    path: Path,
    content: Content,
    /// The directory that it is for, and whether that waits for files.
    top: &'a str,
    synced: bool,
    /// Where it is to be.
    place: PathBuf,
    /// Where it is, and its name there.
    beside: PathBuf,
    name: String,
    file: F,
    ghost placed: { path_buf_bytes place ≡ path_join top.now path },
    ghost made: { ∥ F.made file (path_buf_bytes beside) ∥₁ },
    ghost written: { ∥ ((waited : Bool) × (mode : Option ℕ) × IsWaitedAs synced path waited × IsReady (F.stood file) (path_buf_bytes place) mode ×
        F.holds file (path_buf_bytes beside) content waited × F.has file mode) ∥₁ },
}

impl<F: ClosedFile + Drop> Drafted for SystemDraft<'_, F> {
    ghost use Rattle.std.specs.Prelude.{string_bytes};
    ghost use Rattle.std.specs.Path.{path_buf_bytes};

    ghost drafted = { λ d. (d.path, d.content) };

    ghost named = { λ d. string_bytes d.name };

    ghost gone = { λ d. F.gone d.file (path_buf_bytes d.beside) };
}

/// Where the file with this temporary name is, beside a place.
fn place_beside(alloc: Global, place: &PathBuf, name: &str) -> Result<PathBuf, AllocError>
    ensures { IfOk result (λ beside. path_buf_bytes beside ≡ path_with_file_name (path_buf_bytes place.now) name.now) }
{
    place.with_file_name(alloc, name)
}

/// Notes a change, for which there is room.
fn note(done: &mut Vec<Change>, change: Change)
    requires { vec_len done.old < vec_capacity done.old }
    ensures { steps_of done.new.items ≡ steps_of done.old.items ++ step_of change ∷ [] }
{
    let _noted = done.push(change);
}

/// The directory in which this change gave a file its name, or took one away.
fn dir_of(change: &Change) -> Option<&[u8]>
    ensures { option_copied result ≡ dir_changed (step_of change.now) }
{
    match change {
        Change::Put(path, _, _) | Change::Remove(path) => path.parent_text(),
        _ => None,
    }
}

/// Whether this directory was the last one.
fn is_last(last: Option<&[u8]>, dir: &[u8]) -> bool
    ensures { result ≡ true → option_copied last.entry ≡ Some dir.now }
{
    match last {
        Some(text) => text == dir,
        None => false,
    }
}

impl<'a, R: Files> SystemDir<'a, SystemCalls<&'a R>> {
    /// The directory of this lock, which is held. If `synced`, each file is on the disk before it gets its name.
    pub fn locked(
        rt: &'a R,
        alloc: Global,
        lock: &'a DirLock<'a, R::File>,
        synced: bool,
    ) -> SystemDir<'a, SystemCalls<&'a R>>
        ensures top { result.view.top.now ≡ lock.now.1 }
        ensures synced { result.synced ≡ synced }
    {
        SystemDir::with_calls(SystemCalls::new(rt), alloc, lock.top(), synced)
    }
}

impl<'a, C: Calls> SystemDir<'a, C> {
    /// The directory at this path, by these calls, of which none was made yet. If `synced`, each file is on the disk before
    /// it gets its name.
    pub fn with_calls(calls: C, alloc: Global, top: &'a str, synced: bool) -> SystemDir<'a, C>
        requires { C.after calls [] }
        ensures top { result.view.top.now ≡ top.now }
        ensures synced { result.synced ≡ synced }
    {
        SystemDir {
            view: SystemView { calls, top },
            synced,
            tag: None,
            done: Vec::new(alloc),
        }
    }

    /// The name of the temporary file with this number.
    fn temporary_name(&self, alloc: Global, number: u64) -> io::Result<String>
        ensures name { IfOk result (λ name. IsNamed self.now.tag number (string_bytes name)) }
        ensures own { IfErr result (λ error. is_of_redo_at_change (error_kind error) ≡ true) }
    {
        match &self.tag {
            Some(tag) => Ok(tag.name(alloc, number)?),
            None => Err(io::Error::from(ErrorKind::InvalidInput)),
        }
    }

    /// Whether a file is waited for until it is on the disk before it gets this name.
    fn waits_for(&self, path: &Path) -> bool
        ensures { IsWaitedAs self.now.synced path.now result }
    {
        // A book that was recovered is the only one once the journal is gone.
        self.synced || path.text() == BOOK
    }

    /// The places of the directories in which names were changed.
    fn dirs_of_changes(&self, alloc: Global) -> io::Result<Vec<PathBuf>>
        ensures covered { IfOk result (λ places.
            AllByRecursion (IsCovered self.now.view.top.now (map path_buf_bytes places.items)) (steps_of self.now.done.items)) }
        ensures own { IfErr result (λ error. is_of_redo (error_kind error) ≡ true) }
    {
        let mut places = Vec::new(alloc);
        let mut last = None;
        for change in &self.done {
            let Some(dir) = dir_of(change) else {
                continue;
            };
            // Those of one directory follow one another mostly.
            if is_last(last, dir) {
                continue;
            }
            places.push(self.view.dir_place(alloc, dir)?)?;
            last = Some(dir);
        }
        Ok(places)
    }

    /// The places of the directories whose names are waited for before the journal becomes the book.
    fn dirs_to_wait_for(&self, alloc: Global) -> io::Result<Vec<PathBuf>>
        ensures covered { IfOk result (λ places. self.now.synced ≡ true →
            AllByRecursion (IsCovered self.now.view.top.now (map path_buf_bytes places.items)) (steps_of self.now.done.items)) }
        ensures own { IfErr result (λ error. is_of_redo (error_kind error) ≡ true) }
    {
        if !self.synced {
            return Ok(Vec::new(alloc));
        }
        self.dirs_of_changes(alloc)
    }

    /// The same before a journal or the book is removed. The top, where the recovered book has its name, is always one of
    /// them.
    fn dirs_before_removal(&self, alloc: Global) -> io::Result<Vec<PathBuf>>
        ensures covered { IfOk result (λ places. self.now.synced ≡ true →
            AllByRecursion (IsCovered self.now.view.top.now (map path_buf_bytes places.items)) (steps_of self.now.done.items)) }
        ensures top { IfOk result (λ places. IsAmong (map path_buf_bytes places.items) (path_join self.now.view.top.now [])) }
        ensures own { IfErr result (λ error. is_of_redo (error_kind error) ≡ true) }
    {
        let mut dirs = self.dirs_to_wait_for(alloc)?;
        dirs.push(self.view.text_place(alloc, "")?)?;
        Ok(dirs)
    }

    /// The places of these files and of their directories.
    fn places_to_settle(&self, alloc: Global, paths: &[Path]) -> io::Result<Vec<PathBuf>>
        ensures settling { IfOk result (λ places.
            AllByRecursion (IsSettling self.now.view.top.now (map path_buf_bytes places.items)) paths.now) }
        ensures own { IfErr result (λ error. is_of_redo (error_kind error) ≡ true) }
    {
        let mut places = Vec::new(alloc);
        let mut last = None;
        for path in paths {
            places.push(self.view.place(alloc, path)?)?;
            let Some(dir) = path.parent_text() else {
                continue;
            };
            if is_last(last, dir) {
                continue;
            }
            places.push(self.view.dir_place(alloc, dir)?)?;
            last = Some(dir);
        }
        Ok(places)
    }

    /// Waits until what is at these places is on the disk.
    fn wait_for(&mut self, places: &[PathBuf]) -> io::Result<()>
        ensures settled { OnOk result ((path : List ℕ) → IsSettling self.old.view.top.now (map path_buf_bytes places.now) path →
            HasSettled C.after self.new.view.top.now self.new.view.calls path) }
        ensures kept { steps_of self.new.done.items ≡ steps_of self.old.done.items }
        ensures tag { self.new.tag ≡ self.old.tag }
        ensures refused { IfErr result (λ error. (path : List ℕ) → (path ≡ journal_path) ⊎ (path ≡ book_path) →
            IsUnchanged (AnyFails C.fails C.Closed.made C.Closed.fails C.Closed.gone) self.old.view.top.now path (error_kind error)) }
    {
        sync_each(&mut self.view.calls, places)
    }

    /// Room for one change more, so that none is made that can't be noted.
    fn make_room(&mut self) -> Result<(), AllocError>
        ensures room { OnOk result (vec_len self.new.done < vec_capacity self.new.done) }
        ensures done { steps_of self.new.done.items ≡ steps_of self.old.done.items }
        ensures top { self.new.view.top.now ≡ self.old.view.top.now }
        ensures synced { self.new.synced ≡ self.old.synced }
        ensures tag { self.new.tag ≡ self.old.tag }
    {
        self.done.reserve(1)
    }

    /// Whether this file tells of others, so that it goes once these are on the disk: the journal, and the book in a run
    /// that waits for its files.
    fn tells_of_others(&self, path: &Path) -> bool
        ensures yes { result ≡ true → (path.now ≡ journal_path) ⊎ (path.now ≡ book_path) }
        ensures no { result ≡ false → (path.now ≢ journal_path) × (self.now.synced ≡ true → path.now ≢ book_path) }
    {
        path.text() == JOURNAL || (self.synced && path.text() == BOOK)
    }

    /// Takes a name away, and notes that.
    fn take_away(&mut self, place: &PathBuf, path: &Path) -> io::Result<()>
        requires place { path_buf_bytes place.now ≡ path_join self.old.view.top.now path.now }
        requires other { (path.now ≢ journal_path) × (self.old.synced ≡ true → path.now ≢ book_path) }
        ensures removed { OnOk result (steps_of self.new.done.items ≡ steps_of self.old.done.items ++ Removes path.now ∷ []) }
        ensures kept { OnErr result (steps_of self.new.done.items ≡ steps_of self.old.done.items) }
        ensures tag { self.new.tag ≡ self.old.tag }
        ensures refused { IfErr result (λ error. IsUnchanged (AnyFails C.fails C.Closed.made C.Closed.fails C.Closed.gone)
            self.old.view.top.now path.now (error_kind error)) }
    {
        let change = Change::Remove(path.clone()?);
        self.done.reserve(1)?;
        self.view.calls.unlink(place)?;
        note(&mut self.done, change);
        Ok(())
    }

    /// Takes the journal or the book away, once the names in these directories are on the disk, and notes that.
    fn take_away_last(&mut self, dirs: &[PathBuf], place: &PathBuf, path: &Path) -> io::Result<()>
        requires dirs { self.old.synced ≡ true →
            AllByRecursion (IsCovered self.old.view.top.now (map path_buf_bytes dirs.now)) (steps_of self.old.done.items) }
        requires top { IsAmong (map path_buf_bytes dirs.now) (path_join self.old.view.top.now []) }
        requires place { path_buf_bytes place.now ≡ path_join self.old.view.top.now path.now }
        requires last { (path.now ≡ journal_path) ⊎ (path.now ≡ book_path) }
        ensures removed { OnOk result (steps_of self.new.done.items ≡ steps_of self.old.done.items ++ Removes path.now ∷ []) }
        ensures kept { OnErr result (steps_of self.new.done.items ≡ steps_of self.old.done.items) }
        ensures tag { self.new.tag ≡ self.old.tag }
        ensures refused { IfErr result (λ error. IsUnchanged (AnyFails C.fails C.Closed.made C.Closed.fails C.Closed.gone)
            self.old.view.top.now path.now (error_kind error)) }
    {
        let change = Change::Remove(path.clone()?);
        self.done.reserve(1)?;
        sync_each(&mut self.view.calls, dirs)?;
        self.view.calls.unlink(place)?;
        note(&mut self.done, change);
        Ok(())
    }

    /// Makes the journal the book once the names in these directories are on the disk, and notes that.
    fn take_over(&mut self, dirs: &[PathBuf], journal: &PathBuf, book: &PathBuf) -> io::Result<()>
        requires dirs { self.old.synced ≡ true →
            AllByRecursion (IsCovered self.old.view.top.now (map path_buf_bytes dirs.now)) (steps_of self.old.done.items) }
        requires journal { path_buf_bytes journal.now ≡ path_join self.old.view.top.now journal_path }
        requires book { path_buf_bytes book.now ≡ path_join self.old.view.top.now book_path }
        ensures finished { OnOk result (steps_of self.new.done.items ≡ steps_of self.old.done.items ++ Finishes ∷ []) }
        ensures kept { OnErr result (steps_of self.new.done.items ≡ steps_of self.old.done.items) }
        ensures tag { self.new.tag ≡ self.old.tag }
        ensures refused { IfErr result (λ error. IsUnchanged (AnyFails C.fails C.Closed.made C.Closed.fails C.Closed.gone)
            self.old.view.top.now book_path (error_kind error)) }
    {
        self.done.reserve(1)?;
        sync_each(&mut self.view.calls, dirs)?;
        self.view.calls.rename(journal, book)?;
        note(&mut self.done, Change::Finish);
        Ok(())
    }

    /// Leaves the journal where it was written, waits until its name is on the disk, and notes that; or takes it away.
    fn leave(
        &mut self,
        file: &C::Closed,
        place: &PathBuf,
        top: &PathBuf,
        text: Content,
    ) -> io::Result<()>
        requires room { vec_len self.old.done < vec_capacity self.old.done }
        requires written { C.Closed.holds file.now (path_buf_bytes place.now) text true }
        requires ready { (mode : Option ℕ) × C.Closed.has file.now mode ×
            IsReady (C.Closed.stood file.now) (path_join self.old.view.top.now book_path) mode }
        requires place { path_buf_bytes place.now ≡ path_join self.old.view.top.now journal_path }
        requires top { path_buf_bytes top.now ≡ path_join self.old.view.top.now [] }
        ensures journal { OnOk result (steps_of self.new.done.items ≡ steps_of self.old.done.items ++ Journals text ∷ []) }
        ensures kept { OnErr result (steps_of self.new.done.items ≡ steps_of self.old.done.items) }
        ensures refused { IfErr result (λ error. IsUnchanged (AnyFails C.fails C.Closed.made C.Closed.fails C.Closed.gone)
            self.old.view.top.now journal_path (error_kind error)) }
    {
        self.view.calls.keep(file, place);
        if let Err(error) = sync_names(&mut self.view.calls, top) {
            let _removed = self.view.calls.unlink(place);
            return Err(error);
        }
        note(&mut self.done, Change::Journal(text));
        Ok(())
    }

    /// Gives a draft its name, whatever has it, and notes that.
    fn name_over(&mut self, draft: &SystemDraft<'_, C::Closed>) -> io::Result<()>
        requires top { draft.now.top.now ≡ self.old.view.top.now }
        requires synced { draft.now.synced ≡ self.old.synced }
        ensures stored { OnOk result (steps_of self.new.done.items ≡
            steps_of self.old.done.items ++ Puts draft.now.path draft.now.content true ∷ []) }
        ensures kept { OnErr result (steps_of self.new.done.items ≡ steps_of self.old.done.items) }
        ensures tag { self.new.tag ≡ self.old.tag }
        ensures refused { IfErr result (λ error. IsUnchanged (AnyFails C.fails C.Closed.made C.Closed.fails C.Closed.gone)
            self.old.view.top.now draft.now.path (error_kind error)) }
    {
        let change = Change::Put(draft.path.clone()?, draft.content.clone()?, true);
        // So that no file gets a name that can't be noted.
        self.done.reserve(1)?;
        self.view
            .calls
            .name(&draft.file, &draft.beside, &draft.place)?;
        note(&mut self.done, change);
        Ok(())
    }

    /// Gives a draft its name where neither a file nor a directory has it, and notes that.
    fn name_new(&mut self, draft: &SystemDraft<'_, C::Closed>) -> io::Result<()>
        requires top { draft.now.top.now ≡ self.old.view.top.now }
        requires synced { draft.now.synced ≡ self.old.synced }
        ensures stored { OnOk result (steps_of self.new.done.items ≡
            steps_of self.old.done.items ++ Puts draft.now.path draft.now.content false ∷ []) }
        ensures kept { OnErr result (steps_of self.new.done.items ≡ steps_of self.old.done.items) }
        ensures tag { self.new.tag ≡ self.old.tag }
        ensures refused { IfErr result (λ error. IsUnchanged (AnyFails C.fails C.Closed.made C.Closed.fails C.Closed.gone)
            self.old.view.top.now draft.now.path (error_kind error)) }
    {
        let change = Change::Put(draft.path.clone()?, draft.content.clone()?, false);
        self.done.reserve(1)?;
        check_free(&mut self.view.calls, &draft.place)?;
        self.view
            .calls
            .name(&draft.file, &draft.beside, &draft.place)?;
        note(&mut self.done, change);
        Ok(())
    }

    /// Gives a draft its name, and notes that it has it. A draft of another directory is refused.
    fn name(&mut self, draft: &SystemDraft<'_, C::Closed>, over: bool) -> io::Result<()>
        ensures stored { OnOk result (steps_of self.new.done.items ≡
            steps_of self.old.done.items ++ put_of (draft.now.path, draft.now.content) over ∷ []) }
        ensures kept { OnErr result (steps_of self.new.done.items ≡ steps_of self.old.done.items) }
        ensures tag { self.new.tag ≡ self.old.tag }
        ensures refused { IfErr result (λ error. IsUnchanged (AnyFails C.fails C.Closed.made C.Closed.fails C.Closed.gone)
            self.old.view.top.now draft.now.path (error_kind error)) }
    {
        if draft.top != self.view.top {
            return Err(io::Error::from(ErrorKind::InvalidInput));
        }
        if draft.synced != self.synced {
            return Err(io::Error::from(ErrorKind::InvalidInput));
        }
        if over {
            self.name_over(draft)
        } else {
            self.name_new(draft)
        }
    }
}

impl<'a, C: Calls> DirView for SystemDir<'a, C> {
    ghost use Rattle.std.specs.Prelude.{Err};
    ghost use Rattle.std.specs.Path.{path_join};
    ghost use Rattle.std.specs.declared.io.ErrorKind.TheVariants.{NotFound};
    ghost use Rattle.redo_dir.specs.Called.{IsOpenedAs, IsStandingAs};
    ghost use Rattle.redo_dir.specs.Refused.{AnyFails, IsRefusedFor};

    ghost lists = { λ d dir. C.lists d.view.calls (path_join d.view.top.now dir) };

    ghost looks = { λ d path. IsStandingAs (C.stands d.view.calls) (path_join d.view.top.now path) };

    ghost lacks = { λ d path. C.stands d.view.calls (path_join d.view.top.now path) (Err NotFound) };

    ghost reads = { λ d path. IsOpenedAs (C.opens d.view.calls) (path_join d.view.top.now path) };

    ghost refuses = { λ d. IsRefusedFor (C.fails d.view.calls) (C.opens d.view.calls)
        (AnyFails C.fails C.Closed.made C.Closed.fails C.Closed.gone) d.view.top.now };

    fn list(&self, alloc: Global, dir: &Path) -> io::Result<Vec<Option<String>>> {
        self.view.list(alloc, dir)
    }

    fn look(&self, alloc: Global, path: &Path) -> io::Result<Seen> {
        self.view.look(alloc, path)
    }

    fn read(&self, alloc: Global, path: &Path, size: u64) -> io::Result<Vec<u8>> {
        self.view.read(alloc, path, size)
    }
}

impl<'a, C: Calls> WorkDir for SystemDir<'a, C> {
    ghost use Rattle.std.specs.Prelude.{◌≡◌, true};
    ghost use Rattle.redo_dir.specs.Called.{HasSettled};
    ghost use Rattle.redo_dir.specs.Stored.{steps_of};

    ghost done = { λ d. steps_of d.done.items };

    ghost tagged = { λ d. d.tag };

    ghost settled = { λ d path. d.synced ≡ true → HasSettled C.after d.view.top.now d.view.calls path };

    type Draft = SystemDraft<'a, C::Closed>;

    fn journal(&mut self, alloc: Global, text: &Content) -> io::Result<()> {
        let top = self.view.text_place(alloc, "")?;
        let place = self.view.text_place(alloc, JOURNAL_NAME)?;
        let book = self.view.text_place(alloc, BOOK_NAME)?;
        let kept = text.clone()?;
        let tag = Tag::of(alloc, text)?;
        self.make_room()?;
        let new = NewContent {
            bytes: text.bytes(),
            permissions: permissions_at(&self.view.calls, &book)?,
            synced: true,
        };
        let file = write_new(&self.view.calls, &place, new)?;
        self.leave(&file, &place, &top, kept)?;
        self.tag = Some(tag);
        Ok(())
    }

    fn resume(&mut self, alloc: Global, text: &Content) -> Result<(), AllocError> {
        self.tag = Some(Tag::of(alloc, text)?);
        Ok(())
    }

    fn finish(&mut self, alloc: Global) -> io::Result<()> {
        let dirs = self.dirs_to_wait_for(alloc)?;
        let journal = self.view.text_place(alloc, JOURNAL_NAME)?;
        let book = self.view.text_place(alloc, BOOK_NAME)?;
        self.take_over(&dirs, &journal, &book)
    }

    fn draft(
        &self,
        alloc: Global,
        path: &Path,
        content: &Content,
        number: u64,
    ) -> io::Result<SystemDraft<'a, C::Closed>> {
        if path.text() == JOURNAL {
            return Err(io::Error::from(ErrorKind::InvalidFilename));
        }
        let place = self.view.place(alloc, path)?;
        let name = self.temporary_name(alloc, number)?;
        let beside = place_beside(alloc, &place, &name)?;
        let synced = self.waits_for(path);
        let new = NewContent {
            bytes: content.bytes(),
            permissions: permissions_at(&self.view.calls, &place)?,
            synced,
        };
        let path = path.clone()?;
        let kept = content.clone()?;
        let file = write_new(&self.view.calls, &beside, new)?;
        Ok(SystemDraft {
            path,
            content: kept,
            top: self.view.top,
            synced: self.synced,
            place,
            beside,
            name,
            file,
        })
    }

    fn put(&mut self, draft: SystemDraft<'a, C::Closed>, over: bool) -> io::Result<()> {
        let outcome = self.name(&draft, over);
        if outcome.is_err() {
            let _removed = self.view.calls.discard(&draft.file, &draft.beside);
        }
        outcome
    }

    fn remove(&mut self, alloc: Global, path: &Path) -> io::Result<()> {
        let place = self.view.place(alloc, path)?;
        if self.tells_of_others(path) {
            let dirs = self.dirs_before_removal(alloc)?;
            return self.take_away_last(&dirs, &place, path);
        }
        self.take_away(&place, path)
    }

    fn settle(&mut self, alloc: Global, paths: &[Path]) -> io::Result<()> {
        if !self.synced {
            return Ok(());
        }
        let places = self.places_to_settle(alloc, paths)?;
        self.wait_for(&places)
    }

    fn count(&self) -> usize {
        self.done.len()
    }

    fn discard(&self, draft: SystemDraft<'a, C::Closed>) {
        let _removed = self.view.calls.discard(&draft.file, &draft.beside);
    }
}
