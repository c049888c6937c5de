//! The directory that a run works in: what a run asks of the file system.

ghost use Rattle.std.specs.Prelude.{◌≡◌, ◌≢◌, ◌++◌, ◌∷◌, [], IfErr, IfOk, OnErr, OnOk, Some, length};
ghost use Rattle.std.specs.IoError.{error_kind};
ghost use Rattle.std.specs.List.{AllByRecursion};
ghost use Rattle.std.specs.declared.io.ErrorKind.TheVariants.{NotFound};
ghost use Rattle.redo_dir.specs.Loaded.{names_in};
ghost use Rattle.redo_which.specs.Candidates.{book_path, journal_path};
ghost use Rattle.redo_dir.specs.Stored.{Finishes, IsNamed, Journals, Removes, put_of};

use redo_path::Path;
use redo_tree::Content;
use std::alloc::{AllocError, Global};
use std::io;

/// What a path leads to, as a look tells. A link is neither a directory nor a file.
#[derive(Clone, Copy)]
pub enum Seen {
    Directory,
    /// A file of so many bytes. Some file systems know no sizes, and say 0.
    File(u64),
    Other,
}

/// A new file that was written whole and waits for its name.
pub trait Drafted {
    ghost use Rattle.std.specs.Prelude.{List, ℕ};

    // The path that it is to have, and its bytes.
    ghost drafted: { Self → List ℕ × List ℕ };
    // The name that it has until then, beside its path.
    ghost named: { Self → List ℕ };
    // The file didn't get its path, and was asked to be removed.
    ghost gone: { Self → Type 0 };
}

/// A directory that is looked at. What only looks reaches the file system by these calls alone, so that it changes
/// nothing. Paths are those of the tree; the directory itself is the root.
///
/// The ghost names keep what was asked and answered, so that contracts can speak of it.
/// [`SystemView`](crate::SystemView) asks the system.
pub trait DirView {
    ghost use Rattle.std.specs.Prelude.{List, Option, ℕ};
    ghost use Rattle.std.specs.declared.io.ErrorKind.{ErrorKind};
    ghost use Rattle.redo_dir.specs.declared.work_dir.Seen.{Seen};

    // A directory was listed, and these are its names; none stands for a name that isn't text.
    ghost lists: { Self → List ℕ → List (Option (List ℕ)) → Type 0 };
    // A path was looked at: a directory, a file of some size, or neither.
    ghost looks: { Self → List ℕ → Seen → Type 0 };
    // A path was looked at, and nothing was there.
    ghost lacks: { Self → List ℕ → Type 0 };
    // The file at a path was read, which had so many bytes when it was looked at, and these bytes came.
    ghost reads: { Self → List ℕ → ℕ → List ℕ → Type 0 };
    // A call at a path was answered by this error.
    ghost refuses: { Self → List ℕ → ErrorKind → Type 0 };

    /// Lists a directory. The order is the system's.
    fn list(&self, alloc: Global, dir: &Path) -> io::Result<Vec<Option<String>>>
        ensures answer { IfOk result (λ names. lists self.now dir.now (names_in names.items)) }
        ensures refused { IfErr result (λ error. refuses self.now dir.now (error_kind error)) };

    /// Looks at a path, and follows no link. What is a file isn't opened. The error is `NotFound` only where nothing is
    /// there.
    fn look(&self, alloc: Global, path: &Path) -> io::Result<Seen>
        ensures answer { IfOk result (looks self.now path.now) }
        ensures missing { IfErr result (λ error. error_kind error ≡ NotFound → lacks self.now path.now) }
        ensures refused { IfErr result (λ error. refuses self.now path.now (error_kind error)) };

    /// Reads the file at a path that had `size` bytes when it was looked at: the first `size` of those that it has
    /// now, and all where the size is 0.
    fn read(&self, alloc: Global, path: &Path, size: u64) -> io::Result<Vec<u8>>
        ensures answer { IfOk result (λ bytes. reads self.now path.now size bytes.items) }
        ensures refused { IfErr result (λ error. refuses self.now path.now (error_kind error)) };
}

/// The directory that a run works in. A run reaches the file system by these calls and those of [`DirView`] alone:
/// nothing else is listed, read, made, renamed or removed.
///
/// What the system does with a call that it answers well is known to no contract. [`SystemDir`](crate::SystemDir) asks
/// the system.
pub trait WorkDir: DirView {
    ghost use Rattle.std.specs.Prelude.{List, Option, ℕ};
    ghost use Rattle.redo_dir.specs.Stored.{Step};

    /// A file under a temporary name of the run's own, which was written whole and closed.
    type Draft: Drafted + Drop;

    // The calls that changed the directory, in this order.
    ghost done: { Self → List Step };
    // The text of the journal by which temporary files are named, once there is one.
    ghost tagged: { Self → Option (List ℕ) };
    // The file at a path and its name are on the disk, in a directory that waits for its files.
    ghost settled: { Self → List ℕ → Type 0 };

    /// Writes the journal with this text, in its own place, and waits until it is on the disk. The error is
    /// `AlreadyExists` where something stands there. A run that is killed meanwhile may leave a beginning of it. From then
    /// on temporary files are named by it.
    fn journal(&mut self, alloc: Global, text: &Content) -> io::Result<()>
        ensures journal { OnOk result (done self.new ≡ done self.old ++ Journals text.now ∷ []) }
        ensures kept { OnErr result (done self.new ≡ done self.old) }
        ensures tag { OnOk result (tagged self.new ≡ Some text.now) }
        ensures refused { IfErr result (λ error. Self.refuses self.old journal_path (error_kind error)) };

    /// Names temporary files by the journal that a run which was broken off has left, with this text.
    fn resume(&mut self, alloc: Global, text: &Content) -> Result<(), AllocError>
        ensures kept { done self.new ≡ done self.old }
        ensures tag { OnOk result (tagged self.new ≡ Some text.now) };

    /// Makes the journal the book.
    fn finish(&mut self, alloc: Global) -> io::Result<()>
        ensures finished { OnOk result (done self.new ≡ done self.old ++ Finishes ∷ []) }
        ensures kept { OnErr result (done self.new ≡ done self.old) }
        ensures refused { IfErr result (λ error. Self.refuses self.old book_path (error_kind error)) };

    /// Writes a new file into the directory of `path`, under the temporary name of this number, and closes it. At an
    /// error no file is left. It is `AlreadyExists` where something has that name; that is left as it is. The path of the
    /// journal is refused, and so is any before there is a journal to name the file by.
    fn draft(
        &self,
        alloc: Global,
        path: &Path,
        content: &Content,
        number: u64,
    ) -> io::Result<Self::Draft>
        ensures draft { IfOk result (λ draft. Self.Draft.drafted draft ≡ (path.now, content.now)) }
        ensures named { IfOk result (λ draft. IsNamed (tagged self.now) number (Self.Draft.named draft)) }
        ensures other { OnOk result (path.now ≢ journal_path) }
        ensures refused { IfErr result (λ error. Self.refuses self.now path.now (error_kind error)) };

    /// Gives a draft its name, or removes it. Where no file was listed at its path (`over`) and a file or a directory
    /// stands there, as on a system that takes `A` for `a`, the error is `AlreadyExists`. A link there is replaced.
    fn put(&mut self, draft: Self::Draft, over: bool) -> io::Result<()>
        ensures stored { OnOk result (done self.new ≡ done self.old ++ put_of (Self.Draft.drafted draft) over ∷ []) }
        ensures kept { OnErr result (done self.new ≡ done self.old) }
        ensures tag { tagged self.new ≡ tagged self.old }
        ensures gone { OnErr result (Self.Draft.gone draft) }
        ensures refused { IfErr result (λ error. Self.refuses self.old (Self.Draft.drafted draft).0 (error_kind error)) };

    /// Removes a file. A directory is never removed; the error is `NotFound` where nothing has that name. Of a link the
    /// link goes, not what it leads to.
    fn remove(&mut self, alloc: Global, path: &Path) -> io::Result<()>
        ensures removed { OnOk result (done self.new ≡ done self.old ++ Removes path.now ∷ []) }
        ensures kept { OnErr result (done self.new ≡ done self.old) }
        ensures tag { tagged self.new ≡ tagged self.old }
        ensures refused { IfErr result (λ error. Self.refuses self.old path.now (error_kind error)) };

    /// Waits until these files and their names are on the disk, where the directory waits for its files: before a book that
    /// tells of them takes its place, and before the journal goes that did.
    fn settle(&mut self, alloc: Global, paths: &[Path]) -> io::Result<()>
        ensures settled { OnOk result (AllByRecursion (settled self.new) paths.now) }
        ensures kept { done self.new ≡ done self.old }
        ensures tag { tagged self.new ≡ tagged self.old }
        ensures refused { IfErr result (λ error.
            Self.refuses self.old book_path (error_kind error) × Self.refuses self.old journal_path (error_kind error)) };

    /// How many calls changed the directory.
    fn count(&self) -> usize
        ensures { result ≡ length (done self.now) };

    /// Removes a draft.
    fn discard(&self, draft: Self::Draft)
        ensures { Self.Draft.gone draft };
}
