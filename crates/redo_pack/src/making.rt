//! What is asked of a directory in which a tree is made.

ghost use Rattle.std.specs.Prelude.{◌≡◌, ◌++◌, ◌∷◌, [], IfErr, IfOk, OnErr, OnOk};
ghost use Rattle.std.specs.IoError.{error_kind};
ghost use Rattle.redo_tree.specs.Tree.{Directory};
ghost use Rattle.redo_pack.specs.Unpacks.{IsTemporary, file_of};

use redo_path::Path;
use redo_tree::Content;
use std::alloc::Global;
use std::io;

/// A new file that was written whole and waits for its name.
pub trait Drafted {
    ghost use Rattle.std.specs.Prelude.{List, ℕ};

    // The path that it is to have, and its bytes.
    ghost drafted: { Self → List ℕ × List ℕ };
    // The name that it has until then, beside its path.
    ghost named: { Self → List ℕ };
}

/// A directory in which directories and files are made. Paths are those of a tree; the directory itself is the root.
/// A file is written first, and gets its name when it is whole.
///
/// The ghost names keep what was asked and answered, so that contracts can speak of it.
/// [`SystemTop`](crate::SystemTop) asks the system.
pub trait Making {
    ghost use Rattle.std.specs.Prelude.{List, ℕ};
    ghost use Rattle.std.specs.declared.io.ErrorKind.{ErrorKind};
    ghost use Rattle.redo_tree.specs.Tree.{Node};

    /// A file under a temporary name, which was written whole and closed.
    type Draft: Drafted + Drop;

    // What was made, in this order. A file is once it has its own name.
    ghost made: { Self → List (List ℕ × Node) };
    // A call at a path was answered by this error.
    ghost refuses: { Self → List ℕ → ErrorKind → Type 0 };

    /// Makes a directory. The error is `AlreadyExists` where something has its name.
    fn make_dir(&mut self, alloc: Global, path: &Path) -> io::Result<()>
        ensures made { OnOk result (made self.new ≡ made self.old ++ (path.now, Directory) ∷ []) }
        ensures kept { OnErr result (made self.new ≡ made self.old) }
        ensures refused { IfErr result (λ error. refuses self.old path.now (error_kind error)) };

    /// Writes a new file into the directory of `path`, under a temporary name, and closes it. At an error no file is
    /// left.
    fn draft(&self, alloc: Global, path: &Path, content: &Content) -> io::Result<Self::Draft>
        ensures draft { IfOk result (λ draft. Self.Draft.drafted draft ≡ (path.now, content.now)) }
        ensures named { IfOk result (λ draft. IsTemporary path.now (Self.Draft.named draft)) }
        ensures refused { IfErr result (λ error. refuses self.now path.now (error_kind error)) };

    /// Gives a draft its name, or removes it. The error is `AlreadyExists` where a file or a directory has that name, as
    /// on a system that takes `A` for `a`.
    fn put(&mut self, draft: Self::Draft) -> io::Result<()>
        ensures made { OnOk result (made self.new ≡ made self.old ++ file_of (Self.Draft.drafted draft) ∷ []) }
        ensures kept { OnErr result (made self.new ≡ made self.old) }
        ensures refused { IfErr result (λ error. refuses self.old (Self.Draft.drafted draft).0 (error_kind error)) };
}
