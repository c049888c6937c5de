//! The calls of the system that a directory stands on, one function each.
//!
//! The ghost names keep what was asked and answered. They are relations and not a log that a value holds, so the program
//! keeps none: what is proved of a directory holds for every implementation of these calls, and whatever it keeps.

ghost use Rattle.std.specs.Prelude.{◌++◌, ◌∷◌, [], IfErr, IfOk, List, None, OnErr, OnOk, Option, Some, true, false, Bool, ℕ};
ghost use Rattle.std.specs.Fs.{permissions_mode};
ghost use Rattle.std.specs.IoError.{error_kind};
ghost use Rattle.std.specs.Path.{path_buf_bytes};
ghost use Rattle.std.specs.declared.io.ErrorKind.{ErrorKind};
ghost use Rattle.redo_dir.specs.Called.{Follows, Finds, Found, Keeps, Names, Renames, Stays, Syncs, Unlinks, answer_of, found_of};
ghost use Rattle.redo_dir.specs.Loaded.{names_in};

use std::alloc::Global;
use std::fs::{Metadata, Permissions};
use std::io;
use std::io::Read;
use std::path::PathBuf;

/// A new file of the system, which is open.
pub trait NewFile {
    ghost use Rattle.std.specs.Prelude.{Bool, List, Option, ℕ};
    ghost use Rattle.std.specs.declared.io.ErrorKind.{ErrorKind};

    // It was made at this place, where nothing was.
    ghost made: { Self → List ℕ → Type 0 };
    // It was made there, these bytes were written to it, whole, and all of them were waited for, or perhaps not.
    ghost holds: { Self → List ℕ → List ℕ → Bool → Type 0 };
    // It was given this mode, or was seen to have it; none stands for the one that it was made with.
    ghost has: { Self → Option ℕ → Type 0 };
    // A call on it was answered by an error of this kind.
    ghost fails: { Self → ErrorKind → Type 0 };

    fn permissions(&self) -> io::Result<Permissions>
        ensures has { IfOk result (λ permissions. has self.now (Some (permissions_mode permissions))) }
        ensures refused { IfErr result (λ error. fails self.now (error_kind error)) };

    fn permit(&self, permissions: Permissions) -> io::Result<()>
        ensures has { OnOk result (has self.now (Some (permissions_mode permissions))) }
        ensures refused { IfErr result (λ error. fails self.now (error_kind error)) };

    fn write(&mut self, bytes: &[u8]) -> io::Result<()>
        ensures made { (place : List ℕ) → made self.old place → made self.new place }
        ensures holds { OnOk result ((place text : List ℕ) (synced : Bool) →
            holds self.old place text synced → holds self.new place (text ++ bytes.now) false) }
        ensures has { (mode : Option ℕ) → has self.old mode → has self.new mode }
        ensures refused { IfErr result (λ error. fails self.new (error_kind error)) };

    /// Waits until it is on the disk.
    fn sync(&mut self) -> io::Result<()>
        ensures made { (place : List ℕ) → made self.old place → made self.new place }
        ensures holds { OnOk result ((place text : List ℕ) (synced : Bool) →
            holds self.old place text synced → holds self.new place text true) }
        ensures has { (mode : Option ℕ) → has self.old mode → has self.new mode }
        ensures refused { IfErr result (λ error. fails self.new (error_kind error)) };
}

/// A new file of the system, which was closed. What it shares with [`NewFile`] has the names that it has there.
pub trait ClosedFile {
    ghost use Rattle.std.specs.Prelude.{Bool, List, Option, ℕ};
    ghost use Rattle.std.specs.declared.io.ErrorKind.{ErrorKind};
    ghost use Rattle.redo_dir.specs.Called.{Found};

    ghost made: { Self → List ℕ → Type 0 };

    ghost holds: { Self → List ℕ → List ℕ → Bool → Type 0 };

    ghost has: { Self → Option ℕ → Type 0 };

    ghost fails: { Self → ErrorKind → Type 0 };
    // Before it was closed a place was looked at, and this was the answer.
    ghost stood: { Self → List ℕ → Found → Type 0 };
    // The system was asked to take its name at this place away.
    ghost gone: { Self → List ℕ → Type 0 };
}

/// The calls of the system that change nothing. None does more than its name says, and each answers what the system does.
pub trait ReadCalls {
    ghost use Rattle.std.specs.Prelude.{List, Option, ℕ};
    ghost use Rattle.std.specs.declared.io.ErrorKind.{ErrorKind};
    ghost use Rattle.redo_dir.specs.Called.{Found};

    type Source: Read + Drop;

    // A place was looked at, and this was the answer, or the kind of its error.
    ghost stands: { Self → List ℕ → Found → Type 0 };
    // A file was opened, and these are its bytes, where they are known.
    ghost opens: { Self → List ℕ → Option (List ℕ) → Type 0 };
    // A directory was listed, and these are its names; none stands for a name that isn't text.
    ghost lists: { Self → List ℕ → List (Option (List ℕ)) → Type 0 };
    // A call at a place was answered by an error of this kind.
    ghost fails: { Self → List ℕ → ErrorKind → Type 0 };

    /// Lists a directory, to the end.
    fn list(&self, alloc: Global, place: &PathBuf) -> io::Result<Vec<Option<String>>>
        ensures answer { IfOk result (λ names. lists self.now (path_buf_bytes place.now) (names_in names.items)) }
        ensures refused { IfErr result (λ error. fails self.now (path_buf_bytes place.now) (error_kind error)) };

    /// Looks at a place, and follows no link there.
    fn look(&self, place: &PathBuf) -> io::Result<Metadata>
        ensures answer { stands self.now (path_buf_bytes place.now) (found_of error_kind result) }
        ensures refused { IfErr result (λ error. fails self.now (path_buf_bytes place.now) (error_kind error)) };

    /// Opens a file to be read.
    fn open(&self, place: &PathBuf) -> io::Result<Self::Source>
        ensures answer { IfOk result (λ source. opens self.now (path_buf_bytes place.now) (Self.Source.remaining source)) }
        ensures refused { IfErr result (λ error. fails self.now (path_buf_bytes place.now) (error_kind error)) };
}

/// The calls of the system, with those that change something.
///
/// These, and those whose place between two changes matters, take `&mut self` and are in `after`. New files are made by
/// several threads side by side, so they have their evidence themselves.
pub trait Calls: ReadCalls {
    ghost use Rattle.std.specs.Prelude.{List};
    ghost use Rattle.redo_dir.specs.Called.{Call};

    type New: NewFile + Drop;

    type Closed: ClosedFile + Drop;

    // These calls were made, in this order.
    ghost after: { Self → List Call → Type 0 };

    /// Makes a new file where nothing is.
    fn create(&self, place: &PathBuf) -> io::Result<Self::New>
        ensures made { IfOk result (λ file. Self.New.made file (path_buf_bytes place.now)) }
        ensures holds { IfOk result (λ file. Self.New.holds file (path_buf_bytes place.now) [] false) }
        ensures has { IfOk result (λ file. Self.New.has file None) }
        ensures refused { IfErr result (λ error. Self.fails self.now (path_buf_bytes place.now) (error_kind error)) };

    fn close(&self, file: Self::New) -> Self::Closed
        ensures made { (place : List ℕ) → Self.New.made file place → Self.Closed.made result place }
        ensures holds { (place text : List ℕ) (synced : Bool) →
            Self.New.holds file place text synced → Self.Closed.holds result place text synced }
        ensures has { (mode : Option ℕ) → Self.New.has file mode → Self.Closed.has result mode }
        ensures fails { (kind : ErrorKind) → Self.New.fails file kind → Self.Closed.fails result kind }
        ensures stood { (place : List ℕ) (found : Found) → Self.stands self.now place found → Self.Closed.stood result place found };

    /// Takes away a new file that has no other name.
    fn discard(&self, file: &Self::Closed, place: &PathBuf) -> io::Result<()>
        requires { ∥ Self.Closed.made file.now (path_buf_bytes place.now) ∥₁ }
        ensures { Self.Closed.gone file.now (path_buf_bytes place.now) };

    /// Looks at a place between two changes, and follows no link there.
    fn find(&mut self, place: &PathBuf) -> io::Result<Metadata>
        ensures found { Follows after self.old (Finds (path_buf_bytes place.now) (found_of error_kind result) ∷ []) self.new }
        ensures refused { IfErr result (λ error. Self.fails self.new (path_buf_bytes place.now) (error_kind error)) };

    /// Gives a new file another name.
    fn name(&mut self, file: &Self::Closed, from: &PathBuf, to: &PathBuf) -> io::Result<()>
        ensures named { OnOk result ((text : List ℕ) (synced : Bool) (mode : Option ℕ) →
            Self.Closed.holds file.now (path_buf_bytes from.now) text synced → Self.Closed.has file.now mode →
            Follows after self.old (Names (path_buf_bytes from.now) text synced mode (path_buf_bytes to.now) ∷ []) self.new) }
        ensures kept { OnErr result (Keeps after self.old self.new) }
        ensures refused { IfErr result (λ error. Self.fails self.new (path_buf_bytes to.now) (error_kind error)) };

    /// Leaves a new file where it is. The system isn't called.
    fn keep(&mut self, file: &Self::Closed, place: &PathBuf)
        ensures { (text : List ℕ) (synced : Bool) (mode : Option ℕ) →
            Self.Closed.holds file.now (path_buf_bytes place.now) text synced → Self.Closed.has file.now mode →
            Follows after self.old (Stays (path_buf_bytes place.now) text synced mode ∷ []) self.new };

    /// Gives what is at a place the other name, also where something has it.
    fn rename(&mut self, from: &PathBuf, to: &PathBuf) -> io::Result<()>
        ensures renamed { OnOk result (Follows after self.old (Renames (path_buf_bytes from.now) (path_buf_bytes to.now) ∷ []) self.new) }
        ensures kept { OnErr result (Keeps after self.old self.new) }
        ensures refused { IfErr result (λ error. Self.fails self.new (path_buf_bytes to.now) (error_kind error)) };

    /// Takes a file's name away.
    fn unlink(&mut self, place: &PathBuf) -> io::Result<()>
        ensures unlinked { OnOk result (Follows after self.old (Unlinks (path_buf_bytes place.now) ∷ []) self.new) }
        ensures kept { OnErr result (Keeps after self.old self.new) }
        ensures refused { IfErr result (λ error. Self.fails self.new (path_buf_bytes place.now) (error_kind error)) };

    /// Waits until the names in a directory are on the disk.
    fn sync_names(&mut self, place: &PathBuf) -> io::Result<()>
        ensures waited { Follows after self.old (Syncs (path_buf_bytes place.now) (answer_of error_kind result) ∷ []) self.new }
        ensures refused { IfErr result (λ error. Self.fails self.new (path_buf_bytes place.now) (error_kind error)) };
}
