//! A tree's directories and files, made in a directory that has none.

ghost use Rattle.std.specs.Prelude.{◌≡◌, ◌++◌, ◌∷◌, ◌↔◌, [], IfErr, IfOk, IsTrue, IsUtf8, MatchOption, OnErr, OnOk};
ghost use Rattle.std.specs.IoError.{error_kind};
ghost use Rattle.redo_tree.specs.Tree.{File, file_at, node_of};
ghost use Rattle.redo_which.specs.Candidates.{book_path as path_of_book};
ghost use Rattle.redo_pack.specs.Unpacks.{Halts, HasTexts, IsFirstNoText, IsUnmade, Stops, book_entry, in_turn};
ghost use Rattle.redo_pack.specs.Unpacks.{is_book as is_the_book, is_top as is_the_top, others};

use crate::making::Making;
use redo_path::Path;
use redo_tree::{Content, Entry, Tree};
use redo_which::BOOK;
use std::alloc::{AllocError, Global};
use std::io;
use std::io::ErrorKind;

/// Why a tree isn't unpacked to its end.
#[derive(Debug, Drop)]
pub enum UnpackFault {
    /// The system refused a call at this path, and said this. What comes before the path in its turn was made. Or the
    /// path is no text, which is `InvalidFilename`: then nothing was made.
    Device(Path, ErrorKind),
    /// Memory ran out.
    Memory,
}

impl From<AllocError> for UnpackFault {
    ghost use Rattle.redo_pack.specs.declared.unpacking.UnpackFault.TheVariants.{Memory};

    ghost from_gives = { λ _ fault. fault ≡ Memory };

    fn from(_error: AllocError) -> UnpackFault {
        UnpackFault::Memory
    }
}

/// Whether a path is text.
fn is_text(path: &Path) -> bool
    ensures { IsTrue result ↔ IsUtf8 path.now }
{
    str::from_utf8(path.text()).is_ok()
}

/// The first path of a tree, in path order, that is no text, if there is one.
fn first_no_text(alloc: Global, tree: &Tree) -> Result<Option<Path>, AllocError>
    ensures { IfOk result (λ found. MatchOption found (HasTexts tree.now) (IsFirstNoText tree.now)) }
{
    let entries = tree.in_order(alloc)?.into_iter();
    for (path, _entry) in entries {
        if !is_text(path) {
            return Ok(Some(path.clone()?));
        }
    }
    Ok(None)
}

/// The path of the book.
fn book_path(alloc: Global) -> Result<Path, AllocError>
    ensures { IfOk result (λ path. path ≡ path_of_book) }
{
    Path::of_text(alloc, BOOK)
}

/// Whether it is the path of the top directory, which stands already.
fn is_top(path: &Path) -> bool
    ensures { result ≡ is_the_top path.now }
{
    path.text().is_empty()
}

/// Whether an entry is the book.
fn is_book(path: &Path, entry: &Entry) -> bool
    ensures { result ≡ is_the_book (path.now, node_of entry.now) }
{
    match entry {
        Entry::Directory => false,
        Entry::File(_) => path.text() == BOOK,
    }
}

/// Makes a file, which gets its name when it is whole.
fn make_file<D: Making>(
    alloc: Global,
    dir: &mut D,
    path: &Path,
    content: &Content,
) -> io::Result<()>
    ensures made { OnOk result (D.made dir.new ≡ D.made dir.old ++ (path.now, File content.now) ∷ []) }
    ensures kept { OnErr result (D.made dir.new ≡ D.made dir.old) }
    ensures refused { IfErr result (λ error. D.refuses dir.old path.now (error_kind error)) }
{
    let draft = dir.draft(alloc, path, content)?;
    dir.put(draft)
}

/// Makes what a tree has at a path.
fn make<D: Making>(alloc: Global, dir: &mut D, path: &Path, entry: &Entry) -> io::Result<()>
    ensures made { OnOk result (D.made dir.new ≡ D.made dir.old ++ (path.now, node_of entry.now) ∷ []) }
    ensures kept { OnErr result (D.made dir.new ≡ D.made dir.old) }
    ensures refused { IfErr result (λ error. D.refuses dir.old path.now (error_kind error)) }
{
    match entry {
        Entry::Directory => dir.make_dir(alloc, path),
        Entry::File(content) => make_file(alloc, dir, path, content),
    }
}

/// The fault of a call at a path that the system refused.
fn unmade(path: &Path, kind: ErrorKind) -> UnpackFault
    ensures { IsUnmade result path.now kind }
{
    match kind {
        ErrorKind::OutOfMemory => UnpackFault::Memory,
        kind => match path.clone() {
            Ok(path) => UnpackFault::Device(path, kind),
            Err(_) => UnpackFault::Memory,
        },
    }
}

/// Makes all but the book, in path order.
fn make_others<D: Making>(alloc: Global, dir: &mut D, tree: &Tree) -> Result<(), UnpackFault>
    ensures made { OnOk result (D.made dir.new ≡ D.made dir.old ++ others tree.now) }
    ensures stops { IfErr result (Halts (λ path kind. (d : D) × D.refuses d path kind) (others tree.now)
        (D.made dir.old) (D.made dir.new)) }
{
    let entries = tree.in_order(alloc)?.into_iter();
    for (path, entry) in entries {
        if is_top(path) || is_book(path, entry) {
            continue;
        }
        if let Err(error) = make(alloc, dir, path, entry) {
            return Err(unmade(path, error.kind()));
        }
    }
    Ok(())
}

/// Makes the book, if the tree has one.
fn make_book<D: Making>(alloc: Global, dir: &mut D, tree: &Tree) -> Result<(), UnpackFault>
    ensures made { OnOk result (D.made dir.new ≡ D.made dir.old ++ book_entry (file_at tree.now path_of_book)) }
    ensures stops { IfErr result (Halts (λ path kind. (d : D) × D.refuses d path kind)
        (book_entry (file_at tree.now path_of_book)) (D.made dir.old) (D.made dir.new)) }
{
    let path = book_path(alloc)?;
    let Some(content) = tree.content(&path) else {
        return Ok(());
    };
    if let Err(error) = make_file(alloc, dir, &path, content) {
        return Err(unmade(&path, error.kind()));
    }
    Ok(())
}

/// Makes the directories and files of a tree, in path order, so that a directory comes before what is in it, but the
/// book behind all others: a directory that has it has all. It stops at the first that the system refuses. Where a path
/// is no text, nothing is made.
pub fn unpack<D: Making>(alloc: Global, dir: &mut D, tree: &Tree) -> Result<(), UnpackFault>
    ensures texts { OnOk result (HasTexts tree.now) }
    ensures made { OnOk result (D.made dir.new ≡ D.made dir.old ++ in_turn tree.now) }
    ensures stops { IfErr result (Stops (λ path kind. (d : D) × D.refuses d path kind) tree.now
        (D.made dir.old) (D.made dir.new)) }
{
    if let Some(path) = first_no_text(alloc, tree)? {
        return Err(UnpackFault::Device(path, ErrorKind::InvalidFilename));
    }
    make_others(alloc, dir, tree)?;
    make_book(alloc, dir, tree)
}
