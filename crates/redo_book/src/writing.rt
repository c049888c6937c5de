//! The text of a book, written line by line. Nothing here allocates, so the records of a book needn't stand in memory
//! together, nor the entries of one.

ghost use Rattle.std.specs.Prelude.{◌≡◌, ◌++◌, ◌∷◌, [], codes, false, is_err, map};
ghost use Rattle.redo_bundle.specs.Bundle.{Writes};
ghost use Rattle.redo_book.specs.declared.book.BookEntry.TheVariants.{Always, Change, Create};
ghost use Rattle.redo_book.specs.Book.{entry_line, record_lines, record_of, state_text};
ghost use Rattle.redo_book.specs.Book.{target_line, text_of};

use crate::{BookEntry, BookRecord};
use redo_bundle::{Broken, ByteOut, write_all, write_parts};
use redo_digest::Digest;
use redo_path::Path;

/// Writes a `target` line, the first of a record.
pub fn write_target<W: ByteOut>(
    out: &mut W,
    target: &Path,
    state: &Option<Digest>,
) -> Result<(), Broken>
    requires { W.has_failed out.old ≡ false }
    ensures writes { Writes (W.held out.old) (W.held out.new) result (target_line state.now target.now ++ 10 ∷ []) }
    ensures failed { W.has_failed out.new ≡ is_err result }
{
    write_stated(out, b"target ", state, target)
}

/// Writes a `change` line: a path that was depended on, and its state.
pub fn write_change<W: ByteOut>(
    out: &mut W,
    state: &Option<Digest>,
    path: &Path,
) -> Result<(), Broken>
    requires { W.has_failed out.old ≡ false }
    ensures writes { Writes (W.held out.old) (W.held out.new) result
        (entry_line (Change state.now path.now) ++ 10 ∷ []) }
    ensures failed { W.has_failed out.new ≡ is_err result }
{
    write_stated(out, b"change ", state, path)
}

/// Writes a `create` line.
pub fn write_create<W: ByteOut>(out: &mut W, path: &Path) -> Result<(), Broken>
    requires { W.has_failed out.old ≡ false }
    ensures writes { Writes (W.held out.old) (W.held out.new) result (entry_line (Create path.now) ++ 10 ∷ []) }
    ensures failed { W.has_failed out.new ≡ is_err result }
{
    write_parts(out, &[b"create ", path.text(), b"\n"])
}

/// Writes an `always` line.
pub fn write_always<W: ByteOut>(out: &mut W) -> Result<(), Broken>
    requires { W.has_failed out.old ≡ false }
    ensures writes { Writes (W.held out.old) (W.held out.new) result (entry_line Always ++ 10 ∷ []) }
    ensures failed { W.has_failed out.new ≡ is_err result }
{
    write_all(out, b"always\n")
}

/// Writes the lines of a record.
pub fn write_record<W: ByteOut>(out: &mut W, record: &BookRecord) -> Result<(), Broken>
    requires { W.has_failed out.old ≡ false }
    ensures writes { Writes (W.held out.old) (W.held out.new) result
        (text_of (record_lines (record_of «record».now))) }
    ensures failed { W.has_failed out.new ≡ is_err result }
{
    write_target(out, &record.target, &record.state)?;
    write_entries(out, &record.entries)
}

/// Writes the last line of a book.
pub fn write_end<W: ByteOut>(out: &mut W) -> Result<(), Broken>
    requires { W.has_failed out.old ≡ false }
    ensures writes { Writes (W.held out.old) (W.held out.new) result (codes "end\n") }
    ensures failed { W.has_failed out.new ≡ is_err result }
{
    write_all(out, b"end\n")
}

/// Writes the lines of entries.
fn write_entries<W: ByteOut>(out: &mut W, entries: &[BookEntry]) -> Result<(), Broken>
    requires { W.has_failed out.old ≡ false }
    ensures writes { Writes (W.held out.old) (W.held out.new) result (text_of (map entry_line entries.now)) }
    ensures failed { W.has_failed out.new ≡ is_err result }
{
    for entry in entries {
        write_entry(out, entry)?;
    }
    Ok(())
}

/// Writes the line of an entry.
fn write_entry<W: ByteOut>(out: &mut W, entry: &BookEntry) -> Result<(), Broken>
    requires { W.has_failed out.old ≡ false }
    ensures writes { Writes (W.held out.old) (W.held out.new) result (entry_line entry.now ++ 10 ∷ []) }
    ensures failed { W.has_failed out.new ≡ is_err result }
{
    match entry {
        BookEntry::Change(state, path) => write_change(out, state, path),
        BookEntry::Create(path) => write_create(out, path),
        BookEntry::Always => write_always(out),
    }
}

/// Writes a line of a word with its space, a state and a path.
fn write_stated<W: ByteOut>(
    out: &mut W,
    word: &[u8],
    state: &Option<Digest>,
    path: &Path,
) -> Result<(), Broken>
    requires { W.has_failed out.old ≡ false }
    ensures writes { Writes (W.held out.old) (W.held out.new) result
        (word.now ++ state_text state.now ++ 32 ∷ path.now ++ 10 ∷ []) }
    ensures failed { W.has_failed out.new ≡ is_err result }
{
    match state {
        Some(digest) => {
            let digits = digest.digits();
            write_parts(out, &[word, &digits, b" ", path.text(), b"\n"])
        }
        None => write_parts(out, &[word, b"none ", path.text(), b"\n"]),
    }
}
