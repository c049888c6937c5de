//! The sizes in bytes of the lines of a book, with their newlines, before they are written. Of a state only one thing
//! matters, whether it is that of a file: no digest is made.

ghost use Rattle.std.specs.Prelude.{◌≡◌, ◌≤◌, ◌^◌, ◌++◌, ◌∷◌, [], IfOk, OnErr, is_some, length};
ghost use Rattle.redo_digest.specs.Digest.{IsState, State};
ghost use Rattle.redo_book.specs.declared.book.BookEntry.TheVariants.{Always, Change, Create};
ghost use Rattle.redo_book.specs.Book.{entry_line, record_lines, record_of, state_text, target_line, text_of};

use crate::{BookEntry, BookRecord};
use redo_digest::{DIGITS, Digest};
use redo_path::Path;
use redo_which::add_sizes;
use std::alloc::AllocError;

/// The size of a `target` line, given whether the target made a file.
pub fn target_size(has_file: bool, target: &Path) -> usize
    ensures { (state : State) → IsState state → is_some state ≡ has_file →
        result ≡ length (target_line state target.now ++ 10 ∷ []) }
{
    b"target ".len() + stated_size(has_file, target)
}

/// The size of a `change` line, given whether a file is at the path.
pub fn change_size(has_file: bool, path: &Path) -> usize
    ensures { (state : State) → IsState state → is_some state ≡ has_file →
        result ≡ length (entry_line (Change state path.now) ++ 10 ∷ []) }
{
    b"change ".len() + stated_size(has_file, path)
}

/// The size of a `create` line.
pub fn create_size(path: &Path) -> usize
    ensures { result ≡ length (entry_line (Create path.now) ++ 10 ∷ []) }
{
    b"create \n".len() + path.text().len()
}

/// The size of an `always` line.
pub fn always_size() -> usize
    ensures { result ≡ length (entry_line Always ++ 10 ∷ []) }
{
    b"always\n".len()
}

/// The size of the lines of a record. It fails on overflow, since such lines fit into no memory.
pub fn record_size(record: &BookRecord) -> Result<usize, AllocError>
    ensures size { IfOk result (λ n. n ≡ length (text_of (record_lines (record_of «record».now)))) }
    ensures refused { OnErr result (2 ^ 64 ≤ length (text_of (record_lines (record_of «record».now)))) }
{
    let mut size = target_size(is_of_file(&record.state), &record.target);
    for entry in &record.entries {
        size = add_sizes(size, entry_size(entry))?;
    }
    Ok(size)
}

/// The size of the line of an entry.
fn entry_size(entry: &BookEntry) -> usize
    ensures { result ≡ length (entry_line entry.now ++ 10 ∷ []) }
{
    match entry {
        BookEntry::Change(state, path) => change_size(is_of_file(state), path),
        BookEntry::Create(path) => create_size(path),
        BookEntry::Always => always_size(),
    }
}

/// Whether a state is that of a file. Calling `bytes` brings the digest's invariant into the proof.
fn is_of_file(state: &Option<Digest>) -> bool
    ensures told { result ≡ is_some state.now }
    ensures state { IsState state.now }
{
    match state {
        Some(digest) => !digest.bytes().is_empty(),
        None => false,
    }
}

/// The size of a state, a path and a newline, as they follow the first word of a line.
fn stated_size(has_file: bool, path: &Path) -> usize
    ensures size { (state : State) → IsState state → is_some state ≡ has_file →
        result ≡ length (state_text state ++ 32 ∷ path.now ++ 10 ∷ []) }
    ensures bound { result ≤ 1090 }
{
    state_size(has_file) + b" \n".len() + path.text().len()
}

/// The size of a state's text.
fn state_size(has_file: bool) -> usize
    ensures size { (state : State) → IsState state → is_some state ≡ has_file → result ≡ length (state_text state) }
    ensures bound { result ≤ 64 }
{
    if has_file { DIGITS } else { b"none".len() }
}
