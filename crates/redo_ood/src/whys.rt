//! Why a target is listed, in words.

ghost use Rattle.std.specs.Prelude.{◌≡◌, ◌++◌, IfOk};
ghost use Rattle.redo_why.specs.OutOfDate.{entry_path};
ghost use Rattle.redo_explain.specs.Words.{entry_words};
ghost use Rattle.redo_which.specs.Rule.{found_of};
ghost use Rattle.redo_ood.specs.Listing.{why_words};
ghost use Rattle.redo_ood.specs.inside.Lines.{why_in, word_as};

use crate::words::Word;
use redo_book::BookEntry;
use redo_explain::{change_words, create_words};
use redo_path::Path;
use redo_tree::Tree;
use redo_which::lookup;
use std::alloc::{AllocError, Global};

/// Why a target is listed: a path, and the words before and after it.
#[derive(Clone, Copy)]
struct Why<'a> {
    before: &'a [u8],
    path: &'a [u8],
    after: &'a [u8],
}

/// Words alone.
fn words<'a>(text: &'a [u8]) -> Why<'a>
    ensures { why_in result ≡ text.entry.now }
{
    Why {
        before: b"",
        path: b"",
        after: text,
    }
}

/// A path, and what has become of it.
fn of_path<'a>(path: &'a Path, after: &'a [u8]) -> Why<'a>
    ensures { why_in result ≡ path.entry.now ++ after.entry.now }
{
    Why {
        before: b"",
        path: path.text(),
        after,
    }
}

/// The path of an entry; none of `always`.
fn path_of(entry: &BookEntry) -> &[u8]
    ensures { result.now ≡ entry_path entry.entry.now }
{
    match entry {
        BookEntry::Change(_, path) | BookEntry::Create(path) => path.text(),
        BookEntry::Always => b"",
    }
}

/// Why an entry isn't so any more.
fn why_fallen<'a>(
    alloc: Global,
    sources: &Tree,
    entry: &'a BookEntry,
) -> Result<Why<'a>, AllocError>
    ensures { IfOk result (λ why. why_in why ≡ entry_words (found_of sources.now) entry.entry.now) }
{
    match entry {
        BookEntry::Change(_, path) => {
            let found = lookup::find(alloc, sources, path)?;
            Ok(of_path(path, change_words(&found)))
        }
        BookEntry::Create(path) => {
            let found = lookup::find(alloc, sources, path)?;
            Ok(of_path(path, create_words(&found)))
        }
        BookEntry::Always => Ok(words(b"it is made in each run")),
    }
}

/// Why a target is listed.
fn why_of<'a>(alloc: Global, sources: &Tree, word: Word<'a>) -> Result<Why<'a>, AllocError>
    ensures { IfOk result (λ why. why_in why ≡ why_words sources.now (word_as word.entry).1 (word_as word.entry).0) }
{
    match word {
        Word::Altered => Ok(words(b"its file is gone")),
        Word::Fallen(entry) => Ok(why_fallen(alloc, sources, entry)?),
        Word::Maybe(entry) => Ok(Why {
            before: b"",
            path: path_of(entry),
            after: b" may come out otherwise",
        }),
        Word::Ring(entry) => Ok(Why {
            before: b"it waits for ",
            path: path_of(entry),
            after: b", which waits for itself or a ring",
        }),
        Word::Lost => Ok(words(b"no rule makes it any more")),
    }
}

/// Why a target is listed, as a text.
pub(crate) fn why_text(alloc: Global, sources: &Tree, word: Word<'_>) -> Result<Vec<u8>, AllocError>
    ensures { IfOk result (λ text.
        text.items ≡ why_words sources.now (word_as word.entry).1 (word_as word.entry).0) }
{
    let why = why_of(alloc, sources, word)?;
    let mut text = Vec::new(alloc);
    text.extend_from_slice(why.before)?;
    text.extend_from_slice(why.path)?;
    text.extend_from_slice(why.after)?;
    Ok(text)
}
