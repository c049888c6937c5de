//! Single lines of a book.

ghost use Rattle.std.specs.Prelude.{◌≡◌, MatchOption, drop, false, length, option_map, take, true};
ghost use Rattle.std.specs.Str.{bytes_eq};
ghost use Rattle.redo_book.specs.inside.Reading.{Finds, line_of, place_of, split_state as split_at_state, stated};

use crate::{BookEntry, BookFault};
use redo_digest::{DIGITS, Digest};
use redo_path::{Path, PathFault, resolve};
use std::alloc::Global;

/// A line other than the last one: that of a target, or of an entry of its record.
#[derive(Drop)]
pub(crate) enum Line {
    Target(Option<Digest>, Path),
    Entry(BookEntry),
}

/// Whether two texts are the same. The words and paths of a book are short: at such lengths a loop over the bytes costs
/// less than a comparison of slices, which is made for long ones.
fn are_same(text: &[u8], word: &[u8]) -> bool
    ensures { result ≡ bytes_eq text.now word.now }
{
    if text.len() != word.len() {
        return false;
    }
    for at in 0..word.len() {
        if text[at] != word[at] {
            return false;
        }
    }
    true
}

/// What follows a word at the start of a text, if that starts with it.
fn strip_word<'a>(text: &'a [u8], word: &[u8]) -> Option<&'a [u8]>
    ensures cases { MatchOption result (bytes_eq (take (length word.now) text.now) word.now ≡ false) (λ rest.
        (bytes_eq (take (length word.now) text.now) word.now ≡ true) × (rest.now ≡ drop (length word.now) text.now)) }
{
    let (front, rest) = text.split_at_checked(word.len())?;
    if are_same(front, word) {
        Some(rest)
    } else {
        None
    }
}

/// The path below the top directory with this text. If `like` is that path, the result is a clone of it.
fn read_path(
    alloc: Global,
    number: u64,
    word: &[u8],
    like: Option<&Path>,
) -> Result<Path, BookFault>
    ensures { Finds number result (place_of word.now) }
{
    match like {
        Some(path) if !word.is_empty() && are_same(path.text(), word) => Ok(path.clone()?),
        _ => resolve_path(alloc, number, word),
    }
}

/// The path below the top directory with this text, made anew.
fn resolve_path(alloc: Global, number: u64, word: &[u8]) -> Result<Path, BookFault>
    ensures { Finds number result (place_of word.now) }
{
    match resolve(alloc, &Path::root(), word) {
        Ok(path) => {
            if are_same(path.text(), word) {
                Ok(path)
            } else {
                Err(BookFault::Line(number))
            }
        }
        Err(PathFault::Memory) => Err(BookFault::Memory),
        Err(_) => Err(BookFault::Line(number)),
    }
}

/// The state after the first word of a line, and the word after the state.
fn split_state(words: &[u8]) -> Option<(Option<Digest>, &[u8])>
    ensures { option_map (λ s. (s.0, s.1.now)) result ≡ split_at_state words.now }
{
    if let Some(word) = strip_word(words, b"none ") {
        return Some((None, word));
    }
    let (digits, rest) = words.split_at_checked(DIGITS)?;
    let word = strip_word(rest, b" ")?;
    let digest = Digest::from_hex(digits)?;
    Some((Some(digest), word))
}

/// The state and the path after the first word of a line.
fn read_stated(
    alloc: Global,
    number: u64,
    words: &[u8],
    like: Option<&Path>,
) -> Result<(Option<Digest>, Path), BookFault>
    ensures { Finds number result (stated words.now) }
{
    match split_state(words) {
        Some((state, word)) => Ok((state, read_path(alloc, number, word, like)?)),
        None => Err(BookFault::Line(number)),
    }
}

/// What a line says. If it is an entry's and its path is `like`, the path is a clone of that.
pub(crate) fn read_line(
    alloc: Global,
    number: u64,
    line: &[u8],
    like: Option<&Path>,
) -> Result<Line, BookFault>
    ensures { Finds number result (line_of line.now) }
{
    if let Some(words) = strip_word(line, b"target ") {
        let (state, path) = read_stated(alloc, number, words, None)?;
        return Ok(Line::Target(state, path));
    }
    if let Some(words) = strip_word(line, b"change ") {
        let (state, path) = read_stated(alloc, number, words, like)?;
        return Ok(Line::Entry(BookEntry::Change(state, path)));
    }
    if let Some(word) = strip_word(line, b"create ") {
        let path = read_path(alloc, number, word, like)?;
        return Ok(Line::Entry(BookEntry::Create(path)));
    }
    if line == b"always".as_slice() {
        return Ok(Line::Entry(BookEntry::Always));
    }
    Err(BookFault::Line(number))
}
