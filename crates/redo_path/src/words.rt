//! Resolves a word relative to a directory, part by part, as a shell does.
//!
//! If a word is relative to the top directory and all its parts are names, it is a path's text already and is copied as
//! it is. Any other word is built up in a buffer that starts with room for the whole of it, but for at most 1,024 bytes;
//! `.` and `..` in the word leave part of it unused.

ghost use Rattle.std.specs.Prelude.{◌≡◌, ◌↔◌, Err, IfErr, IfOk, IsOk, IsTrue, MatchOption, None, position};
ghost use Rattle.std.specs.List.{AllByRecursion};
ghost use Rattle.redo_path.specs.declared.PathFault.TheVariants.{Memory};
ghost use Rattle.redo_path.specs.Names.{IsName, IsPart, child_of, is_control, names, parts};
ghost use Rattle.redo_path.specs.Resolve.{Answers, resolved, step, up_from, within_limit, word_fault};
ghost use Rattle.redo_path.specs.inside.Walking.{Leads};

use crate::text::name_start;
use crate::{LONGEST_NAME, LONGEST_PATH, Path, PathFault, share};
use std::alloc::{AllocError, Global};

/// Goes up to the parent directory.
fn leave(text: &mut Vec<u8>) -> Result<(), PathFault>
    requires { AllByRecursion IsName (names text.old.items) }
    ensures { Leads result (names text.new.items) (up_from (names text.old.items)) }
{
    if text.is_empty() {
        return Err(PathFault::Above);
    }
    let end = name_start(text).saturating_sub(1);
    text.truncate(end);
    Ok(())
}

/// Goes down to a name in this directory.
fn enter(text: &mut Vec<u8>, name: &[u8]) -> Result<(), PathFault>
    ensures entered { IfOk result (λ _. text.new.items ≡ child_of text.old.items name.now) }
    ensures memory { IfErr result (λ fault. fault ≡ Memory) }
{
    if !text.is_empty() {
        text.push(b'/')?;
    }
    text.extend_from_slice(name)?;
    Ok(())
}

/// Follows one part of a word from the path with this text.
fn follow(text: &mut Vec<u8>, part: &[u8]) -> Result<(), PathFault>
    requires names { AllByRecursion IsName (names text.old.items) }
    requires part { IsPart part.now }
    ensures step { Leads result (names text.new.items) (step (names text.old.items) part.now) }
    ensures names { IfOk result (λ _. AllByRecursion IsName (names text.new.items)) }
{
    if part.is_empty() || part == b".".as_slice() {
        return Ok(());
    }
    if part == b"..".as_slice() {
        return leave(text);
    }
    if part.len() > LONGEST_NAME {
        return Err(PathFault::LongName);
    }
    enter(text, part)
}

/// Refuses a word that names no path, whatever directory it is relative to.
fn check_word(word: &[u8]) -> Result<(), PathFault>
    ensures { MatchOption (word_fault word.now) (IsOk result) (λ fault. result ≡ Err fault) }
{
    match word.first() {
        None => return Err(PathFault::Empty),
        Some(b'/') => return Err(PathFault::Absolute),
        Some(_) => {}
    }
    match control_place(word) {
        Some(place) => Err(PathFault::BadByte(place)),
        None => Ok(()),
    }
}

/// The offset of the first control byte.
fn control_place(bytes: &[u8]) -> Option<usize>
    ensures { result ≡ position is_control bytes.now }
{
    bytes.iter().position(|byte| *byte < 32 || *byte == 127)
}

/// The path that a word names relative to `base`. An empty part or `.` changes nothing, and `..` goes up. No disk is
/// read.
///
/// Faults are reported in this order: the word is empty; it begins with a slash; it has a control byte, wherever it is.
/// Next comes the first part that leads above the top directory or has more than 255 bytes, and last a path of more
/// than 1,024 bytes. Bytes from 128 on are allowed.
pub fn resolve(alloc: Global, base: &Path, word: &[u8]) -> Result<Path, PathFault>
    ensures { Answers result (resolved base.now word.now) }
{
    check_word(word)?;
    if base.text().is_empty() && are_names(word) {
        return spelled(alloc, word);
    }
    follow_word(alloc, base, word)
}

/// Whether each part of a word is a name, as it is for nearly all words of a build.
fn are_names(word: &[u8]) -> bool
    requires { word_fault word.now ≡ None }
    ensures { IsTrue result ↔ AllByRecursion IsName (parts word.now) }
{
    for part in word.split(|byte| *byte == b'/') {
        if !is_name(part) {
            return false;
        }
    }
    true
}

/// Whether a part of a word names an entry of a directory.
fn is_name(part: &[u8]) -> bool
    requires { IsPart part.now }
    ensures { IsTrue result ↔ IsName part.now }
{
    match part {
        [] | [b'.'] | [b'.', b'.'] => false,
        name => name.len() <= LONGEST_NAME,
    }
}

/// The path whose text is the word, unless it is too long.
fn spelled(alloc: Global, word: &[u8]) -> Result<Path, PathFault>
    requires { AllByRecursion IsName (names word.now) }
    ensures { Answers result (within_limit word.now) }
{
    if word.len() > LONGEST_PATH {
        return Err(PathFault::LongPath);
    }
    Ok(Path::of_text(alloc, word)?)
}

/// Follows a word from a directory, part by part.
fn follow_word(alloc: Global, base: &Path, word: &[u8]) -> Result<Path, PathFault>
    requires { word_fault word.now ≡ None }
    ensures { Answers result (resolved base.now word.now) }
{
    let mut text = with_room(alloc, base.text(), word.len().saturating_add(1))?;
    for part in word.split(|byte| *byte == b'/') {
        follow(&mut text, part)?;
    }
    finish(text)
}

/// A copy of a text with room for `more` bytes, but at most for the longest path.
fn with_room(alloc: Global, text: &[u8], more: usize) -> Result<Vec<u8>, AllocError>
    ensures { IfOk result (λ copy. copy.items ≡ text.now) }
{
    let room = text.len().saturating_add(more).min(LONGEST_PATH);
    let mut copy = Vec::with_capacity(alloc, room)?;
    copy.extend_from_slice(text)?;
    Ok(copy)
}

/// The path with this text, unless it is too long.
fn finish(text: Vec<u8>) -> Result<Path, PathFault>
    requires { AllByRecursion IsName (names text.items) }
    ensures { Answers result (within_limit text.items) }
{
    if text.len() > LONGEST_PATH {
        return Err(PathFault::LongPath);
    }
    Ok(share(text)?)
}
