//! The lines of notes.

ghost use Rattle.std.specs.Prelude.{◌≡◌, ◌-◌, ◌++◌, IfOk, OnOk, codes, decimal, flat_map, length, string_bytes, take};
ghost use Rattle.redo_notes.specs.Texts.{help_text, known_text, known_words, more_line, note_lines, ruleless_line, some_lines, shadowed_line, unbuilt_line, unmade_line};

use crate::kinds::{Notes, Unbuilt};
use redo_path::Path;
use std::alloc::{AllocError, Global};

/// What is said of a source that has a rule, before the name of the rule's .do file.
const UNBUILT: &[u8] =
    b", so it counts as yours and isn't built; remove it, or build with --take, to have ";

/// What is said of a target that was built without a file.
const UNMADE: &[u8] = b": it was built without a file now, but the file of an earlier run stays; \
    remove it, or it counts as yours from the next run on\n";

/// What is said of a target without a rule.
const RULELESS: &[u8] = b": no rule makes it any more, and its file stays; \
    remove it, or it counts as yours from the next run on\n";

/// The first of some notes, at most so many.
fn first<T>(notes: &[T], most: usize) -> &[T]
    ensures { result.now ≡ take most notes.now }
{
    if notes.len() <= most {
        return notes;
    }
    &notes[..most]
}

/// The words for so many notes that aren't shown.
fn words_of_more(alloc: Global, count: usize) -> Result<String, AllocError>
    ensures { IfOk result (λ words. string_bytes words ≡ codes "and " ++ decimal count ++ codes " more like it\n") }
{
    format!(in alloc; "and {count} more like it\n")
}

/// Adds how many notes of a kind aren't shown, if any.
fn push_more(alloc: Global, text: &mut Vec<u8>, count: usize, most: usize) -> Result<(), AllocError>
    ensures { OnOk result (text.new.items ≡ text.old.items ++ more_line (count - most)) }
{
    if count <= most {
        return Ok(());
    }
    let words = words_of_more(alloc, count - most)?;
    text.extend_from_slice(words.as_bytes())
}

/// Adds words.
fn push_words(text: &mut Vec<u8>, words: &[u8]) -> Result<(), AllocError>
    ensures { OnOk result (text.new.items ≡ text.old.items ++ words.now) }
{
    text.extend_from_slice(words)
}

/// Adds a path and what is said of it.
fn push_said(text: &mut Vec<u8>, path: &Path, said: &[u8]) -> Result<(), AllocError>
    ensures { OnOk result (text.new.items ≡ text.old.items ++ path.now ++ said.now) }
{
    text.extend_from_slice(path.text())?;
    text.extend_from_slice(said)?;
    Ok(())
}

/// What the book tells of a source that has a rule.
fn words_of_known(recorded: bool) -> &'static [u8]
    ensures { result.now ≡ known_words recorded }
{
    if recorded {
        b": it isn't as the last run left it"
    } else {
        b": the book has no record of it"
    }
}

/// Adds a source that has a rule, and what the book tells of it.
fn push_known(text: &mut Vec<u8>, note: &Unbuilt) -> Result<(), AllocError>
    ensures { OnOk result (text.new.items ≡ text.old.items ++ known_text note.now) }
{
    text.extend_from_slice(note.path.text())?;
    text.extend_from_slice(words_of_known(note.recorded))
}

/// Adds what that means, and what to do.
fn push_help(text: &mut Vec<u8>, note: &Unbuilt) -> Result<(), AllocError>
    ensures { OnOk result (text.new.items ≡ text.old.items ++ help_text note.now) }
{
    push_words(text, UNBUILT)?;
    push_said(text, &note.do_file, b" make it\n")?;
    Ok(())
}

/// Adds the line of a source that has a rule.
fn push_unbuilt(text: &mut Vec<u8>, note: &Unbuilt) -> Result<(), AllocError>
    ensures { OnOk result (text.new.items ≡ text.old.items ++ unbuilt_line note.now) }
{
    push_known(text, note)?;
    push_help(text, note)
}

/// Adds the line of a target that was built without a file.
fn push_unmade(text: &mut Vec<u8>, path: &Path) -> Result<(), AllocError>
    ensures { OnOk result (text.new.items ≡ text.old.items ++ unmade_line path.now) }
{
    push_said(text, path, UNMADE)?;
    Ok(())
}

/// Adds the line of a target without a rule.
fn push_ruleless(text: &mut Vec<u8>, path: &Path) -> Result<(), AllocError>
    ensures { OnOk result (text.new.items ≡ text.old.items ++ ruleless_line path.now) }
{
    push_said(text, path, RULELESS)?;
    Ok(())
}

/// Adds the lines of some sources that have rules.
fn push_all_unbuilt(text: &mut Vec<u8>, notes: &[Unbuilt]) -> Result<(), AllocError>
    ensures { OnOk result (text.new.items ≡ text.old.items ++ flat_map unbuilt_line notes.now) }
{
    for note in notes {
        push_unbuilt(text, note)?;
    }
    Ok(())
}

/// Adds the lines of some targets that were built without a file.
fn push_all_unmade(text: &mut Vec<u8>, paths: &[Path]) -> Result<(), AllocError>
    ensures { OnOk result (text.new.items ≡ text.old.items ++ flat_map unmade_line paths.now) }
{
    for path in paths {
        push_unmade(text, path)?;
    }
    Ok(())
}

/// Adds the lines of some targets without rules.
fn push_all_ruleless(text: &mut Vec<u8>, paths: &[Path]) -> Result<(), AllocError>
    ensures { OnOk result (text.new.items ≡ text.old.items ++ flat_map ruleless_line paths.now) }
{
    for path in paths {
        push_ruleless(text, path)?;
    }
    Ok(())
}

/// The lines of notes, at most so many of each kind. Of those that aren't shown it is said how many they are.
pub fn text_of(alloc: Global, notes: &Notes, most: usize) -> Result<Vec<u8>, AllocError>
    ensures { IfOk result (λ text. text.items ≡ note_lines notes.now most) }
{
    let mut text = Vec::new(alloc);
    push_all_unbuilt(&mut text, first(&notes.unbuilt, most))?;
    push_more(alloc, &mut text, notes.unbuilt.len(), most)?;
    push_all_unmade(&mut text, first(&notes.unmade, most))?;
    push_more(alloc, &mut text, notes.unmade.len(), most)?;
    push_all_ruleless(&mut text, first(&notes.ruleless, most))?;
    push_more(alloc, &mut text, notes.ruleless.len(), most)?;
    Ok(text)
}

/// Adds the line of a path.
fn push_path(text: &mut Vec<u8>, path: &Path) -> Result<(), AllocError>
    ensures { OnOk result (text.new.items ≡ text.old.items ++ shadowed_line path.now) }
{
    text.extend_from_slice(path.text())?;
    text.extend_from_slice(b"\n")?;
    Ok(())
}

/// Paths, one a line.
pub fn text_of_shadowed(alloc: Global, paths: &[Path]) -> Result<Vec<u8>, AllocError>
    ensures { IfOk result (λ text. text.items ≡ flat_map shadowed_line paths.now) }
{
    let mut text = Vec::new(alloc);
    for path in paths {
        push_path(&mut text, path)?;
    }
    Ok(text)
}
