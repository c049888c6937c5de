//! What is told of a record, or of a path without one, as a list has it.

ghost use Rattle.std.specs.Prelude.{◌≡◌, ◌++◌, OnOk, map, option_map};
ghost use Rattle.redo_list.specs.Lists.{listed_view};
ghost use Rattle.redo_ood.specs.Listing.{as_listed, state_by};
ghost use Rattle.redo_ood.specs.inside.Lines.{listed_told, unrecorded_in, word_as};

use crate::whys::why_text;
use crate::words::Word;
use redo_list::{Listed, State};
use redo_names::PathSet;
use redo_past::has_rule;
use redo_path::Path;
use redo_tree::Tree;
use std::alloc::{AllocError, Global};

/// The state that a word tells.
fn state_of(word: Word<'_>) -> State
    ensures { result ≡ state_by (word_as word.entry).0 }
{
    match word {
        Word::Altered | Word::Fallen(_) => State::Stale,
        Word::Maybe(_) => State::Maybe,
        Word::Ring(_) => State::Ring,
        Word::Lost => State::Lost,
    }
}

/// Adds a target, if anything is told of it.
pub(crate) fn push_told(
    alloc: Global,
    listed: &mut Vec<Listed>,
    sources: &Tree,
    target: &Path,
    word: Option<Word<'_>>,
) -> Result<(), AllocError>
    ensures { OnOk result (map listed_view listed.new.items ≡
        map listed_view listed.old.items ++ listed_told sources.now target.now (option_map word_as word.entry)) }
{
    let Some(word) = word else {
        return Ok(());
    };
    let why = why_text(alloc, sources, word)?;
    listed.push(Listed {
        target: target.clone()?,
        state: state_of(word),
        why,
    })?;
    Ok(())
}

/// Adds a path, with its state and why it is listed.
fn push_listed(
    alloc: Global,
    listed: &mut Vec<Listed>,
    path: &Path,
    state: State,
    words: &[u8],
) -> Result<(), AllocError>
    ensures { OnOk result (map listed_view listed.new.items ≡
        map listed_view listed.old.items ++ as_listed path.now state words.now) }
{
    let mut why = Vec::new(alloc);
    why.extend_from_slice(words)?;
    listed.push(Listed {
        target: path.clone()?,
        state,
        why,
    })?;
    Ok(())
}

/// Adds a path without a record, if it is listed, in a run that requests these paths.
pub(crate) fn push_unrecorded(
    alloc: Global,
    listed: &mut Vec<Listed>,
    sources: &Tree,
    requested: &PathSet,
    path: &Path,
) -> Result<(), AllocError>
    ensures { OnOk result (map listed_view listed.new.items ≡
        map listed_view listed.old.items ++ unrecorded_in sources.now requested.now path.now) }
{
    if sources.content(path).is_some() {
        return Ok(());
    }
    if has_rule(alloc, sources, path)? {
        push_listed(
            alloc,
            listed,
            path,
            State::New,
            b"the book has no record of it",
        )?;
        return Ok(());
    }
    if requested.contains(path) {
        push_listed(
            alloc,
            listed,
            path,
            State::Unknown,
            b"it is no file, and no rule makes it",
        )?;
    }
    Ok(())
}
