//! The graph of a list.

ghost use Rattle.std.specs.Prelude.{◌≡◌, ◌++◌, List, ℕ, IfOk, OnOk, codes, flat_map, option_copied, option_map};
ghost use Rattle.redo_names.specs.Paths.{is_among};
ghost use Rattle.redo_book.specs.Book.{record_of};
ghost use Rattle.redo_dot.specs.Dot.{name_of};
ghost use Rattle.redo_dot.specs.Lists.{is_listed, list_graph, list_text, listed_edge, listed_lines};
ghost use Rattle.redo_dot.specs.Lists.{look_of_state as look_by, record_edges};

use crate::edges::{change_look, create_look, push_edge};
use crate::names::push_name;
use redo_book::{Book, BookEntry, BookRecord};
use redo_list::{Listed, State};
use redo_names::PathSet;
use redo_path::Path;
use std::alloc::{AllocError, Global};

/// The look of a target's node.
fn look_of_state(state: State) -> &'static [u8]
    ensures { result.now ≡ look_by state }
{
    match state {
        State::Stale | State::New => b" [shape=box color=black]",
        State::Maybe => b" [shape=box color=grey]",
        State::Ring => b" [shape=box color=orange]",
        State::Lost | State::Unknown => b" [shape=box color=red]",
    }
}

/// The set of some targets.
fn set_of(alloc: Global, targets: &[Listed]) -> Result<PathSet, AllocError>
    ensures { IfOk result (λ set. (p : List ℕ) → is_among set p ≡ is_listed targets.now p) }
{
    let mut set = PathSet::with_capacity(alloc, targets.len())?;
    for listed in targets {
        set.insert(listed.target.clone()?)?;
    }
    Ok(set)
}

/// Adds the line of a target's node.
fn push_node(text: &mut Vec<u8>, target: &Path, state: State) -> Result<(), AllocError>
    ensures { OnOk result (text.new.items ≡ text.old.items ++ (name_of target.now ++ look_by state ++ codes ";\n")) }
{
    push_name(text, target)?;
    text.extend_from_slice(look_of_state(state))?;
    text.extend_from_slice(b";\n")
}

/// Adds the line of an entry's edge, if it leads to one of the targets.
fn push_entry(
    text: &mut Vec<u8>,
    targets: &PathSet,
    target: &Path,
    entry: &BookEntry,
) -> Result<(), AllocError>
    ensures { OnOk result (text.new.items ≡ text.old.items ++
        listed_edge (is_among targets.now) target.now entry.now) }
{
    match entry {
        BookEntry::Change(_, path) if targets.contains(path) => {
            push_edge(text, target, path, change_look(false))
        }
        BookEntry::Create(path) if targets.contains(path) => {
            push_edge(text, target, path, create_look(false))
        }
        BookEntry::Change(..) | BookEntry::Create(_) | BookEntry::Always => Ok(()),
    }
}

/// Adds the lines of entries.
fn push_entries(
    text: &mut Vec<u8>,
    targets: &PathSet,
    target: &Path,
    entries: &[BookEntry],
) -> Result<(), AllocError>
    ensures { OnOk result (text.new.items ≡ text.old.items ++
        flat_map (listed_edge (is_among targets.now) target.now) entries.now) }
{
    for entry in entries {
        push_entry(text, targets, target, entry)?;
    }
    Ok(())
}

/// Adds the lines of a record, if there is one.
fn push_record(
    text: &mut Vec<u8>,
    targets: &PathSet,
    target: &Path,
    made: Option<&BookRecord>,
) -> Result<(), AllocError>
    ensures { OnOk result (text.new.items ≡ text.old.items ++
        record_edges (is_among targets.now) target.now (option_map record_of (option_copied made.entry))) }
{
    match made {
        Some(made) => push_entries(text, targets, target, &made.entries),
        None => Ok(()),
    }
}

/// Adds the lines of a target.
fn push_listed(
    text: &mut Vec<u8>,
    targets: &PathSet,
    book: &Book,
    listed: &Listed,
) -> Result<(), AllocError>
    ensures { OnOk result (text.new.items ≡ text.old.items ++
        listed_lines (is_among targets.now) book.now listed.now) }
{
    push_node(text, &listed.target, listed.state)?;
    push_record(text, targets, &listed.target, book.find(&listed.target))
}

/// Adds the lines of all targets.
fn push_all(
    text: &mut Vec<u8>,
    targets: &PathSet,
    book: &Book,
    list: &[Listed],
) -> Result<(), AllocError>
    ensures { OnOk result (text.new.items ≡ text.old.items ++
        flat_map (listed_lines (is_among targets.now) book.now) list.now) }
{
    for listed in list {
        push_listed(text, targets, book, listed)?;
    }
    Ok(())
}

/// The graph of a list, with the set of its targets.
fn graph_of(
    alloc: Global,
    targets: &PathSet,
    book: &Book,
    list: &[Listed],
) -> Result<Vec<u8>, AllocError>
    ensures { IfOk result (λ text. text.items ≡ list_graph (is_among targets.now) book.now list.now) }
{
    let mut text = Vec::new(alloc);
    text.extend_from_slice(b"digraph redo {\nnode [shape=plaintext];\n")?;
    push_all(&mut text, targets, book, list)?;
    text.extend_from_slice(b"}\n")?;
    Ok(text)
}

/// The graph of the targets that are out of date: each as a node, and each entry that `book` records of one of them and
/// that leads to another as an edge.
pub fn list_dot(alloc: Global, targets: &[Listed], book: &Book) -> Result<Vec<u8>, AllocError>
    ensures { IfOk result (λ text. text.items ≡ list_text targets.now book.now) }
{
    let set = set_of(alloc, targets)?;
    let text = graph_of(alloc, &set, book, targets)?;
    Ok(text)
}
