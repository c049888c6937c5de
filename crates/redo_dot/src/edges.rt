//! The edges of a record.

ghost use Rattle.std.specs.Prelude.{◌≡◌, ◌++◌, OnOk, flat_map};
ghost use Rattle.redo_which.specs.Candidates.{is_do_file as is_a_do_file};
ghost use Rattle.redo_dot.specs.Dot.{change_look as look_of_change, create_look as look_of_create, do_line};
ghost use Rattle.redo_dot.specs.Dot.{edge_line, edge_lines, entry_lines};

use crate::names::push_name;
use redo_path::Path;
use redo_record::{Dep, DepKind};
use std::alloc::AllocError;

/// Whether a path is that of a .do file.
fn is_do_file(path: &Path) -> bool
    ensures { result ≡ is_a_do_file path.now }
{
    path.name().ends_with(b".do")
}

/// The look of an edge for `change`.
pub(crate) fn change_look(is_do: bool) -> &'static [u8]
    ensures { result.now ≡ look_of_change is_do }
{
    if is_do { b" [color=grey];\n" } else { b";\n" }
}

/// The look of an edge for `create`.
pub(crate) fn create_look(is_do: bool) -> &'static [u8]
    ensures { result.now ≡ look_of_create is_do }
{
    if is_do {
        b" [color=grey style=dashed];\n"
    } else {
        b" [style=dashed];\n"
    }
}

/// Adds the line of a .do file's node.
fn push_do_file(text: &mut Vec<u8>, is_do: bool, path: &Path) -> Result<(), AllocError>
    ensures { OnOk result (text.new.items ≡ text.old.items ++ do_line is_do path.now) }
{
    if !is_do {
        return Ok(());
    }
    push_name(text, path)?;
    text.extend_from_slice(b" [fontcolor=grey];\n")
}

/// Adds the line of an edge.
pub(crate) fn push_edge(
    text: &mut Vec<u8>,
    target: &Path,
    path: &Path,
    look: &[u8],
) -> Result<(), AllocError>
    ensures { OnOk result (text.new.items ≡ text.old.items ++ edge_line target.now path.now look.now) }
{
    push_name(text, target)?;
    text.extend_from_slice(b" -> ")?;
    push_name(text, path)?;
    text.extend_from_slice(look)
}

/// Adds the lines of an edge, unless it leads to a .do file and rules aren't wanted.
fn push_lines(
    text: &mut Vec<u8>,
    with_rules: bool,
    target: &Path,
    path: &Path,
    look: &[u8],
) -> Result<(), AllocError>
    ensures { OnOk result (text.new.items ≡ text.old.items ++ edge_lines with_rules target.now path.now look.now) }
{
    let is_do = is_do_file(path);
    if is_do && !with_rules {
        return Ok(());
    }
    push_do_file(text, is_do, path)?;
    push_edge(text, target, path, look)
}

/// Adds the lines of an entry.
fn push_entry(
    text: &mut Vec<u8>,
    with_rules: bool,
    target: &Path,
    dep: &Dep,
) -> Result<(), AllocError>
    ensures { OnOk result (text.new.items ≡ text.old.items ++ entry_lines with_rules target.now dep.now) }
{
    let path = &dep.path;
    match dep.kind {
        DepKind::Change => {
            push_lines(
                text,
                with_rules,
                target,
                path,
                change_look(is_do_file(path)),
            )
        }
        DepKind::Create => {
            push_lines(
                text,
                with_rules,
                target,
                path,
                create_look(is_do_file(path)),
            )
        }
        DepKind::Always => Ok(()),
    }
}

/// Adds the lines of a target's entries.
pub(crate) fn push_entries(
    text: &mut Vec<u8>,
    with_rules: bool,
    target: &Path,
    deps: &[Dep],
) -> Result<(), AllocError>
    ensures { OnOk result (text.new.items ≡ text.old.items ++
        flat_map (entry_lines with_rules target.now) deps.now) }
{
    for dep in deps {
        push_entry(text, with_rules, target, dep)?;
    }
    Ok(())
}
