//! The entries of a record.

ghost use Rattle.std.specs.Prelude.{◌≡◌, ◌++◌, OnOk, codes, flat_map};
ghost use Rattle.redo_json.specs.Members.{deps_member, entry_members, entry_tokens, path_members, text_member};

use crate::members::Tokens;
use crate::paths::push_path;
use redo_path::Path;
use redo_record::{Dep, DepKind, Record};
use std::alloc::{AllocError, Global};

/// Adds a kind of entries, and the path of one.
fn push_kind(alloc: Global, out: &mut Tokens, kind: &str, path: &Path) -> Result<(), AllocError>
    ensures { OnOk result (out.new ≡ out.old ++ text_member (codes "kind") kind.now ++ path_members path.now) }
{
    out.text("kind", kind)?;
    push_path(alloc, out, path)
}

/// Adds the members of an entry.
fn push_members(alloc: Global, out: &mut Tokens, dep: &Dep) -> Result<(), AllocError>
    ensures { OnOk result (out.new ≡ out.old ++ entry_members dep.now.kind dep.now.path) }
{
    match dep.kind {
        DepKind::Change => push_kind(alloc, out, "change", &dep.path),
        DepKind::Create => push_kind(alloc, out, "create", &dep.path),
        DepKind::Always => out.text("kind", "always"),
    }
}

/// Adds an entry.
fn push_entry(alloc: Global, out: &mut Tokens, dep: &Dep) -> Result<(), AllocError>
    ensures { OnOk result (out.new ≡ out.old ++ entry_tokens dep.now) }
{
    out.begin_object()?;
    push_members(alloc, out, dep)?;
    out.end_object()
}

/// Adds entries.
fn push_entries(alloc: Global, out: &mut Tokens, entries: &[Dep]) -> Result<(), AllocError>
    ensures { OnOk result (out.new ≡ out.old ++ flat_map entry_tokens entries.now) }
{
    for entry in entries {
        push_entry(alloc, out, entry)?;
    }
    Ok(())
}

/// Adds a record.
pub(crate) fn push_record(alloc: Global, out: &mut Tokens, deps: &Record) -> Result<(), AllocError>
    ensures { OnOk result (out.new ≡ out.old ++ deps_member deps.now) }
{
    let entries = deps.entries(alloc)?;
    out.begin_array("deps")?;
    push_entries(alloc, out, &entries)?;
    out.end_array()
}
