//! Paths that may not be UTF-8.

ghost use Rattle.std.specs.Prelude.{◌≡◌, ◌++◌, OnOk, flat_map};
ghost use Rattle.std.specs.Str.{is_utf8};
ghost use Rattle.std.specs.Str.Lossy.{utf8_lossy};
ghost use Rattle.redo_json.specs.Members.{file_members, hex_members, named_tokens, path_members, paths_member};
ghost use Rattle.redo_json.specs.Members.{rule_members, text_member};

use crate::members::Tokens;
use redo_path::Path;
use std::alloc::{AllocError, Global};
use std::str;

/// Whether bytes are UTF-8.
fn is_text(bytes: &[u8]) -> bool
    ensures { result ≡ is_utf8 bytes.now }
{
    str::from_utf8(bytes).is_ok()
}

/// Adds a member whose value is the readable text of some bytes.
pub(crate) fn push_readable(
    alloc: Global,
    out: &mut Tokens,
    name: &str,
    bytes: &[u8],
) -> Result<(), AllocError>
    ensures { OnOk result (out.new ≡ out.old ++ text_member name.now (utf8_lossy bytes.now)) }
{
    let text = String::from_utf8_lossy(alloc, bytes)?;
    out.text(name, text.as_str())
}

/// Adds a member whose value is the bytes of a path in hex, if it isn't UTF-8.
fn push_hex(alloc: Global, out: &mut Tokens, name: &str, path: &Path) -> Result<(), AllocError>
    ensures { OnOk result (out.new ≡ out.old ++ hex_members name.now path.now) }
{
    if is_text(path.text()) {
        return Ok(());
    }
    let digits = hex::encode(alloc, path.text())?;
    out.text(name, digits.as_str())
}

/// Adds a path.
pub(crate) fn push_path(alloc: Global, out: &mut Tokens, path: &Path) -> Result<(), AllocError>
    ensures { OnOk result (out.new ≡ out.old ++ path_members path.now) }
{
    push_readable(alloc, out, "path", path.text())?;
    push_hex(alloc, out, "path_hex", path)
}

/// Adds the path of a file.
pub(crate) fn push_file(alloc: Global, out: &mut Tokens, file: &Path) -> Result<(), AllocError>
    ensures { OnOk result (out.new ≡ out.old ++ file_members file.now) }
{
    push_readable(alloc, out, "file", file.text())?;
    push_hex(alloc, out, "file_hex", file)
}

/// Adds the path of a rule's .do file.
pub(crate) fn push_rule(alloc: Global, out: &mut Tokens, file: &Path) -> Result<(), AllocError>
    ensures { OnOk result (out.new ≡ out.old ++ rule_members file.now) }
{
    push_readable(alloc, out, "rule", file.text())?;
    push_hex(alloc, out, "rule_hex", file)
}

/// Adds an object that has a path alone.
fn push_named(alloc: Global, out: &mut Tokens, path: &Path) -> Result<(), AllocError>
    ensures { OnOk result (out.new ≡ out.old ++ named_tokens path.now) }
{
    out.begin_object()?;
    push_path(alloc, out, path)?;
    out.end_object()
}

/// Adds an object for each of these paths.
fn push_each(alloc: Global, out: &mut Tokens, paths: &[Path]) -> Result<(), AllocError>
    ensures { OnOk result (out.new ≡ out.old ++ flat_map named_tokens paths.now) }
{
    for path in paths {
        push_named(alloc, out, path)?;
    }
    Ok(())
}

/// Adds a member whose value is an array of paths.
pub(crate) fn push_paths(
    alloc: Global,
    out: &mut Tokens,
    name: &str,
    paths: &[Path],
) -> Result<(), AllocError>
    ensures { OnOk result (out.new ≡ out.old ++ paths_member name.now paths.now) }
{
    out.begin_array(name)?;
    push_each(alloc, out, paths)?;
    out.end_array()
}
