//! Writing a bundle, entry by entry.

ghost use Rattle.std.specs.Prelude.{◌≡◌, ◌↔◌, ◌≤◌, ◌+◌, ◌++◌, ◌∷◌, [], flat_map, is_err, length, take, true, false};
ghost use Rattle.std.specs.Prelude.{IfOk, IfSome, OnOk, IsErrOf};
ghost use Rattle.redo_tree.specs.Tree.{node_of};
ghost use Rattle.redo_bundle.specs.Bundle.{Writes, HasSmallFiles, IsBundle, bundle_of, spelling};
ghost use Rattle.redo_bundle.specs.inside.Steps.{is_device, header_bytes};

use crate::{Broken, ByteOut, WriteFault};
use redo_path::Path;
use redo_tree::{Entry, Tree};
use std::alloc::{AllocError, Global};

/// How many bytes the parts of a line may have to be handed over as one.
const LINE_BYTES: usize = 256;

/// Writes all of the bytes, in as many calls as the writer needs. A writer that takes none of the remaining bytes has
/// failed. After a failure it has taken a prefix of the bytes.
pub fn write_all<W: ByteOut>(writer: &mut W, bytes: &[u8]) -> Result<(), Broken>
    requires { W.has_failed writer.old ≡ false }
    ensures writes { Writes (W.held writer.old) (W.held writer.new) result bytes.now }
    ensures failed { W.has_failed writer.new ≡ is_err result }
{
    let mut rest = bytes;
    while !rest.is_empty() {
        let count = writer.write(rest)?;
        if count == 0 {
            return Err(Broken);
        }
        rest = &rest[count..];
    }
    Ok(())
}

/// Writes several pieces of bytes, one after another. After a failure the writer has taken a prefix of them. Pieces that
/// are short together, as those of a line, are handed over as one.
pub fn write_parts<W: ByteOut>(writer: &mut W, parts: &[&[u8]]) -> Result<(), Broken>
    requires { W.has_failed writer.old ≡ false }
    ensures writes { Writes (W.held writer.old) (W.held writer.new) result (flat_map (λ part. part.now) parts.now) }
    ensures failed { W.has_failed writer.new ≡ is_err result }
{
    let mut line = [0; LINE_BYTES];
    match join(parts, &mut line) {
        Some(size) => write_all(writer, &line[..size]),
        None => write_each(writer, parts),
    }
}

/// Puts the parts together at the front of a line, and returns how many bytes they are; `None` if they don't fit.
fn join(parts: &[&[u8]], line: &mut [u8]) -> Option<usize>
    ensures len { length line.new ≡ length line.old }
    ensures fits { IfSome result (λ size. size ≤ length line.old) }
    ensures joined { IfSome result (λ size. take size line.new ≡ flat_map (λ part. part.now) parts.now) }
{
    let mut size = 0;
    for part in parts {
        if part.len() > line.len() - size {
            return None;
        }
        append(line, size, part);
        size += part.len();
    }
    Some(size)
}

/// Puts bytes into a line, behind its first `size` ones.
fn append(line: &mut [u8], size: usize, bytes: &[u8])
    requires { size + length bytes.now ≤ length line.old }
    ensures len { length line.new ≡ length line.old }
    ensures appended { take (size + length bytes.now) line.new ≡ take size line.old ++ bytes.now }
{
    line[size..size + bytes.len()].copy_from_slice(bytes);
}

/// Writes the parts one by one.
fn write_each<W: ByteOut>(writer: &mut W, parts: &[&[u8]]) -> Result<(), Broken>
    requires { W.has_failed writer.old ≡ false }
    ensures writes { Writes (W.held writer.old) (W.held writer.new) result (flat_map (λ part. part.now) parts.now) }
    ensures failed { W.has_failed writer.new ≡ is_err result }
{
    for part in parts {
        write_all(writer, part)?;
    }
    Ok(())
}

/// The header line of an entry, with its newline.
fn header(alloc: Global, path: &Path, entry: &Entry) -> Result<Vec<u8>, AllocError>
    ensures { IfOk result (λ line. line.items ≡ header_bytes (path.now, node_of entry.now)) }
{
    let mut line = Vec::new(alloc);
    match entry {
        Entry::Directory => line.extend_from_slice(b"dir ")?,
        Entry::File(content) => {
            let size = content.bytes().len().to_string(alloc)?;
            line.extend_from_slice(b"file ")?;
            line.extend_from_slice(size.as_bytes())?;
            line.extend_from_slice(b" ")?;
        }
    }
    line.extend_from_slice(path.text())?;
    line.extend_from_slice(b"\n")?;
    Ok(line)
}

/// Writes an entry.
fn write_entry<W: ByteOut>(
    alloc: Global,
    writer: &mut W,
    path: &Path,
    entry: &Entry,
) -> Result<(), WriteFault>
    requires { W.has_failed writer.old ≡ false }
    ensures writes { Writes (W.held writer.old) (W.held writer.new) result (spelling (path.now, node_of entry.now)) }
    ensures failed { W.has_failed writer.new ≡ is_device result }
{
    let line = header(alloc, path, entry)?;
    write_all(writer, &line)?;
    if let Entry::File(content) = entry {
        write_all(writer, content.bytes())?;
        write_all(writer, b"\n")?;
    }
    Ok(())
}

/// Writes the directories and files below the top directory as a bundle, in path order, in the form that
/// [`read_bundle`](crate::read_bundle) reads. No file may have more than 1,073,741,824 bytes; none has in a tree that
/// `read_bundle` made. After `Err` a prefix of the text has been written.
pub fn write_bundle<W: ByteOut>(
    alloc: Global,
    writer: &mut W,
    tree: &Tree,
) -> Result<(), WriteFault>
    requires works { W.has_failed writer.old ≡ false }
    requires small { HasSmallFiles tree.now }
    ensures writes { Writes (W.held writer.old) (W.held writer.new) result (bundle_of tree.now) }
    ensures readable { IsBundle (bundle_of tree.now) tree.now }
    ensures device { IsErrOf result WriteFault.Device ↔ (W.has_failed writer.new ≡ true) }
{
    let mut entries = tree.in_order(alloc)?.into_iter();
    let _root = entries.next();
    for (path, entry) in entries {
        write_entry(alloc, writer, path, entry)?;
    }
    write_all(writer, b"end\n")?;
    Ok(())
}
