//! Names in quotes.

ghost use Rattle.std.specs.Prelude.{◌≡◌, ◌++◌, OnOk, flat_map};
ghost use Rattle.std.specs.Str.{is_utf8};
ghost use Rattle.redo_dot.specs.Dot.{entity, entity_byte, name_of, plain_byte, quoted_bytes};

use itoa::Buffer;
use redo_path::Path;
use std::alloc::AllocError;
use std::str;

/// Whether bytes are UTF-8.
fn is_text(bytes: &[u8]) -> bool
    ensures { result ≡ is_utf8 bytes.now }
{
    str::from_utf8(bytes).is_ok()
}

/// Adds what stands for a byte of a name.
fn push_plain(text: &mut Vec<u8>, byte: u8) -> Result<(), AllocError>
    ensures { OnOk result (text.new.items ≡ text.old.items ++ plain_byte byte) }
{
    match byte {
        b'"' => text.extend_from_slice(b"\\\""),
        b'\\' => text.extend_from_slice(b"\\\\"),
        b'%' => text.extend_from_slice(b"&#37;"),
        b'&' => text.extend_from_slice(b"&amp;"),
        _ => text.extend_from_slice(&[byte]),
    }
}

/// Adds the entity of the character with this number.
fn push_entity(text: &mut Vec<u8>, number: u8) -> Result<(), AllocError>
    ensures { OnOk result (text.new.items ≡ text.old.items ++ entity number) }
{
    let mut digits = Buffer::new();
    text.extend_from_slice(b"&#")?;
    text.extend_from_slice(digits.format(number).as_bytes())?;
    text.extend_from_slice(b";")
}

/// Adds what stands for a byte of a name that isn't UTF-8.
fn push_byte(text: &mut Vec<u8>, byte: u8) -> Result<(), AllocError>
    ensures { OnOk result (text.new.items ≡ text.old.items ++ entity_byte byte) }
{
    if byte < 128 {
        push_plain(text, byte)
    } else {
        push_entity(text, byte)
    }
}

/// Adds the bytes of a name that is UTF-8.
fn push_all_plain(text: &mut Vec<u8>, bytes: &[u8]) -> Result<(), AllocError>
    ensures { OnOk result (text.new.items ≡ text.old.items ++ flat_map plain_byte bytes.now) }
{
    for byte in bytes {
        push_plain(text, *byte)?;
    }
    Ok(())
}

/// Adds the bytes of a name that isn't UTF-8.
fn push_all(text: &mut Vec<u8>, bytes: &[u8]) -> Result<(), AllocError>
    ensures { OnOk result (text.new.items ≡ text.old.items ++ flat_map entity_byte bytes.now) }
{
    for byte in bytes {
        push_byte(text, *byte)?;
    }
    Ok(())
}

/// Adds the bytes of a name.
fn push_quoted(text: &mut Vec<u8>, bytes: &[u8]) -> Result<(), AllocError>
    ensures { OnOk result (text.new.items ≡ text.old.items ++ quoted_bytes bytes.now) }
{
    if is_text(bytes) {
        push_all_plain(text, bytes)
    } else {
        push_all(text, bytes)
    }
}

/// Adds the name of a path's node.
pub(crate) fn push_name(text: &mut Vec<u8>, path: &Path) -> Result<(), AllocError>
    ensures { OnOk result (text.new.items ≡ text.old.items ++ name_of path.now) }
{
    text.extend_from_slice(b"\"")?;
    push_quoted(text, path.text())?;
    text.extend_from_slice(b"\"")
}
