//! Texts in HTML, and in the data of a page, which is JSON.

ghost use Rattle.std.specs.Prelude.{◌≡◌, ◌++◌, ◌<◌, OnOk, flat_map};
ghost use Rattle.redo_page.specs.Html.{hex_digit as digit_of, is_control as is_a_control, named, reference};
ghost use Rattle.redo_page.specs.Html.{in_string, shown, visible};
ghost use Rattle.redo_page.specs.inside.Forms.{stands_for};

use std::alloc::AllocError;

const DIGITS: [u8; 16] = *b"0123456789abcdef";

/// Where a text stands.
#[derive(Clone, Copy)]
pub(crate) enum Form {
    /// In the content of an element.
    Html,
    /// In a string of JSON, within the content of a script.
    Json,
}

/// Adds what stands for a byte in a string of JSON.
fn push_in_string(out: &mut Vec<u8>, byte: u8) -> Result<(), AllocError>
    ensures { OnOk result (out.new.items ≡ out.old.items ++ in_string byte) }
{
    match byte {
        b'"' => out.extend_from_slice(b"\\\""),
        b'\\' => out.extend_from_slice(b"\\\\"),
        // Nothing in a script looks like the end of its element.
        b'<' => out.extend_from_slice(b"\\u003c"),
        b'\t' => out.extend_from_slice(b"\\t"),
        _ => out.extend_from_slice(&[byte]),
    }
}

/// Adds what stands for a byte in HTML.
fn push_reference(out: &mut Vec<u8>, byte: u8) -> Result<(), AllocError>
    ensures { OnOk result (out.new.items ≡ out.old.items ++ reference byte) }
{
    match byte {
        b'&' => out.extend_from_slice(b"&amp;"),
        b'<' => out.extend_from_slice(b"&lt;"),
        b'>' => out.extend_from_slice(b"&gt;"),
        b'"' => out.extend_from_slice(b"&quot;"),
        b'\'' => out.extend_from_slice(b"&#39;"),
        _ => out.extend_from_slice(&[byte]),
    }
}

/// Adds what stands for a byte.
fn push_byte(out: &mut Vec<u8>, form: Form, byte: u8) -> Result<(), AllocError>
    ensures { OnOk result (out.new.items ≡ out.old.items ++ stands_for form byte) }
{
    match form {
        Form::Html => push_reference(out, byte),
        Form::Json => push_in_string(out, byte),
    }
}

/// Adds what stands for some bytes.
fn push_bytes(out: &mut Vec<u8>, form: Form, bytes: &[u8]) -> Result<(), AllocError>
    ensures { OnOk result (out.new.items ≡ out.old.items ++ flat_map (stands_for form) bytes.now) }
{
    for byte in bytes {
        push_byte(out, form, *byte)?;
    }
    Ok(())
}

/// The digit of a number below 16.
fn hex_digit(number: u8) -> u8
    requires { number < 16 }
    ensures { result ≡ digit_of number }
{
    DIGITS[usize::from(number)]
}

/// Adds a byte as `\xNN`.
fn push_named(out: &mut Vec<u8>, form: Form, byte: u8) -> Result<(), AllocError>
    ensures { OnOk result (out.new.items ≡ out.old.items ++ flat_map (stands_for form) (named byte)) }
{
    let text = [b'\\', b'x', hex_digit(byte / 16), hex_digit(byte % 16)];
    push_bytes(out, form, &text)
}

/// Whether a byte is a control byte other than the tab.
fn is_control(byte: u8) -> bool
    ensures { result ≡ is_a_control byte }
{
    (byte < 32 && byte != b'\t') || byte == 127
}

/// Adds a byte of a character.
fn push_visible(out: &mut Vec<u8>, form: Form, byte: u8) -> Result<(), AllocError>
    ensures { OnOk result (out.new.items ≡ out.old.items ++ flat_map (stands_for form) (visible byte)) }
{
    if is_control(byte) {
        push_named(out, form, byte)
    } else {
        push_bytes(out, form, &[byte])
    }
}

/// Adds bytes that are UTF-8.
fn push_text(out: &mut Vec<u8>, form: Form, bytes: &[u8]) -> Result<(), AllocError>
    ensures { OnOk result (out.new.items ≡ out.old.items ++ flat_map (stands_for form) (flat_map visible bytes.now)) }
{
    for byte in bytes {
        push_visible(out, form, *byte)?;
    }
    Ok(())
}

/// Adds bytes that are part of no character.
fn push_broken(out: &mut Vec<u8>, form: Form, bytes: &[u8]) -> Result<(), AllocError>
    ensures { OnOk result (out.new.items ≡ out.old.items ++ flat_map (stands_for form) (flat_map named bytes.now)) }
{
    for byte in bytes {
        push_named(out, form, *byte)?;
    }
    Ok(())
}

/// Adds bytes as they are shown, escaped for where they stand.
pub(crate) fn push_escaped(out: &mut Vec<u8>, form: Form, bytes: &[u8]) -> Result<(), AllocError>
    ensures { OnOk result (out.new.items ≡ out.old.items ++ flat_map (stands_for form) (shown bytes.now)) }
{
    for chunk in bytes.utf8_chunks() {
        push_text(out, form, chunk.valid().as_bytes())?;
        push_broken(out, form, chunk.invalid())?;
    }
    Ok(())
}
