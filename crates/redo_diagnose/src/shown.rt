//! Bytes as a reader may see them: characters as they are, but hidden ones and what isn't UTF-8 as `\xNN` for each byte.

use bstr::ByteSlice;
use std::alloc::{AllocError, Global};

const DIGITS: &[u8] = b"0123456789abcdef";

/// Adds bytes as `\xNN` each.
fn push_escaped(text: &mut Vec<u8>, bytes: &[u8]) -> Result<(), AllocError> {
    for byte in bytes {
        text.extend_from_slice(b"\\x")?;
        text.push(DIGITS[usize::from(*byte >> 4)])?;
        text.push(DIGITS[usize::from(*byte & 15)])?;
    }
    Ok(())
}

/// Whether a reader doesn't see a character, or sees others otherwise because of it: control characters, those without a
/// width, and those that turn the direction of a text.
fn is_hidden(char: char) -> bool {
    char.is_control()
        || matches!(char, '\u{A0}' | '\u{AD}' | '\u{200B}'..='\u{200F}' | '\u{2028}'..='\u{202E}' | '\u{2060}'..='\u{2069}' | '\u{FEFF}')
}

/// Adds a character, or its bytes as `\xNN` if a reader wouldn't see it.
fn push_char(text: &mut Vec<u8>, char: char) -> Result<(), AllocError> {
    let mut room = [0; 4];
    let bytes = char.encode_utf8(&mut room).as_bytes();
    if is_hidden(char) {
        push_escaped(text, bytes)
    } else {
        text.extend_from_slice(bytes)
    }
}

/// Adds bytes as a reader may see them.
pub(crate) fn push_shown(text: &mut Vec<u8>, bytes: &[u8]) -> Result<(), AllocError> {
    for chunk in bytes.utf8_chunks() {
        for char in chunk.valid().chars() {
            push_char(text, char)?;
        }
        push_escaped(text, chunk.invalid())?;
    }
    Ok(())
}

/// The lines of a text as a reader may see them.
pub fn shown_lines(alloc: Global, text: &[u8]) -> Result<Vec<u8>, AllocError> {
    let mut shown = Vec::with_capacity(alloc, text.len())?;
    for line in text.lines() {
        push_shown(&mut shown, line)?;
        shown.push(b'\n')?;
    }
    Ok(shown)
}

/// Whether a byte begins a character, and so takes a column.
pub(crate) fn takes_column(byte: u8) -> bool {
    byte & 0xC0 != 0x80
}

/// How many columns shown bytes take.
pub(crate) fn width(shown: &[u8]) -> usize {
    shown.iter().filter(|byte| takes_column(**byte)).count()
}
