//! What is said of a byte that scripts leave out.

use crate::said::Said;
use std::alloc::{AllocError, Global};

/// What scripts leave out: the bytes, what is said behind them, and what to do instead.
type Left = (&'static [u8], &'static [u8], &'static [u8]);

const JOINED: &[u8] =
    b"put each command on its own line, as a script ends at the first that fails, or use `if`";

const QUOTE: &[u8] = b"quote it";

const SPELL: &[u8] = b"write the names out, or quote it to have it as it is";

const OUTPUT: &[u8] = b"put that output into a file, and `cat` it";

const PIPED: &[u8] = b"let another tool make that file before the build, and `cat` it";

const PIECES: &[u8] = b"make a target of that part and `cat` it, or quote it to have it as it is";

const TEST: &[u8] = b"use `test`, as in `test a = b`, or quote it to have it as it is";

/// The first of these that the text goes on with is told.
const LEFT_OUT: &[Left] = &[
    (b"||", b" isn't supported", b"use `if`"),
    (
        b"|",
        b" isn't supported: scripts have no pipes, and start no programs",
        PIPED,
    ),
    (b"&&", b" isn't supported", JOINED),
    (
        b"&",
        b" isn't supported",
        b"quote it to have it as it is; targets in one redo-ifchange are built side by side",
    ),
    (
        b"<<",
        b" isn't supported: scripts have no here documents",
        b"use echo or printf",
    ),
    (
        b"<",
        b" isn't supported",
        b"quote it to have it as it is; to read a file, `cat` it after redo-ifchange",
    ),
    (b"*", b" isn't supported: names aren't matched", SPELL),
    (b"?", b" isn't supported: names aren't matched", SPELL),
    (b"[", b" isn't supported", TEST),
    (b"]", b" isn't supported", TEST),
    (
        b"~",
        b" isn't supported",
        b"paths are read from the .do file's directory; quote it to have it as it is",
    ),
    (
        b"(",
        b" isn't supported: scripts have no functions and no subshells",
        PIECES,
    ),
    (
        b")",
        b" isn't supported: scripts have no functions and no subshells",
        PIECES,
    ),
    (
        b"{",
        b" isn't supported: scripts have no functions and no groups",
        PIECES,
    ),
    (
        b"}",
        b" isn't supported: scripts have no functions and no groups",
        PIECES,
    ),
    (b";", b" behind `;` isn't supported", b"remove one"),
    (
        b"\\\n",
        b" at the end of a line isn't supported",
        b"join the lines",
    ),
    (
        b"\\",
        b" outside quotes isn't supported",
        b"put the word in quotes",
    ),
];

/// The same of bytes that are told by name.
const STRANGERS: &[Left] = &[
    (
        b"\r",
        b"a carriage return: the file has Windows line ends",
        b"save it with Unix line ends",
    ),
    (
        b"\xEF\xBB\xBF",
        b"a byte order mark",
        b"save the file without it",
    ),
    (
        b"<<<<<<<",
        b"a conflict marker",
        b"finish the merge, and remove the marker's line",
    ),
    (
        b"|||||||",
        b"a conflict marker",
        b"finish the merge, and remove the marker's line",
    ),
    (
        b"`",
        b"a backquote isn't supported: scripts can't take a command's output",
        OUTPUT,
    ),
];

/// The first entry that the text begins with.
fn entry_of<'a>(table: &'a [Left], text: &[u8]) -> Option<&'a Left> {
    for entry in table {
        if text.starts_with(entry.0) {
            return Some(entry);
        }
    }
    None
}

/// What is said of a byte behind `$`, where no name and no digit of an argument stands.
fn behind_dollar(alloc: Global, after: &[u8]) -> Result<Said, AllocError> {
    match after {
        [b'(', ..] => Said::of(
            alloc,
            b"$(",
            b" isn't supported: scripts can't take a command's output",
            OUTPUT,
        ),
        [b'{', ..] => Said::of(
            alloc,
            b"${",
            b" isn't supported",
            b"write the name without braces, as `$1` or `$NAME`",
        ),
        [byte, ..] if byte.is_ascii_graphic() => {
            let word = [b'$', *byte];
            let help =
                b"there are `$1`, the target, `$2` and `$3`, and `$NAME` in a loop; in single quotes `$` stands for itself";
            Said::of(alloc, &word, b" isn't supported", help)
        }
        _ => Said::of(
            alloc,
            b"$",
            b" lacks a name",
            b"write one behind it, or put it in single quotes",
        ),
    }
}

/// What is said of a number before `>`.
fn of_number(alloc: Global, before: &[u8]) -> Result<Said, AllocError> {
    let digits = before
        .iter()
        .rev()
        .take_while(|byte| byte.is_ascii_digit())
        .count();
    let number = &before[before.len() - digits.min(before.len())..];
    let help: &[u8] = match number {
        b"1" => b"remove the number",
        _ => b"remove the redirection: commands write to standard output alone",
    };
    let said = Said::of(alloc, number, b" before `>` isn't supported", help)?;
    Ok(said.from_before(digits))
}

/// The bytes of the first character, or the first byte if they are no character.
fn first_char(text: &[u8]) -> &[u8] {
    for chunk in text.utf8_chunks() {
        for char in chunk.valid().chars() {
            return &text[..char.len_utf8().min(text.len())];
        }
        break;
    }
    &text[..text.len().min(1)]
}

/// What is said of a byte that can't be where it is, between the text before it and that from it on.
pub(crate) fn of_byte(alloc: Global, before: &[u8], from: &[u8]) -> Result<Said, AllocError> {
    if let Some((bytes, message, help)) = entry_of(STRANGERS, from) {
        return Ok(Said::words(alloc, message, help)?.along(bytes.len()));
    }
    match (before, from) {
        ([.., b'$'], _) => Ok(behind_dollar(alloc, from)?.from_before(1)),
        ([.., b'>'], [b'&', ..]) => {
            let help = b"write `> $3`, or to standard output";
            Ok(Said::of(
                alloc,
                b">&",
                b" isn't supported: a script writes its target alone",
                help,
            )?
            .from_before(1))
        }
        ([.., b'\\'], [b'\n', ..]) => {
            let said = Said::of(
                alloc,
                b"\\",
                b" at the end of a line isn't supported",
                b"join the lines",
            )?;
            Ok(said.from_before(1))
        }
        (_, [b'>', ..]) => of_number(alloc, before),
        _ => match entry_of(LEFT_OUT, from) {
            Some((bytes, message, help)) => {
                let bytes = bytes.trim_ascii_end();
                Ok(Said::of(alloc, bytes, message, help)?.along(bytes.len()))
            }
            None => {
                let char = first_char(from);
                let said = Said::of(alloc, char, b" can't stand outside quotes", QUOTE)?;
                Ok(said.along(char.len()))
            }
        },
    }
}
