//! Places in a script's text.

ghost use Rattle.std.specs.Prelude.{◌≡◌, ◌+◌, ◌≤◌, IfOk, IfSome, length, option_copied};
ghost use Rattle.redo_script.specs.Texts.{first_line as first_line_of};
ghost use Rattle.redo_diagnose.specs.Diagnoses.{IsMark, rest_at};

use crate::diagnosis::Place;
use redo_path::Path;
use redo_script::Span;
use std::alloc::{AllocError, Global};

/// The text from the line with this number on, counted from 1; `None` if it has fewer lines.
fn rest_from(text: &[u8], number: u64) -> Option<&[u8]>
    ensures { option_copied result ≡ rest_at 1 number text.now }
{
    let mut here = 1;
    let mut left = text;
    while let [byte, rest @ ..] = left
        && here != number
    {
        if *byte == b'\n' {
            here += 1;
        }
        left = rest;
    }
    if here == number { Some(left) } else { None }
}

/// A copy of the bytes before the first newline.
fn first_line(alloc: Global, text: &[u8]) -> Result<Vec<u8>, AllocError>
    ensures { IfOk result (λ line. line.items ≡ first_line_of text.now) }
{
    let mut line = Vec::new(alloc);
    for byte in text {
        if *byte == b'\n' {
            return Ok(line);
        }
        line.push(*byte)?;
    }
    Ok(line)
}

/// The number of the line, from 1, in which this byte of a text is.
pub(crate) fn line_at(text: &[u8], at: usize) -> u64 {
    let before = &text[..at.min(text.len())];
    before.iter().filter(|byte| **byte == b'\n').count() as u64 + 1
}

/// Where a line has its first byte that isn't a blank, from 0, and how many there are up to its end.
fn whole_line(line: &[u8]) -> (usize, usize)
    ensures { result.0 + result.1 ≤ length line.now }
{
    let words = line.trim_ascii_start();
    (line.len() - words.len(), words.len())
}

/// The bytes of a span that are in the line that begins at `start`: from where, from 0, and how many.
fn within(start: usize, line: &[u8], span: Span) -> Option<(usize, usize)>
    ensures { IfSome result (λ bytes. bytes.0 + bytes.1 ≤ length line.now) }
{
    let from = span.start.checked_sub(start)?;
    let to = span.end.saturating_sub(start).min(line.len());
    if to < from {
        return None;
    }
    Some((from, to - from))
}

/// The bytes of a span that are in a line; all of the line, if the span begins in another.
fn marked(start: usize, line: &[u8], span: Option<Span>) -> (usize, usize)
    ensures { result.0 + result.1 ≤ length line.now }
{
    match span {
        Some(span) => within(start, line, span).unwrap_or(whole_line(line)),
        None => whole_line(line),
    }
}

/// The place of a span in the line with this number of a script's text; the whole line, if the span is in another.
/// `None` if the text has no such line.
pub(crate) fn place_at(
    alloc: Global,
    file: &Path,
    text: &[u8],
    number: u64,
    span: Option<Span>,
) -> Result<Option<Place>, AllocError>
    ensures file { IfOk result (λ place. IfSome place (λ place. place.file ≡ file.now)) }
    ensures mark { IfOk result (λ place. IfSome place (IsMark text.now number)) }
{
    let Some(rest) = rest_from(text, number) else {
        return Ok(None);
    };
    let line = first_line(alloc, rest)?;
    let start = text.len().saturating_sub(rest.len());
    let (from, length) = marked(start, &line, span);
    Ok(Some(Place {
        file: file.clone()?,
        line: number,
        column: from as u64 + 1,
        length: length as u64,
        text: line,
    }))
}
