//! Reading a book, line by line.

ghost use Rattle.std.specs.Prelude.{◌≡◌, IfErr, IfOk, List, MatchOption, false, position};
ghost use Rattle.std.specs.List.{list_any};
ghost use Rattle.redo_book.specs.Book.{IsText, Record, Refuses, RefusesAll, is_newline};
ghost use Rattle.redo_book.specs.inside.Reading.{IsCut};

use crate::made::Made;
use crate::{Book, BookFault};
use memchr::memchr;
use std::alloc::Global;

/// The offset of the first newline.
fn newline_at(bytes: &[u8]) -> Option<usize>
    ensures { result ≡ position is_newline bytes.now }
{
    memchr(b'\n', bytes)
}

/// The first line, and the text after its newline.
fn split_line(text: &[u8]) -> Option<(&[u8], &[u8])>
    ensures { MatchOption result (list_any is_newline text.now ≡ false) (λ cut. IsCut text.now cut.0.now cut.1.now) }
{
    let end = newline_at(text)?;
    Some((&text[..end], &text[end + 1..]))
}

/// Reads a book.
///
/// A book has a line `target <state> <path>` for each record, in strict order of targets. After it comes a line for
/// each entry of the record: `change <state> <path>`, `create <path>` or `always`. The last line is `end`. A state is
/// 64 lower-case hexadecimal digits, or `none`. Each line ends with a newline, and nothing follows the last. A path is
/// below the top directory and is written as its text, and no record has two entries of the same kind and path. The
/// first line that breaks these rules is reported.
pub fn read_book(alloc: Global, text: &[u8]) -> Result<Book, BookFault>
    ensures book { IfOk result (λ book. IsText text.now book) }
    ensures only { IfOk result (λ book. (other : List Record) → IsText text.now other → other ≡ book) }
    ensures first { IfErr result (λ fault. Refuses fault text.now) }
    ensures none { IfErr result (λ fault. RefusesAll fault text.now) }
{
    let mut made = Made::new(alloc);
    let mut rest = text;
    let mut number = 1;
    'lines: loop {
        let Some((line, behind)) = split_line(rest) else {
            return Err(BookFault::Line(number));
        };
        if line == b"end".as_slice() {
            if behind.is_empty() {
                return Ok(made.finish()?);
            }
            return Err(BookFault::Line(number + 1));
        }
        made.add_line(alloc, number, line)?;
        rest = behind;
        number += 1;
    }
}
