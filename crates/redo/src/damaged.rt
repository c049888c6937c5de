//! How a refused book is damaged.

use bstr::ByteSlice;
use std::alloc::Global;
use std::fs;
use std::path::Path as SystemPath;
use std::rt::Runtime;

/// The words for a book that was changed in another way.
const OTHERWISE: &str =
    "the file .redo-book is not as a run leaves it; after a merge take one side's whole, as by \
    git checkout --ours .redo-book; without it each file that was built counts as yours until \
    redo -k --take . builds it anew";

/// Whether a text ends before this line does.
fn ends_before(text: &[u8], line: u64) -> bool {
    let whole = text.iter().filter(|byte| **byte == b'\n').count() as u64;
    whole < line
}

/// The words for a book with this text, in which this line is the first faulty one.
fn words_for(text: &[u8], line: u64) -> &'static str {
    if text.is_empty() {
        "the file .redo-book is empty: get it back, or remove it; then each file that was built counts as yours \
            until redo -k --take . builds it anew"
    } else if text.contains_str(b"\r\n") {
        "the file .redo-book has Windows line ends: give it Unix line ends again, in git by the attribute -text"
    } else if text.contains_str(b"<<<<<<<") || text.contains_str(b">>>>>>>") {
        OTHERWISE
    } else if ends_before(text, line) {
        "the file .redo-book is cut off: get it back, or remove it; then each file that was built counts as yours \
            until redo -k --take . builds it anew"
    } else {
        OTHERWISE
    }
}

/// The words for the book of a directory, in which this line, counted from 1, is the first faulty one.
pub(crate) fn words_of<H: Runtime>(rt: &H, alloc: Global, dir: &str, line: u64) -> &'static str {
    let Ok(place) = SystemPath::new(dir).join(alloc, ".redo-book") else {
        return OTHERWISE;
    };
    match fs::read(rt, place.as_path()) {
        Ok(text) => words_for(&text, line),
        Err(_) => OTHERWISE,
    }
}
