//! What is said of scripts that can't be read.

use crate::bytes::of_byte;
use crate::commands::{
    begins_part, keyword_in_loop, of_empty_part, of_keyword, of_shape, of_stranger, word_before,
};
use crate::said::Said;
use redo_script::{FaultPlace, Reason, ScriptFault, Spot};
use std::alloc::{AllocError, Global};

const IF_FORM: &[u8] =
    b"write `if C; then LIST; fi` or `if C; then LIST; else LIST; fi`, with a `test`, `true` or `false` for C, \
    and `then`, `else` and `fi` unquoted behind `;` or a newline";

/// Reserved words of the shell that scripts leave out, and what to do instead.
const LEFT_OUT: &[(&[u8], &[u8])] = &[
    (b"!", b"use `!=`, or `if C; then true; else LIST; fi`"),
    (b"elif", b"put an `if` behind `else`"),
    (b"while", b"use `for` over words that are known"),
    (b"until", b"use `for` over words that are known"),
    (b"case", b"use `if test A = B` for each case"),
    (b"esac", b"use `if test A = B` for each case"),
];

/// What is said of a first line that names another interpreter.
fn of_interpreter(alloc: Global, line: &[u8]) -> Result<Said, AllocError> {
    if line.ends_with(b"\r") {
        let help = b"save it with Unix line ends";
        return Said::words(
            alloc,
            b"a carriage return: the file has Windows line ends",
            help,
        );
    }
    Said::of(
        alloc,
        line,
        b" names another interpreter",
        b"write `#!/bin/sh -e`, or leave the line out",
    )
}

/// What is said of a word that scripts leave out.
fn of_left_out(alloc: Global, word: &[u8]) -> Result<Said, AllocError> {
    for (name, help) in LEFT_OUT {
        if word == *name {
            return Said::of(alloc, word, b" isn't supported", help);
        }
    }
    Said::of(alloc, word, b" isn't supported", b"")
}

/// What is said of bytes or words that scripts leave out.
fn of_unsupported(
    alloc: Global,
    before: &[u8],
    from: &[u8],
    word: &[u8],
    what: Spot,
) -> Result<Said, AllocError> {
    match what {
        Spot::Name => {
            if let Some(keyword) = keyword_in_loop(before) {
                return of_keyword(alloc, keyword);
            }
            let help = b"only `for NAME in WORD..` sets a name, up to its `done`";
            Said::of(alloc, word, b" is set by no loop around it", help)
        }
        Spot::Word => of_left_out(alloc, word),
        Spot::Dollar => {
            let help = b"write a name behind it, or put it in single quotes";
            Said::of(alloc, b"$", b" at the end", help)
        }
        _ => of_byte(alloc, before, from),
    }
}

/// What is said of a malformed `if`, by the text before the word to blame, and the word.
fn of_if(alloc: Global, before: &[u8], word: &[u8], what: Spot) -> Result<Said, AllocError> {
    match (what, word) {
        (Spot::Opener, _) => Said::of(
            alloc,
            word,
            b" isn't ended by `fi`, or lacks its condition",
            IF_FORM,
        ),
        (_, b"else" | b"fi") if begins_part(word_before(before)) => of_empty_part(alloc, word),
        (_, b"then" | b"else" | b"fi") => Said::of(alloc, word, b" is out of place", IF_FORM),
        _ if before.trim_ascii_end().ends_with(b"if") => Said::of(
            alloc,
            word,
            b" can't be a condition",
            IF_FORM,
        ),
        _ => Said::of(alloc, word, b" stands where `then` should", IF_FORM),
    }
}

/// What is said of an `if` or a loop inside too many others.
fn of_depth(alloc: Global, word: &[u8]) -> Result<Said, AllocError> {
    let message: &[u8] = match word {
        b"for" => b" inside two others",
        _ => b" inside 16 others",
    };
    Said::of(
        alloc,
        word,
        message,
        b"make a part of it a target of its own",
    )
}

/// What is said of a quote that isn't closed.
fn of_quote(alloc: Global, word: &[u8]) -> Result<Said, AllocError> {
    let help: &[u8] = match word {
        b"'" => b"close it; an apostrophe stands in double quotes",
        _ => b"close it",
    };
    Said::of(alloc, word, b" opens a quote that isn't closed", help)
}

/// What is said of a fault of a script's text, which is at this place.
pub(crate) fn of_fault(
    alloc: Global,
    text: &[u8],
    fault: &ScriptFault,
    place: &FaultPlace,
) -> Result<Said, AllocError> {
    let start = place.span.start.min(text.len());
    let (before, from) = text.split_at(start);
    let word = &from[..place.span.end.saturating_sub(start).min(from.len())];
    match fault.why {
        Reason::Nul => Said::words(alloc, b"a zero byte", b"remove it: a script is text"),
        Reason::Interpreter => of_interpreter(alloc, word),
        Reason::OpenQuote => of_quote(alloc, word),
        Reason::Unsupported => of_unsupported(alloc, before, from, word, place.what),
        Reason::UnknownCommand => of_stranger(alloc, word),
        Reason::Shape if from.starts_with(b">>>>>>>") => {
            let help = b"finish the merge, and remove the marker's line";
            Ok(Said::words(alloc, b"a conflict marker", help)?.along(7))
        }
        Reason::Shape => of_shape(alloc, before, from, word, place.what),
        Reason::IfShape => of_if(alloc, before, word, place.what),
        Reason::TooDeep => of_depth(alloc, word),
        Reason::Memory => Said::words(alloc, b"out of memory", b""),
    }
}
