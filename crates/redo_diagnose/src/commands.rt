//! What is said of commands: of a word that is no command, and of one whose words don't fit.

use crate::near::nearest_word;
use crate::said::{Said, push_quoted};
use redo_script::Spot;
use std::alloc::{AllocError, Global};

/// A word in the place of a command, what is said behind it, and what to do.
type Stranger = (&'static [u8], &'static [u8], &'static [u8]);

const PROGRAM: &[u8] = b" is no command: scripts start no programs";

const MERGE: &[u8] = b"finish the merge, and remove the marker's line";

const STRANGERS: &[Stranger] = &[
    (b":", b" is no command", b"write `true`"),
    (
        b"redo",
        b" is no command of scripts",
        b"use redo-ifchange, which builds what isn't there",
    ),
    (
        b"redo-stamp",
        b" isn't needed: a target that comes out as it was is taken as unchanged",
        b"leave it out",
    ),
    (b"exec", PROGRAM, b"write to standard output, or to `$3`"),
    (b"cp", PROGRAM, b"`cat` the file, after redo-ifchange"),
    (b"mkdir", PROGRAM, b"make directories before the build"),
    (b"eval", PROGRAM, b"write the command out"),
    (
        b"set",
        b" is no command",
        b"leave it out: each script runs as under `sh -e`",
    ),
    (
        b"cd",
        b" is no command: a script runs in its .do file's directory",
        b"write paths from there",
    ),
    (b"break", b" is no command", b"use `if` in the loop's body"),
    (
        b"continue",
        b" is no command",
        b"use `if` in the loop's body",
    ),
    (b"return", b" is no command", b"use `exit`"),
    (
        b"export",
        b" is no command: scripts have no variables",
        b"write the value where it is used",
    ),
    (
        b".",
        b" is no command: a script can't run another",
        b"make what they share a target, and `cat` it",
    ),
    (
        b"source",
        b" is no command: a script can't run another",
        b"make what they share a target, and `cat` it",
    ),
    (
        b"function",
        b" is no command: scripts have no functions",
        b"make it a target, and `cat` that",
    ),
    (
        b"in",
        b" is no command",
        b"it belongs behind `for NAME`, on the same line",
    ),
    (b"=======", b" is a conflict marker", MERGE),
];

/// A name that a reader may have meant: the commands, and the words that begin others.
const NAMES: &[&[u8]] = &[
    b"echo",
    b"printf",
    b"cat",
    b"test",
    b"true",
    b"false",
    b"exit",
    b"redo-ifchange",
    b"redo-ifcreate",
    b"redo-always",
    b"if",
    b"then",
    b"else",
    b"fi",
    b"for",
    b"do",
    b"done",
];

const ALL: &[u8] =
    b"a script has echo, printf, cat, test, true, false, exit, redo-ifchange, redo-ifcreate, \
    redo-always, `if` and `for`";

/// Whether a word sets a variable: a name, and `=`.
fn sets_variable(word: &[u8]) -> bool {
    match word.iter().position(|byte| *byte == b'=') {
        Some(at) if at > 0 => word[..at]
            .iter()
            .all(|byte| byte.is_ascii_alphanumeric() || *byte == b'_'),
        _ => false,
    }
}

/// Whether a word has a quote or a parameter.
fn is_quoted(word: &[u8]) -> bool {
    word.iter().any(|byte| matches!(*byte, b'\'' | b'"' | b'$'))
}

/// What is said of a word that is no command.
pub(crate) fn of_stranger(alloc: Global, word: &[u8]) -> Result<Said, AllocError> {
    for (name, message, help) in STRANGERS {
        if word == *name {
            return Said::of(alloc, word, message, help);
        }
    }
    if sets_variable(word) {
        let help =
            b"write the value where it is used, or loop over it: `for NAME in VALUE; do LIST; done`";
        return Said::of(
            alloc,
            word,
            b" is no command: scripts have no variables",
            help,
        );
    }
    if is_quoted(word) {
        let help = b"write the name itself, without quotes and parameters";
        return Said::of(alloc, word, b" can't name a command", help);
    }
    match nearest_word(alloc, word, NAMES)? {
        Some(name) => Said::of(alloc, word, b" is no command", b"")?.with_help(
            b"did you mean ",
            name,
            b"?",
        ),
        None => Said::of(alloc, word, PROGRAM, ALL),
    }
}

/// The form of a loop.
const LOOP: &[u8] =
    b"write `for NAME in WORD..; do LIST; done`, with `do` and `done` unquoted behind `;` or a newline, \
    and a NAME that no loop around it has";

/// The words that a command takes, behind its name.
fn form_of(name: &[u8]) -> &'static [u8] {
    match name {
        b"echo" => b"it takes words, and may end in `> $3` or `>> $3`",
        b"printf" => b"it takes a format and words, and may end in `> $3` or `>> $3`",
        b"cat" => b"it takes one file or more, and may end in `> $3` or `>> $3`",
        b"test" => b"it takes `-f FILE`, `A = B` or `A != B`, and no redirection",
        b"exit" => b"it takes one number, from 0 to 255, unquoted, and no redirection",
        b"redo-ifchange" | b"redo-ifcreate" => b"it takes paths, and no redirection",
        b"redo-always" | b"true" | b"false" => b"it takes no words and no redirection",
        _ => LOOP,
    }
}

/// The name of the command whose words these are, the last of a line up to an operand.
fn command_before(before: &[u8]) -> &[u8] {
    let start = before
        .iter()
        .rposition(|byte| matches!(*byte, b'\n' | b';'))
        .map_or(0, |at| at + 1);
    for word in before[start..].split(|byte| matches!(*byte, b' ' | b'\t')) {
        if !matches!(word, b"" | b"if" | b"then" | b"else" | b"do") {
            return word;
        }
    }
    b""
}

fn is_keyword(word: &[u8]) -> bool {
    matches!(word, b"then" | b"else" | b"fi" | b"do" | b"done")
}

/// A keyword behind the first word of a statement, up to the end of its line or to `;`: it counts as a word there.
fn keyword_in(statement: &[u8]) -> Option<&[u8]> {
    let end = statement
        .iter()
        .position(|byte| matches!(*byte, b'\n' | b';'))
        .unwrap_or(statement.len());
    let mut is_behind = false;
    for word in statement[..end].split(|byte| matches!(*byte, b' ' | b'\t')) {
        if is_behind && is_keyword(word) {
            return Some(word);
        }
        is_behind |= !word.is_empty() && !is_keyword(word);
    }
    None
}

/// The same of a loop that a text ends in, before its body.
pub(crate) fn keyword_in_loop(before: &[u8]) -> Option<&[u8]> {
    let start = before
        .iter()
        .rposition(|byte| matches!(*byte, b'\n' | b';'))
        .map_or(0, |at| at + 1);
    if command_before(before) == b"for".as_slice() {
        keyword_in(&before[start..])
    } else {
        None
    }
}

/// What is said of a keyword that counts as a word.
pub(crate) fn of_keyword(alloc: Global, keyword: &[u8]) -> Result<Said, AllocError> {
    Said::of(
        alloc,
        keyword,
        b" counts as a word here",
        b"write `;` or a newline before it",
    )
}

/// What a script's text ends with before a word, without blanks and separators.
pub(crate) fn word_before(before: &[u8]) -> &[u8] {
    let text = before.trim_ascii_end();
    let text = text.strip_suffix(b";").unwrap_or(text).trim_ascii_end();
    let start = text
        .iter()
        .rposition(|byte| matches!(*byte, b' ' | b'\t' | b'\n' | b';'))
        .map_or(0, |at| at + 1);
    &text[start..]
}

/// Whether a part of an `if` or a loop begins here.
pub(crate) fn begins_part(word: &[u8]) -> bool {
    matches!(word, b"then" | b"else" | b"do")
}

/// What is said of a keyword that ends a part without a command.
pub(crate) fn of_empty_part(alloc: Global, keyword: &[u8]) -> Result<Said, AllocError> {
    Said::of(
        alloc,
        keyword,
        b" needs a command before it",
        b"write `true` where nothing is to be done",
    )
}

/// What is said of a sign in the place of a command.
fn of_sign(alloc: Global, before: &[u8], sign: &[u8]) -> Result<Said, AllocError> {
    if command_before(before) == b"for".as_slice() {
        return Said::of(alloc, sign, b" is out of place", LOOP);
    }
    match word_before(before) {
        b"done" | b"fi" if sign.starts_with(b">") => {
            Said::of(
                alloc,
                sign,
                b" behind an `if` or a loop isn't supported",
                b"redirect each command in it",
            )
        }
        _ => Said::of(
            alloc,
            sign,
            b" in the place of a command",
            b"write a command before it",
        ),
    }
}

/// What is said of an operand that its command doesn't take.
fn of_operand(alloc: Global, name: &[u8], word: &[u8]) -> Result<Said, AllocError> {
    if is_keyword(word) {
        return of_keyword(alloc, word);
    }
    let mut said = Said::of(alloc, name, b" doesn't take ", form_of(name))?;
    push_quoted(&mut said.message, word)?;
    Ok(said)
}

/// What is said of a command, a loop or a sign that doesn't have its form. `before` is the text before the word to blame,
/// and `from` that from it on.
pub(crate) fn of_shape(
    alloc: Global,
    before: &[u8],
    from: &[u8],
    word: &[u8],
    what: Spot,
) -> Result<Said, AllocError> {
    if what == Spot::Command {
        if let Some(keyword) = keyword_in(from) {
            return of_keyword(alloc, keyword);
        }
    }
    match what {
        Spot::Command => Said::of(alloc, word, b" can't be written like this", form_of(word)),
        Spot::Operand => of_operand(alloc, command_before(before), word),
        Spot::Sign => of_sign(alloc, before, word),
        Spot::Word if word == b"done".as_slice() && begins_part(word_before(before)) => {
            of_empty_part(alloc, word)
        }
        Spot::Opener => Said::of(
            alloc,
            word,
            b" isn't ended by `done`, or lacks its name and `in`",
            LOOP,
        ),
        _ => Said::of(alloc, word, b" is out of place", LOOP),
    }
}
