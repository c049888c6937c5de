//! What is said of scripts that failed while they ran.

use crate::said::{Said, push_quoted, push_word};
use redo_path::{Path, PathFault, resolve};
use redo_record::{Outcome, Why};
use redo_step::Answers;
use redo_tree::Tree;
use redo_which::Found;
use redo_which::lookup::find;
use std::alloc::{AllocError, Global};

/// The command that ended a script: its name, its words as they are written, and what the word to blame stood for.
#[derive(Clone, Copy)]
pub(crate) struct Blamed<'t, 'v, 'd> {
    pub(crate) command: &'t [u8],
    pub(crate) written: &'t [u8],
    pub(crate) word: Option<&'t [u8]>,
    pub(crate) value: &'v [u8],
    /// The directory from which the script's words are read.
    pub(crate) dir: &'d Path,
}

const CHANGE: &[u8] = b"redo-ifchange it instead";

/// What is said of a parameter outside quotes.
fn of_unquoted(alloc: Global, blamed: &Blamed<'_, '_, '_>) -> Result<Said, AllocError> {
    let word = blamed.word.unwrap_or(b"a word");
    let mut said = Said::of(
        alloc,
        word,
        b" needs double quotes: a parameter in it ",
        b"",
    )?;
    if blamed.value.is_empty() {
        said.message.extend_from_slice(b"is empty")?;
    } else {
        said.message.extend_from_slice(b"stands for ")?;
        push_quoted(&mut said.message, blamed.value)?;
    }
    Ok(said)
}

/// What is said of a word that names no path.
fn of_outside(alloc: Global, blamed: &Blamed<'_, '_, '_>) -> Result<Said, AllocError> {
    const OUT: &[u8] = b" is outside the tree";
    const BAD: &[u8] = b" is no path";
    let (message, help): (&[u8], &[u8]) = match resolve(alloc, blamed.dir, blamed.value) {
        Err(PathFault::Empty) => return Said::words(
            alloc,
            b"an empty word is no path",
            b"name a file",
        ),
        Err(PathFault::Absolute) if blamed.value.starts_with(b"/dev/") => (
            OUT,
            b"leave it out: a script reads files of the tree, and writes to standard output or to `$3`",
        ),
        Err(PathFault::Absolute) => (
            OUT,
            b"copy it into the tree, and write its path from the .do file's directory",
        ),
        Err(PathFault::Above) => (OUT, b"paths are read from the .do file's directory"),
        Err(PathFault::BadByte(_)) => (BAD, b"it has a control byte"),
        Err(PathFault::LongName) => (BAD, b"it has a name of more than 255 bytes"),
        Err(PathFault::LongPath) => (BAD, b"it has more than 1,024 bytes"),
        Err(PathFault::Memory) | Ok(_) => (BAD, b""),
    };
    Said::of(alloc, blamed.value, message, help)
}

/// Whether a word was meant for an option, of which commands have none.
fn is_option(blamed: &Blamed<'_, '_, '_>) -> bool {
    blamed.value.starts_with(b"-") && blamed.value.len() > 1
}

/// Whether redo-ifchange of a path would fail, as it is no source and no rule makes it.
fn cannot_be_had(
    alloc: Global,
    tree: &Tree,
    blamed: &Blamed<'_, '_, '_>,
) -> Result<bool, AllocError> {
    match resolve(alloc, blamed.dir, blamed.value) {
        Ok(path) => match find(alloc, tree, &path)? {
            Found::NoRule { .. } | Found::NoDirectory => Ok(true),
            Found::Source | Found::Directory | Found::Rule(_) => Ok(false),
        },
        Err(_) => Ok(false),
    }
}

/// Whether a word is the file that the script makes.
fn is_output(word: Option<&[u8]>) -> bool {
    word == Some(b"$3".as_slice()) || word == Some(b"\"$3\"".as_slice())
}

/// What is said of a path that the script hasn't declared. `test -f` asks for one that may be missing.
fn of_undeclared(
    alloc: Global,
    tree: &Tree,
    blamed: &Blamed<'_, '_, '_>,
) -> Result<Said, AllocError> {
    if is_option(blamed) {
        let help = b"commands take no options; leave it out";
        return Said::of(alloc, blamed.value, b" is read as a path", help);
    }
    if is_output(blamed.word) {
        let help = b"`$3` is what the script makes: it can't be read";
        return Said::of(alloc, blamed.value, b" isn't declared", help);
    }
    if blamed.command == b"test".as_slice() && cannot_be_had(alloc, tree, blamed)? {
        let help =
            b"it isn't there, and no rule makes it: for a file that may be missing write a rule, which needn't print \
            anything, or say redo-ifcreate in a branch where it has to be missing";
        return Said::of(alloc, blamed.value, b" isn't declared", help);
    }
    let mut said = Said::of(
        alloc,
        blamed.value,
        b" isn't declared",
        b"say `redo-ifchange ",
    )?;
    push_word(&mut said.help, blamed.word.unwrap_or(blamed.value))?;
    said.help.extend_from_slice(b"` first")?;
    Ok(said)
}

/// What is said of an operand of redo-ifcreate that exists.
fn of_existing(
    alloc: Global,
    tree: &Tree,
    blamed: &Blamed<'_, '_, '_>,
) -> Result<Said, AllocError> {
    let is_file = match resolve(alloc, blamed.dir, blamed.value) {
        Ok(path) => tree.file(&path).is_some(),
        Err(_) => false,
    };
    let (message, help): (&[u8], &[u8]) = if is_file {
        (b" is a file", CHANGE)
    } else {
        (b" is a directory", b"name a file in it")
    };
    Said::of(alloc, blamed.value, message, help)
}

/// What is said of a command that ended its script with a status.
fn of_exit<A: Answers>(
    alloc: Global,
    answers: &A,
    status: u8,
    blamed: &Blamed<'_, '_, '_>,
) -> Result<Said, AllocError> {
    let words = format!(in alloc; "exit {status}: ")?;
    let mut said = Said::words(alloc, words.as_bytes(), b"")?;
    match blamed.command {
        b"cat" => {
            push_quoted(&mut said.message, blamed.value)?;
            let why: &[u8] = match resolve(alloc, blamed.dir, blamed.value) {
                Ok(path) => match answers.answer(&path) {
                    Some(Outcome::Built(None)) => b" has no file, as it was built without one",
                    _ => b" has no file, as redo-ifcreate has declared",
                },
                Err(_) => b" has no file",
            };
            said.message.extend_from_slice(why)?;
            said.help.extend_from_slice(b"ask `if test -f ")?;
            push_word(&mut said.help, blamed.word.unwrap_or(blamed.value))?;
            said.help.extend_from_slice(b"` first")?;
        }
        b"test" => {
            push_quoted(&mut said.message, blamed.written)?;
            said.message.extend_from_slice(b" doesn't hold")?;
            said.help
                .extend_from_slice(b"put it behind `if` where that is no failure")?;
        }
        _ => {
            let words = format!(in alloc; " ends the script with status {status}")?;
            said = Said::of(alloc, blamed.written, words.as_bytes(), b"")?;
        }
    }
    Ok(said)
}

/// The first sequence of a format that printf doesn't take.
fn unknown_sequence(format: &[u8]) -> Option<&[u8]> {
    let mut rest = format;
    while let [byte, after @ ..] = rest {
        rest = match (*byte, after) {
            (b'%', [b's' | b'%', more @ ..]) | (b'\\', [b'n' | b't' | b'\\', more @ ..]) => more,
            (b'%' | b'\\', _) => return Some(&rest[..rest.len().min(2)]),
            _ => after,
        };
    }
    None
}

/// What is said of a format.
fn of_format(alloc: Global, format: &[u8]) -> Result<Said, AllocError> {
    match unknown_sequence(format) {
        Some(sequence) => {
            let help = b"printf takes `%s`, `%%`, `\\n`, `\\t` and `\\\\`";
            Said::of(alloc, sequence, b" isn't supported in a format", help)
        }
        None => {
            let help = b"write one `%s` or more for them";
            Said::of(alloc, format, b" takes no words: it has no `%s`", help)
        }
    }
}

/// What is said of the command that ended a script with this reason.
pub(crate) fn of_end<A: Answers>(
    alloc: Global,
    tree: &Tree,
    answers: &A,
    why: Why,
    blamed: &Blamed<'_, '_, '_>,
) -> Result<Said, AllocError> {
    let said = match why {
        Why::Exit(status) => of_exit(alloc, answers, status, blamed)?,
        Why::Unquoted(_) => of_unquoted(alloc, blamed)?,
        Why::Outside(_) => of_outside(alloc, blamed)?,
        Why::Undeclared(_) => of_undeclared(alloc, tree, blamed)?,
        Why::Exists(_) => of_existing(alloc, tree, blamed)?,
        Why::Buildable(_) => Said::of(alloc, blamed.value, b" has a rule", CHANGE)?,
        Why::Direct(_) => {
            let help = b"write `> $3`, or to standard output";
            Said::of(alloc, blamed.value, b" is the target itself", help)?
        }
        Why::Elsewhere(_) => {
            let help = b"write `> $3`: a script makes its target alone";
            Said::of(alloc, blamed.value, b" is another file", help)?
        }
        Why::TooLarge(_) => {
            Said::words(
                alloc,
                b"the file would pass 16,777,216 bytes",
                b"split the target",
            )?
        }
        Why::Format(_) => of_format(alloc, blamed.value)?,
        Why::BothOutputs
        | Why::NoRule
        | Why::Directory
        | Why::NoDirectory
        | Why::Script(_)
        | Why::Depends(_) => of_whole(alloc, why)?,
    };
    Ok(said)
}

/// What is said of a script of which no command is to blame.
pub(crate) fn of_whole(alloc: Global, why: Why) -> Result<Said, AllocError> {
    match why {
        Why::BothOutputs => {
            let help = b"use one of them";
            Said::words(alloc, b"standard output and `$3` were both written", help)
        }
        _ => {
            let words = format!(in alloc; "{why}")?;
            Said::words(alloc, words.as_bytes(), b"")
        }
    }
}
