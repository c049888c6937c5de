//! The messages for a refused command line.

ghost use Rattle.std.specs.Prelude.{◌≡◌, true};
ghost use Rattle.redo_line.specs.Calls.{is_of_no_call};

use crate::asked::bad_target;
use crate::line::Line;
use crate::refusal::Refusal;
use crate::screen::voice_of;
use crate::voice::say;
use crate::{above, flags, status};
use bstr::BStr;
use clap::Error;
use clap::error::ErrorKind;
use redo_diagnose::shown_lines;
use redo_path::PathFault;
use std::alloc::{AllocError, Global};

/// A cause in words, or `None` if no more is known than the message says.
type Words = Result<Option<String>, AllocError>;

/// The refused target word, why it is refused, and what to say instead, if that is known. If memory ran out in the
/// search for it, there is no cause.
fn of_target(alloc: Global, bad: Option<(&str, PathFault)>, instead: Option<String>) -> Words {
    let Some((word, why)) = bad else {
        return Ok(None);
    };
    if why == PathFault::Memory {
        return Ok(None);
    }
    if let Some(help) = instead {
        return Ok(Some(format!(in alloc; "{word:?}: {why}; say {help}")?));
    }
    let word = BStr::new(word.as_bytes());
    Ok(Some(format!(in alloc; "{word:?}: {why}")?))
}

/// Why a build needs `-k`.
fn of_no_keep_going(alloc: Global) -> Words {
    Ok(Some(format!(in alloc;
        "a build that stopped at its first failure would come to other files for each order of its scripts; say redo -k"
    )?))
}

/// Shows the cause of a message, if it is known and memory suffices for its words.
pub(crate) fn show_cause<E: Drop>(rt: &HostRuntime, cause: Result<Option<String>, E>) {
    if let Ok(Some(words)) = cause {
        let _shown = eprintln!(rt; "redo: {words}");
    }
}

/// The line that shows the words in the environment. Escapes their unprintable characters.
fn text_of_flags(alloc: Global, words: &[String]) -> Result<Vec<u8>, AllocError> {
    let shown = flags::shown(alloc, words)?;
    let text = format!(in alloc; "redo: {shown}")?;
    shown_lines(alloc, text.as_bytes())
}

/// Shows the words in the environment, by which a refusal came.
pub(crate) fn show_flags(rt: &HostRuntime, alloc: Global, words: &[String]) {
    if let Ok(text) = text_of_flags(alloc, words) {
        say(rt, &text);
    }
}

/// Shows why the command line is refused. Returns the exit status.
pub(crate) fn refuse(rt: &HostRuntime, refusal: Refusal) -> u8
    ensures { is_of_no_call result ≡ true }
{
    let _shown = eprintln!(rt; "redo: {refusal}");
    status::of_refusal(refusal)
}

/// Why words that were read are refused, if more is known than the refusal says.
fn cause_of(rt: &HostRuntime, alloc: Global, refusal: Refusal, line: &Line<'_>) -> Words {
    match refusal {
        Refusal::BadTarget => match above::place_of(rt, alloc, line) {
            Ok(here) => {
                let bad = bad_target(alloc, line, &here.below);
                let instead = match bad {
                    Some((word, why)) => above::instead_of(rt, alloc, &here, word, why)?,
                    None => None,
                };
                of_target(alloc, bad, instead)
            }
            Err(_) => Ok(None),
        },
        Refusal::NoKeepGoing => of_no_keep_going(alloc),
        _ => Ok(None),
    }
}

/// Shows why words that were read are refused, and the word where causes are shown. Returns the exit status.
pub(crate) fn refuse_call(rt: &HostRuntime, alloc: Global, refusal: Refusal, line: &Line<'_>) -> u8
    ensures { is_of_no_call result ≡ true }
{
    let status = refuse(rt, refusal);
    if voice_of(rt, line).causes {
        show_cause(rt, cause_of(rt, alloc, refusal, line));
    }
    status
}

/// The text of a refusal. Escapes unprintable characters of the words that it repeats.
fn text_of_error(alloc: Global, error: &Error) -> Result<Vec<u8>, AllocError> {
    let text = format!(in alloc; "{error}")?;
    shown_lines(alloc, text.as_bytes())
}

/// Shows what the parse ended in: help or the version on standard output, a refusal on standard error. Returns the exit
/// status.
pub(crate) fn show_parse(rt: &HostRuntime, alloc: Global, error: &Error) -> u8
    ensures { is_of_no_call result ≡ true }
{
    if error.kind() == ErrorKind::OutOfMemory {
        return refuse(rt, Refusal::Memory);
    }
    if let (true, Ok(text)) = (error.use_stderr(), text_of_error(alloc, error)) {
        say(rt, &text);
        return status::of_parse(error);
    }
    if error.print(rt).is_err() && !error.use_stderr() {
        let _shown = eprintln!(rt; "redo: output failed");
        return status::OUTPUT;
    }
    status::of_parse(error)
}

/// Says what this program has in place of an option that others have.
pub(crate) fn show_instead(rt: &HostRuntime, error: &Error, words: &[String]) {
    let is_unknown = error.kind() == ErrorKind::UnknownArgument;
    if is_unknown && words.iter().any(|word| word.as_str() == "--force") {
        let _shown = eprintln!(rt; "redo: to build files that count as yours, say --take PATH");
    }
}
