//! The options in the environment, in `REDOFLAGS`.

use crate::commands;
use crate::refusal::Refusal;
use clap::ArgMatches;
use std::alloc::{AllocError, Global};
use std::env;
use std::env::VarError;

/// The name of the variable.
pub(crate) const NAME: &str = "REDOFLAGS";

/// The variable's name, in place of the program's, and the words of the variable, if it is set.
pub(crate) fn words(rt: &HostRuntime, alloc: Global) -> Result<Vec<String>, Refusal> {
    let mut words = Vec::new(alloc);
    words.push(String::from_str(alloc, NAME)?)?;
    match env::var(rt, NAME) {
        Ok(text) => {
            for word in text.split_ascii_whitespace() {
                words.push(String::from_str(alloc, word)?)?;
            }
            Ok(words)
        }
        Err(VarError::NotPresent) => Ok(words),
        Err(VarError::NotUnicode) => Err(Refusal::FlagsNoText),
        Err(VarError::OutOfMemory) => Err(Refusal::Memory),
    }
}

/// The words with the variable's name in front, as they are shown.
pub(crate) fn shown(alloc: Global, words: &[String]) -> Result<String, AllocError> {
    let mut text = String::from_str(alloc, NAME)?;
    for (number, word) in words.iter().enumerate() {
        if number > 0 {
            text.push_str(if number == 1 { ": " } else { " " })?;
            text.push_str(word.as_str())?;
        }
    }
    Ok(text)
}

/// Refuses what can't stand there: targets, options that replace a build, `--take`, which is wanted only once, and
/// options that don't go together.
pub(crate) fn check(flags: &ArgMatches<'_>) -> Result<(), Refusal> {
    if flags.contains_id("targets") {
        return Err(Refusal::TargetsBeside(NAME));
    }
    if let Some(command) = commands::first_command(flags)? {
        return Err(Refusal::Excluded(NAME, command));
    }
    if commands::TAKE.is_in(flags) {
        return Err(Refusal::Excluded(NAME, commands::TAKE.1));
    }
    commands::check_pairs(flags)
}
