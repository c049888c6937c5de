//! A call of the program: the words of its command line and of the environment, read and checked.

ghost use Rattle.std.specs.Prelude.{◌≡◌, true, IfErr, IfOk};
ghost use Rattle.redo_line.specs.Calls.{HasWorkers, is_of_no_call};

use crate::actions::Call;
use crate::commands::VERBOSE;
use crate::line::Line;
use crate::refusal::Refusal;
use crate::refusing::{refuse, refuse_call, show_flags, show_instead, show_parse};
use crate::screen::voice_of;
use crate::{above, asked, flags, forms};
use clap::ArgMatches;
use std::alloc::Global;
use std::env;

/// What the command line asks for, with the words in the environment. `Err` is the exit status if there is nothing to
/// do: help, the version or a refusal was shown.
pub fn read_call(rt: &HostRuntime, alloc: Global, version: &str) -> Result<Call, u8>
    ensures status { IfErr result (λ s. is_of_no_call s ≡ true) }
    ensures workers { IfOk result (λ call. HasWorkers call.action) }
{
    match (words(rt, alloc), flags::words(rt, alloc)) {
        (Ok(words), Ok(more)) => read_words(rt, alloc, version, &words, &more),
        (Err(refusal), _) | (_, Err(refusal)) => Err(refuse(rt, refusal)),
    }
}

/// The same for the words of the command line, and those of the environment.
fn read_words(
    rt: &HostRuntime,
    alloc: Global,
    version: &str,
    words: &[String],
    more: &[String],
) -> Result<Call, u8>
    ensures status { IfErr result (λ s. is_of_no_call s ≡ true) }
    ensures workers { IfOk result (λ call. HasWorkers call.action) }
{
    let own = parse(rt, alloc, version, words)?;
    let flags = parse_flags(rt, alloc, version, more)?;
    let line = Line { own, flags };
    if line.flags.is_some() && line.has(VERBOSE) {
        show_flags(rt, alloc, more);
    }
    match call_of(rt, alloc, &line) {
        Ok(call) => Ok(call),
        Err(refusal) => Err(refuse_call(rt, alloc, refusal, &line)),
    }
}

/// What words say.
fn parse<'w>(
    rt: &HostRuntime,
    alloc: Global,
    version: &'w str,
    words: &'w [String],
) -> Result<ArgMatches<'w>, u8>
    ensures status { IfErr result (λ s. is_of_no_call s ≡ true) }
{
    let Ok(command) = forms::command(alloc, version) else {
        return Err(refuse(rt, Refusal::Memory));
    };
    match command.try_get_matches_from(words) {
        Ok(matches) => Ok(matches),
        Err(error) => {
            let status = show_parse(rt, alloc, &error);
            show_instead(rt, &error, words);
            Err(status)
        }
    }
}

/// Parses the words in the environment, if there are any. A refusal also shows where they come from.
fn parse_flags<'w>(
    rt: &HostRuntime,
    alloc: Global,
    version: &'w str,
    words: &'w [String],
) -> Result<Option<ArgMatches<'w>>, u8>
    ensures status { IfErr result (λ s. is_of_no_call s ≡ true) }
{
    if words.len() <= 1 {
        return Ok(None);
    }
    let Ok(command) = forms::command(alloc, version) else {
        return Err(refuse(rt, Refusal::Memory));
    };
    let matches = match command.try_get_matches_from(words) {
        Ok(matches) => matches,
        Err(error) => {
            if error.use_stderr() {
                show_flags(rt, alloc, words);
            }
            return Err(show_parse(rt, alloc, &error));
        }
    };
    if let Err(refusal) = flags::check(&matches) {
        show_flags(rt, alloc, words);
        return Err(refuse(rt, refusal));
    }
    Ok(Some(matches))
}

/// What the words ask for, in this place and on this standard error.
fn call_of(rt: &HostRuntime, alloc: Global, line: &Line<'_>) -> Result<Call, Refusal>
    ensures workers { IfOk result (λ call. HasWorkers call.action) }
{
    asked::check(line)?;
    let here = above::place_of(rt, alloc, line)?;
    let action = asked::action_of(alloc, line, here)?;
    let voice = voice_of(rt, line);
    Ok(Call { action, voice })
}

/// The words of the command line, after the program's name.
fn words(rt: &HostRuntime, alloc: Global) -> Result<Vec<String>, Refusal> {
    Ok(env::args(rt)?.collect(alloc)?)
}
