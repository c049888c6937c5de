//! Why a target failed, in the words of a report, and in which line of its script.

ghost use Rattle.std.specs.Prelude.{◌≡◌, IfOk, string_bytes};
ghost use Rattle.redo_report.specs.ReportText.{reason_word, why_words, word_at as words_at};
ghost use Rattle.redo_diagnose.specs.Diagnoses.{line_named as line_in_words};

use itoa::Buffer;
use redo_record::Why;
use redo_script::{Reason, ScriptFault};
use std::alloc::{AllocError, Global};

/// The word for what is wrong with a script.
fn word_of_reason(reason: Reason) -> &'static str
    ensures { result.now ≡ reason_word reason }
{
    match reason {
        Reason::Nul => "nul",
        Reason::Interpreter => "interpreter",
        Reason::OpenQuote => "openquote",
        Reason::Unsupported => "unsupported",
        Reason::UnknownCommand => "unknowncommand",
        Reason::Shape => "shape",
        Reason::IfShape => "ifshape",
        Reason::TooDeep => "toodeep",
        Reason::Memory => "memory",
    }
}

/// A word and a number.
fn word_at(alloc: Global, word: &str, number: u64) -> Result<String, AllocError>
    ensures { IfOk result (λ text. string_bytes text ≡ words_at word.now number) }
{
    let mut digits = Buffer::new();
    let mut text = String::from_str(alloc, word)?;
    text.push_str(" ")?;
    text.push_str(digits.format(number))?;
    Ok(text)
}

/// What is wrong with a script, in words.
fn fault_words(alloc: Global, fault: ScriptFault) -> Result<String, AllocError>
    ensures { IfOk result (λ text. string_bytes text ≡ why_words (Why.Script fault)) }
{
    let mut text = word_at(alloc, "script", fault.line)?;
    text.push_str(" ")?;
    text.push_str(word_of_reason(fault.why))?;
    Ok(text)
}

/// Why a target failed, in the words of a report.
pub fn why_text(alloc: Global, why: Why) -> Result<String, AllocError>
    ensures { IfOk result (λ text. string_bytes text ≡ why_words why) }
{
    match why {
        Why::NoRule => String::from_str(alloc, "norule"),
        Why::Directory => String::from_str(alloc, "directory"),
        Why::NoDirectory => String::from_str(alloc, "nodirectory"),
        Why::Script(fault) => fault_words(alloc, fault),
        Why::Exit(status) => word_at(alloc, "exit", u64::from(status)),
        Why::Depends(line) => word_at(alloc, "depends", line),
        Why::Unquoted(line) => word_at(alloc, "unquoted", line),
        Why::Outside(line) => word_at(alloc, "outside", line),
        Why::Undeclared(line) => word_at(alloc, "undeclared", line),
        Why::Exists(line) => word_at(alloc, "exists", line),
        Why::Buildable(line) => word_at(alloc, "buildable", line),
        Why::Direct(line) => word_at(alloc, "direct", line),
        Why::Elsewhere(line) => word_at(alloc, "elsewhere", line),
        Why::BothOutputs => String::from_str(alloc, "both"),
        Why::TooLarge(line) => word_at(alloc, "toolarge", line),
        Why::Format(line) => word_at(alloc, "format", line),
    }
}

/// The line of the script that a reason names, from 1, if it names one.
pub fn line_named(why: Why) -> Option<u64>
    ensures { result ≡ line_in_words why }
{
    match why {
        Why::NoRule | Why::Directory | Why::NoDirectory | Why::Exit(_) | Why::BothOutputs => None,
        Why::Script(fault) => Some(fault.line),
        Why::Depends(line)
        | Why::Unquoted(line)
        | Why::Outside(line)
        | Why::Undeclared(line)
        | Why::Exists(line)
        | Why::Buildable(line)
        | Why::Direct(line)
        | Why::Elsewhere(line)
        | Why::TooLarge(line)
        | Why::Format(line) => Some(line),
    }
}
