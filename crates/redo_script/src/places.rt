//! Which bytes of a text are to blame for its fault, and which are the words of a statement.

mod lines;

ghost use Rattle.std.specs.Prelude.{◌≡◌, ◌≤◌, length, take, IfOk, IfSome, MatchOption, Err, All};
ghost use Rattle.redo_script.specs.Marks.{HasLine, IsInLine, IsInOneLine, AreInOrder, line_from, stop_of};
ghost use Rattle.redo_script.specs.inside.Stops.{StopsWith};
ghost use Rattle.redo_script.specs.Reading.{tokens_of};

use crate::fault::{Reason, ScriptFault};
use crate::lexer::stops::{Stop, stop_of_tokens};
use crate::parser::reading::{blamed, words_of};
use crate::places::lines::{clipped, in_line};
use std::alloc::{AllocError, Global};

/// Bytes of a text, all on one line: from `start`, counted from 0 in the text, up to but not including `end`.
#[derive(Clone, Copy, Debug, PartialEq, Eq)]
pub struct Span {
    pub start: usize,
    pub end: usize,
}

/// What stands at the place of a fault.
#[derive(Clone, Copy, Debug, PartialEq, Eq)]
pub enum Spot {
    /// A byte that can't be where it is. If it is a newline, or the text ends there, the span is empty.
    Byte,
    /// A quote that isn't closed.
    Quote,
    /// A `$` at the end of the text.
    Dollar,
    /// A whole line.
    Line,
    /// A word out of place, or one that is no command.
    Word,
    /// A `;`, `>` or `>>` out of place.
    Sign,
    /// The name of a command whose operands or redirection don't fit.
    Command,
    /// An operand that doesn't fit, or is one too many.
    Operand,
    /// A `$NAME` that no loop binds.
    Name,
    /// The `if` or `for` that isn't ended, or lacks what has to follow it on its line.
    Opener,
}

/// Where a fault is.
#[derive(Clone, Copy, Debug, PartialEq, Eq)]
pub struct FaultPlace {
    pub span: Span,
    pub what: Spot,
}

impl FaultPlace {
    /// What stands at these bytes, which are a whole line where they don't begin as those of the place do.
    fn what_at(&self, span: Span) -> Spot {
        if self.span.start == span.start {
            self.what
        } else {
            Spot::Line
        }
    }
}

/// Where the first NUL byte is; if there is none, the end of the text.
fn nul_at(text: &[u8]) -> usize
    ensures { result ≤ length text.now }
{
    for (at, byte) in text.iter().enumerate() {
        if *byte == 0 {
            return at;
        }
    }
    text.len()
}

/// The place where the tokens stop.
fn stop_place(text: &[u8], stop: Stop) -> FaultPlace
    requires { stop.at ≤ length text.now }
    ensures starts { result.span.start ≡ stop.at }
    ensures line { IsInLine text.now (line_from 1 (take stop.at text.now)) result.span }
{
    let what = match &text[stop.at..] {
        [b'$'] => Spot::Dollar,
        _ if stop.fault.why == Reason::OpenQuote => Spot::Quote,
        _ => Spot::Byte,
    };
    FaultPlace {
        span: clipped(text, stop.at, 1),
        what,
    }
}

/// Where the tokens of the text stop, if they do with this fault.
fn stop_with(alloc: Global, text: &[u8], fault: &ScriptFault) -> Result<Option<Stop>, AllocError>
    ensures { IfOk result (λ found. MatchOption found (tokens_of text.now ≡ Err fault.now → ⊥)
        (λ stop. StopsWith text.now stop × (stop.fault ≡ fault.now))) }
{
    match stop_of_tokens(alloc, text)? {
        Some(stop) if stop.fault == *fault => Ok(Some(stop)),
        _ => Ok(None),
    }
}

/// What a fault for this reason is to be shown at, if it isn't one of the tokens.
fn wished_place(alloc: Global, text: &[u8], why: Reason) -> Result<FaultPlace, AllocError> {
    match why {
        Reason::Nul => Ok(FaultPlace {
            span: clipped(text, nul_at(text), 1),
            what: Spot::Byte,
        }),
        Reason::Interpreter | Reason::Memory => Ok(FaultPlace {
            span: Span { start: 0, end: 0 },
            what: Spot::Line,
        }),
        _ => blamed(alloc, text),
    }
}

/// Where this fault of this text is. It reads the text once more, byte by byte: call it for messages alone.
pub fn place_of_fault(
    alloc: Global,
    text: &[u8],
    fault: &ScriptFault,
) -> Result<FaultPlace, AllocError>
    // The place is in the fault's line.
    ensures line { IfOk result (λ place.
        HasLine text.now fault.now.line → IsInLine text.now fault.now.line place.span) }

    // A fault of the tokens has the place where they stop.
    ensures tokens { IfOk result (λ place.
        tokens_of text.now ≡ Err fault.now → place.span.start ≡ stop_of text.now) }
{
    match stop_with(alloc, text, fault)? {
        Some(stop) => Ok(stop_place(text, stop)),
        None => {
            let place = wished_place(alloc, text, fault.why)?;
            let span = in_line(text, fault.line, place.span);
            let what = place.what_at(span);
            Ok(FaultPlace { span, what })
        }
    }
}

/// The words of the statement with this number: its name (`for`, or that of the condition behind `if`), its operands
/// (behind `in` for a loop), then the word of its redirection. `None` if there are fewer statements.
///
/// Statements are counted from 0, in the order in which they begin in the text: commands, `if` and `for`, each before
/// what is in it. A word with a newline in quotes is marked up to the end of the line on which it begins.
pub fn statement_words(
    alloc: Global,
    text: &[u8],
    number: usize,
) -> Result<Option<Vec<Span>>, AllocError>
    // Each is in one line of the text.
    ensures lines { IfOk result (λ found. IfSome found (λ words. All (IsInOneLine text.now) words.items)) }

    // They are in order, and none shares a byte with another.
    ensures order { IfOk result (λ found. IfSome found (λ words. AreInOrder words.items)) }
{
    match words_of(alloc, text, number)? {
        Some(words) => Ok(Some(in_order(alloc, text, &words)?)),
        None => Ok(None),
    }
}

/// These bytes of the text, each up to the end of its line. What isn't in the text or in order is left out.
fn in_order(alloc: Global, text: &[u8], words: &[Span]) -> Result<Vec<Span>, AllocError>
    ensures lines { IfOk result (λ kept. All (IsInOneLine text.now) kept.items) }
    ensures order { IfOk result (λ kept. AreInOrder kept.items) }
{
    let mut kept = Vec::new(alloc);
    let mut past = 0;
    for word in words {
        if word.start < past || word.end <= word.start || text.len() <= word.start {
            continue;
        }
        let span = clipped(text, word.start, word.end - word.start);
        kept.push(span)?;
        past = span.end;
    }
    Ok(kept)
}
