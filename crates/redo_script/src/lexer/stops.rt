//! Where the tokens of a text stop.

ghost use Rattle.std.specs.Prelude.{◌≡◌, ◌≢◌, ◌≤◌, ◌<◌, ◌+◌, ◌-◌, ◌^◌, IfOk, IfSome, OnOk, Some};
ghost use Rattle.redo_script.specs.Reading.{next_byte, at_end, tokens_of};
ghost use Rattle.redo_script.specs.inside.Calls.{Leaves};
ghost use Rattle.redo_script.specs.Marks.{is_inside, quote_after};
ghost use Rattle.redo_script.specs.inside.Lexer.{reader_of};
ghost use Rattle.redo_script.specs.inside.Stops.{Ends, IsAtEnd, StopsWith};
ghost use Rattle.redo_script.specs.declared.fault.Reason.TheVariants as reasons;

use crate::fault::{Reason, ScriptFault};
use crate::lexer::{Lexer, Mode};
use std::alloc::{AllocError, Global};

/// A fault of the tokens, and the byte at which it is.
#[derive(Clone, Copy, Debug, PartialEq, Eq)]
pub struct Stop {
    pub fault: ScriptFault,
    /// The byte that can't be there; the `$` that ends the text; or the quote that isn't closed.
    pub at: usize,
}

fn is_quoted(mode: Mode) -> bool
    ensures { result ≡ is_inside mode }
{
    match mode {
        Mode::Single | Mode::Double | Mode::QuotedDollar | Mode::QuotedName | Mode::Escape => true,
        Mode::Gap
        | Mode::Semicolon
        | Mode::Redirect
        | Mode::Comment
        | Mode::Word
        | Mode::Dollar
        | Mode::Name => false,
    }
}

/// A lexer, and where the quote is that was opened last.
#[derive(Drop)]
struct Quoting<'a> {
    lexer: Lexer<'a>,
    quote: usize,
}

impl<'a> Quoting<'a> {
    /// Reads the byte at `at`.
    fn byte(&mut self, at: usize, byte: u8) -> Result<(), ScriptFault>
        requires { self.old.lexer.line + 1 < 2 ^ 64 }
        ensures reads { Leaves reader_of self.new.lexer result (next_byte (reader_of self.old.lexer) byte) }
        ensures line { self.new.lexer.line ≤ self.old.lexer.line + 1 }
        ensures quote { OnOk result
            (self.new.quote ≡ quote_after self.old.lexer.mode self.new.lexer.mode at self.old.quote) }
    {
        let was_quoted = is_quoted(self.lexer.mode);
        self.lexer.byte(byte)?;
        if !was_quoted && is_quoted(self.lexer.mode) {
            self.quote = at;
        }
        Ok(())
    }
}

/// A stop, unless memory ran out.
fn stopped(fault: ScriptFault, at: usize) -> Result<Option<Stop>, AllocError>
    ensures { IfOk result (λ found.
        (found ≡ Some (record { fault = fault; at = at })) × (fault.why ≢ reasons.Memory)) }
{
    if fault.is_memory() {
        return Err(AllocError);
    }
    Ok(Some(Stop { fault, at }))
}

/// Where a text of this length stops at its end.
fn end_at(why: Reason, quote: usize, len: usize) -> usize
    ensures quote { why ≡ reasons.OpenQuote → result ≡ quote }
    ensures dollar { why ≡ reasons.Unsupported → result ≡ len - 1 }
{
    match why {
        Reason::OpenQuote => quote,
        _ => len.saturating_sub(1),
    }
}

/// Ends a text of this length.

fn ended(mut lexer: Lexer, quote: usize, len: usize) -> Result<Option<Stop>, AllocError>
    ensures fault { IfOk result (λ found. Ends (at_end (reader_of lexer.entry)) found) }
    ensures place { IfOk result (λ found. IsAtEnd quote len found) }
{
    let fault = match lexer.finish() {
        Ok(_) => return Ok(None),
        Err(fault) => fault,
    };
    stopped(fault, end_at(fault.why, quote, len))
}

/// Where the tokens of a text stop, if they have a fault.
pub fn stop_of_tokens(alloc: Global, text: &[u8]) -> Result<Option<Stop>, AllocError>
    ensures fault { IfOk result (λ found. Ends (tokens_of text.now) found) }
    ensures place { IfOk result (λ found. IfSome found (λ stop. StopsWith text.now stop)) }
{
    let mut quoting = Quoting {
        lexer: Lexer::new(alloc),
        quote: 0,
    };
    for (at, byte) in text.iter().enumerate() {
        if let Err(fault) = quoting.byte(at, *byte) {
            return stopped(fault, at);
        }
    }
    let Quoting { lexer, quote } = quoting;
    ended(lexer, quote, text.len())
}
