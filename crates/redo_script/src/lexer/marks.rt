//! Tokens with the bytes that they are read from.

ghost use Rattle.std.specs.Prelude.{◌≡◌, ◌≤◌, ◌<◌, ◌+◌, ◌^◌};

use crate::fault::ScriptFault;
use crate::lexer::{Lexer, Mode};
use crate::places::Span;
use crate::token::Token;
use std::alloc::{AllocError, Global};

/// A token, and the bytes that it is read from.
#[derive(Drop)]
pub struct Marked<'a> {
    pub token: Token<'a>,
    pub span: Span,
}

/// The bytes of a token that begins at `begun`, if it is longer than one byte, and ends at or before the byte `at`.
fn span_of(token: &Token, begun: usize, at: usize) -> Span {
    match token {
        Token::Word(_, _) | Token::Redirect(_, false) => Span {
            start: begun,
            end: at,
        },
        Token::Redirect(_, true) => Span {
            start: begun,
            end: at.saturating_add(1),
        },
        Token::Semicolon(_) | Token::Newline(_) => Span {
            start: at,
            end: at.saturating_add(1),
        },
    }
}

fn is_name(mode: Mode) -> bool {
    matches!(mode, Mode::Name | Mode::QuotedName)
}

/// Whether the byte before the next one is outside of tokens.
fn is_between(mode: Mode) -> bool {
    matches!(mode, Mode::Gap | Mode::Semicolon | Mode::Comment)
}

/// Reads a text byte by byte.
#[derive(Drop)]
pub struct Scanner<'a> {
    lexer: Lexer<'a>,
    /// Where the token begins that was begun last.
    begun: usize,
    /// Where the `$` stands that was read last before a name.
    dollar: usize,
    /// Each `$NAME` since the last call of `forget_names`.
    names: Vec<Span>,
}

impl<'a> Scanner<'a> {
    pub fn new(alloc: Global) -> Scanner<'a>
        ensures { result.lexer.line ≡ 1 }
    {
        Scanner {
            lexer: Lexer::new(alloc),
            begun: 0,
            dollar: 0,
            names: Vec::new(alloc),
        }
    }

    pub fn names(&self) -> &[Span] {
        &self.names
    }

    pub fn forget_names(&mut self)
        ensures { self.new.lexer ≡ self.old.lexer }
    {
        self.names.clear();
    }

    /// Notes where names begin and end, given what the byte before this one belongs to.
    fn note_name(&mut self, before: Mode, at: usize) -> Result<(), AllocError>
        ensures { self.new.lexer ≡ self.old.lexer }
    {
        let is_inside = is_name(self.lexer.mode);
        if is_inside && !is_name(before) {
            self.dollar = at.saturating_sub(1);
        }
        if is_name(before) && !is_inside {
            self.names.push(Span {
                start: self.dollar,
                end: at,
            })?;
        }
        Ok(())
    }

    /// The tokens that this byte has ended, which is the one at `at`.
    fn take(&mut self, at: usize) -> Result<Vec<Marked<'a>>, ScriptFault>
        ensures { self.new.lexer.line ≡ self.old.lexer.line }
    {
        let mut marked = Vec::new(self.lexer.alloc);
        for token in self.lexer.take_tokens() {
            let span = span_of(&token, self.begun, at);
            marked.push(Marked { token, span })?;
        }
        Ok(marked)
    }

    /// Reads the byte at `at`. What it returns are the tokens that end there.
    pub fn byte(&mut self, at: usize, byte: u8) -> Result<Vec<Marked<'a>>, ScriptFault>
        requires { self.old.lexer.line + 1 < 2 ^ 64 }
        ensures { self.new.lexer.line ≤ self.old.lexer.line + 1 }
    {
        let before = self.lexer.mode;
        self.lexer.byte(byte)?;
        self.note_name(before, at)?;
        let marked = if self.lexer.tokens.is_empty() {
            Vec::new(self.lexer.alloc)
        } else {
            self.take(at)?
        };
        let is_next = is_between(before) || !marked.is_empty();
        if is_next && !is_between(self.lexer.mode) {
            self.begun = at;
        }
        Ok(marked)
    }
}
