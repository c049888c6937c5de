//! Where the lexer stands, and the tokens that it hands on.

ghost use Rattle.std.specs.Prelude.{◌≡◌, ◌+◌, ◌<◌, ◌^◌, map, true, false, []};
ghost use Rattle.redo_script.specs.declared.lexer.Mode.TheVariants as modes;
ghost use Rattle.redo_script.specs.inside.Lexer.{token_of, reader_of, with_no_tokens, at_line};

use crate::lexer::{Lexer, Mode};
use crate::token::Token;
use std::mem;

impl<'a> Lexer<'a> {
    /// Whether it is between words.
    #[inline(always)]
    pub fn is_between(&self) -> bool
        ensures { result ≡ true → self.now.mode ≡ modes.Gap }
    {
        matches!(self.mode, Mode::Gap)
    }

    #[inline(always)]
    pub fn line(&self) -> u64
        ensures { result ≡ self.now.line }
    {
        self.line
    }

    /// Ends a line, and tells its number.
    #[inline(always)]
    pub fn end_line(&mut self) -> u64
        requires { self.old.line + 1 < 2 ^ 64 }
        ensures number { result ≡ self.old.line }
        ensures line { self.new ≡ at_line self.old (self.old.line + 1) }
    {
        let line = self.line;
        self.line += 1;
        line
    }

    /// Whether tokens were read since they were taken last.
    #[inline(always)]
    pub fn has_tokens(&self) -> bool
        ensures { result ≡ false → (reader_of self.now).tokens ≡ [] }
    {
        !self.tokens.is_empty()
    }

    /// The tokens read since the last call.
    #[inline(always)]
    pub fn take_tokens(&mut self) -> Vec<Token<'a>>
        ensures tokens { map token_of result.items ≡ (reader_of self.old).tokens }
        ensures taken { reader_of self.new ≡ with_no_tokens (reader_of self.old) }
        ensures line { self.new.line ≡ self.old.line }
    {
        mem::replace(&mut self.tokens, Vec::new(self.alloc))
    }

    /// Takes back the memory of tokens that were read.
    #[inline(always)]
    pub fn reuse(&mut self, tokens: Vec<Token<'a>>)
        requires { (reader_of self.old).tokens ≡ [] }
        ensures same { reader_of self.new ≡ reader_of self.old }
        ensures line { self.new.line ≡ self.old.line }
    {
        self.tokens = tokens;
        self.tokens.clear();
    }
}
