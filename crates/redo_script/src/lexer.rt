//! From bytes to tokens, byte by byte.

mod handing;
pub mod marks;
mod runs;
pub mod stops;

ghost use Rattle.std.specs.Prelude.{◌≡◌, ◌+◌, ◌<◌, ◌≤◌, ◌^◌, map, Ok, OnOk, []};
ghost use Rattle.redo_script.specs.Faults.{Gives, fault_at};
ghost use Rattle.redo_script.specs.inside.Calls.{Leaves, with_symbols};
ghost use Rattle.redo_script.specs.Syntax.{byte as byte_symbol, named_bare, named_quoted};
ghost use Rattle.redo_script.specs.View.{symbols_of_part};
ghost use Rattle.redo_script.specs.Reading.{next_byte, at_end, at_start, in_word, gap_byte, word_byte};
ghost use Rattle.redo_script.specs.Reading.{in_single, in_double, after_backslash, after_dollar};
ghost use Rattle.redo_script.specs.Reading.{after_quoted_dollar, after_redirect, parameter_named, with_name};
ghost use Rattle.redo_script.specs.Reading.{with_name_byte, in_name, in_quoted_name};
ghost use Rattle.redo_script.specs.Reading.{with_word, with_token, with_symbol, with_quote};
ghost use Rattle.redo_script.specs.Reading.{with_begun_word};
ghost use Rattle.redo_script.specs.declared.fault.Reason.TheVariants as reasons;
ghost use Rattle.redo_script.specs.declared.lexer.Mode.TheVariants as modes;
ghost use Rattle.redo_script.specs.inside.Lexer.{token_of, reader_of};

use crate::ast::{Parameter, Part};
use crate::bytes::{is_name_byte, is_name_start, is_plain_byte};
use crate::fault::{Reason, ScriptFault};
use crate::item::Item;
use crate::token::Token;
use redo_bytes::Bytes;
use std::alloc::Global;
use std::mem;

/// What the next byte belongs to.
#[derive(Clone, Copy, Debug, PartialEq, Eq)]
pub enum Mode {
    /// Between words.
    Gap,
    /// Directly after `;`.
    Semicolon,
    /// Directly after `>`.
    Redirect,
    Comment,
    Word,
    /// After `$`.
    Dollar,
    /// In a name after `$`.
    Name,
    /// In single quotes.
    Single,
    /// In double quotes.
    Double,
    /// After `$` in double quotes.
    QuotedDollar,
    /// In a name after `$` in double quotes.
    QuotedName,
    /// After a backslash in double quotes.
    Escape,
}

/// Reads a text byte by byte. Its tokens are taken from time to time.
#[derive(Drop)]
pub struct Lexer<'a> {
    alloc: Global,
    mode: Mode,
    line: u64,
    /// The line of the quote that was opened last.
    opened: u64,
    word_line: u64,
    is_plain: bool,
    is_number: bool,
    parts: Vec<Part>,
    /// Bytes of the word after its parts.
    literal: Vec<u8>,
    /// The name that was begun last.
    name: Vec<u8>,
    tokens: Vec<Token<'a>>,
}

impl<'a> Lexer<'a> {
    fn unsupported<T>(&self) -> Result<T, ScriptFault>
        ensures { result ≡ fault_at self.now.line reasons.Unsupported }
    {
        Err(ScriptFault {
            line: self.line,
            why: Reason::Unsupported,
        })
    }

    fn push_byte(&mut self, mode: Mode, byte: u8) -> Result<(), ScriptFault>
        ensures reads { Leaves reader_of self.new result
            (Ok (with_symbol (reader_of self.old) mode (byte_symbol byte))) }
        ensures line { self.new.line ≡ self.old.line }
    {
        self.literal.push(byte)?;
        self.mode = mode;
        Ok(())
    }

    /// Turns the bytes after the parts into a part.
    #[inline(always)]
    fn end_literal(&mut self) -> Result<(), ScriptFault>
        ensures same { Leaves reader_of self.new result (Ok (reader_of self.old)) }
        ensures line { self.new.line ≡ self.old.line }
        ensures mode { OnOk result (self.new.mode ≡ self.old.mode) }
        ensures emptied { OnOk result (self.new.literal.items ≡ []) }
    {
        if !self.literal.is_empty() {
            let literal = Bytes::from_slice(self.alloc, &self.literal)?;
            self.parts.push(Part::Lit(literal))?;
            self.literal.clear();
        }
        Ok(())
    }

    #[inline(always)]
    fn push_parameter(&mut self, mode: Mode, part: Part) -> Result<(), ScriptFault>
        ensures reads { Leaves reader_of self.new result
            (Ok (with_symbols (reader_of self.old) mode (symbols_of_part part))) }
        ensures line { self.new.line ≡ self.old.line }
    {
        self.end_literal()?;
        self.parts.push(part)?;
        self.mode = mode;
        Ok(())
    }

    #[inline(always)]
    fn push_token(&mut self, token: Token<'a>) -> Result<(), ScriptFault>
        ensures reads { Leaves reader_of self.new result (Ok (with_token (reader_of self.old) (token_of token.entry))) }
        ensures line { self.new.line ≡ self.old.line }
    {
        self.tokens.push(token)?;
        self.mode = Mode::Gap;
        Ok(())
    }

    /// Ends the current word.
    #[inline(always)]
    fn push_word(&mut self) -> Result<(), ScriptFault>
        ensures reads { Leaves reader_of self.new result (Ok (with_word (reader_of self.old))) }
        ensures line { self.new.line ≡ self.old.line }
    {
        self.end_literal()?;
        let mut parts = Vec::with_capacity(self.alloc, self.parts.len())?;
        parts.append(&mut self.parts)?;
        self.push_token(Token::Word(self.word_line, Item::Built(self.is_plain, parts)))
    }

    fn open_quote(&mut self, mode: Mode)
        ensures { reader_of self.new ≡ with_quote (reader_of self.old) mode }
    {
        self.mode = mode;
        self.opened = self.line;
        self.is_plain = false;
        self.is_number = false;
    }

    #[tactic(auto, unfolding(crate::specs::Bytes::is_plain))]
    fn word_byte(&mut self, byte: u8) -> Result<(), ScriptFault>
        ensures reads { Leaves reader_of self.new result (word_byte (reader_of self.old) byte) }
        ensures line { self.new.line ≡ self.old.line }
    {
        match byte {
            b'\'' => self.open_quote(Mode::Single),
            b'"' => self.open_quote(Mode::Double),
            b'$' => self.open_quote(Mode::Dollar),
            _ => {
                if !is_plain_byte(byte) {
                    return self.unsupported();
                }
                self.push_byte(Mode::Word, byte)?;
                self.is_number = self.is_number && byte.is_ascii_digit();
            }
        }
        Ok(())
    }

    fn single_byte(&mut self, byte: u8) -> Result<(), ScriptFault>
        requires { self.old.line + 1 < 2 ^ 64 }
        ensures reads { Leaves reader_of self.new result (in_single (reader_of self.old) byte) }
        ensures line { self.new.line ≤ self.old.line + 1 }
    {
        if byte == b'\'' {
            self.mode = Mode::Word;
            return Ok(());
        }
        self.push_byte(Mode::Single, byte)?;
        if byte == b'\n' {
            self.line += 1;
        }
        Ok(())
    }

    fn double_byte(&mut self, byte: u8) -> Result<(), ScriptFault>
        requires { self.old.line + 1 < 2 ^ 64 }
        ensures reads { Leaves reader_of self.new result (in_double (reader_of self.old) byte) }
        ensures line { self.new.line ≤ self.old.line + 1 }
    {
        match byte {
            b'"' => self.mode = Mode::Word,
            b'$' => self.mode = Mode::QuotedDollar,
            b'\\' => self.mode = Mode::Escape,
            b'`' => return self.unsupported(),
            _ => {
                self.push_byte(Mode::Double, byte)?;
                if byte == b'\n' {
                    self.line += 1;
                }
            }
        }
        Ok(())
    }

    fn escaped_byte(&mut self, byte: u8) -> Result<(), ScriptFault>
        ensures reads { Leaves reader_of self.new result (after_backslash (reader_of self.old) byte) }
        ensures line { self.new.line ≡ self.old.line }
    {
        if byte == b'\n' {
            return self.unsupported();
        }
        if !matches!(byte, b'$' | b'`' | b'"' | b'\\') {
            self.push_byte(Mode::Double, b'\\')?;
        }
        self.push_byte(Mode::Double, byte)
    }

    /// Begins a name.
    fn begin_name(&mut self, mode: Mode, byte: u8) -> Result<(), ScriptFault>
        ensures reads { Leaves reader_of self.new result (Ok (with_name (reader_of self.old) mode byte)) }
        ensures line { self.new.line ≡ self.old.line }
    {
        self.name.clear();
        self.name.push(byte)?;
        self.mode = mode;
        Ok(())
    }

    fn parameter_byte(&mut self, byte: u8) -> Result<(), ScriptFault>
        ensures reads { Leaves reader_of self.new result (after_dollar (reader_of self.old) byte) }
        ensures line { self.new.line ≡ self.old.line }
    {
        if is_name_start(byte) {
            return self.begin_name(Mode::Name, byte);
        }
        match parameter_of(byte) {
            Some(parameter) => self.push_parameter(Mode::Word, Part::Bare(parameter)),
            None => self.unsupported(),
        }
    }

    fn quoted_parameter_byte(&mut self, byte: u8) -> Result<(), ScriptFault>
        ensures reads { Leaves reader_of self.new result (after_quoted_dollar (reader_of self.old) byte) }
        ensures line { self.new.line ≡ self.old.line }
    {
        if is_name_start(byte) {
            return self.begin_name(Mode::QuotedName, byte);
        }
        match parameter_of(byte) {
            Some(parameter) => self.push_parameter(Mode::Double, Part::Quoted(parameter)),
            None => self.unsupported(),
        }
    }

    /// Ends a name outside quotes.
    fn push_name(&mut self) -> Result<(), ScriptFault>
        ensures reads { Leaves reader_of self.new result
            (Ok (with_symbol (reader_of self.old) modes.Word (named_bare (reader_of self.old).name))) }
        ensures line { self.new.line ≡ self.old.line }
    {
        let name = Bytes::from_slice(self.alloc, &self.name)?;
        self.push_parameter(Mode::Word, Part::NamedBare(name))
    }

    /// Ends a name in double quotes.
    fn push_quoted_name(&mut self) -> Result<(), ScriptFault>
        ensures reads { Leaves reader_of self.new result
            (Ok (with_symbol (reader_of self.old) modes.Double (named_quoted (reader_of self.old).name))) }
        ensures line { self.new.line ≡ self.old.line }
    {
        let name = Bytes::from_slice(self.alloc, &self.name)?;
        self.push_parameter(Mode::Double, Part::NamedQuoted(name))
    }

    fn begin_word(&mut self)
        ensures { reader_of self.new ≡ with_begun_word (reader_of self.old) }
    {
        self.word_line = self.line;
        self.is_plain = true;
        self.is_number = true;
        self.parts.clear();
        self.literal.clear();
    }

    #[inline(always)]
    fn gap_byte(&mut self, byte: u8) -> Result<(), ScriptFault>
        requires { self.old.line + 1 < 2 ^ 64 }
        ensures reads { Leaves reader_of self.new result (gap_byte (reader_of self.old) byte) }
        ensures line { self.new.line ≤ self.old.line + 1 }
    {
        match byte {
            b' ' | b'\t' => self.mode = Mode::Gap,
            b'\n' => {
                self.push_token(Token::Newline(self.line))?;
                self.line += 1;
            }
            b';' => {
                self.push_token(Token::Semicolon(self.line))?;
                self.mode = Mode::Semicolon;
            }
            b'>' => self.mode = Mode::Redirect,
            b'#' => self.mode = Mode::Comment,
            _ => {
                self.begin_word();
                return self.word_byte(byte);
            }
        }
        Ok(())
    }

    fn in_word_byte(&mut self, byte: u8) -> Result<(), ScriptFault>
        requires { self.old.line + 1 < 2 ^ 64 }
        ensures reads { Leaves reader_of self.new result (in_word (reader_of self.old) byte) }
        ensures line { self.new.line ≤ self.old.line + 1 }
    {
        match byte {
            b'>' if self.is_number => self.unsupported(),
            b' ' | b'\t' | b'\n' | b';' | b'>' => {
                self.push_word()?;
                self.gap_byte(byte)
            }
            _ => self.word_byte(byte),
        }
    }

    fn name_byte(&mut self, byte: u8) -> Result<(), ScriptFault>
        requires { self.old.line + 1 < 2 ^ 64 }
        ensures reads { Leaves reader_of self.new result (in_name (reader_of self.old) byte) }
        ensures line { self.new.line ≤ self.old.line + 1 }
    {
        if is_name_byte(byte) {
            self.name.push(byte)?;
            return Ok(());
        }
        self.push_name()?;
        self.in_word_byte(byte)
    }

    fn quoted_name_byte(&mut self, byte: u8) -> Result<(), ScriptFault>
        requires { self.old.line + 1 < 2 ^ 64 }
        ensures reads { Leaves reader_of self.new result (in_quoted_name (reader_of self.old) byte) }
        ensures line { self.new.line ≤ self.old.line + 1 }
    {
        if is_name_byte(byte) {
            self.name.push(byte)?;
            return Ok(());
        }
        self.push_quoted_name()?;
        self.double_byte(byte)
    }

    fn redirect_byte(&mut self, byte: u8) -> Result<(), ScriptFault>
        requires { self.old.line + 1 < 2 ^ 64 }
        ensures reads { Leaves reader_of self.new result (after_redirect (reader_of self.old) byte) }
        ensures line { self.new.line ≤ self.old.line + 1 }
    {
        self.push_token(Token::Redirect(self.line, byte == b'>'))?;
        if byte == b'>' {
            return Ok(());
        }
        self.gap_byte(byte)
    }

    /// Reads one more byte.
    #[tactic(auto, unfolding(crate::specs::Reading::next_byte))]
    fn byte(&mut self, byte: u8) -> Result<(), ScriptFault>
        requires { self.old.line + 1 < 2 ^ 64 }
        ensures reads { Leaves reader_of self.new result (next_byte (reader_of self.old) byte) }
        ensures line { self.new.line ≤ self.old.line + 1 }
    {
        match self.mode {
            Mode::Gap => self.gap_byte(byte),
            Mode::Semicolon => {
                if byte == b';' {
                    return self.unsupported();
                }
                self.gap_byte(byte)
            }
            Mode::Redirect => self.redirect_byte(byte),
            Mode::Comment => {
                if byte == b'\n' {
                    return self.gap_byte(byte);
                }
                Ok(())
            }
            Mode::Word => self.in_word_byte(byte),
            Mode::Dollar => self.parameter_byte(byte),
            Mode::Name => self.name_byte(byte),
            Mode::Single => self.single_byte(byte),
            Mode::Double => self.double_byte(byte),
            Mode::QuotedDollar => self.quoted_parameter_byte(byte),
            Mode::QuotedName => self.quoted_name_byte(byte),
            Mode::Escape => self.escaped_byte(byte),
        }
    }

    pub fn new(alloc: Global) -> Lexer<'a>
        ensures reader { reader_of result ≡ at_start }
        ensures line { result.line ≡ 1 }
    {
        Lexer {
            alloc,
            mode: Mode::Gap,
            line: 1,
            opened: 1,
            word_line: 1,
            is_plain: true,
            is_number: true,
            parts: Vec::new(alloc),
            literal: Vec::new(alloc),
            name: Vec::new(alloc),
            tokens: Vec::new(alloc),
        }
    }

    /// Ends the text, and takes the tokens read since the last call of `take_tokens`.
    #[tactic(auto, unfolding(crate::specs::Reading::at_end))]
    pub fn finish(&mut self) -> Result<Vec<Token<'a>>, ScriptFault>
        ensures { Gives (λ v. map token_of v.items) result (at_end (reader_of self.old)) }
    {
        let line = self.line;
        match self.mode {
            Mode::Gap | Mode::Semicolon | Mode::Comment => {}
            Mode::Redirect => self.push_token(Token::Redirect(line, false))?,
            Mode::Word => self.push_word()?,
            Mode::Name => {
                self.push_name()?;
                self.push_word()?;
            }
            Mode::Dollar | Mode::QuotedDollar => return self.unsupported(),
            Mode::Single | Mode::Double | Mode::QuotedName | Mode::Escape => {
                return Err(ScriptFault {
                    line: self.opened,
                    why: Reason::OpenQuote,
                });
            }
        }
        Ok(mem::replace(&mut self.tokens, Vec::new(self.alloc)))
    }
}

fn parameter_of(digit: u8) -> Option<Parameter>
    ensures { result ≡ parameter_named digit }
{
    match digit {
        b'1' => Some(Parameter::One),
        b'2' => Some(Parameter::Two),
        b'3' => Some(Parameter::Three),
        _ => None,
    }
}
