//! From bytes to tokens, many bytes at once: runs of bytes of one kind.

ghost use Rattle.std.specs.Prelude.{◌≡◌, ◌+◌, ◌<◌, ◌≤◌, ◌^◌, map, Ok, OnOk, IfOk, ◌∷◌, ◌⊎◌, length};
ghost use Rattle.redo_script.specs.inside.Calls.{Leaves, with_symbols};
ghost use Rattle.redo_script.specs.Syntax.{byte as byte_symbol};
ghost use Rattle.redo_script.specs.Reading.{read_on};
ghost use Rattle.redo_script.specs.declared.lexer.Mode.TheVariants as modes;
ghost use Rattle.redo_script.specs.inside.Runs.{ReadsOn};
ghost use Rattle.redo_script.specs.inside.Lexer.{reader_of};

use crate::ast::Part;
use crate::fault::ScriptFault;
use crate::lexer::{Lexer, Mode, parameter_of};
use crate::spans::{is_number, is_word_end, past_comment, plain_len, quotable_len};
use redo_bytes::Bytes;

impl<'a> Lexer<'a> {
    /// Takes plain bytes of the current word.
    fn plain_bytes(&mut self, text: &'a [u8]) -> Result<&'a [u8], ScriptFault>
        requires { self.old.mode ≡ modes.Word }
        ensures reads { ReadsOn (reader_of self.new) result (read_on (reader_of self.old) text.now) }
        ensures line { self.new.line ≡ self.old.line }
        ensures rest { IfOk result (λ rest. length rest.now ≤ length text.now) }
        ensures mode { OnOk result (self.new.mode ≡ modes.Word) }
    {
        let (bytes, rest) = text.split_at(plain_len(text));
        if bytes.is_empty() {
            return Ok(text);
        }
        self.literal.extend_from_slice(bytes)?;
        self.is_number = self.is_number && is_number(bytes);
        Ok(rest)
    }

    /// Takes literal bytes in quotes.
    fn quoted_bytes(&mut self, text: &'a [u8]) -> Result<&'a [u8], ScriptFault>
        requires { (self.old.mode ≡ modes.Single) ⊎ (self.old.mode ≡ modes.Double) }
        ensures reads { ReadsOn (reader_of self.new) result (read_on (reader_of self.old) text.now) }
        ensures line { self.new.line ≡ self.old.line }
        ensures rest { IfOk result (λ rest. length rest.now ≤ length text.now) }
        ensures mode { OnOk result (self.new.mode ≡ self.old.mode) }
    {
        let (bytes, rest) = text.split_at(quotable_len(text));
        self.literal.extend_from_slice(bytes)?;
        Ok(rest)
    }

    /// Takes plain bytes of the current word, and the word if it ends there.
    fn word_bytes(&mut self, text: &'a [u8]) -> Result<&'a [u8], ScriptFault>
        requires { self.old.mode ≡ modes.Word }
        ensures reads { ReadsOn (reader_of self.new) result (read_on (reader_of self.old) text.now) }
        ensures line { self.new.line ≡ self.old.line }
        ensures rest { IfOk result (λ rest. length rest.now ≤ length text.now) }
    {
        let left = self.plain_bytes(text)?;
        if !is_word_end(left) {
            return Ok(left);
        }
        self.push_word()?;
        Ok(left)
    }

    /// Takes a parameter in double quotes, if one comes next.
    fn quoted_parameter(&mut self, text: &'a [u8]) -> Result<&'a [u8], ScriptFault>
        requires { self.old.mode ≡ modes.Double }
        ensures reads { ReadsOn (reader_of self.new) result (read_on (reader_of self.old) text.now) }
        ensures line { self.new.line ≡ self.old.line }
        ensures rest { IfOk result (λ rest. length rest.now ≤ length text.now) }
    {
        let [dollar, digit, rest @ ..] = text else {
            return Ok(text);
        };
        if *dollar != b'$' {
            return Ok(text);
        }
        let Some(parameter) = parameter_of(*digit) else {
            return Ok(text);
        };
        self.push_parameter(Mode::Double, Part::Quoted(parameter))?;
        Ok(rest)
    }

    /// Turns these bytes into a part.
    #[inline(always)]
    fn push_literal(&mut self, bytes: &[u8]) -> Result<(), ScriptFault>
        ensures reads { Leaves reader_of self.new result
            (Ok (with_symbols (reader_of self.old) self.old.mode (map byte_symbol bytes.now))) }
        ensures line { self.new.line ≡ self.old.line }
        ensures mode { OnOk result (self.new.mode ≡ self.old.mode) }
    {
        self.end_literal()?;
        if !bytes.is_empty() {
            let literal = Bytes::from_slice(self.alloc, bytes)?;
            self.parts.push(Part::Lit(literal))?;
        }
        Ok(())
    }

    /// Takes literal bytes in double quotes. A parameter after them ends their part of the word.
    fn double_run(&mut self, text: &'a [u8]) -> Result<&'a [u8], ScriptFault>
        requires { self.old.mode ≡ modes.Double }
        ensures reads { ReadsOn (reader_of self.new) result (read_on (reader_of self.old) text.now) }
        ensures line { self.new.line ≡ self.old.line }
        ensures rest { IfOk result (λ rest. length rest.now ≤ length text.now) }
        ensures mode { OnOk result (self.new.mode ≡ modes.Double) }
    {
        let (bytes, rest) = text.split_at(quotable_len(text));
        if matches!(rest, [b'$', ..]) {
            self.push_literal(bytes)?;
            return Ok(rest);
        }
        self.literal.extend_from_slice(bytes)?;
        Ok(rest)
    }

    /// Takes literal bytes in double quotes, and a parameter after them.
    fn double_bytes(&mut self, text: &'a [u8]) -> Result<&'a [u8], ScriptFault>
        requires { self.old.mode ≡ modes.Double }
        ensures reads { ReadsOn (reader_of self.new) result (read_on (reader_of self.old) text.now) }
        ensures line { self.new.line ≡ self.old.line }
        ensures rest { IfOk result (λ rest. length rest.now ≤ length text.now) }
    {
        let left = self.double_run(text)?;
        self.quoted_parameter(left)
    }

    /// Takes a run of bytes of one kind.
    fn run(&mut self, text: &'a [u8]) -> Result<&'a [u8], ScriptFault>
        ensures reads { ReadsOn (reader_of self.new) result (read_on (reader_of self.old) text.now) }
        ensures line { self.new.line ≡ self.old.line }
        ensures rest { IfOk result (λ rest. length rest.now ≤ length text.now) }
    {
        match self.mode {
            Mode::Comment => Ok(past_comment(text)),
            Mode::Word => self.word_bytes(text),
            Mode::Single => self.quoted_bytes(text),
            Mode::Double => self.double_bytes(text),
            _ => Ok(text),
        }
    }

    /// Reads one byte, and the run of bytes of one kind after it.
    #[tactic(auto, unfolding(crate::specs::Reading::read_on))]
    pub fn step(&mut self, byte: u8, rest: &'a [u8]) -> Result<&'a [u8], ScriptFault>
        requires { self.old.line + 1 < 2 ^ 64 }
        ensures reads { ReadsOn (reader_of self.new) result (read_on (reader_of self.old) (byte ∷ rest.now)) }
        ensures line { self.new.line ≤ self.old.line + 1 }
        ensures rest { IfOk result (λ left. length left.now ≤ length rest.now) }
    {
        self.byte(byte)?;
        self.run(rest)
    }
}
