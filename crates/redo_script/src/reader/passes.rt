//! The last two passes over a text, side by side. Most of what comes between words is read at once, without a token; the
//! lexer reads the rest.

ghost use Rattle.std.specs.Prelude.{◌≡◌, ◌+◌, ◌<◌, ◌≤◌, ◌^◌, [], ◌∷◌, ℕ, IfOk, IfErr, OnOk, List, Result, length};
ghost use Rattle.redo_script.specs.declared.fault.ScriptFault.{ScriptFault};
ghost use Rattle.redo_script.specs.Faults.{Gives, no_memory};
ghost use Rattle.redo_script.specs.inside.Passes.{IsAt, IsBetween, IsHanded, ReadsFrom, script_by_tokens};
ghost use Rattle.redo_script.specs.Syntax.{Script as ScriptTree};
ghost use Rattle.redo_script.specs.View.{script_of};

use crate::ast::Script;
use crate::fault::ScriptFault;
use crate::lexer::Lexer;
use crate::spans::{
    begins_semicolon, is_word_end, past_blanks, past_comment, plain_len, quoted_alone,
};
use crate::statements::Statements;
use std::alloc::Global;

/// The two passes, as far as they came. If the commands have a fault, the tokens are still read to the end, since a fault
/// of theirs goes first. Only running out of memory ends both at once.
#[derive(Drop)]
pub struct Passes<'a> {
    lexer: Lexer<'a>,
    statements: Statements<'a>,
}

impl<'a> Passes<'a> {
    pub fn new(alloc: Global) -> Passes<'a>
        ensures reads { (text : List ℕ) → IsAt result text (script_by_tokens text) }
        ensures handed { IsHanded result }
        ensures line { result.lexer.line ≡ 1 }
    {
        Passes {
            lexer: Lexer::new(alloc),
            statements: Statements::new(alloc),
        }
    }

    /// Takes a word, if the next one has plain bytes only.
    #[inline(always)]
    fn plain_word(&mut self, text: &'a [u8]) -> Result<&'a [u8], ScriptFault>
        requires between { IsBetween self.old }
        ensures reads { ReadsFrom self.old text.now self.new result }
        ensures lexer { self.new.lexer ≡ self.old.lexer }
        ensures rest { IfOk result (λ rest. length rest.now ≤ length text.now) }
    {
        let (bytes, rest) = text.split_at(plain_len(text));
        if bytes.is_empty() || !is_word_end(rest) {
            return Ok(text);
        }
        self.statements.lent(self.lexer.line(), true, bytes)?;
        Ok(past_blanks(rest))
    }

    /// Takes a word, if the next one is a single pair of quotes around literal bytes.
    #[inline(always)]
    fn quoted_word(&mut self, text: &'a [u8]) -> Result<&'a [u8], ScriptFault>
        requires between { IsBetween self.old }
        ensures reads { ReadsFrom self.old text.now self.new result }
        ensures lexer { self.new.lexer ≡ self.old.lexer }
        ensures rest { IfOk result (λ rest. length rest.now ≤ length text.now) }
    {
        let Some((bytes, rest)) = quoted_alone(text) else {
            return Ok(text);
        };
        self.statements.lent(self.lexer.line(), false, bytes)?;
        Ok(past_blanks(rest))
    }

    /// Takes `;`, if the text begins with one alone.
    #[inline(always)]
    fn semicolon(&mut self, text: &'a [u8]) -> Result<&'a [u8], ScriptFault>
        requires between { IsBetween self.old }
        ensures reads { ReadsFrom self.old text.now self.new result }
        ensures lexer { self.new.lexer ≡ self.old.lexer }
        ensures rest { IfOk result (λ rest. length rest.now ≤ length text.now) }
    {
        let [b';', rest @ ..] = text else {
            return Ok(text);
        };
        if begins_semicolon(rest) {
            return Ok(text);
        }
        self.statements.semicolon(self.lexer.line())?;
        Ok(past_blanks(rest))
    }

    /// Takes the end of a line, if the text begins with it.
    #[inline(always)]
    fn newline(&mut self, text: &'a [u8]) -> Result<&'a [u8], ScriptFault>
        requires between { IsBetween self.old }
        requires room { self.old.lexer.line + length text.now < 2 ^ 64 }
        ensures reads { ReadsFrom self.old text.now self.new result }
        ensures handed { OnOk result (IsHanded self.new) }
        ensures line { IfOk result (λ rest.
            self.new.lexer.line + length rest.now ≤ self.old.lexer.line + length text.now) }
        ensures rest { IfOk result (λ rest. length rest.now ≤ length text.now) }
    {
        let [b'\n', rest @ ..] = text else {
            return Ok(text);
        };
        self.statements.newline(self.lexer.end_line())?;
        Ok(past_blanks(rest))
    }

    /// Takes what comes next, if the lexer is between words and it is read at once: a word that occurs in the text as it
    /// is, a separator, a comment or blanks.
    #[inline(always)]
    fn between(&mut self, text: &'a [u8]) -> Result<&'a [u8], ScriptFault>
        requires handed { IsHanded self.old }
        requires room { self.old.lexer.line + length text.now < 2 ^ 64 }
        ensures reads { ReadsFrom self.old text.now self.new result }
        ensures handed { OnOk result (IsHanded self.new) }
        ensures line { IfOk result (λ rest.
            self.new.lexer.line + length rest.now ≤ self.old.lexer.line + length text.now) }
        ensures rest { IfOk result (λ rest. length rest.now ≤ length text.now) }
    {
        if !self.lexer.is_between() {
            return Ok(text);
        }
        match text {
            [b' ' | b'\t', ..] => Ok(past_blanks(text)),
            [b'\n', ..] => self.newline(text),
            [b';', ..] => self.semicolon(text),
            [b'#', rest @ ..] => Ok(past_comment(rest)),
            [b'\'' | b'"', ..] => self.quoted_word(text),
            _ => self.plain_word(text),
        }
    }

    /// Hands the tokens of the lexer to the parser.
    #[inline(always)]
    fn hand_over(&mut self) -> Result<(), ScriptFault>
        ensures reads { (left : List ℕ) (total : Result ScriptTree ScriptFault) → IsAt self.old left total →
            OnOk result (IsAt self.new left total) }
        ensures memory { IfErr result (λ fault. fault ≡ no_memory) }
        ensures handed { OnOk result (IsHanded self.new) }
        ensures line { self.new.lexer.line ≡ self.old.lexer.line }
    {
        if !self.lexer.has_tokens() {
            return Ok(());
        }
        let mut tokens = self.lexer.take_tokens();
        self.statements.tokens(&mut tokens)?;
        self.lexer.reuse(tokens);
        Ok(())
    }

    /// Reads what the lexer reads at once, from a byte on.
    fn step(&mut self, byte: u8, rest: &'a [u8]) -> Result<&'a [u8], ScriptFault>
        requires { self.old.lexer.line + 1 < 2 ^ 64 }
        ensures reads { ReadsFrom self.old (byte ∷ rest.now) self.new result }
        ensures handed { OnOk result (IsHanded self.new) }
        ensures line { OnOk result (self.new.lexer.line ≤ self.old.lexer.line + 1) }
        ensures rest { IfOk result (λ left. length left.now ≤ length rest.now) }
    {
        let left = self.lexer.step(byte, rest)?;
        self.hand_over()?;
        Ok(left)
    }

    /// Reads on, by a byte at least.
    #[inline(always)]
    pub fn advance(&mut self, text: &'a [u8]) -> Result<&'a [u8], ScriptFault>
        requires handed { IsHanded self.old }
        requires room { self.old.lexer.line + length text.now < 2 ^ 64 }
        ensures reads { ReadsFrom self.old text.now self.new result }
        ensures handed { OnOk result (IsHanded self.new) }
        ensures line { IfOk result (λ left.
            self.new.lexer.line + length left.now ≤ self.old.lexer.line + length text.now) }
        ensures rest { IfOk result (λ left. 1 ≤ length text.now → length left.now < length text.now) }
    {
        let left = self.between(text)?;
        if left.len() < text.len() {
            return Ok(left);
        }
        match left {
            [byte, rest @ ..] => self.step(*byte, rest),
            [] => Ok(left),
        }
    }

    /// Ends the text.
    pub fn finish(&mut self) -> Result<Script, ScriptFault>
        ensures { (total : Result ScriptTree ScriptFault) → IsAt self.old [] total →
            Gives (λ s. script_of s.stmts.items) result total }
    {
        let mut tokens = self.lexer.finish()?;
        self.statements.tokens(&mut tokens)?;
        self.statements.finish()
    }
}
