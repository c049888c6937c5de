//! The statements of a script, as far as it was read, or the first fault among them.

ghost use Rattle.std.specs.Prelude.{◌≡◌, None, Err, OnOk, IfErr, [], ◌∷◌, ◌++◌, List, Result, map};
ghost use Rattle.redo_script.specs.declared.fault.ScriptFault.{ScriptFault};
ghost use Rattle.redo_script.specs.declared.fault.Reason.TheVariants as reasons;
ghost use Rattle.redo_script.specs.Syntax.{byte as byte_symbol, Script as ScriptTree};
ghost use Rattle.redo_script.specs.Tokens.{Token as Symbol, word, semicolon, newline};
ghost use Rattle.redo_script.specs.inside.Passes.{IsOn, ParsesOn};
ghost use Rattle.redo_script.specs.Faults.{Gives, no_memory};
ghost use Rattle.redo_script.specs.Parsing.{statements_of};
ghost use Rattle.redo_script.specs.View.{script_of};
ghost use Rattle.redo_script.specs.inside.Lexer.{token_of};
ghost use Rattle.redo_script.specs.inside.Parser.{parser_of};

use crate::ast::Script;
use crate::fault::ScriptFault;
use crate::parser::Parser;
use crate::token::Token;
use std::alloc::Global;

/// The statements read so far, or the first fault among them.
#[derive(Drop)]
pub struct Statements<'a> {
    parser: Parser<'a>,
    fault: Option<ScriptFault>,
}

impl<'a> Statements<'a> {
    #[tactic(auto, unfolding(crate::specs::Parsing::statements_of))]
    pub fn new(alloc: Global) -> Statements<'a>
        ensures { (ts : List Symbol) → IsOn result ts (statements_of ts) }
    {
        Statements {
            parser: Parser::new(alloc),
            fault: None,
        }
    }

    /// Keeps the fault of what was read, if it has one. Running out of memory is no such fault; it is reported at once.
    #[inline(always)]
    fn keep(&mut self, outcome: Result<(), ScriptFault>) -> Result<(), ScriptFault>
        requires { self.old.fault ≡ None }
        ensures reads { (ts : List Symbol) (total : Result ScriptTree ScriptFault) →
            ParsesOn (parser_of self.old.parser) outcome ts total → OnOk result (IsOn self.new ts total) }
        ensures memory { IfErr result (λ fault. (fault.why ≡ reasons.Memory) × (outcome ≡ Err fault)) }
    {
        match outcome {
            Ok(()) => Ok(()),
            Err(fault) => {
                if fault.is_memory() {
                    return Err(fault);
                }
                self.fault = Some(fault);
                Ok(())
            }
        }
    }

    /// Reads these tokens. A fault among them is kept, and nothing after it is read.
    pub fn tokens(&mut self, tokens: &mut Vec<Token<'a>>) -> Result<(), ScriptFault>
        ensures reads { (ts : List Symbol) (total : Result ScriptTree ScriptFault) →
            IsOn self.old (map token_of tokens.old.items ++ ts) total → OnOk result (IsOn self.new ts total) }
        ensures memory { IfErr result (λ fault. fault ≡ no_memory) }
    {
        if self.fault.is_some() {
            return Ok(());
        }
        let outcome = self.parser.tokens(tokens);
        self.keep(outcome)
    }

    /// Reads a word that occurs in the text as it is.
    #[inline(always)]
    pub fn lent(&mut self, line: u64, is_plain: bool, bytes: &'a [u8]) -> Result<(), ScriptFault>
        ensures reads { (ts : List Symbol) (total : Result ScriptTree ScriptFault) →
            IsOn self.old (word line is_plain (map byte_symbol bytes.now) ∷ ts) total →
            OnOk result (IsOn self.new ts total) }
        ensures memory { IfErr result (λ fault. fault ≡ no_memory) }
    {
        if self.fault.is_some() {
            return Ok(());
        }
        let outcome = self.parser.lent(line, is_plain, bytes);
        self.keep(outcome)
    }

    /// Reads `;`.
    #[inline(always)]
    pub fn semicolon(&mut self, line: u64) -> Result<(), ScriptFault>
        ensures reads { (ts : List Symbol) (total : Result ScriptTree ScriptFault) →
            IsOn self.old (semicolon line ∷ ts) total → OnOk result (IsOn self.new ts total) }
        ensures memory { IfErr result (λ fault. fault ≡ no_memory) }
    {
        if self.fault.is_some() {
            return Ok(());
        }
        let outcome = self.parser.separator(line, false);
        self.keep(outcome)
    }

    /// Reads the end of a line.
    #[inline(always)]
    pub fn newline(&mut self, line: u64) -> Result<(), ScriptFault>
        ensures reads { (ts : List Symbol) (total : Result ScriptTree ScriptFault) →
            IsOn self.old (newline line ∷ ts) total → OnOk result (IsOn self.new ts total) }
        ensures memory { IfErr result (λ fault. fault ≡ no_memory) }
    {
        if self.fault.is_some() {
            return Ok(());
        }
        let outcome = self.parser.separator(line, true);
        self.keep(outcome)
    }

    /// Ends the script.
    pub fn finish(&mut self) -> Result<Script, ScriptFault>
        ensures { (total : Result ScriptTree ScriptFault) →
            IsOn self.old [] total → Gives (λ s. script_of s.stmts.items) result total }
    {
        match self.fault {
            None => self.parser.finish(),
            Some(fault) => Err(fault),
        }
    }
}
