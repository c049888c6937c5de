//! From tokens to statements.

mod lent;
mod nesting;
pub mod reading;

ghost use Rattle.std.specs.Prelude.{◌≡◌, Ok, ◌++◌, List, Result, map};
ghost use Rattle.redo_script.specs.declared.fault.ScriptFault.{ScriptFault};
ghost use Rattle.redo_script.specs.Syntax.{Script as ScriptTree};
ghost use Rattle.redo_script.specs.Tokens.{Token as Symbol};
ghost use Rattle.redo_script.specs.inside.Passes.{ParsesOn};
ghost use Rattle.redo_script.specs.Faults.{Gives, fault_at};
ghost use Rattle.redo_script.specs.inside.Calls.{Leaves};
ghost use Rattle.redo_script.specs.Parsing.{with_command, with_condition, then_word, misplaced, loop_named};
ghost use Rattle.redo_script.specs.Parsing.{words_begun, loop_word, do_word, condition_word, first_word, a_word};
ghost use Rattle.redo_script.specs.Parsing.{a_redirect, a_separator, next_token, unless_open, end_by_phase, at_first};
ghost use Rattle.redo_script.specs.Parsing.{parse_on};
ghost use Rattle.redo_script.specs.Forms.{name_of};
ghost use Rattle.redo_script.specs.View.{condition_of, script_of, words_of};
ghost use Rattle.redo_script.specs.inside.Lexer.{token_of};
ghost use Rattle.redo_script.specs.inside.Parser.{item_of, partial_of, parser_of};

use crate::ast::{Condition, Script, Stmt, Word};
use crate::fault::{Reason, ScriptFault};
use crate::item::Item;
use crate::name::CommandName;
use crate::open::{Open, OpenLoop, binds};
use crate::partial::PartialCommand;
use crate::token::Token;
use redo_bytes::Bytes;
use std::alloc::Global;
use std::mem;

/// What is expected next.
#[derive(Clone, Copy, Debug)]
pub enum Phase {
    AtCommand,
    InCommand,
    /// After `if`, which is on this line.
    BehindIf(u64),
    InCondition,
    BeforeThen(u64),
    BehindFi(u64),
    /// After `for`, which is on this line.
    BehindFor(u64),
    /// After the name of a loop.
    BehindName(u64),
    /// Among the words of a loop.
    InWords(u64),
    BeforeDo(u64),
    BehindDone(u64),
}

/// Reads statements token by token.
#[derive(Drop)]
pub struct Parser<'a> {
    alloc: Global,
    phase: Phase,
    /// The command or condition that is being read, if any.
    partial: PartialCommand<'a>,
    /// The condition that was read last.
    condition: Condition,
    /// The name and the words of the loop that was begun last.
    name: Bytes,
    words: Vec<Word>,
    opens: Vec<Open>,
    so_far: Vec<Stmt>,
}

impl<'a> Parser<'a> {
    fn fault<T>(line: u64, why: Reason) -> Result<T, ScriptFault>
        ensures { result ≡ fault_at line why }
    {
        Err(ScriptFault { line, why })
    }

    /// A word that is out of place. A reserved word of a loop is reported on its own line.
    fn misplaced(line: u64, at: u64, item: &Item) -> Result<(), ScriptFault>
        ensures { result ≡ misplaced line at (item_of item.now) }
    {
        if item.is_of_loop() {
            return Parser::fault(at, Reason::Shape);
        }
        Parser::fault(line, Reason::IfShape)
    }

    /// A word where `then` must be.
    fn then_word(&mut self, line: u64, at: u64, item: Item<'a>) -> Result<(), ScriptFault>
        ensures { Leaves parser_of self.new result
            (then_word (parser_of self.old) line (condition_of self.old.condition) at (item_of item.entry)) }
    {
        if !item.is_named(b"then") {
            return Parser::misplaced(at, at, &item);
        }
        self.begin_first(line)
    }

    /// A word after `if`.
    fn condition_word(&mut self, line: u64, at: u64, item: Item<'a>) -> Result<(), ScriptFault>
        ensures { Leaves parser_of self.new result
            (condition_word (parser_of self.old) line at (item_of item.entry)) }
    {
        match CommandName::of(&item) {
            Some(name) if name.is_condition() => {
                self.partial.begin(line, name);
                self.phase = Phase::InCondition;
                Ok(())
            }
            _ => Parser::misplaced(line, at, &item),
        }
    }

    /// A word where a loop's name must be.
    fn name_word(&mut self, line: u64, at: u64, item: Item<'a>) -> Result<(), ScriptFault>
        ensures { Leaves parser_of self.new result
            (loop_named (parser_of self.old) line at (name_of (item_of item.entry))) }
    {
        let Some(name) = item.name(self.alloc)? else {
            return Parser::fault(at, Reason::Shape);
        };
        if binds(&self.opens, name.as_slice()) {
            return Parser::fault(at, Reason::Shape);
        }
        self.name = name;
        self.phase = Phase::BehindName(line);
        Ok(())
    }

    /// A word where `in` must be.
    fn in_word(&mut self, line: u64, item: Item<'a>) -> Result<(), ScriptFault>
        ensures { Leaves parser_of self.new result
            (words_begun (parser_of self.old) line self.old.name (item_of item.entry)) }
    {
        if !item.is_named(b"in") {
            return Parser::fault(line, Reason::Shape);
        }
        self.words.clear();
        self.phase = Phase::InWords(line);
        Ok(())
    }

    /// One of the words of a loop.
    fn loop_word(&mut self, line: u64, item: Item<'a>) -> Result<(), ScriptFault>
        ensures { Leaves parser_of self.new result
            (loop_word (parser_of self.old) line self.old.name (words_of self.old.words.items) (item_of item.entry)) }
    {
        if !item.is_known(&self.opens) {
            return Parser::fault(line, Reason::Unsupported);
        }
        self.words.push(item.into_word(self.alloc)?)?;
        self.phase = Phase::InWords(line);
        Ok(())
    }

    /// A word where `do` must be.
    #[tactic(auto, using(crate::proofs::StatementLemmas::stack_push))]
    fn do_word(&mut self, line: u64, at: u64, item: Item<'a>) -> Result<(), ScriptFault>
        ensures { Leaves parser_of self.new result
            (do_word (parser_of self.old) line self.old.name (words_of self.old.words.items) at (item_of item.entry)) }
    {
        if !item.is_named(b"do") {
            if item.is_of_if() {
                return Parser::fault(at, Reason::IfShape);
            }
            return Parser::fault(at, Reason::Shape);
        }
        let body = Vec::with_capacity(self.alloc, 1)?;
        let before = mem::replace(&mut self.so_far, body);
        let name = mem::replace(&mut self.name, Bytes::empty());
        let words = mem::replace(&mut self.words, Vec::new(self.alloc));
        self.opens.push(Open::Loop(OpenLoop {
            line,
            name,
            words,
            before,
        }))?;
        self.phase = Phase::AtCommand;
        Ok(())
    }

    /// A word in the place of a command.
    #[inline(never)]
    fn first_word(&mut self, line: u64, item: Item<'a>) -> Result<(), ScriptFault>
        ensures { Leaves parser_of self.new result (first_word (parser_of self.old) line (item_of item.entry)) }
    {
        if item.is_named(b"if") {
            return self.if_word(line);
        }
        if item.is_named(b"then") {
            return Parser::fault(line, Reason::IfShape);
        }
        if item.is_named(b"else") {
            return self.else_word(line);
        }
        if item.is_named(b"fi") {
            return self.fi_word(line);
        }
        if item.is_named(b"for") {
            return self.for_word(line);
        }
        if item.is_named(b"do") {
            return Parser::fault(line, Reason::Shape);
        }
        if item.is_named(b"done") {
            return self.done_word(line);
        }
        let Some(name) = CommandName::of(&item) else {
            if item.is_outside() {
                return Parser::fault(line, Reason::Unsupported);
            }
            return Parser::fault(line, Reason::UnknownCommand);
        };
        self.partial.begin(line, name);
        self.phase = Phase::InCommand;
        Ok(())
    }

    #[inline(always)]
    fn word(&mut self, line: u64, item: Item<'a>) -> Result<(), ScriptFault>
        ensures { Leaves parser_of self.new result
            (a_word (parser_of self.old).phase (parser_of self.old) line (item_of item.entry)) }
    {
        match self.phase {
            Phase::AtCommand => self.first_word(line, item),
            Phase::InCommand | Phase::InCondition => self.partial.push_word(self.alloc, item),
            Phase::BehindIf(if_line) => self.condition_word(if_line, line, item),
            Phase::BeforeThen(if_line) => self.then_word(if_line, line, item),
            Phase::BehindFi(fi_line) => Parser::misplaced(fi_line, line, &item),
            Phase::BehindFor(for_line) => self.name_word(for_line, line, item),
            Phase::BehindName(for_line) => self.in_word(for_line, item),
            Phase::InWords(for_line) => self.loop_word(for_line, item),
            Phase::BeforeDo(for_line) => self.do_word(for_line, line, item),
            Phase::BehindDone(done_line) => Parser::fault(done_line, Reason::Shape),
        }
    }

    /// `>` or `>>`
    fn redirect(&mut self, line: u64, appends: bool) -> Result<(), ScriptFault>
        ensures { Leaves parser_of self.new result
            (a_redirect (parser_of self.old).phase (parser_of self.old) line appends) }
    {
        match self.phase {
            Phase::AtCommand | Phase::BehindFor(_) | Phase::InWords(_) | Phase::BeforeDo(_) => {
                Parser::fault(line, Reason::Shape)
            }
            Phase::InCommand | Phase::InCondition => {
                self.partial.push_redirect(appends);
                Ok(())
            }
            Phase::BehindName(for_line) => Parser::fault(for_line, Reason::Shape),
            Phase::BehindDone(done_line) => Parser::fault(done_line, Reason::Shape),
            Phase::BeforeThen(_) => Parser::fault(line, Reason::IfShape),
            Phase::BehindIf(if_line) => Parser::fault(if_line, Reason::IfShape),
            Phase::BehindFi(fi_line) => Parser::fault(fi_line, Reason::IfShape),
        }
    }

    /// Ends a command that is a statement.
    #[tactic(auto, using(crate::proofs::StatementLemmas::simple_push))]
    fn end_command(&mut self) -> Result<(), ScriptFault>
        ensures { Leaves parser_of self.new result (with_command (parser_of self.old) (partial_of self.old.partial)) }
    {
        let line = self.partial.line();
        let command = self.partial.command(self.alloc, &self.opens)?;
        self.so_far.push(Stmt::Simple(line, command))?;
        self.phase = Phase::AtCommand;
        Ok(())
    }

    /// Ends the command after `if`.
    fn end_condition(&mut self) -> Result<(), ScriptFault>
        ensures { Leaves parser_of self.new result (with_condition (parser_of self.old) (partial_of self.old.partial)) }
    {
        let line = self.partial.line();
        self.condition = self.partial.condition(self.alloc, &self.opens)?;
        self.phase = Phase::BeforeThen(line);
        Ok(())
    }

    /// `;` or a newline
    pub fn separator(&mut self, line: u64, is_newline: bool) -> Result<(), ScriptFault>
        ensures { Leaves parser_of self.new result
            (a_separator (parser_of self.old).phase (parser_of self.old) line is_newline) }
    {
        match self.phase {
            Phase::InCommand => self.end_command(),
            Phase::InCondition => self.end_condition(),
            Phase::BehindFi(_) | Phase::BehindDone(_) => {
                self.phase = Phase::AtCommand;
                Ok(())
            }
            Phase::InWords(for_line) => {
                self.phase = Phase::BeforeDo(for_line);
                Ok(())
            }
            Phase::BehindIf(if_line) => Parser::fault(if_line, Reason::IfShape),
            Phase::BehindName(for_line) => Parser::fault(for_line, Reason::Shape),
            Phase::AtCommand | Phase::BeforeThen(_) | Phase::BeforeDo(_) if is_newline => Ok(()),
            Phase::BeforeThen(_) => Parser::fault(line, Reason::IfShape),
            Phase::AtCommand | Phase::BehindFor(_) | Phase::BeforeDo(_) => {
                Parser::fault(line, Reason::Shape)
            }
        }
    }

    /// Reads one more token.
    fn token(&mut self, token: Token<'a>) -> Result<(), ScriptFault>
        ensures { Leaves parser_of self.new result (next_token (parser_of self.old) (token_of token.entry)) }
    {
        match token {
            Token::Word(line, item) => self.word(line, item),
            Token::Semicolon(line) => self.separator(line, false),
            Token::Newline(line) => self.separator(line, true),
            Token::Redirect(line, appends) => self.redirect(line, appends),
        }
    }

    /// Reads these tokens, up to the first with a fault. Others are left in their places.
    pub fn tokens(&mut self, tokens: &mut Vec<Token<'a>>) -> Result<(), ScriptFault>
        ensures { (ts : List Symbol) (total : Result ScriptTree ScriptFault) →
            parse_on (parser_of self.old) (map token_of tokens.old.items ++ ts) ≡ total →
            ParsesOn (parser_of self.new) result ts total }
    {
        for place in tokens.iter_mut() {
            let token = mem::replace(place, Token::Semicolon(0));
            self.token(token)?;
        }
        Ok(())
    }

    pub fn new(alloc: Global) -> Parser<'a>
        ensures { parser_of result ≡ at_first }
    {
        Parser {
            alloc,
            phase: Phase::AtCommand,
            partial: PartialCommand::new(alloc),
            condition: Condition::True,
            name: Bytes::empty(),
            words: Vec::new(alloc),
            opens: Vec::new(alloc),
            so_far: Vec::new(alloc),
        }
    }

    /// The statements, if no `if` or loop is open.
    fn script(&mut self) -> Result<Script, ScriptFault>
        ensures { Gives (λ s. script_of s.stmts.items) result
            (unless_open (parser_of self.old).opens (parser_of self.old).so_far) }
    {
        match self.opens.pop() {
            Some(open) => Err(open.fault_inside()),
            None => {
                // A script may be kept for long, and many at a time.
                let mut stmts = mem::replace(&mut self.so_far, Vec::new(self.alloc));
                stmts.shrink_to_fit();
                Ok(Script { stmts })
            }
        }
    }

    /// Ends the script.
    pub fn finish(&mut self) -> Result<Script, ScriptFault>
        ensures { Gives (λ s. script_of s.stmts.items) result
            (end_by_phase (parser_of self.old).phase (parser_of self.old)) }
    {
        match self.phase {
            Phase::AtCommand | Phase::BehindFi(_) | Phase::BehindDone(_) => self.script(),
            Phase::InCommand => {
                self.end_command()?;
                self.script()
            }
            Phase::InCondition => {
                let line = self.partial.line();
                self.end_condition()?;
                Parser::fault(line, Reason::IfShape)
            }
            Phase::BehindIf(line) => Parser::fault(line, Reason::IfShape),
            Phase::BeforeThen(line) => Parser::fault(line, Reason::IfShape),
            Phase::BehindFor(line)
            | Phase::BehindName(line)
            | Phase::InWords(line)
            | Phase::BeforeDo(line) => Parser::fault(line, Reason::Shape),
        }
    }
}
