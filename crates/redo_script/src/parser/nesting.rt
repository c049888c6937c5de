//! Words that open and close `if` and `for`.

ghost use Rattle.std.specs.Prelude.{Ok, ◌∷◌};
ghost use Rattle.redo_script.specs.inside.Calls.{Leaves};
ghost use Rattle.redo_script.specs.Parsing.{if_opened, at_else, at_fi, for_opened, at_done};
ghost use Rattle.redo_script.specs.View.{condition_of};
ghost use Rattle.redo_script.specs.inside.Parser.{if_begun, open_of, parser_of};

use crate::ast::{Condition, Stmt};
use crate::fault::{Reason, ScriptFault};
use crate::open::{Open, OpenIf, OpenLoop, count_ifs, count_loops};
use crate::parser::{Parser, Phase};
use std::mem;

impl<'a> Parser<'a> {
    /// `else`, with this as the innermost open one.
    #[tactic(auto, using(crate::proofs::StatementLemmas::stack_push, crate::proofs::StatementLemmas::script_empty))]
    fn begin_second(&mut self, line: u64, innermost: Open) -> Result<(), ScriptFault>
        ensures { Leaves parser_of self.new result
            (at_else (parser_of self.old) line (open_of innermost ∷ (parser_of self.old).opens)) }
    {
        let Open::If(innermost) = innermost else {
            return Parser::fault(line, Reason::IfShape);
        };
        if innermost.first.is_some() || self.so_far.is_empty() {
            return Parser::fault(line, Reason::IfShape);
        }
        let second = Vec::with_capacity(self.alloc, 1)?;
        let first = mem::replace(&mut self.so_far, second);
        self.opens.push(Open::If(OpenIf {
            line: innermost.line,
            condition: innermost.condition,
            first: Some(first),
            before: innermost.before,
        }))?;
        self.phase = Phase::AtCommand;
        Ok(())
    }

    /// `else`
    pub fn else_word(&mut self, line: u64) -> Result<(), ScriptFault>
        ensures { Leaves parser_of self.new result (at_else (parser_of self.old) line (parser_of self.old).opens) }
    {
        match self.opens.pop() {
            Some(open) => self.begin_second(line, open),
            None => Parser::fault(line, Reason::IfShape),
        }
    }

    /// `fi`, with this as the innermost open one.
    #[tactic(auto, using(crate::proofs::StatementLemmas::script_empty, crate::proofs::StatementLemmas::if_push))]
    fn close_if(&mut self, line: u64, innermost: Open) -> Result<(), ScriptFault>
        ensures { Leaves parser_of self.new result
            (at_fi (parser_of self.old) line (open_of innermost ∷ (parser_of self.old).opens)) }
    {
        let Open::If(innermost) = innermost else {
            return Parser::fault(line, Reason::IfShape);
        };
        if self.so_far.is_empty() {
            return Parser::fault(line, Reason::IfShape);
        }
        let OpenIf {
            line: if_line,
            condition,
            first,
            before,
        } = innermost;
        let branch = mem::replace(&mut self.so_far, before);
        match first {
            None => self
                .so_far
                .push(Stmt::If(if_line, condition, branch, Vec::new(self.alloc)))?,
            Some(first) => self
                .so_far
                .push(Stmt::If(if_line, condition, first, branch))?,
        }
        self.phase = Phase::BehindFi(line);
        Ok(())
    }

    /// `fi`
    pub fn fi_word(&mut self, line: u64) -> Result<(), ScriptFault>
        ensures { Leaves parser_of self.new result (at_fi (parser_of self.old) line (parser_of self.old).opens) }
    {
        match self.opens.pop() {
            Some(open) => self.close_if(line, open),
            None => Parser::fault(line, Reason::IfShape),
        }
    }

    /// `done`, with this as the innermost open one.
    #[tactic(auto, using(crate::proofs::StatementLemmas::script_empty, crate::proofs::StatementLemmas::loop_push))]
    fn close_loop(&mut self, line: u64, innermost: Open) -> Result<(), ScriptFault>
        ensures { Leaves parser_of self.new result
            (at_done (parser_of self.old) line (open_of innermost ∷ (parser_of self.old).opens)) }
    {
        let Open::Loop(innermost) = innermost else {
            return Parser::fault(line, Reason::Shape);
        };
        let OpenLoop {
            line: for_line,
            name,
            words,
            before,
        } = innermost;
        let body = mem::replace(&mut self.so_far, before);
        if body.is_empty() {
            return Parser::fault(line, Reason::Shape);
        }
        self.so_far.push(Stmt::Loop(for_line, name, words, body))?;
        self.phase = Phase::BehindDone(line);
        Ok(())
    }

    /// `done`
    pub fn done_word(&mut self, line: u64) -> Result<(), ScriptFault>
        ensures { Leaves parser_of self.new result (at_done (parser_of self.old) line (parser_of self.old).opens) }
    {
        match self.opens.pop() {
            Some(open) => self.close_loop(line, open),
            None => Parser::fault(line, Reason::Shape),
        }
    }

    /// `if` in the place of a command.
    #[tactic(auto, using(crate::proofs::OpenLemmas::ifs_are, crate::proofs::OpenLemmas::ifs_few))]
    pub fn if_word(&mut self, line: u64) -> Result<(), ScriptFault>
        ensures { Leaves parser_of self.new result (if_opened (parser_of self.old) line) }
    {
        // If fewer are open in all, no counting is needed.
        if self.opens.len() >= 16 && count_ifs(&self.opens) >= 16 {
            return Parser::fault(line, Reason::TooDeep);
        }
        self.phase = Phase::BehindIf(line);
        Ok(())
    }

    /// `for` in the place of a command.
    pub fn for_word(&mut self, line: u64) -> Result<(), ScriptFault>
        ensures { Leaves parser_of self.new result (for_opened (parser_of self.old) line) }
    {
        if count_loops(&self.opens) >= 2 {
            return Parser::fault(line, Reason::TooDeep);
        }
        self.phase = Phase::BehindFor(line);
        Ok(())
    }

    /// Begins the first branch of an `if`, whose condition was read.
    #[tactic(auto, using(crate::proofs::StatementLemmas::stack_push))]
    pub fn begin_first(&mut self, line: u64) -> Result<(), ScriptFault>
        ensures { Leaves parser_of self.new result
            (Ok (if_begun (parser_of self.old) line (condition_of self.old.condition))) }
    {
        // Many branches have one statement.
        let branch = Vec::with_capacity(self.alloc, 1)?;
        let before = mem::replace(&mut self.so_far, branch);
        let condition = mem::replace(&mut self.condition, Condition::True);
        self.opens.push(Open::If(OpenIf {
            line,
            condition,
            first: None,
            before,
        }))?;
        self.phase = Phase::AtCommand;
        Ok(())
    }
}
