//! Words that occur in the text as they are, which most words of a script do.

ghost use Rattle.std.specs.Prelude.{Ok, map, true};
ghost use Rattle.redo_script.specs.Syntax.{byte as byte_symbol};
ghost use Rattle.redo_script.specs.Tokens.{word as word_token};
ghost use Rattle.redo_script.specs.Parsing.{begin_command, first_word, in_command, in_condition, next_token};
ghost use Rattle.redo_script.specs.inside.Calls.{Leaves};
ghost use Rattle.redo_script.specs.declared.name.CommandName.TheVariants as names;
ghost use Rattle.redo_script.specs.inside.Parser.{parser_of, plain_item, with_phase, word_named};

use crate::fault::ScriptFault;
use crate::item::Item;
use crate::name::CommandName;
use crate::parser::{Parser, Phase};

impl<'a> Parser<'a> {
    /// Begins a command with this name.
    #[inline(always)]
    fn begin_command(&mut self, line: u64, name: CommandName) -> Result<(), ScriptFault>
        ensures { Leaves parser_of self.new result
            (Ok (with_phase (parser_of self.old) (in_command (begin_command line (word_named name))))) }
    {
        self.partial.begin(line, name);
        self.phase = Phase::InCommand;
        Ok(())
    }

    /// Begins `test` after `if`, which is on this line.
    #[inline(always)]
    fn begin_test(&mut self, line: u64) -> Result<(), ScriptFault>
        ensures { Leaves parser_of self.new result
            (Ok (with_phase (parser_of self.old) (in_condition (begin_command line (word_named names.Test))))) }
    {
        self.partial.begin(line, CommandName::Test);
        self.phase = Phase::InCondition;
        Ok(())
    }

    /// A word of plain bytes in the place of a command. The names that most commands have are told by their length.
    fn first_lent(&mut self, line: u64, bytes: &'a [u8]) -> Result<(), ScriptFault>
        ensures { Leaves parser_of self.new result (first_word (parser_of self.old) line (plain_item bytes.now)) }
    {
        match bytes {
            b"if" => self.if_word(line),
            b"fi" => self.fi_word(line),
            b"cat" => self.begin_command(line, CommandName::Cat),
            b"echo" => self.begin_command(line, CommandName::Echo),
            b"test" => self.begin_command(line, CommandName::Test),
            b"exit" => self.begin_command(line, CommandName::Exit),
            b"else" => self.else_word(line),
            b"printf" => self.begin_command(line, CommandName::Printf),
            b"redo-ifchange" => self.begin_command(line, CommandName::Change),
            _ => self.first_word(line, Item::Lent(true, bytes)),
        }
    }

    /// A word that occurs in the text as it is.
    #[inline(always)]
    pub fn lent(&mut self, line: u64, is_plain: bool, bytes: &'a [u8]) -> Result<(), ScriptFault>
        ensures { Leaves parser_of self.new result
            (next_token (parser_of self.old) (word_token line is_plain (map byte_symbol bytes.now))) }
    {
        match self.phase {
            Phase::InCommand | Phase::InCondition if self.partial.takes_operands() => {
                self.partial.push_operand(Item::Lent(is_plain, bytes))
            }
            Phase::AtCommand if is_plain => self.first_lent(line, bytes),
            Phase::BeforeThen(if_line) if is_plain && bytes == b"then".as_slice() => {
                self.begin_first(if_line)
            }
            Phase::BehindIf(if_line) if is_plain && bytes == b"test".as_slice() => {
                self.begin_test(if_line)
            }
            _ => self.word(line, Item::Lent(is_plain, bytes)),
        }
    }
}
