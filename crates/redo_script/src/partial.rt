//! A command that has been read in part.

ghost use Rattle.std.specs.Prelude.{◌≡◌, Ok, [], map, option_map, true};
ghost use Rattle.redo_script.specs.Faults.{Gives};
ghost use Rattle.redo_script.specs.inside.Calls.{Leaves};
ghost use Rattle.redo_script.specs.Parsing.{begin_command, with_word, with_redirect, is_unfinished, ended_command};
ghost use Rattle.redo_script.specs.Parsing.{ended_condition, names_in};
ghost use Rattle.redo_script.specs.Forms.{knows, knows_items};
ghost use Rattle.redo_script.specs.View.{command_of, condition_of, word_of};
ghost use Rattle.redo_script.specs.inside.Parser.{item_of, word_named, partial_of, stack_onto, takes_operands};

use crate::ast::{Command, Condition, Redirection};
use crate::fault::{Reason, ScriptFault};
use crate::form::{command_of_items, condition_of_items};
use crate::item::{Item, is_known};
use crate::name::CommandName;
use crate::open::Open;
use std::alloc::Global;
use std::mem;

/// Whether each name in these words is bound by one of `opens`.
fn all_known(items: &[Item], opens: &[Open]) -> bool
    ensures { result ≡ knows_items (names_in (stack_onto [] opens.now)) (map item_of items.now) }
{
    for item in items {
        if !item.is_known(opens) {
            return false;
        }
    }
    true
}

/// What has been read of a command. One value serves all commands of a script, one after the other.
#[derive(Debug, Drop)]
pub struct PartialCommand<'a> {
    line: u64,
    name: CommandName,
    items: Vec<Item<'a>>,
    redirection: Option<Redirection>,
    /// Something is where no form has it.
    is_ill: bool,
    /// A redirection whose word comes next, and whether it appends.
    awaits: Option<bool>,
}

impl<'a> PartialCommand<'a> {
    /// No command yet.
    pub fn new(alloc: Global) -> PartialCommand<'a> {
        PartialCommand {
            line: 0,
            name: CommandName::True,
            items: Vec::new(alloc),
            redirection: None,
            is_ill: false,
            awaits: None,
        }
    }

    /// Begins another command.
    #[inline(always)]
    pub fn begin(&mut self, line: u64, name: CommandName)
        ensures { partial_of self.new ≡ begin_command line (word_named name) }
    {
        self.line = line;
        self.name = name;
        self.items.clear();
        self.redirection = None;
        self.is_ill = false;
        self.awaits = None;
    }

    pub fn push_word(&mut self, alloc: Global, item: Item<'a>) -> Result<(), ScriptFault>
        ensures { Leaves partial_of self.new result (Ok (with_word (partial_of self.old) (item_of item.entry))) }
    {
        if let Some(appends) = self.awaits {
            let word = item.into_word(alloc)?;
            self.awaits = None;
            self.redirection = Some(Redirection { appends, word });
        } else if self.redirection.is_some() {
            self.is_ill = true;
        } else {
            self.items.push(item)?;
        }
        Ok(())
    }

    /// Whether the words that come next are operands.
    #[inline(always)]
    pub fn takes_operands(&self) -> bool
        ensures { result ≡ takes_operands (partial_of self.now) }
    {
        self.awaits.is_none() && self.redirection.is_none()
    }

    /// One more operand.
    #[inline(always)]
    pub fn push_operand(&mut self, item: Item<'a>) -> Result<(), ScriptFault>
        requires { takes_operands (partial_of self.old) ≡ true }
        ensures { Leaves partial_of self.new result (Ok (with_word (partial_of self.old) (item_of item.entry))) }
    {
        self.items.push(item)?;
        Ok(())
    }

    pub fn push_redirect(&mut self, appends: bool)
        ensures { partial_of self.new ≡ with_redirect (partial_of self.old) appends }
    {
        if self.awaits.is_some() || self.redirection.is_some() {
            self.is_ill = true;
        } else {
            self.awaits = Some(appends);
        }
    }

    fn is_unfinished(&self) -> bool
        ensures { result ≡ is_unfinished (partial_of self.now) }
    {
        self.is_ill || self.awaits.is_some()
    }

    /// Whether each name in the command is bound by one of `opens`.
    fn is_known(&self, opens: &[Open]) -> bool
        ensures { result ≡ knows (names_in (stack_onto [] opens.now)) (partial_of self.now).items
            (partial_of self.now).redirection }
    {
        all_known(&self.items, opens)
            && match &self.redirection {
                Some(redirection) => is_known(&redirection.word, opens),
                None => true,
            }
    }

    pub fn line(&self) -> u64
        ensures { result ≡ self.now.line }
    {
        self.line
    }

    /// The command that ends here, inside `opens`.
    pub fn command(&mut self, alloc: Global, opens: &[Open]) -> Result<Command, ScriptFault>
        ensures { Gives command_of result
            (ended_command (names_in (stack_onto [] opens.now)) (partial_of self.old)) }
    {
        let shape = ScriptFault {
            line: self.line,
            why: Reason::Shape,
        };
        let unsupported = ScriptFault {
            line: self.line,
            why: Reason::Unsupported,
        };
        if self.is_unfinished() {
            return Err(shape);
        }
        let is_known = self.is_known(opens);
        let redirection = mem::replace(&mut self.redirection, None);
        let command = command_of_items(alloc, self.name, &mut self.items, redirection)?.ok_or(
            shape,
        )?;
        if !is_known {
            return Err(unsupported);
        }
        Ok(command)
    }

    /// The condition that ends here, inside `opens`.
    pub fn condition(&mut self, alloc: Global, opens: &[Open]) -> Result<Condition, ScriptFault>
        ensures { Gives condition_of result
            (ended_condition (names_in (stack_onto [] opens.now)) (partial_of self.old)) }
    {
        let shape = ScriptFault {
            line: self.line,
            why: Reason::Shape,
        };
        let unsupported = ScriptFault {
            line: self.line,
            why: Reason::Unsupported,
        };
        if self.is_unfinished() || self.redirection.is_some() {
            return Err(shape);
        }
        let is_known = self.is_known(opens);
        let condition = condition_of_items(alloc, self.name, &mut self.items)?.ok_or(shape)?;
        if !is_known {
            return Err(unsupported);
        }
        Ok(condition)
    }
}
