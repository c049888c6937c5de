//! The names of commands.

ghost use Rattle.std.specs.Prelude.{◌≡◌, IfSome, is_some, map, true};
ghost use Rattle.redo_script.specs.Syntax.{byte};
ghost use Rattle.redo_script.specs.Parsing.{commands, is_one_of, conditions};
ghost use Rattle.redo_script.specs.inside.Parser.{item_of, word_named};

use crate::item::Item;

/// A command of the subset.
#[derive(Clone, Copy, Debug, PartialEq, Eq)]
pub enum CommandName {
    Echo,
    Printf,
    Cat,
    Test,
    Change,
    Create,
    Always,
    True,
    False,
    Exit,
}

impl CommandName {
    /// The command that a word names.
    #[tactic(auto, using(crate::proofs::NameLemmas::is_word_named))]
    pub fn of(word: &Item) -> Option<CommandName>
        ensures known { is_some result ≡ is_one_of commands (item_of word.now) }
        ensures name { IfSome result (λ name. item_of word.now ≡ word_named name) }
    {
        if word.is_named(b"echo") {
            Some(CommandName::Echo)
        } else if word.is_named(b"printf") {
            Some(CommandName::Printf)
        } else if word.is_named(b"cat") {
            Some(CommandName::Cat)
        } else if word.is_named(b"test") {
            Some(CommandName::Test)
        } else if word.is_named(b"redo-ifchange") {
            Some(CommandName::Change)
        } else if word.is_named(b"redo-ifcreate") {
            Some(CommandName::Create)
        } else if word.is_named(b"redo-always") {
            Some(CommandName::Always)
        } else if word.is_named(b"true") {
            Some(CommandName::True)
        } else if word.is_named(b"false") {
            Some(CommandName::False)
        } else if word.is_named(b"exit") {
            Some(CommandName::Exit)
        } else {
            None
        }
    }

    /// Whether the command may come after `if`.
    pub fn is_condition(self) -> bool
        ensures { result ≡ is_one_of conditions (word_named self) }
    {
        matches!(
            self,
            CommandName::Test | CommandName::True | CommandName::False
        )
    }
}

/// The names of all commands, in the order of the manual.
pub fn command_names() -> [&'static str; 10]
    ensures { map (λ name. name.now) result ≡ commands }
{
    [
        "echo",
        "printf",
        "cat",
        "test",
        "redo-ifchange",
        "redo-ifcreate",
        "redo-always",
        "true",
        "false",
        "exit",
    ]
}

/// Whether a word of these plain bytes is the name of a command.
pub fn is_command_name(word: &[u8]) -> bool
    ensures { result ≡ is_one_of commands (record { is_plain = true; word = map byte word.now }) }
{
    CommandName::of(&Item::Lent(true, word)).is_some()
}
