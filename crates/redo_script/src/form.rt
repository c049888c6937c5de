//! Commands from names and operands.

ghost use Rattle.std.specs.Prelude.{◌≡◌, map, option_map, IfOk};
ghost use Rattle.redo_script.specs.Forms.{test_form, print_form, cat_form, exit_form, bare_form, command_form};
ghost use Rattle.redo_script.specs.Forms.{condition_form, item_words};
ghost use Rattle.redo_script.specs.View.{command_of, condition_of, redirection_of, test_of, words_of};
ghost use Rattle.redo_script.specs.inside.Parser.{item_of, word_named};

use crate::ast::{Command, Condition, Redirection, Test, Word, Writer};
use crate::item::Item;
use crate::name::CommandName;
use crate::number::status_of_word;
use std::alloc::{AllocError, Global};
use std::mem;

/// What `test` checks, if its operands fit one of its forms. The operands that remain lose their order, since none is
/// looked at again.
fn test_operands(alloc: Global, items: &mut Vec<Item>) -> Result<Option<Test>, AllocError>
    ensures { IfOk result (λ test. option_map test_of test ≡ test_form (map item_of items.old.items)) }
{
    match items.as_slice() {
        [flag, _] if flag.spells(b"-f") => {
            let file = items.swap_remove(1).into_word(alloc)?;
            Ok(Some(Test::IsFile(file)))
        }
        [_, operator, _] if operator.spells(b"=") => {
            let right = items.swap_remove(2).into_word(alloc)?;
            let left = items.swap_remove(0).into_word(alloc)?;
            Ok(Some(Test::Equal(left, right)))
        }
        [_, operator, _] if operator.spells(b"!=") => {
            let right = items.swap_remove(2).into_word(alloc)?;
            let left = items.swap_remove(0).into_word(alloc)?;
            Ok(Some(Test::Differ(left, right)))
        }
        _ => Ok(None),
    }
}

/// The words of operands, moved out of their places.
#[inline(always)]
fn words_of_items(alloc: Global, items: &mut Vec<Item>) -> Result<Vec<Word>, AllocError>
    ensures { IfOk result (λ words. words_of words.items ≡ item_words (map item_of items.old.items)) }
{
    let mut words = Vec::with_capacity(alloc, items.len())?;
    // In order, each word is moved once; `drain` would move it twice.
    for place in items.iter_mut() {
        let item = mem::replace(place, Item::Lent(false, b""));
        words.push(item.into_word(alloc)?)?;
    }
    Ok(words)
}

/// The condition with this name, if its operands fit its form.
#[tactic(auto, using(crate::proofs::NameLemmas::no_exit))]
pub fn condition_of_items(
    alloc: Global,
    name: CommandName,
    items: &mut Vec<Item>,
) -> Result<Option<Condition>, AllocError>
    ensures { IfOk result (λ condition.
        option_map condition_of condition ≡ condition_form (word_named name) (map item_of items.old.items)) }
{
    match name {
        CommandName::Test => Ok(test_operands(alloc, items)?.map(Condition::Test)),
        CommandName::True if items.is_empty() => Ok(Some(Condition::True)),
        CommandName::False if items.is_empty() => Ok(Some(Condition::False)),
        _ => Ok(None),
    }
}

/// `printf` with these operands, the first of which is the format.
fn printf_of_items(
    alloc: Global,
    items: &mut Vec<Item>,
    redirection: Option<Redirection>,
) -> Result<Option<Command>, AllocError>
    ensures { IfOk result (λ command. option_map command_of command ≡
        print_form (map item_of items.old.items) (option_map redirection_of redirection)) }
{
    let mut words = words_of_items(alloc, items)?;
    if words.is_empty() {
        return Ok(None);
    }
    let format = words.remove(0);
    Ok(Some(Command::Write(Writer::Printf(format, words), redirection)))
}

/// `cat` with these operands.
fn cat_of_items(
    alloc: Global,
    items: &mut Vec<Item>,
    redirection: Option<Redirection>,
) -> Result<Option<Command>, AllocError>
    ensures { IfOk result (λ command. option_map command_of command ≡
        cat_form (map item_of items.old.items) (option_map redirection_of redirection)) }
{
    if items.is_empty() {
        return Ok(None);
    }
    let words = words_of_items(alloc, items)?;
    Ok(Some(Command::Write(Writer::Cat(words), redirection)))
}

/// `exit` with these operands.
fn exit_of_items(alloc: Global, items: &mut Vec<Item>) -> Result<Option<Command>, AllocError>
    ensures { IfOk result (λ command. option_map command_of command ≡ exit_form (map item_of items.old.items)) }
{
    let Some(item) = items.pop() else {
        return Ok(None);
    };
    if !items.is_empty() {
        return Ok(None);
    }
    let is_plain = item.is_plain();
    let word = item.into_word(alloc)?;
    Ok(status_of_word(is_plain, &word).map(Command::Exit))
}

/// A command that takes no redirection, if its operands fit its form.
fn bare_command(
    alloc: Global,
    name: CommandName,
    items: &mut Vec<Item>,
) -> Result<Option<Command>, AllocError>
    ensures { IfOk result (λ command.
        option_map command_of command ≡ bare_form (word_named name) (map item_of items.old.items)) }
{
    match name {
        CommandName::Test => Ok(test_operands(alloc, items)?.map(Command::Test)),
        CommandName::Change => Ok(Some(Command::Change(words_of_items(alloc, items)?))),
        CommandName::Create => Ok(Some(Command::Create(words_of_items(alloc, items)?))),
        CommandName::Always if items.is_empty() => Ok(Some(Command::Always)),
        CommandName::True if items.is_empty() => Ok(Some(Command::True)),
        CommandName::False if items.is_empty() => Ok(Some(Command::False)),
        CommandName::Exit => exit_of_items(alloc, items),
        _ => Ok(None),
    }
}

/// The command with this name, if its operands and redirection fit its form.
pub fn command_of_items(
    alloc: Global,
    name: CommandName,
    items: &mut Vec<Item>,
    redirection: Option<Redirection>,
) -> Result<Option<Command>, AllocError>
    ensures { IfOk result (λ command. option_map command_of command ≡
        command_form (word_named name) (map item_of items.old.items) (option_map redirection_of redirection)) }
{
    match name {
        CommandName::Echo => {
            let words = words_of_items(alloc, items)?;
            Ok(Some(Command::Write(Writer::Echo(words), redirection)))
        }
        CommandName::Printf => printf_of_items(alloc, items, redirection),
        CommandName::Cat => cat_of_items(alloc, items, redirection),
        _ if redirection.is_some() => Ok(None),
        _ => bare_command(alloc, name, items),
    }
}
