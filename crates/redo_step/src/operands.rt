//! The operands of a command, in order, with what is done with each.

ghost use Rattle.std.specs.Prelude.{◌≡◌, ◌++◌, [], ◌∷◌, option_map, IfOk, OnOk};
ghost use Rattle.redo_script.specs.View.{words_of, word_of, writer_of, redirection_of, test_of, command_of};
ghost use Rattle.redo_script.specs.View.{condition_of};
ghost use Rattle.redo_step.specs.Operands.{all_as, writer_operands, goal_operands, test_operands, command_operands};
ghost use Rattle.redo_step.specs.Operands.{condition_operands};
ghost use Rattle.redo_step.specs.inside.Operands.{seen};

use redo_script::{Command, Condition, Redirection, Test, Word, Writer};
use std::alloc::{AllocError, Global};

/// What is done with the value of an operand.
#[derive(Clone, Copy, Debug, PartialEq, Eq)]
pub(crate) enum Role {
    /// It is printed or compared, or a loop takes it.
    Text,
    /// `printf` prints by it.
    Format,
    /// `cat` prints the file that it names.
    Shown,
    /// `test -f` looks for the file that it names.
    Tested,
    /// redo-ifchange(1) declares the path that it names.
    Changed,
    /// redo-ifcreate(1) declares the path that it names.
    Created,
    /// A redirection goes to the path that it names.
    Goal,
}

/// A word, and what is done with its value.
#[derive(Drop)]
pub(crate) struct Operand<'a> {
    pub(crate) role: Role,
    pub(crate) word: &'a Word,
}

/// The operands of a simple command.
pub(crate) fn command_operands(
    alloc: Global,
    command: &Command,
) -> Result<Vec<Operand<'_>>, AllocError>
    ensures { IfOk result (λ operands. seen operands.items ≡ command_operands (command_of command.now)) }
{
    match command {
        Command::Write(writer, redirection) => {
            let mut operands = writer_operands(alloc, writer)?;
            add_goal(&mut operands, redirection)?;
            Ok(operands)
        }
        Command::Test(test) => test_operands(alloc, test),
        Command::Change(words) => all_as(alloc, Role::Changed, words),
        Command::Create(words) => all_as(alloc, Role::Created, words),
        Command::Always | Command::True | Command::False | Command::Exit(_) => Ok(Vec::new(alloc)),
    }
}

/// The operands of a condition.
pub(crate) fn condition_operands(
    alloc: Global,
    condition: &Condition,
) -> Result<Vec<Operand<'_>>, AllocError>
    ensures { IfOk result (λ operands. seen operands.items ≡ condition_operands (condition_of condition.now)) }
{
    match condition {
        Condition::Test(test) => test_operands(alloc, test),
        Condition::True | Condition::False => Ok(Vec::new(alloc)),
    }
}

/// These words, each with this role.
pub(crate) fn all_as(
    alloc: Global,
    role: Role,
    words: &[Word],
) -> Result<Vec<Operand<'_>>, AllocError>
    ensures { IfOk result (λ operands. seen operands.items ≡ all_as role (words_of words.now)) }
{
    let mut operands = Vec::new(alloc);
    add_all(&mut operands, role, words)?;
    Ok(operands)
}

/// Appends these words, each with this role.
fn add_all<'a>(
    operands: &mut Vec<Operand<'a>>,
    role: Role,
    words: &'a [Word],
) -> Result<(), AllocError>
    ensures { OnOk result (seen operands.new.items ≡ seen operands.old.items ++ all_as role (words_of words.now)) }
{
    for word in words {
        operands.push(Operand { role, word })?;
    }
    Ok(())
}

/// Appends the word of a redirection, if there is one.
fn add_goal<'a>(
    operands: &mut Vec<Operand<'a>>,
    redirection: &'a Option<Redirection>,
) -> Result<(), AllocError>
    ensures { OnOk result (seen operands.new.items ≡
        seen operands.old.items ++ goal_operands (option_map redirection_of redirection.now)) }
{
    if let Some(redirection) = redirection {
        operands.push(Operand {
            role: Role::Goal,
            word: &redirection.word,
        })?;
    }
    Ok(())
}

/// The operands of a command that writes, but for its redirection.
fn writer_operands(alloc: Global, writer: &Writer) -> Result<Vec<Operand<'_>>, AllocError>
    ensures { IfOk result (λ operands. seen operands.items ≡ writer_operands (writer_of writer.now)) }
{
    match writer {
        Writer::Echo(words) => all_as(alloc, Role::Text, words),
        Writer::Printf(format, words) => {
            let mut operands = one(alloc, Role::Format, format)?;
            add_all(&mut operands, Role::Text, words)?;
            Ok(operands)
        }
        Writer::Cat(words) => all_as(alloc, Role::Shown, words),
    }
}

/// The operands of test(1).
fn test_operands(alloc: Global, test: &Test) -> Result<Vec<Operand<'_>>, AllocError>
    ensures { IfOk result (λ operands. seen operands.items ≡ test_operands (test_of test.now)) }
{
    match test {
        Test::IsFile(word) => one(alloc, Role::Tested, word),
        Test::Equal(first, second) | Test::Differ(first, second) => {
            let mut operands = one(alloc, Role::Text, first)?;
            operands.push(Operand {
                role: Role::Text,
                word: second,
            })?;
            Ok(operands)
        }
    }
}

/// A single word with this role.
fn one(alloc: Global, role: Role, word: &Word) -> Result<Vec<Operand<'_>>, AllocError>
    ensures { IfOk result (λ operands. seen operands.items ≡ all_as role (word_of word.now ∷ [])) }
{
    let mut operands = Vec::new(alloc);
    operands.push(Operand { role, word })?;
    Ok(operands)
}
