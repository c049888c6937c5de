//! The syntax tree of a script: a subset of the POSIX shell command language, with redo-ifchange(1),
//! redo-ifcreate(1) and redo-always(1).

use redo_bytes::Bytes;

/// An argument of a script: `$1`, `$2` or `$3`.
#[derive(Clone, Copy, Debug, PartialEq, Eq)]
pub enum Parameter {
    One,
    Two,
    Three,
}

/// A piece of a word.
#[derive(Debug, Drop)]
pub enum Part {
    /// Literal bytes.
    Lit(Bytes),
    /// A parameter in double quotes.
    Quoted(Parameter),
    /// A parameter outside quotes. Its value must be plain bytes ([`is_plain_byte`](crate::is_plain_byte)) and not
    /// empty.
    Bare(Parameter),
    /// The value that a loop gives to this name, in double quotes.
    NamedQuoted(Bytes),
    /// The value that a loop gives to this name, outside quotes. It must be plain bytes and not empty.
    NamedBare(Bytes),
}

/// A word of a command, without its quotes.
#[derive(Debug, Drop)]
pub enum Word {
    /// Bytes that occur in the text as they are; none if the word is an empty pair of quotes.
    Literal(Bytes),
    /// Pieces in order; none if the word is several empty pairs of quotes.
    Mixed(Vec<Part>),
}

/// Where a command's output goes: `> word`, or `>> word` to append it.
#[derive(Debug, Drop)]
pub struct Redirection {
    pub appends: bool,
    pub word: Word,
}

/// What test(1) checks.
#[derive(Debug, Drop)]
pub enum Test {
    /// `test -f W`
    IsFile(Word),
    /// `test W = W`
    Equal(Word, Word),
    /// `test W != W`
    Differ(Word, Word),
}

/// A command that writes bytes.
#[derive(Debug, Drop)]
pub enum Writer {
    /// `echo W*`
    Echo(Vec<Word>),
    /// `printf W W*`: the format and its operands.
    Printf(Word, Vec<Word>),
    /// `cat W W*`
    Cat(Vec<Word>),
}

/// A simple command.
#[derive(Debug, Drop)]
pub enum Command {
    Write(Writer, Option<Redirection>),
    Test(Test),
    /// `redo-ifchange W*`
    Change(Vec<Word>),
    /// `redo-ifcreate W*`
    Create(Vec<Word>),
    /// `redo-always`
    Always,
    True,
    False,
    /// `exit N`
    Exit(u8),
}

/// The command after `if`.
#[derive(Debug, Drop)]
pub enum Condition {
    Test(Test),
    True,
    False,
}

/// A statement, with the line on which its first word begins, from 1.
#[derive(Debug, Drop)]
pub enum Stmt {
    Simple(u64, Command),
    /// The condition and the two branches. Without `else` the second is empty; with it neither is.
    If(u64, Condition, Vec<Stmt>, Vec<Stmt>),
    /// The line, the name, the words and the body of `for NAME in words; do body done`.
    Loop(u64, Bytes, Vec<Word>, Vec<Stmt>),
}

/// A whole script.
#[derive(Debug, Drop)]
pub struct Script {
    pub stmts: Vec<Stmt>,
}
