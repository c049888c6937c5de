//! The parser for build scripts, the `.do` files of redo: from bytes to a syntax tree.
//!
//! A script is written in a small subset of the POSIX shell command language. [`parse`] returns what the definitions
//! say of a text: its tree, or else its first fault and that fault's line. That these are the texts of a grammar, each
//! with its one tree, and the faults of its tables, are laws of `redo_grammar`. The crates above run scripts.
//!
//! - `ast`: the syntax tree.
//! - `fault`: what can be wrong with a text.
//! - `reader`: the passes over a text, and `parse`; `reader::passes`: the last two of them, side by side.
//! - `bytes`, `spans`, `token`, `lexer`: from bytes to tokens; `lexer::runs`: many bytes at once.
//! - `item`, `name`, `number`, `form`, `partial`, `open`, `parser`, `statements`: from tokens to statements.
//! - `places`, `lexer::stops`, `lexer::marks`, `parser::reading`: which bytes of a text are to blame for its fault, and
//!   which are the words of a statement. They read a text once more, byte by byte.
#![tactic(auto)]

mod ast;
mod bytes;
mod fault;
mod form;
mod item;
mod lexer;
mod name;
mod number;
mod open;
mod parser;
mod partial;
mod places;
mod reader;
mod spans;
mod statements;
mod token;

pub use ast::{Command, Condition, Parameter, Part, Redirection, Script, Stmt, Test, Word, Writer};
pub use bytes::is_plain_byte;
pub use fault::{Reason, ScriptFault};
pub use name::{command_names, is_command_name};
pub use places::{FaultPlace, Span, Spot, place_of_fault, statement_words};
pub use reader::parse;
