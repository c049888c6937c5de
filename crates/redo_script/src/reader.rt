//! From a whole text to its tree.

mod passes;

ghost use Rattle.std.specs.Prelude.{◌≡◌, [], not};
ghost use Rattle.std.specs.Str.{bytes_eq};
ghost use Rattle.redo_script.specs.Faults.{Gives};
ghost use Rattle.redo_script.specs.inside.Passes.{script_by_tokens};
ghost use Rattle.redo_script.specs.View.{script_of};
ghost use Rattle.redo_script.specs.Texts.{has_no_nul, first_line, nul_from, interpreter_is_fit, script_in};

use crate::ast::Script;
use crate::fault::{Reason, ScriptFault};
use crate::reader::passes::Passes;
use std::alloc::Global;

/// Whether the text has a NUL byte. It looks at every byte, which is faster than stopping at the first NUL.
#[tactic(auto, using(crate::proofs::NulLemmas::nul_here))]
fn has_nul(text: &[u8]) -> bool
    ensures { has_no_nul text.now ≡ not result }
{
    let mut found = false;
    for byte in text {
        found |= *byte == 0;
    }
    found
}

/// Refuses a text with a NUL byte.
#[tactic(auto, using(crate::proofs::NulLemmas::no_nul))]
fn refuse_nul(text: &[u8]) -> Result<(), ScriptFault>
    ensures { Gives (λ done. []) result (nul_from 1 text.now) }
{
    if !has_nul(text) {
        return Ok(());
    }
    let mut line = 1;
    for byte in text {
        match *byte {
            0 => {
                return Err(ScriptFault {
                    line,
                    why: Reason::Nul,
                });
            }
            b'\n' => line += 1,
            _ => {}
        }
    }
    Ok(())
}

/// Whether a line ends here.
fn is_line_end(rest: &[u8]) -> bool
    ensures { result ≡ bytes_eq (first_line rest.now) [] }
{
    matches!(rest, [] | [b'\n', ..])
}

/// Whether the text doesn't begin with `#!`, or begins with the only such line that a script may have.
fn has_fit_interpreter(text: &[u8]) -> bool
    ensures { result ≡ interpreter_is_fit text.now }
{
    let Some(interpreter) = text.strip_prefix(b"#!") else {
        return true;
    };
    match interpreter.strip_prefix(b"/bin/sh -e") {
        Some(rest) => is_line_end(rest),
        None => false,
    }
}

/// The tree of a text, from its tokens and its commands.
fn read_statements(alloc: Global, text: &[u8]) -> Result<Script, ScriptFault>
    ensures { Gives (λ t. script_of t.stmts.items) result (script_by_tokens text.now) }
{
    let mut passes = Passes::new(alloc);
    let mut left = text;
    while !left.is_empty() {
        left = passes.advance(left)?;
    }
    passes.finish()
}

/// The tree of a text, or the fault of the first pass that has one.
fn read(alloc: Global, text: &[u8]) -> Result<Script, ScriptFault>
    ensures { Gives (λ t. script_of t.stmts.items) result (script_in text.now) }
{
    refuse_nul(text)?;
    if !has_fit_interpreter(text) {
        return Err(ScriptFault {
            line: 1,
            why: Reason::Interpreter,
        });
    }
    read_statements(alloc, text)
}

/// Reads a script from any bytes, in time that grows with their number alone.
///
/// The grammar is a subset of the POSIX shell command language (its sections on token recognition, quoting, simple
/// commands, redirection and the compound commands `if` and `for`). Its commands are echo, printf, cat, test, true,
/// false and exit, and redo-ifchange(1), redo-ifcreate(1) and redo-always(1). The only parameters are `$1`, `$2` and
/// `$3`, and the names of the loops around a command. An `if` may be inside at most 15 others, a loop inside 1.
///
/// A text is checked in four passes: for a NUL byte, for its interpreter line, for its tokens and for its commands. The
/// first pass that finds a fault decides, and within a pass the first fault.
pub fn parse(alloc: Global, text: &[u8]) -> Result<Script, ScriptFault>
    // What is read is the tree of the definitions, and what isn't has their fault, unless memory runs out.
    ensures exact { Gives (λ t. script_of t.stmts.items) result (script_in text.now) }
{
    read(alloc, text)
}
