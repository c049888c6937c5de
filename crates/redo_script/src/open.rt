//! Ifs and loops that are open at the current token.

ghost use Rattle.std.specs.Prelude.{◌≡◌, List, [], ◌∷◌, Err, length};
ghost use Rattle.std.specs.Str.{bytes_eq};
ghost use Rattle.redo_script.specs.Forms.{is_bound};
ghost use Rattle.redo_script.specs.Parsing.{Open as OpenTree, ifs_in, names_in, unless_open};
ghost use Rattle.redo_script.specs.Syntax.{Script as ScriptTree};
ghost use Rattle.redo_script.specs.inside.Parser.{open_of, stack_onto};

use crate::ast::{Condition, Stmt, Word};
use crate::fault::{Reason, ScriptFault};
use redo_bytes::Bytes;

/// An open `if`.
#[derive(Debug, Drop)]
pub struct OpenIf {
    pub line: u64,
    pub condition: Condition,
    /// The first branch, once `else` has been read.
    pub first: Option<Vec<Stmt>>,
    /// The statements before the `if`.
    pub before: Vec<Stmt>,
}

/// An open loop.
#[derive(Debug, Drop)]
pub struct OpenLoop {
    pub line: u64,
    pub name: Bytes,
    pub words: Vec<Word>,
    /// The statements before the loop.
    pub before: Vec<Stmt>,
}

#[derive(Debug, Drop)]
pub enum Open {
    If(OpenIf),
    Loop(OpenLoop),
}

impl Open {
    /// The fault of a text that ends while this is the innermost open one.
    pub fn fault_inside(&self) -> ScriptFault
        ensures { (os : List OpenTree) (script : ScriptTree) →
            unless_open (open_of self.now ∷ os) script ≡ Err result }
    {
        match self {
            Open::If(open) => ScriptFault {
                line: open.line,
                why: Reason::IfShape,
            },
            Open::Loop(open) => ScriptFault {
                line: open.line,
                why: Reason::Shape,
            },
        }
    }
}

/// The number of ifs among these.
#[tactic(auto, using(crate::proofs::OpenLemmas::ifs_are, crate::proofs::OpenLemmas::ifs_few))]
pub fn count_ifs(opens: &[Open]) -> usize
    ensures { result ≡ ifs_in (stack_onto [] opens.now) }
{
    let mut count = 0;
    for open in opens {
        if matches!(open, Open::If(_)) {
            count += 1;
        }
    }
    count
}

/// The number of loops among these.
#[tactic(auto, using(crate::proofs::OpenLemmas::loops_are, crate::proofs::OpenLemmas::loops_few))]
pub fn count_loops(opens: &[Open]) -> usize
    ensures { result ≡ length (names_in (stack_onto [] opens.now)) }
{
    let mut count = 0;
    for open in opens {
        if matches!(open, Open::Loop(_)) {
            count += 1;
        }
    }
    count
}

fn is_same(name: &[u8], other: &[u8]) -> bool
    ensures { result ≡ bytes_eq name.now other.now }
{
    name == other
}

/// Whether a loop among these binds the name.
#[tactic(auto, using(crate::proofs::OpenLemmas::bound_are))]
pub fn binds(opens: &[Open], name: &[u8]) -> bool
    ensures { result ≡ is_bound (names_in (stack_onto [] opens.now)) name.now }
{
    for open in opens {
        match open {
            Open::Loop(open) if is_same(open.name.as_slice(), name) => return true,
            _ => {}
        }
    }
    false
}
