//! What reading a script came to.

ghost use Rattle.std.specs.Prelude.{◌≡◌, IfOk};
ghost use Rattle.redo_script.specs.Texts.{script_in};
ghost use Rattle.redo_step.specs.Parsed.{parsed_of};

use crate::syntax_fault::SyntaxFault;
use redo_script::{Reason, Script, ScriptFault, parse};
use std::alloc::{AllocError, Global};

/// What reading a text came to: its script, or its fault. Lack of memory is neither.
#[derive(Debug, Drop)]
pub enum Parsed {
    Read(Script),
    Refused(SyntaxFault),
}

impl Parsed {
    /// Reads the text of a script.
    pub fn of(alloc: Global, text: &[u8]) -> Result<Parsed, AllocError>
        ensures { IfOk result (λ parsed. parsed_of parsed ≡ script_in text.now) }
    {
        match parse(alloc, text) {
            Ok(script) => Ok(Parsed::Read(script)),
            Err(
                ScriptFault {
                    why: Reason::Memory,
                    ..
                },
            ) => Err(AllocError),
            Err(fault) => Ok(Parsed::Refused(SyntaxFault { fault })),
        }
    }
}
