//! Why a text is no script.

ghost use Rattle.std.specs.Prelude.{◌≡◌, ◌≢◌, true, false};
ghost use Rattle.redo_script.specs.Faults.{no_memory};
ghost use Rattle.redo_script.specs.declared.fault.Reason.TheVariants as reasons;

use std::alloc::{AllocError, AllocFailed};
use thiserror::Error;

/// What is wrong with a text. Each reason is printed as one word, the one that reports have.
#[derive(Clone, Copy, Debug, PartialEq, Eq, Error)]
pub enum Reason {
    /// A NUL byte.
    #[error("nul")]
    Nul,
    /// A first line that begins with `#!` and isn't `#!/bin/sh -e`.
    #[error("interpreter")]
    Interpreter,
    /// A quote that isn't closed. The line is that of the quote.
    #[error("openquote")]
    OpenQuote,
    /// A byte or a reserved word of the shell that the subset leaves out, or a name that no loop binds.
    #[error("unsupported")]
    Unsupported,
    /// A command name that the subset doesn't have.
    #[error("unknowncommand")]
    UnknownCommand,
    /// A command whose operands or redirection don't fit its form, a separator or redirection in the place of a
    /// command, or a `for`, `do` or `done` out of place or a loop that isn't ended.
    #[error("shape")]
    Shape,
    /// An `if`, `then`, `else` or `fi` out of place, or an `if` that isn't ended.
    #[error("ifshape")]
    IfShape,
    /// An `if` inside 16 others, or a loop inside 2 others.
    #[error("toodeep")]
    TooDeep,
    /// Out of memory, which says nothing about the text.
    #[error("memory")]
    Memory,
}

/// What is wrong, and on which line, counted from 1 by newline bytes. Out of memory has line 0.
#[derive(Clone, Copy, Debug, PartialEq, Eq, Error)]
#[error("line {line}: {why}")]
pub struct ScriptFault {
    pub line: u64,
    pub why: Reason,
}

impl ScriptFault {
    /// Whether memory ran out, which is no fault of the text.
    pub fn is_memory(&self) -> bool
        ensures memory { result ≡ true → self.now.why ≡ reasons.Memory }
        ensures fault { result ≡ false → self.now.why ≢ reasons.Memory }
    {
        matches!(self.why, Reason::Memory)
    }
}

const NO_MEMORY: ScriptFault = ScriptFault {
    line: 0,
    why: Reason::Memory,
};

impl From<AllocError> for ScriptFault {
    ghost from_gives = { λ _ e. e ≡ no_memory };

    fn from(_e: AllocError) -> ScriptFault {
        NO_MEMORY
    }
}

impl<T: Drop> From<AllocFailed<T>> for ScriptFault {
    ghost from_gives = { λ _ e. e ≡ no_memory };

    fn from(_e: AllocFailed<T>) -> ScriptFault {
        NO_MEMORY
    }
}
