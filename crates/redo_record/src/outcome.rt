//! How a target ends.

ghost use Rattle.std.specs.Prelude.{◌≡◌, Some, option_copied};
ghost use Rattle.redo_record.specs.Answers.{file_in, is_failure};

use redo_script::ScriptFault;
use redo_tree::Content;
use thiserror::Error;

/// Why a target failed. It is printed in the words of a report. A fault that came up while the script ran has its line,
/// from 1.
#[derive(Clone, Copy, Debug, PartialEq, Eq, Error)]
pub enum Why {
    /// None of its candidates is a file.
    #[error("norule")]
    NoRule,
    /// It is a directory.
    #[error("directory")]
    Directory,
    /// It is in a directory that the tree doesn't have.
    #[error("nodirectory")]
    NoDirectory,
    /// The script can't be read.
    #[error("script {} {}", .0.line, .0.why)]
    Script(ScriptFault),
    /// The script ended with this status, which isn't 0.
    #[error("exit {0}")]
    Exit(u8),
    /// An operand of redo-ifchange failed.
    #[error("depends {0}")]
    Depends(u64),
    /// A parameter outside quotes has a value that isn't one plain word.
    #[error("unquoted {0}")]
    Unquoted(u64),
    /// A word names no path.
    #[error("outside {0}")]
    Outside(u64),
    /// The script read a path that it hadn't declared.
    #[error("undeclared {0}")]
    Undeclared(u64),
    /// An operand of redo-ifcreate exists.
    #[error("exists {0}")]
    Exists(u64),
    /// An operand of redo-ifcreate has a rule.
    #[error("buildable {0}")]
    Buildable(u64),
    /// A redirection goes to the target itself.
    #[error("direct {0}")]
    Direct(u64),
    /// A redirection goes to something other than `$3`.
    #[error("elsewhere {0}")]
    Elsewhere(u64),
    /// The script wrote to standard output and made `$3`.
    #[error("both")]
    BothOutputs,
    /// Standard output or `$3` would be larger than a file may be.
    #[error("toolarge {0}")]
    TooLarge(u64),
    /// A format of printf that isn't supported.
    #[error("format {0}")]
    Format(u64),
}

/// What became of a path that was asked for.
#[derive(Debug, PartialEq, Eq, Drop)]
pub enum Outcome {
    /// It is a file of the tree.
    Source,
    /// It was built, possibly without a file.
    Built(Option<Content>),
    Failed(Why),
    /// It waits for itself, or for a path that does.
    Cyclic,
}

impl Outcome {
    /// The bytes of the file that it was built with, if any.
    pub fn file(&self) -> Option<&[u8]>
        ensures { option_copied result ≡ file_in self.now }
    {
        match self {
            Outcome::Built(Some(content)) => Some(content.bytes()),
            Outcome::Built(None) | Outcome::Source | Outcome::Failed(_) | Outcome::Cyclic => None,
        }
    }

    /// Makes the digest of the file that it was built with and keeps it, so that nobody makes it again.
    pub fn keep_digest(&mut self)
        ensures { self.new ≡ self.old }
    {
        if let Outcome::Built(Some(content)) = self {
            content.keep_digest();
        }
    }

    /// Whether a script that declared it fails because of it.
    pub fn has_failed(&self) -> bool
        ensures { result ≡ is_failure (Some self.now) }
    {
        match self {
            Outcome::Failed(_) | Outcome::Cyclic => true,
            Outcome::Source | Outcome::Built(_) => false,
        }
    }
}
