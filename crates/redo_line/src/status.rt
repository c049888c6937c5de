//! Exit statuses.

ghost use Rattle.std.specs.Prelude.{◌≡◌, true};
ghost use Rattle.redo_line.specs.Calls.{is_of_no_call};

use crate::refusal::Refusal;
use clap::Error;

/// All requested targets are built or sources; a rule was found; help or the version was shown.
pub const GOOD: u8 = 0;
/// A requested target failed or is cyclic; no rule was found.
pub const FAILED: u8 = 1;
/// The command line is refused.
pub const USAGE: u8 = 2;
/// The bundle or the book is refused, or the directory can't be read, or another run is at work in it.
pub const INPUT: u8 = 3;
/// Too many targets are needed.
pub const TOO_MANY: u8 = 4;
/// The report, or a file, could not be written.
pub const OUTPUT: u8 = 5;
/// Memory ran out.
pub const MEMORY: u8 = 6;

/// The status after a parse that ended in help, the version or a refusal.
pub(crate) fn of_parse(error: &Error) -> u8
    ensures { is_of_no_call result ≡ true }
{
    if error.use_stderr() { USAGE } else { GOOD }
}

/// The status after a refusal.
pub(crate) fn of_refusal(refusal: Refusal) -> u8
    ensures { is_of_no_call result ≡ true }
{
    match refusal {
        Refusal::Memory => MEMORY,
        Refusal::NoTop | Refusal::Directory => INPUT,
        _ => USAGE,
    }
}
