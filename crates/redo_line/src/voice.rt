//! How much is said on standard error, and how.

use crate::commands::{QUIET, VERBOSE};
use crate::line::Line;
use bstr::{BStr, ByteSlice};
use std::rt::Runtime;

/// What standard error is.
#[derive(Clone, Copy, Debug, PartialEq, Eq, Drop)]
pub(crate) struct Screen {
    /// It is a terminal.
    pub(crate) is_terminal: bool,
    /// It takes escape sequences.
    pub(crate) is_able: bool,
    /// Colours are wanted there.
    pub(crate) is_colourful: bool,
}

/// How much is said on standard error. Messages are said in any case.
#[derive(Clone, Copy, Debug, PartialEq, Eq, Drop)]
pub struct Voice {
    /// A message is followed by its cause.
    pub causes: bool,
    /// Diagnoses and notes are shown.
    pub notes: bool,
    /// What no later run could notice is shown.
    pub warnings: bool,
    /// The summary is shown: standard error is a terminal.
    pub summary: bool,
    /// Progress is shown, in a line that is overwritten.
    pub progress: bool,
    /// Notes are coloured.
    pub colour: bool,
}

impl Voice {
    /// How much is said as the options want it.
    pub(crate) fn of(line: &Line<'_>, screen: Screen) -> Voice {
        let verbose = line.has(VERBOSE);
        let told = screen.is_terminal && !line.has(QUIET);
        Voice {
            causes: verbose || told,
            notes: verbose || told,
            warnings: !line.has(QUIET),
            summary: told,
            progress: told && screen.is_able,
            colour: screen.is_terminal && screen.is_able && screen.is_colourful,
        }
    }

    /// Says what is stale, line by line.
    pub fn note<H: Runtime>(self, rt: &H, text: &[u8]) {
        for line in text.lines() {
            let line = BStr::new(line);
            let _shown = if self.colour {
                eprintln!(rt; "\x1b[33m{line}\x1b[0m")
            } else {
                eprintln!(rt; "{line}")
            };
        }
    }

    /// Says what is wrong with failed targets. A line of a script, which is indented, isn't coloured.
    pub fn diagnose<H: Runtime>(self, rt: &H, text: &[u8]) {
        for line in text.lines() {
            let is_quoted = line.starts_with(b"    ");
            let line = BStr::new(line);
            let _shown = if self.colour && !is_quoted {
                eprintln!(rt; "\x1b[31m{line}\x1b[0m")
            } else {
                eprintln!(rt; "{line}")
            };
        }
    }
}

/// Says lines of text.
pub fn say<H: Runtime>(rt: &H, text: &[u8]) {
    for line in text.lines() {
        let line = BStr::new(line);
        let _shown = eprintln!(rt; "{line}");
    }
}
