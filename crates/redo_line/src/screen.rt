//! What standard error is.

use crate::line::Line;
use crate::voice::{Screen, Voice};
use std::env;
use std::io::IsTerminal;

/// Whether a variable of the environment is there, and not empty.
fn is_set(rt: &HostRuntime, name: &str) -> bool {
    env::var(rt, name).is_ok_and(|value| !value.is_empty())
}

/// How much is said on this standard error.
pub(crate) fn voice_of(rt: &HostRuntime, line: &Line<'_>) -> Voice {
    // By common use, any value but an empty one says that no colours are wanted, and a terminal that isn't named, or is
    // called dumb, takes no escape sequences.
    let is_dumb = env::var(rt, "TERM").is_ok_and(|value| value.as_str() == "dumb");
    let screen = Screen {
        is_terminal: rt.stderr().is_terminal(),
        is_able: is_set(rt, "TERM") && !is_dumb,
        is_colourful: !is_set(rt, "NO_COLOR"),
    };
    Voice::of(line, screen)
}
