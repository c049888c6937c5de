//! The command line of `redo`: its forms, which options go together, and what they ask for.
//!
//! [`read_call`] reads the words of a call, and those of `REDOFLAGS` in front of them, and returns what to do
//! ([`Action`]) and how much to show of it ([`Voice`]). It shows a refusal itself.
//!
//! - `call`: a call's words, read and checked; `line`: what they say, by option;
//! - `forms`: the options that the parser knows; `commands`: what is done in place of a build, and which options
//!   exclude each other; `flags`: the words of `REDOFLAGS`;
//! - `asked`: what the words ask for, as `actions` has it; `above`: the directory that a run is over;
//! - `refusal`: why words are refused; `refusing`: how that is shown; `status`: exit statuses;
//! - `voice`: how much is said on standard error; `screen`: what standard error is.
#![tactic(auto)]

mod above;
mod actions;
mod asked;
mod call;
mod commands;
mod flags;
mod forms;
mod line;
mod refusal;
mod refusing;
mod screen;
pub mod status;
mod voice;

pub use above::{has_book, levels_to_book};
pub use actions::{
    Action, BuildOptions, Call, Cleaning, Dead, Format, Input, Listing, Packing, Query, Shadows,
    Storing,
};
pub use asked::MOST_TARGETS;
pub use call::read_call;
pub use voice::{Voice, say};
