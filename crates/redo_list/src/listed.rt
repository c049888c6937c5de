//! A target that is out of date, as a list has it.

ghost use Rattle.std.specs.Prelude.{◌≡◌};
ghost use Rattle.redo_list.specs.Lists.{state_word};

use redo_path::Path;

/// In what way a target is out of date.
#[derive(Clone, Copy, Debug, PartialEq, Eq)]
pub enum State {
    /// A run that needs it begins its script.
    Stale,
    /// A run that needs it may begin its script.
    Maybe,
    /// By the records it waits for itself, or for such a target.
    Ring,
    /// No rule makes it any more.
    Lost,
    /// It has a rule, and the book has no record of it.
    New,
    /// It is requested, and is neither a source nor a target.
    Unknown,
}

impl State {
    /// The word for it.
    pub fn word(self) -> &'static str
        ensures { result.now ≡ state_word self }
    {
        match self {
            State::Stale => "stale",
            State::Maybe => "maybe",
            State::Ring => "ring",
            State::Lost => "lost",
            State::New => "new",
            State::Unknown => "unknown",
        }
    }
}

/// A target that is out of date.
#[derive(Debug, Drop)]
pub struct Listed {
    pub target: Path,
    pub state: State,
    /// Why, in words. A path in it stands there byte for byte.
    pub why: Vec<u8>,
}
