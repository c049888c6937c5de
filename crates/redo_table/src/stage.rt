//! How far a target has come.
ghost use Rattle.std.specs.Prelude.{◌≡◌};
ghost use Rattle.redo_table.specs.inside.Targets.{is_decided_target};

/// How far a target has come.
#[derive(Drop)]
pub enum Stage {
    Due,
    Ready,
    Out,
    InHand,
    Waiting(Waiting),
    Decided,
}

/// What a target waits for.
#[derive(Drop)]
pub struct Waiting {
    /// The numbers of the targets.
    pub on: Vec<u32>,
    /// How many of them are known to be decided, from the first on.
    pub decided: usize,
}

/// A target, with the numbers of those that are looked at again once it is decided.
#[derive(Drop)]
pub struct Target {
    pub stage: Stage,
    pub watchers: Vec<u32>,
}

impl Target {
    /// Whether the target is decided.
    pub(crate) fn is_decided(&self) -> bool
        ensures { result ≡ is_decided_target self.now }
    {
        matches!(self.stage, Stage::Decided)
    }
}
