//! How large a build may grow.

ghost use Rattle.std.specs.Prelude.{◌≡◌, ◌≤◌, ◌^◌, SomeIff};

use std::marker::Model;

const MOST_TARGETS: u32 = 65_536;

const MOST_BYTES: u32 = 1_073_741_824;

/// The most targets that a build may need, and the most bytes of a file. In a contract it is a record of the two.
#[derive(Clone, Copy, Debug, PartialEq, Eq)]
pub struct Limits {
    targets: u32,
    file_bytes: u32,
}

impl Model for Limits {
    ghost use Rattle.redo_step.specs.Limits.{AreLimits, LimitsView};

    ghost Value = { LimitsView };

    ghost view = { λ l. record { targets = l.targets; file_bytes = l.file_bytes } };

    ghost invariant = { λ l. AreLimits l.targets l.file_bytes };

    ghost inverse = { λ v. record { targets = v.targets; file_bytes = v.file_bytes } };
}

impl Limits {
    ghost use Rattle.redo_step.specs.Limits.{AreLimits};

    /// Limits of 1 to 65,536 targets, and of 1 byte to a gibibyte; `None` for other numbers.
    pub fn new(targets: u32, file_bytes: u32) -> Option<Limits>
        ensures { SomeIff result (AreLimits targets file_bytes)
            (record { targets = targets; file_bytes = file_bytes }) }
    {
        if targets < 1 || targets > MOST_TARGETS || file_bytes < 1 || file_bytes > MOST_BYTES {
            return None;
        }
        Some(Limits {
            targets,
            file_bytes,
        })
    }

    /// The most targets that a build may need.
    pub fn targets(&self) -> u32
        ensures value { result ≡ self.now.targets }
        ensures least { 1 ≤ result }
        ensures most { result ≤ 65536 }
    {
        self.targets
    }

    /// The most bytes that standard output or `$3` of a script may have.
    pub fn file_bytes(&self) -> u32
        ensures value { result ≡ self.now.file_bytes }
        ensures least { 1 ≤ result }
        ensures most { result ≤ 2 ^ 30 }
    {
        self.file_bytes
    }
}
