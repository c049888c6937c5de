//! The answers that a script gets.

ghost use Rattle.std.specs.Prelude.{◌≡◌, List, ℕ, Option, option_copied};
ghost use Rattle.redo_record.specs.declared.outcome.Outcome.{Outcome as OutcomeTree};

use redo_path::Path;
use redo_record::Outcome;

/// Knows the outcomes of some paths. It is never asked about a source.
pub trait Answers {
    // The outcome of each path, where it is known.
    ghost ask: { Self → List ℕ → Option OutcomeTree };

    fn answer(&self, path: &Path) -> Option<&Outcome>
        ensures { option_copied result ≡ ask self.now path.now };
}
