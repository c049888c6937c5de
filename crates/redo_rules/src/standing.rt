//! Whether a recorded entry stands: by the sources alone, or by the answer to the path that it asks for.

ghost use Rattle.std.specs.Prelude.{◌≡◌, IfOk, Some, ℕ};
ghost use Rattle.redo_book.specs.declared.book.BookEntry.TheVariants.{Change};
ghost use Rattle.redo_build.specs.Schedule.{nothing_known};
ghost use Rattle.redo_skip.specs.Checks.{has_state as is_of_state, standing, stands_if as stood_if, told};
ghost use Rattle.redo_rules.specs.Build.{sources_by};
ghost use Rattle.redo_rules.specs.Standing.{standing_of};

use redo_book::BookEntry;
use redo_digest::Digest;
use redo_past::{has_state, is_free};
use redo_path::Path;
use redo_record::Outcome;
use redo_tree::Tree;
use std::alloc::{AllocError, Global};

/// Whether an entry stands, judged without any answer.
#[derive(Clone, Copy)]
pub enum Alone {
    Stands,
    /// It depends on the answer to its path.
    Asks,
    Falls,
}

/// Stands if this holds, else falls.
fn stands_if(holds: bool) -> Alone
    ensures { standing_of result ≡ stood_if holds }
{
    if holds { Alone::Stands } else { Alone::Falls }
}

/// Whether a `change` stands, judged without any answer. A source or a .do file never has one. The digest of a source
/// was made when the book was read.
fn change_alone(sources: &Tree, state: &Option<Digest>, path: &Path) -> Alone
    ensures { (n : ℕ) →
        standing_of result ≡ standing (sources_by sources.now n) nothing_known (Change state.now path.now) }
{
    if let Some(content) = sources.content(path) {
        return stands_if(has_state(Some(content), state));
    }
    if path.name().ends_with(b".do") {
        return Alone::Falls;
    }
    Alone::Asks
}

/// Whether an entry stands, judged by the sources, without any answer. No limit counts.
pub fn standing_alone(alloc: Global, sources: &Tree, entry: &BookEntry) -> Result<Alone, AllocError>
    ensures { IfOk result (λ alone. (n : ℕ) →
        standing_of alone ≡ standing (sources_by sources.now n) nothing_known entry.now) }
{
    match entry {
        BookEntry::Change(state, path) => Ok(change_alone(sources, state, path)),
        BookEntry::Create(path) => Ok(stands_if(is_free(alloc, sources, path)?)),
        BookEntry::Always => Ok(Alone::Falls),
    }
}

/// Whether an answer tells of a file, or of no file, with this state.
pub fn is_as_recorded(outcome: &Outcome, state: &Option<Digest>) -> bool
    ensures { result ≡ is_of_state state.now (told (Some outcome.now)) }
{
    match outcome {
        Outcome::Source => state.is_none(),
        Outcome::Built(content) => has_state(content.as_ref(), state),
        Outcome::Failed(_) | Outcome::Cyclic => false,
    }
}
