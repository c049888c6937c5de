//! How many targets there are of each kind.

ghost use Rattle.std.specs.Prelude.{◌≡◌, ◌++◌, IfOk, codes, decimal, string_bytes};
ghost use Rattle.redo_names.specs.Paths.{is_among};
ghost use Rattle.redo_short.specs.Short.{also, count_of as count_in, counted, done, is_of as is_of_kind, row_is_of, summary_of};

use redo_names::PathSet;
use redo_record::Outcome;
use redo_report::{Report, Row};
use std::alloc::{AllocError, Global};

/// Which targets are counted.
#[derive(Clone, Copy, Debug, PartialEq, Eq)]
pub(crate) enum Kind {
    /// All of them.
    Target,
    /// Those that a script built which was begun.
    Built,
    /// Those that were kept.
    Kept,
    Failed,
    Cyclic,
}

/// Whether a path with this outcome is a target of a kind, by whether its script was begun.
fn is_of(kind: Kind, outcome: &Outcome, begun: bool) -> bool
    ensures { result ≡ is_of_kind kind outcome.now begun }
{
    match outcome {
        Outcome::Source => false,
        Outcome::Built(_) => match kind {
            Kind::Target => true,
            Kind::Built => begun,
            Kind::Kept => !begun,
            Kind::Failed | Kind::Cyclic => false,
        },
        Outcome::Failed(_) => match kind {
            Kind::Target | Kind::Failed => true,
            Kind::Built | Kind::Kept | Kind::Cyclic => false,
        },
        Outcome::Cyclic => match kind {
            Kind::Target | Kind::Cyclic => true,
            Kind::Built | Kind::Kept | Kind::Failed => false,
        },
    }
}

/// Whether a row is a target of a kind.
fn is_row_of(begun: &PathSet, kind: Kind, row: &Row) -> bool
    ensures { result ≡ row_is_of (is_among begun.now) kind row.now }
{
    is_of(kind, &row.outcome, begun.contains(&row.path))
}

/// How many rows are targets of a kind.
#[tactic(auto, unfolding(crate::specs::Short::count_of))]
fn count_of(begun: &PathSet, rows: &[Row], kind: Kind) -> usize
    ensures { result ≡ count_in (is_among begun.now) rows.now kind }
{
    rows.iter()
        .filter(|row| is_row_of(begun, kind, row))
        .count()
}

/// A number of targets that isn't 1.
fn targets_words(alloc: Global, count: usize) -> Result<String, AllocError>
    ensures { IfOk result (λ words. string_bytes words ≡ decimal count ++ codes " targets") }
{
    format!(in alloc; "{count} targets")
}

/// A number of targets.
fn counted_words(alloc: Global, count: usize) -> Result<String, AllocError>
    ensures { IfOk result (λ words. string_bytes words ≡ counted count) }
{
    if count == 1 {
        String::from_str(alloc, "1 target")
    } else {
        targets_words(alloc, count)
    }
}

/// Words for the targets that were kept.
fn kept_words(alloc: Global, kept: usize) -> Result<String, AllocError>
    ensures { IfOk result (λ words. string_bytes words ≡ decimal kept ++ codes " kept") }
{
    format!(in alloc; "{kept} kept")
}

/// Words for the targets that were built, before others.
fn built_words(alloc: Global, built: usize) -> Result<String, AllocError>
    ensures { IfOk result (λ words. string_bytes words ≡ decimal built ++ codes " built, ") }
{
    format!(in alloc; "{built} built, ")
}

/// Words for the targets that were built and those that were kept.
fn done_words(alloc: Global, built: usize, kept: usize) -> Result<String, AllocError>
    ensures { IfOk result (λ words. string_bytes words ≡ done built kept) }
{
    let mut words = built_words(alloc, built)?;
    let kept = kept_words(alloc, kept)?;
    words.push_str(kept.as_str())?;
    Ok(words)
}

/// A number, before a word.
fn number_before(alloc: Global, count: usize) -> Result<String, AllocError>
    ensures { IfOk result (λ words. string_bytes words ≡ codes ", " ++ decimal count ++ codes " ") }
{
    format!(in alloc; ", {count} ")
}

/// Words for so many targets that failed or are cyclic.
fn number_words(alloc: Global, count: usize, word: &str) -> Result<String, AllocError>
    ensures { IfOk result (λ words. string_bytes words ≡ codes ", " ++ decimal count ++ codes " " ++ word.now) }
{
    let mut words = number_before(alloc, count)?;
    words.push_str(word)?;
    Ok(words)
}

/// The same, but none if there are none.
fn also_words(alloc: Global, count: usize, word: &str) -> Result<String, AllocError>
    ensures { IfOk result (λ words. string_bytes words ≡ also count word.now) }
{
    if count == 0 {
        String::from_str(alloc, "")
    } else {
        number_words(alloc, count, word)
    }
}

/// The parts of a summary in one.
fn joined(targets: String, done: &str, failed: &str, cyclic: &str) -> Result<String, AllocError>
    ensures { IfOk result (λ words. string_bytes words ≡
        string_bytes targets ++ codes ": " ++ done.now ++ failed.now ++ cyclic.now) }
{
    let mut words = targets;
    words.push_str(": ")?;
    words.push_str(done)?;
    words.push_str(failed)?;
    words.push_str(cyclic)?;
    Ok(words)
}

/// The summary of rows, with the paths whose scripts were begun.
pub(crate) fn summary_by(alloc: Global, begun: &PathSet, rows: &[Row]) -> Result<String, AllocError>
    ensures { IfOk result (λ words. string_bytes words ≡ summary_of (is_among begun.now) rows.now) }
{
    let targets = counted_words(alloc, count_of(begun, rows, Kind::Target))?;
    let built = count_of(begun, rows, Kind::Built);
    let kept = count_of(begun, rows, Kind::Kept);
    let done = done_words(alloc, built, kept)?;
    let failed = also_words(alloc, count_of(begun, rows, Kind::Failed), "failed")?;
    let cyclic = also_words(alloc, count_of(begun, rows, Kind::Cyclic), "cyclic")?;
    let words = joined(targets, done.as_str(), failed.as_str(), cyclic.as_str())?;
    Ok(words)
}

/// How many targets a build decided, by what became of them: `4 targets: 2 built, 1 kept, 1 failed`.
pub fn summary_words(alloc: Global, report: &Report) -> Result<String, AllocError>
    ensures { IfOk result (λ words. string_bytes words ≡
        summary_of (is_among report.now.begun.items) report.now.rows.items) }
{
    let begun = PathSet::of_paths(alloc, &report.begun)?;
    let words = summary_by(alloc, &begun, &report.rows)?;
    Ok(words)
}
