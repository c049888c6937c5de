//! How many rows there are of each kind.

ghost use Rattle.std.specs.Prelude.{◌≡◌, ◌++◌, OnOk};
ghost use Rattle.redo_page.specs.Pages.{built_word as word_of_built, class_of as class_in, count_of as count_in};
ghost use Rattle.redo_page.specs.Pages.{count_pieces, counts_pieces, good_pieces, has_word as has_this_word};
ghost use Rattle.redo_page.specs.Pages.{outcome_word as word_of_outcome, row_word as word_in, summary_pieces};
ghost use Rattle.redo_page.specs.Pages.{wrong_pieces};
ghost use Rattle.redo_page.specs.Parts.{text_of};
ghost use Rattle.redo_page.specs.inside.Links.{known_by};

use crate::links::Links;
use crate::parts::{Part, SumPart, Word};
use crate::writer::Writer;
use redo_record::Outcome;
use redo_report::Row;
use redo_told::is_blocked;
use std::alloc::AllocError;

/// The word for a target that was built, by whether its script was begun and has made something else than before.
fn built_word(begun: bool, changed: bool) -> Word
    ensures { result ≡ word_of_built begun changed }
{
    match (begun, changed) {
        (true, true) => Word::Built,
        (true, false) => Word::Same,
        (false, _) => Word::Kept,
    }
}

/// The word for what became of a path, by whether its script was begun and its bytes are others than before.
fn outcome_word(outcome: &Outcome, begun: bool, changed: bool) -> Word
    ensures { result ≡ word_of_outcome outcome.now begun changed }
{
    match outcome {
        Outcome::Source => Word::Source,
        Outcome::Built(None) => built_word(begun, true),
        Outcome::Built(Some(_)) => built_word(begun, changed),
        Outcome::Failed(_) => {
            if is_blocked(outcome) {
                Word::Blocked
            } else {
                Word::Failed
            }
        }
        Outcome::Cyclic => Word::Cyclic,
    }
}

/// The word for what became of a row.
pub(crate) fn row_word(links: &Links<'_>, row: &Row) -> Word
    ensures { result ≡ word_in (known_by links.now) row.now }
{
    let (begun, changed) = (links.is_begun(&row.path), links.is_changed(&row.path));
    outcome_word(&row.outcome, begun, changed)
}

/// Whether this is the word for what became of a row.
fn has_word(links: &Links<'_>, word: Word, row: &Row) -> bool
    ensures { result ≡ has_this_word (known_by links.now) word row.now }
{
    row_word(links, row).bytes() == word.bytes()
}

/// How many rows have that word.
#[tactic(auto, unfolding(crate::specs::Pages::count_of))]
fn count_of(links: &Links<'_>, rows: &[Row], word: Word) -> usize
    ensures { result ≡ count_in (known_by links.now) rows.now word }
{
    rows.iter().filter(|row| has_word(links, word, row)).count()
}

/// The class of a count.
fn class_of(word: Word, count: usize) -> Word
    ensures { result ≡ class_in word count }
{
    if count == 0 { Word::Nothing } else { word }
}

/// Adds how many rows have a word.
fn push_count(out: &mut Writer, word: Word, count: usize) -> Result<(), AllocError>
    ensures { OnOk result (out.new ≡ out.old ++ text_of (count_pieces word count)) }
{
    out.fixed(Part::Sum(SumPart::Line))?;
    out.fixed(Part::Word(class_of(word, count)))?;
    out.fixed(Part::Sum(SumPart::Name))?;
    out.fixed(Part::Shown(word))?;
    out.fixed(Part::Sum(SumPart::Count))?;
    out.number(count as u64)?;
    out.fixed(Part::Sum(SumPart::LineEnd))
}

/// Adds how many targets weren't built.
fn push_wrong(out: &mut Writer, links: &Links<'_>, rows: &[Row]) -> Result<(), AllocError>
    ensures { OnOk result (out.new ≡ out.old ++ text_of (wrong_pieces (known_by links.now) rows.now)) }
{
    push_count(out, Word::Failed, count_of(links, rows, Word::Failed))?;
    push_count(out, Word::Blocked, count_of(links, rows, Word::Blocked))?;
    push_count(out, Word::Cyclic, count_of(links, rows, Word::Cyclic))
}

/// Adds how many targets were built or kept.
fn push_good(out: &mut Writer, links: &Links<'_>, rows: &[Row]) -> Result<(), AllocError>
    ensures { OnOk result (out.new ≡ out.old ++ text_of (good_pieces (known_by links.now) rows.now)) }
{
    push_count(out, Word::Built, count_of(links, rows, Word::Built))?;
    push_count(out, Word::Same, count_of(links, rows, Word::Same))?;
    push_count(out, Word::Kept, count_of(links, rows, Word::Kept))
}

/// Adds how many rows there are of each kind.
fn push_counts(out: &mut Writer, links: &Links<'_>, rows: &[Row]) -> Result<(), AllocError>
    ensures { OnOk result (out.new ≡ out.old ++ text_of (counts_pieces (known_by links.now) rows.now)) }
{
    push_wrong(out, links, rows)?;
    push_good(out, links, rows)?;
    push_count(out, Word::Source, count_of(links, rows, Word::Source))
}

/// Adds the summary.
#[tactic(auto, unfolding(crate::specs::Pages::summary_pieces))]
pub(crate) fn push_summary(
    out: &mut Writer,
    links: &Links<'_>,
    rows: &[Row],
) -> Result<(), AllocError>
    ensures { OnOk result (out.new ≡ out.old ++ text_of (summary_pieces (known_by links.now) rows.now)) }
{
    out.fixed(Part::Sum(SumPart::Begin))?;
    push_counts(out, links, rows)?;
    out.fixed(Part::Sum(SumPart::End))
}
