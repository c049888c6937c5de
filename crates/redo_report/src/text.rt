//! The report of a build as text, written piece by piece. Only [`report_text`] allocates, apart from the lines of
//! candidates that are kept for the next row.
ghost use Rattle.std.specs.Prelude.{◌≡◌, ◌++◌, ◌∷◌, [], IfOk, codes, false, flat_map, is_err, option_copied};
ghost use Rattle.redo_record.specs.Entries.{change_of};
ghost use Rattle.redo_bundle.specs.Bundle.{Writes};
ghost use Rattle.redo_report.specs.ReportText.{begun_line, dep_line, file_head, file_text, head_text, outcome_words};
ghost use Rattle.redo_report.specs.ReportText.{path_line, reason_word, report_text, row_text, why_words, word_at};

use crate::lines::write_missing;
use crate::report::{Report, Row};
use itoa::Buffer;
use redo_bundle::{Broken, ByteOut, Plain, write_all, write_parts};
use redo_path::Path;
use redo_record::{Dep, DepKind, Outcome, Record, Why};
use redo_script::{Reason, ScriptFault};
use redo_tree::Content;
use redo_which::MissingLines;
use std::alloc::{AllocError, Global};

/// The report's text: the rows with their records, the begun scripts, the built files in a bundle's form, and the end
/// line. `with_files` decides whether the files are in it.
pub fn report_text(alloc: Global, report: &Report, with_files: bool) -> Result<Vec<u8>, AllocError>
    ensures { IfOk result (λ text. text.items ≡ report_text report.now with_files) }
{
    let mut out = Plain::new(Vec::new(alloc));
    match write_report(&mut out, report, with_files) {
        Ok(()) => {
            let Plain { stream, broken: _ } = out;
            Ok(stream)
        }
        Err(Broken) => Err(AllocError),
    }
}

/// Writes the text that [`report_text`] makes, in many small pieces: hand in a buffered writer. A failure leaves a
/// prefix of the text written. Memory only makes it faster, as candidates that neighbouring rows share are spelled
/// once.
pub fn write_report<W: ByteOut>(
    out: &mut W,
    report: &Report,
    with_files: bool,
) -> Result<(), Broken>
    requires { W.has_failed out.old ≡ false }
    ensures writes { Writes (W.held out.old) (W.held out.new) result (report_text report.now with_files) }
    ensures failed { W.has_failed out.new ≡ is_err result }
{
    write_head(out, report)?;
    if with_files {
        write_files(out, &report.files)?;
    }
    write_end(out)
}

/// Writes what comes before the files in a report: the rows with their records, and the begun scripts.
pub fn write_head<W: ByteOut>(out: &mut W, report: &Report) -> Result<(), Broken>
    requires { W.has_failed out.old ≡ false }
    ensures writes { Writes (W.held out.old) (W.held out.new) result (head_text report.now) }
    ensures failed { W.has_failed out.new ≡ is_err result }
{
    let lines = MissingLines::new(*report.rows.allocator(), b"dep create ");
    write_rows(out, &report.rows, lines)?;
    write_begun(out, &report.begun)
}

/// Writes the last line of a report.
pub fn write_end<W: ByteOut>(out: &mut W) -> Result<(), Broken>
    requires { W.has_failed out.old ≡ false }
    ensures writes { Writes (W.held out.old) (W.held out.new) result (codes "end\n") }
    ensures failed { W.has_failed out.new ≡ is_err result }
{
    write_all(out, b"end\n")
}

/// Writes the rows, with their records.
fn write_rows<'a, W: ByteOut>(
    out: &mut W,
    rows: &'a [Row],
    mut lines: MissingLines<'a>,
) -> Result<(), Broken>
    requires works { W.has_failed out.old ≡ false }
    requires front { lines.0 ≡ codes "dep create " }
    ensures writes { Writes (W.held out.old) (W.held out.new) result (flat_map row_text rows.now) }
    ensures failed { W.has_failed out.new ≡ is_err result }
{
    for row in rows {
        write_row(out, row, &mut lines)?;
    }
    Ok(())
}

/// Writes a line for each begun script.
fn write_begun<W: ByteOut>(out: &mut W, begun: &[Path]) -> Result<(), Broken>
    requires { W.has_failed out.old ≡ false }
    ensures writes { Writes (W.held out.old) (W.held out.new) result (flat_map begun_line begun.now) }
    ensures failed { W.has_failed out.new ≡ is_err result }
{
    for path in begun {
        write_path_line(out, b"begun ", path)?;
    }
    Ok(())
}

/// Writes files in a bundle's form.
pub fn write_files<W: ByteOut>(out: &mut W, files: &[(Path, Content)]) -> Result<(), Broken>
    requires { W.has_failed out.old ≡ false }
    ensures writes { Writes (W.held out.old) (W.held out.new) result (flat_map file_text files.now) }
    ensures failed { W.has_failed out.new ≡ is_err result }
{
    for file in files {
        write_file(out, file)?;
    }
    Ok(())
}

/// Writes a row, with its record.
fn write_row<'a, W: ByteOut>(
    out: &mut W,
    row: &'a Row,
    lines: &mut MissingLines<'a>,
) -> Result<(), Broken>
    requires works { W.has_failed out.old ≡ false }
    requires front { lines.old.0 ≡ codes "dep create " }
    ensures front { lines.new.0 ≡ lines.old.0 }
    ensures writes { Writes (W.held out.old) (W.held out.new) result (row_text row.now) }
    ensures failed { W.has_failed out.new ≡ is_err result }
{
    write_outcome(out, &row.outcome)?;
    write_path_line(out, b" ", &row.path)?;
    write_record(out, &row.deps, lines)
}

/// Writes the lines of a record from its parts, without making its entries.
fn write_record<'a, W: ByteOut>(
    out: &mut W,
    deps: &'a Record,
    lines: &mut MissingLines<'a>,
) -> Result<(), Broken>
    requires works { W.has_failed out.old ≡ false }
    requires front { lines.old.0 ≡ codes "dep create " }
    ensures front { lines.new.0 ≡ lines.old.0 }
    ensures writes { Writes (W.held out.old) (W.held out.new) result (flat_map dep_line deps.now) }
    ensures failed { W.has_failed out.new ≡ is_err result }
{
    let parts = deps.parts();
    write_missing(out, lines, parts.missing)?;
    write_do_file(out, parts.do_file)?;
    write_deps(out, parts.own)
}

/// Writes the line of a record's .do file, if it has one.
fn write_do_file<W: ByteOut>(out: &mut W, do_file: Option<&Path>) -> Result<(), Broken>
    requires { W.has_failed out.old ≡ false }
    ensures writes { Writes (W.held out.old) (W.held out.new) result
        (flat_map dep_line (change_of (option_copied do_file.entry))) }
    ensures failed { W.has_failed out.new ≡ is_err result }
{
    match do_file {
        Some(path) => write_path_line(out, b"dep change ", path),
        None => Ok(()),
    }
}

/// Writes the lines of entries.
fn write_deps<W: ByteOut>(out: &mut W, deps: &[Dep]) -> Result<(), Broken>
    requires { W.has_failed out.old ≡ false }
    ensures writes { Writes (W.held out.old) (W.held out.new) result (flat_map dep_line deps.now) }
    ensures failed { W.has_failed out.new ≡ is_err result }
{
    for dep in deps {
        write_dep(out, dep)?;
    }
    Ok(())
}

/// Writes the line of an entry of a record.
fn write_dep<W: ByteOut>(out: &mut W, dep: &Dep) -> Result<(), Broken>
    requires { W.has_failed out.old ≡ false }
    ensures writes { Writes (W.held out.old) (W.held out.new) result (dep_line dep.now) }
    ensures failed { W.has_failed out.new ≡ is_err result }
{
    match dep.kind {
        DepKind::Change => write_path_line(out, b"dep change ", &dep.path),
        DepKind::Create => write_path_line(out, b"dep create ", &dep.path),
        DepKind::Always => write_all(out, b"dep always\n"),
    }
}

/// Writes the words of an outcome.
fn write_outcome<W: ByteOut>(out: &mut W, outcome: &Outcome) -> Result<(), Broken>
    requires { W.has_failed out.old ≡ false }
    ensures writes { Writes (W.held out.old) (W.held out.new) result (outcome_words outcome.now) }
    ensures failed { W.has_failed out.new ≡ is_err result }
{
    match outcome {
        Outcome::Source => write_all(out, b"source"),
        Outcome::Built(None) => write_all(out, b"built none"),
        Outcome::Built(Some(content)) => {
            write_word_at(out, b"built", content.bytes().len() as u64)
        }
        Outcome::Failed(why) => {
            write_all(out, b"failed ")?;
            write_why(out, *why)
        }
        Outcome::Cyclic => write_all(out, b"cyclic"),
    }
}

/// Writes the words for why a target failed.
fn write_why<W: ByteOut>(out: &mut W, why: Why) -> Result<(), Broken>
    requires { W.has_failed out.old ≡ false }
    ensures writes { Writes (W.held out.old) (W.held out.new) result (why_words why) }
    ensures failed { W.has_failed out.new ≡ is_err result }
{
    match why {
        Why::NoRule => write_all(out, b"norule"),
        Why::Directory => write_all(out, b"directory"),
        Why::NoDirectory => write_all(out, b"nodirectory"),
        Why::Script(fault) => write_fault(out, fault),
        Why::Exit(status) => write_word_at(out, b"exit", u64::from(status)),
        Why::Depends(line) => write_word_at(out, b"depends", line),
        Why::Unquoted(line) => write_word_at(out, b"unquoted", line),
        Why::Outside(line) => write_word_at(out, b"outside", line),
        Why::Undeclared(line) => write_word_at(out, b"undeclared", line),
        Why::Exists(line) => write_word_at(out, b"exists", line),
        Why::Buildable(line) => write_word_at(out, b"buildable", line),
        Why::Direct(line) => write_word_at(out, b"direct", line),
        Why::Elsewhere(line) => write_word_at(out, b"elsewhere", line),
        Why::BothOutputs => write_all(out, b"both"),
        Why::TooLarge(line) => write_word_at(out, b"toolarge", line),
        Why::Format(line) => write_word_at(out, b"format", line),
    }
}

/// Writes the words for what is wrong with a script.
fn write_fault<W: ByteOut>(out: &mut W, fault: ScriptFault) -> Result<(), Broken>
    requires { W.has_failed out.old ≡ false }
    ensures writes { Writes (W.held out.old) (W.held out.new) result (why_words (Why.Script fault)) }
    ensures failed { W.has_failed out.new ≡ is_err result }
{
    let mut digits = Buffer::new();
    let line = digits.format(fault.line).as_bytes();
    write_parts(out, &[b"script ", line, b" ", word_of_reason(fault.why)])
}

/// The word for what is wrong with a script.
fn word_of_reason(reason: Reason) -> &'static [u8]
    ensures { result.now ≡ reason_word reason }
{
    match reason {
        Reason::Nul => b"nul",
        Reason::Interpreter => b"interpreter",
        Reason::OpenQuote => b"openquote",
        Reason::Unsupported => b"unsupported",
        Reason::UnknownCommand => b"unknowncommand",
        Reason::Shape => b"shape",
        Reason::IfShape => b"ifshape",
        Reason::TooDeep => b"toodeep",
        Reason::Memory => b"memory",
    }
}

/// Writes a word and a number, such as a line of the script.
fn write_word_at<W: ByteOut>(out: &mut W, word: &[u8], number: u64) -> Result<(), Broken>
    requires { W.has_failed out.old ≡ false }
    ensures writes { Writes (W.held out.old) (W.held out.new) result (word_at word.now number) }
    ensures failed { W.has_failed out.new ≡ is_err result }
{
    let mut digits = Buffer::new();
    write_parts(out, &[word, b" ", digits.format(number).as_bytes()])
}

/// Writes `front`, a path and a newline.
fn write_path_line<W: ByteOut>(out: &mut W, front: &[u8], path: &Path) -> Result<(), Broken>
    requires { W.has_failed out.old ≡ false }
    ensures writes { Writes (W.held out.old) (W.held out.new) result (front.now ++ path_line path.now) }
    ensures failed { W.has_failed out.new ≡ is_err result }
{
    write_parts(out, &[front, path.text(), b"\n"])
}

/// Writes a file in a bundle's form.
fn write_file<W: ByteOut>(out: &mut W, file: &(Path, Content)) -> Result<(), Broken>
    requires { W.has_failed out.old ≡ false }
    ensures writes { Writes (W.held out.old) (W.held out.new) result (file_text file.now) }
    ensures failed { W.has_failed out.new ≡ is_err result }
{
    let bytes = file.1.bytes();
    write_file_head(out, bytes.len(), file.0.text())?;
    write_parts(out, &[bytes, b"\n"])
}

/// Writes the line before a file's bytes: how many they are, and the path. The caller writes the bytes and a newline.
pub fn write_file_head<W: ByteOut>(out: &mut W, size: usize, path: &[u8]) -> Result<(), Broken>
    requires { W.has_failed out.old ≡ false }
    ensures writes { Writes (W.held out.old) (W.held out.new) result (file_head size path.now) }
    ensures failed { W.has_failed out.new ≡ is_err result }
{
    let mut digits = Buffer::new();
    let size = digits.format(size).as_bytes();
    write_parts(out, &[b"file ", size, b" ", path, b"\n"])
}
