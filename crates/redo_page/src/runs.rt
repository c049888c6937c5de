//! What is told of the run.

ghost use Rattle.std.specs.Prelude.{◌≡◌, ◌++◌, ◌<◌, OnOk, flat_map, option_copied};
ghost use Rattle.redo_page.specs.Pages.{asked_pieces, began_pieces, directory_pieces, hundredths_pieces};
ghost use Rattle.redo_page.specs.Pages.{requested_pieces, run_pieces, time_pieces, took_pieces};
ghost use Rattle.redo_page.specs.Parts.{text_of};

use crate::parts::{Part, RunPart};
use crate::writer::Writer;
use redo_path::Path;
use redo_told::RunInfo;
use std::alloc::AllocError;

/// Adds the requested paths.
fn push_requested(out: &mut Writer, request: &[Path]) -> Result<(), AllocError>
    ensures { OnOk result (out.new ≡ out.old ++ text_of (flat_map requested_pieces request.now)) }
{
    for path in request {
        out.fixed(Part::Run(RunPart::Path))?;
        out.text(path.text())?;
        out.fixed(Part::Run(RunPart::PathEnd))?;
    }
    Ok(())
}

/// Adds which directory was built, if one was.
fn push_directory(out: &mut Writer, directory: Option<&str>) -> Result<(), AllocError>
    ensures { OnOk result (out.new ≡ out.old ++ text_of (directory_pieces (option_copied directory.entry))) }
{
    let Some(directory) = directory else {
        return Ok(());
    };
    out.fixed(Part::Run(RunPart::Directory))?;
    out.text(directory.as_bytes())?;
    out.fixed(Part::Run(RunPart::DirectoryEnd))
}

/// Adds when the run began, if that is known.
fn push_began(out: &mut Writer, began: Option<&str>) -> Result<(), AllocError>
    ensures { OnOk result (out.new ≡ out.old ++ text_of (began_pieces (option_copied began.entry))) }
{
    let Some(began) = began else {
        return Ok(());
    };
    out.fixed(Part::Run(RunPart::Began))?;
    out.text(began.as_bytes())
}

/// Adds hundredths of a second in two digits.
fn push_hundredths(out: &mut Writer, hundredths: u64) -> Result<(), AllocError>
    ensures { OnOk result (out.new ≡ out.old ++ text_of (hundredths_pieces hundredths)) }
{
    if hundredths < 10 {
        out.fixed(Part::Run(RunPart::Zero))?;
    }
    out.number(hundredths)?;
    out.fixed(Part::Run(RunPart::Seconds))
}

/// Adds how long the build took, if that is known.
fn push_took(out: &mut Writer, milliseconds: Option<u64>) -> Result<(), AllocError>
    ensures { OnOk result (out.new ≡ out.old ++ text_of (took_pieces milliseconds)) }
{
    let Some(milliseconds) = milliseconds else {
        return Ok(());
    };
    out.fixed(Part::Run(RunPart::Took))?;
    out.number(milliseconds / 1_000)?;
    out.fixed(Part::Run(RunPart::Point))?;
    push_hundredths(out, milliseconds % 1_000 / 10)
}

/// Adds what was requested, where, and by how many jobs.
fn push_asked(out: &mut Writer, run: &RunInfo<'_>) -> Result<(), AllocError>
    ensures { OnOk result (out.new ≡ out.old ++ text_of (asked_pieces run.now)) }
{
    out.fixed(Part::Run(RunPart::Requested))?;
    push_requested(out, run.request)?;
    push_directory(out, run.directory)?;
    out.fixed(Part::Run(RunPart::Jobs))?;
    out.number(run.jobs as u64)
}

/// Adds when it began, how long it took, and by which program.
fn push_time(out: &mut Writer, run: &RunInfo<'_>) -> Result<(), AllocError>
    ensures { OnOk result (out.new ≡ out.old ++ text_of (time_pieces run.now)) }
{
    push_began(out, run.began)?;
    push_took(out, run.milliseconds)?;
    out.fixed(Part::Run(RunPart::Version))?;
    out.text(run.version.as_bytes())
}

/// Adds the exit status, and what is told of the run.
#[tactic(auto, unfolding(crate::specs::Pages::run_pieces))]
pub(crate) fn push_run(out: &mut Writer, status: u8, run: &RunInfo<'_>) -> Result<(), AllocError>
    ensures { OnOk result (out.new ≡ out.old ++ text_of (run_pieces status run.now)) }
{
    out.fixed(Part::Run(RunPart::Begin))?;
    out.number(u64::from(status))?;
    push_asked(out, run)?;
    push_time(out, run)?;
    out.fixed(Part::Run(RunPart::End))
}
