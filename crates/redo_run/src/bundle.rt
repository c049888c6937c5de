//! Runs over a bundle: builds with their reports, and searches for the rule of a target.

ghost use Rattle.std.specs.Prelude.{◌≡◌, ◌↔◌, false, IfOk, IfSome, IsErrOf, true};
ghost use Rattle.redo_bundle.specs.declared.faults.BundleFault.TheVariants as bundle_faults;
ghost use Rattle.redo_core.specs.Permits.{IsUnused};
ghost use Rattle.redo_run.specs.Runs.{Explains, ExplainsList, IsUntouched, Lists, Reports};

use crate::candidates::text_of_search;
use crate::exit::exit_after;
use crate::request::requested;
use crate::workers::{past_of, report_over};
use crate::{Cause, Exit, Host, Observer, Options, RunIoFault};
use redo_bundle::{ByteIn, ByteOut, read_bundle_by_line, write_all};
use redo_past::{Past, RunReport};
use redo_path::Path;
use redo_which::lookup::search;
use std::alloc::Global;
use std::marker::Brand;
use std::sync::Wait;
use std::thread::Threads;

/// What a run over a bundle came to.
#[derive(Drop)]
pub struct BundleRun {
    /// Whether every requested path is a source or built.
    pub exit: Exit,
    /// The past of the tree that was built, which the run opened.
    pub past: Past,
    /// The report, whose new book isn't text yet.
    pub report: RunReport,
}

/// Reads a bundle to its end, builds the requested targets, and writes the report, with the files of all targets that
/// are built or kept, and the new book. The report is the same for every number of workers. Nothing is written before
/// the build is done. The text of the new book is written piece by piece, and is never in memory.
///
/// The report is written in many small pieces: hand in a buffered writer, such as `Plain::new` over std's `BufWriter`,
/// and flush it afterwards. What is returned holds all memory of the run. A program that ends with the run may forget
/// it, rather than free it piece by piece.
pub fn run_bundle<H: Threads + Wait + Sync, R: ByteIn, W: ByteOut, O: Observer>(
    host: &mut Host<'_, H, O>,
    reader: &mut R,
    writer: &mut W,
    options: &Options,
    cause: &mut Cause,
) -> Result<BundleRun, RunIoFault>
    requires permit { IsUnused host.old.permit }
    requires reader { R.has_failed reader.old ≡ false }
    requires writer { W.has_failed writer.old ≡ false }
    ensures report { IfOk result (λ run. IfSome (R.left reader.old)
        (λ text. Reports options.now text (W.held writer.old) (W.held writer.new) run)) }
    ensures fault { IfSome (R.left reader.old)
        (λ text. Explains options.now text (W.held writer.old) (W.held writer.new) result) }
    ensures untouched { IsUntouched result writer.old writer.new }
    ensures read { IsErrOf result (RunIoFault.Bundle bundle_faults.Read) ↔ (R.has_failed reader.new ≡ true) }
    ensures device { IsErrOf result RunIoFault.Device ↔ (W.has_failed writer.new ≡ true) }
    ensures memory { IsErrOf result (RunIoFault.Bundle bundle_faults.Memory) → ⊥ }
{
    let tree = read_bundle_by_line(host.alloc(), reader, &mut cause.header)?;
    let (limits, workers) = (options.limits, options.workers);
    let request = requested(host.alloc(), &options.targets)?;
    let past = past_of(host.rt, host.alloc(), tree, workers)?;
    let kept = past.share()?;
    let report = report_over::<Brand, H, O>(host, past, &request, limits, workers)?;
    let exit = exit_after(host.alloc(), &report, &request)?;
    report.write(host.alloc(), writer)?;
    Ok(BundleRun {
        exit,
        past: kept,
        report,
    })
}

/// Reads a bundle to its end, and writes the candidates for a target's rule, one a line: those that are missing, and
/// the first that is a file. Returns whether there is one. What the target itself is doesn't matter (redo-whichdo(1)).
pub fn whichdo_bundle<R: ByteIn, W: ByteOut>(
    alloc: Global,
    reader: &mut R,
    writer: &mut W,
    target: &Path,
    cause: &mut Cause,
) -> Result<bool, RunIoFault>
    requires reader { R.has_failed reader.old ≡ false }
    requires writer { W.has_failed writer.old ≡ false }
    ensures list { IfOk result (λ found. IfSome (R.left reader.old)
        (λ text. Lists target.now text (W.held writer.old) (W.held writer.new) found)) }
    ensures fault { IfSome (R.left reader.old)
        (λ text. ExplainsList target.now text (W.held writer.old) (W.held writer.new) result) }
    ensures untouched { IsUntouched result writer.old writer.new }
    ensures read { IsErrOf result (RunIoFault.Bundle bundle_faults.Read) ↔ (R.has_failed reader.new ≡ true) }
    ensures device { IsErrOf result RunIoFault.Device ↔ (W.has_failed writer.new ≡ true) }
    ensures memory { IsErrOf result (RunIoFault.Bundle bundle_faults.Memory) → ⊥ }
{
    let tree = read_bundle_by_line(alloc, reader, &mut cause.header)?;
    let found = search(alloc, &tree, target)?;
    let text = text_of_search(alloc, &found)?;
    write_all(writer, &text)?;
    Ok(found.chosen.is_some())
}
