//! A writer that fails at any of its calls. The program has a buffer of 64 KiB before its writer, so there a short
//! report meets a failure only once all of it is in the buffer, in `tests/failing-calls` too.

ghost use Rattle.std.specs.Prelude.{◌≡◌, None, false};
ghost use Rattle.redo_core.specs.Permits.{IsUnused};

use crate::trees::{host_of, limits_of, paths_of};
use redo_bundle::{Broken, ByteOut, Plain};
use redo_run::{Cause, Exit, Host, NoObserver, Options, RunIoFault, run_bundle};
use std::alloc::Global;
use std::sync::Wait;
use std::test::Fail;
use std::thread::Threads;

const HELLO: &str = "file 8 hello.do\necho hi\n\nend\n";

/// Takes at most three bytes per call, and fails at one call, counted from 0: with an error, or by taking nothing.
#[derive(Drop)]
struct Sink {
    text: Vec<u8>,
    calls: usize,
    fails_at: usize,
    takes_nothing: bool,
    broken: bool,
}

impl ByteOut for Sink {
    ghost held = { λ _. None };

    ghost has_failed = { λ s. s.broken };

    fn write(&mut self, buf: &[u8]) -> Result<usize, Broken> {
        if buf.is_empty() {
            return Ok(0);
        }
        let front = buf.get(..3).unwrap_or(buf);
        if self.calls == self.fails_at || self.text.extend_from_slice(front).is_err() {
            self.broken = true;
            return if self.takes_nothing {
                Ok(0)
            } else {
                Err(Broken)
            };
        }
        self.calls = self.calls.saturating_add(1);
        Ok(front.len())
    }

    fn failed(&self) -> bool {
        self.broken
    }
}

fn make_sink(alloc: Global, fails_at: usize, takes_nothing: bool) -> Sink
    ensures { result.broken ≡ false }
{
    Sink {
        text: Vec::new(alloc),
        calls: 0,
        fails_at,
        takes_nothing,
        broken: false,
    }
}

/// Builds `hello`, and returns how the run ends.
fn run_to<R: Threads + Wait + Sync, W: ByteOut>(
    host: &mut Host<'_, R, NoObserver>,
    writer: &mut W,
) -> Result<Result<Exit, RunIoFault>, Fail>
    requires writer { W.has_failed writer.old ≡ false }
    requires permit { IsUnused host.old.permit }
{
    let alloc = host.alloc();
    let options = Options {
        targets: paths_of(alloc, "hello")?,
        taken: Vec::new(alloc),
        workers: 1,
        limits: limits_of(1)?,
    };
    match run_bundle(
        host,
        &mut Plain::new(HELLO.as_bytes()),
        writer,
        &options,
        &mut Cause::new(alloc),
    ) {
        Ok(run) => Ok(Ok(run.exit)),
        Err(fault) => Ok(Err(fault)),
    }
}

/// A sink that didn't fail, with the whole report of `hello`.
fn whole_report<R: Threads + Wait + Sync>(host: &mut Host<'_, R, NoObserver>) -> Result<Sink, Fail>
    requires { IsUnused host.old.permit }
{
    let mut sink = make_sink(host.alloc(), usize::MAX, false);
    if run_to(host, &mut sink)? != Ok(Exit::Good) {
        Err("hello isn't built")?;
    }
    Ok(sink)
}

/// Whether a run whose writer fails at this call says so, and has written what as many calls take of the report.
fn is_told<R: Threads + Wait + Sync>(
    host: &mut Host<'_, R, NoObserver>,
    report: &[u8],
    call: usize,
    takes_nothing: bool,
) -> Result<bool, Fail>
    requires { IsUnused host.old.permit }
{
    let mut sink = make_sink(host.alloc(), call, takes_nothing);
    let outcome = run_to(host, &mut sink)?;
    let is_front = sink.calls == call && report.starts_with(&sink.text);
    Ok(is_front && outcome == Err(RunIoFault::Device))
}

#[test]
fn a_writer_may_fail_at_any_call(rt: HostRuntime) -> Result<(), Fail> {
    let whole = whole_report(&mut host_of(&rt))?;
    assert!(rt; whole.text.starts_with(b"built 3 hello\n"));
    for call in 0..whole.calls {
        for takes_nothing in [false, true] {
            assert!(rt;
                is_told(&mut host_of(&rt), &whole.text, call, takes_nothing)?,
                "call {call}"
            );
        }
    }
    Ok(())
}
