//! Whole runs, from the bytes of a bundle, or a directory, to the bytes of the report, by one thread or by many.
//!
//! [`run_bundle`] reads a bundle to its end, builds the requested targets with as many workers as the options say,
//! and writes the report; [`whichdo_bundle`] writes where the rule of a target is looked for. [`run_dir`] and
//! [`whichdo_dir`] do the same for a directory; `run_dir` stores into it the files that it doesn't have yet as they
//! came out, and [`preview_dir`] stores nothing. [`open_dir`] builds nothing, either, and opens what the last run
//! left. [`build_many`] is the build alone, with the ledger of its jobs, and [`build_one`] the same in one thread,
//! without a relay.
//!
//! - `one`: a build by one thread; `workers`: by many, or by one through a relay; `owner`: what the thread with the
//!   board has and does; `crew`: what the workers do; `right`: who may take a job; `pool`: the workers, started and not;
//!   `pace`: which jobs are worth one; `of_build`: what they send each other; `ended`: what is left once they have ended;
//!   `host`: what a run is lent; `observer`: who is told of each job; `gate`: an observer that lets each job pass a gate;
//!   `picks`: a build in a given order;
//! - [`RunFault`]: why a build has no report; `exit`: whether every requested path is a source or built;
//! - `laws`: laws of runs, as contracts of functions that do nothing;
//! - `bundle`: the two calls over bundles; `options` and `fault`: what they take and refuse; `directory` and
//!   `dir_fault`: the same over a directory, in rounds; `loading`: how it is read; `wanting`: which files of it; `foreseen`:
//!   a build of what was read; `coverage`: whether that was all that it needs; `storing`: what is stored there; `opening`:
//!   a directory that is asked about; `request` and `candidates`: what both share.
#![tactic(auto)]

mod bundle;
mod candidates;
mod cause;
mod coverage;
mod crew;
mod dir_fault;
mod directory;
mod ended;
mod exit;
mod fault;
mod foreseen;
mod gate;
mod host;
pub mod laws;
mod loading;
mod observer;
mod of_build;
mod one;
mod opening;
mod options;
mod owner;
mod pace;
mod picks;
mod pool;
mod request;
mod right;
mod storing;
mod wanting;
mod workers;

pub use bundle::{BundleRun, run_bundle, whichdo_bundle};
pub use cause::{Cause, Said};
pub use dir_fault::RunDirFault;
pub use directory::{DirRun, preview_dir, run_dir, whichdo_dir};
pub use exit::Exit;
pub use fault::RunIoFault;
pub use gate::{Gate, Gated, NoGate};
pub use host::{Host, ROUNDS};
pub use loading::load;
pub use observer::{NoObserver, Observer};
pub use of_build::{BuildBrand, JobOf};
pub use one::build_one;
pub use opening::{Opened, open_dir};
pub use options::Options;
pub use picks::{Pick, drive};
pub use redo_core::opening::OpenFault as RunFault;
pub use request::{DEFAULT_TARGET, requested};
pub use storing::is_unchanged;
pub use workers::build_many;
