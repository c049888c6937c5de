//! What the threads of a parallel build share without a lock: write-once cells, and a relay that hands each job to one
//! worker.
//!
//! [`Cells`] are a row of cells. Each is written at most once, by whichever thread publishes first, and read by any;
//! a [`Known`] is a published value. [`relay`] makes the ends of a relay: a [`JobSource`], which gives jobs, and a
//! [`JobTaker`] for each worker, which takes them. Once the workers have ended, [`gather`] turns the ends into a
//! [`Ledger`]: each job that was given was taken once, by one taker, or is left. No call waits or takes a lock, so
//! none needs a handle; the caller brings the threads.
//!
//! - `cells`: a row of cells, and published values; `knows`: what is known of a cell;
//! - `source`, `taker`: the ends of a relay; `open`: how they are made;
//! - `ledger`: taking back the ends, and what is left;
//! - `rule`: what a job is, and the invariant of its queue.
#![tactic(auto)]

mod cells;
mod knows;
mod ledger;
mod open;
mod rule;
mod source;
mod taker;

pub use cells::{Cells, Known};
pub use ledger::{Ledger, gather};
pub use open::relay;
pub use rule::Numbered;
pub use source::JobSource;
pub use taker::{JobTaker, Taken};
