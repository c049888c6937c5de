//! The targets that a build has seen, by number: how far each has come, which may be taken, and who waits for whom.
//!
//! The schedule knows neither paths nor scripts nor books. Its owner keeps what belongs to a target, as its script,
//! beside it. A target is in one of six stages:
//!
//! ```text
//!          add             make_ready          take            decide
//!   (new) ----> in hand --------------> ready ------> out --------------> decided
//!                ^  ^                                  |
//!                |  |   next_due, make_due             | wait
//!                |  +------------------------> due     v
//!                +---------------------------------- waiting
//!                          next_answered
//! ```
//!
//! A target in hand may be decided or may wait as one that is out may. What is ready is taken from a queue. Of what is
//! due the first by first sight is drawn first. What waits is in hand again once all that it waits for is decided.
//!
//! - `stage`: stages; `waits`: who waits for whom; `schedule`: [`Schedule`], with its queue.
#![tactic(auto)]

mod schedule;
mod stage;
mod waits;

pub use schedule::Schedule;
pub use waits::Answered;
