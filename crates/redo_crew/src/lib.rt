//! The protocol of the owner of a board and its workers: who looks for a job, who sleeps, and whom to wake.
//!
//! Six counts and a flag stand in one word. Owner and workers change it by steps that no other thread divides, each a
//! pure function of the [`Counts`]. The rule of the word, which it keeps at each moment of a run: if more jobs wait than
//! workers look or are called, each sleeper is called and each worker is started; and the counts are what the steps of
//! all threads, which each remembers without a byte, make of the first word.
//!
//! The owner has a [`Lead`]. It puts a job into a relay and calls `offer`, which rings for a sleeper or asks for a new
//! worker if too few look. A worker calls `find`, takes up its right to a job, takes one from the relay, advances it, sends
//! the piece and calls `back`. It looks for some microseconds before it sleeps. The owner may `claim` a job that waits, and
//! calls `end` when the run is over, which rings for each sleeper that isn't called.
//!
//! ```text
//!                 offer: Hire             Take                  back: Return
//!   not started -------------> looking ---------> has a job ------------------> looking
//!                                |   ^
//!                           Rest |   | Wake, by a ring, behind offer: Call
//!                                v   |
//!                               asleep                   end: all of them leave
//! ```
//!
//! | Who | Call | Steps of the word |
//! |---|---|---|
//! | owner | `offer` | `Spare`, `Call` and a ring, or `Hire` |
//! | owner | `claim` | `Claim` |
//! | owner | `end` | `End`, and a ring for each sleeper that isn't called |
//! | worker | `find` | `Take`; or `Rest`, a ring that is heard and `Wake`, and again |
//! | worker | `back` | `Return` |
//!
//! The laws are of the machine of these steps (`specs/Runs`) and of its rings (`specs/Bell`), for every number of
//! workers. They speak of steps; of threads, the system's sleep and its scheduler they say nothing.
//!
//! - `counts`: the counts, their steps and capacities; `word`, `bell`: the two under their rules; `crew`: what threads
//!   share; `member`: what one of them has of it; `lead`, `worker`: what each side does; `claim`: the right to a job;
//!   `laws`: laws.
#![tactic(auto)]

mod bell;
mod claim;
mod counts;
mod crew;
pub mod laws;
mod lead;
mod member;
mod word;
mod worker;

pub use claim::Claim;
pub use counts::{Counts, MOST_WORKERS, OUT_FOR_EACH, PLACES, Step};
pub use crew::Crew;
pub use lead::{Ended, Lead, Offer};
pub use member::First;
pub use worker::{Busy, Holding, Leaving, Looking};
