//! What the last run left, removed again.
//!
//! A [`CleanPlan`] has the generated files of a past, which stand as the last run left them, and the targets whose
//! files were changed since. [`clean`] removes the former, each only if it still has its bytes, and then the book;
//! whatever else is in the directory stays.
//!
//! - `planning`: what a clean would remove and keep; `fate`: what becomes of a file; `faults`: why a clean stops;
//! - `cleaning`: the clean itself; `text`: what it prints;
//! - [`laws`]: what a clean depends on.
#![tactic(auto)]

mod cleaning;
mod fate;
mod faults;
pub mod laws;
mod planning;
mod text;

pub use cleaning::clean;
pub use fate::Fate;
pub use faults::CleanFault;
pub use planning::{CleanPlan, generated_at, plan};
pub use text::{cleaned_text, planned_text};
