//! What a build came to, as data and as text.
//!
//! - `report`: rows, files and begun scripts.
//! - `text`: the report as text; `lines`: the lines of missing candidates, one record after another.
#![tactic(auto)]

mod lines;
mod report;
mod text;

pub use lines::write_missing;
pub use report::{Report, Row};
pub use text::{report_text, write_end, write_file_head, write_files, write_head, write_report};
