//! A report as one page of HTML that needs nothing else.
//!
//! [`page`] shows a report with what happened, its failures, cycles, targets and notes, [`list_page`] a list of targets
//! that are out of date. A page consists only of fixed parts, decimal numbers and texts. Each text is escaped, and
//! stands in the content of an element or in a string of the data: never in a tag, an attribute, the style, a script or
//! the title. So no text is ever read as markup.
//!
//! The data has all rows. From it the scripts make a table, of which only the rows in view are elements, and for a
//! report a graph of groups of targets. Without the scripts a table shows the first 500 rows, those of a report with a
//! link to each row that the record names and to each that names it. The policy in the head lets nothing else run, and
//! nothing be fetched.
//!
//! - `whole`: the page of a report, from `runs`, `summary`, `failures`, `rings`, `rows`, `notes` and `data_block`;
//!   `list`: the page of a list;
//! - `links`: which row has a path, which rows need it, and which targets have changed; `whys`: why scripts were begun;
//!   `named`: paths by number; `grouping`: rows that are alike;
//! - `writer`: what is written, and how; `escape`: texts; `parts`: fixed parts, of which `head`, `style`, `middle`,
//!   `table`, `graph`, `script` and `list_script` are long.
#![tactic(auto)]

mod data_block;
mod escape;
mod failures;
mod graph;
mod grouping;
mod head;
mod links;
mod list;
mod list_script;
mod middle;
mod named;
mod notes;
mod parts;
mod rings;
mod rows;
mod runs;
mod script;
mod style;
mod summary;
mod table;
mod whole;
mod whys;
mod writer;

pub use list::list_page;
pub use whole::{Told, page};
