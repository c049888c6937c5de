//! A target's script as a job. It runs until it ends, or until it lacks an answer that redo-ifchange(1) asked for, and
//! goes on from there once the answers are known. However often it stops, it comes to what the whole script means with
//! these answers, and to the same record.
//!
//! - What a script is given: `limits`, `parsed` and `syntax_fault`, `answers`.
//! - A job and how it goes on: `job`, `machine`, `place`, `halt`.
//! - Commands, one idea each: `shell` (what they go by), `scene` (what they see besides answers), `scope` (the names
//!   that loops bind), `text`, `value` and `words`, `files`, `printf`, `sink` and `writing`, `declaring`, `commands`.
//! - Where a script ended, and by which operand: `ends`, `walk`, `operands`, `blame` and `shown`.
//! - Laws over what scripts mean: `laws`.
#![tactic(auto)]

mod answers;
mod blame;
mod commands;
mod declaring;
mod ends;
mod files;
mod halt;
mod job;
mod laws;
mod limits;
mod machine;
mod operands;
mod parsed;
mod place;
mod printf;
mod scene;
mod scope;
mod shell;
mod shown;
mod sink;
mod syntax_fault;
mod text;
mod value;
mod wait;
mod walk;
mod words;
mod writing;

pub use answers::Answers;
pub use ends::{AtFault, EndPlace, ScriptInputs, find_end};
pub use halt::Ending;
pub use job::{Done, Job, JobInputs, Step};
pub use laws::{
    agreeing_records, agreeing_runs, an_act_ends_its_run, followed_records, more_answers,
    next_operand, progress_is_lawful, same_rules, what_was_built_is_met,
};
pub use limits::Limits;
pub use parsed::Parsed;
pub use syntax_fault::SyntaxFault;
